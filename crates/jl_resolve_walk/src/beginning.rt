//! What is known before the first item: the sites of the prelude, and the first fault of the declarations.

ghost use Rattle.std.specs.Prelude.{◌≡◌, IfOk};
ghost use Rattle.jl_model.specs.Ancestors.{named};
ghost use Rattle.jl_program.specs.Prelude.{prelude_sites, builtin_site, shape_types};
ghost use Rattle.jl_resolve_forms.specs.Top.{beginning};

use jl_model::builtin::{BOOL, INT64};
use jl_model::shared::SharedList;
use jl_model::ty::{Ty, Tys, Written};
use jl_program::prelude::{Shape, operations};
use jl_program::tree::{Expr as Code, Site};
use jl_resolve_forms::cells::Cells;
use jl_resolve_forms::state::State;
use jl_written::fault::Fault;
use std::alloc::{AllocError, Global};

fn declare_builtin(number: u32) -> Ty
    ensures { result ≡ named number }
{
    Ty::Nominal(number, SharedList::empty())
}

fn types(alloc: Global, shape: Shape) -> Result<Tys, AllocError>
    ensures { IfOk result (λ ts. ts ≡ shape_types shape) }
{
    let mut types = Vec::new(alloc);
    match shape {
        Shape::Integer => types.push(declare_builtin(INT64))?,
        Shape::Integers => {
            types.push(declare_builtin(INT64))?;
            types.push(declare_builtin(INT64))?;
        }
        Shape::Truth => types.push(declare_builtin(BOOL))?,
        Shape::Truths => {
            types.push(declare_builtin(BOOL))?;
            types.push(declare_builtin(BOOL))?;
        }
    }
    SharedList::from_vec(alloc, types)
}

fn builtin(alloc: Global, function: u32, shape: Shape) -> Result<Site, AllocError>
    ensures { IfOk result (λ s. s ≡ builtin_site function (shape_types shape)) }
{
    let sig = Written {
        vars: SharedList::empty(),
        parts: types(alloc, shape)?,
    };
    Ok(Site {
        function,
        sig,
        body: Code::Nothing,
    })
}

/// The sites of the prelude, whose meaning is built in.
fn sites(alloc: Global) -> Result<Cells<Site>, AllocError>
    ensures { IfOk result (λ v. v ≡ prelude_sites) }
{
    let rows = operations();
    let mut sites = Cells::new(alloc);
    for (_, function, shape) in rows.as_slice() {
        sites.push(builtin(alloc, *function, *shape)?)?;
    }
    Ok(sites)
}

/// What is known before the first item.
pub(crate) fn beginning(alloc: Global, fault: Option<Fault>) -> Result<State, AllocError>
    ensures { IfOk result (λ s. s ≡ beginning fault) }
{
    let sites = sites(alloc)?;
    Ok(State {
        sites,
        spawns: Cells::new(alloc),
        deletes: Cells::new(alloc),
        fault,
    })
}
