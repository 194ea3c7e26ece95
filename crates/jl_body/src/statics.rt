//! Types with `Any` in place of static parameters.

ghost use Rattle.std.specs.Prelude.{◌≡◌, IfOk, length, map};
ghost use Rattle.jl_model.specs.Subtype.{put};
ghost use Rattle.jl_program.specs.BodyTypes.{own_or_any, any_in_bound, without_statics, without_any_statics};

use jl_model::ty::{Bound, Bounds, Ty, Tys, Written};
use std::alloc::{AllocError, Global};

/// Each with `Any` for the variables from `own` on.
#[cycle(statics)]
#[tactic(auto, using(crate::proofs::StaticLemmas::putting))]
fn all_without_statics(alloc: Global, types: &[Ty], own: usize) -> Result<Tys, AllocError>
    ensures { IfOk result (λ r. r ≡ map (put (own_or_any own)) types.now) }
{
    let mut items = Vec::new(alloc);
    for ty in types {
        items.push(ty_without_statics(alloc, ty, own)?)?;
    }
    Tys::from_vec(alloc, items)
}

/// A type with `Any` for the variables from `own` on.
#[cycle(statics)]
#[tactic(auto, using(crate::proofs::StaticLemmas::putting))]
fn ty_without_statics(alloc: Global, ty: &Ty, own: usize) -> Result<Ty, AllocError>
    ensures { IfOk result (λ r. r ≡ put (own_or_any own) ty.now) }
{
    match ty {
        Ty::Any => Ok(Ty::Any),
        Ty::Union(members) => Ok(Ty::Union(all_without_statics(alloc, members.as_slice(), own)?)),
        Ty::Tuple(parts) => Ok(Ty::Tuple(all_without_statics(alloc, parts.as_slice(), own)?)),
        Ty::Nominal(name, arguments) => Ok(Ty::Nominal(
            *name,
            all_without_statics(alloc, arguments.as_slice(), own)?,
        )),
        Ty::Var(variable) => {
            if (*variable as usize) < own {
                return Ok(Ty::Var(*variable));
            }
            Ok(Ty::Any)
        }
    }
}

/// A written type with `Any` for each static parameter outside the bounds: a variable whose number is the count of the
/// type's own variables or more.
pub fn without_statics(alloc: Global, written: &Written) -> Result<Written, AllocError>
    ensures { IfOk result (λ plain. plain ≡ without_statics written.now) }
{
    let vars = written.vars.copy()?;
    let parts = all_without_statics(alloc, written.parts.as_slice(), written.vars.len())?;
    Ok(Written { vars, parts })
}

/// Each bound with `Any` for the variables from `own` on.
fn bounds_without_statics(alloc: Global, bounds: &[Bound], own: usize) -> Result<Bounds, AllocError>
    ensures { IfOk result (λ r. r ≡ map (any_in_bound own) bounds.now) }
{
    let mut items = Vec::new(alloc);
    for bound in bounds {
        let low = ty_without_statics(alloc, &bound.low, own)?;
        let high = ty_without_statics(alloc, &bound.high, own)?;
        items.push(Bound { low, high })?;
    }
    Bounds::from_vec(alloc, items)
}

/// A written type with `Any` for each static parameter, in the bounds too.
pub fn without_any_statics(alloc: Global, written: &Written) -> Result<Written, AllocError>
    ensures { IfOk result (λ plain. plain ≡ without_any_statics written.now) }
{
    let own = written.vars.len();
    let vars = bounds_without_statics(alloc, written.vars.as_slice(), own)?;
    let parts = all_without_statics(alloc, written.parts.as_slice(), own)?;
    Ok(Written { vars, parts })
}
