//! Normal forms without a bound: types are expanded into their alternatives, of which those below others are dropped and
//! the rest are put in order (Belyakova et al., OOPSLA 2020).

ghost use Rattle.std.specs.Prelude.{◌≡◌, ◌≤◌, false, IsTrue, IfOk, length};
ghost use Rattle.std.specs.List.{list_all};
ghost use Rattle.jl_model.specs.Signature.{Both};
ghost use Rattle.jl_model.specs.Valid.{is_known};
ghost use Rattle.jl_types.specs.Form.{Formed, Settles, AllSmall, HasLarge, Gathers};

use crate::expand::expand;
use crate::reduce::{is_small, reduced};
use crate::sort::sorted;
use crate::table::Table;
use jl_model::ty::{Ty, Tys};
use std::alloc::{AllocError, Global};

/// Whether each has at most 1,024 nodes.
fn are_small(types: &[Ty]) -> bool
    ensures small { IsTrue result → AllSmall types.now }
    ensures large { result ≡ false → HasLarge types.now }
{
    for ty in types {
        if !is_small(ty) {
            return false;
        }
    }
    true
}

/// The members as one type: a single one is itself, and others stand in a union, in order where all are small.
fn gathered(alloc: Global, members: Vec<Ty>) -> Result<Ty, AllocError>
    ensures { IfOk result (λ u. Gathers members.items u) }
{
    if members.len() == 1 {
        return members[0].copy();
    }
    if !are_small(members.as_slice()) {
        return Ok(Ty::Union(Tys::from_vec(alloc, members)?));
    }
    let ordered = sorted(alloc, members.as_slice())?;
    Ok(Ty::Union(Tys::from_vec(alloc, ordered)?))
}

/// Each with the arguments of its nominal types in normal form.
#[cycle(form)]
fn settle_all(alloc: Global, table: &Table, types: &[Ty]) -> Result<Tys, AllocError>
    requires { IsTrue (list_all (is_known (length table.now)) types.now) }
    ensures { IfOk result (λ us. Both (Settles (Formed table.now)) types.now us) }
{
    let mut items = Vec::new(alloc);
    for ty in types {
        items.push(settle(alloc, table, ty)?)?;
    }
    Tys::from_vec(alloc, items)
}

/// A type with the arguments of its nominal types in normal form, and all else as written.
#[cycle(form)]
pub fn settle(alloc: Global, table: &Table, ty: &Ty) -> Result<Ty, AllocError>
    requires { IsTrue (is_known (length table.now) ty.now) }
    ensures { IfOk result (λ u. Settles (Formed table.now) ty.now u) }
{
    match ty {
        Ty::Any => Ok(Ty::Any),
        Ty::Union(members) => Ok(Ty::Union(settle_all(alloc, table, members.as_slice())?)),
        Ty::Tuple(parts) => Ok(Ty::Tuple(settle_all(alloc, table, parts.as_slice())?)),
        Ty::Nominal(name, arguments) => Ok(Ty::Nominal(
            *name,
            form_all(alloc, table, arguments.as_slice())?,
        )),
        Ty::Var(variable) => Ok(Ty::Var(*variable)),
    }
}

/// The form of each.
#[cycle(form)]
fn form_all(alloc: Global, table: &Table, types: &[Ty]) -> Result<Tys, AllocError>
    requires { IsTrue (list_all (is_known (length table.now)) types.now) }
    ensures { IfOk result (λ us. Both (Formed table.now) types.now us) }
{
    let mut items = Vec::new(alloc);
    for ty in types {
        items.push(form(alloc, table, ty)?)?;
    }
    Tys::from_vec(alloc, items)
}

/// The normal form of a type, or an equal type of more than 1,024 nodes where the normal form has more.
#[cycle(form)]
pub fn form(alloc: Global, table: &Table, ty: &Ty) -> Result<Ty, AllocError>
    requires { IsTrue (is_known (length table.now) ty.now) }
    ensures { IfOk result (λ u. Formed table.now ty.now u) }
{
    table.valid();
    let settled = settle(alloc, table, ty)?;
    let candidates = expand(alloc, &settled)?;
    let members = reduced(alloc, table, candidates.as_slice())?;
    gathered(alloc, members)
}
