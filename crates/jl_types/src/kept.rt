//! What a declaration keeps of its parent and of its fields' types: the arguments of nominal types stand in normal form
//! where no variable is in them, and all else is as written. The type that is being declared may stand in them.

ghost use Rattle.std.specs.Prelude.{◌≡◌, ◌+◌, ◌≤◌, IsTrue, IfOk, OnOk, Err, Bool, List, length};
ghost use Rattle.std.specs.List.{list_all};
ghost use Rattle.jl_model.specs.declared.ty.Ty.{Ty};
ghost use Rattle.jl_model.specs.declared.ty.Decl.{Decl};
ghost use Rattle.jl_model.specs.Signature.{Both};
ghost use Rattle.jl_model.specs.Counts.{IsWithinLimits};
ghost use Rattle.jl_model.specs.Valid.{is_known};
ghost use Rattle.jl_model.specs.Kept.{Settled};
ghost use Rattle.jl_model.specs.Refusals.{table_with, is_free_of, is_placed, is_placed_field};
ghost use Rattle.jl_types.specs.Form.{IsOfParts, Settles, Keeps, IsKeptTooLarge};

use crate::form::form;
use crate::normal_form::{NormFault, is_within_limits};
use crate::table::Table;
use jl_model::ty::{Ty, Tys};
use std::alloc::{AllocError, Global};

/// Whether neither a variable nor the nominal type of this number stands in any of these.
#[cycle(free)]
#[tactic(auto, using(crate::proofs::PlaceLemmas::freeing))]
fn are_free(own: u32, types: &[Ty]) -> bool
    ensures { result ≡ list_all (is_free_of own) types.now }
{
    for ty in types {
        if !is_free(own, ty) {
            return false;
        }
    }
    true
}

/// Whether neither a variable nor the nominal type of this number stands in a type.
#[cycle(free)]
#[tactic(auto, using(crate::proofs::PlaceLemmas::freeing))]
pub fn is_free(own: u32, ty: &Ty) -> bool
    ensures { result ≡ is_free_of own ty.now }
{
    match ty {
        Ty::Any => true,
        Ty::Union(members) => are_free(own, members.as_slice()),
        Ty::Tuple(parts) => are_free(own, parts.as_slice()),
        Ty::Nominal(name, arguments) => *name != own && are_free(own, arguments.as_slice()),
        Ty::Var(_) => false,
    }
}

/// Each argument as it is kept.
#[cycle(argument)]
fn keep_arguments(alloc: Global, table: &Table, types: &[Ty]) -> Result<Tys, AllocError>
    requires known { IsTrue (list_all (is_known (length table.now + 1)) types.now) }
    requires placed { IsTrue (list_all (is_placed (length table.now)) types.now) }
    ensures { IfOk result (λ us. Both (Keeps table.now) types.now us) }
{
    let mut items = Vec::new(alloc);
    for ty in types {
        items.push(keep_argument(alloc, table, ty)?)?;
    }
    Tys::from_vec(alloc, items)
}

/// An argument as it is kept.
#[cycle(argument)]
fn keep_argument(alloc: Global, table: &Table, ty: &Ty) -> Result<Ty, AllocError>
    requires known { IsTrue (is_known (length table.now + 1) ty.now) }
    requires placed { IsTrue (is_placed (length table.now) ty.now) }
    ensures { IfOk result (λ u. Keeps table.now ty.now u) }
{
    if is_free(table.count(), ty) {
        return form(alloc, table, ty);
    }
    match ty {
        Ty::Nominal(name, arguments) => Ok(Ty::Nominal(
            *name,
            keep_arguments(alloc, table, arguments.as_slice())?,
        )),
        _ => ty.copy(),
    }
}

/// Each as it is kept.
#[cycle(keep)]
fn keep_all(alloc: Global, table: &Table, types: &[Ty]) -> Result<Tys, AllocError>
    requires known { IsTrue (list_all (is_known (length table.now + 1)) types.now) }
    requires placed { IsTrue (list_all (is_placed_field (length table.now)) types.now) }
    ensures { IfOk result (λ us. Both (Settles (Keeps table.now)) types.now us) }
{
    let mut items = Vec::new(alloc);
    for ty in types {
        items.push(keep(alloc, table, ty)?)?;
    }
    Tys::from_vec(alloc, items)
}

/// A type as it is kept, however large.
#[cycle(keep)]
fn keep(alloc: Global, table: &Table, ty: &Ty) -> Result<Ty, AllocError>
    requires known { IsTrue (is_known (length table.now + 1) ty.now) }
    requires placed { IsTrue (is_placed_field (length table.now) ty.now) }
    ensures { IfOk result (λ u. Settles (Keeps table.now) ty.now u) }
{
    match ty {
        Ty::Any => Ok(Ty::Any),
        Ty::Union(members) => Ok(Ty::Union(keep_all(alloc, table, members.as_slice())?)),
        Ty::Tuple(parts) => Ok(Ty::Tuple(keep_all(alloc, table, parts.as_slice())?)),
        Ty::Nominal(name, arguments) => Ok(Ty::Nominal(
            *name,
            keep_arguments(alloc, table, arguments.as_slice())?,
        )),
        Ty::Var(variable) => Ok(Ty::Var(*variable)),
    }
}

/// A parent or the type of a field as a declaration that comes next keeps it. The number of the declaration, which the
/// table does not have yet, may stand in it. `TypeLimit` comes exactly where it has more than 1,024 nodes or a part of more
/// than 256 raw alternatives, as written or as kept.
pub fn settled(alloc: Global, table: &Table, ty: &Ty) -> Result<Ty, NormFault>
    requires known { IsTrue (is_known (length table.now + 1) ty.now) }
    requires placed { IsTrue (is_placed_field (length table.now) ty.now) }
    ensures kept { IfOk result (λ u. (d : Decl) → Settled (table_with table.now d) ty.now u) }
    ensures small { IfOk result (λ u. IsWithinLimits u) }
    ensures within { OnOk result (IsWithinLimits ty.now) }
    ensures passes { IfOk result (λ u. (p : Ty → Bool) → IsOfParts p → IsTrue (p ty.now) → IsTrue (p u)) }
    ensures limit { result ≡ Err NormFault.TypeLimit → IsKeptTooLarge table.now ty.now }
{
    table.valid();
    if !is_within_limits(ty) {
        return Err(NormFault::TypeLimit);
    }
    let kept = keep(alloc, table, ty)?;
    if !is_within_limits(&kept) {
        return Err(NormFault::TypeLimit);
    }
    Ok(kept)
}
