//! What the types of a signature are kept as: the arguments of nominal types stand in normal form, and all else is as
//! written.

ghost use Rattle.std.specs.Prelude.{◌≡◌, IsTrue, IfOk, length};
ghost use Rattle.jl_model.specs.Ancestors.{table_of};
ghost use Rattle.jl_model.specs.Signature.{Both};
ghost use Rattle.jl_model.specs.Normal.{IsNormalForm};
ghost use Rattle.jl_model.specs.Valid.{is_known};
ghost use Rattle.jl_types.specs.Form.{IsTooLarge};
ghost use Rattle.jl_sig.specs.Fit.{IsFit, IsFitArgument, AllFit, AllFitArguments, IsKeptAs};

use jl_model::ty::{Ty, Tys};
use jl_types::closed::is_closed;
use jl_types::{NormFault, Table, normal};
use std::alloc::{AllocError, Global};

/// The normal form of a type that is not too large for one.
fn small_form(alloc: Global, table: &Table, ty: &Ty) -> Result<Ty, AllocError>
    requires known { IsTrue (is_known (length table.now) ty.now) }
    requires small { IsTooLarge table.now ty.now → ⊥ }
    ensures { IfOk result (λ u. IsNormalForm (table_of table.now) ty.now u) }
{
    match normal(alloc, table, ty) {
        Ok(form) => Ok(form),
        Err(NormFault::TypeLimit) => unreachable!(),
        Err(NormFault::Memory) => Err(AllocError),
    }
}

/// Each argument in normal form.
#[cycle(argument)]
fn keep_arguments(alloc: Global, table: &Table, types: &[Ty]) -> Result<Tys, AllocError>
    requires { AllFitArguments table.now types.now }
    ensures { IfOk result (λ us. Both (IsNormalForm (table_of table.now)) types.now us) }
{
    let mut items = Vec::new(alloc);
    for ty in types {
        items.push(keep_argument(alloc, table, ty)?)?;
    }
    let kept = Tys::from_vec(alloc, items)?;
    Ok(kept)
}

/// An argument in normal form.
#[cycle(argument)]
fn keep_argument(alloc: Global, table: &Table, ty: &Ty) -> Result<Ty, AllocError>
    requires { IsFitArgument table.now ty.now }
    ensures { IfOk result (λ u. IsNormalForm (table_of table.now) ty.now u) }
{
    if is_closed(ty) {
        return small_form(alloc, table, ty);
    }
    match ty {
        Ty::Nominal(name, arguments) => {
            let arguments = keep_arguments(alloc, table, arguments.as_slice())?;
            Ok(Ty::Nominal(*name, arguments))
        }
        _ => {
            let copy = ty.copy()?;
            Ok(copy)
        }
    }
}

/// Each as it is kept.
#[cycle(keep)]
pub fn keep_all(alloc: Global, table: &Table, types: &[Ty]) -> Result<Tys, AllocError>
    requires { AllFit table.now types.now }
    ensures { IfOk result (λ us. Both (IsKeptAs table.now) types.now us) }
{
    let mut items = Vec::new(alloc);
    for ty in types {
        items.push(keep(alloc, table, ty)?)?;
    }
    let kept = Tys::from_vec(alloc, items)?;
    Ok(kept)
}

/// A type as it is kept.
#[cycle(keep)]
pub fn keep(alloc: Global, table: &Table, ty: &Ty) -> Result<Ty, AllocError>
    requires { IsFit table.now ty.now }
    ensures { IfOk result (λ u. IsKeptAs table.now ty.now u) }
{
    match ty {
        Ty::Any => Ok(Ty::Any),
        Ty::Union(members) => {
            let members = keep_all(alloc, table, members.as_slice())?;
            Ok(Ty::Union(members))
        }
        Ty::Tuple(parts) => {
            let parts = keep_all(alloc, table, parts.as_slice())?;
            Ok(Ty::Tuple(parts))
        }
        Ty::Nominal(name, arguments) => {
            let arguments = keep_arguments(alloc, table, arguments.as_slice())?;
            Ok(Ty::Nominal(*name, arguments))
        }
        Ty::Var(variable) => Ok(Ty::Var(*variable)),
    }
}
