//! The nominal type that is named where a written type breaks a declared bound (Julia manual, Types: Parametric Types).

ghost use Rattle.std.specs.Prelude.{◌≡◌, ◌++◌, ◌∷◌, [], ◌↔◌, IsTrue, IfOk, length};
ghost use Rattle.std.specs.List.{flat_map};
ghost use Rattle.jl_model.specs.declared.ty.Ty.TheViews as V;
ghost use Rattle.jl_model.specs.Ancestors.{table_of};
ghost use Rattle.jl_model.specs.Signature.{Both};
ghost use Rattle.jl_model.specs.Normal.{IsNormalForm};
ghost use Rattle.jl_model.specs.Refusals.{given_from};
ghost use Rattle.jl_model.specs.Valid.{is_known};
ghost use Rattle.jl_types.specs.Form.{IsTooLarge};
ghost use Rattle.jl_sig.specs.Fit.{IsFit, IsFitArgument, AllFit, AllFitArguments};
ghost use Rattle.jl_sig.specs.Parts.{all_given};
ghost use Rattle.jl_calculus.specs.Laws.{HasBroken};
ghost use Rattle.jl_calculus.specs.Statics.{nominals_in, IsBroken, is_bad_parameter};
ghost use Rattle.jl_operations.specs.Broken.{IsSettledAs, IsFirstOf, IsNamed};

use jl_model::ty::{Ty, Tys};
use jl_program::fault::Fault;
use jl_sig::arguments::Argument;
use jl_sig::forms::{have_outside, normal_arguments};
use jl_types::closed::is_closed;
use jl_types::{NormFault, Table, normal};
use std::alloc::{AllocError, Global};

/// The arguments of one nominal type.
fn own_arguments(alloc: Global, name: u32, types: &[Ty]) -> Result<Vec<Argument>, AllocError>
    ensures { IfOk result (λ own. all_given own.items ≡ given_from name 0 types.now) }
{
    let mut own = Vec::new(alloc);
    for (place, ty) in types.iter().enumerate() {
        let ty = ty.copy()?;
        own.push(Argument {
            of: name,
            place,
            ty,
        })?;
    }
    Ok(own)
}

/// The normal form of a type that is not too large for one.
fn small_form(alloc: Global, table: &Table, ty: &Ty) -> Result<Ty, AllocError>
    requires known { IsTrue (is_known (length table.now) ty.now) }
    requires small { IsTooLarge table.now ty.now → ⊥ }
    ensures known { IfOk result (λ u. IsTrue (is_known (length table.now) u)) }
    ensures form { IfOk result (λ u. IsNormalForm (table_of table.now) ty.now u) }
{
    match normal(alloc, table, ty) {
        Ok(form) => Ok(form),
        Err(NormFault::TypeLimit) => unreachable!(),
        Err(NormFault::Memory) => Err(AllocError),
    }
}

/// Arguments with those without variables in normal form.
#[cycle(settle)]
fn settle_arguments(alloc: Global, table: &Table, types: &[Ty]) -> Result<Tys, AllocError>
    requires { AllFitArguments table.now types.now }
    ensures { IfOk result (λ us. Both (IsSettledAs table.now) types.now us) }
{
    let mut items = Vec::new(alloc);
    for ty in types {
        items.push(settle_argument(alloc, table, ty)?)?;
    }
    let settled = Tys::from_vec(alloc, items)?;
    Ok(settled)
}

/// An argument, in normal form where it has no variables, and else with its own arguments so.
#[cycle(settle)]
fn settle_argument(alloc: Global, table: &Table, ty: &Ty) -> Result<Ty, AllocError>
    requires { IsFitArgument table.now ty.now }
    ensures { IfOk result (λ u. IsSettledAs table.now ty.now u) }
{
    if is_closed(ty) {
        let form = small_form(alloc, table, ty)?;
        return Ok(form);
    }
    match ty {
        Ty::Nominal(name, arguments) => {
            let arguments = settle_arguments(alloc, table, arguments.as_slice())?;
            Ok(Ty::Nominal(*name, arguments))
        }
        _ => {
            let copy = ty.copy()?;
            Ok(copy)
        }
    }
}

/// Whether an argument without variables of one nominal type is outside the declared bounds.
fn is_broken(alloc: Global, table: &Table, name: u32, types: &[Ty]) -> Result<bool, AllocError>
    requires { IsFit table.now (V.Nominal name types.now) }
    ensures { IfOk result (λ broken. IsTrue broken ↔ IsBroken table.now (V.Nominal name types.now)) }
{
    table.valid();
    let own = own_arguments(alloc, name, types)?;
    let forms = match normal_arguments(alloc, table, own.as_slice()) {
        Ok(forms) => forms,
        Err(NormFault::TypeLimit) => unreachable!(),
        Err(NormFault::Memory) => return Err(AllocError),
    };
    Ok(have_outside(table, forms.as_slice()))
}

/// The nominal type, with its arguments without variables in normal form, if one of these is outside the declared bounds.
fn own_broken(
    alloc: Global,
    table: &Table,
    name: u32,
    types: &[Ty],
) -> Result<Option<Ty>, AllocError>
    requires { IsFit table.now (V.Nominal name types.now) }
    ensures { IfOk result (λ found. IsFirstOf table.now (V.Nominal name types.now ∷ []) found) }
{
    if !is_broken(alloc, table, name, types)? {
        return Ok(None);
    }
    let arguments = settle_arguments(alloc, table, types)?;
    Ok(Some(Ty::Nominal(name, arguments)))
}

/// The first nominal type in these that is broken.
#[cycle(first)]
fn first_of_all(alloc: Global, table: &Table, types: &[Ty]) -> Result<Option<Ty>, AllocError>
    requires { AllFit table.now types.now }
    ensures { IfOk result (λ found. IsFirstOf table.now (flat_map nominals_in types.now) found) }
{
    for ty in types {
        if let Some(found) = first_in(alloc, table, ty)? {
            return Ok(Some(found));
        }
    }
    Ok(None)
}

/// The first nominal type in a type that is broken. Those in its arguments come before it.
#[cycle(first)]
fn first_in(alloc: Global, table: &Table, ty: &Ty) -> Result<Option<Ty>, AllocError>
    requires { IsFit table.now ty.now }
    ensures { IfOk result (λ found. IsFirstOf table.now (nominals_in ty.now) found) }
{
    match ty {
        Ty::Any => Ok(None),
        Ty::Union(members) => {
            let found = first_of_all(alloc, table, members.as_slice())?;
            Ok(found)
        }
        Ty::Tuple(parts) => {
            let found = first_of_all(alloc, table, parts.as_slice())?;
            Ok(found)
        }
        Ty::Nominal(name, arguments) => {
            let arguments = arguments.as_slice();
            match first_of_all(alloc, table, arguments)? {
                Some(found) => Ok(Some(found)),
                None => {
                    let own = own_broken(alloc, table, *name, arguments)?;
                    Ok(own)
                }
            }
        }
        Ty::Var(_) => Ok(None),
    }
}

/// The fault of types of which one breaks a declared bound: it names the first nominal type that is broken.
pub fn bad_parameter(alloc: Global, table: &Table, types: &[Ty]) -> Result<Fault, AllocError>
    requires fit { AllFit table.now types.now }
    requires broken { HasBroken table.now (flat_map nominals_in types.now) }
    ensures fault { IfOk result (λ fault. is_bad_parameter table.now (flat_map nominals_in types.now) fault) }
    ensures named { IfOk result (λ fault. IsNamed table.now fault) }
{
    let found = first_of_all(alloc, table, types)?;
    match found {
        Some(ty) => Ok(Fault::BadParameter(ty)),
        None => unreachable!(),
    }
}
