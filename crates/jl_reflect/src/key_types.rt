//! The types of a key that a type means.

ghost use Rattle.std.specs.Prelude.{◌≡◌, IfOk, Some};
ghost use Rattle.jl_model.specs.declared.ty.Ty.{Ty as T};
ghost use Rattle.jl_model.specs.declared.ty.Ty.TheViews as V;
ghost use Rattle.jl_model.specs.Valid.{IsValidType};
ghost use Rattle.jl_reflect.specs.Asked.{IsForm, IsValueForm, IsTupleOf, AreKeyTypes, MeansTypes, Finds};

use jl_match::is_concrete;
use jl_match::names::are_counted;
use jl_model::limits::MOST_ARGUMENTS;
use jl_model::rows::Row;
use jl_model::ty::{Ty, Tys};
use jl_norm::known::is_known;
use jl_norm::norm;
use jl_types::closed::is_closed;
use jl_types::{NormFault, Table};
use std::alloc::{AllocError, Global};
use std::slice;

/// The normal form of a type of the table, where both are within the limits.
fn form_of(alloc: Global, table: &Table, ty: &Ty) -> Result<Option<Ty>, AllocError>
    ensures form { IfOk result (λ found. Finds (IsForm table.now ty.now) found) }
    ensures valid { IfOk result (λ found. (u : T) → found ≡ Some u → IsValidType table.now u) }
{
    if !is_known(ty, u64::from(table.count())) {
        return Ok(None);
    }
    if !are_counted(table, slice::from_ref(ty)) {
        return Ok(None);
    }
    match norm(alloc, table, ty) {
        Ok(form) => Ok(Some(form)),
        Err(NormFault::TypeLimit) => Ok(None),
        Err(NormFault::Memory) => Err(AllocError),
    }
}

/// The normal form of a type, where a value may have it as its type.
fn value_form(alloc: Global, table: &Table, ty: &Ty) -> Result<Option<Ty>, AllocError>
    ensures { IfOk result (λ found. Finds (IsValueForm table.now ty.now) found) }
{
    table.valid();
    let Some(form) = form_of(alloc, table, ty)? else {
        return Ok(None);
    };
    if !is_closed(&form) {
        return Ok(None);
    }
    if !is_concrete(table, &form) {
        return Ok(None);
    }
    Ok(Some(form))
}

/// The parts of a tuple.
fn parts_of(ty: &Ty) -> Result<Option<Tys>, AllocError>
    ensures { IfOk result (λ found. Finds (λ parts. ty.now ≡ V.Tuple parts) found) }
{
    match ty {
        Ty::Tuple(parts) => Ok(Some(parts.copy()?)),
        Ty::Any => Ok(None),
        Ty::Union(_) => Ok(None),
        Ty::Nominal(_, _) => Ok(None),
        Ty::Var(_) => Ok(None),
    }
}

/// The parts of the tuple that is the normal form of a type.
fn form_parts(alloc: Global, table: &Table, ty: &Ty) -> Result<Option<Tys>, AllocError>
    ensures { IfOk result (λ found. Finds (λ parts. IsForm table.now ty.now (V.Tuple parts)) found) }
{
    table.valid();
    let Some(form) = form_of(alloc, table, ty)? else {
        return Ok(None);
    };
    let parts = parts_of(&form)?;
    Ok(parts)
}

/// The parts of a tuple, or of that which is the normal form of another type.
fn tuple_parts(alloc: Global, table: &Table, ty: &Ty) -> Result<Option<Tys>, AllocError>
    ensures { IfOk result (λ found. Finds (IsTupleOf table.now ty.now) found) }
{
    if let Some(parts) = parts_of(ty)? {
        return Ok(Some(parts));
    }
    let parts = form_parts(alloc, table, ty)?;
    Ok(parts)
}

/// The normal forms of the parts of a tuple, where a key may have them as its types.
fn value_forms(alloc: Global, table: &Table, parts: &[Ty]) -> Result<Option<Tys>, AllocError>
    ensures { IfOk result (λ found. Finds (AreKeyTypes table.now parts.now) found) }
{
    if parts.len() > MOST_ARGUMENTS {
        return Ok(None);
    }
    let mut forms = Row::new(alloc);
    for part in parts {
        let Some(form) = value_form(alloc, table, part)? else {
            drop(forms);
            return Ok(None);
        };
        forms.push(form)?;
    }
    let types = forms.into_shared(alloc)?;
    Ok(Some(types))
}

/// The types of a key that a type means.
pub(crate) fn key_types(alloc: Global, table: &Table, ty: &Ty) -> Result<Option<Tys>, AllocError>
    ensures { IfOk result (λ found. Finds (MeansTypes table.now ty.now) found) }
{
    table.valid();
    let Some(parts) = tuple_parts(alloc, table, ty)? else {
        return Ok(None);
    };
    let types = value_forms(alloc, table, parts.as_slice())?;
    Ok(types)
}
