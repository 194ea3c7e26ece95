//! The types of a key, read from their text.

ghost use Rattle.std.specs.Prelude.{◌≡◌, ◌≤◌, IsTrue, IfOk, length};
ghost use Rattle.std.specs.Bool.{Decides};
ghost use Rattle.std.specs.List.{AllByRecursion};
ghost use Rattle.jl_model.specs.declared.limits.TheConstants.{MOST_ARGUMENTS};
ghost use Rattle.jl_model.specs.declared.ty.Ty.TheViews.{Tuple};
ghost use Rattle.jl_model.specs.Ancestors.{table_of};
ghost use Rattle.jl_model.specs.Counts.{IsWithinLimits};
ghost use Rattle.jl_model.specs.Normal.{IsNormal};
ghost use Rattle.jl_model.specs.Valid.{is_known};
ghost use Rattle.jl_program.specs.Text.{type_text};
ghost use Rattle.jl_program.specs.ValidValue.{IsValueType};
ghost use Rattle.jl_causes.specs.KeyTypes.{IsKept, AreKeyTypes, AreFound, AreTaken};

use crate::type_text::read_tuple;
use jl_match::is_concrete;
use jl_match::names::are_counted;
use jl_model::limits::{MOST_ARGUMENTS, MOST_TYPE_NODES};
use jl_model::ty::{Ty, Tys};
use jl_norm::known::are_known;
use jl_norm::norm;
use jl_program::tree::Program;
use jl_sig::Ready;
use jl_text::type_text;
use jl_types::closed::are_closed;
use jl_types::same::same;
use jl_types::{NormFault, Table, is_within_limits};
use std::alloc::{AllocError, Global};

/// Whether a type within the limits is its own normal form.
fn is_normal(alloc: Global, table: &Table, ty: &Ty) -> Result<bool, AllocError>
    requires known { IsTrue (is_known (length table.now) ty.now) }
    requires small { IsWithinLimits ty.now }
    ensures { IfOk result (λ yes. Decides yes (IsNormal (table_of table.now) ty.now)) }
{
    table.valid();
    match norm(alloc, table, ty) {
        Ok(form) => Ok(same(&form, ty)),
        Err(NormFault::TypeLimit) => Ok(false),
        Err(NormFault::Memory) => Err(AllocError),
    }
}

/// Whether a type of the table is within the limits, concrete and normal.
fn is_kept(alloc: Global, table: &Table, ty: &Ty) -> Result<bool, AllocError>
    requires { IsTrue (is_known (length table.now) ty.now) }
    ensures { IfOk result (λ yes. Decides yes (IsKept table.now ty.now)) }
{
    if !is_within_limits(ty) {
        return Ok(false);
    }
    if !is_concrete(table, ty) {
        return Ok(false);
    }
    let normal = is_normal(alloc, table, ty)?;
    Ok(normal)
}

/// Whether values may have these types.
fn are_value_types(alloc: Global, table: &Table, types: &[Ty]) -> Result<bool, AllocError>
    ensures { IfOk result (λ yes. Decides yes (AllByRecursion (IsValueType table.now) types.now)) }
{
    if !are_known(types, u64::from(table.count())) {
        return Ok(false);
    }
    if !are_counted(table, types) {
        return Ok(false);
    }
    if !are_closed(types) {
        return Ok(false);
    }
    for ty in types {
        let kept = is_kept(alloc, table, ty)?;
        if !kept {
            return Ok(false);
        }
    }
    Ok(true)
}

/// Whether the tuple of these types has this text.
fn are_spelled(
    alloc: Global,
    program: &Program,
    types: &Tys,
    text: &[u8],
) -> Result<bool, AllocError>
    ensures { IfOk result (λ yes. Decides yes (type_text program.now (Tuple types.now) ≡ text.now)) }
{
    let ty = Ty::Tuple(types.copy()?);
    let spelled = type_text(alloc, program, &ty)?;
    Ok(spelled.as_slice() == text)
}

/// These types, where a key with this text has them.
fn take_types(
    alloc: Global,
    ready: &Ready,
    types: Tys,
    text: &[u8],
) -> Result<Option<Tys>, AllocError>
    ensures { IfOk result (λ found. AreTaken ready.now text.now types found) }
{
    if types.len() > MOST_ARGUMENTS {
        return Ok(None);
    }
    let valued = are_value_types(alloc, ready.table(), types.as_slice())?;
    if !valued {
        return Ok(None);
    }
    let spelled = are_spelled(alloc, ready.program(), &types, text)?;
    if !spelled {
        return Ok(None);
    }
    Ok(Some(types))
}

/// The types that a key with this text has.
pub(crate) fn read_types(
    alloc: Global,
    ready: &Ready,
    text: &[u8],
) -> Result<Option<Tys>, AllocError>
    ensures { IfOk result (λ found. AreFound ready.now text.now found) }
{
    ready.valid();
    let many = MOST_ARGUMENTS as u32;
    let room = MOST_TYPE_NODES as u32;
    let Some(types) = read_tuple(alloc, ready.table(), many, room, text)? else {
        return Ok(None);
    };
    take_types(alloc, ready, types, text)
}
