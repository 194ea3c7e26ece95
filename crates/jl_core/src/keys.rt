//! Whether a key is one of a program: it names a function of it, and types that values may have.

ghost use Rattle.std.specs.Prelude.{IsTrue, IfOk, length};
ghost use Rattle.std.specs.Bool.{Decides};
ghost use Rattle.std.specs.List.{AllByRecursion};
ghost use Rattle.jl_model.specs.Ancestors.{table_of};
ghost use Rattle.jl_model.specs.Counts.{IsWithinLimits};
ghost use Rattle.jl_model.specs.Normal.{IsNormal};
ghost use Rattle.jl_model.specs.Valid.{is_known};
ghost use Rattle.jl_program.specs.ValidValue.{IsValueType};
ghost use Rattle.jl_calculus.specs.Legal.{IsKeyOf};
ghost use Rattle.jl_core.specs.KeyTypes.{IsFormed};

use jl_match::is_concrete;
use jl_match::names::are_counted;
use jl_model::limits::MOST_ARGUMENTS;
use jl_model::ty::{Key, Ty};
use jl_norm::known::are_known;
use jl_norm::norm;
use jl_sig::Ready;
use jl_types::closed::are_closed;
use jl_types::same::same;
use jl_types::{NormFault, Table, is_within_limits};
use std::alloc::{AllocError, Global};

/// Whether a type within the limits is its own normal form.
fn is_normal(alloc: Global, table: &Table, ty: &Ty) -> Result<bool, AllocError>
    requires known { IsTrue (is_known (length table.now) ty.now) }
    requires small { IsWithinLimits ty.now }
    ensures { IfOk result (λ yes. Decides yes (IsNormal (table_of table.now) ty.now)) }
{
    table.valid();
    match norm(alloc, table, ty) {
        Ok(form) => Ok(same(&form, ty)),
        Err(NormFault::TypeLimit) => Ok(false),
        Err(NormFault::Memory) => Err(AllocError),
    }
}

/// Whether a type of the table is within the limits, concrete and normal.
fn is_formed(alloc: Global, table: &Table, ty: &Ty) -> Result<bool, AllocError>
    requires { IsTrue (is_known (length table.now) ty.now) }
    ensures { IfOk result (λ yes. Decides yes (IsFormed table.now ty.now)) }
{
    if !is_within_limits(ty) {
        return Ok(false);
    }
    if !is_concrete(table, ty) {
        return Ok(false);
    }
    let normal = is_normal(alloc, table, ty)?;
    Ok(normal)
}

/// Whether values may have these types.
fn are_value_types(alloc: Global, table: &Table, types: &[Ty]) -> Result<bool, AllocError>
    ensures { IfOk result (λ yes. Decides yes (AllByRecursion (IsValueType table.now) types.now)) }
{
    if !are_known(types, u64::from(table.count())) {
        return Ok(false);
    }
    if !are_counted(table, types) {
        return Ok(false);
    }
    if !are_closed(types) {
        return Ok(false);
    }
    for ty in types {
        let formed = is_formed(alloc, table, ty)?;
        if !formed {
            return Ok(false);
        }
    }
    Ok(true)
}

/// Whether a key is one of a program.
pub(crate) fn is_key_of(alloc: Global, ready: &Ready, key: &Key) -> Result<bool, AllocError>
    ensures { IfOk result (λ yes. Decides yes (IsKeyOf ready.now key.now)) }
{
    if key.function as usize >= ready.program().functions.len() {
        return Ok(false);
    }
    if key.types.len() > MOST_ARGUMENTS {
        return Ok(false);
    }
    let valued = are_value_types(alloc, ready.table(), key.types.as_slice())?;
    Ok(valued)
}
