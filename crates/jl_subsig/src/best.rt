//! The choice of a method by comparing one with each of the others.

ghost use Rattle.std.specs.Prelude.{◌≡◌, ◌<◌, IsTrue, IfOk, length};
ghost use Rattle.jl_model.specs.Ancestors.{table_of};
ghost use Rattle.jl_subsig.specs.Side.{Every};
ghost use Rattle.jl_subsig.specs.Decide.{method_in, IsSound};
ghost use Rattle.jl_subsig.specs.Preceding.{Precedes};

use crate::choice::Method;
use crate::order::sig_sub;
use jl_types::Table;
use std::alloc::{AllocError, Global};

/// Whether one method is to run in place of another, where both apply: its signature is below that of the other, which is earlier or
/// not below in turn: then the other is replaced by it, or it is strictly below the other.
fn precedes(
    alloc: Global,
    table: &Table,
    method: &Method,
    other: &Method,
) -> Result<bool, AllocError>
    requires method { IsSound table.now method.now }
    requires other { IsSound table.now other.now }
    ensures { IfOk result (λ yes. IsTrue yes → Precedes (table_of table.now) (method_in method.now) (method_in other.now)) }
{
    if other.number == method.number {
        return Ok(true);
    }
    if !sig_sub(alloc, table, method.sig, other.sig)? {
        return Ok(false);
    }
    if other.number < method.number {
        return Ok(true);
    }
    let is_above = sig_sub(alloc, table, other.sig, method.sig)?;
    Ok(!is_above)
}

/// Whether one method is to run in place of each of these.
pub(crate) fn precedes_all(
    alloc: Global,
    table: &Table,
    method: &Method,
    methods: &[Method],
) -> Result<bool, AllocError>
    requires method { IsSound table.now method.now }
    requires others { Every (IsSound table.now) methods.now }
    ensures { IfOk result (λ yes. IsTrue yes → Every (λ other. Precedes (table_of table.now) (method_in method.now) (method_in other)) methods.now) }
{
    for other in methods {
        if !precedes(alloc, table, method, other)? {
            return Ok(false);
        }
    }
    Ok(true)
}

/// The place of the method that is likely the choice: each in turn takes the place of the one before where its signature is below.
/// Whether it is the choice is for `precedes_all` to say.
pub(crate) fn find_likely(
    alloc: Global,
    table: &Table,
    methods: &[Method],
) -> Result<usize, AllocError>
    requires sound { Every (IsSound table.now) methods.now }
    requires some { 0 < length methods.now }
    ensures { IfOk result (λ place. place < length methods.now) }
{
    let mut likely = 0;
    for (place, method) in methods.iter().enumerate() {
        if sig_sub(alloc, table, method.sig, methods[likely].sig)? {
            likely = place;
        }
    }
    Ok(likely)
}
