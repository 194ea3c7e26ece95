//! Whether the types put for the variables of a row lie between their bounds.

ghost use Rattle.std.specs.Prelude.{ℕ, ◌≡◌, ◌<◌, ◌↔◌, false, not, IsTrue, IfOk, [], length};
ghost use Rattle.std.specs.List.{list_any};
ghost use Rattle.jl_model.specs.Ancestors.{table_of};
ghost use Rattle.jl_model.specs.Rows.{width, low, high, kind};
ghost use Rattle.jl_model.specs.Subtype.{opaque, put, at};
ghost use Rattle.jl_model.specs.Signature.{top, is_diagonal, Serves};
ghost use Rattle.jl_model.specs.Valid.{is_closed};
ghost use Rattle.jl_types.specs.Ground.{IsGround};
ghost use Rattle.jl_match.specs.KeptRow.{row_of, AreDiagonals, AreGround, IsKeptRow};
ghost use Rattle.jl_search.specs.Serving.{IsPlain, Within, ServesAt};

use crate::concrete::is_concrete;
use crate::values::top;
use jl_model::ty::{Ty, Written};
use jl_search::occurs::{all_lack, occurring};
use jl_types::put::put;
use jl_types::{Table, ground_sub};
use std::alloc::{AllocError, Global};

/// Whether a type lies between the bounds, and is concrete where it has to be.
fn is_within(table: &Table, low: &Ty, high: &Ty, is_diagonal: bool, value: &Ty) -> bool
    requires low { IsGround table.now low.now }
    requires high { IsGround table.now high.now }
    requires value { IsGround table.now value.now }
    ensures { IsTrue result ↔ Within (table_of table.now) opaque low.now high.now is_diagonal value.now }
{
    if !ground_sub(table, low, value) {
        return false;
    }
    if !ground_sub(table, value, high) {
        return false;
    }
    if is_diagonal {
        return is_concrete(table, value);
    }
    true
}

/// Whether the type put for a variable serves, if the variable stands in the row. No upper bound mentions a variable.
fn serves_one(
    table: &Table,
    signature: &Written,
    diagonals: &[bool],
    parts: &[Ty],
    chosen: &[Ty],
    values: &[Ty],
    variable: usize,
) -> Result<bool, AllocError>
    requires diagonals { AreDiagonals signature.now diagonals.now }
    requires chosen { length chosen.now ≡ width signature.now }
    requires row { IsKeptRow table.now signature.now (row_of parts.now chosen.now) }
    requires plain { list_any (λ b. not (is_closed b.high)) signature.now.vars ≡ false }
    requires values { AreGround table.now values.now }
    requires long { length values.now ≡ width signature.now }
    requires variable { variable < width signature.now }
    ensures { IfOk result (λ yes. IsTrue yes ↔ ServesAt (table_of table.now) opaque signature.now (row_of parts.now chosen.now) (at values.now) variable) }
{
    let bounds = signature.vars.as_slice();
    if all_lack(bounds.len(), variable, parts) {
        return Ok(true);
    }
    let high = top(signature, diagonals, chosen, variable)?;
    Ok(is_within(
        table,
        &bounds[variable].low,
        &high,
        diagonals[variable],
        &values[variable],
    ))
}

/// Whether each variable that stands in the row lies between its bounds, and each diagonal one is concrete. No upper bound
/// mentions a variable.
fn serve_plain(
    table: &Table,
    signature: &Written,
    diagonals: &[bool],
    parts: &[Ty],
    chosen: &[Ty],
    values: &[Ty],
) -> Result<bool, AllocError>
    requires diagonals { AreDiagonals signature.now diagonals.now }
    requires chosen { length chosen.now ≡ width signature.now }
    requires row { IsKeptRow table.now signature.now (row_of parts.now chosen.now) }
    requires plain { list_any (λ b. not (is_closed b.high)) signature.now.vars ≡ false }
    requires values { AreGround table.now values.now }
    requires long { length values.now ≡ width signature.now }
    ensures { IfOk result (λ yes. IsTrue yes ↔ Serves (table_of table.now) opaque signature.now (row_of parts.now chosen.now) (at values.now)) }
{
    for variable in 0..diagonals.len() {
        if !serves_one(table, signature, diagonals, parts, chosen, values, variable)? {
            return Ok(false);
        }
    }
    Ok(true)
}

/// Whether the type put for a variable lies between its bounds, with the types of the variables before it put in.
fn is_between(
    alloc: Global,
    table: &Table,
    signature: &Written,
    diagonals: &[bool],
    chosen: &[Ty],
    values: &[Ty],
    variable: usize,
) -> Result<bool, AllocError>
    requires diagonals { AreDiagonals signature.now diagonals.now }
    requires chosen { length chosen.now ≡ width signature.now }
    requires low { IsPlain table.now (low signature.now variable) }
    requires high { IsGround table.now (put (at values.now) (top signature.now (row_of [] chosen.now) variable)) }
    requires values { AreGround table.now values.now }
    requires long { length values.now ≡ width signature.now }
    requires variable { variable < width signature.now }
    ensures { IfOk result (λ yes. IsTrue yes ↔ Within (table_of table.now) opaque (put (at values.now) (low signature.now variable)) (put (at values.now) (top signature.now (row_of [] chosen.now) variable)) (is_diagonal (kind signature.now variable)) (at values.now variable)) }
{
    let high = top(signature, diagonals, chosen, variable)?;
    let high = put(alloc, &high, values)?;
    let bounds = signature.vars.as_slice();
    Ok(is_within(
        table,
        &bounds[variable].low,
        &high,
        diagonals[variable],
        &values[variable],
    ))
}

/// Whether each variable of the row lies between its bounds, and each diagonal one is concrete, where an upper bound may mention
/// variables.
fn serve_named(
    alloc: Global,
    table: &Table,
    signature: &Written,
    diagonals: &[bool],
    parts: &[Ty],
    chosen: &[Ty],
    values: &[Ty],
) -> Result<bool, AllocError>
    requires diagonals { AreDiagonals signature.now diagonals.now }
    requires chosen { length chosen.now ≡ width signature.now }
    requires row { IsKeptRow table.now signature.now (row_of parts.now chosen.now) }
    requires values { AreGround table.now values.now }
    requires long { length values.now ≡ width signature.now }
    ensures { IfOk result (λ yes. IsTrue yes ↔ Serves (table_of table.now) opaque signature.now (row_of parts.now chosen.now) (at values.now)) }
{
    let flags = occurring(alloc, signature.vars.as_slice(), parts)?;
    let occurs = flags.as_slice();
    for variable in 0..diagonals.len() {
        let is_in_row = occurs[variable];
        if !is_in_row {
            continue;
        }
        if !is_between(alloc, table, signature, diagonals, chosen, values, variable)? {
            return Ok(false);
        }
    }
    Ok(true)
}

/// Whether each variable of the row lies between its bounds with the values put in, and each diagonal one is concrete; `named` tells
/// whether an upper bound mentions a variable.
pub fn serve(
    alloc: Global,
    table: &Table,
    signature: &Written,
    named: bool,
    diagonals: &[bool],
    parts: &[Ty],
    chosen: &[Ty],
    values: &[Ty],
) -> Result<bool, AllocError>
    requires named { named ≡ list_any (λ b. not (is_closed b.high)) signature.now.vars }
    requires diagonals { AreDiagonals signature.now diagonals.now }
    requires chosen { length chosen.now ≡ width signature.now }
    requires row { IsKeptRow table.now signature.now (row_of parts.now chosen.now) }
    requires values { AreGround table.now values.now }
    requires long { length values.now ≡ width signature.now }
    ensures { IfOk result (λ yes. IsTrue yes ↔ Serves (table_of table.now) opaque signature.now (row_of parts.now chosen.now) (at values.now)) }
{
    if named {
        return serve_named(alloc, table, signature, diagonals, parts, chosen, values);
    }
    serve_plain(table, signature, diagonals, parts, chosen, values)
}
