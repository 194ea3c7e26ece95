//! Whether the types put for the variables of a right row lie between their bounds.

ghost use Rattle.std.specs.Prelude.{◌≡◌, ◌<◌, ◌↔◌, not, IsTrue, IfOk, Some, length, map};
ghost use Rattle.std.specs.List.{list_all, list_any};
ghost use Rattle.jl_model.specs.declared.ty.Ty.{out-Ty};
ghost use Rattle.jl_model.specs.declared.ty.Ty.TheViews as V;
ghost use Rattle.jl_model.specs.Ancestors.{table_of};
ghost use Rattle.jl_model.specs.Rows.{width, Occurs};
ghost use Rattle.jl_model.specs.Subtype.{put, at, Below};
ghost use Rattle.jl_model.specs.Signature.{Serves};
ghost use Rattle.jl_model.specs.Valid.{is_closed, is_known};
ghost use Rattle.jl_sig.specs.SigParts.{kept_of, bounded_of};
ghost use Rattle.jl_subsig.specs.Side.{row_of, held, sided, lift_to, Every, IsItem, IsHigh, IsNamed, AreHeld, AreValues, IsRightRow, HasFlags};
ghost use Rattle.jl_search.specs.Occurring.{IsInOrder};
ghost use Rattle.jl_search.specs.Serving.{IsPlain, Within, ServesAt};

use crate::below::is_below;
use crate::concrete::is_concrete;
use crate::rise::{lift, rise};
use crate::top::top;
use jl_model::ty::Ty;
use jl_search::occurs::{all_lack, occurring};
use jl_sig::Sig;
use jl_sig::row::SigRow;
use jl_types::Table;
use jl_types::closed::are_closed;
use jl_types::same::same_all_put;
use std::alloc::{AllocError, Global};

/// Whether a type has the ancestor `target`, with these arguments after the values are put in.
fn is_applied(
    alloc: Global,
    table: &Table,
    values: &[Ty],
    target: u32,
    arguments: &[Ty],
    ty: &Ty,
) -> Result<bool, AllocError>
    requires { IsTrue (is_known (length table.now) ty.now) }
    ensures { IfOk result (λ yes. IsTrue yes ↔ (lift_to (table_of table.now) target (out-Ty ty.now) ≡ Some (map (put (at values.now)) arguments.now))) }
{
    match lift(alloc, table, target, ty)? {
        Some(above) => Ok(same_all_put(arguments, values, above.as_slice())),
        None => Ok(false),
    }
}

/// Whether each of these has the ancestor `target`, with these arguments after the values are put in.
fn are_applied(
    alloc: Global,
    table: &Table,
    values: &[Ty],
    target: u32,
    arguments: &[Ty],
    types: &[Ty],
) -> Result<bool, AllocError>
    requires { IsTrue (list_all (is_known (length table.now)) types.now) }
    ensures { IfOk result (λ yes. IsTrue yes ↔ Every (λ t. lift_to (table_of table.now) target (out-Ty t) ≡ Some (map (put (at values.now)) arguments.now)) types.now) }
{
    for ty in types {
        if !is_applied(alloc, table, values, target, arguments, ty)? {
            return Ok(false);
        }
    }
    Ok(true)
}

/// Whether a type is below a nominal type with the values put in.
fn is_below_applied(
    alloc: Global,
    table: &Table,
    left: &Sig,
    row: &SigRow,
    values: &[Ty],
    target: u32,
    arguments: &[Ty],
    ty: &Ty,
) -> Result<bool, AllocError>
    requires held { AreHeld table.now left.now row.now }
    requires upper { IsNamed table.now (V.Nominal target arguments.now) }
    requires values { AreValues table.now (length values.now) values.now }
    requires ty { IsItem table.now ty.now }
    ensures { IfOk result (λ yes. IsTrue yes ↔ Below (table_of table.now) (held left.now row.now) ty.now (put (at values.now) (V.Nominal target arguments.now))) }
{
    table.valid();
    match rise(table, left, row, ty) {
        Some(alternatives) => are_applied(alloc, table, values, target, arguments, alternatives),
        None => Ok(false),
    }
}

/// Whether a type is below an upper bound with the values put in.
fn is_below_high(
    alloc: Global,
    table: &Table,
    left: &Sig,
    row: &SigRow,
    values: &[Ty],
    high: &Ty,
    ty: &Ty,
) -> Result<bool, AllocError>
    requires held { AreHeld table.now left.now row.now }
    requires high { IsHigh table.now high.now }
    requires values { AreValues table.now (length values.now) values.now }
    requires ty { IsItem table.now ty.now }
    ensures { IfOk result (λ yes. IsTrue yes ↔ Below (table_of table.now) (held left.now row.now) ty.now (put (at values.now) high.now)) }
{
    table.valid();
    match high {
        Ty::Nominal(target, arguments) => {
            let arguments = arguments.as_slice();
            if are_closed(arguments) {
                return Ok(is_below(table, left, row, ty, high));
            }
            is_below_applied(alloc, table, left, row, values, *target, arguments, ty)
        }
        _ => Ok(is_below(table, left, row, ty, high)),
    }
}

/// Whether a type lies between the bounds with the values put in, and is concrete where it has to be.
fn is_within(
    alloc: Global,
    table: &Table,
    left: &Sig,
    row: &SigRow,
    values: &[Ty],
    low: &Ty,
    high: &Ty,
    is_diagonal: bool,
    value: &Ty,
) -> Result<bool, AllocError>
    requires held { AreHeld table.now left.now row.now }
    requires low { IsPlain table.now low.now }
    requires high { IsHigh table.now high.now }
    requires values { AreValues table.now (length values.now) values.now }
    requires value { IsItem table.now value.now }
    ensures { IfOk result (λ yes. IsTrue yes ↔ Within (table_of table.now) (held left.now row.now) (put (at values.now) low.now) (put (at values.now) high.now) is_diagonal value.now) }
{
    if !is_below(table, left, row, low, value) {
        return Ok(false);
    }
    if !is_below_high(alloc, table, left, row, values, high, value)? {
        return Ok(false);
    }
    if is_diagonal {
        return Ok(is_concrete(table, left, row, value));
    }
    Ok(true)
}

/// Of each variable, whether it is one of a right row whose bounds mention variables. In another row those are its variables that
/// stand there, and no list is made.
fn flags_of(
    alloc: Global,
    right: &Sig,
    other: &SigRow,
    is_named: bool,
) -> Result<Vec<bool>, AllocError>
    requires { IsInOrder (sided right.now) }
    ensures { IfOk result (λ flags. HasFlags is_named (sided right.now) other.now.parts flags.items) }
{
    if is_named {
        return occurring(alloc, right.bounds(), other.parts.as_slice());
    }
    Ok(Vec::new(alloc))
}

/// Whether a variable is one of a right row.
fn occurs(right: &Sig, other: &SigRow, is_named: bool, flags: &[bool], variable: usize) -> bool
    requires named { is_named ≡ list_any (λ b. not (is_closed b.high)) (bounded_of right.now).vars }
    requires flags { HasFlags is_named (sided right.now) other.now.parts flags.now }
    requires variable { variable < length (bounded_of right.now).vars }
    ensures { IsTrue result ↔ Occurs (sided right.now) variable other.now.parts }
{
    if is_named {
        return flags[variable];
    }
    !all_lack(right.bounds().len(), variable, other.parts.as_slice())
}

/// Whether the type put for a variable serves, if the variable is one of the right row.
fn serves_one(
    alloc: Global,
    table: &Table,
    left: &Sig,
    row: &SigRow,
    right: &Sig,
    other: &SigRow,
    values: &[Ty],
    is_there: bool,
    variable: usize,
) -> Result<bool, AllocError>
    requires held { AreHeld table.now left.now row.now }
    requires right { AreHeld table.now right.now other.now }
    requires row { IsRightRow table.now right.now other.now }
    requires values { AreValues table.now (width (kept_of right.now)) values.now }
    requires variable { variable < width (kept_of right.now) }
    requires there { IsTrue is_there ↔ Occurs (sided right.now) variable other.now.parts }
    ensures { IfOk result (λ yes. IsTrue yes ↔ ServesAt (table_of table.now) (held left.now row.now) (sided right.now) (row_of other.now) (at values.now) variable) }
{
    if !is_there {
        return Ok(true);
    }
    let bounds = right.bounds();
    let low = &bounds[variable].low;
    let value = &values[variable];
    let is_diagonal = right.diagonals()[variable];
    match top(bounds, right, other, variable) {
        Some(high) => {
            let serves = is_within(
                alloc,
                table,
                left,
                row,
                values,
                low,
                high,
                is_diagonal,
                value,
            )?;
            Ok(serves)
        }
        None => {
            let serves = is_within(
                alloc,
                table,
                left,
                row,
                values,
                low,
                &Ty::Any,
                is_diagonal,
                value,
            )?;
            Ok(serves)
        }
    }
}

/// Whether each variable of the right row lies between its bounds, and each diagonal one is concrete. `is_named` tells whether an
/// upper bound mentions a variable.
pub fn serve(
    alloc: Global,
    table: &Table,
    left: &Sig,
    row: &SigRow,
    right: &Sig,
    other: &SigRow,
    values: &[Ty],
    is_named: bool,
) -> Result<bool, AllocError>
    requires held { AreHeld table.now left.now row.now }
    requires right { AreHeld table.now right.now other.now }
    requires row { IsRightRow table.now right.now other.now }
    requires values { AreValues table.now (width (kept_of right.now)) values.now }
    requires named { is_named ≡ list_any (λ b. not (is_closed b.high)) (bounded_of right.now).vars }
    ensures { IfOk result (λ yes. IsTrue yes ↔ Serves (table_of table.now) (held left.now row.now) (sided right.now) (row_of other.now) (at values.now)) }
{
    let flags = flags_of(alloc, right, other, is_named)?;
    for variable in 0..values.len() {
        let is_there = occurs(right, other, is_named, flags.as_slice(), variable);
        if !serves_one(
            alloc, table, left, row, right, other, values, is_there, variable,
        )? {
            return Ok(false);
        }
    }
    Ok(true)
}
