//! The types found for the variables of a right row. Those of the last variables are found first, since an upper bound may mention
//! variables before its own: what is known to be below this bound tells of them.

ghost use Rattle.std.specs.Prelude.{ℕ, ◌≡◌, ◌<◌, ◌+◌, false, not, IfOk, IfSome, cond, drop, map, length};
ghost use Rattle.std.specs.List.{list_any};
ghost use Rattle.jl_model.specs.Ancestors.{table_of};
ghost use Rattle.jl_model.specs.Rows.{width, kind, high};
ghost use Rattle.jl_model.specs.Signature.{top, is_diagonal};
ghost use Rattle.jl_model.specs.Subtype.{put, at};
ghost use Rattle.jl_model.specs.Valid.{is_closed};
ghost use Rattle.jl_sig.specs.SigParts.{kept_of, bounded_of};
ghost use Rattle.jl_model.specs.Found.{find_inner, find_outer, first, found, hits, or_else, or_type};
ghost use Rattle.jl_search.specs.Walk.{in_above, TellsBound};
ghost use Rattle.jl_subsig.specs.Side.{row_of, held, sided, IsItem, IsTold, AreHeld, AreLeftParts, IsSide};

use crate::find::{first_inner, first_outer};
use crate::rise::lift_first;
use crate::top::top;
use jl_model::ty::{Ty, Tys};
use jl_search::bounds::in_bounds;
use jl_sig::Sig;
use jl_sig::row::SigRow;
use jl_types::Table;
use jl_types::closed::is_closed;
use jl_types::put::put;
use std::alloc::{AllocError, Global};

/// What stands at the first place of a variable in these parts of a right row: of a diagonal one at a covariant place, else
/// at an invariant one.
fn place(
    alloc: Global,
    table: &Table,
    left: &Sig,
    row: &SigRow,
    is_diagonal: bool,
    parts: &[Ty],
    variable: usize,
) -> Result<Option<Ty>, AllocError>
    requires told { IsTold left.now row.now }
    requires types { AreLeftParts table.now (held left.now row.now) row.now.parts }
    ensures { IfOk result (λ hit. hit ≡ cond is_diagonal (first (map (find_outer (held left.now row.now) variable) parts.now) row.now.parts) (first (map (find_inner (table_of table.now) (held left.now row.now) variable) parts.now) row.now.parts)) }
{
    let types = row.parts.as_slice();
    if is_diagonal {
        return first_outer(left, row, variable, parts, types);
    }
    first_inner(alloc, table, left, row, variable, parts, types)
}

/// The type found for a variable of a right row, else its upper bound, where no bound mentions a variable.
fn value_of(
    alloc: Global,
    table: &Table,
    left: &Sig,
    row: &SigRow,
    right: &Sig,
    other: &SigRow,
    variable: usize,
) -> Result<Ty, AllocError>
    requires left { IsSide table.now left.now row.now }
    requires right { IsSide table.now right.now other.now }
    requires variable { variable < width (kept_of right.now) }
    requires closed { list_any (λ b. not (is_closed b.high)) (bounded_of right.now).vars ≡ false }
    ensures { IfOk result (λ t. t ≡ found (table_of table.now) (held left.now row.now) (sided right.now) (row_of other.now) row.now.parts variable) }
{
    table.valid();
    let parts = other.parts.as_slice();
    let is_diagonal = right.diagonals()[variable];
    match place(alloc, table, left, row, is_diagonal, parts, variable)? {
        Some(ty) => Ok(ty),
        None => match top(right.bounds(), right, other, variable) {
            Some(high) => high.copy(),
            None => Ok(Ty::Any),
        },
    }
}

/// What is found for a variable of a right row, in the row or in the bounds of the variables after it, of which `above` has the
/// arguments.
fn hit_of(
    alloc: Global,
    table: &Table,
    left: &Sig,
    row: &SigRow,
    right: &Sig,
    other: &SigRow,
    variable: usize,
    above: &[Tys],
) -> Result<Option<Ty>, AllocError>
    requires told { IsTold left.now row.now }
    requires types { AreLeftParts table.now (held left.now row.now) row.now.parts }
    requires right { AreHeld table.now right.now other.now }
    requires variable { variable < width (kept_of right.now) }
    requires above { length above.now ≡ width (kept_of right.now) }
    ensures { IfOk result (λ hit. hit ≡ cond (is_diagonal (kind (sided right.now) variable)) (first (map (find_outer (held left.now row.now) variable) other.now.parts) row.now.parts) (or_else (first (map (find_inner (table_of table.now) (held left.now row.now) variable) other.now.parts) row.now.parts) (in_above variable (drop (variable + 1) (sided right.now).vars) (drop (variable + 1) above.now)))) }
{
    let parts = other.parts.as_slice();
    let is_diagonal = right.diagonals()[variable];
    let hit = place(alloc, table, left, row, is_diagonal, parts, variable)?;
    if is_diagonal || hit.is_some() {
        return Ok(hit);
    }
    in_bounds(variable, right.bounds(), above)
}

/// The arguments in which the variables in the upper bound of a variable are found: those of what is known to be below this bound,
/// which is what is found for the variable, else the left part at its first atom.
fn above_of(
    alloc: Global,
    table: &Table,
    left: &Sig,
    row: &SigRow,
    right: &Sig,
    other: &SigRow,
    variable: usize,
    hit: &Option<Ty>,
) -> Result<Tys, AllocError>
    requires left { IsSide table.now left.now row.now }
    requires right { IsSide table.now right.now other.now }
    requires variable { variable < width (kept_of right.now) }
    requires hit { IfSome hit.now (IsItem table.now) }
    ensures { IfOk result (λ found. TellsBound (table_of table.now) (held left.now row.now) (sided right.now) (row_of other.now) row.now.parts variable (high (sided right.now) variable) hit.now found) }
{
    table.valid();
    let bounds = right.bounds();
    let high = &bounds[variable].high;
    if is_closed(high) {
        return Ok(Tys::empty());
    }
    match high {
        Ty::Nominal(target, _) => match hit {
            Some(ty) => lift_first(alloc, table, left, row, *target, ty),
            None => {
                let atom = variable + bounds.len();
                let parts = other.parts.as_slice();
                match first_outer(left, row, atom, parts, row.parts.as_slice())? {
                    Some(ty) => lift_first(alloc, table, left, row, *target, &ty),
                    None => Ok(Tys::empty()),
                }
            }
        },
        _ => Ok(Tys::empty()),
    }
}

/// What is found for each variable of a right row.
fn hits_of(
    alloc: Global,
    table: &Table,
    left: &Sig,
    row: &SigRow,
    right: &Sig,
    other: &SigRow,
) -> Result<Vec<Option<Ty>>, AllocError>
    requires left { IsSide table.now left.now row.now }
    requires right { IsSide table.now right.now other.now }
    ensures { IfOk result (λ all. all.items ≡ hits (table_of table.now) (held left.now row.now) (sided right.now) (row_of other.now) row.now.parts 0 (sided right.now).vars) }
{
    table.valid();
    let width = right.bounds().len();
    let mut hits = Vec::new(alloc);
    let mut above = Vec::new(alloc);
    for _ in 0..width {
        hits.push(None)?;
        above.push(Tys::empty())?;
    }
    for step in 0..width {
        let variable = width - 1 - step;
        let hit = hit_of(
            alloc,
            table,
            left,
            row,
            right,
            other,
            variable,
            above.as_slice(),
        )?;
        above[variable] = above_of(alloc, table, left, row, right, other, variable, &hit)?;
        hits[variable] = hit;
    }
    Ok(hits)
}

/// What is found for a variable of a right row, else its upper bound with the values of the variables before it put in.
fn fill(
    alloc: Global,
    right: &Sig,
    other: &SigRow,
    hit: &Option<Ty>,
    values: &[Ty],
) -> Result<Ty, AllocError>
    requires right { IsTold right.now other.now }
    requires wide { length (bounded_of right.now).vars ≡ width (kept_of right.now) }
    requires kinds { (v : ℕ) → kind (sided right.now) v ≡ kind (kept_of right.now) v }
    requires few { length values.now < width (kept_of right.now) }
    ensures { IfOk result (λ t. t ≡ or_type hit.now (put (at values.now) (top (sided right.now) (row_of other.now) (length values.now)))) }
{
    match hit {
        Some(ty) => ty.copy(),
        None => match top(right.bounds(), right, other, values.len()) {
            Some(high) => put(alloc, high, values),
            None => Ok(Ty::Any),
        },
    }
}

/// The types found for all variables of a right row whose bounds may mention variables.
fn values_in_bounds(
    alloc: Global,
    table: &Table,
    left: &Sig,
    row: &SigRow,
    right: &Sig,
    other: &SigRow,
) -> Result<Vec<Ty>, AllocError>
    requires left { IsSide table.now left.now row.now }
    requires right { IsSide table.now right.now other.now }
    ensures long { IfOk result (λ values. length values.items ≡ width (kept_of right.now)) }
    ensures found { IfOk result (λ values. at values.items ≡ found (table_of table.now) (held left.now row.now) (sided right.now) (row_of other.now) row.now.parts) }
{
    table.valid();
    let hits = hits_of(alloc, table, left, row, right, other)?;
    let mut values = Vec::new(alloc);
    for hit in hits.as_slice() {
        let value = fill(alloc, right, other, hit, values.as_slice())?;
        values.push(value)?;
    }
    Ok(values)
}

/// The types found for all variables of a right row. `is_named` tells whether an upper bound mentions a variable.
pub fn values_of(
    alloc: Global,
    table: &Table,
    left: &Sig,
    row: &SigRow,
    right: &Sig,
    other: &SigRow,
    is_named: bool,
) -> Result<Vec<Ty>, AllocError>
    requires left { IsSide table.now left.now row.now }
    requires right { IsSide table.now right.now other.now }
    requires named { is_named ≡ list_any (λ b. not (is_closed b.high)) (bounded_of right.now).vars }
    ensures long { IfOk result (λ values. length values.items ≡ width (kept_of right.now)) }
    ensures found { IfOk result (λ values. at values.items ≡ found (table_of table.now) (held left.now row.now) (sided right.now) (row_of other.now) row.now.parts) }
{
    table.valid();
    if is_named {
        return values_in_bounds(alloc, table, left, row, right, other);
    }
    let mut values = Vec::new(alloc);
    for variable in 0..right.bounds().len() {
        values.push(value_of(alloc, table, left, row, right, other, variable)?)?;
    }
    Ok(values)
}
