//! The types found for the variables of a row.

ghost use Rattle.std.specs.Prelude.{◌≡◌, ◌<◌, false, not, IsTrue, IfOk, cond, get_or, map, length, None};
ghost use Rattle.std.specs.List.{list_all, list_any};
ghost use Rattle.jl_model.specs.Ancestors.{table_of};
ghost use Rattle.jl_model.specs.Rows.{width, kind, high};
ghost use Rattle.jl_model.specs.Subtype.{opaque, put, at};
ghost use Rattle.jl_model.specs.Signature.{by_kind};
ghost use Rattle.jl_model.specs.Valid.{is_known, is_closed};
ghost use Rattle.jl_model.specs.Found.{find_inner, find_outer, first, or_type, found};
ghost use Rattle.jl_match.specs.KeptRow.{row_of, AreDiagonals, AreConcrete, IsKeptRow};

use crate::find::{first_inner, first_outer};
use crate::hits::hits_of;
use jl_model::ty::{Ty, Written};
use jl_types::Table;
use jl_types::put::put;
use std::alloc::{AllocError, Global};

/// The upper bound of a variable in a row.
pub fn top(
    signature: &Written,
    diagonals: &[bool],
    chosen: &[Ty],
    variable: usize,
) -> Result<Ty, AllocError>
    requires diagonals { AreDiagonals signature.now diagonals.now }
    requires variable { variable < width signature.now }
    requires chosen { length chosen.now ≡ width signature.now }
    ensures { IfOk result (λ t. t ≡ by_kind (kind signature.now variable) (at chosen.now variable) (high signature.now variable)) }
{
    if diagonals[variable] {
        return chosen[variable].copy();
    }
    signature.vars.as_slice()[variable].high.copy()
}

/// What stands at the first place of a variable in a row: of a diagonal one at a covariant place, else at an invariant one.
fn place(
    alloc: Global,
    table: &Table,
    is_diagonal: bool,
    parts: &[Ty],
    types: &[Ty],
    variable: usize,
) -> Result<Option<Ty>, AllocError>
    requires known { IsTrue (list_all (is_known (length table.now)) types.now) }
    ensures { IfOk result (λ hit. hit ≡ cond is_diagonal (first (map (find_outer opaque variable) parts.now) types.now) (first (map (find_inner (table_of table.now) opaque variable) parts.now) types.now)) }
{
    if is_diagonal {
        return first_outer(variable, parts, types);
    }
    first_inner(alloc, table, variable, parts, types)
}

/// The type found for a variable of a row, else its upper bound. No upper bound mentions a variable.
fn value_of(
    alloc: Global,
    table: &Table,
    signature: &Written,
    diagonals: &[bool],
    parts: &[Ty],
    chosen: &[Ty],
    types: &[Ty],
    variable: usize,
) -> Result<Ty, AllocError>
    requires diagonals { AreDiagonals signature.now diagonals.now }
    requires variable { variable < width signature.now }
    requires chosen { length chosen.now ≡ width signature.now }
    requires row { IsKeptRow table.now signature.now (row_of parts.now chosen.now) }
    requires plain { list_any (λ b. not (is_closed b.high)) signature.now.vars ≡ false }
    requires known { IsTrue (list_all (is_known (length table.now)) types.now) }
    ensures { IfOk result (λ t. t ≡ found (table_of table.now) opaque signature.now (row_of parts.now chosen.now) types.now variable) }
{
    match place(alloc, table, diagonals[variable], parts, types, variable)? {
        Some(ty) => Ok(ty),
        None => top(signature, diagonals, chosen, variable),
    }
}

/// The types found for all variables of a row, where no upper bound mentions a variable.
fn plain_values(
    alloc: Global,
    table: &Table,
    signature: &Written,
    diagonals: &[bool],
    parts: &[Ty],
    chosen: &[Ty],
    types: &[Ty],
) -> Result<Vec<Ty>, AllocError>
    requires diagonals { AreDiagonals signature.now diagonals.now }
    requires chosen { length chosen.now ≡ width signature.now }
    requires row { IsKeptRow table.now signature.now (row_of parts.now chosen.now) }
    requires plain { list_any (λ b. not (is_closed b.high)) signature.now.vars ≡ false }
    requires known { IsTrue (list_all (is_known (length table.now)) types.now) }
    ensures long { IfOk result (λ values. length values.items ≡ width signature.now) }
    ensures found { IfOk result (λ values. at values.items ≡ found (table_of table.now) opaque signature.now (row_of parts.now chosen.now) types.now) }
{
    let mut values = Vec::new(alloc);
    for variable in 0..diagonals.len() {
        values.push(value_of(
            alloc, table, signature, diagonals, parts, chosen, types, variable,
        )?)?;
    }
    Ok(values)
}

/// What is found for a variable, else its upper bound with the values of the variables before put in.
fn or_top(
    alloc: Global,
    signature: &Written,
    diagonals: &[bool],
    chosen: &[Ty],
    hit: &Option<Ty>,
    values: &[Ty],
    variable: usize,
) -> Result<Ty, AllocError>
    requires diagonals { AreDiagonals signature.now diagonals.now }
    requires variable { variable < width signature.now }
    requires chosen { length chosen.now ≡ width signature.now }
    ensures { IfOk result (λ t. t ≡ or_type hit.now (put (at values.now) (by_kind (kind signature.now variable) (at chosen.now variable) (high signature.now variable)))) }
{
    match hit {
        Some(ty) => ty.copy(),
        None => {
            let high = top(signature, diagonals, chosen, variable)?;
            put(alloc, &high, values)
        }
    }
}

/// The types found for all variables of a row, where an upper bound may mention variables.
fn named_values(
    alloc: Global,
    table: &Table,
    signature: &Written,
    diagonals: &[bool],
    parts: &[Ty],
    chosen: &[Ty],
    types: &[Ty],
) -> Result<Vec<Ty>, AllocError>
    requires diagonals { AreDiagonals signature.now diagonals.now }
    requires chosen { length chosen.now ≡ width signature.now }
    requires types { AreConcrete table.now types.now }
    ensures long { IfOk result (λ values. length values.items ≡ width signature.now) }
    ensures found { IfOk result (λ values. at values.items ≡ found (table_of table.now) opaque signature.now (row_of parts.now chosen.now) types.now) }
{
    let hits = hits_of(alloc, table, signature, diagonals, parts, types)?;
    let found = hits.as_slice();
    let mut values = Vec::new(alloc);
    for variable in 0..diagonals.len() {
        let hit = &found[variable];
        let before = values.as_slice();
        let value = or_top(alloc, signature, diagonals, chosen, hit, before, variable)?;
        values.push(value)?;
    }
    Ok(values)
}

/// The types found for all variables of a row; `named` tells whether an upper bound mentions a variable.
pub fn values_of(
    alloc: Global,
    table: &Table,
    signature: &Written,
    named: bool,
    diagonals: &[bool],
    parts: &[Ty],
    chosen: &[Ty],
    types: &[Ty],
) -> Result<Vec<Ty>, AllocError>
    requires named { named ≡ list_any (λ b. not (is_closed b.high)) signature.now.vars }
    requires diagonals { AreDiagonals signature.now diagonals.now }
    requires chosen { length chosen.now ≡ width signature.now }
    requires row { IsKeptRow table.now signature.now (row_of parts.now chosen.now) }
    requires types { AreConcrete table.now types.now }
    ensures long { IfOk result (λ values. length values.items ≡ width signature.now) }
    ensures found { IfOk result (λ values. at values.items ≡ found (table_of table.now) opaque signature.now (row_of parts.now chosen.now) types.now) }
{
    if named {
        return named_values(alloc, table, signature, diagonals, parts, chosen, types);
    }
    plain_values(alloc, table, signature, diagonals, parts, chosen, types)
}
