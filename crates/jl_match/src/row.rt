//! Whether types are below one row of a signature. First the types for the variables are found, in a walk along the parts
//! and the types, and then the definition is tested with these.

ghost use Rattle.std.specs.Prelude.{ℕ, ◌≡◌, not, IsTrue, IfOk, [], length};
ghost use Rattle.std.specs.List.{list_any};
ghost use Rattle.jl_model.specs.declared.ty.Ty.{Ty};
ghost use Rattle.jl_model.specs.Ancestors.{table_of};
ghost use Rattle.jl_model.specs.Rows.{width, vars_in};
ghost use Rattle.jl_model.specs.Subtype.{opaque};
ghost use Rattle.jl_model.specs.Found.{found};
ghost use Rattle.jl_model.specs.Valid.{is_closed};
ghost use Rattle.jl_match.specs.KeptRow.{row_of, AreDiagonals, AreConcrete, IsKeptRow, Fits};

use crate::meet::meet_all;
use crate::serve::serve;
use crate::values::values_of;
use jl_model::ty::{Ty, Written};
use jl_types::Table;
use std::alloc::{AllocError, Global};

/// Whether these types are below the parts of a row with some types put for its variables: with those that are found where
/// any serve. The signature's bounds are as they are kept, `named` tells whether an upper bound mentions a variable, `diagonals`
/// which of its variables are diagonal, and `chosen` the alternative of the upper bound that each diagonal variable takes in this
/// row. The cost is at most the number of variables times the nodes of the parts and of the bounds, and of the parts times those
/// of the types (Zappa Nardelli et al., OOPSLA 2018).
pub fn row_applies(
    alloc: Global,
    table: &Table,
    signature: &Written,
    named: bool,
    diagonals: &[bool],
    parts: &[Ty],
    chosen: &[Ty],
    types: &[Ty],
) -> Result<bool, AllocError>
    requires named { named ≡ list_any (λ b. not (is_closed b.high)) signature.now.vars }
    requires diagonals { AreDiagonals signature.now diagonals.now }
    requires chosen { length chosen.now ≡ width signature.now }
    requires row { IsKeptRow table.now signature.now (row_of parts.now chosen.now) }
    requires types { AreConcrete table.now types.now }
    ensures sound { IfOk result (λ yes. IsTrue yes → Fits (table_of table.now) signature.now (row_of parts.now chosen.now) types.now (found (table_of table.now) opaque signature.now (row_of parts.now chosen.now) types.now)) }
    ensures closed { IfOk result (λ yes. IsTrue yes → (v : ℕ) → vars_in (found (table_of table.now) opaque signature.now (row_of parts.now chosen.now) types.now v) ≡ []) }
    ensures complete { IfOk result (λ yes. (f : ℕ → Ty) → Fits (table_of table.now) signature.now (row_of parts.now chosen.now) types.now f → IsTrue yes) }
{
    table.valid();
    let values = values_of(
        alloc, table, signature, named, diagonals, parts, chosen, types,
    )?;
    if !serve(
        alloc,
        table,
        signature,
        named,
        diagonals,
        parts,
        chosen,
        values.as_slice(),
    )? {
        return Ok(false);
    }
    let meets = meet_all(
        alloc,
        table,
        signature,
        diagonals,
        values.as_slice(),
        parts,
        types,
    )?;
    Ok(meets)
}
