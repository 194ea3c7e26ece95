//! Whether one row is below another. First the types for the variables of the right row are found, in a walk along both rows,
//! and then the definition is tested with these.

ghost use Rattle.std.specs.Prelude.{◌↔◌, IsTrue, IfOk};
ghost use Rattle.jl_model.specs.Ancestors.{table_of};
ghost use Rattle.jl_model.specs.Signature.{RowBelow};
ghost use Rattle.jl_sig.specs.SigParts.{kept_of};
ghost use Rattle.jl_subsig.specs.Side.{row_of, IsSide};

use crate::meet::meet_all;
use crate::serve::serve;
use crate::values::values_of;
use jl_search::bounds::mention_variables;
use jl_sig::Sig;
use jl_sig::row::SigRow;
use jl_types::Table;
use std::alloc::{AllocError, Global};

/// Whether a row of one signature is below a row of another: whether some types over the variables of the left row, put for
/// those of the right one, lie between their bounds, are concrete for the diagonal ones, and have the left parts below the right
/// ones (Zappa Nardelli et al., OOPSLA 2018). The cost is at most the number of variables times the nodes of both rows and
/// their bounds; no types are guessed.
pub fn row_below(
    alloc: Global,
    table: &Table,
    left: &Sig,
    row: &SigRow,
    right: &Sig,
    other: &SigRow,
) -> Result<bool, AllocError>
    requires left { IsSide table.now left.now row.now }
    requires right { IsSide table.now right.now other.now }
    ensures { IfOk result (λ yes. IsTrue yes ↔ RowBelow (table_of table.now) (kept_of left.now) (row_of row.now) (kept_of right.now) (row_of other.now)) }
{
    table.valid();
    let is_named = mention_variables(right.bounds());
    let values = values_of(alloc, table, left, row, right, other, is_named)?;
    let serves = serve(
        alloc,
        table,
        left,
        row,
        right,
        other,
        values.as_slice(),
        is_named,
    )?;
    if !serves {
        return Ok(false);
    }
    let is_met = meet_all(
        alloc,
        table,
        left,
        row,
        right,
        values.as_slice(),
        other.parts.as_slice(),
        row.parts.as_slice(),
    )?;
    Ok(is_met)
}
