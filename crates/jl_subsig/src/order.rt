//! Which signature is below which.

ghost use Rattle.std.specs.Prelude.{◌↔◌, IsTrue, IfOk};
ghost use Rattle.jl_model.specs.Ancestors.{table_of};
ghost use Rattle.jl_model.specs.Signature.{RowBelow, SigBelow};
ghost use Rattle.jl_sig.specs.Prepared.{IsSigOf};
ghost use Rattle.jl_sig.specs.SigParts.{written_of, kept_of, rows_of};
ghost use Rattle.jl_subsig.specs.Side.{row_of, AnyOf, Every, IsSide};

use crate::row::row_below;
use jl_sig::Sig;
use jl_sig::row::SigRow;
use jl_types::Table;
use std::alloc::{AllocError, Global};

/// Whether a row of one signature is below some row of another.
fn is_below_some(
    alloc: Global,
    table: &Table,
    left: &Sig,
    row: &SigRow,
    right: &Sig,
) -> Result<bool, AllocError>
    requires left { IsSide table.now left.now row.now }
    requires right { Every (IsSide table.now right.now) (rows_of right.now) }
    ensures { IfOk result (λ yes. IsTrue yes ↔ AnyOf (λ q. RowBelow (table_of table.now) (kept_of left.now) (row_of row.now) (kept_of right.now) (row_of q)) (rows_of right.now)) }
{
    for other in right.rows() {
        if row_below(alloc, table, left, row, right, other)? {
            return Ok(true);
        }
    }
    Ok(false)
}

/// Whether each row of one signature is below some row of another.
fn are_below_some(alloc: Global, table: &Table, left: &Sig, right: &Sig) -> Result<bool, AllocError>
    requires left { Every (IsSide table.now left.now) (rows_of left.now) }
    requires right { Every (IsSide table.now right.now) (rows_of right.now) }
    ensures { IfOk result (λ yes. IsTrue yes ↔ Every (λ k. AnyOf (λ q. RowBelow (table_of table.now) (kept_of left.now) (row_of k) (kept_of right.now) (row_of q)) (rows_of right.now)) (rows_of left.now)) }
{
    for row in left.rows() {
        if !is_below_some(alloc, table, left, row, right)? {
            return Ok(false);
        }
    }
    Ok(true)
}

/// Whether a signature is below another: whether every list of arguments' types below the one is below the other, as far as the
/// rules tell (Julia manual, Methods: Method Ambiguities; Zappa Nardelli et al., OOPSLA 2018). The cost is at most the rows of
/// both times that of one pair of rows. A signature may be written or that of a struct's fields.
pub fn sig_sub(alloc: Global, table: &Table, left: &Sig, right: &Sig) -> Result<bool, AllocError>
    requires left { IsSigOf table.now left.now }
    requires right { IsSigOf table.now right.now }
    ensures { IfOk result (λ yes. IsTrue yes ↔ SigBelow (table_of table.now) (written_of left.now) (written_of right.now)) }
{
    table.valid();
    let is_below = are_below_some(alloc, table, left, right)?;
    Ok(is_below)
}
