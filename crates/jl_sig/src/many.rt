//! Whether a signature has too many rows. Where no variable is diagonal its rows are only counted.

ghost use Rattle.std.specs.Prelude.{◌≡◌, ◌↔◌, IsTrue, IfOk, false};
ghost use Rattle.std.specs.List.{list_any};
ghost use Rattle.jl_model.specs.Ancestors.{table_of};
ghost use Rattle.jl_model.specs.Signature.{is_diagonal};
ghost use Rattle.jl_model.specs.SigRefusals.{ManyRows};
ghost use Rattle.jl_sig.specs.KindIn.{kind_in};
ghost use Rattle.jl_sig.specs.Built.{AreKinds};
ghost use Rattle.jl_sig.specs.Prepared.{IsExpandable};

use crate::build::all_rows;
use crate::expansion::product_of_forms;
use crate::kept::is_diagonal;
use crate::kind::Kind;
use crate::variables::{kinds, picks, places};
use jl_model::limits::MOST_SIGNATURE_ROWS;
use jl_model::ty::{Bound, Written};
use jl_types::Table;
use std::alloc::{AllocError, Global};

/// Whether one of these kinds is diagonal.
fn have_diagonal(kinds: &[Kind]) -> bool
    ensures { result ≡ list_any (λ k. is_diagonal (kind_in k)) kinds.now }
{
    for kind in kinds {
        if is_diagonal(*kind) {
            return true;
        }
    }
    false
}

/// Whether a signature without diagonal variables has more than 256 rows: one for each choice of parts.
fn has_many_choices(
    alloc: Global,
    table: &Table,
    written: &Written,
    kinds: &[Kind],
    bounds: &[Bound],
) -> Result<bool, AllocError>
    requires expandable { IsExpandable table.now written.now bounds.now }
    requires kinds { AreKinds written.now kinds.now }
    requires none { list_any (λ k. is_diagonal (kind_in k)) kinds.now ≡ false }
    ensures { IfOk result (λ many. IsTrue many ↔ ManyRows (table_of table.now) written.now) }
{
    let parts = written.parts.as_slice();
    let picks = picks(alloc, table, written, kinds, bounds)?;
    let places = places(alloc, written, kinds, picks.as_slice())?;
    if product_of_forms(parts, places.as_slice()) > MOST_SIGNATURE_ROWS {
        return Ok(true);
    }
    Ok(false)
}

/// Whether a signature has more than 256 rows. Its bounds stand in normal form beside it.
pub fn has_many_rows(
    alloc: Global,
    table: &Table,
    written: &Written,
    bounds: &[Bound],
) -> Result<bool, AllocError>
    requires { IsExpandable table.now written.now bounds.now }
    ensures { IfOk result (λ many. IsTrue many ↔ ManyRows (table_of table.now) written.now) }
{
    let kinds = kinds(alloc, written)?;
    if !have_diagonal(kinds.as_slice()) {
        let many = has_many_choices(alloc, table, written, kinds.as_slice(), bounds)?;
        return Ok(many);
    }
    let rows = all_rows(alloc, table, written, kinds.as_slice(), bounds)?;
    Ok(rows.is_none())
}
