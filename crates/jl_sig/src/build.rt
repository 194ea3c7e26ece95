//! All rows of a signature.

ghost use Rattle.std.specs.Prelude.{IfOk, MatchOption, map};
ghost use Rattle.jl_model.specs.Ancestors.{table_of};
ghost use Rattle.jl_model.specs.SigRefusals.{ManyRows};
ghost use Rattle.jl_sig.specs.Built.{listed, AreKinds};
ghost use Rattle.jl_sig.specs.Prepared.{IsExpandable, AreAllRows};

use crate::expansion::{components, product_of_forms};
use crate::kind::Kind;
use crate::row::SigRow;
use crate::rows::rows_from;
use crate::variables::{picks, places};
use jl_model::limits::MOST_SIGNATURE_ROWS;
use jl_model::ty::{Bound, Written};
use jl_types::Table;
use std::alloc::{AllocError, Global};

/// All rows of a signature whose bounds stand in normal form; nothing exactly where there are more than 256. The rows stand as
/// the signature is written. A diagonal variable that may take no alternative of its upper bound has no place in any row.
pub fn all_rows(
    alloc: Global,
    table: &Table,
    written: &Written,
    kinds: &[Kind],
    bounds: &[Bound],
) -> Result<Option<Vec<SigRow>>, AllocError>
    requires expandable { IsExpandable table.now written.now bounds.now }
    requires kinds { AreKinds written.now kinds.now }
    ensures { IfOk result (λ o. MatchOption o (ManyRows (table_of table.now) written.now) (λ rows. AreAllRows (table_of table.now) written.now (map listed rows.items))) }
{
    let parts = written.parts.as_slice();
    let picks = picks(alloc, table, written, kinds, bounds)?;
    let places = places(alloc, written, kinds, picks.as_slice())?;
    if product_of_forms(parts, places.as_slice()) > MOST_SIGNATURE_ROWS {
        return Ok(None);
    }
    let components = components(alloc, parts, places.as_slice())?;
    let rows = rows_from(
        alloc,
        written,
        kinds,
        picks.as_slice(),
        components.as_slice(),
    )?;
    Ok(rows)
}
