//! What is kept of a signature beside its bounds: the signature and its rows with their arguments in normal form, which of
//! its variables are diagonal, and the alternatives of its upper bounds.

ghost use Rattle.std.specs.Prelude.{◌≡◌, IfOk, map};
ghost use Rattle.jl_model.specs.Refusals.{bound_types};
ghost use Rattle.jl_model.specs.Rows.{alts};
ghost use Rattle.jl_model.specs.Signature.{Both, is_diagonal};
ghost use Rattle.jl_sig.specs.KindIn.{kind_in};
ghost use Rattle.jl_sig.specs.Built.{listed};
ghost use Rattle.jl_sig.specs.Fit.{AllFit, AllRowsFit, IsKeptAs, IsKeptRow, AreKeptRows, IsKeptSignature};

use crate::forms::push_bound;
use crate::keep::{keep, keep_all};
use crate::kind::Kind;
use crate::row::SigRow;
use jl_model::ty::{Bound, Bounds, Tys, Written};
use jl_types::Table;
use jl_types::expand::expand;
use std::alloc::{AllocError, Global};

/// Both bounds of each variable as they are kept.
fn keep_bounds(alloc: Global, table: &Table, bounds: &[Bound]) -> Result<Bounds, AllocError>
    requires { AllFit table.now (bound_types bounds.now) }
    ensures { IfOk result (λ cs. Both (IsKeptAs table.now) (bound_types bounds.now) (bound_types cs)) }
{
    let mut kept = Vec::new(alloc);
    for bound in bounds {
        let low = keep(alloc, table, &bound.low)?;
        let high = keep(alloc, table, &bound.high)?;
        push_bound(&mut kept, Bound { low, high })?;
    }
    let kept = Bounds::from_vec(alloc, kept)?;
    Ok(kept)
}

/// A signature as it is kept.
pub fn keep_signature(
    alloc: Global,
    table: &Table,
    written: &Written,
) -> Result<Written, AllocError>
    requires bounds { AllFit table.now (bound_types written.now.vars) }
    requires parts { AllFit table.now written.now.parts }
    ensures { IfOk result (λ k. IsKeptSignature table.now written.now k) }
{
    let vars = keep_bounds(alloc, table, written.vars.as_slice())?;
    let parts = keep_all(alloc, table, written.parts.as_slice())?;
    Ok(Written { vars, parts })
}

/// A row as it is kept.
fn keep_row(alloc: Global, table: &Table, row: &SigRow) -> Result<SigRow, AllocError>
    requires parts { AllFit table.now row.now.parts }
    requires chosen { AllFit table.now row.now.chosen }
    ensures { IfOk result (λ k. IsKeptRow table.now (listed row.now) k) }
{
    let parts = keep_all(alloc, table, row.parts.as_slice())?;
    let chosen = keep_all(alloc, table, row.chosen.as_slice())?;
    Ok(SigRow { parts, chosen })
}

/// Each row as it is kept.
pub fn keep_rows(alloc: Global, table: &Table, rows: &[SigRow]) -> Result<Vec<SigRow>, AllocError>
    requires { AllRowsFit table.now (map listed rows.now) }
    ensures { IfOk result (λ ks. AreKeptRows table.now (map listed rows.now) ks.items) }
{
    let mut kept = Vec::new(alloc);
    for row in rows {
        kept.push(keep_row(alloc, table, row)?)?;
    }
    Ok(kept)
}

/// The alternatives of each upper bound.
pub fn alternatives(alloc: Global, bounds: &[Bound]) -> Result<Vec<Tys>, AllocError>
    ensures { IfOk result (λ ls. ls.items ≡ map (λ b. alts b.high) bounds.now) }
{
    let mut lists = Vec::new(alloc);
    for bound in bounds {
        let list = expand(alloc, &bound.high)?;
        lists.push(Tys::from_vec(alloc, list)?)?;
    }
    Ok(lists)
}

/// Whether variables of this kind are diagonal.
pub(crate) fn is_diagonal(kind: Kind) -> bool
    ensures { result ≡ is_diagonal (kind_in kind) }
{
    match kind {
        Kind::Diagonal => true,
        Kind::Unused | Kind::Once | Kind::Bound => false,
    }
}

/// Which of these kinds are diagonal.
pub fn diagonals(alloc: Global, kinds: &[Kind]) -> Result<Vec<bool>, AllocError>
    ensures { IfOk result (λ ds. ds.items ≡ map (λ k. is_diagonal (kind_in k)) kinds.now) }
{
    let mut diagonals = Vec::new(alloc);
    for kind in kinds {
        diagonals.push(is_diagonal(*kind))?;
    }
    Ok(diagonals)
}
