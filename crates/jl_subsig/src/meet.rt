//! Whether the parts of a left row are below those of a right row, with the types found put in.

ghost use Rattle.std.specs.Prelude.{◌≡◌, ◌↔◌, false, IsTrue, IfOk, length};
ghost use Rattle.jl_model.specs.Ancestors.{table_of};
ghost use Rattle.jl_model.specs.Rows.{width};
ghost use Rattle.jl_model.specs.Subtype.{at, Below};
ghost use Rattle.jl_model.specs.Signature.{Both, Meets};
ghost use Rattle.jl_sig.specs.SigParts.{kept_of, diagonals_of};
ghost use Rattle.jl_subsig.specs.Side.{held, sided, IsItem, IsLeftPart, AreLeftParts, IsRightPart, AreRightParts, AreHeld, AreDiagonalsOf, AreValues};

use crate::below::is_below;
use crate::find::{ancestor, parts};
use jl_model::ty::Ty;
use jl_sig::Sig;
use jl_sig::row::SigRow;
use jl_types::Table;
use jl_types::same::{same, same_all_put};
use std::alloc::{AllocError, Global};

/// Whether each left part meets the right part in its place.
#[cycle(meet)]
pub fn meet_all(
    alloc: Global,
    table: &Table,
    left: &Sig,
    row: &SigRow,
    right: &Sig,
    values: &[Ty],
    uppers: &[Ty],
    types: &[Ty],
) -> Result<bool, AllocError>
    requires held { AreHeld table.now left.now row.now }
    requires right { AreDiagonalsOf right.now }
    requires values { AreValues table.now (width (kept_of right.now)) values.now }
    requires uppers { AreRightParts (table_of table.now) (sided right.now) uppers.now }
    requires types { AreLeftParts table.now (held left.now row.now) types.now }
    ensures { IfOk result (λ yes. IsTrue yes ↔ Both (Meets (table_of table.now) (held left.now row.now) (sided right.now) (at values.now)) types.now uppers.now) }
{
    if uppers.len() != types.len() {
        return Ok(false);
    }
    for (i, upper) in uppers.iter().enumerate() {
        if !meets(alloc, table, left, row, right, values, upper, &types[i])? {
            return Ok(false);
        }
    }
    Ok(true)
}

/// Whether a left part meets a right part: it is below the part with the values put in.
#[cycle(meet)]
fn meets(
    alloc: Global,
    table: &Table,
    left: &Sig,
    row: &SigRow,
    right: &Sig,
    values: &[Ty],
    upper: &Ty,
    ty: &Ty,
) -> Result<bool, AllocError>
    requires held { AreHeld table.now left.now row.now }
    requires right { AreDiagonalsOf right.now }
    requires values { AreValues table.now (width (kept_of right.now)) values.now }
    requires upper { IsRightPart (table_of table.now) (sided right.now) upper.now }
    requires ty { IsLeftPart table.now (held left.now row.now) ty.now }
    ensures { IfOk result (λ yes. IsTrue yes ↔ Meets (table_of table.now) (held left.now row.now) (sided right.now) (at values.now) ty.now upper.now) }
{
    table.valid();
    match upper {
        Ty::Any => Ok(true),
        Ty::Union(_) => Ok(false),
        Ty::Tuple(uppers) => match parts(left, row, ty) {
            Some(types) => meet_all(
                alloc,
                table,
                left,
                row,
                right,
                values,
                uppers.as_slice(),
                types,
            ),
            None => Ok(false),
        },
        Ty::Nominal(target, patterns) => match ancestor(alloc, table, left, row, *target, ty)? {
            Some(above) => Ok(same_all_put(patterns.as_slice(), values, above.as_slice())),
            None => Ok(false),
        },
        Ty::Var(number) => {
            let root = *number as usize % values.len();
            let is_diagonal = right.diagonals()[root];
            Ok(meets_variable(table, left, row, is_diagonal, &values[root], ty))
        }
    }
}

/// Whether a left part meets what is put for a variable: of a diagonal one it is the same, else it is below.
fn meets_variable(
    table: &Table,
    left: &Sig,
    row: &SigRow,
    is_diagonal: bool,
    value: &Ty,
    ty: &Ty,
) -> bool
    requires held { AreHeld table.now left.now row.now }
    requires value { IsItem table.now value.now }
    requires ty { IsItem table.now ty.now }
    ensures diagonal { IsTrue is_diagonal → (IsTrue result ↔ (ty.now ≡ value.now)) }
    ensures atom { is_diagonal ≡ false → (IsTrue result ↔ Below (table_of table.now) (held left.now row.now) ty.now value.now) }
{
    if is_diagonal {
        same(ty, value)
    } else {
        is_below(table, left, row, ty, value)
    }
}
