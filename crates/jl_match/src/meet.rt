//! Whether types are below the parts of a row, with the types found put in.

ghost use Rattle.std.specs.Prelude.{◌≡◌, ◌↔◌, false, IsTrue, IfOk, length};
ghost use Rattle.jl_model.specs.Ancestors.{table_of};
ghost use Rattle.jl_model.specs.Rows.{width};
ghost use Rattle.jl_model.specs.Subtype.{opaque, at, Below};
ghost use Rattle.jl_model.specs.Signature.{Both, Meets};
ghost use Rattle.jl_types.specs.Ground.{IsGround};
ghost use Rattle.jl_match.specs.KeptRow.{AreDiagonals, IsKeptPart, AreKeptParts, AreGround};

use jl_model::ty::{Ty, Written};
use jl_search::find::lifted;
use jl_types::same::{same, same_all_put};
use jl_types::{Table, ground_sub};
use std::alloc::{AllocError, Global};

/// Whether each type meets the part in its place.
#[cycle(meet)]
pub fn meet_all(
    alloc: Global,
    table: &Table,
    signature: &Written,
    diagonals: &[bool],
    values: &[Ty],
    parts: &[Ty],
    types: &[Ty],
) -> Result<bool, AllocError>
    requires diagonals { AreDiagonals signature.now diagonals.now }
    requires values { AreGround table.now values.now }
    requires long { length values.now ≡ width signature.now }
    requires parts { AreKeptParts table.now signature.now parts.now }
    requires types { AreGround table.now types.now }
    ensures { IfOk result (λ yes. IsTrue yes ↔ Both (Meets (table_of table.now) opaque signature.now (at values.now)) types.now parts.now) }
{
    if parts.len() != types.len() {
        return Ok(false);
    }
    for (i, part) in parts.iter().enumerate() {
        if !meets(alloc, table, signature, diagonals, values, part, &types[i])? {
            return Ok(false);
        }
    }
    Ok(true)
}

/// Whether a type meets a part of a row: it is below the part with the values put in.
#[cycle(meet)]
fn meets(
    alloc: Global,
    table: &Table,
    signature: &Written,
    diagonals: &[bool],
    values: &[Ty],
    part: &Ty,
    ty: &Ty,
) -> Result<bool, AllocError>
    requires diagonals { AreDiagonals signature.now diagonals.now }
    requires values { AreGround table.now values.now }
    requires long { length values.now ≡ width signature.now }
    requires part { IsKeptPart table.now signature.now part.now }
    requires ty { IsGround table.now ty.now }
    ensures { IfOk result (λ yes. IsTrue yes ↔ Meets (table_of table.now) opaque signature.now (at values.now) ty.now part.now) }
{
    table.valid();
    match part {
        Ty::Any => Ok(true),
        Ty::Union(_) => Ok(false),
        Ty::Tuple(parts) => match ty {
            Ty::Tuple(types) => meet_all(
                alloc,
                table,
                signature,
                diagonals,
                values,
                parts.as_slice(),
                types.as_slice(),
            ),
            _ => Ok(false),
        },
        Ty::Nominal(target, patterns) => match ty {
            Ty::Nominal(name, arguments) => match lifted(alloc, table, *name, arguments, *target)? {
                None => Ok(false),
                Some(above) => Ok(same_all_put(patterns.as_slice(), values, above.as_slice())),
            },
            _ => Ok(false),
        },
        Ty::Var(number) => {
            let root = *number as usize % values.len();
            Ok(meets_variable(table, diagonals[root], &values[root], ty))
        }
    }
}

/// Whether a type meets what is put for a variable: of a diagonal one it is the same, else it is below.
fn meets_variable(table: &Table, is_diagonal: bool, value: &Ty, ty: &Ty) -> bool
    requires value { IsGround table.now value.now }
    requires ty { IsGround table.now ty.now }
    ensures diagonal { IsTrue is_diagonal → (IsTrue result ↔ (ty.now ≡ value.now)) }
    ensures atom { is_diagonal ≡ false → (IsTrue result ↔ Below (table_of table.now) opaque ty.now value.now) }
{
    if is_diagonal {
        same(ty, value)
    } else {
        ground_sub(table, ty, value)
    }
}
