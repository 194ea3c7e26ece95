//! Whether one written type is below another, where both can be judged.

ghost use Rattle.std.specs.Prelude.{◌≡◌, IfOk, MatchOption};
ghost use Rattle.jl_judge.specs.Right.{CanBeJudged, IsJudgedBelow};
ghost use Rattle.jl_judge.specs.Judged.{IsJudgedAs};
ghost use Rattle.jl_judge.specs.Tell.{Tells};

use jl_model::ty::Ty;
use jl_norm::known::is_known;
use jl_norm::norm;
use jl_types::closed::is_closed;
use jl_types::{NormFault, Table, ground_sub};
use std::alloc::{AllocError, Global};

/// The normal form of a type, or none where the type can't be judged.
fn judge_type(alloc: Global, table: &Table, ty: &Ty) -> Result<Option<Ty>, AllocError>
    ensures { IfOk result (λ form. MatchOption form
        (CanBeJudged table.now ty.now → ⊥) (IsJudgedAs table.now ty.now)) }
{
    if !is_known(ty, u64::from(table.count())) {
        return Ok(None);
    }
    if !is_closed(ty) {
        return Ok(None);
    }
    match norm(alloc, table, ty) {
        Ok(form) => Ok(Some(form)),
        Err(NormFault::TypeLimit) => Ok(None),
        Err(NormFault::Memory) => Err(AllocError),
    }
}

/// Whether both types can be judged, and `low` is below `high` (Julia manual, Types: UnionAll Types).
pub fn is_below(alloc: Global, table: &Table, low: &Ty, high: &Ty) -> Result<bool, AllocError>
    ensures { IfOk result (λ b. Tells b (IsJudgedBelow table.now low.now high.now)) }
{
    table.valid();
    let Some(lower) = judge_type(alloc, table, low)? else {
        return Ok(false);
    };
    let Some(upper) = judge_type(alloc, table, high)? else {
        return Ok(false);
    };
    Ok(ground_sub(table, &lower, &upper))
}
