//! Upper bounds that mention variables: whether there are any, and what stands in them at the first place of a variable.

ghost use Rattle.std.specs.Prelude.{◌≡◌, ◌+◌, ◌<◌, not, IfOk, drop, length};
ghost use Rattle.std.specs.List.{list_any};
ghost use Rattle.jl_model.specs.Valid.{is_closed};
ghost use Rattle.jl_search.specs.Walk.{in_above};

use crate::find::{arguments, first_argument};
use jl_model::ty::{Bound, Ty, Tys};
use jl_types::closed::is_closed;
use std::alloc::AllocError;

/// Whether one of the upper bounds mentions a variable.
pub fn mention_variables(bounds: &[Bound]) -> bool
    ensures { result ≡ list_any (λ b. not (is_closed b.high)) bounds.now }
{
    for bound in bounds {
        if !is_closed(&bound.high) {
            return true;
        }
    }
    false
}

/// What stands at the first place of a variable in the upper bounds of those after it. Of each variable `above` has the arguments
/// in which those of its upper bound are found, and none where nothing is known below this bound.
#[tactic(auto, using(crate::proofs::WalkLemmas::going_on))]
pub fn in_bounds(variable: usize, bounds: &[Bound], above: &[Tys]) -> Result<Option<Ty>, AllocError>
    requires variable { variable < length bounds.now }
    requires long { length above.now ≡ length bounds.now }
    ensures { IfOk result (λ hit. hit ≡ in_above variable (drop (variable + 1) bounds.now) (drop (variable + 1) above.now)) }
{
    for other in variable + 1..bounds.len() {
        let bound = &bounds[other];
        let found = above[other].as_slice();
        let hit = first_argument(variable, arguments(&bound.high), found)?;
        if hit.is_some() {
            return Ok(hit);
        }
    }
    Ok(None)
}
