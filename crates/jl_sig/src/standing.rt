//! Where a variable stands in a signature.

ghost use Rattle.std.specs.Prelude.{◌≡◌, not};
ghost use Rattle.std.specs.List.{list_all, list_any};
ghost use Rattle.jl_model.specs.Refusals.{bound_types};
ghost use Rattle.jl_model.specs.Usable.{stands_in};
ghost use Rattle.jl_model.specs.Valid.{is_closed};

use jl_model::ty::{Bound, Ty};
use jl_types::closed::is_closed;

/// Whether a variable stands in one of these.
#[cycle(stands)]
#[tactic(auto, using(crate::proofs::UsableLemmas::standing))]
pub fn stands_in_some(types: &[Ty], variable: u64) -> bool
    ensures { result ≡ list_any (stands_in variable) types.now }
{
    for ty in types {
        if stands_in(ty, variable) {
            return true;
        }
    }
    false
}

/// Whether a variable stands in a type.
#[cycle(stands)]
#[tactic(auto, using(crate::proofs::UsableLemmas::standing))]
fn stands_in(ty: &Ty, variable: u64) -> bool
    ensures { result ≡ stands_in variable ty.now }
{
    match ty {
        Ty::Any => false,
        Ty::Union(parts) | Ty::Tuple(parts) | Ty::Nominal(_, parts) => {
            stands_in_some(parts.as_slice(), variable)
        }
        Ty::Var(other) => variable == u64::from(*other),
    }
}

/// Whether a variable stands in one of these bounds.
pub fn stands_in_bounds(bounds: &[Bound], variable: u64) -> bool
    ensures { result ≡ list_any (stands_in variable) (bound_types bounds.now) }
{
    for bound in bounds {
        if stands_in(&bound.low, variable) || stands_in(&bound.high, variable) {
            return true;
        }
    }
    false
}

/// Whether any variable stands in these bounds.
pub fn have_variables(bounds: &[Bound]) -> bool
    ensures { result ≡ not (list_all is_closed (bound_types bounds.now)) }
{
    for bound in bounds {
        if !is_closed(&bound.low) || !is_closed(&bound.high) {
            return true;
        }
    }
    false
}
