//! The kinds of a signature's variables.

ghost use Rattle.std.specs.Prelude.{◌≡◌, ◌≤◌, min, map};
ghost use Rattle.jl_model.specs.Kinds.{places, plus_all};
ghost use Rattle.jl_model.specs.Rows.{kind};
ghost use Rattle.jl_sig.specs.KindIn.{kind_in};

use crate::standing::stands_in_bounds;
use jl_model::ty::{Ty, Written};

/// How a variable stands in a signature. A diagonal variable ranges over concrete types alone (Julia manual, Types:
/// UnionAll Types; Zappa Nardelli et al., OOPSLA 2018).
#[derive(Clone, Copy, PartialEq, Eq, Debug)]
pub enum Kind {
    /// It has no place.
    Unused,
    /// It has one covariant place and no invariant one.
    Once,
    /// It has several covariant places and no invariant one.
    Diagonal,
    /// It has an invariant place, in a component or in a bound.
    Bound,
}

/// How many places a variable has, each number at most 2.
#[derive(Clone, Copy)]
pub(crate) struct Found {
    pub(crate) covariant: u64,
    pub(crate) invariant: u64,
}

/// The places of a variable in these types.
#[cycle(places)]
#[tactic(auto, using(crate::proofs::KindLemmas::placing))]
pub(crate) fn places_in_all(types: &[Ty], variable: u64) -> Found
    ensures covariant { result.covariant ≡ min (plus_all (map (places variable) types.now)).covariant 2 }
    ensures invariant { result.invariant ≡ min (plus_all (map (places variable) types.now)).invariant 2 }
{
    let mut above: u64 = 0;
    let mut below: u64 = 0;
    for ty in types {
        let more = places_in(ty, variable);
        above = (above + more.covariant).min(2);
        below = (below + more.invariant).min(2);
    }
    Found {
        covariant: above,
        invariant: below,
    }
}

/// The places of a variable in a type.
#[cycle(places)]
#[tactic(auto, using(crate::proofs::KindLemmas::placing))]
fn places_in(ty: &Ty, variable: u64) -> Found
    ensures covariant { result.covariant ≡ min (places variable ty.now).covariant 2 }
    ensures invariant { result.invariant ≡ min (places variable ty.now).invariant 2 }
{
    match ty {
        Ty::Any => Found {
            covariant: 0,
            invariant: 0,
        },
        Ty::Union(parts) | Ty::Tuple(parts) => places_in_all(parts.as_slice(), variable),
        Ty::Nominal(_, arguments) => {
            let below = places_in_all(arguments.as_slice(), variable);
            Found {
                covariant: 0,
                invariant: (below.covariant + below.invariant).min(2),
            }
        }
        Ty::Var(other) => Found {
            covariant: if variable == u64::from(*other) { 1 } else { 0 },
            invariant: 0,
        },
    }
}

/// The kind of a variable in a signature as it is written. The components and parts of unions and tuples in them are covariant
/// places. All below a nominal type, and all in the bounds of variables, is an invariant place (Zappa Nardelli et al., OOPSLA
/// 2018).
pub fn kind_of(written: &Written, variable: u64) -> Kind
    ensures { kind_in result ≡ kind written.now variable }
{
    let found = places_in_all(written.parts.as_slice(), variable);
    if found.invariant > 0 {
        return Kind::Bound;
    }
    if stands_in_bounds(written.vars.as_slice(), variable) {
        return Kind::Bound;
    }
    if found.covariant == 0 {
        Kind::Unused
    } else if found.covariant == 1 {
        Kind::Once
    } else {
        Kind::Diagonal
    }
}
