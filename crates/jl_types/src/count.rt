//! The nodes of a type and its raw alternatives, counted no further than the limits.

ghost use Rattle.std.specs.Prelude.{◌≡◌, ◌+◌, ◌*◌, ◌≤◌, ◌^◌, ◌<◌, min, map};
ghost use Rattle.jl_model.specs.Counts.{nodes, total, raw};

use jl_model::ty::Ty;

/// The nodes of several types, or one more than `most` where they are more.
#[cycle(nodes)]
#[tactic(auto, using(crate::proofs::CountLemmas::counting))]
pub fn nodes_of_all(types: &[Ty], most: u64) -> u64
    requires { most < 2 ^ 32 }
    ensures { result ≡ min (total (map nodes types.now)) (most + 1) }
{
    let mut count = 0;
    for ty in types {
        if count > most {
            return count;
        }
        count += nodes_within(ty, most - count);
    }
    count
}

/// The nodes of a type, or one more than `most` where they are more. No more than that many nodes are visited.
#[cycle(nodes)]
#[tactic(auto, using(crate::proofs::CountLemmas::counting))]
pub fn nodes_within(ty: &Ty, most: u64) -> u64
    requires { most < 2 ^ 32 }
    ensures { result ≡ min (nodes ty.now) (most + 1) }
{
    if most == 0 {
        return 1;
    }
    match ty {
        Ty::Any => 1,
        Ty::Union(parts) | Ty::Tuple(parts) | Ty::Nominal(_, parts) => 1
            + nodes_of_all(parts.as_slice(), most - 1),
        Ty::Var(_) => 1,
    }
}
