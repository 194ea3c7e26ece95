//! The raw alternatives of a type, counted no further than their limit.

ghost use Rattle.std.specs.Prelude.{◌≡◌, ◌+◌, ◌*◌, ◌≤◌, ◌<◌, min, map, MatchOption, Option, None, Some};
ghost use Rattle.jl_model.specs.Counts.{total, product, greatest, raw};

use jl_model::limits::MOST_ALTERNATIVES;
use jl_model::ty::Ty;

/// The sum of the parts' raw alternatives, at most 257; nothing where a part has more than 256.
#[cycle(raw)]
#[tactic(auto, using(crate::proofs::RawLemmas::raws))]
fn sum_within(parts: &[Ty]) -> Option<u64>
    ensures { MatchOption result (MOST_ALTERNATIVES < greatest (map (λ r. r.widest) (map raw parts.now)))
        (λ sum. (greatest (map (λ r. r.widest) (map raw parts.now)) ≤ MOST_ALTERNATIVES) × (sum ≡ min (total (map (λ r. r.count) (map raw parts.now))) (MOST_ALTERNATIVES + 1))) }
{
    let mut sum: u64 = 0;
    for part in parts {
        sum = (sum + alternatives_within(part)?).min(MOST_ALTERNATIVES + 1);
    }
    Some(sum)
}

/// The product of the parts' raw alternatives, at most 257; nothing where a part has more than 256.
#[cycle(raw)]
#[tactic(auto, using(crate::proofs::RawLemmas::raws))]
fn product_within(parts: &[Ty]) -> Option<u64>
    ensures { MatchOption result (MOST_ALTERNATIVES < greatest (map (λ r. r.widest) (map raw parts.now)))
        (λ count. (greatest (map (λ r. r.widest) (map raw parts.now)) ≤ MOST_ALTERNATIVES) × (count ≡ min (product (map (λ r. r.count) (map raw parts.now))) (MOST_ALTERNATIVES + 1))) }
{
    let mut count: u64 = 1;
    for part in parts {
        count = (count * alternatives_within(part)?).min(MOST_ALTERNATIVES + 1);
    }
    Some(count)
}

/// The raw alternatives of a type; nothing where it or a part of it has more than 256.
#[cycle(raw)]
#[tactic(auto, using(crate::proofs::RawLemmas::raws))]
pub fn alternatives_within(ty: &Ty) -> Option<u64>
    ensures { MatchOption result (MOST_ALTERNATIVES < (raw ty.now).widest) (λ count. ((raw ty.now).widest ≤ MOST_ALTERNATIVES) × (count ≡ (raw ty.now).count)) }
{
    let count = match ty {
        Ty::Any => 1,
        Ty::Union(members) => sum_within(members.as_slice())?,
        Ty::Tuple(parts) => product_within(parts.as_slice())?,
        Ty::Nominal(_, arguments) => {
            let _ = sum_within(arguments.as_slice())?;
            1
        }
        Ty::Var(_) => 1,
    };
    if count > MOST_ALTERNATIVES {
        None
    } else {
        Some(count)
    }
}
