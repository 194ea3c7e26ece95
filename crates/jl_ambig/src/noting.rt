//! The pairs that were found so far, in order.

ghost use Rattle.std.specs.Prelude.{◌≡◌, ◌≤◌, [], OnOk, MatchOption, length};
ghost use Rattle.std.specs.List.Sorted.{IsStrictlySortedBy};
ghost use Rattle.jl_ambig.specs.Asked.{IsThere, IsPlaceFor, IsNoted, IsNotedBy, pair_of};
ghost use Rattle.jl_ambig.specs.Pairs.{pair_cmp};

use jl_model::ty::Tys;
use jl_program::choice::Choice;
use std::alloc::AllocError;
use std::cmp::Ordering;

/// Two definitions between which a call is ambiguous, by the worlds that they made, the earlier one first, and the types of its
/// arguments.
#[derive(Drop)]
pub struct Pair {
    pub a: u32,
    pub b: u32,
    pub types: Tys,
}

/// Whether a pair comes before that of two definitions, or is this, or comes after it.
fn compare(pair: &Pair, a: u32, b: u32) -> Ordering
    ensures { result ≡ pair_cmp pair.now (pair_of a b []) }
{
    pair.a.cmp(&a).then(pair.b.cmp(&b))
}

/// Where the pair of two definitions belongs among those that were found, unless it is there.
fn place_for(pairs: &[Pair], a: u32, b: u32) -> Option<usize>
    ensures within { MatchOption result (Unit {0}) (λ i. i ≤ length pairs.now) }
    ensures place { IsStrictlySortedBy pair_cmp pairs.now → MatchOption result (IsThere pair_cmp (pair_of a b []) pairs.now) (IsPlaceFor pair_cmp (pair_of a b []) pairs.now) }
{
    for (i, pair) in pairs.iter().enumerate() {
        match compare(pair, a, b) {
            Ordering::Less => {}
            Ordering::Equal => return None,
            Ordering::Greater => return Some(i),
        }
    }
    Some(pairs.len())
}

/// Notes a pair that is named at a probe, unless it was named before.
fn note(pairs: &mut Vec<Pair>, a: u32, b: u32, types: &Tys) -> Result<(), AllocError>
    ensures { OnOk result (IsStrictlySortedBy pair_cmp pairs.old.items → IsNoted a b types.now pairs.old.items pairs.new.items) }
{
    let Some(place) = place_for(pairs.as_slice(), a, b) else {
        return Ok(());
    };
    let types = types.copy()?;
    pairs.insert(place, Pair { a, b, types })?;
    Ok(())
}

/// Notes what is chosen at a probe, where that is a pair.
pub(crate) fn note_choice(
    pairs: &mut Vec<Pair>,
    choice: Choice,
    types: &Tys,
) -> Result<(), AllocError>
    ensures { OnOk result (IsStrictlySortedBy pair_cmp pairs.old.items → IsNotedBy choice types.now pairs.old.items pairs.new.items) }
{
    match choice {
        Choice::Method(_) => Ok(()),
        Choice::None => Ok(()),
        Choice::Ambiguous(a, b) => note(pairs, a, b, types),
    }
}
