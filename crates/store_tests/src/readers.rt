//! The reading side: a look, and searches in the worlds that it tells, each checked against the history that is written.

ghost use Rattle.std.specs.Prelude.{◌≡◌, ◌<◌, length};
ghost use Rattle.jl_calculus.specs.Ranges.{keys_of};
ghost use Rattle.jl_world.specs.Views.{Begins};

use crate::rounds::FIRST;
use jl_cache::{Cache, Found, Miss};
use jl_world::{Naming, TaskSeat};

/// The history begins with a Begin, a definition and a key; each round adds a fill and a definition.
const BEFORE: u32 = 3;

/// How often a look waits for a definition at most.
const MOST_LOOKS: u32 = 100_000_000;

/// The world of so many events.
fn world_at(length: u32) -> u32 {
    if length < BEFORE {
        return FIRST;
    }
    FIRST.saturating_add((length - BEFORE) / 2)
}

/// Whether the row that begins in a world is among so many events.
fn is_linked(world: u32, length: u32) -> bool {
    if world < FIRST || length < BEFORE {
        return false;
    }
    (length - BEFORE).div_ceil(2) > world - FIRST
}

/// Whether the site of `f` was found exactly where the row is among the events seen.
fn is_right<N: Naming>(found: Found<Miss<N>>, world: u32, length: u32) -> bool {
    match found {
        Found::Hit(site) => site == 14 && is_linked(world, length),
        Found::Miss(miss) => {
            miss.key() == 0 && miss.world() == world && !is_linked(world, length)
        }
    }
}

/// One look, and a search in the newest world and in the one before: whether all answers are those of the history.
fn search<N: Naming>(cache: &Cache<N>, seat: &mut TaskSeat<N>) -> bool
    requires key { 0 < length (keys_of seat.old.seen) }
    ensures seen { Begins seat.old.seen seat.new.seen }
{
    let seen = cache.world().look(seat);
    let newest = cache.find(seat, 0, seen.world);
    let right = is_right(newest, seen.world, seat.seen());
    if seen.world <= FIRST {
        return right && seen.world == world_at(seen.length);
    }
    let before = seen.world - 1;
    let earlier = cache.find(seat, 0, before);
    right && is_right(earlier, before, seat.seen()) && seen.world == world_at(seen.length)
}

/// How many of so many searches were not right.
fn search_often<N: Naming>(cache: &Cache<N>, mut seat: TaskSeat<N>, count: u32) -> u32
    requires key { 0 < length (keys_of seat.seen) }
{
    let mut wrong = 0;
    for _ in 0..count {
        if !search(cache, &mut seat) && wrong < u32::MAX {
            wrong += 1;
        }
    }
    wrong
}

/// Looks until there is a second definition, or too often.
fn wait_for_a_definition<N: Naming>(cache: &Cache<N>, seat: &mut TaskSeat<N>)
    requires key { 0 < length (keys_of seat.old.seen) }
    ensures key { 0 < length (keys_of seat.new.seen) }
{
    for _ in 0..MOST_LOOKS {
        let seen = cache.world().look(seat);
        if seen.world > FIRST {
            return;
        }
    }
}

/// The same, once the other side has begun, so that both are at work at once.
pub fn search_beside<N: Naming>(cache: &Cache<N>, mut seat: TaskSeat<N>, count: u32) -> u32
    requires key { 0 < length (keys_of seat.seen) }
{
    wait_for_a_definition(cache, &mut seat);
    search_often(cache, seat, count)
}
