//! The row of a key that covers a world: its site, and the worlds of its range.

ghost use Rattle.std.specs.Prelude.{List, ◌≡◌, ◌<◌, ◌≤◌, ◌↔◌, IsTrue, IfOk, Some, length, slice_get, take};
ghost use Rattle.jl_model.specs.declared.limits.TheConstants.{MOST_WORLDS};
ghost use Rattle.jl_model.specs.Signature.{Applicable};
ghost use Rattle.jl_program.specs.declared.prelude.TheConstants.{FIRST_WORLD};
ghost use Rattle.jl_program.specs.Scope.{all_types, types_of};
ghost use Rattle.jl_calculus.specs.declared.history.Event.{Event};
ghost use Rattle.jl_calculus.specs.Legal.{IsKeyOf};
ghost use Rattle.jl_calculus.specs.Ranges.{head_of_site, head_of_place, HeadTouches};
ghost use Rattle.jl_calculus.specs.World.{changes, site_in, world_of, Selects};
ghost use Rattle.jl_sig.specs.Prepared.{IsSigOf};
ghost use Rattle.jl_sig.specs.SigParts.{written_of};
ghost use Rattle.jl_core.specs.Flags.{IsTouching, AreFlags, IsFirst, IsLast, IsRangeOrNone};

use crate::events::changes;
use crate::picked::{defs_of, dels_of};
use jl_calculus::history::{Change, Event};
use jl_match::applies;
use jl_model::ty::Key;
use jl_program::choice::Choice;
use jl_program::prelude::FIRST_WORLD;
use jl_sig::{Ready, Sig};
use jl_subsig::choose_standing;
use std::alloc::{AllocError, Global};

/// What a row tells: its site, its first world, and its last world, which is 0 where it has no end.
#[derive(Clone, Copy)]
pub(crate) struct Range {
    pub(crate) site: u32,
    pub(crate) first: u32,
    pub(crate) last: u32,
}

/// Whether what is of this function and of this signature touches a key.
fn sig_touches(
    alloc: Global,
    ready: &Ready,
    function: u32,
    sig: &Sig,
    key: &Key,
) -> Result<bool, AllocError>
    requires key { IsKeyOf ready.now key.now }
    requires kept { IsSigOf (all_types ready.now) sig.now }
    ensures { IfOk result (λ yes. IsTrue yes ↔ ((function ≡ key.now.function) × Applicable (types_of ready.now) (written_of sig.now) key.now.types)) }
{
    if function != key.function {
        return Ok(false);
    }
    let Some(_) = applies(alloc, ready.table(), sig, key.types.as_slice())? else {
        return Ok(false);
    };
    Ok(true)
}

/// Whether the definition of a site touches a key: it is of the key's function, and its signature applies to the key's types.
fn site_touches(alloc: Global, ready: &Ready, site: u32, key: &Key) -> Result<bool, AllocError>
    requires { IsKeyOf ready.now key.now }
    ensures { IfOk result (λ yes. IsTrue yes ↔ HeadTouches ready.now (head_of_site (slice_get ready.now.sites site)) key.now) }
{
    let Some(found) = ready.program().sites.as_slice().get(site as usize) else {
        return Ok(false);
    };
    let yes = sig_touches(alloc, ready, found.function, ready.sig(site), key)?;
    Ok(yes)
}

/// Whether the deletion at a place touches a key, in the same way.
fn place_touches(alloc: Global, ready: &Ready, place: u32, key: &Key) -> Result<bool, AllocError>
    requires { IsKeyOf ready.now key.now }
    ensures { IfOk result (λ yes. IsTrue yes ↔ HeadTouches ready.now (head_of_place (slice_get ready.now.deletes place)) key.now) }
{
    let Some(found) = ready.program().deletes.as_slice().get(place as usize) else {
        return Ok(false);
    };
    let yes = sig_touches(alloc, ready, found.function, ready.delete_sig(place), key)?;
    Ok(yes)
}

/// Whether a change touches a key.
pub(crate) fn touches(
    alloc: Global,
    ready: &Ready,
    change: Change,
    key: &Key,
) -> Result<bool, AllocError>
    requires { IsKeyOf ready.now key.now }
    ensures { IfOk result (λ yes. IsTrue yes ↔ IsTouching ready.now key.now change) }
{
    match change {
        Change::Def(site) => {
            let yes = site_touches(alloc, ready, site, key)?;
            Ok(yes)
        }
        Change::Del(place) => {
            let yes = place_touches(alloc, ready, place, key)?;
            Ok(yes)
        }
    }
}

/// Which of these changes touch a key.
fn flags_of(
    alloc: Global,
    ready: &Ready,
    made: &[Change],
    key: &Key,
) -> Result<Vec<bool>, AllocError>
    requires { IsKeyOf ready.now key.now }
    ensures { IfOk result (λ flags. AreFlags (IsTouching ready.now key.now) made.now flags.items) }
{
    let mut flags = Vec::new(alloc);
    for change in made {
        flags.push(touches(alloc, ready, *change, key)?)?;
    }
    Ok(flags)
}

/// The site of a definition.
fn site_in(change: Change) -> u32
    ensures { result ≡ site_in (Some change) }
{
    match change {
        Change::Def(site) => site,
        Change::Del(_) => 0,
    }
}

/// The first world of the row that covers a world: that of the last flagged change up to it, or the last one of the prelude.
fn first_of(flags: &[bool], world: u32) -> u32
    requires low { FIRST_WORLD ≤ world }
    requires high { world ≤ length flags.now }
    ensures { IsFirst flags.now world result }
{
    let mut first = FIRST_WORLD;
    for d in FIRST_WORLD..world {
        if flags[d as usize] {
            first = d + 1;
        }
    }
    first
}

/// Its last world: the one before the next flagged change, and 0 where there is none.
fn last_of(flags: &[bool], world: u32) -> u32
    requires few { length flags.now ≤ MOST_WORLDS }
    ensures { IsLast flags.now world result }
{
    for d in world..flags.len() as u32 {
        if flags[d as usize] {
            return d;
        }
    }
    0
}

/// The choice for a key in a world, where these are the changes and the flags tell which of them touch the key.
fn choice_of(
    alloc: Global,
    ready: &Ready,
    made: &[Change],
    flags: &[bool],
    key: &Key,
    world: u32,
) -> Result<Choice, AllocError>
    requires key { IsKeyOf ready.now key.now }
    requires flags { AreFlags (IsTouching ready.now key.now) made.now flags.now }
    requires few { length made.now ≤ MOST_WORLDS }
    requires high { world ≤ length made.now }
    ensures { IfOk result (λ choice. (es : List Event) → changes es ≡ made.now → Selects ready.now es key.now.function key.now.types world choice) }
{
    ready.valid();
    let known = &made[..world as usize];
    let flagged = &flags[..world as usize];
    let defs = defs_of(alloc, known, flagged)?;
    let dels = dels_of(alloc, known, flagged)?;
    let choice = choose_standing(alloc, ready, defs.as_slice(), dels.as_slice())?;
    Ok(choice)
}

/// The choice for a key in a world.
pub(crate) fn select(
    alloc: Global,
    ready: &Ready,
    events: &[Event],
    key: &Key,
    world: u32,
) -> Result<Choice, AllocError>
    requires key { IsKeyOf ready.now key.now }
    requires high { world ≤ world_of events.now }
    requires few { world_of events.now ≤ MOST_WORLDS }
    ensures { IfOk result (Selects ready.now events.now key.now.function key.now.types world) }
{
    let made = changes(alloc, events)?;
    let known = made.as_slice();
    let flags = flags_of(alloc, ready, known, key)?;
    let choice = choice_of(alloc, ready, known, flags.as_slice(), key, world)?;
    Ok(choice)
}

/// The row of a key that covers a world, by all changes that are there; none where no method is chosen in that world.
pub(crate) fn range_of(
    alloc: Global,
    ready: &Ready,
    events: &[Event],
    key: &Key,
    world: u32,
) -> Result<Option<Range>, AllocError>
    requires key { IsKeyOf ready.now key.now }
    requires low { FIRST_WORLD ≤ world }
    requires high { world ≤ world_of events.now }
    requires few { world_of events.now ≤ MOST_WORLDS }
    ensures { IfOk result (IsRangeOrNone ready.now events.now key.now world) }
{
    let made = changes(alloc, events)?;
    let known = made.as_slice();
    let flags = flags_of(alloc, ready, known, key)?;
    let flagged = flags.as_slice();
    let choice = choice_of(alloc, ready, known, flagged, key, world)?;
    let Choice::Method(method) = choice else {
        return Ok(None);
    };
    let site = site_in(made[method as usize - 1]);
    let first = first_of(flagged, world);
    let last = last_of(flagged, world);
    Ok(Some(Range { site, first, last }))
}
