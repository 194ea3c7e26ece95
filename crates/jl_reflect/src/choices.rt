//! The choice for a key in each world that a change made which touches it.

ghost use Rattle.std.specs.Prelude.{◌≡◌, IfOk, MatchOption, List, None, Some};
ghost use Rattle.jl_calculus.specs.declared.history.Change.{Change as C};
ghost use Rattle.jl_calculus.specs.Legal.{IsKeyOf, MayStand};
ghost use Rattle.jl_reflect.specs.Chosen.{change_in, AreChosen};

use jl_calculus::history::{Change, Event};
use jl_choosing::prelude_changes;
use jl_methods::touches;
use jl_model::ty::Key;
use jl_program::choice::Choice;
use jl_program::prelude::FIRST_WORLD;
use jl_sig::Ready;
use std::alloc::{AllocError, Global};

/// What is chosen in a world.
#[derive(Clone, Copy)]
pub(crate) struct Chosen {
    pub world: u32,
    pub choice: Choice,
}

/// The change of the methods that an event makes.
fn change_of(event: &Event) -> Option<Change>
    ensures { result ≡ change_in event.now }
{
    match event {
        Event::Def { site, .. } => Some(Change::Def(*site)),
        Event::Del { place, .. } => Some(Change::Del(*place)),
        Event::Begin(_)
        | Event::Key(_)
        | Event::Fill { .. }
        | Event::Spawn { .. }
        | Event::Done { .. } => None,
    }
}

/// The choice for a key in the world in which a script begins, and in each that a later change made which touches the key. Each is asked
/// once, among the latest definition of each site. The cost is in the events, and for each change that touches the key in the
/// sites of its function.
pub(crate) fn choices(
    alloc: Global,
    ready: &Ready,
    events: &[Event],
    key: &Key,
) -> Result<Vec<Chosen>, AllocError>
    requires stand { MayStand ready.now events.now }
    requires key { IsKeyOf ready.now key.now }
    ensures { IfOk result (λ all. AreChosen ready.now events.now key.now all.items) }
{
    let mut changes = prelude_changes(alloc, ready)?;
    let mut all = Vec::new(alloc);
    all.push(Chosen {
        world: FIRST_WORLD,
        choice: changes.choose(alloc, key, FIRST_WORLD)?,
    })?;
    for event in events {
        let Some(change) = change_of(event) else {
            continue;
        };
        changes.push(change)?;
        if !touches(alloc, ready, change, key)? {
            continue;
        }
        let world = changes.all().len() as u32;
        let choice = changes.choose(alloc, key, world)?;
        all.push(Chosen { world, choice })?;
    }
    Ok(all)
}
