//! What a list of events tells. Each question walks the list once.

ghost use Rattle.std.specs.Prelude.{◌≡◌, ◌≤◌, ◌↔◌, IsTrue, length, slice_get, IfOk, MatchOption, None, Some};
ghost use Rattle.std.specs.List.{Contains};
ghost use Rattle.jl_calculus.specs.declared.history.Event.TheVariants as Ev;
ghost use Rattle.jl_calculus.specs.Past.{tasks_of, done_of};
ghost use Rattle.jl_calculus.specs.Ranges.{keys_of};
ghost use Rattle.jl_calculus.specs.Words.{is_worldly, is_fill_of, world_length, fill_length};
ghost use Rattle.jl_calculus.specs.World.{changes, world_of};

use jl_calculus::history::{Change, Event, Record};
use jl_calculus::same::Same;
use jl_model::ty::Key;
use jl_program::prelude::FIRST_WORLD;
use std::alloc::{AllocError, Global};

/// The definitions of the prelude's operations, which are made before a script begins.
const PRELUDE: [Change; 14] = [
    Change::Def(0),
    Change::Def(1),
    Change::Def(2),
    Change::Def(3),
    Change::Def(4),
    Change::Def(5),
    Change::Def(6),
    Change::Def(7),
    Change::Def(8),
    Change::Def(9),
    Change::Def(10),
    Change::Def(11),
    Change::Def(12),
    Change::Def(13),
];

/// Whether an event makes a world.
fn is_worldly(event: &Event) -> bool
    ensures { result ≡ is_worldly event.now }
{
    match event {
        Event::Begin(_) | Event::Def { .. } | Event::Del { .. } => true,
        Event::Key(_) | Event::Fill { .. } | Event::Spawn { .. } | Event::Done { .. } => false,
    }
}

/// Whether an event is a fill of the key of this number.
fn is_fill_of(number: u32, event: &Event) -> bool
    ensures { result ≡ is_fill_of number event.now }
{
    match event {
        Event::Fill { key, .. } => *key == number,
        Event::Begin(_)
        | Event::Key(_)
        | Event::Def { .. }
        | Event::Del { .. }
        | Event::Spawn { .. }
        | Event::Done { .. } => false,
    }
}

/// How long the events are just after what made the newest world.
pub(crate) fn world_length(events: &[Event]) -> usize
    ensures { result ≡ world_length events.now }
{
    let mut count = 0;
    for (i, event) in events.iter().enumerate() {
        if is_worldly(event) {
            count = i + 1;
        }
    }
    count
}

/// How long they are just after the last fill of a key, and 0 where it has none.
pub(crate) fn fill_length(number: u32, events: &[Event]) -> usize
    ensures { result ≡ fill_length number events.now }
{
    let mut count = 0;
    for (i, event) in events.iter().enumerate() {
        if is_fill_of(number, event) {
            count = i + 1;
        }
    }
    count
}

/// The newest world.
pub(crate) fn world_of(events: &[Event]) -> usize
    ensures { result ≡ world_of events.now }
{
    let mut world = FIRST_WORLD as usize;
    for event in events {
        match event {
            Event::Def { .. } => world += 1,
            Event::Del { .. } => world += 1,
            _ => {}
        }
    }
    world
}

/// How many tasks were started, the root among them.
pub(crate) fn tasks_of(events: &[Event]) -> usize
    ensures { result ≡ tasks_of events.now }
{
    let mut count = 1;
    for event in events {
        if let Event::Spawn { .. } = event {
            count += 1;
        }
    }
    count
}

/// How many keys there are.
pub(crate) fn count_keys(events: &[Event]) -> usize
    ensures { result ≡ length (keys_of events.now) }
{
    let mut count = 0;
    for event in events {
        if let Event::Key(_) = event {
            count += 1;
        }
    }
    count
}

/// Whether an event names this key.
fn is_key(event: &Event, sought: &Key) -> bool
    ensures { IsTrue result ↔ (event.now ≡ Ev.Key sought.now) }
{
    match event {
        Event::Key(key) => key.same(sought),
        _ => false,
    }
}

/// Whether a key was named.
pub(crate) fn has_key(events: &[Event], sought: &Key) -> bool
    ensures { IsTrue result ↔ Contains events.now (Ev.Key sought.now) }
{
    for event in events {
        if is_key(event, sought) {
            return true;
        }
    }
    false
}

/// The key of a number.
pub(crate) fn key_at(events: &[Event], number: u32) -> Option<&Key>
    ensures { MatchOption result (slice_get (keys_of events.now) number ≡ None) (λ key. slice_get (keys_of events.now) number ≡ Some key.now) }
{
    let mut left = number;
    for event in events {
        if let Event::Key(key) = event {
            if left == 0 {
                return Some(key);
            }
            left -= 1;
        }
    }
    None
}

/// What a task did, where it has ended.
pub(crate) fn done_of(events: &[Event], of: u32) -> Option<&Record>
    ensures { MatchOption result (done_of of events.now ≡ None) (λ ended. done_of of events.now ≡ Some ended.now) }
{
    for event in events {
        if let Event::Done { task, ended } = event {
            if *task == of {
                return Some(ended);
            }
        }
    }
    None
}

/// All changes, the definitions of the prelude first: the change that makes world 1 stands first.
pub(crate) fn changes(alloc: Global, events: &[Event]) -> Result<Vec<Change>, AllocError>
    ensures { IfOk result (λ made. made.items ≡ changes events.now) }
{
    let mut made = Vec::from_slice(alloc, &PRELUDE)?;
    for event in events {
        match event {
            Event::Def { site, .. } => made.push(Change::Def(*site))?,
            Event::Del { place, .. } => made.push(Change::Del(*place))?,
            _ => {}
        }
    }
    Ok(made)
}
