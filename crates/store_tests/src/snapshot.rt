//! All that can be asked of a book and of the words of its run, to be compared before and after a refused call.

ghost use Rattle.std.specs.Prelude.{◌≡◌};
ghost use Rattle.jl_calculus.specs.Legal.{IsKeyOf};

use crate::making::push;
use crate::searches::find_site;
use jl_book::{Book, Pass};
use jl_cache::Cache;
use jl_calculus::history::Event;
use jl_calculus::same::Same;
use jl_model::limits::MOST_WORLDS;
use jl_model::ty::Key;
use jl_program::prelude::FIRST_WORLD;
use jl_sig::Ready;
use jl_world::Naming;
use std::alloc::{AllocError, Global};

/// The events; and in numbers the newest world and how many events there are, by the words, how many tasks have not ended, the site of
/// each definition, by the index, and the site that is found for a key in each world, by its head and its rows.
pub(crate) struct Snapshot {
    events: Vec<Event>,
    numbers: Vec<u32>,
}

impl Drop for Snapshot {
    fn drop(self) {
        let Snapshot { events, numbers } = self;
        drop(events);
        drop(numbers);
    }
}

/// Equal events.
fn copy_events(alloc: Global, events: &[Event]) -> Result<Vec<Event>, AllocError> {
    let mut copies = Vec::new(alloc);
    for event in events {
        let copy = event.copy()?;
        copies = push(copies, copy)?;
    }
    Ok(copies)
}

/// Whether two lists have the same events.
pub(crate) fn are_same(some: &[Event], others: &[Event]) -> bool {
    if some.len() != others.len() {
        return false;
    }
    for (i, event) in some.iter().enumerate() {
        if !event.same(&others[i]) {
            return false;
        }
    }
    true
}

/// Whether a key has a number.
fn has_key(events: &[Event], key: &Key) -> bool {
    for event in events {
        if let Event::Key(other) = event {
            if other.same(key) {
                return true;
            }
        }
    }
    false
}

/// The sites of the prelude's definitions, as the index has them.
fn push_prelude<N: Naming>(numbers: &mut Vec<u32>, book: &Book<N>) -> Result<(), AllocError> {
    for world in 0..FIRST_WORLD {
        numbers.push(book.site(world + 1))?;
    }
    Ok(())
}

/// The site of each definition of the run, as the index has it, and the place of each deletion.
fn push_changes<N: Naming>(
    numbers: &mut Vec<u32>,
    book: &Book<N>,
    events: &[Event],
) -> Result<(), AllocError>
    requires { events.now ≡ book.now }
{
    let mut world = FIRST_WORLD;
    for event in events {
        if world == MOST_WORLDS as u32 {
            return Ok(());
        }
        if let Event::Def { .. } = event {
            world += 1;
            numbers.push(book.site(world))?;
        }
        if let Event::Del { place, .. } = event {
            world += 1;
            numbers.push(*place)?;
        }
    }
    Ok(())
}

/// What is found for a key in each world.
fn push_found<N: Naming>(
    alloc: Global,
    ready: &Ready,
    cache: &Cache<N>,
    book: &mut Book<N>,
    pass: &mut Pass<N>,
    key: &Key,
    numbers: &mut Vec<u32>,
) -> Result<(), AllocError>
    requires ready { ready.now ≡ N.about.program.value }
    requires key { IsKeyOf N.about.program.value key.now }
{
    let end = pass.look(cache).world.saturating_add(1);
    for world in FIRST_WORLD..end {
        let site = find_site(alloc, ready, cache, book, pass, key, world);
        numbers.push(site)?;
    }
    Ok(())
}

/// All that is asked in numbers. A key is searched for only where it has a number.
fn ask_numbers<N: Naming>(
    alloc: Global,
    ready: &Ready,
    cache: &Cache<N>,
    book: &mut Book<N>,
    pass: &mut Pass<N>,
    key: &Key,
) -> Result<Vec<u32>, AllocError>
    requires ready { ready.now ≡ N.about.program.value }
    requires key { IsKeyOf N.about.program.value key.now }
{
    let seen = pass.look(cache);
    let mut numbers = Vec::new(alloc);
    numbers.push(seen.world)?;
    numbers.push(seen.length)?;
    numbers.push(book.unfinished())?;
    push_prelude(&mut numbers, book)?;
    push_changes(&mut numbers, book, book.events())?;
    if has_key(book.events(), key) {
        push_found(alloc, ready, cache, book, pass, key, &mut numbers)?;
    }
    Ok(numbers)
}

/// All that can be asked.
pub(crate) fn take<N: Naming>(
    alloc: Global,
    ready: &Ready,
    cache: &Cache<N>,
    book: &mut Book<N>,
    pass: &mut Pass<N>,
    key: &Key,
) -> Result<Snapshot, AllocError>
    requires ready { ready.now ≡ N.about.program.value }
    requires key { IsKeyOf N.about.program.value key.now }
{
    let numbers = ask_numbers(alloc, ready, cache, book, pass, key)?;
    let events = copy_events(alloc, book.events())?;
    Ok(Snapshot { events, numbers })
}

impl Snapshot {
    /// Whether all is as it was.
    pub(crate) fn same(&self, other: &Snapshot) -> bool {
        self.numbers.as_slice() == other.numbers.as_slice()
            && are_same(self.events.as_slice(), other.events.as_slice())
    }
}
