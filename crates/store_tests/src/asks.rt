//! What is asked of a book, and whether it answers what is due.

ghost use Rattle.std.specs.Prelude.{◌≡◌};
ghost use Rattle.jl_calculus.specs.Legal.{IsKeyOf};
ghost use Rattle.jl_calculus.specs.ValidStart.{IsValidStart};
ghost use Rattle.store_tests.specs.Starts.{first_start};

use jl_book::{Book, KeyFault, Pass};
use jl_cache::Cache;
use jl_calculus::history::{DefineFault, DeleteFault, FetchFault, SpawnFault};
use jl_model::ty::{Key, Tys};
use jl_program::choice::Choice;
use jl_program::env::Env;
use jl_program::prelude::{FIRST_WORLD, PRELUDE_SITES};
use jl_program::tree::Start;
use jl_sig::Ready;
use jl_world::Naming;
use std::alloc::Global;

/// Stands for a number that is refused, since there are as many as there may be.
pub(crate) const FULL: u32 = u32::MAX;
/// Stands for a deletion that finds no method.
pub(crate) const ABSENT: u32 = u32::MAX - 1;

/// Whether an answer is what is due, another one, or that memory was refused.
#[derive(Clone, Copy, PartialEq, Eq)]
pub(crate) enum Told {
    Due,
    Other,
    Memory,
}

pub(crate) fn judge(is_due: bool) -> Told {
    if is_due { Told::Due } else { Told::Other }
}

/// Whether a definition of a site makes this world. A site that the program does not have is another answer.
pub(crate) fn define<N: Naming>(
    alloc: Global,
    ready: &Ready,
    cache: &Cache<N>,
    book: &mut Book<N>,
    pass: &mut Pass<N>,
    site: u32,
    world: u32,
) -> Told
    requires ready { ready.now ≡ N.about.program.value }
{
    if site < PRELUDE_SITES || ready.program().sites.len() <= site as usize {
        return Told::Other;
    }
    match book.define(alloc, ready, cache, pass, site) {
        Ok(made) => judge(made == world),
        Err(DefineFault::WorldLimit) => judge(world == FULL),
        Err(DefineFault::Memory) => Told::Memory,
    }
}

/// Whether a deletion at a place makes this world. A place that the program does not have is another answer.
pub(crate) fn delete<N: Naming>(
    alloc: Global,
    ready: &Ready,
    cache: &Cache<N>,
    book: &mut Book<N>,
    pass: &mut Pass<N>,
    place: u32,
    world: u32,
) -> Told
    requires ready { ready.now ≡ N.about.program.value }
{
    if ready.program().deletes.len() <= place as usize {
        return Told::Other;
    }
    match book.delete(alloc, ready, cache, pass, place) {
        Ok(made) => judge(made == world),
        Err(DeleteFault::WorldLimit) => judge(world == FULL),
        Err(DeleteFault::NoSuchMethod) => judge(world == ABSENT),
        Err(DeleteFault::Memory) => Told::Memory,
    }
}

/// Whether a key has this number.
pub(crate) fn name<N: Naming>(
    alloc: Global,
    ready: &Ready,
    cache: &Cache<N>,
    book: &mut Book<N>,
    pass: &mut Pass<N>,
    key: &Key,
    number: u32,
) -> Told
    requires ready { ready.now ≡ N.about.program.value }
    requires key { IsKeyOf N.about.program.value key.now }
{
    match book.key(alloc, ready, cache, pass, key) {
        Ok(named) => judge(named == number),
        Err(KeyFault::KeysFull) => judge(number == FULL),
        Err(KeyFault::Memory) => Told::Memory,
    }
}

/// Whether a key gets no number, and this method is chosen for it without one.
pub(crate) fn select<N: Naming>(
    alloc: Global,
    ready: &Ready,
    cache: &Cache<N>,
    book: &mut Book<N>,
    pass: &mut Pass<N>,
    key: &Key,
    method: u32,
) -> Told
    requires ready { ready.now ≡ N.about.program.value }
    requires key { IsKeyOf N.about.program.value key.now }
{
    let world = pass.look(cache).world;
    if world < FIRST_WORLD {
        return Told::Other;
    }
    let Err(KeyFault::KeysFull) = book.key(alloc, ready, cache, pass, key) else {
        return Told::Other;
    };
    match book.select(alloc, ready, cache, pass, key, world) {
        Ok(choice) => judge(choice == Choice::Method(method)),
        Err(_) => Told::Memory,
    }
}

/// Where a task of the first spawn place starts.
pub(crate) fn make_start(alloc: Global) -> Start
    ensures { result ≡ first_start }
{
    Start {
        spawn: 0,
        env: Env::empty(),
        bindings: Tys::empty(),
        world: FIRST_WORLD,
    }
}

/// Whether a spawn starts the task of this number, which then never ends.
pub(crate) fn spawn<N: Naming>(
    alloc: Global,
    cache: &Cache<N>,
    book: &mut Book<N>,
    pass: &mut Pass<N>,
    number: u32,
) -> Told
    requires start { IsValidStart N.about.program.value first_start }
{
    let start = make_start(alloc);
    let made = match book.spawn(alloc, cache, pass, &start) {
        Ok((child, begun)) => {
            drop(begun);
            judge(child == number)
        }
        Err(SpawnFault::TaskLimit) => judge(number == FULL),
        Err(SpawnFault::Memory) => Told::Memory,
    };
    drop(start);
    made
}

/// Whether a task has not ended.
pub(crate) fn is_running<N: Naming>(
    cache: &Cache<N>,
    book: &mut Book<N>,
    pass: &mut Pass<N>,
    task: u32,
) -> Told {
    match book.fetch(cache, pass, task) {
        Err(FetchFault::NotYet) => Told::Due,
        Err(FetchFault::Memory) => Told::Memory,
        Ok(outcome) => {
            drop(outcome);
            Told::Other
        }
    }
}
