//! Steps of a run, one after another, each with what is due.

ghost use Rattle.std.specs.Prelude.{◌≡◌};
ghost use Rattle.jl_calculus.specs.Legal.{IsKeyOf};
ghost use Rattle.jl_calculus.specs.ValidStart.{IsValidStart};
ghost use Rattle.store_tests.specs.Starts.{first_start};

use crate::asks::{ABSENT, FULL, Told, define, delete, is_running, judge, name, select, spawn};
use crate::keys::make_key;
use crate::programs::LATE;
use crate::searches::{find_site, resolve, resolve_none};
use crate::snapshot::{self, Snapshot};
use jl_book::{Book, Pass};
use jl_cache::Cache;
use jl_model::limits::{MOST_TASKS, MOST_WORLDS};
use jl_model::ty::Key;
use jl_program::prelude::{FIRST_WORLD, PLUS, PRELUDE_SITES};
use jl_sig::Ready;
use jl_world::Naming;
use std::alloc::{AllocError, Global};

/// The site of the function that is defined again and again.
const SITE: u32 = PRELUDE_SITES;
/// How many types the keys have that are named up to a limit.
const TYPES: u32 = 7;

/// A step, with what is due: `FULL` in place of a number is due where it is refused, since there are as many as there may be.
#[derive(Clone, Copy)]
pub(crate) enum Step {
    /// A definition of a site makes this world.
    Define(u32, u32),
    /// A deletion at a place makes this world; `ABSENT` in place of it is due where no method is found.
    Delete(u32, u32),
    /// The key gets this number.
    Name(u32),
    /// A search in a world finds this site.
    Find(u32, u32),
    /// A search in a world finds nothing; then this method is chosen, with a row of this number.
    Resolve(u32, u32, u32),
    /// A search in a world finds nothing; then no method is chosen.
    NoMethod(u32),
    /// A spawn starts the task of this number.
    Spawn(u32),
    /// This task has not ended.
    Running(u32),
    /// Another key gets no number, and its method is chosen without one.
    NoPlace,
    /// Definitions make all worlds from the one after this.
    Worlds(u32),
    /// Other keys get the numbers from 1 to the one before this.
    Keys(u32),
    /// So many rows are linked for the key, each in a world that a definition makes.
    Rows(u32),
    /// Spawns start all tasks from this number on.
    Tasks(u32),
}

impl Step {
    /// Whether the step leaves all as it was.
    fn leaves_all(&self) -> bool {
        match self {
            Step::Define(_, number) => *number == FULL,
            Step::Delete(_, number) => *number == FULL || *number == ABSENT,
            Step::Name(number) => *number == FULL,
            Step::Resolve(_, _, row) => *row == FULL,
            Step::Spawn(number) => *number == FULL,
            Step::Find(_, _) => true,
            Step::NoMethod(_) => true,
            Step::Running(_) => true,
            Step::NoPlace => true,
            Step::Worlds(_) => false,
            Step::Keys(_) => false,
            Step::Rows(_) => false,
            Step::Tasks(_) => false,
        }
    }
}

/// Whether definitions make all worlds from the one after this.
fn make_worlds<N: Naming>(
    alloc: Global,
    ready: &Ready,
    cache: &Cache<N>,
    book: &mut Book<N>,
    pass: &mut Pass<N>,
    from: u32,
) -> Told
    requires ready { ready.now ≡ N.about.program.value }
{
    for world in from..MOST_WORLDS as u32 {
        let made = define(alloc, ready, cache, book, pass, SITE, world + 1);
        if made != Told::Due {
            return made;
        }
    }
    Told::Due
}

/// Whether the key of a number, of the second function, has this number.
fn name_key<N: Naming>(
    alloc: Global,
    ready: &Ready,
    cache: &Cache<N>,
    book: &mut Book<N>,
    pass: &mut Pass<N>,
    number: u32,
) -> Told
    requires ready { ready.now ≡ N.about.program.value }
{
    let Ok(key) = make_key(alloc, ready, LATE, number, TYPES) else {
        return Told::Memory;
    };
    let named = name(alloc, ready, cache, book, pass, &key, number);
    drop(key);
    named
}

/// Whether such keys get the numbers from 1 to the one before this.
fn name_keys<N: Naming>(
    alloc: Global,
    ready: &Ready,
    cache: &Cache<N>,
    book: &mut Book<N>,
    pass: &mut Pass<N>,
    end: u32,
) -> Told
    requires ready { ready.now ≡ N.about.program.value }
{
    for number in 1..end {
        let named = name_key(alloc, ready, cache, book, pass, number);
        if named != Told::Due {
            return named;
        }
    }
    Told::Due
}

/// Whether the key of `+` for two integers gets no number, and its method is chosen without one.
fn refuse_key<N: Naming>(
    alloc: Global,
    ready: &Ready,
    cache: &Cache<N>,
    book: &mut Book<N>,
    pass: &mut Pass<N>,
) -> Told
    requires ready { ready.now ≡ N.about.program.value }
{
    let Ok(key) = make_key(alloc, ready, PLUS, 0, 2) else {
        return Told::Memory;
    };
    let chosen = select(alloc, ready, cache, book, pass, &key, 1);
    drop(key);
    chosen
}

/// Whether a definition makes a world, and the row of this number is linked for the key in it.
fn link_row<N: Naming>(
    alloc: Global,
    ready: &Ready,
    cache: &Cache<N>,
    book: &mut Book<N>,
    pass: &mut Pass<N>,
    key: &Key,
    row: u32,
) -> Told
    requires ready { ready.now ≡ N.about.program.value }
    requires key { IsKeyOf N.about.program.value key.now }
{
    let world = row.saturating_add(FIRST_WORLD + 1);
    let made = define(alloc, ready, cache, book, pass, SITE, world);
    if made != Told::Due {
        return made;
    }
    resolve(alloc, ready, cache, book, pass, key, world, world, row)
}

/// Whether so many rows are linked for the key, each in a world that a definition makes.
fn link_rows<N: Naming>(
    alloc: Global,
    ready: &Ready,
    cache: &Cache<N>,
    book: &mut Book<N>,
    pass: &mut Pass<N>,
    key: &Key,
    rows: u32,
) -> Told
    requires ready { ready.now ≡ N.about.program.value }
    requires key { IsKeyOf N.about.program.value key.now }
{
    for row in 0..rows {
        let linked = link_row(alloc, ready, cache, book, pass, key, row);
        if linked != Told::Due {
            return linked;
        }
    }
    Told::Due
}

/// Whether spawns start all tasks from this number on.
fn spawn_all<N: Naming>(
    alloc: Global,
    cache: &Cache<N>,
    book: &mut Book<N>,
    pass: &mut Pass<N>,
    from: u32,
) -> Told
    requires start { IsValidStart N.about.program.value first_start }
{
    for number in from..MOST_TASKS as u32 {
        let made = spawn(alloc, cache, book, pass, number);
        if made != Told::Due {
            return made;
        }
    }
    Told::Due
}

fn take_step<N: Naming>(
    alloc: Global,
    ready: &Ready,
    cache: &Cache<N>,
    book: &mut Book<N>,
    pass: &mut Pass<N>,
    key: &Key,
    step: Step,
) -> Told
    requires ready { ready.now ≡ N.about.program.value }
    requires key { IsKeyOf N.about.program.value key.now }
    requires start { IsValidStart N.about.program.value first_start }
{
    match step {
        Step::Define(site, world) => define(alloc, ready, cache, book, pass, site, world),
        Step::Delete(place, world) => delete(alloc, ready, cache, book, pass, place, world),
        Step::Name(number) => name(alloc, ready, cache, book, pass, key, number),
        Step::Find(world, site) => {
            judge(find_site(alloc, ready, cache, book, pass, key, world) == site)
        }
        Step::Resolve(world, method, row) => resolve(
            alloc, ready, cache, book, pass, key, world, method, row,
        ),
        Step::NoMethod(world) => resolve_none(alloc, ready, cache, book, pass, key, world),
        Step::Spawn(number) => spawn(alloc, cache, book, pass, number),
        Step::Running(task) => is_running(cache, book, pass, task),
        Step::NoPlace => refuse_key(alloc, ready, cache, book, pass),
        Step::Worlds(from) => make_worlds(alloc, ready, cache, book, pass, from),
        Step::Keys(end) => name_keys(alloc, ready, cache, book, pass, end),
        Step::Rows(rows) => link_rows(alloc, ready, cache, book, pass, key, rows),
        Step::Tasks(from) => spawn_all(alloc, cache, book, pass, from),
    }
}

/// Whether all is as it was.
fn is_left<N: Naming>(
    alloc: Global,
    ready: &Ready,
    cache: &Cache<N>,
    book: &mut Book<N>,
    pass: &mut Pass<N>,
    key: &Key,
    before: &Snapshot,
) -> Result<bool, AllocError>
    requires ready { ready.now ≡ N.about.program.value }
    requires key { IsKeyOf N.about.program.value key.now }
{
    let after = snapshot::take(alloc, ready, cache, book, pass, key)?;
    let is_same = before.same(&after);
    drop(after);
    Ok(is_same)
}

/// What comes of a step, and whether all is as before where that is due or memory was refused.
fn take_and_look<N: Naming>(
    alloc: Global,
    ready: &Ready,
    cache: &Cache<N>,
    book: &mut Book<N>,
    pass: &mut Pass<N>,
    key: &Key,
    step: Step,
) -> Result<Told, AllocError>
    requires ready { ready.now ≡ N.about.program.value }
    requires key { IsKeyOf N.about.program.value key.now }
    requires start { IsValidStart N.about.program.value first_start }
{
    let before = snapshot::take(alloc, ready, cache, book, pass, key)?;
    let told = take_step(alloc, ready, cache, book, pass, key, step);
    if told != Told::Memory && !step.leaves_all() {
        drop(before);
        return Ok(told);
    }
    let left = is_left(alloc, ready, cache, book, pass, key, &before);
    drop(before);
    if left? { Ok(told) } else { Ok(Told::Other) }
}

/// Whether a step is answered as is due. Where memory was refused and all is as before, it is taken once more.
fn is_due<N: Naming>(
    alloc: Global,
    ready: &Ready,
    cache: &Cache<N>,
    book: &mut Book<N>,
    pass: &mut Pass<N>,
    key: &Key,
    step: Step,
) -> Result<bool, AllocError>
    requires ready { ready.now ≡ N.about.program.value }
    requires key { IsKeyOf N.about.program.value key.now }
    requires start { IsValidStart N.about.program.value first_start }
{
    let mut told = take_and_look(alloc, ready, cache, book, pass, key, step)?;
    if told == Told::Memory {
        told = take_step(alloc, ready, cache, book, pass, key, step);
    }
    Ok(told == Told::Due)
}

/// Whether each of these steps is answered as is due.
pub(crate) fn are_due<N: Naming>(
    alloc: Global,
    ready: &Ready,
    cache: &Cache<N>,
    book: &mut Book<N>,
    pass: &mut Pass<N>,
    key: &Key,
    steps: &[Step],
) -> Result<bool, AllocError>
    requires ready { ready.now ≡ N.about.program.value }
    requires key { IsKeyOf N.about.program.value key.now }
    requires start { IsValidStart N.about.program.value first_start }
{
    for step in steps {
        if !is_due(alloc, ready, cache, book, pass, key, *step)? {
            return Ok(false);
        }
    }
    Ok(true)
}
