//! A task that is spawned, ends and is fetched, until the history is closed. The program is `Threads.@spawn nothing`.

ghost use Rattle.std.specs.Prelude.{◌≡◌, ◌++◌, ◌∷◌, [], IsTrue, IfOk, None, Some};
ghost use Rattle.jl_calculus.specs.declared.history.Event.TheVariants.{Done};
ghost use Rattle.jl_book.specs.Passes.{IsRunOver, task_in};
ghost use Rattle.jl_world.specs.Names.{table_of, about_of};
ghost use Rattle.jl_world.specs.Rule.{first_events};
ghost use Rattle.jl_world.specs.Views.{begun, met};
ghost use Rattle.store_tests.specs.Child.{IsChild, child_end, half_done, root_end, root_view, spawned};
ghost use Rattle.store_tests.specs.Starts.{first_start};

use crate::asks::make_start;
use crate::making::{pair, push};
use crate::programs::{FUEL, ready_child};
use crate::snapshot::are_same;
use jl_book::{Book, Pass};
use jl_cache::Cache;
use jl_calculus::history::{Event, FetchFault, History, Outcome, Record, TraceItem, TraceItems};
use jl_model::shared::SharedNode;
use jl_model::ty::Bytes;
use jl_program::prelude::FIRST_WORLD;
use jl_program::tree::Start;
use jl_program::value::Value;
use jl_sig::Ready;
use jl_world::{Blank, Naming};
use std::alloc::{AllocError, Global};
use std::marker::Brand;

/// What the task did: nothing.
fn end_of_child(alloc: Global) -> Result<Record, AllocError>
    ensures { IfOk result (λ ended. ended ≡ child_end) }
{
    let outcome = SharedNode::new(alloc, Outcome::Value(Value::Nothing))?;
    Ok(Record {
        trace: TraceItems::empty(),
        outcome,
        output: Bytes::empty(),
        calls: 0,
    })
}

/// What the root did: it looked, and spawned the task, which is its value.
fn end_of_root(alloc: Global) -> Result<Record, AllocError>
    ensures { IfOk result (λ ended. ended ≡ root_end) }
{
    let look = TraceItem::Look {
        world: FIRST_WORLD,
        at: 1,
    };
    let trace = pair(alloc, look, TraceItem::Spawn { child: 1, at: 1 })?;
    let outcome = SharedNode::new(alloc, Outcome::Value(Value::Task(1)))?;
    Ok(Record {
        trace,
        outcome,
        output: Bytes::empty(),
        calls: 0,
    })
}

/// What a fetch says: that the task runs, that it ended with `nothing`, or something else.
#[derive(Clone, Copy, PartialEq, Eq)]
enum Fetched {
    Running,
    Nothing,
    Other,
}

fn is_nothing(outcome: &Outcome) -> bool {
    match outcome {
        Outcome::Value(value) => match value {
            Value::Nothing => true,
            _ => false,
        },
        Outcome::Error(_) => false,
    }
}

/// What the root learns of the task.
fn fetch_child<N: Naming>(book: &mut Book<N>, cache: &Cache<N>, root: &mut Pass<N>) -> Fetched
    ensures book { book.new ≡ book.old }
    ensures root { root.new ≡ met book.old root.old }
{
    match book.fetch(cache, root, 1) {
        Err(FetchFault::NotYet) => Fetched::Running,
        Err(FetchFault::Memory) => Fetched::Other,
        Ok(outcome) => {
            let gives_nothing = is_nothing(outcome.get());
            drop(outcome);
            if gives_nothing {
                Fetched::Nothing
            } else {
                Fetched::Other
            }
        }
    }
}

/// The pass of the task, which the root spawned after it looked.
fn spawn_child<N: Naming>(
    alloc: Global,
    cache: &Cache<N>,
    book: &mut Book<N>,
    root: &mut Pass<N>,
    start: &Start,
) -> Result<Pass<N>, AllocError>
    requires child { IsChild N.about.program.value }
    requires book { book.old ≡ first_events N.about }
    requires root { root.old ≡ begun 0 None (first_events N.about) }
    requires start { start.now ≡ first_start }
    ensures book { IfOk result (λ child. book.new ≡ spawned N.about.fuel) }
    ensures child { IfOk result (λ child. child ≡ begun 1 (Some first_start) (spawned N.about.fuel)) }
    ensures root { IfOk result (λ child. root.new ≡ root_view N.about.fuel (spawned N.about.fuel)) }
{
    root.look(cache);
    let Ok((_, child)) = book.spawn(alloc, cache, root, start) else {
        return Err(AllocError);
    };
    Ok(child)
}

/// Whether a task ends, which did what is recorded.
fn end<N: Naming>(cache: &Cache<N>, book: &mut Book<N>, pass: Pass<N>, ended: Record) -> bool
    requires { IsRunOver N.about pass ended }
    ensures { IsTrue result → book.new ≡ book.old ++ Done (task_in pass) ended ∷ [] }
{
    match book.done(cache, pass, ended) {
        Ok(()) => true,
        Err(back) => {
            drop(back);
            false
        }
    }
}

/// Whether the task ends.
fn end_child<N: Naming>(alloc: Global, cache: &Cache<N>, book: &mut Book<N>, child: Pass<N>) -> bool
    requires program { IsChild N.about.program.value }
    requires book { book.old ≡ spawned N.about.fuel }
    requires child { child ≡ begun 1 (Some first_start) (spawned N.about.fuel) }
    ensures { IsTrue result → book.new ≡ half_done N.about.fuel }
{
    match end_of_child(alloc) {
        Ok(ended) => end(cache, book, child, ended),
        Err(_) => {
            drop(child);
            false
        }
    }
}

/// Whether the root ends.
fn end_root<N: Naming>(alloc: Global, cache: &Cache<N>, book: &mut Book<N>, root: Pass<N>) -> bool
    requires program { IsChild N.about.program.value }
    requires root { root ≡ root_view N.about.fuel (half_done N.about.fuel) }
{
    match end_of_root(alloc) {
        Ok(ended) => end(cache, book, root, ended),
        Err(_) => {
            drop(root);
            false
        }
    }
}

/// Whether the task ran while two had not ended, and had ended while one had not.
fn is_told(before: Fetched, running: u32, after: Fetched, left: u32) -> bool {
    before == Fetched::Running && running == 2 && after == Fetched::Nothing && left == 1
}

/// Whether the root spawns the task, and fetches it before and after its end as is due.
fn run_child<N: Naming>(
    alloc: Global,
    cache: &Cache<N>,
    book: &mut Book<N>,
    root: &mut Pass<N>,
    start: &Start,
) -> bool
    requires child { IsChild N.about.program.value }
    requires book { book.old ≡ first_events N.about }
    requires root { root.old ≡ begun 0 None (first_events N.about) }
    requires start { start.now ≡ first_start }
    ensures { IsTrue result → root.new ≡ root_view N.about.fuel (half_done N.about.fuel) }
{
    let Ok(child) = spawn_child(alloc, cache, book, root, start) else {
        return false;
    };
    let before = fetch_child(book, cache, root);
    let running = book.unfinished();
    let ended = end_child(alloc, cache, book, child);
    if !ended {
        return false;
    }
    let after = fetch_child(book, cache, root);
    is_told(before, running, after, book.unfinished())
}

/// Whether the root does so, and ends.
fn run_root<N: Naming>(alloc: Global, cache: &Cache<N>, book: &mut Book<N>, root: Pass<N>) -> bool
    requires child { IsChild N.about.program.value }
    requires book { book.old ≡ first_events N.about }
    requires root { root ≡ begun 0 None (first_events N.about) }
{
    let mut root = root;
    let start = make_start(alloc);
    let told = run_child(alloc, cache, book, &mut root, &start);
    drop(start);
    if !told {
        drop(root);
        return false;
    }
    end_root(alloc, cache, book, root)
}

/// The history of that run. There is none where the book answers otherwise.
fn run_both<N: Naming>(alloc: Global, ready: &Ready, blank: Blank) -> Result<History, AllocError>
    requires name { (table_of blank ≡ N.table) × (about_of blank ≡ N.about) }
    requires program { (about_of blank).program.value ≡ ready.now }
    requires child { IsChild ready.now }
{
    let (mut book, cache, root) = Book::<N>::open(alloc, ready, blank)?;
    let is_told = run_root(alloc, &cache, &mut book, root);
    drop(cache);
    if !is_told || book.unfinished() != 0 {
        drop(book);
        return Err(AllocError);
    }
    book.close(alloc)
}

/// The history of a run over new words.
fn run_anew(alloc: Global, ready: &Ready) -> Result<History, AllocError>
    requires { IsChild ready.now }
{
    let blank = Blank::make(alloc, ready.program(), FUEL, 1, 1)?;
    run_both::<Brand>(alloc, ready, blank)
}

/// The history of the script.
fn run_script(alloc: Global) -> Result<History, AllocError> {
    let ready = ready_child(alloc)?;
    let history = run_anew(alloc, &ready);
    drop(ready);
    history
}

/// An event of that run.
fn due_event(alloc: Global, place: u32) -> Result<Event, AllocError> {
    match place {
        0 => Ok(Event::Begin(FUEL)),
        1 => Ok(Event::Spawn {
            task: 0,
            child: 1,
            start: make_start(alloc),
        }),
        2 => {
            let ended = end_of_child(alloc)?;
            Ok(Event::Done { task: 1, ended })
        }
        _ => {
            let ended = end_of_root(alloc)?;
            Ok(Event::Done { task: 0, ended })
        }
    }
}

/// Its four events.
fn due_events(alloc: Global) -> Result<Vec<Event>, AllocError> {
    let mut events = Vec::new(alloc);
    for place in 0..4u32 {
        let event = due_event(alloc, place)?;
        events = push(events, event)?;
    }
    Ok(events)
}

/// Whether these are the events that are due.
fn are_due(alloc: Global, events: &[Event]) -> Result<bool, AllocError> {
    let due = due_events(alloc)?;
    Ok(are_same(events, due.as_slice()))
}

/// Whether the history of the script has the events that are due.
pub(crate) fn both_end(alloc: Global) -> Result<bool, AllocError> {
    let history = run_script(alloc)?;
    let told = are_due(alloc, history.events.as_slice());
    drop(history);
    told
}
