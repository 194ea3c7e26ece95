//! The history of a run whose cache of choices has room for few keys and rows.

ghost use Rattle.jl_model.specs.declared.limits.TheConstants.{MOST_THREADS, MOST_CACHE_KEYS, MOST_CACHE_ROWS};
ghost use Rattle.jl_queue.specs.Setups.{IsCount, IsSetup};

use crate::calls::all_operations;
use crate::holds;
use crate::programs::ready_of;
use jl_calculus::history::{Event, History};
use jl_model::ty::{Key, Ty};
use jl_queue::{OpenGate, Setup};
use jl_runner::run_tasks;
use jl_sig::Ready;
use std::alloc::{AllocError, Global};
use std::sync::Wait;
use std::thread::Threads;

/// An event, without the start of a task and without what is kept of an end. A key has its function and the type of its argument.
#[derive(Clone, Copy, PartialEq, Eq)]
enum Step {
    Begin(u64),
    Def(u32, u32),
    Del(u32, u32),
    Spawn(u32, u32),
    Key(u32, Option<u32>),
    Fill(u32, u32, u32),
    Done(u32),
}

/// The number of the type of a key's first argument.
fn argument(key: &Key) -> Option<u32> {
    match key.types.as_slice().first() {
        Some(Ty::Nominal(number, _)) => Some(*number),
        _ => None,
    }
}

fn step_of(event: &Event) -> Step {
    match event {
        Event::Begin(fuel) => Step::Begin(*fuel),
        Event::Def { task, site } => Step::Def(*task, *site),
        Event::Del { task, place } => Step::Del(*task, *place),
        Event::Spawn { task, child, .. } => Step::Spawn(*task, *child),
        Event::Key(key) => Step::Key(key.function, argument(key)),
        Event::Fill { key, site, first } => Step::Fill(*key, *site, *first),
        Event::Done { task, .. } => Step::Done(*task),
    }
}

/// Whether a history has these steps and no other.
fn has_steps(history: &History, steps: &[Step]) -> bool {
    let events = history.events.as_slice();
    for (place, event) in events.iter().enumerate() {
        if steps.get(place) != Some(&step_of(event)) {
            return false;
        }
    }
    events.len() == steps.len()
}

/// Whether the first task of a run wrote this text.
fn wrote(history: &History, text: &str) -> bool {
    for event in history.events.as_slice() {
        if let Event::Done { task: 0, ended } = event {
            return ended.output.as_slice() == text.as_bytes();
        }
    }
    false
}

/// The history of a run of a program.
fn run_program<R: Threads + Wait + Sync>(
    rt: &R,
    alloc: Global,
    ready: &Ready,
    setup: &Setup,
) -> Result<History, AllocError>
    requires { IsSetup setup.now }
{
    let ops = all_operations(alloc)?;
    run_tasks(rt, alloc, ready, setup, &OpenGate, &ops)
}

/// The history of a run of a script. A script that is no program has none.
fn history<R: Threads + Wait + Sync>(
    rt: &R,
    alloc: Global,
    source: &str,
    setup: &Setup,
) -> Result<History, AllocError>
    requires { IsSetup setup.now }
{
    let ready = ready_of(alloc, source)?;
    let history = run_program(rt, alloc, &ready, setup);
    drop(ready);
    history
}

/// Whether a run of a script writes `1`, `true` and `2`, and has this history.
fn has<R: Threads + Wait + Sync>(
    rt: &R,
    alloc: Global,
    source: &str,
    setup: &Setup,
    steps: &[Step],
) -> Result<bool, AllocError>
    requires { IsSetup setup.now }
{
    let history = history(rt, alloc, source, setup)?;
    let answer = has_steps(&history, steps) && wrote(&history, "1\ntrue\n2\n");
    drop(history);
    Ok(answer)
}

/// A setup with room for so many keys and rows.
fn room(threads: u32, keys: u32, rows: u32) -> Setup
    requires threads { IsCount MOST_THREADS threads }
    requires keys { IsCount MOST_CACHE_KEYS keys }
    requires rows { IsCount MOST_CACHE_ROWS rows }
    ensures { IsSetup result }
{
    Setup {
        threads,
        fuel: 1000,
        keys,
        rows,
    }
}

/// Two keys are asked for, the first of them twice.
const TWO_KEYS: &str = "f(x) = x\nprintln(f(1))\nprintln(f(true))\nprintln(f(2))\n";

/// With room for one key and one row.
static ONE_OF_EACH: [Step; 5] = [
    Step::Begin(1000),
    Step::Def(0, 14),
    Step::Key(12, Some(4)),
    Step::Fill(0, 14, 15),
    Step::Done(0),
];

#[test]
fn with_room_for_one_key_and_row_the_history_has_one_of_each(rt: HostRuntime) {
    assert!(rt; holds(has(&rt, rt.alloc(), TWO_KEYS, &room(1, 1, 1), &ONE_OF_EACH)));
}

/// With room for two keys and one row.
static ONE_ROW: [Step; 6] = [
    Step::Begin(1000),
    Step::Def(0, 14),
    Step::Key(12, Some(4)),
    Step::Fill(0, 14, 15),
    Step::Key(12, Some(5)),
    Step::Done(0),
];

#[test]
fn with_room_for_one_row_alone_the_second_key_has_none(rt: HostRuntime) {
    assert!(rt; holds(has(&rt, rt.alloc(), TWO_KEYS, &room(1, 2, 1), &ONE_ROW)));
}

/// With room for two keys and two rows.
static TWO_OF_EACH: [Step; 7] = [
    Step::Begin(1000),
    Step::Def(0, 14),
    Step::Key(12, Some(4)),
    Step::Fill(0, 14, 15),
    Step::Key(12, Some(5)),
    Step::Fill(1, 14, 15),
    Step::Done(0),
];

#[test]
fn with_room_for_two_keys_and_rows_the_history_has_both(rt: HostRuntime) {
    assert!(rt; holds(has(&rt, rt.alloc(), TWO_KEYS, &room(1, 2, 2), &TWO_OF_EACH)));
}

/// The task that is started asks for the first key and is fetched before another key is asked for.
const TASK: &str =
    "f(x) = x\nt = Threads.@spawn f(1)\nprintln(fetch(t))\nprintln(f(true))\nprintln(f(2))\n";

/// With room for one key and one row, and a task.
static ONE_OF_EACH_AND_A_TASK: [Step; 7] = [
    Step::Begin(1000),
    Step::Def(0, 14),
    Step::Spawn(0, 1),
    Step::Key(12, Some(4)),
    Step::Fill(0, 14, 15),
    Step::Done(1),
    Step::Done(0),
];

#[test]
fn a_task_shares_the_room_for_one_key_and_row(rt: HostRuntime) {
    assert!(rt;
        holds(has(
            &rt,
            rt.alloc(),
            TASK,
            &room(4, 1, 1),
            &ONE_OF_EACH_AND_A_TASK
        ))
    );
}
