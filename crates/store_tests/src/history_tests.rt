//! Copies of faults, starts and histories, and when two are the same.

use crate::holds;
use crate::making::{one, push, text};
use jl_calculus::history::{Event, Events, History, Outcome, Record, TraceItem, TraceItems};
use jl_calculus::same::Same;
use jl_model::shared::SharedNode;
use jl_model::ty::{Key, Ty, Tys};
use jl_program::env::Env;
use jl_program::fault::Fault;
use jl_program::tree::Start;
use jl_program::value::Value;
use std::alloc::{AllocError, Global};

fn fault(alloc: Global, world: u32) -> Result<Fault, AllocError> {
    let types = one(alloc, Ty::Any)?;
    Ok(Fault::NoMethod(12, types, world))
}

fn start(alloc: Global, slot: i64) -> Result<Start, AllocError> {
    let env = push(Vec::new(alloc), Value::Int(slot))?;
    let env = push(env, Value::Bool(true))?;
    Ok(Start {
        spawn: 0,
        world: 15,
        env: Env::from_vec(alloc, env)?,
        bindings: Tys::empty(),
    })
}

/// What the task fetched.
fn fetched(alloc: Global) -> Result<SharedNode<Outcome>, AllocError> {
    let fault = fault(alloc, 14)?;
    SharedNode::new(alloc, Outcome::Error(fault))
}

/// A step of the task: a look, a spawn, and a fetch.
fn step(alloc: Global, place: u32) -> Result<TraceItem, AllocError> {
    match place {
        0 => Ok(TraceItem::Look { world: 14, at: 1 }),
        1 => Ok(TraceItem::Spawn { child: 1, at: 2 }),
        _ => {
            let outcome = fetched(alloc)?;
            Ok(TraceItem::Fetch {
                task: 1,
                outcome,
                at: 4,
            })
        }
    }
}

/// Its three steps.
fn trace(alloc: Global) -> Result<TraceItems, AllocError> {
    let mut trace = Vec::new(alloc);
    for place in 0..3u32 {
        let step = step(alloc, place)?;
        trace = push(trace, step)?;
    }
    TraceItems::from_vec(alloc, trace)
}

fn record(alloc: Global, calls: u64) -> Result<Record, AllocError> {
    let trace = trace(alloc)?;
    let output = text(alloc, "3\n")?;
    let outcome = SharedNode::new(alloc, Outcome::Value(Value::Int(3)))?;
    Ok(Record {
        trace,
        outcome,
        output,
        calls,
    })
}

/// An event of each kind.
fn event(alloc: Global, place: u32, slot: i64, calls: u64) -> Result<Event, AllocError> {
    match place {
        0 => Ok(Event::Begin(1000)),
        1 => Ok(Event::Key(Key {
            function: 12,
            types: Tys::empty(),
        })),
        2 => Ok(Event::Def { task: 0, site: 14 }),
        3 => Ok(Event::Fill {
            key: 0,
            site: 14,
            first: 15,
        }),
        4 => {
            let start = start(alloc, slot)?;
            Ok(Event::Spawn {
                task: 0,
                child: 1,
                start,
            })
        }
        _ => {
            let ended = record(alloc, calls)?;
            Ok(Event::Done { task: 0, ended })
        }
    }
}

/// These six events.
fn history(alloc: Global, slot: i64, calls: u64) -> Result<History, AllocError> {
    let mut events = Vec::new(alloc);
    for place in 0..6u32 {
        let event = event(alloc, place, slot, calls)?;
        events = push(events, event)?;
    }
    let events = Events::from_vec(alloc, events)?;
    Ok(History { events })
}

/// Whether what was made is the same as another one. It is let go by a call: a drop that is left to the compiler is unrolled into the
/// proof.
fn is_same<T: Same + Drop>(made: Result<T, AllocError>, other: &T) -> Result<bool, AllocError> {
    let made = made?;
    let answer = made.same(other);
    drop(made);
    Ok(answer)
}

fn events_are_copied(alloc: Global, events: &[Event]) -> Result<bool, AllocError> {
    for event in events {
        if !is_same(event.copy(), event)? {
            return Ok(false);
        }
    }
    Ok(true)
}

/// Whether a copy of a history, and of each of its events, is the same.
fn all_is_copied(alloc: Global, whole: &History) -> Result<bool, AllocError> {
    let are_same = events_are_copied(alloc, whole.events.as_slice())?;
    let is_same = is_same(whole.copy(), whole)?;
    Ok(are_same && is_same)
}

fn history_is_copied(alloc: Global) -> Result<bool, AllocError> {
    let whole = history(alloc, 7, 2)?;
    let answer = all_is_copied(alloc, &whole);
    drop(whole);
    answer
}

fn start_is_copied(alloc: Global) -> Result<bool, AllocError> {
    let start = start(alloc, 7)?;
    let answer = is_same(start.copy(), &start);
    drop(start);
    answer
}

fn fault_is_copied(alloc: Global) -> Result<bool, AllocError> {
    let fault = fault(alloc, 14)?;
    let answer = is_same(fault.copy(), &fault);
    drop(fault);
    answer
}

/// Whether the history is the same as one with these numbers.
fn history_is(alloc: Global, slot: i64, calls: u64) -> Result<bool, AllocError> {
    let whole = history(alloc, 7, 2)?;
    let answer = is_same(history(alloc, slot, calls), &whole);
    drop(whole);
    answer
}

/// Whether the fault is the same as another one, but for its world.
fn fault_is_that_of_another_world(alloc: Global) -> Result<bool, AllocError> {
    let fault = fault(alloc, 14)?;
    let answer = is_same(self::fault(alloc, 15), &fault);
    drop(fault);
    answer
}

fn copies_are_the_same(alloc: Global) -> Result<bool, AllocError> {
    Ok(history_is_copied(alloc)? && start_is_copied(alloc)? && fault_is_copied(alloc)?)
}

/// Whether a history is the same as one with the same numbers, and no other is.
fn others_are_told_apart(alloc: Global) -> Result<bool, AllocError> {
    Ok(
        history_is(alloc, 7, 2)?
            && !history_is(alloc, 8, 2)?
            && !history_is(alloc, 7, 3)?
            && !fault_is_that_of_another_world(alloc)?,
    )
}

#[test]
fn a_copy_of_a_history_is_the_same_and_another_is_not(rt: HostRuntime) {
    assert!(rt; holds(copies_are_the_same(rt.alloc())));
    assert!(rt; holds(others_are_told_apart(rt.alloc())));
}
