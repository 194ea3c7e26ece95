//! Whether the trace of a task is true of the events and in order, and has the task's own events.

ghost use Rattle.std.specs.Prelude.{◌≡◌, ◌≤◌, ◌↔◌, IsTrue, IfOk, MatchOption, Some, List, [], length, take};
ghost use Rattle.jl_calculus.specs.declared.history.TraceItem.{TraceItem};
ghost use Rattle.jl_calculus.specs.Legal.{AreTrueOf, first_place};
ghost use Rattle.jl_calculus.specs.Past.{DefinesAt, DeletesAt, SpawnsAt, EndedSo, IsAbsent, IsTrueOf, IsInOrder, done_of, own_events, own_items, past, place, tasks_of};
ghost use Rattle.jl_calculus.specs.World.{world_of};
ghost use Rattle.jl_core.specs.Asked.{is_own, is_by, item_of, IsNextOwn, FollowsEvent};

use crate::events::{done_of, tasks_of, world_of};
use crate::standing::is_absent;
use jl_calculus::history::{Event, Outcome, TraceItem};
use jl_calculus::same::Same;
use jl_model::limits::{MOST_TASKS, MOST_WORLDS};
use jl_sig::Ready;
use std::alloc::{AllocError, Global};

/// Whether the event at a place is this definition of a task.
fn is_def_at(events: &[Event], at: u32, by: u32, made: u32) -> bool
    ensures { IsTrue result ↔ DefinesAt events.now at by made }
{
    match events.get(at as usize) {
        Some(Event::Def { task, site }) => *task == by && *site == made,
        _ => false,
    }
}

/// Whether the event at a place is this deletion of a task.
fn is_del_at(events: &[Event], at: u32, by: u32, made: u32) -> bool
    ensures { IsTrue result ↔ DeletesAt events.now at by made }
{
    match events.get(at as usize) {
        Some(Event::Del { task, place }) => *task == by && *place == made,
        _ => false,
    }
}

/// Whether the event at a place is this spawn of a task.
fn is_spawn_at(events: &[Event], at: u32, by: u32, made: u32) -> bool
    ensures { IsTrue result ↔ SpawnsAt events.now at by made }
{
    match events.get(at as usize) {
        Some(Event::Spawn { task, child, .. }) => *task == by && *child == made,
        _ => false,
    }
}

/// Whether this is the newest world of the first so many events.
fn has_world(events: &[Event], at: u32, world: usize) -> bool
    ensures { IsTrue result ↔ ((at ≤ length events.now) × (world_of (take at events.now) ≡ world)) }
{
    if at as usize > events.len() {
        return false;
    }
    world_of(&events[..at as usize]) == world
}

/// Whether the first so many events have so many tasks.
fn has_tasks(events: &[Event], at: u32, count: usize) -> bool
    ensures { IsTrue result ↔ ((at ≤ length events.now) × (tasks_of (take at events.now) ≡ count)) }
{
    if at as usize > events.len() {
        return false;
    }
    tasks_of(&events[..at as usize]) == count
}

/// Whether a task has ended with this outcome.
fn has_ended_so(events: &[Event], of: u32, outcome: &Outcome) -> bool
    ensures { IsTrue result ↔ EndedSo (done_of of events.now) outcome.now }
{
    match done_of(events, of) {
        Some(ended) => ended.outcome.get().same(outcome),
        None => false,
    }
}

/// Whether a task has ended with this outcome among the first so many events.
fn has_outcome(events: &[Event], at: u32, of: u32, outcome: &Outcome) -> bool
    ensures { IsTrue result ↔ ((at ≤ length events.now) × EndedSo (done_of of (take at events.now)) outcome.now) }
{
    if at as usize > events.len() {
        return false;
    }
    has_ended_so(&events[..at as usize], of, outcome)
}

/// Whether there was nothing to delete at a place of the program after the first so many events.
fn was_absent(
    alloc: Global,
    ready: &Ready,
    events: &[Event],
    at: u32,
    place: u32,
) -> Result<bool, AllocError>
    ensures { IfOk result (λ yes. IsTrue yes ↔ ((at ≤ length events.now) × IsAbsent ready.now (take at events.now) place)) }
{
    if at as usize > events.len() {
        return Ok(false);
    }
    let absent = is_absent(alloc, ready, &events[..at as usize], place)?;
    Ok(absent)
}

/// Whether an item of a task's trace is true of the events.
fn is_true(
    alloc: Global,
    ready: &Ready,
    events: &[Event],
    by: u32,
    item: &TraceItem,
) -> Result<bool, AllocError>
    ensures { IfOk result (λ yes. IsTrue yes ↔ IsTrueOf ready.now events.now by item.now) }
{
    match item {
        TraceItem::Look { world, at } => Ok(has_world(events, *at, *world as usize)),
        TraceItem::Def { site, at } => Ok(is_def_at(events, *at, by, *site)),
        TraceItem::Spawn { child, at } => Ok(is_spawn_at(events, *at, by, *child)),
        TraceItem::Fetch { task, outcome, at } => {
            Ok(has_outcome(events, *at, *task, outcome.get()))
        }
        TraceItem::WorldFull { at } => Ok(has_world(events, *at, MOST_WORLDS)),
        TraceItem::TaskFull { at } => Ok(has_tasks(events, *at, MOST_TASKS)),
        TraceItem::Del { place, at } => Ok(is_del_at(events, *at, by, *place)),
        TraceItem::Absent { place, at } => {
            let absent = was_absent(alloc, ready, events, *at, *place)?;
            Ok(absent)
        }
    }
}

/// The place that an item tells.
fn place(item: &TraceItem) -> u32
    ensures { result ≡ place item.now }
{
    match item {
        TraceItem::Look { at, .. } => *at,
        TraceItem::Def { at, .. } => *at,
        TraceItem::Spawn { at, .. } => *at,
        TraceItem::Fetch { at, .. } => *at,
        TraceItem::WorldFull { at } => *at,
        TraceItem::TaskFull { at } => *at,
        TraceItem::Del { at, .. } => *at,
        TraceItem::Absent { at, .. } => *at,
    }
}

/// The least place of what may follow an item.
fn past(item: &TraceItem) -> usize
    ensures { result ≡ past item.now }
{
    match item {
        TraceItem::Look { at, .. } => *at as usize,
        TraceItem::Def { at, .. } => *at as usize + 1,
        TraceItem::Spawn { at, .. } => *at as usize + 1,
        TraceItem::Fetch { at, .. } => *at as usize,
        TraceItem::WorldFull { at } => *at as usize,
        TraceItem::TaskFull { at } => *at as usize,
        TraceItem::Del { at, .. } => *at as usize + 1,
        TraceItem::Absent { at, .. } => *at as usize,
    }
}

/// The least place of the first item of a task's trace.
fn first_place(events: &[Event], task: u32) -> usize
    ensures { result ≡ first_place task 0 events.now }
{
    for (i, event) in events.iter().enumerate() {
        if let Event::Spawn { child, .. } = event {
            if *child == task {
                return i + 1;
            }
        }
    }
    1
}

/// Whether the items of a task's trace are true of the events, and in order.
pub(crate) fn has_true_trace(
    alloc: Global,
    ready: &Ready,
    events: &[Event],
    task: u32,
    trace: &[TraceItem],
) -> Result<bool, AllocError>
    ensures { IfOk result (λ yes. IsTrue yes ↔ (AreTrueOf ready.now events.now task trace.now × IsInOrder (first_place task 0 events.now) trace.now (length events.now))) }
{
    let mut low = first_place(events, task);
    for item in trace {
        if (place(item) as usize) < low {
            return Ok(false);
        }
        let holds = is_true(alloc, ready, events, task, item)?;
        if !holds {
            return Ok(false);
        }
        low = past(item);
    }
    Ok(low <= events.len())
}

/// Whether an item is a definition, a deletion or a spawn.
fn is_own(item: &TraceItem) -> bool
    ensures { result ≡ is_own item.now }
{
    match item {
        TraceItem::Def { .. } => true,
        TraceItem::Del { .. } => true,
        TraceItem::Spawn { .. } => true,
        TraceItem::Look { .. } => false,
        TraceItem::Fetch { .. } => false,
        TraceItem::WorldFull { .. } => false,
        TraceItem::TaskFull { .. } => false,
        TraceItem::Absent { .. } => false,
    }
}

/// The first definition, deletion or spawn of a trace, and the items after it.
fn next_own(trace: &[TraceItem]) -> Option<(&TraceItem, &[TraceItem])>
    ensures { MatchOption result (own_items trace.now ≡ []) (λ next. IsNextOwn trace.now next.0.now next.1.now) }
{
    for (i, item) in trace.iter().enumerate() {
        if is_own(item) {
            return Some((item, &trace[i + 1..]));
        }
    }
    None
}

/// Whether an event is a definition, a deletion or a spawn by a task.
fn is_by(event: &Event, by: u32) -> bool
    ensures { result ≡ is_by by event.now }
{
    match event {
        Event::Def { task, .. } => *task == by,
        Event::Del { task, .. } => *task == by,
        Event::Spawn { task, .. } => *task == by,
        Event::Begin(_) => false,
        Event::Key(_) => false,
        Event::Fill { .. } => false,
        Event::Done { .. } => false,
    }
}

/// Whether an item is that of a definition, a deletion or a spawn at a place.
fn is_item_of(item: &TraceItem, event: &Event, place: usize) -> bool
    ensures { IsTrue result ↔ (item_of place event.now ≡ Some item.now) }
{
    match item {
        TraceItem::Def { site: made, at } => match event {
            Event::Def { site, .. } => *at as usize == place && *site == *made,
            _ => false,
        },
        TraceItem::Del { place: made, at } => match event {
            Event::Del { place: taken, .. } => *at as usize == place && *taken == *made,
            _ => false,
        },
        TraceItem::Spawn { child: made, at } => match event {
            Event::Spawn { child, .. } => *at as usize == place && *child == *made,
            _ => false,
        },
        _ => false,
    }
}

/// What follows a definition, a deletion or a spawn in the trace of its task, where it is the first there.
fn after_event<'a>(trace: &'a [TraceItem], event: &Event, place: usize) -> Option<&'a [TraceItem]>
    ensures { MatchOption result ((rest : List TraceItem) → FollowsEvent place event.now trace.now rest → ⊥) (λ rest. FollowsEvent place event.now trace.now rest.now) }
{
    let Some((item, rest)) = next_own(trace) else {
        return None;
    };
    if !is_item_of(item, event, place) {
        return None;
    }
    Some(rest)
}

/// Whether the definitions, deletions and spawns of a task are those of its trace, in order, each once.
pub(crate) fn has_own_events(events: &[Event], task: u32, trace: &[TraceItem]) -> bool
    ensures { IsTrue result ↔ (own_events task 0 events.now ≡ own_items trace.now) }
{
    let mut rest = trace;
    for (i, event) in events.iter().enumerate() {
        if !is_by(event, task) {
            continue;
        }
        let Some(behind) = after_event(rest, event, i) else {
            return false;
        };
        rest = behind;
    }
    next_own(rest).is_none()
}
