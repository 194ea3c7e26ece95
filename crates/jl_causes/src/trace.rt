//! Whether the trace of a task is true of the events, and has the task's own events.

ghost use Rattle.std.specs.Prelude.{◌≡◌, ◌≤◌, ◌↔◌, ℕ, List, IsTrue, IfOk, length, take, slice_get, Some};
ghost use Rattle.jl_calculus.specs.declared.history.Event.{Event};
ghost use Rattle.jl_calculus.specs.Legal.{HasTrueTrace, HasOwnEvents};
ghost use Rattle.jl_calculus.specs.Past.{IsAbsent, IsTrueOf, place, past};
ghost use Rattle.jl_causes.specs.Sketch.{item_of, record_of, AllTell};
ghost use Rattle.jl_causes.specs.State.{IsJudgeOf};
ghost use Rattle.jl_causes.specs.Tables.{AreTasks, IsDefAt, IsDelAt, IsSpawnAt, is_own};
ghost use Rattle.jl_report.specs.declared.entry.Entry.{Entry};

use crate::judge::Judge;
use crate::tasks::Tasks;
use jl_model::limits::{MOST_TASKS, MOST_WORLDS};
use jl_report::{Entry, Step};
use jl_sig::Ready;
use std::alloc::{AllocError, Global};

/// Whether the entry at a place is this definition.
fn is_def_at(entries: &[Entry], at: u32, by: u32, made: u32) -> bool
    ensures { IsTrue result ↔ IsDefAt entries.now at by made }
{
    match entries.get(at as usize) {
        Some(Entry::Def { task, site }) => *task == by && *site == made,
        _ => false,
    }
}

/// Whether the entry at a place is this deletion.
fn is_del_at(entries: &[Entry], at: u32, by: u32, made: u32) -> bool
    ensures { IsTrue result ↔ IsDelAt entries.now at by made }
{
    match entries.get(at as usize) {
        Some(Entry::Del { task, place }) => *task == by && *place == made,
        _ => false,
    }
}

/// Whether the entry at a place is this spawn.
fn is_spawn_at(entries: &[Entry], at: u32, by: u32, made: u32) -> bool
    ensures { IsTrue result ↔ IsSpawnAt entries.now at by made }
{
    match entries.get(at as usize) {
        Some(Entry::Spawn { task, child, .. }) => *task == by && *child == made,
        _ => false,
    }
}

/// Whether so many events are there, there is a world after them, and no method of a deletion place stands in their newest.
fn is_absent(
    alloc: Global,
    ready: &Ready,
    judge: &Judge,
    place: u32,
    at: u32,
) -> Result<bool, AllocError>
    ensures { IfOk result (λ yes. (all : List Entry) (es : List Event) → IsJudgeOf ready.now all es judge.now → IsTrue yes ↔ ((at ≤ length es) × IsAbsent ready.now (take at es) place)) }
{
    let count = ready.program().deletes.len();
    if place as usize >= count {
        return Ok(false);
    }
    let Some(world) = judge.places.world_at(at) else {
        return Ok(false);
    };
    if world as usize >= MOST_WORLDS {
        return Ok(false);
    }
    let is_there = judge.rows.has_method_in(alloc, ready, place, world)?;
    Ok(!is_there)
}

/// Whether a step of a task is true of the events that the first entries tell.
fn is_true(
    alloc: Global,
    ready: &Ready,
    judge: &Judge,
    entries: &[Entry],
    task: u32,
    step: &Step,
) -> Result<bool, AllocError>
    requires { (es : List Event) × IsJudgeOf ready.now entries.now es judge.now }
    ensures { IfOk result (λ yes. (es : List Event) → IsJudgeOf ready.now entries.now es judge.now → AllTell ready.now (take (length es) entries.now) es → IsTrue yes ↔ IsTrueOf ready.now es task (item_of step.now)) }
{
    let places = &judge.places;
    let count = places.len();
    match step {
        Step::Look { world, at } => Ok(places.has_world(*world, *at)),
        Step::Def { site, at } => {
            Ok((*at as usize) < count && is_def_at(entries, *at, task, *site))
        }
        Step::Spawn { child, at } => {
            Ok((*at as usize) < count && is_spawn_at(entries, *at, task, *child))
        }
        Step::Fetch { task, at } => {
            Ok((*at as usize) <= count && judge.tasks.has_ended(*task, *at))
        }
        Step::WorldFull { at } => Ok(places.has_world(MOST_WORLDS as u32, *at)),
        Step::TaskFull { at } => Ok(places.has_tasks(MOST_TASKS as u32, *at)),
        Step::Del { place, at } => {
            Ok((*at as usize) < count && is_del_at(entries, *at, task, *place))
        }
        Step::Absent { place, at } => {
            let is_absent = is_absent(alloc, ready, judge, *place, *at)?;
            Ok(is_absent)
        }
    }
}

/// The place that a step tells.
fn place(step: &Step) -> u32
    ensures { result ≡ place (item_of step.now) }
{
    match step {
        Step::Look { at, .. } => *at,
        Step::Def { at, .. } => *at,
        Step::Spawn { at, .. } => *at,
        Step::Fetch { at, .. } => *at,
        Step::WorldFull { at } => *at,
        Step::TaskFull { at } => *at,
        Step::Del { at, .. } => *at,
        Step::Absent { at, .. } => *at,
    }
}

/// The least place of what may follow a step.
fn past(step: &Step) -> usize
    ensures { result ≡ past (item_of step.now) }
{
    match step {
        Step::Look { at, .. } => *at as usize,
        Step::Def { at, .. } => *at as usize + 1,
        Step::Spawn { at, .. } => *at as usize + 1,
        Step::Fetch { at, .. } => *at as usize,
        Step::WorldFull { at } => *at as usize,
        Step::TaskFull { at } => *at as usize,
        Step::Del { at, .. } => *at as usize + 1,
        Step::Absent { at, .. } => *at as usize,
    }
}

/// Whether the steps of a task are true of the events that the first entries tell, and in order.
pub(crate) fn has_true_trace(
    alloc: Global,
    ready: &Ready,
    judge: &Judge,
    entries: &[Entry],
    task: u32,
    trace: &[Step],
) -> Result<bool, AllocError>
    requires { (es : List Event) × IsJudgeOf ready.now entries.now es judge.now }
    ensures { IfOk result (λ yes. (es : List Event) (calls : ℕ) (output : List ℕ) → IsJudgeOf ready.now entries.now es judge.now → AllTell ready.now (take (length es) entries.now) es → IsTrue yes ↔ HasTrueTrace ready.now es task (record_of calls trace.now output)) }
{
    let mut low = judge.tasks.first(task);
    for step in trace {
        if (place(step) as usize) < low {
            return Ok(false);
        }
        if !is_true(alloc, ready, judge, entries, task, step)? {
            return Ok(false);
        }
        low = past(step);
    }
    let count = judge.places.len();
    Ok(low <= count)
}

/// Whether a step is a definition, a deletion or a spawn.
fn is_own(step: &Step) -> bool
    ensures { result ≡ is_own (item_of step.now) }
{
    match step {
        Step::Def { .. } => true,
        Step::Spawn { .. } => true,
        Step::Look { .. } => false,
        Step::Fetch { .. } => false,
        Step::WorldFull { .. } => false,
        Step::TaskFull { .. } => false,
        Step::Del { .. } => true,
        Step::Absent { .. } => false,
    }
}

/// Whether the definitions, deletions and spawns of a trace are those of the task, in order, each once.
pub(crate) fn has_own_events(tasks: &Tasks, task: u32, trace: &[Step]) -> bool
    ensures { (es : List Event) (calls : ℕ) (output : List ℕ) → AreTasks es tasks.now → IsTrue result ↔ HasOwnEvents es task (record_of calls trace.now output) }
{
    let own = tasks.own(task);
    let mut next = 0;
    for step in trace {
        if !is_own(step) {
            continue;
        }
        if next >= own.len() || own[next] != *step {
            return false;
        }
        next += 1;
    }
    next == own.len()
}
