//! What stands next in a trace that leads a task.

ghost use Rattle.std.specs.Prelude.{◌≡◌, ◌+◌, ◌<◌, ◌^◌, IfOk, MatchOption, Some};
ghost use Rattle.jl_program.specs.declared.value.Value.TheVariants.{Nothing};
ghost use Rattle.jl_calculus.specs.declared.history.Outcome.TheVariants as O;
ghost use Rattle.jl_calculus.specs.declared.history.TraceItem.TheVariants.{Fetch};
ghost use Rattle.jl_lead.specs.Items.{next_item, look_of, world_full_of, task_full_of, absent_of, is_absence, IsNoFetch};

use jl_calculus::history::{Outcome, Record, Seen, TraceItem};
use jl_model::shared::{SharedList, SharedNode};
use jl_program::value::Value;
use std::alloc::{AllocError, Global};

/// The look that stands next. Nothing stands next for a task that goes on alone.
pub(crate) fn next_look(alone: bool, items: &[TraceItem], told: usize) -> Option<Seen>
    ensures exact { result ≡ look_of (next_item alone items.now told) }
    ensures room { MatchOption result (Unit {0}) (λ _. told + 1 < 2 ^ 64) }
{
    if alone {
        return None;
    }
    match items.get(told) {
        Some(TraceItem::Look { world, at }) => Some(Seen {
            world: *world,
            length: *at,
        }),
        _ => None,
    }
}

/// The place at which the world is full, where that stands next.
pub(crate) fn next_world_full(alone: bool, items: &[TraceItem], told: usize) -> Option<u32>
    ensures exact { result ≡ world_full_of (next_item alone items.now told) }
    ensures room { MatchOption result (Unit {0}) (λ _. told + 1 < 2 ^ 64) }
{
    if alone {
        return None;
    }
    match items.get(told) {
        Some(TraceItem::WorldFull { at }) => Some(*at),
        _ => None,
    }
}

/// The place at which there is no room for a task, where that stands next.
pub(crate) fn next_task_full(alone: bool, items: &[TraceItem], told: usize) -> Option<u32>
    ensures exact { result ≡ task_full_of (next_item alone items.now told) }
    ensures room { MatchOption result (Unit {0}) (λ _. told + 1 < 2 ^ 64) }
{
    if alone {
        return None;
    }
    match items.get(told) {
        Some(TraceItem::TaskFull { at }) => Some(*at),
        _ => None,
    }
}

/// The place at which there is nothing to delete at a place of the program, where that stands next.
pub(crate) fn next_absent(alone: bool, items: &[TraceItem], told: usize, of: u32) -> Option<u32>
    ensures exact { result ≡ absent_of of (next_item alone items.now told) }
    ensures room { MatchOption result (Unit {0}) (λ _. told + 1 < 2 ^ 64) }
{
    if alone {
        return None;
    }
    match items.get(told) {
        Some(TraceItem::Absent { place, at }) => {
            if *place != of {
                return None;
            }
            Some(*at)
        }
        _ => None,
    }
}

/// Whether it stands next that there is nothing to delete, at whichever place.
pub(crate) fn is_absence_next(alone: bool, items: &[TraceItem], told: usize) -> bool
    ensures { result ≡ is_absence (next_item alone items.now told) }
{
    if alone {
        return false;
    }
    match items.get(told) {
        Some(TraceItem::Absent { .. }) => true,
        _ => false,
    }
}

/// A fetch that stands next: the outcome of the task and the place.
#[derive(Drop)]
pub(crate) struct Fetched {
    pub(crate) outcome: SharedNode<Outcome>,
    pub(crate) at: u32,
}

/// A fetch of a task, where that stands next.
pub(crate) fn next_fetch(
    alone: bool,
    items: &[TraceItem],
    told: usize,
    of: u32,
) -> Result<Option<Fetched>, AllocError>
    ensures exact { IfOk result (λ found. MatchOption found (IsNoFetch (next_item alone items.now told) of) (λ f. next_item alone items.now told ≡ Some (Fetch of f.outcome f.at))) }
    ensures room { IfOk result (λ found. MatchOption found (Unit {0}) (λ _. told + 1 < 2 ^ 64)) }
{
    if alone {
        return Ok(None);
    }
    match items.get(told) {
        Some(TraceItem::Fetch { task, outcome, at }) => {
            if *task != of {
                return Ok(None);
            }
            let outcome = outcome.copy()?;
            Ok(Some(Fetched { outcome, at: *at }))
        }
        _ => Ok(None),
    }
}

/// What a task did that did nothing, and its outcome.
pub(crate) fn nothing_done(alloc: Global) -> Result<(Record, SharedNode<Outcome>), AllocError>
    ensures nothing { IfOk result (λ made. made.0.outcome ≡ O.Value Nothing) }
    ensures same { IfOk result (λ made. made.1 ≡ made.0.outcome) }
{
    let outcome = SharedNode::new(alloc, Outcome::Value(Value::Nothing))?;
    let kept = outcome.copy()?;
    let ended = Record {
        trace: SharedList::empty(),
        outcome: kept,
        output: SharedList::empty(),
        calls: 0,
    };
    Ok((ended, outcome))
}
