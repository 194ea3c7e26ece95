//! The steps of a trace as the items that they are over the events so far.

ghost use Rattle.std.specs.Prelude.{◌≡◌, IfOk, drop};
ghost use Rattle.jl_replay.specs.Told.{is_own, item_told, items_told, outcome_or_nothing, stretch};
ghost use Rattle.jl_calculus.specs.Past.{done_of};

use jl_calculus::history::{Outcome, TraceItem};
use jl_lead::past::Past;
use jl_model::shared::SharedNode;
use jl_program::value::Value;
use jl_report::Step;
use std::alloc::{AllocError, Global};

/// The outcome of a task that has ended; `nothing` where it has not.
fn outcome_of(alloc: Global, past: &Past<'_>, task: u32) -> Result<SharedNode<Outcome>, AllocError>
    ensures { IfOk result (λ outcome. outcome ≡ outcome_or_nothing (done_of task past.now.1)) }
{
    match past.outcome(task)? {
        Some(outcome) => Ok(outcome),
        None => SharedNode::new(alloc, Outcome::Value(Value::Nothing)),
    }
}

/// The item that a step is. A fetch has the outcome of the task that it fetches, which the text leaves out.
fn item_of(alloc: Global, past: &Past<'_>, step: &Step) -> Result<TraceItem, AllocError>
    ensures { IfOk result (λ item. item ≡ item_told past.now.1 step.now) }
{
    match step {
        Step::Look { world, at } => Ok(TraceItem::Look {
            world: *world,
            at: *at,
        }),
        Step::Def { site, at } => Ok(TraceItem::Def {
            site: *site,
            at: *at,
        }),
        Step::Spawn { child, at } => Ok(TraceItem::Spawn {
            child: *child,
            at: *at,
        }),
        Step::Fetch { task, at } => {
            let outcome = outcome_of(alloc, past, *task)?;
            Ok(TraceItem::Fetch {
                task: *task,
                outcome,
                at: *at,
            })
        }
        Step::WorldFull { at } => Ok(TraceItem::WorldFull { at: *at }),
        Step::TaskFull { at } => Ok(TraceItem::TaskFull { at: *at }),
        Step::Del { place, at } => Ok(TraceItem::Del {
            place: *place,
            at: *at,
        }),
        Step::Absent { place, at } => Ok(TraceItem::Absent {
            place: *place,
            at: *at,
        }),
    }
}

/// Whether a step is a definition, a deletion or a spawn.
fn is_own(step: &Step) -> bool
    ensures { result ≡ is_own step.now }
{
    match step {
        Step::Def { .. } | Step::Del { .. } | Step::Spawn { .. } => true,
        Step::Look { .. }
        | Step::Fetch { .. }
        | Step::WorldFull { .. }
        | Step::TaskFull { .. }
        | Step::Absent { .. } => false,
    }
}

/// The items of the steps from a place on, up to the next definition, deletion or spawn.
pub(crate) fn read_stretch(
    alloc: Global,
    past: &Past<'_>,
    steps: &[Step],
    from: usize,
) -> Result<Vec<TraceItem>, AllocError>
    ensures { IfOk result (λ items. items.items ≡ items_told past.now.1 (stretch (drop from steps.now))) }
{
    let mut items = Vec::new(alloc);
    for n in from..steps.len() {
        let step = &steps[n];
        if is_own(step) {
            return Ok(items);
        }
        let item = item_of(alloc, past, step)?;
        items.push(item)?;
    }
    Ok(items)
}
