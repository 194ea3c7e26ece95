//! A task that has not ended, led along the trace that the entries tell of it.

ghost use Rattle.std.specs.Prelude.{◌≡◌, ◌+◌, ◌<◌, IfOk, MatchOption, drop, length};
ghost use Rattle.jl_model.specs.declared.limits.TheConstants.{MOST_WORLDS, MOST_TASKS};
ghost use Rattle.jl_calculus.specs.Past.{tasks_of};
ghost use Rattle.jl_calculus.specs.ValidHistory.{IsValidOutcome};
ghost use Rattle.jl_calculus.specs.World.{world_of};
ghost use Rattle.jl_machine.specs.Steps.{fuel_of};
ghost use Rattle.jl_lead.specs.Coming.{IsNoRun, IsTheRun};
ghost use Rattle.jl_replay.specs.Told.{stretch};
ghost use Rattle.jl_replay.specs.Moves.{told_so_far, MayGoOn, FollowsDefinition, FollowsDeletion, FollowsSpawn};

use crate::steps::read_stretch;
use jl_calculus::history::Record;
use jl_host::HostOps;
use jl_lead::lead::{lead_to_definition, lead_to_deletion, lead_to_end, lead_to_spawn};
use jl_lead::led::Led;
use jl_machine::Machine;
use jl_report::Step;
use jl_sig::Ready;
use std::alloc::{AllocError, Global};

/// A task that has not ended: its machine, how many steps of its trace it has followed, how many events it has seen, and how often it
/// has looked.
#[derive(Drop)]
pub(crate) struct Running<'p> {
    pub(crate) machine: Machine<'p>,
    pub(crate) told: usize,
    pub(crate) seen: u32,
    pub(crate) looks: u64,
}

/// Leads a task up to a definition: whether its run comes to it. Where it does, the definition is made.
pub(crate) fn follow_definition<'p>(
    alloc: Global,
    ready: &'p Ready,
    ops: &HostOps,
    led: &mut Led<'p>,
    running: &mut Running<'p>,
    trace: &[Step],
    task: u32,
    site: u32,
) -> Result<bool, AllocError>
    requires program { led.old.past.0 ≡ ready.now }
    requires going { MayGoOn ready.now led.old.past.1 task trace.now running.old }
    requires next { running.old.told + length (stretch (drop running.old.told trace.now)) < length trace.now }
    requires room { world_of led.old.past.1 < MOST_WORLDS }
    ensures { IfOk result (λ came. FollowsDefinition ready.now led.old.past.1 task trace.now running.old site came led.new.past running.new) }
{
    let items = read_stretch(alloc, &led.past, trace, running.told)?;
    let count = items.len();
    led.turn_to(task, running.seen, running.looks, items);
    let came = lead_to_definition(ready, ops, &mut running.machine, led, site)?;
    if came {
        running.told += count + 1;
        running.seen = led.past.len();
        running.looks = led.looks;
    }
    Ok(came)
}

/// Leads a task up to the deletion at a place of the program: whether its run comes to it. Where it does, the deletion is made.
pub(crate) fn follow_deletion<'p>(
    alloc: Global,
    ready: &'p Ready,
    ops: &HostOps,
    led: &mut Led<'p>,
    running: &mut Running<'p>,
    trace: &[Step],
    task: u32,
    place: u32,
) -> Result<bool, AllocError>
    requires program { led.old.past.0 ≡ ready.now }
    requires going { MayGoOn ready.now led.old.past.1 task trace.now running.old }
    requires next { running.old.told + length (stretch (drop running.old.told trace.now)) < length trace.now }
    requires room { world_of led.old.past.1 < MOST_WORLDS }
    ensures { IfOk result (λ came. FollowsDeletion ready.now led.old.past.1 task trace.now running.old place came led.new.past running.new) }
{
    let items = read_stretch(alloc, &led.past, trace, running.told)?;
    let count = items.len();
    led.turn_to(task, running.seen, running.looks, items);
    let came = lead_to_deletion(ready, ops, &mut running.machine, led, place)?;
    if came {
        running.told += count + 1;
        running.seen = led.past.len();
        running.looks = led.looks;
    }
    Ok(came)
}

/// Leads a task up to a spawn at a place of the program: whether its run comes to it. Where it does, the next task is started.
pub(crate) fn follow_spawn<'p>(
    alloc: Global,
    ready: &'p Ready,
    ops: &HostOps,
    led: &mut Led<'p>,
    running: &mut Running<'p>,
    trace: &[Step],
    task: u32,
    place: u32,
) -> Result<bool, AllocError>
    requires program { led.old.past.0 ≡ ready.now }
    requires going { MayGoOn ready.now led.old.past.1 task trace.now running.old }
    requires next { running.old.told + length (stretch (drop running.old.told trace.now)) < length trace.now }
    requires room { tasks_of led.old.past.1 < MOST_TASKS }
    ensures { IfOk result (λ came. FollowsSpawn ready.now led.old.past.1 task trace.now running.old place came led.new.past running.new) }
{
    let items = read_stretch(alloc, &led.past, trace, running.told)?;
    let count = items.len();
    led.turn_to(task, running.seen, running.looks, items);
    let came = lead_to_spawn(ready, ops, &mut running.machine, led, place)?;
    if came {
        running.told += count + 1;
        running.seen = led.past.len();
        running.looks = led.looks;
    }
    Ok(came)
}

/// Leads a task to its end: what it did, where that is a run of the whole trace, and nothing where there is no such run.
pub(crate) fn follow_end<'p>(
    alloc: Global,
    ready: &'p Ready,
    ops: &HostOps,
    led: &mut Led<'p>,
    running: Running<'p>,
    trace: &[Step],
    task: u32,
) -> Result<Option<Record>, AllocError>
    requires program { led.old.past.0 ≡ ready.now }
    requires going { MayGoOn ready.now led.old.past.1 task trace.now running }
    ensures run { IfOk result (λ found. MatchOption found (IsNoRun ready.now led.old.past.1 task (fuel_of running.entry.machine) (told_so_far led.old.past.1 trace.now running.entry.told)) (IsTheRun ready.now led.old.past.1 task (fuel_of running.entry.machine) (told_so_far led.old.past.1 trace.now running.entry.told))) }
    ensures valid { IfOk result (λ found. MatchOption found (Unit {0}) (λ ended. IsValidOutcome ready.now ended.outcome)) }
    ensures kept { IfOk result (λ found. MatchOption found (Unit {0}) (λ ended. (led.new.past.0 ≡ ready.now) × (led.new.past.1 ≡ led.old.past.1))) }
{
    let Running {
        machine,
        told,
        seen,
        looks,
    } = running;
    match read_stretch(alloc, &led.past, trace, told) {
        Ok(items) => {
            led.turn_to(task, seen, looks, items);
            let found = lead_to_end(ready, ops, machine, led)?;
            Ok(found)
        }
        Err(error) => {
            drop(machine);
            Err(error)
        }
    }
}
