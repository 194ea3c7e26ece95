//! A task is led as far as an event asks.

ghost use Rattle.std.specs.Prelude.{◌≡◌, ◌<◌, ◌↔◌, IfOk, IsTrue, MatchOption, false, slice_get};
ghost use Rattle.jl_model.specs.declared.limits.TheConstants.{MOST_WORLDS, MOST_TASKS};
ghost use Rattle.jl_calculus.specs.Past.{tasks_of};
ghost use Rattle.jl_calculus.specs.ValidHistory.{IsValidOutcome};
ghost use Rattle.jl_calculus.specs.World.{world_of};
ghost use Rattle.jl_machine.specs.Steps.{MachineFits, fuel_of, IsLost};
ghost use Rattle.jl_lead.specs.Led.{knows_of};
ghost use Rattle.jl_lead.specs.Coming.{HasCome, HasDefined, HasDeleted, HasSpawned, IsDefAt, IsDelAt, IsNoRun, IsSpawnAt, IsTheRun, TellsDefinition, TellsDeletion, TellsSpawn, whole_trace};

use crate::led::Led;
use jl_calculus::history::{Event, Record};
use jl_host::HostOps;
use jl_machine::{Machine, Turn};
use jl_sig::Ready;
use std::alloc::AllocError;

/// Leads a task until it ends, or goes on alone: whether it has ended. No task waits here: what it fetches is told.
fn lead<'p>(
    ready: &'p Ready,
    ops: &HostOps,
    machine: &mut Machine<'p>,
    led: &mut Led<'p>,
) -> Result<bool, AllocError>
    requires fits { MachineFits ready.now (fuel_of machine.old) (knows_of led.old) machine.old }
    requires going { IsLost machine.old → ⊥ }
    requires here { led.old.alone ≡ false }
    ensures { IfOk result (λ ended. HasCome ready.now machine.old led.old ended machine.new led.new) }
{
    'turns: loop {
        let turn = machine.step(ready, ops, led)?;
        if led.alone {
            return Ok(false);
        }
        match turn {
            Turn::Again => {}
            Turn::NeedFetch(_) => return Err(AllocError),
            Turn::Done => return Ok(true),
        }
    }
}

/// Whether a definition of a site stands at a place.
fn is_definition(events: &[Event], place: u32, site: u32) -> bool
    ensures { IsTrue result ↔ IsDefAt site (slice_get events.now place) }
{
    match events.get(place as usize) {
        Some(Event::Def { site: made, .. }) => *made == site,
        _ => false,
    }
}

/// Whether the deletion at a place of the program stands at a place.
fn is_deletion(events: &[Event], place: u32, deletion: u32) -> bool
    ensures { IsTrue result ↔ IsDelAt deletion (slice_get events.now place) }
{
    match events.get(place as usize) {
        Some(Event::Del { place: made, .. }) => *made == deletion,
        _ => false,
    }
}

/// Whether a spawn at a place of the program stands at a place.
fn is_spawn(events: &[Event], place: u32, spawn: u32) -> bool
    ensures { IsTrue result ↔ IsSpawnAt spawn (slice_get events.now place) }
{
    match events.get(place as usize) {
        Some(Event::Spawn { start, .. }) => start.spawn == spawn,
        _ => false,
    }
}

/// Leads a task up to the definition of a site: whether its run comes to it, led by what it was told before and the items that stand next.
/// Where it does, the definition is made.
pub fn lead_to_definition<'p>(
    ready: &'p Ready,
    ops: &HostOps,
    machine: &mut Machine<'p>,
    led: &mut Led<'p>,
    site: u32,
) -> Result<bool, AllocError>
    requires fits { MachineFits ready.now (fuel_of machine.old) (knows_of led.old) machine.old }
    requires going { IsLost machine.old → ⊥ }
    requires here { led.old.alone ≡ false }
    requires room { world_of led.old.past.1 < MOST_WORLDS }
    ensures exact { IfOk result (λ answer. TellsDefinition ready.now led.old.past.1 led.old.task (fuel_of machine.old) (whole_trace machine.old led.old) site answer) }
    ensures made { IfOk result (λ answer. IsTrue answer → HasDefined ready.now machine.old led.old site machine.new led.new) }
{
    let place = led.past.len();
    let ended = lead(ready, ops, machine, led)?;
    if ended {
        return Ok(false);
    }
    let more = led.has_items();
    if more {
        return Ok(false);
    }
    let made = is_definition(led.past.events(), place, site);
    Ok(made)
}

/// Leads a task up to the deletion at a place of the program: whether its run comes to it, led by what it was told before and the items
/// that stand next. Where it does, the deletion is made.
pub fn lead_to_deletion<'p>(
    ready: &'p Ready,
    ops: &HostOps,
    machine: &mut Machine<'p>,
    led: &mut Led<'p>,
    deletion: u32,
) -> Result<bool, AllocError>
    requires fits { MachineFits ready.now (fuel_of machine.old) (knows_of led.old) machine.old }
    requires going { IsLost machine.old → ⊥ }
    requires here { led.old.alone ≡ false }
    requires room { world_of led.old.past.1 < MOST_WORLDS }
    ensures exact { IfOk result (λ answer. TellsDeletion ready.now led.old.past.1 led.old.task (fuel_of machine.old) (whole_trace machine.old led.old) deletion answer) }
    ensures made { IfOk result (λ answer. IsTrue answer → HasDeleted ready.now machine.old led.old deletion machine.new led.new) }
{
    let place = led.past.len();
    let ended = lead(ready, ops, machine, led)?;
    if ended {
        return Ok(false);
    }
    let more = led.has_items();
    if more {
        return Ok(false);
    }
    let made = is_deletion(led.past.events(), place, deletion);
    Ok(made)
}

/// Leads a task up to a spawn at a place of the program: whether its run comes to it, led by what it was told before and the items that
/// stand next. Where it does, the next task is started.
pub fn lead_to_spawn<'p>(
    ready: &'p Ready,
    ops: &HostOps,
    machine: &mut Machine<'p>,
    led: &mut Led<'p>,
    spawn: u32,
) -> Result<bool, AllocError>
    requires fits { MachineFits ready.now (fuel_of machine.old) (knows_of led.old) machine.old }
    requires going { IsLost machine.old → ⊥ }
    requires here { led.old.alone ≡ false }
    requires room { tasks_of led.old.past.1 < MOST_TASKS }
    ensures exact { IfOk result (λ answer. TellsSpawn ready.now led.old.past.1 led.old.task (fuel_of machine.old) (whole_trace machine.old led.old) spawn answer) }
    ensures made { IfOk result (λ answer. IsTrue answer → HasSpawned ready.now machine.old led.old spawn machine.new led.new) }
{
    let place = led.past.len();
    let ended = lead(ready, ops, machine, led)?;
    if ended {
        return Ok(false);
    }
    let more = led.has_items();
    if more {
        return Ok(false);
    }
    let made = is_spawn(led.past.events(), place, spawn);
    Ok(made)
}

/// Leads a task to its end: what it did, where that is a run of the whole trace, and nothing where there is no such run.
pub fn lead_to_end<'p>(
    ready: &'p Ready,
    ops: &HostOps,
    machine: Machine<'p>,
    led: &mut Led<'p>,
) -> Result<Option<Record>, AllocError>
    requires fits { MachineFits ready.now (fuel_of machine) (knows_of led.old) machine }
    requires going { IsLost machine → ⊥ }
    requires here { led.old.alone ≡ false }
    ensures run { IfOk result (λ found. MatchOption found (IsNoRun ready.now led.old.past.1 led.old.task (fuel_of machine.entry) (whole_trace machine.entry led.old)) (IsTheRun ready.now led.old.past.1 led.old.task (fuel_of machine.entry) (whole_trace machine.entry led.old))) }
    ensures valid { IfOk result (λ found. MatchOption found (Unit {0}) (λ ended. IsValidOutcome ready.now ended.outcome)) }
    ensures kept { IfOk result (λ found. MatchOption found (Unit {0}) (λ ended. (led.new.past.0 ≡ ready.now) × (led.new.past.1 ≡ led.old.past.1))) }
{
    let mut machine = machine;
    match lead(ready, ops, &mut machine, led) {
        Ok(ended) => {
            if ended {
                let more = led.has_items();
                if more {
                    drop(machine);
                    return Ok(None);
                }
                let record = machine.record()?;
                return Ok(Some(record));
            }
            drop(machine);
            Ok(None)
        }
        Err(error) => {
            drop(machine);
            Err(error)
        }
    }
}
