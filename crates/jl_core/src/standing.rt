//! Whether a deletion finds a method to take away.

ghost use Rattle.std.specs.Prelude.{◌≤◌, ◌↔◌, IsTrue, IfOk};
ghost use Rattle.jl_model.specs.declared.limits.TheConstants.{MOST_WORLDS};
ghost use Rattle.jl_calculus.specs.Past.{IsAbsent};
ghost use Rattle.jl_calculus.specs.World.{world_of, FindsMethod};
ghost use Rattle.jl_core.specs.Flags.{IsOfFunction, AreFlags};

use crate::events::{changes, world_of};
use crate::picked::{defs_of, dels_of};
use jl_calculus::history::{Change, Event};
use jl_model::limits::MOST_WORLDS;
use jl_program::tree::Program;
use jl_sig::Ready;
use jl_subsig::has_standing;
use std::alloc::{AllocError, Global};

/// Whether a change is of a function.
fn is_of_function(program: &Program, function: u32, change: Change) -> bool
    ensures { IsTrue result ↔ IsOfFunction program.now function change }
{
    match change {
        Change::Def(site) => match program.sites.as_slice().get(site as usize) {
            Some(found) => found.function == function,
            None => false,
        },
        Change::Del(place) => match program.deletes.as_slice().get(place as usize) {
            Some(found) => found.function == function,
            None => false,
        },
    }
}

/// Which of these changes are of a function.
fn function_flags(
    alloc: Global,
    program: &Program,
    made: &[Change],
    function: u32,
) -> Result<Vec<bool>, AllocError>
    ensures { IfOk result (λ flags. AreFlags (IsOfFunction program.now function) made.now flags.items) }
{
    let mut flags = Vec::new(alloc);
    for change in made {
        flags.push(is_of_function(program, function, *change))?;
    }
    Ok(flags)
}

/// Whether a method of the function and the signature of a deletion place stands in the newest world.
pub(crate) fn has_method_for(
    alloc: Global,
    ready: &Ready,
    events: &[Event],
    place: u32,
) -> Result<bool, AllocError>
    requires { world_of events.now ≤ MOST_WORLDS }
    ensures { IfOk result (λ yes. IsTrue yes ↔ FindsMethod ready.now events.now place) }
{
    let program = ready.program();
    let Some(found) = program.deletes.as_slice().get(place as usize) else {
        return Ok(false);
    };
    let made = changes(alloc, events)?;
    let known = made.as_slice();
    let flags = function_flags(alloc, program, known, found.function)?;
    let flagged = flags.as_slice();
    let defs = defs_of(alloc, known, flagged)?;
    let dels = dels_of(alloc, known, flagged)?;
    let yes = has_standing(alloc, ready, place, defs.as_slice(), dels.as_slice())?;
    Ok(yes)
}

/// Whether there is a world after these events, and nothing to delete at a place of the program in the newest one.
pub(crate) fn is_absent(
    alloc: Global,
    ready: &Ready,
    events: &[Event],
    place: u32,
) -> Result<bool, AllocError>
    ensures { IfOk result (λ yes. IsTrue yes ↔ IsAbsent ready.now events.now place) }
{
    if place as usize >= ready.program().deletes.len() {
        return Ok(false);
    }
    if world_of(events) >= MOST_WORLDS {
        return Ok(false);
    }
    let found = has_method_for(alloc, ready, events, place)?;
    Ok(!found)
}
