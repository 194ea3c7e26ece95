//! The turns of one machine, as long as nobody has to be waited for, and no task is spawned.

ghost use Rattle.std.specs.Prelude.{◌≡◌, IfOk};
ghost use Rattle.jl_machine.specs.Steps.{MachineFits, fuel_of};
ghost use Rattle.jl_runner.specs.Working.{IsAtEnd};

use jl_host::HostOps;
use jl_machine::{Machine, Turn};
use jl_sig::Ready;
use jl_task::Recall;
use std::alloc::AllocError;

/// Why a machine rests.
#[derive(Clone, Copy)]
pub(crate) enum Rest {
    /// Its task has ended.
    Ended,
    /// Its task waits for the end of another one.
    Waits(u32),
    /// Its task has spawned another one.
    Spawned,
}

/// Whether a task was spawned that nobody has taken yet.
pub(crate) trait Spawns {
    fn has_spawned(&self) -> bool;
}

/// Runs a machine with so many calls on, until its task has ended, waits for another one, or has spawned one.
pub(crate) fn run_turns<'p, D: Recall + Spawns>(
    ready: &'p Ready,
    fuel: u64,
    ops: &HostOps,
    machine: &mut Machine<'p>,
    with: &mut D,
) -> Result<Rest, AllocError>
    requires fits { MachineFits ready.now fuel (D.knows with.old) machine.old }
    requires fuel { fuel_of machine.old ≡ fuel }
    ensures fits { IfOk result (λ _. MachineFits ready.now fuel (D.knows with.new) machine.new) }
    ensures fuel { IfOk result (λ _. fuel_of machine.new ≡ fuel) }
    ensures end { IfOk result (λ rest. IsAtEnd rest machine.new) }
{
    'turns: loop {
        match machine.step(ready, ops, with)? {
            Turn::Again => {
                if with.has_spawned() {
                    return Ok(Rest::Spawned);
                }
            }
            Turn::NeedFetch(task) => return Ok(Rest::Waits(task)),
            Turn::Done => return Ok(Rest::Ended),
        }
    }
}
