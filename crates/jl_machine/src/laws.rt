//! Laws of machines and dispatchers: which machine may take its first turn, which one may take another, and what one that has ended
//! did.

ghost use Rattle.jl_machine.specs.Steps.{RootFits, TaskFits, LostFits, GrownFits, EndedRuns};

use jl_task::Dispatcher;

/// A new machine fits each dispatcher of its program, and of its start, that has done nothing for its task yet.
pub fn law_new_machine<D: Dispatcher>(with: &D)
    ensures root { RootFits (D.knows with.now) }
    ensures task { TaskFits (D.knows with.now) }
{}

/// A machine that has met want of memory fits each dispatcher.
pub fn law_lost_machine<D: Dispatcher>(with: &D)
    ensures { LostFits (D.knows with.now) }
{}

/// A machine goes on to fit where its dispatcher gives way to one that knows more, and has looked and made as much.
pub fn law_grown_machine<D: Dispatcher, E: Dispatcher>(before: &D, now: &E)
    ensures { GrownFits (D.knows before.now) (E.knows now.now) }
{}

/// The record of a machine that has ended is a run, and the only one that has its trace.
pub fn law_ended_machine<D: Dispatcher>(with: &D)
    ensures { EndedRuns (D.knows with.now) }
{}
