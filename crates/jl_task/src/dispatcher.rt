//! What a task asks while it runs.

ghost use Rattle.std.specs.Prelude.{◌≡◌, ◌<◌, ◌^◌, ◌≤◌, IfOk, OnErr, MatchOption, Err, length, map};
ghost use Rattle.jl_program.specs.declared.prelude.TheConstants.{PRELUDE_SITES};
ghost use Rattle.jl_program.specs.TypeOf.{type_of};
ghost use Rattle.jl_calculus.specs.declared.history.DefineFault.TheVariants as D;
ghost use Rattle.jl_calculus.specs.declared.history.DeleteFault.TheVariants as X;
ghost use Rattle.jl_calculus.specs.declared.history.SpawnFault.TheVariants as S;
ghost use Rattle.jl_calculus.specs.declared.history.FetchFault.TheVariants as F;
ghost use Rattle.jl_calculus.specs.Legal.{IsKeyOf};
ghost use Rattle.jl_calculus.specs.ValidStart.{IsValidStart};
ghost use Rattle.jl_calculus.specs.ValidHistory.{IsValidOutcome};
ghost use Rattle.jl_task.specs.Knows.{Knows, Grew, Looked, Asked, Refused, IsRight, IsMethod, Defined, Deleted, IsAbsentNow, IsMade, WorldsFull, IsFull, Spawned, TasksFull, AreTasksFull, Fetched, IsNotDone};
ghost use Rattle.jl_task.specs.Numbers.{TakesNumbers};
ghost use Rattle.jl_task.specs.Worlds.{IsWorld};

use jl_calculus::history::{DefineFault, DeleteFault, FetchFault, Outcome, Seen, SpawnFault};
use jl_model::shared::SharedNode;
use jl_model::ty::{Key, Ty, Tys};
use jl_program::choice::Choice;
use jl_program::tree::Start;
use jl_program::value::Value;
use std::alloc::AllocError;

/// What a task asks of the run that it belongs to: the newest world, the choice of a method, a new definition, a deletion, a new
/// task, and what became of a task.
///
/// Its meaning `knows` says what its answers speak of, what it has learnt, and with which lists of events it agrees:
/// every answer is right in each list that agrees.
pub trait Dispatcher {
    ghost knows: { Self → Knows };

    /// The newest world, and the length of the history that the task has then seen. No counter of 64 bits counts looks
    /// without end, so fewer than 2^63 were made.
    fn newest(&mut self) -> Seen
        requires { (knows self.old).looks < 2 ^ 63 }
        ensures { Looked (knows self.old) (knows self.new) result.world result.length };

    /// The choice for a call in a world that the task knows.
    fn select(&mut self, key: Key, world: u32) -> Result<Choice, AllocError>
        requires world { IsWorld world (knows self.old).world }
        requires key { IsKeyOf (knows self.old).program key }
        ensures asked { Asked (knows self.old) (knows self.new) }
        ensures right { IfOk result (λ choice. IsRight (knows self.new) key.function key.types world choice) };

    /// The site of a definition that the last call of `select` answered. Until the next call it is that of the definition that the
    /// rules choose, which need not be the same definition.
    fn site(&self, definition: u32) -> u32
        requires { (1 ≤ definition) × (definition ≤ (knows self.now).world) }
        ensures { result ≡ (knows self.now).site definition };

    /// Makes a definition of a site, and answers its world. Where it answers an error, nothing was made. `WorldLimit` comes only
    /// where the world is full, and wherever the task knows that it is.
    fn define(&mut self, site: u32) -> Result<u32, DefineFault>
        requires { (PRELUDE_SITES ≤ site) × (site < length (knows self.old).program.sites) }
        ensures grew { Grew (knows self.old) (knows self.new) }
        ensures defined { IfOk result (λ _. Defined (knows self.old) (knows self.new) site) }
        ensures world { IfOk result (λ w. IsMade (knows self.new) w) }
        ensures refused { OnErr result (Refused (knows self.old) (knows self.new)) }
        ensures full { result ≡ Err D.WorldLimit → WorldsFull (knows self.old) (knows self.new) }
        ensures limit { IsFull (knows self.old) → result ≡ Err D.WorldLimit };

    /// Deletes the methods of a deletion place, and answers the world that this made. Where it answers an error, nothing was deleted.
    /// `NoSuchMethod` comes only where no such method stands, `WorldLimit` only where the world is full, and wherever the task knows
    /// that it is.
    fn delete(&mut self, place: u32) -> Result<u32, DeleteFault>
        requires { place < length (knows self.old).program.deletes }
        ensures grew { Grew (knows self.old) (knows self.new) }
        ensures deleted { IfOk result (λ _. Deleted (knows self.old) (knows self.new) place) }
        ensures world { IfOk result (λ w. IsMade (knows self.new) w) }
        ensures refused { OnErr result (Refused (knows self.old) (knows self.new)) }
        ensures absent { result ≡ Err X.NoSuchMethod → IsAbsentNow (knows self.old) (knows self.new) place }
        ensures full { result ≡ Err X.WorldLimit → WorldsFull (knows self.old) (knows self.new) }
        ensures limit { IsFull (knows self.old) → result ≡ Err X.WorldLimit };

    /// Spawns a task from a start, and answers its number. Where it answers an error, nothing was made. `TaskLimit` comes only where
    /// there is no room for a task, and wherever the task knows that there is none.
    fn spawn(&mut self, start: Start) -> Result<u32, SpawnFault>
        requires valid { IsValidStart (knows self.old).program start }
        requires world { IsWorld start.world (knows self.old).world }
        ensures grew { Grew (knows self.old) (knows self.new) }
        ensures spawned { IfOk result (λ child. Spawned (knows self.old) (knows self.new) child start) }
        ensures refused { OnErr result (Refused (knows self.old) (knows self.new)) }
        ensures full { result ≡ Err S.TaskLimit → TasksFull (knows self.old) (knows self.new) }
        ensures limit { AreTasksFull (knows self.old) → result ≡ Err S.TaskLimit };

    /// What became of a task. `NotYet` comes only where the events that the task has then seen have no end of it.
    fn fetched(&mut self, task: u32) -> Result<SharedNode<Outcome>, FetchFault>
        ensures grew { Grew (knows self.old) (knows self.new) }
        ensures fetched { IfOk result (λ outcome. Fetched (knows self.old) (knows self.new) task outcome) }
        ensures valid { IfOk result (λ outcome. IsValidOutcome (knows self.old).program outcome) }
        ensures refused { OnErr result (Asked (knows self.old) (knows self.new)) }
        ensures not_yet { result ≡ Err F.NotYet → IsNotDone (knows self.new) task };

    /// The length of the history that the task has seen.
    fn seen(&self) -> u32
        ensures { result ≡ (knows self.now).seen };
}

/// A method that was chosen: its site, and the types of the variables of its signature.
#[derive(Clone, Copy)]
pub struct Recalled<'a> {
    pub site: u32,
    pub statics: &'a [Ty],
}

/// A dispatcher that remembers which method was chosen for a call, so that the same call is answered without a key, without memory and
/// without a question. It may forget what it likes.
pub trait Recall: Dispatcher {
    /// The method that was chosen for a function, arguments and a world.
    fn recall(&self, function: u32, values: &[Value], world: u32) -> Option<Recalled<'_>>
        ensures { MatchOption result (Unit {0}) (λ found. IsMethod (Self.knows self.now) function (map type_of values.now) world found.site found.statics.now) };

    /// The operation of the prelude that was chosen for a function, two numbers and a world.
    fn recall_numbers(&self, function: u32, world: u32) -> Option<u32>
        ensures { MatchOption result (Unit {0}) (λ site. TakesNumbers (Self.knows self.now) function world site) };

    /// Remembers the method that was chosen.
    fn keep(&mut self, key: Key, world: u32, site: u32, statics: Tys)
        requires { IsMethod (Self.knows self.old) key.function key.types world site statics }
        ensures { Asked (Self.knows self.old) (Self.knows self.new) };
}
