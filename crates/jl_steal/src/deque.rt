//! A deque: its worker pushes and pops, and thieves of other workers take from its front.

ghost use Rattle.std.specs.Prelude.{◌≡◌, ◌∷◌, ◌++◌, [], true, false, IfOk, OnOk, OnErr, IfErr, MatchOption, MatchResult};
ghost use Rattle.crossbeam_deque.specs.Handles.{view, IsPassOf, worker_deque, stealer_deque, worker_flavor, worker_port, worker_view};
ghost use Rattle.crossbeam_deque.specs.Steals.{MatchSteal};
ghost use Rattle.jl_steal.specs.Deques.{log, InOrder, TakesNext, Pops};

use crossbeam_deque::protocol::{Lesson, Outcome, Protocol};
use crossbeam_deque::{Pass, Steal, Stealer, Worker};
use std::alloc::{AllocError, Global};
use std::collections::LinkedList;
use std::marker::Model;

/// What a side of a deque knows: whether it is the worker's, what was pushed (the worker knows all, a thief a beginning), and what this side
/// has taken. No value of it is made.
pub struct Log<T> {
    pub works: bool,
    pub pushed: LinkedList<T>,
    pub taken: LinkedList<T>,
}

/// The rule of a deque: what it holds are the values that were pushed to it and not yet taken, each once, in order.
pub struct Kept;

impl<T> Protocol<T, Log<T>> for Kept {
    ghost use Rattle.std.specs.Prelude.{[], true, false};
    ghost use Rattle.jl_steal.specs.Deques.{log, InOrder};

    ghost holds = { InOrder };

    ghost first = { log true [] [] };

    ghost guest = { log false [] [] };
}

/// What a push leaves to the worker.
struct Pushed;

impl<T> Outcome<T, Log<T>> for Pushed {
    ghost use Rattle.jl_steal.specs.Deques.{log};

    ghost then = { λ v xs w. w ≡ log v.works (v.pushed ++ xs) v.taken };
}

/// What a pop leaves to the worker.
struct Popped;

impl<T> Outcome<T, Log<T>> for Popped {
    ghost use Rattle.jl_steal.specs.Deques.{Pops};

    ghost then = { Pops };
}

/// What a steal leaves to a thief.
struct Stolen;

impl<T> Outcome<T, Log<T>> for Stolen {
    ghost use Rattle.jl_steal.specs.Deques.{TakesNext};

    ghost then = { TakesNext };
}

/// What a count teaches: nothing.
struct Counted;

impl<T> Lesson<T, Log<T>> for Counted {
    ghost use Rattle.std.specs.Prelude.{⊤};

    ghost fact = { λ v items. ⊤ };
}

/// The side of a deque that its worker has (Chase and Lev, SPAA 2005). Contracts see what was pushed to it, and what the worker itself has
/// popped.
#[derive(Drop)]
pub struct Local<T> {
    worker: Worker<T, Global, Log<T>, Kept>,
}

impl<T> Model for Local<T> {
    ghost use Rattle.std.specs.Prelude.{◌≡◌};
    ghost use Rattle.crossbeam_deque.specs.Handles.{worker_flavor, worker_port, worker_view};
    ghost use Rattle.jl_steal.specs.declared.deque.Log.{Log};

    ghost Value = { Log T };

    ghost view = { λ l. worker_view l.worker };

    ghost invariant = { λ l. (worker_flavor l.worker ≡ 0) × (worker_port l.worker ≡ 0) };
}

/// The side of another worker. Contracts see what it knows to have been pushed, and what it has stolen.
#[derive(Drop)]
pub struct Thief<T> {
    stealer: Stealer<T, Global, Log<T>, Kept>,
    pass: Pass<T, Log<T>, Global>,
}

impl<T> Model for Thief<T> {
    ghost use Rattle.std.specs.Prelude.{◌≡◌, false};
    ghost use Rattle.crossbeam_deque.specs.Handles.{view as known, IsPassOf, stealer_deque};
    ghost use Rattle.jl_steal.specs.declared.deque.Log.{Log};

    ghost Value = { Log T };

    ghost view = { λ t. known t.pass };

    ghost invariant = { λ t. IsPassOf (stealer_deque t.stealer) t.pass × ((known t.pass).works ≡ false) };
}

impl<T: Drop> Local<T> {
    /// A deque with nothing in it, which has room for so many values before it grows.
    pub fn new(alloc: Global, capacity: usize) -> Result<Local<T>, AllocError>
        ensures { IfOk result (λ l. l ≡ log true [] []) }
    {
        let worker = Worker::<T, Global, Log<T>, Kept>::fifo_as(alloc, capacity)?;
        Ok(Local { worker })
    }
}

impl<T> Local<T> {
    /// A thief for another worker, which knows nothing yet.
    pub fn thief(&self) -> Result<Thief<T>, AllocError>
        ensures { IfOk result (λ t. t ≡ log false [] []) }
    {
        let stealer = self.worker.stealer()?;
        let pass = stealer.pass();
        Ok(Thief { stealer, pass })
    }

    /// Puts a value last. It comes back where the deque can't grow.
    pub fn push(&mut self, value: T) -> Result<(), T>
        ensures put { OnOk result (self.new ≡ log self.old.works (self.old.pushed ++ value ∷ []) self.old.taken) }
        ensures back { IfErr result (λ x. x ≡ value) }
        ensures kept { OnErr result (self.new ≡ self.old) }
    {
        self.worker.push_as::<Pushed>(value)
    }

    /// How many values it holds at one moment.
    pub fn len(&mut self) -> usize
        ensures { self.new ≡ self.old }
    {
        self.worker.len_as::<Counted>()
    }

    /// Takes the first value that was pushed and not yet taken.
    pub fn pop(&mut self) -> Option<T>
        ensures { MatchOption result (self.new ≡ self.old) (λ x. Pops self.old (x ∷ []) self.new) }
    {
        self.worker.pop_as::<Popped>()
    }
}

impl<T> Thief<T> {
    /// Takes the first value that was pushed and not yet taken.
    pub fn steal(&mut self) -> Steal<T>
        ensures { MatchSteal result (self.new ≡ self.old) (self.new ≡ self.old) (λ x. TakesNext self.old (x ∷ []) self.new) }
    {
        self.stealer.steal_as::<Stolen>(&mut self.pass)
    }
}
