//! What a running task holds.

ghost use Rattle.std.specs.Prelude.{◌≡◌, ◌<◌, ◌≤◌, ◌+◌, ℕ, length, Some};
ghost use Rattle.jl_cache.specs.Finds.{MatchFound};
ghost use Rattle.jl_calculus.specs.declared.history.TraceItem.TheVariants.{Look};
ghost use Rattle.jl_calculus.specs.Learnt.{IsChosen, IsUncovered};
ghost use Rattle.jl_calculus.specs.Past.{IsTrueOf};
ghost use Rattle.jl_calculus.specs.Ranges.{keys_of};
ghost use Rattle.jl_calculus.specs.World.{world_of};
ghost use Rattle.jl_program.specs.Prelude.{prelude_count};
ghost use Rattle.jl_world.specs.Views.{Begins, looked, met};
ghost use Rattle.jl_book.specs.Passes.{task_in, IsPass};

use jl_cache::{Cache, Found, Miss};
use jl_calculus::history::Seen;
use jl_world::{Naming, TaskSeat};
use std::marker::Model;

/// The right of a running task to ask the book of its run. Contracts see it as what the task knows. A pass may be dropped: its task
/// then never ends.
#[derive(Drop)]
pub struct Pass<N: Naming> {
    pub(crate) seat: TaskSeat<N>,
    pub(crate) task: u32,
}

impl<N: Naming> Model for Pass<N> {
    ghost use Rattle.jl_world.specs.declared.view.TaskView.{TaskView};
    ghost use Rattle.jl_world.specs.contracts.view.TaskView as e;
    ghost use Rattle.jl_book.specs.Passes.{IsPass};

    ghost Value = { TaskView };

    ghost coded = { e.the_row.coded };

    ghost view = { λ p. p.seat };

    ghost invariant = { λ p. IsPass N.about p.task p.seat };
}

impl<N: Naming> Pass<N> {
    /// The number of the task.
    pub fn task(&self) -> u32
        ensures { self.now.task ≡ Some result }
    {
        self.task
    }

    /// How many events the task has seen.
    pub fn seen(&self) -> u32
        ensures { result ≡ length self.now.seen }
    {
        self.seat.seen()
    }

    /// That the pass is one of a running task, for proofs that rest on it. It does nothing.
    pub fn facts(&self)
        ensures { IsPass N.about (task_in self.now) self.now }
    {
        let _ = &self.seat;
    }

    /// Sees which world is the newest. It takes no lock, and waits for nobody.
    pub fn look(&mut self, cache: &Cache<N>) -> Seen
        ensures item { (task : ℕ) → IsTrueOf N.about.program.value self.new.seen task (Look result.world result.length) }
        ensures world { world_of self.new.seen ≡ result.world }
        ensures seen { Begins self.old.seen self.new.seen × (result.length ≡ length self.new.seen) }
        ensures looks { self.new.looks ≡ self.old.looks + 1 }
        ensures same { self.new ≡ looked self.new.seen self.old }
    {
        cache.world().look(&mut self.seat)
    }

    /// Searches the rows of a key that the task has seen for one that covers a world: a hit has its site, and there is a miss exactly
    /// where none of the rows that were linked when the key's head was loaded covers it. It takes no lock, and waits for nobody.
    pub fn find(&mut self, cache: &Cache<N>, key: u32, world: u32) -> Found<Miss<N>>
        requires key { key < length (keys_of self.old.seen) }
        requires world { (prelude_count ≤ world) × (world ≤ world_of self.old.seen) }
        ensures found { MatchFound result (IsChosen N.about.program.value self.new.seen key world) (λ m. IsUncovered N.about.program.value self.new.seen key world) }
        ensures miss { MatchFound result (λ site. Unit {0}) (λ m. m ≡ record { key = key; world = world; seen = self.new.seen }) }
        ensures seen { Begins self.old.seen self.new.seen }
        ensures same { self.new ≡ met self.new.seen self.old }
    {
        cache.find(&mut self.seat, key, world)
    }
}
