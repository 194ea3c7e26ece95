//! What the events tell after each number of them.

ghost use Rattle.std.specs.Prelude.{◌≡◌, ◌≤◌, ◌<◌, ◌↔◌, ◌++◌, ◌∷◌, [], ℕ, List, IsTrue, IfOk, MatchOption, OnOk, length, take};
ghost use Rattle.jl_calculus.specs.declared.history.Event.{Event};
ghost use Rattle.jl_calculus.specs.declared.history.Event.TheVariants.{Begin};
ghost use Rattle.jl_calculus.specs.Past.{tasks_of};
ghost use Rattle.jl_calculus.specs.World.{world_of};
ghost use Rattle.jl_causes.specs.Tables.{AreCounts, ArePlaces};

use jl_program::prelude::FIRST_WORLD;
use std::alloc::{AllocError, Global};

/// The newest world, and how many tasks there are.
#[derive(Clone, Copy)]
pub(crate) struct Counts {
    pub(crate) world: u32,
    pub(crate) tasks: u32,
}

/// The counts after each number of events, so that an item of a trace is judged without a walk.
#[derive(Drop)]
pub(crate) struct Places {
    rows: Vec<Counts>,
    newest: Counts,
}

impl Places {
    /// Those of a history that has begun.
    pub(crate) fn new(alloc: Global) -> Result<Places, AllocError>
        ensures { IfOk result (λ places. (fuel : ℕ) → ArePlaces (Begin fuel ∷ []) places) }
    {
        let first = Counts {
            world: FIRST_WORLD,
            tasks: 1,
        };
        let mut rows = Vec::new(alloc);
        rows.push(first)?;
        rows.push(first)?;
        Ok(Places {
            rows,
            newest: first,
        })
    }

    /// How many events there are.
    pub(crate) fn len(&self) -> usize
        requires { (es : List Event) × ArePlaces es self.now }
        ensures { (es : List Event) → ArePlaces es self.now → result ≡ length es }
    {
        self.rows.len() - 1
    }

    /// The newest counts.
    pub(crate) fn newest(&self) -> Counts
        ensures { (es : List Event) → ArePlaces es self.now → AreCounts es result }
    {
        self.newest
    }

    /// The newest world after so many events, where so many are there.
    pub(crate) fn world_at(&self, at: u32) -> Option<u32>
        ensures { (es : List Event) → ArePlaces es self.now → MatchOption result (length es < at) (λ world. (at ≤ length es) × (world_of (take at es) ≡ world)) }
    {
        match self.rows.as_slice().get(at as usize) {
            Some(counts) => Some(counts.world),
            None => None,
        }
    }

    /// Whether so many events are there, and the newest world after them is this one.
    pub(crate) fn has_world(&self, world: u32, at: u32) -> bool
        ensures { (es : List Event) → ArePlaces es self.now → IsTrue result ↔ ((at ≤ length es) × (world_of (take at es) ≡ world)) }
    {
        match self.rows.as_slice().get(at as usize) {
            Some(counts) => counts.world == world,
            None => false,
        }
    }

    /// Whether so many events are there, and there are so many tasks after them.
    pub(crate) fn has_tasks(&self, tasks: u32, at: u32) -> bool
        ensures { (es : List Event) → ArePlaces es self.now → IsTrue result ↔ ((at ≤ length es) × (tasks_of (take at es) ≡ tasks)) }
    {
        match self.rows.as_slice().get(at as usize) {
            Some(counts) => counts.tasks == tasks,
            None => false,
        }
    }

    /// One more event, after which the counts are these.
    pub(crate) fn note(&mut self, counts: Counts) -> Result<(), AllocError>
        ensures { OnOk result ((es : List Event) (e : Event) → ArePlaces es self.old → AreCounts (es ++ e ∷ []) counts → ArePlaces (es ++ e ∷ []) self.new) }
    {
        self.rows.push(counts)?;
        self.newest = counts;
        Ok(())
    }
}
