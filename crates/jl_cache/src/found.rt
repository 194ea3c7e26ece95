//! What a search of the cache finds.

ghost use Rattle.std.specs.Prelude.{◌≡◌};

use jl_calculus::history::Event;
use jl_world::{Naming, TaskSeat};
use std::collections::LinkedList;
use std::marker::Model;
use std::snapshot::Snapshot;

/// What a search found: the site of a row that covers the world, or that there was none.
#[derive(Drop)]
pub enum Found<M> {
    Hit(u32),
    Miss(M),
}

/// What a miss keeps: its key, its world, and the events that were seen when the key's head was loaded. No value of this type is made.
pub struct Missed {
    pub key: u64,
    pub world: u64,
    pub seen: LinkedList<Event>,
}

/// That no row of a key covered a world. Only a search makes one.
#[derive(Drop)]
pub struct Miss<N: Naming> {
    pub(crate) key: u32,
    pub(crate) world: u32,
    pub(crate) seen: Snapshot<TaskSeat<N>>,
}

impl<N: Naming> Model for Miss<N> {
    ghost use Rattle.jl_cache.specs.declared.found.Missed.{Missed};
    ghost use Rattle.jl_cache.specs.contracts.found.Missed as e;
    ghost use Rattle.jl_calculus.specs.Learnt.{IsUncovered};

    ghost Value = { Missed };

    ghost coded = { e.the_row.coded };

    ghost view = { λ m. record { key = m.key; world = m.world; seen = m.seen.value.seen } };

    ghost invariant = { λ m. IsUncovered N.about.program.value m.seen.value.seen m.key m.world };
}

impl<N: Naming> Miss<N> {
    /// The number of the key.
    pub fn key(&self) -> u32
        ensures { result ≡ self.now.key }
    {
        self.key
    }

    /// The world that no row of the key covered.
    pub fn world(&self) -> u32
        ensures { result ≡ self.now.world }
    {
        self.world
    }
}
