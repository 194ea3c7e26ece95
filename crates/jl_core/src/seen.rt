//! What a task has seen.

ghost use Rattle.std.specs.Prelude.{◌≡◌, ◌↔◌, IsTrue, MatchOption, None, slice_get};
ghost use Rattle.jl_calculus.specs.Core.{HasSeen, HasSeenWorld};
ghost use Rattle.jl_core.specs.Asked.{HasSeenThese, has_both};

use crate::events::{count_keys, world_of};
use crate::state::Core;
use jl_calculus::history::Event;
use jl_program::prelude::FIRST_WORLD;

/// Whether events have a key of this number and a world, which is none of the prelude but its last.
fn have_both(events: &[Event], key: u32, world: u32) -> bool
    ensures { result ≡ has_both events.now key world }
{
    (key as usize) < count_keys(events)
        && FIRST_WORLD <= world
        && world as usize <= world_of(events)
}

impl Core {
    /// The events that a task has seen; none where there is no such task.
    fn seen_by(&self, task: u32) -> Option<&[Event]>
        ensures { MatchOption result (slice_get self.now.core.tasks task ≡ None) (λ seen. HasSeenThese self.now.core task seen.now) }
    {
        let Some(state) = self.tasks.as_slice().get(task as usize) else {
            return None;
        };
        let events = self.events.as_slice();
        Some(&events[..state.seen])
    }

    /// Whether a task has seen the key of a number and a world.
    pub(crate) fn has_seen(&self, task: u32, key: u32, world: u32) -> bool
        ensures { IsTrue result ↔ HasSeen self.now.program self.now.room self.now.core task key world }
    {
        match self.seen_by(task) {
            Some(seen) => have_both(seen, key, world),
            None => false,
        }
    }

    /// Whether a task has seen a world.
    pub(crate) fn has_seen_world(&self, task: u32, world: u32) -> bool
        ensures { IsTrue result ↔ HasSeenWorld self.now.program self.now.room self.now.core task world }
    {
        match self.seen_by(task) {
            Some(seen) => world as usize <= world_of(seen),
            None => false,
        }
    }
}
