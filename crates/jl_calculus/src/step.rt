//! The steps of the model of a run: all that several tasks do to what they share, one step at a time.

use crate::history::{Change, Record};
use jl_model::ty::Key;
use jl_program::tree::Start;

/// A step. A row and a key stand by their numbers.
#[derive(Drop)]
pub enum Step {
    /// A task looks at the newest world.
    Look { task: u32 },
    /// A task names a key.
    Key { task: u32, key: Key },
    /// A task begins the search of a key in a world, by loading the key's head.
    Head { task: u32, key: u32, world: u32 },
    /// A task reads the row at which its search is, and goes on to the next one where that row does not cover the world.
    Row { task: u32 },
    /// A task makes a row of a key that covers a world.
    Fill { task: u32, key: u32, world: u32 },
    /// A task opens a change: the definition of a site, or the deletion at a place.
    Open { task: u32, change: Change },
    /// A row is cut for the open change.
    Cut { row: u32 },
    /// The open change makes its world.
    Publish,
    Spawn { task: u32, start: Start },
    Done { task: u32, ended: Record },
    /// A task fetches the outcome of another.
    Fetch { task: u32, of: u32 },
}
