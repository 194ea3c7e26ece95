//! What the text of a history tells.

use jl_model::shared::SharedList;
use jl_model::ty::Bytes;

/// What the text tells of a trace, in order.
pub type Steps = SharedList<Step>;
/// What the text tells of events, in order.
pub type Entries = SharedList<Entry>;

/// What the text tells of an item of a trace. Of a fetch it leaves out the outcome, which is that of the fetched task.
#[derive(Clone, Copy, PartialEq, Eq, Debug)]
pub enum Step {
    Look { world: u32, at: u32 },
    Def { site: u32, at: u32 },
    Spawn { child: u32, at: u32 },
    Fetch { task: u32, at: u32 },
    WorldFull { at: u32 },
    TaskFull { at: u32 },
    Del { place: u32, at: u32 },
    Absent { place: u32, at: u32 },
}

/// How a task ended, by the text of its value or of its fault.
#[derive(Drop)]
pub enum Ending {
    Value(Bytes),
    Error(Bytes),
}

/// What the text tells of an event: its numbers, and the texts of its function, types and outcome. Of a spawn it leaves
/// out the values that the task starts with, and has the number of the place.
#[derive(Drop)]
pub enum Entry {
    Begin(u64),
    Key {
        number: u32,
        function: Bytes,
        tuple: Bytes,
    },
    Fill {
        key: u32,
        site: u32,
        first: u32,
    },
    Def {
        task: u32,
        site: u32,
    },
    Del {
        task: u32,
        place: u32,
    },
    Spawn {
        task: u32,
        child: u32,
        place: u32,
    },
    Done {
        task: u32,
        calls: u32,
        trace: Steps,
        output: Bytes,
        ending: Ending,
    },
}
