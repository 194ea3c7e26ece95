//! What seats know. No value of these types is made.

use jl_calculus::history::{Event, TraceItem};
use jl_program::tree::Start;
use std::collections::LinkedList;

/// What the seat of a task knows: its task and how it started, the events that it has seen, the task's own definitions, deletions and
/// spawns with their places, the starts of what it spawned, and how often it has looked.
pub struct TaskView {
    pub task: Option<u64>,
    pub start: Option<Start>,
    pub fuel: u64,
    pub seen: LinkedList<Event>,
    pub own: LinkedList<TraceItem>,
    pub starts: LinkedList<Start>,
    pub looks: u64,
}

/// A word that was stored into a row which is not linked yet, and its place among all words.
pub struct Stored {
    pub place: u64,
    pub value: u64,
}

/// What the book's seat knows: all events, the views of the tasks that it holds, the rows that it cut ahead of a definition,
/// and what it stored into rows that are not linked.
pub struct BookView {
    pub events: LinkedList<Event>,
    pub held: LinkedList<TaskView>,
    pub cut: LinkedList<u64>,
    pub stored: LinkedList<Stored>,
}

/// What a seat knows.
pub enum View {
    Nobody,
    Task(TaskView),
    Book(BookView),
}
