//! Who is told of the tasks that begin and end.

use std::sync::atomic::{AtomicBool, Ordering};
use std::thread::yield_now;

/// Is told of each task of a run, by the worker that runs it. It answers nothing, so a run means the same with each gate.
pub trait Gate: Sync {
    /// Is called before a task's first turn.
    fn enter(&self, task: u32);

    /// Is called after a task's end.
    fn leave(&self, task: u32);
}

/// Does nothing.
#[derive(Drop)]
pub struct OpenGate;

impl Gate for OpenGate {
    fn enter(&self, _task: u32) {}

    fn leave(&self, _task: u32) {}
}

/// The task that is held.
const HELD: u32 = 1;
/// The task for which it is held.
const AWAITED: u32 = 2;

/// Holds task 1 until task 2 has entered, and so shows whether two tasks ran side by side. It gives up after a number of turns,
/// each of which yields the thread.
#[derive(Drop)]
pub struct PairGate {
    turns: u64,
    entered: AtomicBool,
    met: AtomicBool,
}

impl PairGate {
    /// A gate that waits for so many turns at most.
    pub fn new(turns: u64) -> PairGate {
        PairGate {
            turns,
            entered: AtomicBool::new(false),
            met: AtomicBool::new(false),
        }
    }

    /// Whether task 2 entered while task 1 was held.
    pub fn met(&self) -> bool {
        self.met.load(Ordering::SeqCst)
    }

    /// Waits until task 2 has entered, or all turns are spent.
    fn hold(&self) {
        for _ in 0..self.turns {
            if self.entered.load(Ordering::SeqCst) {
                self.met.store(true, Ordering::SeqCst);
                return;
            }
            yield_now();
        }
    }
}

impl Gate for PairGate {
    fn enter(&self, task: u32) {
        if task == AWAITED {
            self.entered.store(true, Ordering::SeqCst);
        }
        if task == HELD {
            self.hold();
        }
    }

    fn leave(&self, _task: u32) {}
}
