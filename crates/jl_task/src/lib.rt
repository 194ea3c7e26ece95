//! A task as its run has it: the points that it comes by, what it asks while it runs and of whom, and when what it did fits the answers.
//!
//! A machine that runs a task never makes a value of a point: it keeps its frames in a form of its own, and its contracts say which point it is
//! at. `Cached` is a dispatcher that remembers the methods that another one chose, and finds them again by the values of a call, with no key.
#![tactic(auto)]

mod cached;
pub mod dispatcher;
mod numbers;
pub mod point;
mod table;

pub use cached::Cached;
pub use dispatcher::{Dispatcher, Recall, Recalled};
