//! The stacks of a task that runs: the frames that wait, with the values, the slots, the static parameters and the text that they keep, each
//! on a stack of its own. Nothing of the program's tree is copied or counted: a frame stands for a node of it by a reference.
//!
//! Contracts see the frames of the calculus, with lists of values.
#![tactic(auto)]

mod flat;
mod frames;
mod place;
mod scopes;
mod seen;
mod takes;
mod texts;
mod waits;

pub use flat::{Flat, Scope};
pub use frames::Frames;
