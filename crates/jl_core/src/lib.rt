//! The model of a run: all that several tasks do to what they share, one step at a time and in any order. What is shown of it
//! holds of every schedule, whatever the machine, the book and the words are.
#![tactic(auto)]

mod enabled;
mod events;
mod keys;
pub mod laws;
mod mention;
mod picked;
mod range;
mod seen;
mod standing;
mod state;
mod step;
mod task;
mod trace;
mod words;

pub use state::Core;
