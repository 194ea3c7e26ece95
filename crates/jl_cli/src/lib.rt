//! The top call: from a command line's words and the bytes of a source to what the command writes.
#![tactic(auto)]

mod answering;
mod judging;
pub mod laws;
mod split;
pub mod status_laws;
mod top;
mod verdicts;
mod work;

pub use top::{Ended, run};
