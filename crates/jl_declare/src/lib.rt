//! The declarations of a script.
#![tactic(auto)]

mod copies;
pub mod declarations;
mod judged;
pub mod known;
pub mod laws;
mod read;
pub mod state;
