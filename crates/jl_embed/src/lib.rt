//! Sessions: a host program gives a script and methods of its own, adds definitions, and asks the script's functions.
#![tactic(auto)]

mod between;
mod cuts;
mod kept;
pub mod laws;
mod names;
mod numbers;
mod requests;
mod serving;
mod state;
mod texts;
mod top;

pub use between::{Between, lesser};
pub use state::Stored;
pub use top::{Closed, session};
