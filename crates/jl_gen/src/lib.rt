//! Generated scripts, by their numbers: a way to make large inputs.
//!
//! The number tells how many types a script declares, how many tasks it starts, and how many definitions each of them makes.
#![tactic(auto)]

mod lines;
mod numbers;
mod script;

pub use numbers::{MOST_NUMBER, ROUND_COUNTS, TASK_COUNTS, TYPE_COUNTS};
pub use script::script_of;
