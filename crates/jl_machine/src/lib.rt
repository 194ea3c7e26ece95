//! The evaluator: a machine that runs one task turn by turn, with stacks of its own, and asks a dispatcher for all that
//! other tasks may change.
#![tactic(auto)]

mod acts;
mod alone;
mod host;
pub mod laws;
mod machine;
mod now;
mod numbers;
mod task;
mod turns;

pub use now::{LentNow, LentWork};
pub use task::{Machine, Task, Turn};
