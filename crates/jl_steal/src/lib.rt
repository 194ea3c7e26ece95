//! The run of a program's tasks by workers that steal from one another: its history is legal, whatever the schedule.
#![tactic(auto)]

mod camp;
mod deque;
mod member;
mod run;

pub use deque::{Local, Log, Thief};
pub use run::steal_tasks;
