//! The run of a program's tasks on threads: its history is legal, whatever the schedule.
#![tactic(auto)]

mod at_board;
mod job;
mod jobs;
mod keys;
mod known;
mod live;
mod run;
mod shared;
mod turns;
mod worker;

pub use job::{Job, New};
pub use jobs::Jobs;
pub use run::run_tasks;
pub use shared::Shared;
pub use worker::{Ran, work};
