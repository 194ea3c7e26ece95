//! The second round of a judge of histories: each task is led along the trace that the history tells of it, and what it does
//! is compared.
#![tactic(auto)]

pub mod laws;
pub mod lead;
pub mod led;
mod next;
pub mod past;
