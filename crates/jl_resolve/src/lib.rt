//! From a script to a valid program, or to the first of its static faults.
#![tactic(auto)]

pub mod fault;
pub mod laws;
mod meaning;

pub use fault::{StaticFault, StaticKind};
pub use meaning::{check_script, program};
