//! That the program of a script without a static fault is valid.
#![tactic(auto)]

pub mod laws;
