//! Laws of the declarations and of the program of a script.
#![tactic(auto)]

pub mod laws;
