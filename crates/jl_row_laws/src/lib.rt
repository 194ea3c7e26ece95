//! Laws of the static faults of a whole script, row by row of their table.
#![tactic(auto)]

pub mod laws;
