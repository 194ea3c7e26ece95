//! Laws of the static faults of a script, row by row of their table.
#![tactic(auto)]

pub mod laws;
