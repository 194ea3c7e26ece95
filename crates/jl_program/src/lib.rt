//! What a program is: its tree, its values, what may stand where in it, and how types, values and faults are written.
#![tactic(auto)]

pub mod choice;
pub mod datum;
pub mod env;
pub mod fault;
pub mod prelude;
pub mod tree;
pub mod value;
