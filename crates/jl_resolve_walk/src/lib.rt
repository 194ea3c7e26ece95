//! The walk over the tree of a script: what its parts become, and the program.
#![tactic(auto)]

pub mod assembly;
pub mod beginning;
pub mod expressions;
pub mod program;
pub mod top;
