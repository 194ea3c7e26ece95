//! Concrete types that are below a signature are below every signature above it.
#![tactic(auto)]

pub mod laws;
