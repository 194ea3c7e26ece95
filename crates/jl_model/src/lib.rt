//! Types, and the definitions of subtyping, matching and choice. Everything else stands on this crate.
#![tactic(auto)]

pub mod builtin;
pub mod limits;
pub mod rows;
pub mod shared;
pub mod ty;
