//! Types as they are written: what the grammars see of a token, the grammar of types, and its reader.
#![tactic(auto)]

pub mod deep;
pub mod entries;
pub mod fault;
mod read;
pub mod state;
pub mod terminal;
pub mod tree;
pub mod turns;
mod variables;

pub use read::{one_type, read_type};
