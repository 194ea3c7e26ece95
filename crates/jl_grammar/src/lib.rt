//! The grammar of scripts: their trees, and a machine that reads them token by token, as a definition.
#![tactic(auto)]

pub mod held;
pub mod laws;
pub mod mark;
pub mod owned;
pub mod state;
pub mod tree;
