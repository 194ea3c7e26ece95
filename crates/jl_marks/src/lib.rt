//! What the grammar of scripts sees of tokens: the newlines that are none dropped, and the marks that choose between rules.
#![tactic(auto)]

pub mod marks;
pub mod newlines;
pub mod scan;
pub mod tokens;
