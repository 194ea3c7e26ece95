//! The tokens of a script: what text spells which token, and the first fault of a text that spells none.
#![tactic(auto)]

mod characters;
mod comments;
mod known;
mod numbers;
mod operators;
mod pieces;
mod prefix;
mod source;
mod strings;
pub mod token;
mod words;

pub use source::{line_tokens, tokens};
pub use words::may_be_reserved;
