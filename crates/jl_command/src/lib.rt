//! The words of the command line, read by `clap`.
//!
//! [`command`] answers the command that a list of words is, exactly by the rule of `specs/Rule`. `clap` knows more than that rule, as
//! `--` and words that are no digits, so each word's form is tested first.
#![tactic(auto)]

mod app;
mod commands;
mod forms;
mod read;
mod values;

pub use commands::Command;
pub use forms::MOST_DIGITS;
pub use read::{WordsFault, command};
