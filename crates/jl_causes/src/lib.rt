//! The first round of a judgement on the text of a history: the causes that can be told without a run, and which key of a program
//! the texts of a function's name and of a tuple of types name.
#![tactic(auto)]

mod cause;
mod finished;
mod first;
mod judge;
mod key;
mod key_laws;
mod key_types;
pub mod laws;
mod lists;
mod note;
mod places;
mod rows;
mod standing;
mod tasks;
mod trace;
mod type_text;

pub use cause::Cause;
pub use first::first_cause;
pub use key::read_key;
pub use key_laws::{law_keys_apart, law_types_are_read};
