//! What the operations on values answer, over a program that is ready to be run: tuples and constructors, fields and parts, and
//! the questions `===`, `isa` and `<:` (Julia manual, Types; Constructors; Essentials). Each answer is the one that the rules of
//! the language tell.
#![tactic(auto)]

mod broken;
mod explicit;
mod identity;
mod inferred;
pub mod laws;
mod memo;
mod outcomes;
mod parts;
mod plain;
mod prepared;
mod questions;
mod statics;
mod structs;
mod tuples;
mod values;
mod written;

pub use identity::test_same;
pub use inferred::make_inferred;
pub use memo::Memo;
pub use parts::{find_field, get_field, get_part};
pub use plain::make_plain;
pub use structs::make_struct;
pub use tuples::make_tuple;
