//! Lists that code works on in place, which contracts see as lists.

mod rest;
mod row;
mod stack;

pub use rest::{Rest, Share};
pub use row::Row;
pub use stack::Stack;
