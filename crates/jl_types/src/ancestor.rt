//! What the table keeps for each type.

use jl_model::rows::Row;
use jl_model::ty::{Decl, Tys};

/// A type or one of its ancestors, with its arguments over the parameters of that type.
#[derive(Drop)]
pub struct Ancestor {
    pub name: u32,
    pub args: Tys,
}

/// A declaration and its line: the type itself and its ancestors, the nearest first.
#[derive(Drop)]
pub struct Entry {
    pub decl: Decl,
    pub line: Row<Ancestor>,
}
