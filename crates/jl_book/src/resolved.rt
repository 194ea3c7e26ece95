//! What the book answers where the cache had no row.

use jl_program::choice::Choice;

/// What became of a row for a choice: one was linked, with this number; one covers the world already; the choice is no method; or all
/// rows are in use.
#[derive(Clone, Copy, PartialEq, Eq, Debug)]
pub enum RowMade {
    Linked(u32),
    Covered,
    NoMethod,
    RowsFull,
}

/// A choice, and what became of a row for it.
#[derive(Clone, Copy, PartialEq, Eq, Debug)]
pub struct Resolved {
    pub choice: Choice,
    pub row: RowMade,
}
