//! What is known while the types of a signature, a body or a declaration are read.

use crate::fault::Fault;
use jl_model::rows::Row;
use jl_model::ty::{Bound, Bytes, Ty};

/// What a name means where a type must stand.
#[derive(Clone, Copy, PartialEq, Eq, Debug)]
pub enum Named {
    /// A visible type variable by its number, and whether it may stand here.
    Variable(u32, bool),
    Any,
    Union,
    Tuple,
    /// A nominal type by its number.
    Nominal(u32),
    Unknown,
}

/// A visible type variable: its name, its number in the signature or declaration, and whether it may stand here.
#[derive(Drop)]
pub struct TypeVar {
    pub name: Bytes,
    pub number: u32,
    pub usable: bool,
}

/// Which of the variables of the text a type sees, beside those that are declared before all of the text.
#[derive(Clone, Copy, PartialEq, Eq, Debug)]
pub enum Sight {
    /// Outside of bounds, all.
    All,
    /// In a bound, those from this place on.
    From(usize),
}

/// A variable that stands directly as an argument of a nominal type, and the upper bound that is declared for that
/// argument.
#[derive(Drop)]
pub struct Place {
    pub var: u32,
    pub high: Ty,
}

/// The variables that were read from `start` to `middle` are those of a `where`, and come after those that were read from
/// `middle` to `stop`, which the type in front of it brings.
#[derive(Clone, Copy, PartialEq, Eq, Debug)]
pub struct Swap {
    pub start: u32,
    pub middle: u32,
    pub stop: u32,
}

/// What is known behind a part of the text: the bounds of the variables so far, in the order in which they were read; the
/// places of variables, in text order; where the text has another order of variables; the first fault; whether some name
/// in a type is unknown; whether one is unknown or bound where it is visible; and whether a variable is brought in an
/// invariant place of another nominal type or in a bound.
#[derive(Drop)]
pub struct Reading {
    pub vars: Row<Bound>,
    pub places: Row<Place>,
    pub swaps: Row<Swap>,
    pub fault: Option<Fault>,
    pub unknown: bool,
    pub unclear: bool,
    pub misplaced: bool,
}
