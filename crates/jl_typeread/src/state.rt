//! Where the reading of a type, or of variables, is.

use crate::deep::{Deep, Mark};
use crate::tree::{ArgText, TypeText, VarText};
use jl_model::rows::{Row, Stack};
use jl_model::ty::Bytes;

/// A type that was read: a name, behind which braces may follow, or a type that nothing can follow.
#[derive(Drop)]
pub enum TypeSoFar {
    Plain(u32, Bytes),
    Whole(Deep<TypeText>),
}

/// What of a variable stands before the type that is being read.
#[derive(Drop)]
pub enum Bound {
    /// Nothing: the type may also be the variable's name.
    First,
    /// The name and `<:`.
    Below(u32, Bytes),
    /// The name and `>:`.
    Above(u32, Bytes),
    /// A type, `<:`, the name and `<:`.
    Between(Deep<TypeText>, u32, Bytes),
}

/// The variables before the one that is being read.
#[derive(Drop)]
pub enum Enclosure {
    /// It stands alone, without braces.
    One,
    /// Those in the same braces.
    Braces(Deep<Row<VarText>>),
}

/// A form that is open, with what was read of it.
#[derive(Drop)]
pub enum Frame {
    /// A name and `{`, the arguments that have ended, and the mark before the next.
    Argument(u32, Bytes, Deep<Row<ArgText>>, Mark),
    /// `(`
    Paren(u32),
    /// `(`, a type and `where`.
    Where(u32, Deep<TypeText>),
    /// A variable, and those before it.
    Variable(Bound, Enclosure),
}

/// What was read last, and so what may follow.
#[derive(Drop)]
pub enum Point {
    /// A type must follow.
    Want,
    /// A variable must follow: its name or its lower bound.
    Variable,
    /// `{` behind a name: an argument or `}` must follow.
    First,
    /// A comma between arguments: an argument must follow.
    Next,
    /// A type.
    Have(TypeSoFar),
    /// `where`: a variable or `{` must follow.
    Where,
    /// In a variable, a type and `<:`: a name must follow.
    Low(Deep<TypeText>),
    /// In a variable, a type, `<:` and a name: `<:` must follow.
    Named(Deep<TypeText>, u32, Bytes),
    /// The `}` of variables.
    Closed(Deep<Row<VarText>>),
}

/// The state of a reading.
#[derive(Drop)]
pub struct State {
    pub point: Point,
    pub stack: Stack<Frame>,
}

/// What a token is to a state, which is changed where it is.
#[derive(Drop)]
pub enum Taken {
    /// The token belongs to what is read.
    Goes,
    /// It does not; a whole type stands before it.
    Type(Deep<TypeText>),
    /// It does not; whole variables stand before it.
    Variables(Deep<Row<VarText>>),
    /// It is wrong.
    Wrong,
}

/// The same with the state behind the token, for contracts.
#[derive(Drop)]
pub enum Turn {
    Goes(State),
    Type(Deep<TypeText>),
    Variables(Deep<Row<VarText>>),
    Wrong,
}
