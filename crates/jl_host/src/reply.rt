//! What an operation answers.

/// A number, a truth value, or that a division has no quotient.
#[derive(Clone, Copy, PartialEq, Eq, Debug)]
pub enum OpReply {
    Int(i64),
    Bool(bool),
    DivideError,
}
