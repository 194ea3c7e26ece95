//! The static faults of a script.

use thiserror::Error;

/// The static faults by their names.
#[derive(Clone, Copy, PartialEq, Eq, Debug, Drop, Error)]
pub enum StaticKind {
    #[error("UnknownName")]
    UnknownName,
    #[error("UnknownFunction")]
    UnknownFunction,
    #[error("UnknownType")]
    UnknownType,
    #[error("Rebound")]
    Rebound,
    #[error("DuplicateType")]
    DuplicateType,
    #[error("WrongParameterCount")]
    WrongParameterCount,
    #[error("SuperNotAbstract")]
    SuperNotAbstract,
    #[error("VariablePlace")]
    VariablePlace,
    #[error("TypeLimit")]
    TypeLimit,
    #[error("BoundsCrossed")]
    BoundsCrossed,
    #[error("BoundBroken")]
    BoundBroken,
    #[error("TooMany")]
    TooMany,
    #[error("DuplicateField")]
    DuplicateField,
    #[error("UnusedVariable")]
    UnusedVariable,
    #[error("TooManyParameters")]
    TooManyParameters,
    #[error("TooManySites")]
    TooManySites,
    #[error("StaticParameterUse")]
    StaticParameterUse,
    #[error("NameClash")]
    NameClash,
    #[error("TooManyArguments")]
    TooManyArguments,
    #[error("BadType")]
    BadType,
}

/// A static fault, and the offset in bytes where it stands.
#[derive(Clone, Copy, PartialEq, Eq, Debug)]
pub struct Fault {
    pub at: u32,
    pub kind: StaticKind,
}
