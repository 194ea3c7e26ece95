//! Why a declaration is refused.

ghost use Rattle.std.specs.Prelude.{◌≡◌};
ghost use Rattle.jl_norm.specs.declared.fault.DeclareFault.TheVariants.{Memory};

use std::alloc::AllocError;
use thiserror::Error;

/// Why a declaration is refused (Julia manual, Types). Where several causes stand together, the one that stands first here
/// is given.
#[derive(Clone, Copy, Debug, Drop, PartialEq, Eq, Error)]
pub enum DeclareFault {
    /// An earlier type has its name.
    #[error("DuplicateType")]
    DuplicateType,
    /// A type in it is not declared before, and is not the new struct itself in a field.
    #[error("UnknownType")]
    UnknownType,
    /// A nominal type in it has another number of arguments than declared.
    #[error("WrongParameterCount")]
    WrongParameterCount,
    /// Its parent is neither `Any` nor abstract.
    #[error("SuperNotAbstract")]
    SuperNotAbstract,
    /// A variable stands in a bound or in a union or tuple inside the parent, or a variable or the new type itself in a union
    /// or tuple under an argument in a field.
    #[error("VariablePlace")]
    VariablePlace,
    /// A type in it or an ancestor is too large, as written or as kept, or a normal form of a bound or of an argument
    /// without variables is.
    #[error("TypeLimit")]
    TypeLimit,
    /// A low bound is not below its high bound.
    #[error("BoundsCrossed")]
    BoundsCrossed,
    /// An argument without variables is outside the declared bounds.
    #[error("BoundBroken")]
    BoundBroken,
    /// It is one type too many, or has too many parameters, fields or ancestors.
    #[error("TooMany")]
    TooMany,
    /// Two fields have one name.
    #[error("DuplicateField")]
    DuplicateField,
    /// Memory was refused.
    #[error("out of memory")]
    Memory,
}

impl From<AllocError> for DeclareFault {
    ghost from_gives = { λ _ fault. fault ≡ Memory };

    fn from(_error: AllocError) -> DeclareFault {
        DeclareFault::Memory
    }
}
