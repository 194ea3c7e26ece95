//! Why a signature is refused.

ghost use Rattle.std.specs.Prelude.{◌≡◌};
ghost use Rattle.jl_sig.specs.declared.fault.SigFault.TheVariants.{Memory};

use std::alloc::AllocError;
use thiserror::Error;

/// Why a signature is refused (Julia manual, Methods: Parametric Methods). Where several causes stand together, the one
/// that stands first here is given.
#[derive(Clone, Copy, Debug, Drop, PartialEq, Eq, Error)]
pub enum SigFault {
    /// A variable stands in a union or tuple below a nominal type, or in a bound where it may not: an upper bound with variables is
    /// a nominal type over variables that are declared before, beside the lower bound `Union{}`.
    #[error("VariablePlace")]
    VariablePlace,
    /// A variable has no place.
    #[error("UnusedVariable")]
    UnusedVariable,
    /// There are more than 8 parameters.
    #[error("TooManyParameters")]
    TooManyParameters,
    /// A nominal type in it has another number of arguments than declared.
    #[error("WrongParameterCount")]
    WrongParameterCount,
    /// It has more than 1,024 nodes in sum, a part of more than 256 raw alternatives, a bound or an argument without variables
    /// whose normal form has more than 1,024 nodes, or more than 256 rows.
    #[error("TypeLimit")]
    TypeLimit,
    /// A low bound is not below its high bound.
    #[error("BoundsCrossed")]
    BoundsCrossed,
    /// An argument without variables is outside the declared bounds.
    #[error("BoundBroken")]
    BoundBroken,
    /// Memory was refused.
    #[error("out of memory")]
    Memory,
}

impl From<AllocError> for SigFault {
    ghost from_gives = { λ _ fault. fault ≡ Memory };

    fn from(_error: AllocError) -> SigFault {
        SigFault::Memory
    }
}
