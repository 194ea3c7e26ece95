//! Why a text is no type.

ghost use Rattle.std.specs.Prelude.{◌≡◌};
ghost use Rattle.jl_typeread.specs.declared.fault.TypeFault.TheVariants.{Memory};

use std::alloc::{AllocError, AllocFailed};
use thiserror::Error;

/// Why no type was read.
#[derive(Clone, Copy, Debug, Drop, PartialEq, Eq, Error)]
pub enum TypeFault {
    /// The offset in bytes of the first token that no type allows.
    #[error("BadType")]
    BadType(u32),
    /// A type that is deeper than the limit, and the number of the token behind it.
    #[error("TooDeep")]
    TooDeep(usize),
    /// Memory ran out.
    #[error("out of memory")]
    Memory,
}

impl From<AllocError> for TypeFault {
    ghost from_gives = { λ _ e. e ≡ Memory };

    fn from(_e: AllocError) -> TypeFault {
        TypeFault::Memory
    }
}

impl<T: Drop> From<AllocFailed<T>> for TypeFault {
    ghost from_gives = { λ _ e. e ≡ Memory };

    fn from(_e: AllocFailed<T>) -> TypeFault {
        TypeFault::Memory
    }
}
