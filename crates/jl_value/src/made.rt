//! Why a tuple or a struct is not made.

ghost use Rattle.std.specs.Prelude.{◌≡◌};
ghost use Rattle.jl_value.specs.declared.made.MakeFault.TheVariants.{Memory};

use std::alloc::{AllocError, AllocFailed};
use thiserror::Error;

/// Why a tuple or a struct is not made.
#[derive(Clone, Copy, Debug, Drop, PartialEq, Eq, Error)]
pub enum MakeFault {
    /// The type of the tuple would have more than 1,024 nodes.
    #[error("TypeLimit")]
    TypeLimit,
    /// There are not as many parts as the struct has fields.
    #[error("FieldCount")]
    FieldCount,
    /// The first part that is not of its field's type, from 0.
    #[error("FieldType")]
    FieldType(u32),
    /// The value would be more than 2,000 deep, or have more than 1,000,000 nodes.
    #[error("ValueLimit")]
    ValueLimit,
    /// Memory ran out.
    #[error("out of memory")]
    Memory,
}

impl From<AllocError> for MakeFault {
    ghost from_gives = { λ _ fault. fault ≡ Memory };

    fn from(_: AllocError) -> MakeFault {
        MakeFault::Memory
    }
}

impl<T: Drop> From<AllocFailed<T>> for MakeFault {
    ghost from_gives = { λ _ fault. fault ≡ Memory };

    fn from(_: AllocFailed<T>) -> MakeFault {
        MakeFault::Memory
    }
}
