//! Why a script is no program.

ghost use Rattle.std.specs.Prelude.{◌≡◌};
ghost use Rattle.jl_resolve.specs.declared.fault.StaticFault.TheVariants.{Memory};

pub use jl_written::fault::StaticKind;
use std::alloc::AllocError;
use thiserror::Error;

/// Why a script is no program: its first static fault, by its name and the offset in bytes where it stands.
#[derive(Clone, Copy, Debug, Drop, PartialEq, Eq, Error)]
pub enum StaticFault {
    #[error("{kind}")]
    At { kind: StaticKind, at: u32 },
    /// Memory was refused.
    #[error("out of memory")]
    Memory,
}

impl From<AllocError> for StaticFault {
    ghost from_gives = { λ _ fault. fault ≡ Memory };

    fn from(_error: AllocError) -> StaticFault {
        StaticFault::Memory
    }
}
