//! Why a text is no text of a history.

ghost use Rattle.std.specs.Prelude.{◌≡◌};
ghost use Rattle.jl_history.specs.declared.fault.HistoryFault.TheVariants.{Memory};

use std::alloc::AllocError;

/// Why no entries were read.
#[derive(Clone, Copy, PartialEq, Eq, Debug)]
pub enum HistoryFault {
    /// The first line that is not of the form, is cut or is missing. Lines are counted from 1.
    BadText(u32),
    /// Memory ran out.
    Memory,
}

impl From<AllocError> for HistoryFault {
    ghost from_gives = { λ _ e. e ≡ Memory };

    fn from(_: AllocError) -> HistoryFault {
        HistoryFault::Memory
    }
}
