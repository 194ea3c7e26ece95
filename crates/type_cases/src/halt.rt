//! Why a question has no answer.

use jl_norm::DeclareFault;
use jl_sig::SigFault;
use jl_types::NormFault;
use std::alloc::{AllocError, AllocFailed};
use std::fmt;

/// Why a question has no answer.
#[derive(Clone, Copy, Drop)]
pub enum Halt {
    /// A declaration is refused.
    Declaration(DeclareFault),
    /// A signature, or a type in a body, is refused.
    Signature(SigFault),
    /// A type has no normal form.
    Form(NormFault),
    /// A type names what the table has not, or a variable that is not there.
    Unknown,
    /// A type of an argument is not concrete.
    Abstract,
    /// The line is no question.
    Unread,
    /// Memory was refused.
    Memory,
}

impl From<AllocError> for Halt {
    fn from(_error: AllocError) -> Halt {
        Halt::Memory
    }
}

impl<T: Drop> From<AllocFailed<T>> for Halt {
    fn from(_error: AllocFailed<T>) -> Halt {
        Halt::Memory
    }
}

impl From<DeclareFault> for Halt {
    fn from(fault: DeclareFault) -> Halt {
        Halt::Declaration(fault)
    }
}

impl From<SigFault> for Halt {
    fn from(fault: SigFault) -> Halt {
        Halt::Signature(fault)
    }
}

impl From<NormFault> for Halt {
    fn from(fault: NormFault) -> Halt {
        Halt::Form(fault)
    }
}

impl fmt::Display for Halt {
    fn fmt<W: fmt::Write>(&self, f: &mut fmt::Formatter<W>) -> fmt::Result {
        match self {
            Halt::Declaration(fault) => write!(f, "{fault}"),
            Halt::Signature(fault) => write!(f, "{fault}"),
            Halt::Form(NormFault::TypeLimit) => write!(f, "TypeLimit"),
            Halt::Form(NormFault::Memory) => write!(f, "out of memory"),
            Halt::Unknown => write!(f, "an unknown name"),
            Halt::Abstract => write!(f, "not concrete"),
            Halt::Unread => write!(f, "no question"),
            Halt::Memory => write!(f, "out of memory"),
        }
    }
}
