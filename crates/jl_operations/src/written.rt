//! Written types of bodies as signatures.

ghost use Rattle.std.specs.Prelude.{◌≡◌, IsTrue, false, IfOk, MatchOption};
ghost use Rattle.jl_operations.specs.Bodies.{IsBodySig, IsKeptAs};
ghost use Rattle.jl_operations.specs.declared.written.Kept.TheVariants as K;
ghost use Rattle.jl_sig.specs.declared.sig.Sig.{Sig as SigValue};

use jl_match::{Sig, SigFault, make_sig};
use jl_model::shared::SharedNode;
use jl_model::ty::Written;
use jl_types::Table;
use std::alloc::{AllocError, Global};

/// What becomes of a written type of a body, with the static parameters put in.
#[derive(Drop)]
pub enum Kept {
    /// The signature.
    Sig(SharedNode<Sig>),
    /// It is too large.
    TooLarge,
    /// An argument without variables is outside the declared bounds.
    Broken,
}

/// The signature of a written type, with the static parameters put in, or its refusal. Only these two can come.
pub fn keep(alloc: Global, table: &Table, written: &Written) -> Result<Kept, AllocError>
    requires { IsBodySig table.now written.now }
    ensures { IfOk result (λ kept. IsKeptAs table.now written.now kept) }
{
    match make_sig(alloc, table, written) {
        Ok(sig) => {
            let sig = SharedNode::new(alloc, sig)?;
            Ok(Kept::Sig(sig))
        }
        Err(SigFault::TypeLimit) => Ok(Kept::TooLarge),
        Err(SigFault::BoundBroken) => Ok(Kept::Broken),
        Err(SigFault::Memory) => Err(AllocError),
        Err(_) => unreachable!(),
    }
}

impl Kept {
    /// The same, whose signature is shared.
    pub(crate) fn copy(&self) -> Result<Kept, AllocError>
        ensures { IfOk result (λ copy. copy ≡ self.now) }
    {
        match self {
            Kept::Sig(sig) => Ok(Kept::Sig(sig.copy()?)),
            Kept::TooLarge => Ok(Kept::TooLarge),
            Kept::Broken => Ok(Kept::Broken),
        }
    }

    /// Whether the type is too large.
    pub fn is_too_large(&self) -> bool
        ensures large { IsTrue result → self.now ≡ K.TooLarge }
        ensures small { result ≡ false → self.now ≡ K.TooLarge → ⊥ }
    {
        match self {
            Kept::Sig(_) => false,
            Kept::TooLarge => true,
            Kept::Broken => false,
        }
    }

    /// The signature, if there is one.
    pub fn sig(&self) -> Option<&Sig>
        ensures { MatchOption result ((g : SigValue) → self.now ≡ K.Sig g → ⊥) (λ sig. self.now ≡ K.Sig sig.now) }
    {
        match self {
            Kept::Sig(sig) => Some(sig.get()),
            Kept::TooLarge => None,
            Kept::Broken => None,
        }
    }
}
