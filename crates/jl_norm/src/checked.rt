//! The refusals of a declaration behind that of its name, up to that of its arguments, in their order.

ghost use Rattle.std.specs.Prelude.{MatchResult};
ghost use Rattle.jl_model.specs.Refusals.{DuplicateType};
ghost use Rattle.jl_norm.specs.Refused.{IsBounded, Refused};

use crate::fault::DeclareFault;
use crate::kept::{is_crossed, kept};
use crate::written::written_fault;
use jl_model::ty::Decl;
use jl_types::Table;
use std::alloc::Global;

/// What a declaration whose name no earlier type has is kept as, or the first refusal by its types, its parent, its places, its
/// size or its bounds.
pub fn checked(alloc: Global, table: &Table, decl: &Decl) -> Result<Decl, DeclareFault>
    requires { DuplicateType table.now decl.now → ⊥ }
    ensures { MatchResult result (λ e. IsBounded table.now decl.now e) (λ fault. Refused fault table.now decl.now) }
{
    if let Some(fault) = written_fault(table, decl) {
        return Err(fault);
    }
    let kept = match kept(alloc, table, decl) {
        Ok(kept) => kept,
        Err(fault) => return Err(fault),
    };
    if is_crossed(table, decl, &kept.decl) {
        return Err(DeclareFault::BoundsCrossed);
    }
    if kept.is_broken {
        return Err(DeclareFault::BoundBroken);
    }
    Ok(kept.decl)
}
