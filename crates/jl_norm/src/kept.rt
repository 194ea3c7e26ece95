//! What a declaration is kept as, within the limits of a type, and whether its bounds are crossed or broken.

ghost use Rattle.std.specs.Prelude.{IsTrue, ◌↔◌, MatchResult};
ghost use Rattle.jl_model.specs.Kept.{IsKept};
ghost use Rattle.jl_model.specs.Refusals.{table_with, BoundsCrossed};
ghost use Rattle.jl_norm.specs.Refused.{IsWellWritten, IsKeptSized, IsKeptTold, Refused};

use crate::arguments::is_broken;
use crate::fault::DeclareFault;
use crate::keep::keep;
use crate::sizes::is_sized;
use jl_model::ty::Decl;
use jl_types::{NormFault, Table, ground_sub};
use std::alloc::Global;

/// What a declaration is kept as, and whether one of its arguments is outside the declared bounds.
#[derive(Drop)]
pub struct KeptDecl {
    pub decl: Decl,
    pub is_broken: bool,
}

/// What a well written declaration is kept as. `TypeLimit` comes where a type in it or an ancestor is too large, as written or
/// as kept.
fn kept_sized(alloc: Global, table: &Table, decl: &Decl) -> Result<Decl, DeclareFault>
    requires { IsWellWritten table.now decl.now }
    ensures { MatchResult result (λ e. IsKeptSized table.now decl.now e) (λ fault. Refused fault table.now decl.now) }
{
    table.valid();
    if !is_sized(alloc, table, decl)? {
        return Err(DeclareFault::TypeLimit);
    }
    let kept = match keep(alloc, table, decl) {
        Ok(kept) => kept,
        Err(NormFault::TypeLimit) => return Err(DeclareFault::TypeLimit),
        Err(NormFault::Memory) => return Err(DeclareFault::Memory),
    };
    if !is_sized(alloc, table, &kept)? {
        return Err(DeclareFault::TypeLimit);
    }
    Ok(kept)
}

/// What a well written declaration is kept as. `TypeLimit` comes exactly where a type in it or an ancestor is too large, as
/// written or as kept, or a normal form is of a bound or of an argument without variables.
pub fn kept(alloc: Global, table: &Table, decl: &Decl) -> Result<KeptDecl, DeclareFault>
    requires { IsWellWritten table.now decl.now }
    ensures { MatchResult result (λ kept. IsKeptTold table.now decl.now kept.decl kept.is_broken) (λ fault. Refused fault table.now decl.now) }
{
    table.valid();
    let kept = match kept_sized(alloc, table, decl) {
        Ok(kept) => kept,
        Err(fault) => return Err(fault),
    };
    match is_broken(alloc, table, decl, &kept) {
        Ok(is_broken) => Ok(KeptDecl {
            decl: kept,
            is_broken,
        }),
        Err(NormFault::TypeLimit) => Err(DeclareFault::TypeLimit),
        Err(NormFault::Memory) => Err(DeclareFault::Memory),
    }
}

/// Whether a low bound is not below its high bound, by what the declaration is kept as.
pub fn is_crossed(table: &Table, decl: &Decl, kept: &Decl) -> bool
    requires written { IsWellWritten table.now decl.now }
    requires is_kept { IsKept (table_with table.now decl.now) decl.now kept.now }
    ensures { IsTrue result ↔ BoundsCrossed table.now decl.now }
{
    table.valid();
    for bound in kept.params.as_slice() {
        if !ground_sub(table, &bound.low, &bound.high) {
            return true;
        }
    }
    false
}
