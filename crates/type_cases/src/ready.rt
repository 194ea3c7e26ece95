//! What the calls ask of what is handed to them: known types in normal form, concrete ones, and signatures that nothing refuses.

ghost use Rattle.std.specs.Prelude.{◌≡◌, IsTrue, IfOk, length};
ghost use Rattle.jl_model.specs.Valid.{is_known};
ghost use Rattle.jl_match.specs.KeptRow.{AreConcrete};
ghost use Rattle.jl_match.specs.SigRefused.{IsMade};

use crate::halt::Halt;
use jl_match::{is_concrete, is_well_named, make_sig};
use jl_model::shared::SharedNode;
use jl_model::ty::{Ty, Written};
use jl_norm::known::is_known;
use jl_norm::norm;
use jl_sig::Sig;
use jl_types::Table;
use jl_types::closed::is_closed;
use std::alloc::Global;

/// The normal form of a type.
pub fn form_of(alloc: Global, table: &Table, ty: &Ty) -> Result<Ty, Halt> {
    if !is_known(ty, u64::from(table.count())) {
        return Err(Halt::Unknown);
    }
    Ok(norm(alloc, table, ty)?)
}

/// The normal forms of concrete types.
pub fn arguments(alloc: Global, table: &Table, types: &[Ty]) -> Result<Vec<Ty>, Halt>
    ensures { IfOk result (λ found. AreConcrete table.now found.items) }
{
    let mut found = Vec::new(alloc);
    for ty in types {
        if !is_closed(ty) || !is_known(ty, u64::from(table.count())) {
            return Err(Halt::Unknown);
        }
        let form = norm(alloc, table, ty)?;
        if !is_concrete(table, &form) {
            return Err(Halt::Abstract);
        }
        found.push(form)?;
    }
    Ok(found)
}

/// A signature with what the calls need. It is handed out in a node, since each function that has one by value is longer to check.
pub fn made(alloc: Global, table: &Table, written: &Written) -> Result<SharedNode<Sig>, Halt>
    ensures { IfOk result (λ sig. IsMade table.now written.now sig) }
{
    if !is_well_named(table, written) {
        return Err(Halt::Unknown);
    }
    match make_sig(alloc, table, written) {
        Ok(sig) => Ok(SharedNode::new(alloc, sig)?),
        Err(fault) => Err(Halt::Signature(fault)),
    }
}
