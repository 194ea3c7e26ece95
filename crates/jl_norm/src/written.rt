//! The refusals that a declaration shows as it is written.

ghost use Rattle.std.specs.Prelude.{MatchOption};
ghost use Rattle.jl_model.specs.Refusals.{DuplicateType};
ghost use Rattle.jl_norm.specs.Refused.{IsWellWritten, Refused};

use crate::counted::is_counted_decl;
use crate::fault::DeclareFault;
use crate::known::is_known_decl;
use crate::parent::is_abstract_parent;
use crate::places::is_placed_decl;
use jl_model::ty::Decl;
use jl_types::Table;

/// The first refusal by the types, the parent and the places in a declaration whose name no earlier type has.
pub fn written_fault(table: &Table, decl: &Decl) -> Option<DeclareFault>
    requires { DuplicateType table.now decl.now → ⊥ }
    ensures { MatchOption result (IsWellWritten table.now decl.now) (λ fault. Refused fault table.now decl.now) }
{
    if !is_known_decl(table, decl) {
        return Some(DeclareFault::UnknownType);
    }
    if !is_counted_decl(table, decl) {
        return Some(DeclareFault::WrongParameterCount);
    }
    if !is_abstract_parent(table, decl) {
        return Some(DeclareFault::SuperNotAbstract);
    }
    if !is_placed_decl(table, decl) {
        return Some(DeclareFault::VariablePlace);
    }
    None
}
