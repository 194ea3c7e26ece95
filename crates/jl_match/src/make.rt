//! The refusals of a signature, in their order.

ghost use Rattle.std.specs.Prelude.{◌≡◌, Err, MatchResult};
ghost use Rattle.jl_sig.specs.Prepared.{HasOwnVariables, IsSigOf};
ghost use Rattle.std.specs.Prelude.{IsTrue, length};
ghost use Rattle.std.specs.List.{list_all};
ghost use Rattle.jl_model.specs.Valid.{is_known};
ghost use Rattle.jl_model.specs.SigRefusals.{types_in, VariablePlace, IsAllowedSig};
ghost use Rattle.jl_match.specs.SigRefused.{SigRefused, IsMade};
ghost use Rattle.jl_sig.specs.declared.fault.SigFault.TheVariants as fault;

use crate::check::check_writing;
use jl_model::ty::Written;
use jl_sig::forms::{have_crossed, have_outside};
use jl_sig::{Prepared, Sig, SigFault, prepare};
use jl_types::{NormFault, Table};
use std::alloc::Global;

/// A signature with what the walks over it need, or its first refusal by the order of `SigFault` (Julia manual, Methods:
/// Parametric Methods). It may name only types of the table and its own variables. A variable in a wrong place is refused before
/// any memory is taken.
pub fn make_sig(alloc: Global, table: &Table, written: &Written) -> Result<Sig, SigFault>
    requires own { HasOwnVariables written.now }
    requires known { IsTrue (list_all (is_known (length table.now)) (types_in written.now)) }
    ensures placed { VariablePlace written.now → result ≡ Err fault.VariablePlace }
    ensures made { MatchResult result (λ sig. IsMade table.now written.now sig) (λ fault. SigRefused fault table.now written.now) }
{
    table.valid();
    check_writing(alloc, table, written)?;
    let prepared = match prepare(alloc, table, written) {
        Ok(prepared) => prepared,
        Err(NormFault::TypeLimit) => return Err(SigFault::TypeLimit),
        Err(NormFault::Memory) => return Err(SigFault::Memory),
    };
    if have_crossed(table, prepared.sig.bounds()) {
        return Err(SigFault::BoundsCrossed);
    }
    if have_outside(table, prepared.arguments.as_slice()) {
        return Err(SigFault::BoundBroken);
    }
    Ok(prepared.sig)
}
