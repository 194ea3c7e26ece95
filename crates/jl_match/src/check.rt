//! Whether a signature is refused, where the signature itself is not needed.

ghost use Rattle.std.specs.Prelude.{◌≡◌, Err, MatchResult, IsTrue, length};
ghost use Rattle.std.specs.List.{list_all};
ghost use Rattle.jl_model.specs.Valid.{is_known};
ghost use Rattle.jl_model.specs.SigRefusals.{types_in, VariablePlace, IsAllowedSig};
ghost use Rattle.jl_sig.specs.Prepared.{HasOwnVariables};
ghost use Rattle.jl_sig.specs.declared.fault.SigFault.TheVariants as fault;
ghost use Rattle.jl_match.specs.SigRefused.{SigRefused, IsWellWritten};

use crate::names::are_counted;
use crate::places::are_placed;
use jl_model::limits::MOST_ARGUMENTS;
use jl_model::ty::Written;
use jl_sig::forms::{have_crossed, have_outside};
use jl_sig::types::types_in;
use jl_sig::{SigFault, has_unused, measure};
use jl_types::{NormFault, Table};
use std::alloc::Global;

/// The first refusal of a signature by how it is written. A variable in a wrong place is refused before any memory is taken.
pub(crate) fn check_writing(alloc: Global, table: &Table, written: &Written) -> Result<(), SigFault>
    ensures placed { VariablePlace written.now → result ≡ Err fault.VariablePlace }
    ensures checked { MatchResult result (λ _. IsWellWritten table.now written.now) (λ fault. SigRefused fault table.now written.now) }
{
    if !are_placed(written) {
        return Err(SigFault::VariablePlace);
    }
    let unused = has_unused(alloc, written)?;
    if unused {
        return Err(SigFault::UnusedVariable);
    }
    if written.parts.len() > MOST_ARGUMENTS {
        return Err(SigFault::TooManyParameters);
    }
    let types = types_in(alloc, written)?;
    if !are_counted(table, types.as_slice()) {
        return Err(SigFault::WrongParameterCount);
    }
    Ok(())
}

/// The first refusal of a signature by the order of `SigFault`, as `make_sig` has it, where no signature and no row is made.
pub fn check_sig(alloc: Global, table: &Table, written: &Written) -> Result<(), SigFault>
    requires own { HasOwnVariables written.now }
    requires known { IsTrue (list_all (is_known (length table.now)) (types_in written.now)) }
    ensures { MatchResult result (λ _. IsAllowedSig table.now written.now) (λ fault. SigRefused fault table.now written.now) }
{
    table.valid();
    check_writing(alloc, table, written)?;
    let forms = match measure(alloc, table, written) {
        Ok(forms) => forms,
        Err(NormFault::TypeLimit) => return Err(SigFault::TypeLimit),
        Err(NormFault::Memory) => return Err(SigFault::Memory),
    };
    if have_crossed(table, forms.bounds.as_slice()) {
        return Err(SigFault::BoundsCrossed);
    }
    if have_outside(table, forms.arguments.as_slice()) {
        return Err(SigFault::BoundBroken);
    }
    Ok(())
}
