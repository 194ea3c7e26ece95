//! The refusals of a type in a body, in their order.

ghost use Rattle.std.specs.Prelude.{◌≡◌, IsTrue, MatchResult, length};
ghost use Rattle.std.specs.List.{list_all};
ghost use Rattle.jl_model.specs.Valid.{is_known};
ghost use Rattle.jl_model.specs.SigRefusals.{types_in};
ghost use Rattle.jl_program.specs.BodyTypes.{IsAllowedType, without_statics};
ghost use Rattle.jl_body.specs.TypeRefused.{TypeRefused};

use crate::forms::small_forms;
use crate::statics::without_statics;
use jl_match::names::are_counted;
use jl_match::places::are_placed;
use jl_model::limits::MOST_ARGUMENTS;
use jl_model::ty::Written;
use jl_sig::forms::{have_crossed, have_outside};
use jl_sig::types::types_in;
use jl_sig::{SigFault, has_unused};
use jl_types::{NormFault, Table};
use std::alloc::Global;

/// Whether a type is allowed, or its first refusal by the order of `SigFault`; `plain` is the type without static parameters.
fn check_beside(
    alloc: Global,
    table: &Table,
    written: &Written,
    plain: &Written,
) -> Result<(), SigFault>
    requires plain { plain.now ≡ without_statics written.now }
    requires known { IsTrue (list_all (is_known (length table.now)) (types_in written.now)) }
    ensures { MatchResult result (λ _. IsAllowedType table.now written.now) (λ fault. TypeRefused fault table.now written.now) }
{
    table.valid();
    if !are_placed(plain) {
        return Err(SigFault::VariablePlace);
    }
    let unused = has_unused(alloc, written)?;
    if unused {
        return Err(SigFault::UnusedVariable);
    }
    if written.parts.len() > MOST_ARGUMENTS {
        return Err(SigFault::TooManyParameters);
    }
    let types = types_in(alloc, written)?;
    if !are_counted(table, types.as_slice()) {
        return Err(SigFault::WrongParameterCount);
    }
    let forms = match small_forms(alloc, table, written, plain, types.as_slice()) {
        Ok(forms) => forms,
        Err(NormFault::TypeLimit) => return Err(SigFault::TypeLimit),
        Err(NormFault::Memory) => return Err(SigFault::Memory),
    };
    if have_crossed(table, forms.bounds.as_slice()) {
        return Err(SigFault::BoundsCrossed);
    }
    if have_outside(table, forms.arguments.as_slice()) {
        return Err(SigFault::BoundBroken);
    }
    Ok(())
}

/// Whether a type that is written in a body is allowed, or its first refusal by the order of `SigFault` (Julia manual, Methods:
/// Parametric Methods). A variable whose number is the count of the type's own variables or more is a static parameter: it
/// stands for any type, so it may stand at any place outside the bounds, and what is asked of types without variables is not
/// asked of those with it. In a bound it counts as a variable that is declared before those of the type. The type may name only
/// types of the table.
pub fn check_type(alloc: Global, table: &Table, written: &Written) -> Result<(), SigFault>
    requires known { IsTrue (list_all (is_known (length table.now)) (types_in written.now)) }
    ensures { MatchResult result (λ _. IsAllowedType table.now written.now) (λ fault. TypeRefused fault table.now written.now) }
{
    let plain = without_statics(alloc, written)?;
    check_beside(alloc, table, written, &plain)
}
