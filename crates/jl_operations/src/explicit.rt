//! Structs of a written type are made (Julia manual, Constructors: Parametric Constructors).

ghost use Rattle.std.specs.Prelude.{IfOk, map};
ghost use Rattle.jl_program.specs.Meaning.{datum};
ghost use Rattle.jl_program.specs.Scope.{all_types};
ghost use Rattle.jl_program.specs.ValidValue.{AllValid};
ghost use Rattle.jl_calculus.specs.ValidHistory.{IsValidOutcome};
ghost use Rattle.jl_operations.specs.Bodies.{IsBodySig, IsKeptAs};
ghost use Rattle.jl_operations.specs.Constructed.{IsConstructed, IsOneConstructed, form_of, made_of};

use crate::questions::broken_type;
use crate::structs::make_struct;
use crate::written::Kept;
use jl_calculus::history::Outcome;
use jl_model::ty::{Ty, Written};
use jl_norm::{NormFault, norm};
use jl_program::fault::Fault;
use jl_program::value::Value;
use jl_sig::Ready;
use std::alloc::{AllocError, Global};

/// A struct of the normal form of a type.
fn make_form(alloc: Global, ready: &Ready, ty: &Ty, values: &[Value]) -> Result<Outcome, AllocError>
    requires ty { IsConstructed (all_types ready.now) ty.now }
    requires values { AllValid (all_types ready.now) (map datum values.now) }
    ensures answer { IfOk result (λ o. form_of (all_types ready.now) ty.now values.now o) }
    ensures valid { IfOk result (λ o. IsValidOutcome ready.now o) }
{
    ready.valid();
    match norm(alloc, ready.table(), ty) {
        Ok(form) => make_struct(alloc, ready, &form, values),
        Err(NormFault::TypeLimit) => Ok(Outcome::Error(Fault::TypeLimit)),
        Err(NormFault::Memory) => Err(AllocError),
    }
}

/// A struct of a written type with its static parameters put in, of which this was kept.
pub(crate) fn make_kept(
    alloc: Global,
    ready: &Ready,
    written: &Written,
    kept: &Kept,
    values: &[Value],
) -> Result<Outcome, AllocError>
    requires written { IsBodySig (all_types ready.now) written.now }
    requires kept { IsKeptAs (all_types ready.now) written.now kept.now }
    requires parts { IsOneConstructed (all_types ready.now) written.now.parts }
    requires values { AllValid (all_types ready.now) (map datum values.now) }
    ensures answer { IfOk result (λ o. made_of (all_types ready.now) written.now values.now o) }
    ensures valid { IfOk result (λ o. IsValidOutcome ready.now o) }
{
    if kept.is_too_large() {
        return Ok(Outcome::Error(Fault::TypeLimit));
    }
    match kept.sig() {
        Some(_) => make_form(alloc, ready, &written.parts.as_slice()[0], values),
        None => {
            let fault = broken_type(alloc, ready.table(), written)?;
            Ok(Outcome::Error(fault))
        }
    }
}
