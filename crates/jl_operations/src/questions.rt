//! Whether a value is of a type, and whether a type is below another (Julia manual, Types; Essentials: `isa`, `<:`).

ghost use Rattle.std.specs.Prelude.{◌≡◌, ◌++◌, ◌⊎◌, IfOk, OnOk};
ghost use Rattle.jl_model.specs.Refusals.{bound_types};
ghost use Rattle.jl_model.specs.SigRefusals.{TypeLimit, BoundBroken};
ghost use Rattle.jl_program.specs.Scope.{all_types};
ghost use Rattle.jl_sig.specs.SigParts.{written_of};
ghost use Rattle.jl_match.specs.SigRefused.{IsMade};
ghost use Rattle.jl_calculus.specs.Statics.{nominals_of, is_bad_parameter};
ghost use Rattle.jl_calculus.specs.ValidHistory.{IsValidValue, IsValidOutcome};
ghost use Rattle.jl_operations.specs.Bodies.{IsBodySig, IsKeptAs};
ghost use Rattle.jl_operations.specs.Broken.{IsNamed};
ghost use Rattle.jl_operations.specs.Questions.{isa_of, order_of};

use crate::broken::bad_parameter;
use crate::outcomes::truth;
use crate::written::Kept;
use jl_calculus::history::Outcome;
use jl_match::{Sig, applies};
use jl_model::ty::{Bound, Ty, Written};
use jl_program::fault::Fault;
use jl_program::value::Value;
use jl_sig::Ready;
use jl_subsig::sig_sub;
use jl_types::Table;
use jl_value::type_of;
use std::alloc::{AllocError, Global};

/// Adds these types.
fn push_types(types: &mut Vec<Ty>, more: &[Ty]) -> Result<(), AllocError>
    ensures { OnOk result (types.new.items ≡ types.old.items ++ more.now) }
{
    for ty in more {
        types.push(ty.copy()?)?;
    }
    Ok(())
}

/// Adds the types of these bounds.
fn push_bounds(types: &mut Vec<Ty>, bounds: &[Bound]) -> Result<(), AllocError>
    ensures { OnOk result (types.new.items ≡ types.old.items ++ bound_types bounds.now) }
{
    for bound in bounds {
        types.push(bound.low.copy()?)?;
        types.push(bound.high.copy()?)?;
    }
    Ok(())
}

/// Adds the types of a signature, those in its parts before those in its bounds.
fn push_parts(types: &mut Vec<Ty>, written: &Written) -> Result<(), AllocError>
    ensures { OnOk result (types.new.items ≡ types.old.items ++ (written.now.parts ++ bound_types written.now.vars)) }
{
    push_types(types, written.parts.as_slice())?;
    push_bounds(types, written.vars.as_slice())?;
    Ok(())
}

/// The fault of a type that breaks a declared bound.
pub fn broken_type(alloc: Global, table: &Table, written: &Written) -> Result<Fault, AllocError>
    requires body { IsBodySig table.now written.now }
    requires small { TypeLimit table.now written.now → ⊥ }
    requires broken { BoundBroken table.now written.now }
    ensures fault { IfOk result (λ fault. is_bad_parameter table.now (nominals_of written.now) fault) }
    ensures named { IfOk result (λ fault. IsNamed table.now fault) }
{
    table.valid();
    let mut types = Vec::new(alloc);
    push_parts(&mut types, written)?;
    let fault = bad_parameter(alloc, table, types.as_slice())?;
    Ok(fault)
}

/// The fault of two types of which one breaks a declared bound.
fn broken_pair(
    alloc: Global,
    table: &Table,
    left: &Written,
    right: &Written,
) -> Result<Fault, AllocError>
    requires left { IsBodySig table.now left.now }
    requires right { IsBodySig table.now right.now }
    requires left_small { TypeLimit table.now left.now → ⊥ }
    requires right_small { TypeLimit table.now right.now → ⊥ }
    requires broken { BoundBroken table.now left.now ⊎ BoundBroken table.now right.now }
    ensures fault { IfOk result (λ fault. is_bad_parameter table.now (nominals_of left.now ++ nominals_of right.now) fault) }
    ensures named { IfOk result (λ fault. IsNamed table.now fault) }
{
    table.valid();
    let mut types = Vec::new(alloc);
    push_parts(&mut types, left)?;
    push_parts(&mut types, right)?;
    let fault = bad_parameter(alloc, table, types.as_slice())?;
    Ok(fault)
}

/// `value isa t`, where the signature is that of the type `t` with its static parameters put in. A type without static parameters has
/// one signature at all times, which can be kept.
fn test_type_by(
    alloc: Global,
    ready: &Ready,
    sig: &Sig,
    value: &Value,
) -> Result<Outcome, AllocError>
    requires sig { IsMade (all_types ready.now) (written_of sig.now) sig.now }
    requires value { IsValidValue ready.now value.now }
    ensures answer { IfOk result (λ o. isa_of (all_types ready.now) value.now (written_of sig.now) o) }
    ensures valid { IfOk result (λ o. IsValidOutcome ready.now o) }
{
    ready.valid();
    let table = ready.table();
    let types = [type_of(table, value).copy()?];
    let found = applies(alloc, table, sig, types.as_slice())?;
    Ok(truth(found.is_some()))
}

/// `value isa written`, with the static parameters put in, of which this was kept.
pub(crate) fn type_kept(
    alloc: Global,
    ready: &Ready,
    value: &Value,
    written: &Written,
    kept: &Kept,
) -> Result<Outcome, AllocError>
    requires written { IsBodySig (all_types ready.now) written.now }
    requires kept { IsKeptAs (all_types ready.now) written.now kept.now }
    requires value { IsValidValue ready.now value.now }
    ensures answer { IfOk result (λ o. isa_of (all_types ready.now) value.now written.now o) }
    ensures valid { IfOk result (λ o. IsValidOutcome ready.now o) }
{
    if kept.is_too_large() {
        return Ok(Outcome::Error(Fault::TypeLimit));
    }
    match kept.sig() {
        Some(sig) => test_type_by(alloc, ready, sig, value),
        None => {
            let fault = broken_type(alloc, ready.table(), written)?;
            Ok(Outcome::Error(fault))
        }
    }
}

/// `t <: u`, where the signatures are those of the types with their static parameters put in.
fn test_order_by(
    alloc: Global,
    ready: &Ready,
    left: &Sig,
    right: &Sig,
) -> Result<Outcome, AllocError>
    requires left { IsMade (all_types ready.now) (written_of left.now) left.now }
    requires right { IsMade (all_types ready.now) (written_of right.now) right.now }
    ensures answer { IfOk result (λ o. order_of (all_types ready.now) (written_of left.now) (written_of right.now) o) }
    ensures valid { IfOk result (λ o. IsValidOutcome ready.now o) }
{
    let below = sig_sub(alloc, ready.table(), left, right)?;
    Ok(truth(below))
}

/// `left <: right`, where one of the types breaks a declared bound.
fn order_broken(
    alloc: Global,
    ready: &Ready,
    left: &Written,
    right: &Written,
) -> Result<Outcome, AllocError>
    requires left { IsBodySig (all_types ready.now) left.now }
    requires right { IsBodySig (all_types ready.now) right.now }
    requires left_small { TypeLimit (all_types ready.now) left.now → ⊥ }
    requires right_small { TypeLimit (all_types ready.now) right.now → ⊥ }
    requires broken { BoundBroken (all_types ready.now) left.now ⊎ BoundBroken (all_types ready.now) right.now }
    ensures answer { IfOk result (λ o. order_of (all_types ready.now) left.now right.now o) }
    ensures valid { IfOk result (λ o. IsValidOutcome ready.now o) }
{
    let fault = broken_pair(alloc, ready.table(), left, right)?;
    Ok(Outcome::Error(fault))
}

/// `left <: right`, with the static parameters put in, of which this was kept.
pub(crate) fn order_kept(
    alloc: Global,
    ready: &Ready,
    left: &Written,
    left_kept: &Kept,
    right: &Written,
    right_kept: &Kept,
) -> Result<Outcome, AllocError>
    requires left { IsBodySig (all_types ready.now) left.now }
    requires left_kept { IsKeptAs (all_types ready.now) left.now left_kept.now }
    requires right { IsBodySig (all_types ready.now) right.now }
    requires right_kept { IsKeptAs (all_types ready.now) right.now right_kept.now }
    ensures answer { IfOk result (λ o. order_of (all_types ready.now) left.now right.now o) }
    ensures valid { IfOk result (λ o. IsValidOutcome ready.now o) }
{
    if left_kept.is_too_large() {
        return Ok(Outcome::Error(Fault::TypeLimit));
    }
    if right_kept.is_too_large() {
        return Ok(Outcome::Error(Fault::TypeLimit));
    }
    match left_kept.sig() {
        Some(left_sig) => match right_kept.sig() {
            Some(right_sig) => test_order_by(alloc, ready, left_sig, right_sig),
            None => order_broken(alloc, ready, left, right),
        },
        None => order_broken(alloc, ready, left, right),
    }
}
