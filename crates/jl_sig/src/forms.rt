//! The bounds and arguments of a signature in normal form, and whether they are in order.

ghost use Rattle.std.specs.Prelude.{◌≡◌, ◌++◌, ◌∷◌, [], ◌↔◌, false, IsTrue, OnOk, IfOk, Err, length};
ghost use Rattle.std.specs.List.{Contains};
ghost use Rattle.jl_model.specs.Ancestors.{table_of};
ghost use Rattle.jl_model.specs.Signature.{Both};
ghost use Rattle.jl_model.specs.Valid.{is_closed};
ghost use Rattle.jl_model.specs.SigRefusals.{are_bounds, named_form};
ghost use Rattle.jl_model.specs.declared.ty.Ty.TheViews.{out-Ty};
ghost use Rattle.jl_types.specs.Form.{IsTooLarge};
ghost use Rattle.jl_model.specs.Refusals.{bound_types, Between};
ghost use Rattle.jl_types.specs.Ground.{IsGround};
ghost use Rattle.jl_types.specs.declared.normal_form.NormFault.TheVariants.{TypeLimit};
ghost use Rattle.jl_sig.specs.declared.arguments.Argument.{Argument as Arg};
ghost use Rattle.jl_sig.specs.Parts.{given, all_given};
ghost use Rattle.jl_sig.specs.Fit.{IsFit, AllFit};
ghost use Rattle.jl_sig.specs.Forms.{IsBoundForm, HasTooLarge, AreFormed, HasTooLargeGiven, AreKnown, HasCrossed, AllGround, declared_bound, HasOutside};

use crate::arguments::Argument;
use crate::keep::keep;
use jl_model::ty::{Bound, Bounds, Ty};
use jl_types::closed::is_closed;
use jl_types::{NormFault, Table, ground_sub, normal};
use std::alloc::{AllocError, Global};

/// The bounds of a signature or of a type in a body, and its arguments without variables, in normal form.
#[derive(Drop)]
pub struct Forms {
    pub bounds: Bounds,
    pub arguments: Vec<Argument>,
}

/// Adds a bound.
pub(crate) fn push_bound(bounds: &mut Vec<Bound>, bound: Bound) -> Result<(), AllocError>
    ensures { OnOk result (bounds.new.items ≡ bounds.old.items ++ bound ∷ []) }
{
    bounds.push(bound)?;
    Ok(())
}

/// Adds an argument.
fn push_argument(arguments: &mut Vec<Argument>, argument: Argument) -> Result<(), AllocError>
    ensures { OnOk result (arguments.new.items ≡ arguments.old.items ++ argument ∷ []) }
{
    arguments.push(argument)?;
    Ok(())
}

/// The normal form of an upper bound. One with variables, as any type with variables, is not measured by its normal form: it stays as
/// written, with its arguments in normal form.
fn normal_high(alloc: Global, table: &Table, high: &Ty) -> Result<Ty, NormFault>
    requires fit { IsFit table.now high.now }
    requires named { is_closed high.now ≡ false → IsTrue (named_form (out-Ty high.now)) }
    ensures form { IfOk result (λ u. IsBoundForm table.now high.now u) }
    ensures limit { result ≡ Err TypeLimit → IsTrue (is_closed high.now) × IsTooLarge table.now high.now }
{
    if is_closed(high) {
        let form = normal(alloc, table, high)?;
        return Ok(form);
    }
    table.valid();
    let kept = keep(alloc, table, high)?;
    Ok(kept)
}

/// The bounds in normal form; of one with variables its arguments so.
pub fn normal_bounds(alloc: Global, table: &Table, bounds: &[Bound]) -> Result<Bounds, NormFault>
    requires fit { AllFit table.now (bound_types bounds.now) }
    requires placed { IsTrue (are_bounds (length bounds.now) 0 bounds.now) }
    ensures forms { IfOk result (λ cs. Both (IsBoundForm table.now) (bound_types bounds.now) (bound_types cs)) }
    ensures limit { result ≡ Err TypeLimit → HasTooLarge table.now (bound_types bounds.now) }
{
    let mut forms = Vec::new(alloc);
    for bound in bounds {
        let low = normal(alloc, table, &bound.low)?;
        let high = normal_high(alloc, table, &bound.high)?;
        push_bound(&mut forms, Bound { low, high })?;
    }
    Ok(Bounds::from_vec(alloc, forms)?)
}

/// The arguments without variables, in normal form.
pub fn normal_arguments(
    alloc: Global,
    table: &Table,
    arguments: &[Argument],
) -> Result<Vec<Argument>, NormFault>
    requires { AreKnown table.now (all_given arguments.now) }
    ensures forms { IfOk result (λ fs. AreFormed table.now (all_given arguments.now) (all_given fs.items)) }
    ensures limit { result ≡ Err TypeLimit → HasTooLargeGiven table.now (all_given arguments.now) }
{
    let mut forms = Vec::new(alloc);
    for argument in arguments {
        if is_closed(&argument.ty) {
            let ty = normal(alloc, table, &argument.ty)?;
            let of = argument.of;
            let place = argument.place;
            push_argument(&mut forms, Argument { of, place, ty })?;
        }
    }
    Ok(forms)
}

/// Whether a low bound is not below its high bound. The bounds are normal forms, and the low one beside a high one with variables is
/// `Union{}`.
pub fn have_crossed(table: &Table, bounds: &[Bound]) -> bool
    requires { AllGround table.now bounds.now }
    ensures { IsTrue result ↔ HasCrossed table.now bounds.now }
{
    for bound in bounds {
        if !ground_sub(table, &bound.low, &bound.high) {
            return true;
        }
    }
    false
}

/// Whether an argument is between the declared bounds. It is a normal form.
fn is_between(table: &Table, argument: &Argument) -> bool
    requires { IsGround table.now argument.now.ty }
    ensures { IsTrue result ↔ Between (table_of table.now) (declared_bound table.now (given argument.now)) argument.now.ty }
{
    table.valid();
    if argument.of >= table.count() {
        return true;
    }
    let bounds = table.decl(argument.of).params.as_slice();
    if argument.place >= bounds.len() {
        return true;
    }
    let bound = &bounds[argument.place];
    ground_sub(table, &bound.low, &argument.ty) && ground_sub(table, &argument.ty, &bound.high)
}

/// Whether one of these is outside the declared bounds. They are normal forms.
pub fn have_outside(table: &Table, arguments: &[Argument]) -> bool
    requires { (a : Arg) → Contains arguments.now a → IsGround table.now a.ty }
    ensures { IsTrue result ↔ HasOutside table.now (all_given arguments.now) }
{
    for argument in arguments {
        if !is_between(table, argument) {
            return true;
        }
    }
    false
}
