//! Structs whose type is inferred from their parts are made (Julia manual, Constructors: Parametric Constructors).

ghost use Rattle.std.specs.Prelude.{◌≡◌, ◌∷◌, [], ◌↔◌, IsTrue, IfOk, map};
ghost use Rattle.jl_model.specs.declared.ty.Ty.TheViews as V;
ghost use Rattle.jl_model.specs.SigRefusals.{BoundBroken};
ghost use Rattle.jl_program.specs.Meaning.{datum};
ghost use Rattle.jl_program.specs.Prelude.{plain};
ghost use Rattle.jl_program.specs.Scope.{all_types};
ghost use Rattle.jl_program.specs.TypeOf.{type_of};
ghost use Rattle.jl_program.specs.ValidValue.{AllValid};
ghost use Rattle.jl_program.specs.declared.fault.Fault.TheVariants as F;
ghost use Rattle.jl_sig.specs.Readied.{HasFieldSig};
ghost use Rattle.jl_calculus.specs.Operations.{make_inferred};
ghost use Rattle.jl_calculus.specs.ValidHistory.{IsValidOutcome};
ghost use Rattle.jl_operations.specs.Conditions.{IsInferredIn};
ghost use Rattle.jl_operations.specs.Inferred.{AreInside, IsFoundType};

use crate::structs::{make_struct, no_constructor};
use crate::values::types_of;
use jl_calculus::history::Outcome;
use jl_match::{Sig, applies};
use jl_model::limits::MOST_TYPE_NODES;
use jl_model::ty::{Ty, Tys};
use jl_program::fault::Fault;
use jl_program::value::Value;
use jl_sig::Ready;
use jl_sig::arguments::arguments_in;
use jl_sig::forms::have_outside;
use jl_types::Table;
use jl_types::count::nodes_within;
use std::alloc::{AllocError, Global};

/// Whether an argument of a nominal type in this one is outside the declared bounds. The arguments are normal forms.
fn is_outside(alloc: Global, table: &Table, ty: &Ty) -> Result<bool, AllocError>
    requires { AreInside table.now ty.now }
    ensures { IfOk result (λ outside. IsTrue outside ↔ BoundBroken table.now (plain (ty.now ∷ []))) }
{
    let types = [ty.copy()?];
    let arguments = arguments_in(alloc, types.as_slice())?;
    Ok(have_outside(table, arguments.as_slice()))
}

/// The fault of an inferred constructor that takes no such arguments.
fn not_inferred(
    alloc: Global,
    table: &Table,
    name: u32,
    values: &[Value],
) -> Result<Fault, AllocError>
    ensures { IfOk result (λ fault. fault ≡ F.NoConstructor (V.Nominal name []) (map type_of values.now)) }
{
    let ty = Ty::Nominal(name, Tys::empty());
    let fault = no_constructor(alloc, table, &ty, values)?;
    Ok(fault)
}

/// A struct of the type that was inferred.
fn make_found(
    alloc: Global,
    ready: &Ready,
    name: u32,
    ty: &Ty,
    values: &[Value],
) -> Result<Outcome, AllocError>
    requires ty { IsFoundType ready.now name values.now ty.now }
    requires values { AllValid (all_types ready.now) (map datum values.now) }
    ensures answer { IfOk result (λ o. make_inferred (all_types ready.now) name values.now o) }
    ensures valid { IfOk result (λ o. IsValidOutcome ready.now o) }
{
    ready.valid();
    let table = ready.table();
    if is_outside(alloc, table, ty)? {
        let fault = not_inferred(alloc, table, name, values)?;
        return Ok(Outcome::Error(fault));
    }
    if nodes_within(ty, MOST_TYPE_NODES) > MOST_TYPE_NODES {
        return Ok(Outcome::Error(Fault::TypeLimit));
    }
    make_struct(alloc, ready, ty, values)
}

/// The same by the signature of the fields.
fn make_by(
    alloc: Global,
    ready: &Ready,
    name: u32,
    sig: &Sig,
    values: &[Value],
) -> Result<Outcome, AllocError>
    requires name { IsInferredIn ready.now name }
    requires sig { HasFieldSig ready.now name sig.now }
    requires values { AllValid (all_types ready.now) (map datum values.now) }
    ensures answer { IfOk result (λ o. make_inferred (all_types ready.now) name values.now o) }
    ensures valid { IfOk result (λ o. IsValidOutcome ready.now o) }
{
    ready.valid();
    let table = ready.table();
    let types = types_of(alloc, table, values)?;
    let found = applies(alloc, table, sig, types.as_slice())?;
    match found {
        Some(arguments) => {
            let ty = Ty::Nominal(name, arguments);
            make_found(alloc, ready, name, &ty, values)
        }
        None => {
            let fault = not_inferred(alloc, table, name, values)?;
            Ok(Outcome::Error(fault))
        }
    }
}

/// `name(values..)`, a constructor whose type is inferred from the types of the values. It answers `NoConstructor` where the types of
/// the fields do not admit the values, or the inferred type breaks a declared bound, else `TypeLimit` where that type is too
/// large, and else `ValueLimit` where the struct is. The signature of the fields is kept beside the program.
pub fn make_inferred(
    alloc: Global,
    ready: &Ready,
    name: u32,
    values: &[Value],
) -> Result<Outcome, AllocError>
    requires name { IsInferredIn ready.now name }
    requires values { AllValid (all_types ready.now) (map datum values.now) }
    ensures answer { IfOk result (λ o. make_inferred (all_types ready.now) name values.now o) }
    ensures valid { IfOk result (λ o. IsValidOutcome ready.now o) }
{
    match ready.fields(name) {
        Some(sig) => make_by(alloc, ready, name, sig, values),
        None => unreachable!(),
    }
}
