//! Structs are made of a type that is written without arguments: it is its own normal form, and nothing has to be prepared.

ghost use Rattle.std.specs.Prelude.{◌≡◌, ◌∷◌, [], ℕ, IfOk, MatchOption, map};
ghost use Rattle.jl_model.specs.Ancestors.{named};
ghost use Rattle.jl_program.specs.Meaning.{datum};
ghost use Rattle.jl_program.specs.Scope.{all_types};
ghost use Rattle.jl_program.specs.ValidValue.{AllValid, IsStructType};
ghost use Rattle.jl_calculus.specs.declared.history.Outcome.TheVariants as O;
ghost use Rattle.jl_calculus.specs.Operations.{make_struct, make_written};
ghost use Rattle.jl_calculus.specs.ValidHistory.{IsValidValue};
ghost use Rattle.jl_operations.specs.Conditions.{IsMadeIn};

use crate::values::list_of;
use jl_model::ty::{Ty, Written};
use jl_program::value::Value;
use jl_sig::Ready;
use jl_value::{MakeFault, construct};
use std::alloc::{AllocError, Global};

/// The type, where it is a nominal type without arguments.
fn without_arguments(ty: &Ty) -> Option<&Ty>
    ensures { MatchOption result (Unit {0}) (λ t. (k : ℕ) × (ty.now ≡ named k) × (t.now ≡ named k)) }
{
    match ty {
        Ty::Nominal(_, arguments) => {
            if arguments.len() > 0 {
                return None;
            }
            Some(ty)
        }
        _ => None,
    }
}

/// The nominal type without arguments that a written type is.
fn plain_type(written: &Written) -> Option<&Ty>
    ensures { MatchOption result (Unit {0}) (λ t. (k : ℕ) × (written.now.parts ≡ named k ∷ []) × (t.now ≡ named k)) }
{
    match written.parts.as_slice() {
        [ty] => match without_arguments(ty) {
            Some(plain) => Some(plain),
            None => None,
        },
        _ => None,
    }
}

/// A struct of this type, which is a normal form, where it can be made.
fn make_of_plain(
    alloc: Global,
    ready: &Ready,
    ty: &Ty,
    values: &[Value],
) -> Result<Option<Value>, AllocError>
    requires struct_type { IsStructType (all_types ready.now) ty.now }
    requires values { AllValid (all_types ready.now) (map datum values.now) }
    ensures answer { IfOk result (λ made. MatchOption made (Unit {0}) (λ v. make_struct (all_types ready.now) ty.now values.now (O.Value v))) }
    ensures valid { IfOk result (λ made. MatchOption made (Unit {0}) (λ v. IsValidValue ready.now v)) }
{
    let table = ready.table();
    let parts = list_of(alloc, values)?;
    match construct(alloc, table, ty, parts) {
        Ok(value) => Ok(Some(value)),
        Err(MakeFault::Memory) => Err(AllocError),
        Err(_) => Ok(None),
    }
}

/// `written(values..)`, where the type is written without arguments and the struct can be made: the case that comes most often. Nothing is
/// told otherwise; then `make_written` of a memo answers.
pub fn make_plain(
    alloc: Global,
    ready: &Ready,
    statics: &[Ty],
    written: &Written,
    values: &[Value],
) -> Result<Option<Value>, AllocError>
    requires written { IsMadeIn ready.now statics.now written.now }
    requires values { AllValid (all_types ready.now) (map datum values.now) }
    ensures answer { IfOk result (λ made. MatchOption made (Unit {0}) (λ v. make_written (all_types ready.now) statics.now written.now values.now (O.Value v))) }
    ensures valid { IfOk result (λ made. MatchOption made (Unit {0}) (λ v. IsValidValue ready.now v)) }
{
    ready.valid();
    match plain_type(written) {
        Some(ty) => make_of_plain(alloc, ready, ty, values),
        None => Ok(None),
    }
}
