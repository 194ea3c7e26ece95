//! Structs are made (Julia manual, Constructors; Types: Parametric Composite Types).

ghost use Rattle.std.specs.Prelude.{◌≡◌, ◌<◌, ◌↔◌, IfOk, [], ◌∷◌, length, map, get_or};
ghost use Rattle.jl_model.specs.declared.ty.Ty.TheVariants as W;
ghost use Rattle.jl_program.specs.Meaning.{datum};
ghost use Rattle.jl_program.specs.Scope.{all_types};
ghost use Rattle.jl_program.specs.TypeOf.{type_of};
ghost use Rattle.jl_program.specs.ValidValue.{AllValid, IsStructType};
ghost use Rattle.jl_program.specs.declared.fault.Fault.TheVariants as F;
ghost use Rattle.jl_value.specs.Answers.{StructCause};
ghost use Rattle.jl_calculus.specs.declared.history.Outcome.TheVariants as O;
ghost use Rattle.jl_calculus.specs.Operations.{fields_at, make_struct};
ghost use Rattle.jl_calculus.specs.ValidHistory.{IsValidOutcome};

use crate::values::{list_of, types_of};
use jl_calculus::history::Outcome;
use jl_model::ty::{Ty, Tys};
use jl_program::fault::Fault;
use jl_program::value::Value;
use jl_sig::Ready;
use jl_types::Table;
use jl_value::{MakeFault, construct, type_of};
use std::alloc::{AllocError, Global};

/// The fault of a constructor that has another number of arguments, or takes no such arguments.
pub fn no_constructor(
    alloc: Global,
    table: &Table,
    ty: &Ty,
    values: &[Value],
) -> Result<Fault, AllocError>
    ensures { IfOk result (λ fault. fault ≡ F.NoConstructor ty.now (map type_of values.now)) }
{
    let types = types_of(alloc, table, values)?;
    let types = Tys::from_vec(alloc, types)?;
    let ty = ty.copy()?;
    Ok(Fault::NoConstructor(ty, types))
}

/// The fault of a struct whose part at this place, from 0, is not of its field's type.
fn field_fault(table: &Table, ty: &Ty, place: u32, values: &[Value]) -> Result<Fault, AllocError>
    requires struct_type { IsStructType table.now ty.now }
    requires field { place < length (fields_at table.now ty.now) }
    requires value { place < length values.now }
    ensures { IfOk result (λ fault. fault ≡ F.FieldType ty.now (get_or (map (λ f. f.name) (fields_at table.now ty.now)) place []) (get_or (map type_of values.now) place W.Any)) }
{
    match ty {
        Ty::Nominal(number, _) => {
            let field = &table.decl(*number).fields.as_slice()[place as usize];
            let name = field.name.copy()?;
            let got = type_of(table, &values[place as usize]).copy()?;
            let ty = ty.copy()?;
            Ok(Fault::FieldType(ty, name, got))
        }
        _ => unreachable!(),
    }
}

/// The fault of a struct that is not made for this cause. A tuple's cause and want of memory are none.
fn made_fault(
    alloc: Global,
    table: &Table,
    ty: &Ty,
    cause: MakeFault,
    values: &[Value],
) -> Result<Fault, AllocError>
    requires struct_type { IsStructType table.now ty.now }
    requires cause { StructCause table.now ty.now (map datum values.now) cause }
    ensures { IfOk result (λ fault. make_struct table.now ty.now values.now (O.Error fault)) }
{
    match cause {
        MakeFault::FieldCount => {
            let fault = no_constructor(alloc, table, ty, values)?;
            Ok(fault)
        }
        MakeFault::FieldType(place) => {
            let fault = field_fault(table, ty, place, values)?;
            Ok(fault)
        }
        MakeFault::ValueLimit => Ok(Fault::ValueLimit),
        MakeFault::Memory => Err(AllocError),
        MakeFault::TypeLimit => unreachable!(),
    }
}

/// A struct of this type, which is a normal form, with these values as its parts, which are shared. It answers `NoConstructor` where
/// there are not as many values as fields, else `FieldType` where one is not of its field's type, and else `ValueLimit` where
/// the struct is too large. The constructor of a type without static parameters has one normal form at all times, which can be kept.
pub fn make_struct(
    alloc: Global,
    ready: &Ready,
    ty: &Ty,
    values: &[Value],
) -> Result<Outcome, AllocError>
    requires struct_type { IsStructType (all_types ready.now) ty.now }
    requires values { AllValid (all_types ready.now) (map datum values.now) }
    ensures answer { IfOk result (λ o. make_struct (all_types ready.now) ty.now values.now o) }
    ensures valid { IfOk result (λ o. IsValidOutcome ready.now o) }
{
    ready.valid();
    let table = ready.table();
    let parts = list_of(alloc, values)?;
    match construct(alloc, table, ty, parts) {
        Ok(value) => Ok(Outcome::Value(value)),
        Err(cause) => {
            let fault = made_fault(alloc, table, ty, cause, values)?;
            Ok(Outcome::Error(fault))
        }
    }
}
