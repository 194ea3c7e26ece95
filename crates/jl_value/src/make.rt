//! Tuples and structs are made.

ghost use Rattle.std.specs.Prelude.{◌≡◌, ◌≤◌, ◌<◌, ◌^◌, IfOk, IfErr, OnOk, OnErr, Err, length, map};
ghost use Rattle.jl_model.specs.Counts.{nodes};
ghost use Rattle.jl_model.specs.Kept.{field_types};
ghost use Rattle.jl_model.specs.Subtype.{put, at};
ghost use Rattle.jl_program.specs.Meaning.{datum};
ghost use Rattle.jl_program.specs.Measures.{IsWithinLimits};
ghost use Rattle.jl_program.specs.ValidValue.{IsValid, AllValid, IsStructType, AreOf, tuple_type, fields_in};
ghost use Rattle.jl_value.specs.Fields.{AreFieldTypes, AreArguments};
ghost use Rattle.jl_program.specs.Making.{tuple_of, struct_of, IsTooLarge};
ghost use Rattle.jl_value.specs.Answers.{TupleCause, OtherCause, PartsCause, StructCause};
ghost use Rattle.jl_value.specs.declared.made.MakeFault.TheVariants.{FieldCount, ValueLimit};

use crate::field::is_of;
use crate::kept::type_of;
use crate::made::MakeFault;
use jl_model::limits::{MOST_TYPE_NODES, MOST_VALUE_DEPTH, MOST_VALUE_NODES};
use jl_model::shared::SharedNode;
use jl_model::ty::{Field, Ty, Tys};
use jl_program::value::{Compound, Value, Values};
use jl_types::Table;
use jl_types::count::nodes_within;
use std::alloc::{AllocError, Global};

/// The type of a tuple of these parts. No more of their types is visited than the limit allows.
fn type_of_tuple(alloc: Global, table: &Table, parts: &[Value]) -> Result<Ty, MakeFault>
    ensures made { IfOk result (λ t. t ≡ tuple_type (map datum parts.now)) }
    ensures small { IfOk result (λ t. nodes t ≤ MOST_TYPE_NODES) }
    ensures fault { IfErr result (TupleCause (map datum parts.now)) }
{
    let mut count = 1;
    let mut types = Vec::new(alloc);
    for part in parts {
        let ty = type_of(table, part);
        count += nodes_within(ty, MOST_TYPE_NODES - count);
        if count > MOST_TYPE_NODES {
            return Err(MakeFault::TypeLimit);
        }
        types.push(ty.copy()?)?;
    }
    Ok(Ty::Tuple(Tys::from_vec(alloc, types)?))
}

/// The value, where it is within the limits.
fn within_limits(value: Value) -> Result<Value, MakeFault>
    ensures same { IfOk result (λ v. v ≡ value) }
    ensures within { OnOk result (IsWithinLimits (datum value)) }
    ensures fault { IfErr result (λ f. f ≡ ValueLimit) }
    ensures beyond { OnErr result (IsTooLarge value) }
{
    if value.nodes() > MOST_VALUE_NODES || value.depth() > MOST_VALUE_DEPTH {
        return Err(MakeFault::ValueLimit);
    }
    Ok(value)
}

/// The tuple of these parts, with its type. It costs the number of the parts and one pass over their types. Where it is
/// refused the parts are dropped.
pub fn tuple(alloc: Global, table: &Table, parts: Values) -> Result<Value, MakeFault>
    requires parts_valid { AllValid table.now parts }
    ensures made { IfOk result (λ v. v ≡ tuple_of parts) }
    ensures valid { IfOk result (λ v. IsValid table.now (datum v)) }
    ensures fault { IfErr result (TupleCause parts) }
{
    table.valid();
    let ty = type_of_tuple(alloc, table, parts.as_slice())?;
    let made = SharedNode::new(alloc, Compound { ty, parts })?;
    within_limits(Value::Tuple(made))
}

/// Tests each part for its field's type.
fn check_fields(
    alloc: Global,
    table: &Table,
    fields: &[Field],
    args: &[Ty],
    parts: &[Value],
) -> Result<(), MakeFault>
    requires whole { length parts.now ≡ length fields.now }
    requires few { length fields.now < 2 ^ 32 }
    requires fields_kept { AreFieldTypes table.now (field_types fields.now) }
    requires args_ground { AreArguments table.now args.now }
    requires parts_valid { AllValid table.now (map datum parts.now) }
    ensures all { OnOk result (AreOf table.now (map datum parts.now) (map (put (at args.now)) (field_types fields.now))) }
    ensures fault { IfErr result (OtherCause table.now (map datum parts.now) (map (put (at args.now)) (field_types fields.now))) }
{
    table.valid();
    for (i, field) in fields.iter().enumerate() {
        let ty = type_of(table, &parts[i]);
        if !is_of(alloc, table, ty, &field.ty, args)? {
            return Err(MakeFault::FieldType(i as u32));
        }
    }
    Ok(())
}

/// Tests that there is a part for each field of a struct type, of that field's type.
fn check_parts(alloc: Global, table: &Table, ty: &Ty, parts: &[Value]) -> Result<(), MakeFault>
    requires struct_type { IsStructType table.now ty.now }
    requires parts_valid { AllValid table.now (map datum parts.now) }
    ensures all { OnOk result (AreOf table.now (map datum parts.now) (fields_in table.now ty.now)) }
    ensures count { (length (map datum parts.now) ≡ length (fields_in table.now ty.now) → ⊥) → result ≡ Err FieldCount }
    ensures fault { IfErr result (PartsCause table.now (map datum parts.now) (fields_in table.now ty.now)) }
{
    table.valid();
    match ty {
        Ty::Nominal(name, args) => {
            let fields = table.decl(*name).fields.as_slice();
            if fields.len() != parts.len() {
                return Err(MakeFault::FieldCount);
            }
            check_fields(alloc, table, fields, args.as_slice(), parts)
        }
        _ => unreachable!(),
    }
}

/// The struct of this type with these parts. It costs the number of the parts and one pass over their types. Where it is
/// refused the parts are dropped. A wrong number of parts is refused before any memory is taken. That the type keeps to its
/// declared bounds is not asked.
pub fn construct(alloc: Global, table: &Table, ty: &Ty, parts: Values) -> Result<Value, MakeFault>
    requires struct_type { IsStructType table.now ty.now }
    requires parts_valid { AllValid table.now parts }
    ensures made { IfOk result (λ v. v ≡ struct_of ty.now parts) }
    ensures valid { IfOk result (λ v. IsValid table.now (datum v)) }
    ensures count { (length parts ≡ length (fields_in table.now ty.now) → ⊥) → result ≡ Err FieldCount }
    ensures fault { IfErr result (StructCause table.now ty.now parts) }
{
    check_parts(alloc, table, ty, parts.as_slice())?;
    let ty = ty.copy()?;
    let made = SharedNode::new(alloc, Compound { ty, parts })?;
    within_limits(Value::Struct(made))
}
