//! Fields of structs and parts of tuples (Julia manual, Types: Composite Types, Tuple Types).

ghost use Rattle.std.specs.Prelude.{◌≡◌, IfOk, MatchOption, None, Some, map};
ghost use Rattle.jl_program.specs.Meaning.{datum};
ghost use Rattle.jl_program.specs.Names.{same_text};
ghost use Rattle.jl_program.specs.Scope.{all_types};
ghost use Rattle.jl_program.specs.ValidValue.{IsStructType, IsValid};
ghost use Rattle.jl_calculus.specs.declared.history.Outcome.TheVariants as O;
ghost use Rattle.jl_calculus.specs.Operations.{part_named, part_at, fields_at, field_value, part_value, field_of, part_of};
ghost use Rattle.jl_calculus.specs.ValidHistory.{IsValidValue, IsValidOutcome};

use jl_calculus::history::Outcome;
use jl_model::shared::SharedNode;
use jl_model::ty::{Bytes, Field, Ty};
use jl_program::fault::Fault;
use jl_program::value::{Compound, Value, parts_of};
use jl_sig::Ready;
use jl_types::Table;
use jl_value::type_of;
use std::alloc::AllocError;

/// Whether two texts are the same. Names are short, so that a loop costs less than the comparison of slices, which is a call.
#[inline(always)]
fn is_same(left: &[u8], right: &[u8]) -> bool
    ensures { result ≡ same_text left.now right.now }
{
    if left.len() != right.len() {
        return false;
    }
    for (i, byte) in left.iter().enumerate() {
        if *byte != right[i] {
            return false;
        }
    }
    true
}

/// The part at the first field of this name.
#[inline(always)]
fn part_named<'a>(name: &[u8], fields: &[Field], parts: &'a [Value]) -> Option<&'a Value>
    ensures { MatchOption result (part_named name.now fields.now (map datum parts.now) ≡ None) (λ v. part_named name.now fields.now (map datum parts.now) ≡ Some (datum v.now)) }
{
    for (i, field) in fields.iter().enumerate() {
        if i >= parts.len() {
            return None;
        }
        if is_same(name, field.name.as_slice()) {
            return Some(&parts[i]);
        }
    }
    None
}

/// The part of a struct at the field of a name.
fn made_field<'a>(table: &Table, name: &[u8], made: &'a SharedNode<Compound>) -> Option<&'a Value>
    requires { IsStructType table.now made.now.ty }
    ensures { MatchOption result (part_named name.now (fields_at table.now made.now.ty) made.now.parts ≡ None) (λ v. part_named name.now (fields_at table.now made.now.ty) made.now.parts ≡ Some (datum v.now)) }
{
    match &made.get().ty {
        Ty::Nominal(number, _) => {
            let fields = table.decl(*number).fields.as_slice();
            part_named(name, fields, parts_of(made))
        }
        _ => None,
    }
}

/// The part of a value at the field of a name.
fn field_of<'a>(table: &Table, name: &[u8], value: &'a Value) -> Option<&'a Value>
    requires { IsValid table.now (datum value.now) }
    ensures { MatchOption result (field_value table.now name.now value.now ≡ None) (λ v. field_value table.now name.now value.now ≡ Some (datum v.now)) }
{
    match value {
        Value::Struct(made) => made_field(table, name, made),
        _ => None,
    }
}

/// The part of a struct at the field of a name, where the table has its type.
#[inline(always)]
fn known_field<'a>(table: &Table, name: &[u8], made: &'a SharedNode<Compound>) -> Option<&'a Value>
    ensures { MatchOption result (Unit {0}) (λ v. part_named name.now (fields_at table.now made.now.ty) made.now.parts ≡ Some (datum v.now)) }
{
    match &made.get().ty {
        Ty::Nominal(number, _) => {
            if *number >= table.count() {
                return None;
            }
            let fields = table.decl(*number).fields.as_slice();
            part_named(name, fields, parts_of(made))
        }
        _ => None,
    }
}

/// `value.name`, where there is such a part, which is lent: the case that comes most often. Nothing is told otherwise; then `get_field`
/// answers. The cost is the number of fields before it.
pub fn find_field<'a>(ready: &Ready, value: &'a Value, name: &Bytes) -> Option<&'a Value>
    ensures { MatchOption result (Unit {0}) (λ v. field_of (all_types ready.now) name.now value.now ≡ O.Value v.now) }
{
    match value {
        Value::Struct(made) => match known_field(ready.table(), name.as_slice(), made) {
            Some(part) => Some(part),
            None => None,
        },
        _ => None,
    }
}

/// `value.name`: the part at the first field of this name, or `NoField` where there is none. It takes no memory; the one error is
/// a count of copies that can't be raised. The cost is the number of fields before it.
pub fn get_field(ready: &Ready, value: &Value, name: &Bytes) -> Result<Outcome, AllocError>
    requires valid { IsValidValue ready.now value.now }
    ensures answer { IfOk result (λ o. o ≡ field_of (all_types ready.now) name.now value.now) }
    ensures valid { IfOk result (λ o. IsValidOutcome ready.now o) }
{
    ready.valid();
    let table = ready.table();
    match field_of(table, name.as_slice(), value) {
        Some(part) => {
            let part = part.copy()?;
            Ok(Outcome::Value(part))
        }
        None => {
            let name = name.copy()?;
            let ty = type_of(table, value).copy()?;
            Ok(Outcome::Error(Fault::NoField(ty, name)))
        }
    }
}

/// Part `number` of a list, counted from 1.
fn part_at(number: u64, parts: &[Value]) -> Option<&Value>
    ensures { MatchOption result (part_at number (map datum parts.now) ≡ None) (λ v. part_at number (map datum parts.now) ≡ Some (datum v.now)) }
{
    if number == 0 {
        return None;
    }
    let place = number - 1;
    if place >= parts.len() as u64 {
        return None;
    }
    Some(&parts[place as usize])
}

/// The part of a tuple of this number.
fn tuple_part<'a>(table: &Table, number: u64, value: &'a Value) -> Option<&'a Value>
    ensures { MatchOption result (part_value table.now number value.now ≡ None) (λ v. part_value table.now number value.now ≡ Some (datum v.now)) }
{
    match value {
        Value::Tuple(made) => part_at(number, parts_of(made)),
        _ => None,
    }
}

/// `value[number]`: the part of a tuple, counted from 1, or `NoIndex` where there is none. It takes no memory; the one error is a
/// count of copies that can't be raised.
pub fn get_part(ready: &Ready, value: &Value, number: u64) -> Result<Outcome, AllocError>
    requires valid { IsValidValue ready.now value.now }
    ensures answer { IfOk result (λ o. o ≡ part_of (all_types ready.now) number value.now) }
    ensures valid { IfOk result (λ o. IsValidOutcome ready.now o) }
{
    ready.valid();
    let table = ready.table();
    match tuple_part(table, number, value) {
        Some(part) => {
            let part = part.copy()?;
            Ok(Outcome::Value(part))
        }
        None => {
            let ty = type_of(table, value).copy()?;
            Ok(Outcome::Error(Fault::NoIndex(ty, number)))
        }
    }
}
