//! Faults, as a line asks for them: `KIND NUMBERS : TYPES`.

use crate::sample::bytes;
use crate::types::{last_type, number, types_of};
use jl_model::ty::{Ty, Tys};
use jl_program::fault::Fault;
use std::alloc::{AllocError, Global};

/// The numbers of a text.
fn numbers_of(alloc: Global, text: &str) -> Result<Vec<u32>, AllocError> {
    let mut numbers = Vec::new(alloc);
    for word in text.split_whitespace() {
        numbers.push(number(word))?;
    }
    Ok(numbers)
}

/// The number at a place, or 0.
fn number_at(numbers: &[u32], place: usize) -> u32 {
    match numbers.get(place) {
        Some(number) => *number,
        None => 0,
    }
}

/// All types of a list, which is empty then.
fn all_types(alloc: Global, types: &mut Vec<Ty>) -> Result<Tys, AllocError> {
    Tys::from_vec(alloc, types.split_off(0)?)
}

/// A call that no method takes, or two: the function, and the world or the two definitions.
fn of_call(
    alloc: Global,
    kind: &str,
    numbers: &[u32],
    types: &mut Vec<Ty>,
) -> Result<Fault, AllocError> {
    let types = all_types(alloc, types)?;
    let (function, first) = (number_at(numbers, 0), number_at(numbers, 1));
    if kind == "NoMethod" {
        Ok(Fault::NoMethod(function, types, first))
    } else {
        Ok(Fault::Ambiguous(function, types, first, number_at(numbers, 2)))
    }
}

/// A struct, the last type, that is not made of arguments of the others.
fn no_constructor(alloc: Global, types: &mut Vec<Ty>) -> Result<Fault, AllocError> {
    let made = last_type(types);
    match all_types(alloc, types) {
        Ok(types) => Ok(Fault::NoConstructor(made, types)),
        Err(error) => {
            drop(made);
            Err(error)
        }
    }
}

/// The field `x` of a struct, the last type but one, that got a value of the last type.
fn field_type(alloc: Global, types: &mut Vec<Ty>) -> Result<Fault, AllocError> {
    let name = bytes(alloc, b"x")?;
    let got = last_type(types);
    let of = last_type(types);
    Ok(Fault::FieldType(of, name, got))
}

/// A type, the last, without the field `x`.
fn no_field(alloc: Global, types: &mut Vec<Ty>) -> Result<Fault, AllocError> {
    let name = bytes(alloc, b"x")?;
    Ok(Fault::NoField(last_type(types), name))
}

/// A fault of the last type.
fn of_type(kind: &str, count: u32, types: &mut Vec<Ty>) -> Fault {
    let ty = last_type(types);
    match kind {
        "BadParameter" => Fault::BadParameter(ty),
        "NoIndex" => Fault::NoIndex(ty, u64::from(count)),
        "NotBool" => Fault::NotBool(ty),
        _ => Fault::NotTask(ty),
    }
}

/// A fault of a number, of a function, or of a task or a limit.
fn of_count(kind: &str, count: u32) -> Fault {
    match kind {
        "DivideError" => Fault::DivideError,
        "TaskFailed" => Fault::TaskFailed(count),
        "NoSuchMethod" => Fault::NoSuchMethod(count),
        "FuelSpent" => Fault::FuelSpent(u64::from(count)),
        "StackLimit" => Fault::StackLimit,
        "WorldLimit" => Fault::WorldLimit,
        "TaskLimit" => Fault::TaskLimit,
        "TypeLimit" => Fault::TypeLimit,
        _ => Fault::ValueLimit,
    }
}

/// The fault of a kind, with these numbers and types.
fn fault_of_kind(
    alloc: Global,
    kind: &str,
    numbers: &[u32],
    types: &mut Vec<Ty>,
) -> Result<Fault, AllocError> {
    match kind {
        "NoMethod" | "Ambiguous" => of_call(alloc, kind, numbers, types),
        "NoConstructor" => no_constructor(alloc, types),
        "FieldType" => field_type(alloc, types),
        "NoField" => no_field(alloc, types),
        "BadParameter" | "NoIndex" | "NotBool" | "NotTask" => {
            Ok(of_type(kind, number_at(numbers, 0), types))
        }
        _ => Ok(of_count(kind, number_at(numbers, 0))),
    }
}

/// The fault that a text asks for.
pub fn fault_of(alloc: Global, text: &str) -> Result<Fault, AllocError> {
    let (before, types) = text.split_once(':').unwrap_or((text, ""));
    let before = before.trim();
    let (kind, numbers) = before.split_once(' ').unwrap_or((before, ""));
    let numbers = numbers_of(alloc, numbers)?;
    let mut types = types_of(alloc, types)?;
    fault_of_kind(alloc, kind, numbers.as_slice(), &mut types)
}
