//! Values, made word by word on a stack: `PIECE; PIECE`, where a piece is words, or `N* WORDS` for N times these words.
#![tactic(auto, using(jl_value::proofs::SampleValues::values, crate::proofs::StackLemmas::stacks))]

ghost use Rattle.std.specs.Prelude.{◌≡◌, ◌∷◌, [], ◌<◌, IfOk, OnOk, map};
ghost use Rattle.jl_model.specs.declared.ty.Ty.TheViews as V;
ghost use Rattle.jl_model.specs.Ancestors.{named};
ghost use Rattle.jl_program.specs.Meaning.{datum};
ghost use Rattle.jl_program.specs.ValidValue.{IsValid, AllValid, IsStructType};
ghost use Rattle.jl_value.specs.Samples.{sample_types};

use crate::sample::named;
use crate::types::number;
use jl_model::ty::{Ty, Tys};
use jl_program::value::{Value, Values};
use jl_types::Table;
use jl_value::{MakeFault, construct, copy, tuple};
use std::alloc::{AllocError, Global};

/// `Box{..}` of a built-in type.
fn box_of(alloc: Global, argument: u32) -> Result<Ty, AllocError>
    ensures { IfOk result (λ t. t ≡ V.Nominal 9 (named argument ∷ [])) }
{
    Ok(Ty::Nominal(9, Tys::from_vec(alloc, vec![in alloc; named(argument)]?)?))
}

/// The same, as a type of structs.
fn box_type(alloc: Global, argument: u32) -> Result<Ty, AllocError>
    requires built_in { argument < 8 }
    ensures { IfOk result (IsStructType sample_types) }
{
    let ty = box_of(alloc, argument)?;
    Ok(ty)
}

/// `Part{Square, Wood}`
fn part_of(alloc: Global) -> Result<Ty, AllocError>
    ensures { IfOk result (λ t. t ≡ V.Nominal 12 (named 10 ∷ named 11 ∷ [])) }
{
    Ok(Ty::Nominal(
        12,
        Tys::from_vec(alloc, vec![in alloc; named(10), named(11)]?)?,
    ))
}

/// The same, as a type of structs.
fn part_type(alloc: Global) -> Result<Ty, AllocError>
    ensures { IfOk result (IsStructType sample_types) }
{
    let ty = part_of(alloc)?;
    Ok(ty)
}

/// The struct type that a word names; `Wood` is the one of any other word.
fn struct_type(alloc: Global, word: &str) -> Result<Ty, AllocError>
    ensures { IfOk result (IsStructType sample_types) }
{
    match word {
        "P" => Ok(named(8)),
        "Box{Integer}" => box_type(alloc, 2),
        "Box{Int64}" => box_type(alloc, 4),
        "Box{Bool}" => box_type(alloc, 5),
        "Square" => Ok(named(10)),
        "Part{Square,Wood}" => part_type(alloc),
        _ => Ok(named(11)),
    }
}

/// The value that a word is by itself: a number, a truth value or `nothing`.
fn leaf(word: &str) -> Value
    ensures { IsValid sample_types (datum result) }
{
    match word {
        "true" => Value::Bool(true),
        "false" => Value::Bool(false),
        "nothing" => Value::Nothing,
        _ => Value::Int(word.parse::<i64>().unwrap_or(0)),
    }
}

/// A copy of the value at a place of the stack, counted from its end.
fn copied(stack: &[Value], place: usize) -> Result<Value, AllocError>
    requires valid { AllValid sample_types (map datum stack.now) }
    ensures { IfOk result (λ v. IsValid sample_types (datum v)) }
{
    if place < stack.len() {
        copy(&stack[stack.len() - 1 - place])
    } else {
        Ok(Value::Nothing)
    }
}

/// Takes the last values off the stack.
fn taken(alloc: Global, stack: &mut Vec<Value>, count: usize) -> Result<Values, AllocError>
    requires valid { AllValid sample_types (map datum stack.old.items) }
    ensures rest { OnOk result (AllValid sample_types (map datum stack.new.items)) }
    ensures taken { IfOk result (AllValid sample_types) }
{
    let at = stack.len().saturating_sub(count);
    let parts = stack.split_off(at)?;
    Ok(Values::from_vec(parts))
}

/// A tuple or a struct of so many of the last values.
fn made(
    alloc: Global,
    table: &Table,
    stack: &mut Vec<Value>,
    name: &str,
    count: usize,
) -> Result<Value, MakeFault>
    requires sample { table.now ≡ sample_types }
    requires valid { AllValid sample_types (map datum stack.old.items) }
    ensures rest { OnOk result (AllValid sample_types (map datum stack.new.items)) }
    ensures made { IfOk result (λ v. IsValid sample_types (datum v)) }
{
    let parts = taken(alloc, stack, count)?;
    if name == "tuple" {
        tuple(alloc, table, parts)
    } else {
        construct(alloc, table, &struct_type(alloc, name)?, parts)
    }
}

/// The value of a word `NAME/N`: a task by its number, a copy of a value on the stack, or what is made of the last values.
fn compound(
    alloc: Global,
    table: &Table,
    stack: &mut Vec<Value>,
    name: &str,
    count: u32,
) -> Result<Value, MakeFault>
    requires sample { table.now ≡ sample_types }
    requires valid { AllValid sample_types (map datum stack.old.items) }
    ensures rest { OnOk result (AllValid sample_types (map datum stack.new.items)) }
    ensures made { IfOk result (λ v. IsValid sample_types (datum v)) }
{
    match name {
        "task" => Ok(Value::Task(count)),
        "copy" => Ok(copied(stack.as_slice(), count as usize)?),
        _ => made(alloc, table, stack, name, count as usize),
    }
}

/// Puts the value of a word on the stack.
fn take(alloc: Global, table: &Table, stack: &mut Vec<Value>, word: &str) -> Result<(), MakeFault>
    requires sample { table.now ≡ sample_types }
    requires valid { AllValid sample_types (map datum stack.old.items) }
    ensures { OnOk result (AllValid sample_types (map datum stack.new.items)) }
{
    let value = match word.split_once('/') {
        None => leaf(word),
        Some((name, count)) => compound(alloc, table, stack, name, number(count))?,
    };
    stack.push(value)?;
    Ok(())
}

/// Puts the values of words on the stack.
fn take_words(
    alloc: Global,
    table: &Table,
    stack: &mut Vec<Value>,
    words: &str,
) -> Result<(), MakeFault>
    requires sample { table.now ≡ sample_types }
    requires valid { AllValid sample_types (map datum stack.old.items) }
    ensures { OnOk result (AllValid sample_types (map datum stack.new.items)) }
{
    for word in words.split_whitespace() {
        take(alloc, table, stack, word)?;
    }
    Ok(())
}

/// Puts the values of a piece on the stack.
fn take_piece(
    alloc: Global,
    table: &Table,
    stack: &mut Vec<Value>,
    piece: &str,
) -> Result<(), MakeFault>
    requires sample { table.now ≡ sample_types }
    requires valid { AllValid sample_types (map datum stack.old.items) }
    ensures { OnOk result (AllValid sample_types (map datum stack.new.items)) }
{
    let (times, words) = piece.split_once('*').unwrap_or(("1", piece));
    for _ in 0..number(times.trim()) {
        take_words(alloc, table, stack, words)?;
    }
    Ok(())
}

/// The values that the words of a text leave on the stack.
pub fn values_of(alloc: Global, table: &Table, text: &str) -> Result<Vec<Value>, MakeFault>
    requires sample { table.now ≡ sample_types }
{
    let mut stack = Vec::new(alloc);
    for piece in text.split(';') {
        take_piece(alloc, table, &mut stack, piece)?;
    }
    Ok(stack)
}
