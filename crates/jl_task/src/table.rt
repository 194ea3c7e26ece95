//! A table of what was chosen, found by a number that is made of a call.

ghost use Rattle.std.specs.Prelude.{◌≡◌, ◌⊎◌, IfOk, IsTrue, MatchOption, map};
ghost use Rattle.jl_model.specs.Ancestors.{named};
ghost use Rattle.jl_program.specs.TypeOf.{type_of};
ghost use Rattle.jl_task.specs.Kept.{IsFound, IsOf, IsPut, NoneKept};

use jl_model::builtin::{BOOL, INT64, NOTHING, TASK};
use jl_model::ty::{Key, Ty, Tys};
use jl_program::value::Value;
use jl_types::same::same;
use std::alloc::{AllocError, Global};
use std::mem;

/// How many places a table has at first: few, since most tasks are short. Each number of places is a power of 2.
pub(crate) const FIRST_PLACES: usize = 16;
/// How many places it has after two calls of one world came to one place.
const MORE_PLACES: usize = 128;
/// How many places it has after that happened once more. From then on a call that comes to the place of another takes it.
const MOST_PLACES: usize = 1_024;
/// The number of bits of a hash that are no place.
const OTHER_BITS: u32 = 22;
/// An odd number that spreads small numbers (Appleby, MurmurHash3). With the usual 0.618 times 2^32 two arguments would nearly count
/// by the difference of their numbers alone, since the square of 0.618 is 1 less 0.618.
const SPREAD: u32 = 0x85EB_CA6B;
/// How many arguments of a type, or parts of a tuple, its number is made of, so that a wide type costs no more than a small one.
const COUNTED: usize = 4;
/// What stands for the number of a type that has none.
const NO_NUMBER: u32 = 0;

/// A call with the world in which it was answered, the site of the method that was chosen, and the types of the variables of its
/// signature.
#[derive(Drop)]
pub(crate) struct Kept {
    pub(crate) key: Key,
    pub(crate) world: u32,
    pub(crate) site: u32,
    pub(crate) statics: Tys,
}

/// The number of a nominal type.
fn outer_number(ty: &Ty) -> u32 {
    match ty {
        Ty::Nominal(number, _) => *number,
        _ => NO_NUMBER,
    }
}

/// A number with those of the first of these types mixed in, each by its outer number.
fn with_outer_numbers(number: u32, types: &[Ty]) -> u32 {
    let mut hash = number;
    for ty in types.iter().take(COUNTED) {
        hash = mixed(hash, outer_number(ty));
    }
    hash
}

/// The number of an argument or a part of a type, with those of its own first arguments or parts.
fn inner_number(ty: &Ty) -> u32 {
    match ty {
        Ty::Nominal(number, arguments) => with_outer_numbers(*number, arguments.as_slice()),
        Ty::Tuple(parts) => with_outer_numbers(NO_NUMBER, parts.as_slice()),
        _ => NO_NUMBER,
    }
}

/// A number with those of the first of these types mixed in. It is out of line, so that a type without arguments stays cheap.
#[inline(never)]
fn with_numbers(number: u32, types: &[Ty]) -> u32 {
    let mut hash = number;
    for ty in types.iter().take(COUNTED) {
        hash = mixed(hash, inner_number(ty));
    }
    hash
}

/// A number that tells a type from most others: that of a plain nominal type, or of two levels of arguments and parts.
fn number_of(ty: &Ty) -> u32 {
    match ty {
        Ty::Nominal(number, arguments) => {
            if arguments.len() == 0 {
                return *number;
            }
            with_numbers(*number, arguments.as_slice())
        }
        Ty::Tuple(parts) => with_numbers(NO_NUMBER, parts.as_slice()),
        _ => NO_NUMBER,
    }
}

/// The number of the type of a value that is neither a number nor a struct. It is out of line, so that the others need no jump by a table.
#[inline(never)]
fn number_of_other(value: &Value) -> u32 {
    match value {
        Value::Int(_) => INT64,
        Value::Bool(_) => BOOL,
        Value::Nothing => NOTHING,
        Value::Task(_) => TASK,
        Value::Tuple(made) | Value::Struct(made) => number_of(&made.get().ty),
    }
}

/// The number of the type of a value.
#[inline(always)]
fn number_of_value(value: &Value) -> u32 {
    match value {
        Value::Int(_) => INT64,
        Value::Struct(made) => number_of(&made.get().ty),
        _ => number_of_other(value),
    }
}

/// A hash with one more number in it.
fn mixed(hash: u32, number: u32) -> u32 {
    (hash ^ number).wrapping_mul(SPREAD)
}

/// The place of a hash among so many.
fn place_in(hash: u32, places: usize) -> usize {
    (hash >> OTHER_BITS) as usize & places.wrapping_sub(1)
}

/// The place among so many of a call with these arguments.
#[inline(always)]
fn place_of_values(places: usize, function: u32, values: &[Value]) -> usize {
    let mut hash = mixed(0, function);
    for value in values {
        hash = mixed(hash, number_of_value(value));
    }
    place_in(hash, places)
}

/// The place among so many of a call by its key, which is that by its arguments.
fn place_of(places: usize, key: &Key) -> usize {
    let mut hash = mixed(0, key.function);
    for ty in key.types.as_slice() {
        hash = mixed(hash, number_of(ty));
    }
    place_in(hash, places)
}

/// Whether a type is the nominal one of this number without arguments.
pub(crate) fn is_named(ty: &Ty, number: u32) -> bool
    ensures { IsTrue result → named number ≡ ty.now }
{
    match ty {
        Ty::Nominal(found, arguments) => *found == number && arguments.len() == 0,
        _ => false,
    }
}

/// Whether a type is that of a value that is no number. It is out of line, as `number_of_other` is.
#[inline(never)]
fn is_type_of_other(ty: &Ty, value: &Value) -> bool
    ensures { IsTrue result → type_of value.now ≡ ty.now }
{
    match value {
        Value::Int(_) => is_named(ty, INT64),
        Value::Bool(_) => is_named(ty, BOOL),
        Value::Nothing => is_named(ty, NOTHING),
        Value::Task(_) => is_named(ty, TASK),
        Value::Tuple(made) | Value::Struct(made) => same(&made.get().ty, ty),
    }
}

/// Whether two types are the same. Those of most structs have no arguments, and need no call.
#[inline(always)]
fn is_same_type(ty: &Ty, found: &Ty) -> bool
    ensures { IsTrue result → found.now ≡ ty.now }
{
    match found {
        Ty::Nominal(number, arguments) => {
            if arguments.len() == 0 {
                return is_named(ty, *number);
            }
            same(found, ty)
        }
        _ => same(found, ty),
    }
}

/// Whether a type is that of a value.
#[inline(always)]
fn is_type_of(ty: &Ty, value: &Value) -> bool
    ensures { IsTrue result → type_of value.now ≡ ty.now }
{
    match value {
        Value::Int(_) => is_named(ty, INT64),
        Value::Struct(made) => is_same_type(ty, &made.get().ty),
        _ => is_type_of_other(ty, value),
    }
}

/// Whether these are the types of these values.
#[inline(always)]
fn are_types_of(types: &[Ty], values: &[Value]) -> bool
    ensures { IsTrue result → map type_of values.now ≡ types.now }
{
    if types.len() != values.len() {
        return false;
    }
    for (i, ty) in types.iter().enumerate() {
        if !is_type_of(ty, &values[i]) {
            return false;
        }
    }
    true
}

/// Whether what is kept is of a call with these arguments in this world.
#[inline(always)]
fn is_of_values(kept: &Kept, function: u32, values: &[Value], world: u32) -> bool
    ensures { IsTrue result → IsOf kept.now function (map type_of values.now) world }
{
    kept.key.function == function
        && kept.world == world
        && are_types_of(kept.key.types.as_slice(), values)
}

/// What is kept for a call with these arguments in a world.
#[inline(always)]
pub(crate) fn find_by_values<'t>(
    table: &'t [Option<Kept>],
    function: u32,
    values: &[Value],
    world: u32,
) -> Option<&'t Kept>
    ensures { MatchOption result (Unit {0}) (λ kept. IsFound table.now function (map type_of values.now) world kept.now) }
{
    match table.get(place_of_values(table.len(), function, values)) {
        Some(Some(kept)) => {
            if is_of_values(kept, function, values, world) {
                return Some(kept);
            }
            None
        }
        _ => None,
    }
}

/// A table of so many places that keeps nothing.
pub(crate) fn empty_table(alloc: Global, places: usize) -> Result<Vec<Option<Kept>>, AllocError>
    ensures { IfOk result (λ table. NoneKept table.items) }
{
    let mut table = Vec::with_capacity(alloc, places)?;
    for _ in 0..places {
        table.push(None)?;
    }
    Ok(table)
}

/// Whether another call of the same world has the place of this one.
fn is_taken(table: &[Option<Kept>], kept: &Kept) -> bool {
    match table.get(place_of(table.len(), &kept.key)) {
        Some(Some(other)) => other.world == kept.world,
        _ => false,
    }
}

/// Gives a table more places. What it kept goes, since to be asked for once more costs less than to be moved. Where there is no
/// memory for more, or the table has the most, it stays.
#[inline(never)]
fn grow(alloc: Global, table: &mut Vec<Option<Kept>>)
    ensures { (table.new.items ≡ table.old.items) ⊎ NoneKept table.new.items }
{
    if table.len() >= MOST_PLACES {
        return;
    }
    let places = if table.len() < MORE_PLACES {
        MORE_PLACES
    } else {
        MOST_PLACES
    };
    match empty_table(alloc, places) {
        Ok(larger) => drop(mem::replace(table, larger)),
        Err(_) => {}
    }
}

/// Puts a call in place of the one that has its place.
fn put(table: &mut Vec<Option<Kept>>, kept: Kept)
    ensures { IsPut kept table.old.items table.new.items }
{
    let place = place_of(table.len(), &kept.key);
    if place >= table.len() {
        drop(kept);
        return;
    }
    drop(mem::replace(&mut table[place], Some(kept)));
}

/// Keeps a call in place of the one that has its place. The table grows first where that one is of the same world.
pub(crate) fn keep(alloc: Global, table: &mut Vec<Option<Kept>>, kept: Kept)
    ensures { IsPut kept table.old.items table.new.items }
{
    if is_taken(table, &kept) {
        grow(alloc, table);
    }
    put(table, kept);
}
