//! What was made of written types, in a table that is found by a number that is made of a type.

ghost use Rattle.std.specs.Prelude.{◌≡◌, ◌⊎◌, IfOk, IsTrue, MatchOption};
ghost use Rattle.jl_operations.specs.Memo.{IsAmong, IsPut, NonePrepared};

use crate::written::Kept;
use jl_model::ty::{Bound, Ty, Written};
use jl_types::same::{same, same_all};
use std::alloc::{AllocError, Global};
use std::mem;

/// How many places a table has once something is prepared. Each number of places is a power of 2.
const FIRST_PLACES: usize = 16;
/// How many places it has after two types came to one place.
const MORE_PLACES: usize = 64;
/// How many places it has after that happened once more. From then on a type that comes to the place of another takes it.
const MOST_PLACES: usize = 256;
/// The number of bits of a hash that are no place.
const OTHER_BITS: u32 = 24;
/// An odd number that spreads small numbers (Appleby, MurmurHash3).
const SPREAD: u32 = 0x85EB_CA6B;
/// What stands for the number of a type that has none.
const NO_NUMBER: u32 = 0;

/// A written type of a body, with the static parameters put in, what becomes of it, and the normal form of the struct type that it is,
/// if an explicit constructor asked for that.
#[derive(Drop)]
pub struct Prepared {
    pub(crate) written: Written,
    pub(crate) kept: Kept,
    pub(crate) form: Option<Ty>,
}

/// A hash with one more number in it.
fn mixed(hash: u32, number: u32) -> u32 {
    (hash ^ number).wrapping_mul(SPREAD)
}

/// The number of a nominal type.
fn number_of(ty: &Ty) -> u32 {
    match ty {
        Ty::Nominal(number, _) => *number,
        _ => NO_NUMBER,
    }
}

/// A hash with the numbers of these types in it.
fn mix_numbers(hash: u32, types: &[Ty]) -> u32 {
    let mut hash = hash;
    for ty in types {
        hash = mixed(hash, number_of(ty));
    }
    hash
}

/// A hash with the numbers of a type and of its arguments in it.
fn mix_type(hash: u32, ty: &Ty) -> u32 {
    match ty {
        Ty::Nominal(number, arguments) => mix_numbers(mixed(hash, *number), arguments.as_slice()),
        Ty::Tuple(parts) => mix_numbers(hash, parts.as_slice()),
        Ty::Union(members) => mix_numbers(hash, members.as_slice()),
        _ => mixed(hash, NO_NUMBER),
    }
}

/// The place of a written type among so many.
fn place_of(places: usize, written: &Written) -> usize {
    let mut hash = 0;
    for part in written.parts.as_slice() {
        hash = mix_type(hash, part);
    }
    (hash >> OTHER_BITS) as usize & places.wrapping_sub(1)
}

/// Whether two bounds are the same.
fn is_same_bound(left: &Bound, right: &Bound) -> bool
    ensures { IsTrue result → left.now ≡ right.now }
{
    same(&left.low, &right.low) && same(&left.high, &right.high)
}

/// Whether two lists of bounds are the same.
fn are_same_bounds(lefts: &[Bound], rights: &[Bound]) -> bool
    ensures { IsTrue result → lefts.now ≡ rights.now }
{
    if lefts.len() != rights.len() {
        return false;
    }
    for (i, left) in lefts.iter().enumerate() {
        if !is_same_bound(left, &rights[i]) {
            return false;
        }
    }
    true
}

/// Whether two written types are the same.
fn is_same(left: &Written, right: &Written) -> bool
    ensures { IsTrue result → left.now ≡ right.now }
{
    same_all(left.parts.as_slice(), right.parts.as_slice())
        && are_same_bounds(left.vars.as_slice(), right.vars.as_slice())
}

/// What is prepared of a written type.
pub(crate) fn find<'t>(table: &'t [Option<Prepared>], written: &Written) -> Option<&'t Prepared>
    ensures { MatchOption result (Unit {0}) (λ found. IsAmong table.now written.now found.now) }
{
    match table.get(place_of(table.len(), written)) {
        Some(Some(prepared)) => {
            if is_same(&prepared.written, written) {
                return Some(prepared);
            }
            None
        }
        _ => None,
    }
}

/// A table of so many places in which nothing is prepared.
fn empty_table(alloc: Global, places: usize) -> Result<Vec<Option<Prepared>>, AllocError>
    ensures { IfOk result (λ table. NonePrepared table.items) }
{
    let mut table = Vec::with_capacity(alloc, places)?;
    for _ in 0..places {
        table.push(None)?;
    }
    Ok(table)
}

/// Whether another type has the place of this one, or there are no places yet.
fn is_taken(table: &[Option<Prepared>], prepared: &Prepared) -> bool {
    match table.get(place_of(table.len(), &prepared.written)) {
        Some(Some(other)) => !is_same(&other.written, &prepared.written),
        Some(None) => false,
        None => true,
    }
}

/// The number of places after so many.
fn more_places(places: usize) -> usize {
    if places == 0 {
        return FIRST_PLACES;
    }
    if places < MORE_PLACES {
        return MORE_PLACES;
    }
    MOST_PLACES
}

/// Gives a table more places. What it kept goes, since to be made once more costs less than to be moved. Where there is no memory for
/// more, or the table has the most, it stays.
#[inline(never)]
fn grow(alloc: Global, table: &mut Vec<Option<Prepared>>)
    ensures { (table.new.items ≡ table.old.items) ⊎ NonePrepared table.new.items }
{
    let places = table.len();
    if places >= MOST_PLACES {
        return;
    }
    match empty_table(alloc, more_places(places)) {
        Ok(larger) => drop(mem::replace(table, larger)),
        Err(_) => {}
    }
}

/// Puts what is prepared in place of what has its place.
fn put(table: &mut Vec<Option<Prepared>>, prepared: Prepared)
    ensures { IsPut prepared table.old.items table.new.items }
{
    let place = place_of(table.len(), &prepared.written);
    if place >= table.len() {
        drop(prepared);
        return;
    }
    drop(mem::replace(&mut table[place], Some(prepared)));
}

/// Keeps what is prepared in place of what has its place. The table grows first where that is another type.
pub(crate) fn keep_prepared(alloc: Global, table: &mut Vec<Option<Prepared>>, prepared: Prepared)
    ensures { IsPut prepared table.old.items table.new.items }
{
    if is_taken(table, &prepared) {
        grow(alloc, table);
    }
    put(table, prepared);
}
