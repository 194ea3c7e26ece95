//! Runs of the script of which a task calls a function that is defined again.

ghost use Rattle.std.specs.Prelude.{◌≡◌, ◌<◌, ◌≤◌};
ghost use Rattle.jl_model.specs.declared.limits.TheConstants.{MOST_CACHE_KEYS, MOST_CACHE_ROWS};
ghost use Rattle.jl_calculus.specs.Legal.{IsKeyOf};
ghost use Rattle.jl_calculus.specs.ValidStart.{IsValidStart};
ghost use Rattle.jl_world.specs.Names.{table_of, about_of};
ghost use Rattle.store_tests.specs.Starts.{first_start};

use crate::keys::make_key;
use crate::programs::{F, FUEL, ready_deleted, ready_late};
use crate::snapshot::are_same;
use crate::steps::{Step, are_due};
use jl_book::Book;
use jl_calculus::history::Event;
use jl_model::ty::Key;
use jl_sig::Ready;
use jl_world::{Blank, Naming};
use std::alloc::{AllocError, Global};
use std::marker::Brand;

/// Whether these steps are answered as is due, and leave the events that are due, where there are some.
fn tell<N: Naming>(
    alloc: Global,
    ready: &Ready,
    blank: Blank,
    key: &Key,
    steps: &[Step],
    due: &[Event],
) -> Result<bool, AllocError>
    requires name { (table_of blank ≡ N.table) × (about_of blank ≡ N.about) }
    requires program { (about_of blank).program.value ≡ ready.now }
    requires key { IsKeyOf ready.now key.now }
    requires start { IsValidStart ready.now first_start }
{
    let (mut book, cache, mut pass) = Book::<N>::open(alloc, ready, blank)?;
    let answered = are_due(alloc, ready, &cache, &mut book, &mut pass, key, steps);
    let is_told = due.is_empty() || are_same(book.events(), due);
    drop(pass);
    drop(cache);
    drop(book);
    let is_answered = answered?;
    Ok(is_answered && is_told)
}

/// The same over new words with so many places for keys and rows.
fn tell_anew(
    alloc: Global,
    ready: &Ready,
    key: &Key,
    keys: u32,
    rows: u32,
    steps: &[Step],
    due: &[Event],
) -> Result<bool, AllocError>
    requires keys { (0 < keys) × (keys ≤ MOST_CACHE_KEYS) }
    requires rows { (0 < rows) × (rows ≤ MOST_CACHE_ROWS) }
    requires key { IsKeyOf ready.now key.now }
    requires start { IsValidStart ready.now first_start }
{
    let blank = Blank::make(alloc, ready.program(), FUEL, keys, rows)?;
    tell::<Brand>(alloc, ready, blank, key, steps, due)
}

/// The same for the key of the first function without arguments.
fn tell_of_key(
    alloc: Global,
    ready: &Ready,
    keys: u32,
    rows: u32,
    steps: &[Step],
    due: &[Event],
) -> Result<bool, AllocError>
    requires keys { (0 < keys) × (keys ≤ MOST_CACHE_KEYS) }
    requires rows { (0 < rows) × (rows ≤ MOST_CACHE_ROWS) }
    requires start { IsValidStart ready.now first_start }
{
    let key = make_key(alloc, ready, F, 0, 0)?;
    let told = tell_anew(alloc, ready, &key, keys, rows, steps, due);
    drop(key);
    told
}

/// The same for the script.
pub(crate) fn tell_late(
    alloc: Global,
    keys: u32,
    rows: u32,
    steps: &[Step],
    due: &[Event],
) -> Result<bool, AllocError>
    requires keys { (0 < keys) × (keys ≤ MOST_CACHE_KEYS) }
    requires rows { (0 < rows) × (rows ≤ MOST_CACHE_ROWS) }
{
    let ready = ready_late(alloc)?;
    let told = tell_of_key(alloc, &ready, keys, rows, steps, due);
    drop(ready);
    told
}

/// The same for the script whose first function may be deleted.
pub(crate) fn tell_deleted(
    alloc: Global,
    keys: u32,
    rows: u32,
    steps: &[Step],
    due: &[Event],
) -> Result<bool, AllocError>
    requires keys { (0 < keys) × (keys ≤ MOST_CACHE_KEYS) }
    requires rows { (0 < rows) × (rows ≤ MOST_CACHE_ROWS) }
{
    let ready = ready_deleted(alloc)?;
    let told = tell_of_key(alloc, &ready, keys, rows, steps, due);
    drop(ready);
    told
}
