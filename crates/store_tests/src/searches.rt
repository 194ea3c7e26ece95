//! Searches for a key in a world.

ghost use Rattle.std.specs.Prelude.{◌≡◌, ◌<◌, ◌≤◌, IfSome, length};
ghost use Rattle.jl_calculus.specs.Legal.{IsKeyOf};
ghost use Rattle.jl_calculus.specs.Ranges.{keys_of};
ghost use Rattle.jl_calculus.specs.World.{world_of};
ghost use Rattle.jl_program.specs.Prelude.{prelude_count};

use crate::asks::{FULL, Told, judge};
use jl_book::{Book, Pass, Resolved, RowMade};
use jl_cache::{Cache, Found, Miss};
use jl_model::ty::Key;
use jl_program::choice::Choice;
use jl_program::prelude::FIRST_WORLD;
use jl_sig::Ready;
use jl_world::Naming;
use std::alloc::Global;

/// Stands for the site where none is found.
pub(crate) const NO_SITE: u32 = u32::MAX;
/// Stands for the site where there can be no search.
const NO_SEARCH: u32 = u32::MAX - 1;

/// The number of a key, for a search in a world. There is none where the key gets no number, or the world is not there.
fn key_in<N: Naming>(
    alloc: Global,
    ready: &Ready,
    cache: &Cache<N>,
    book: &mut Book<N>,
    pass: &mut Pass<N>,
    key: &Key,
    world: u32,
) -> Option<u32>
    requires ready { ready.now ≡ N.about.program.value }
    requires key { IsKeyOf N.about.program.value key.now }
    ensures key { IfSome result (λ number. number < length (keys_of pass.new.seen)) }
    ensures world { IfSome result (λ number. (prelude_count ≤ world) × (world ≤ world_of pass.new.seen)) }
{
    let Ok(number) = book.key(alloc, ready, cache, pass, key) else {
        return None;
    };
    let newest = pass.look(cache).world;
    if world < FIRST_WORLD || newest < world {
        return None;
    }
    Some(number)
}

/// The site that is found for a key in a world.
pub(crate) fn find_site<N: Naming>(
    alloc: Global,
    ready: &Ready,
    cache: &Cache<N>,
    book: &mut Book<N>,
    pass: &mut Pass<N>,
    key: &Key,
    world: u32,
) -> u32
    requires ready { ready.now ≡ N.about.program.value }
    requires key { IsKeyOf N.about.program.value key.now }
{
    let Some(number) = key_in(alloc, ready, cache, book, pass, key, world) else {
        return NO_SEARCH;
    };
    match pass.find(cache, number, world) {
        Found::Hit(site) => site,
        Found::Miss(miss) => {
            drop(miss);
            NO_SITE
        }
    }
}

/// Whether a choice is this method, and its row was linked with this number.
fn is_linked(resolved: Resolved, method: u32, row: u32) -> bool {
    let made = if row == FULL {
        RowMade::RowsFull
    } else {
        RowMade::Linked(row)
    };
    resolved.choice == Choice::Method(method) && resolved.row == made
}

/// Whether a miss is answered by this method, with a row of this number.
fn ask<N: Naming>(
    alloc: Global,
    ready: &Ready,
    cache: &Cache<N>,
    book: &mut Book<N>,
    pass: &mut Pass<N>,
    miss: Miss<N>,
    method: u32,
    row: u32,
) -> Told
    requires ready { ready.now ≡ N.about.program.value }
    requires key { miss.key < length (keys_of pass.old.seen) }
    requires world { (prelude_count ≤ miss.world) × (miss.world ≤ world_of pass.old.seen) }
{
    match book.resolve(alloc, ready, cache, pass, miss) {
        Ok(resolved) => judge(is_linked(resolved, method, row)),
        Err(_) => Told::Memory,
    }
}

/// Whether nothing is found for a key in a world, and the book then chooses this method, with a row of this number.
pub(crate) fn resolve<N: Naming>(
    alloc: Global,
    ready: &Ready,
    cache: &Cache<N>,
    book: &mut Book<N>,
    pass: &mut Pass<N>,
    key: &Key,
    world: u32,
    method: u32,
    row: u32,
) -> Told
    requires ready { ready.now ≡ N.about.program.value }
    requires key { IsKeyOf N.about.program.value key.now }
{
    let Some(number) = key_in(alloc, ready, cache, book, pass, key, world) else {
        return Told::Other;
    };
    match pass.find(cache, number, world) {
        Found::Hit(_) => Told::Other,
        Found::Miss(miss) => ask(alloc, ready, cache, book, pass, miss, method, row),
    }
}

/// Whether a miss is answered by no method and no row.
fn ask_none<N: Naming>(
    alloc: Global,
    ready: &Ready,
    cache: &Cache<N>,
    book: &mut Book<N>,
    pass: &mut Pass<N>,
    miss: Miss<N>,
) -> Told
    requires ready { ready.now ≡ N.about.program.value }
    requires key { miss.key < length (keys_of pass.old.seen) }
    requires world { (prelude_count ≤ miss.world) × (miss.world ≤ world_of pass.old.seen) }
{
    match book.resolve(alloc, ready, cache, pass, miss) {
        Ok(resolved) => {
            judge(resolved.choice == Choice::None && resolved.row == RowMade::NoMethod)
        }
        Err(_) => Told::Memory,
    }
}

/// Whether nothing is found for a key in a world, and the book then chooses no method.
pub(crate) fn resolve_none<N: Naming>(
    alloc: Global,
    ready: &Ready,
    cache: &Cache<N>,
    book: &mut Book<N>,
    pass: &mut Pass<N>,
    key: &Key,
    world: u32,
) -> Told
    requires ready { ready.now ≡ N.about.program.value }
    requires key { IsKeyOf N.about.program.value key.now }
{
    let Some(number) = key_in(alloc, ready, cache, book, pass, key, world) else {
        return Told::Other;
    };
    match pass.find(cache, number, world) {
        Found::Hit(_) => Told::Other,
        Found::Miss(miss) => ask_none(alloc, ready, cache, book, pass, miss),
    }
}
