//! The pairs of definitions between which calls are ambiguous.

ghost use Rattle.std.specs.Prelude.{ℕ, ◌≡◌, ◌+◌, ◌≤◌, ◌++◌, List, IfOk, OnOk, length};
ghost use Rattle.std.specs.List.{All, filter};
ghost use Rattle.jl_calculus.specs.declared.history.Event.{Event as E};
ghost use Rattle.jl_calculus.specs.Definitions.{HasSite};
ghost use Rattle.jl_calculus.specs.Legal.{MayStand};
ghost use Rattle.jl_calculus.specs.World.{changes};
ghost use Rattle.jl_subsig.specs.Side.{Every};
ghost use Rattle.jl_ambig.specs.Asked.{AreTypes, Probe, probes_of, probes_up_to, AreFound, AreBelow, has_components};
ghost use Rattle.jl_ambig.specs.Pairs.{ArePairs};

use crate::asking::ask_all;
use crate::lists::{longer, no_types};
use crate::made::{changes_of, components};
use crate::noting::Pair;
use crate::probing::probe_types;
use jl_calculus::history::{Def, Event};
use jl_choosing::Changes;
use jl_model::ty::Tys;
use jl_program::tree::Site;
use jl_sig::Ready;
use std::alloc::{AllocError, Global};

/// The number after that of the function of a site.
fn after(site: &Site) -> u64
    ensures next { result ≡ site.now.function + 1 }
    ensures few { result ≤ 4294967296 }
{
    u64::from(site.function) + 1
}

/// Above the number of each function that a site is of.
fn functions(ready: &Ready) -> u64
    ensures few { result ≤ 4294967296 }
    ensures all { AreBelow ready.now.sites result }
{
    let mut above = 0;
    for site in ready.program().sites.as_slice() {
        let next = after(site);
        if next <= above {
            continue;
        }
        above = next;
    }
    above
}

/// Those of definitions that have so many components.
fn with_components(
    alloc: Global,
    ready: &Ready,
    defs: &[Def],
    count: usize,
) -> Result<Vec<Def>, AllocError>
    requires { Every (HasSite ready.now) defs.now }
    ensures { IfOk result (λ those. those.items ≡ filter (has_components ready.now count) defs.now) }
{
    let mut those = Vec::new(alloc);
    for def in defs {
        let parts = components(ready, def.site);
        if parts != count {
            continue;
        }
        those.push(*def)?;
    }
    Ok(those)
}

/// Asks a function with these lists of so many types, unless it has one definition of so many components at most: then no call is
/// ambiguous.
fn ask_function(
    alloc: Global,
    made: &Changes<'_>,
    world: u32,
    function: u32,
    count: usize,
    lists: &[Tys],
    pairs: &mut Vec<Pair>,
) -> Result<(), AllocError>
    requires world { world ≡ length made.now.1 }
    requires types { All (AreTypes made.now.0) lists.now }
    requires long { All (λ ts. length ts ≡ count) lists.now }
    ensures { OnOk result ((es : List E) (done : List Probe) → changes es ≡ made.now.1 → AreFound made.now.0 es done pairs.old.items → AreFound made.now.0 es (done ++ probes_of function lists.now) pairs.new.items) }
{
    let ready = made.ready();
    ready.valid();
    let latest = made.defs_of(function, world);
    let defs = with_components(alloc, ready, latest, count)?;
    if defs.len() < 2 {
        return Ok(());
    }
    let dels = made.dels_of(function, world);
    ask_all(alloc, ready, defs.as_slice(), dels, lists, pairs)?;
    Ok(())
}

/// Asks each function below a number with these lists of so many types.
fn ask_functions(
    alloc: Global,
    made: &Changes<'_>,
    world: u32,
    above: u64,
    count: usize,
    lists: &[Tys],
    pairs: &mut Vec<Pair>,
) -> Result<(), AllocError>
    requires world { world ≡ length made.now.1 }
    requires few { above ≤ 4294967296 }
    requires types { All (AreTypes made.now.0) lists.now }
    requires long { All (λ ts. length ts ≡ count) lists.now }
    ensures { OnOk result ((es : List E) (done : List Probe) → changes es ≡ made.now.1 → AreFound made.now.0 es done pairs.old.items → AreFound made.now.0 es (done ++ probes_up_to above lists.now) pairs.new.items) }
{
    for function in 0..above {
        ask_function(alloc, made, world, function as u32, count, lists, pairs)?;
    }
    Ok(())
}

/// The pairs of definitions between which calls are ambiguous in the newest world of a history, by the first and then by the second, each
/// with the first types of arguments that show it. Each function is asked with all lists of at most three of the first 32 of `Int64`,
/// `Bool`, `Nothing`, `Task`, the structs without parameters and the types of the history's keys.
pub fn pairs(alloc: Global, ready: &Ready, events: &[Event]) -> Result<Vec<Pair>, AllocError>
    requires { MayStand ready.now events.now }
    ensures { IfOk result (λ pairs. ArePairs ready.now events.now pairs.items) }
{
    ready.valid();
    let made = changes_of(alloc, ready, events)?;
    let world = made.all().len() as u32;
    let above = functions(ready);
    let kept = probe_types(alloc, ready, events)?;
    let types = kept.as_slice();
    let mut found = Vec::new(alloc);
    let first = no_types(alloc)?;
    let none = first.as_slice();
    ask_functions(alloc, &made, world, above, 0, none, &mut found)?;
    let second = longer(alloc, none, types)?;
    let ones = second.as_slice();
    ask_functions(alloc, &made, world, above, 1, ones, &mut found)?;
    let third = longer(alloc, ones, types)?;
    let twos = third.as_slice();
    ask_functions(alloc, &made, world, above, 2, twos, &mut found)?;
    let fourth = longer(alloc, twos, types)?;
    let threes = fourth.as_slice();
    ask_functions(alloc, &made, world, above, 3, threes, &mut found)?;
    Ok(found)
}
