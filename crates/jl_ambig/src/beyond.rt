//! The definitions that have more components than functions are asked with.

ghost use Rattle.std.specs.Prelude.{ℕ, ◌≡◌, ◌<◌, IfOk, OnOk, List, None, Some, get_or, slice_set, length};
ghost use Rattle.std.specs.Bool.{Decides};
ghost use Rattle.jl_calculus.specs.declared.history.Change.TheVariants as Ch;
ghost use Rattle.jl_calculus.specs.declared.history.Event.{Event as E};
ghost use Rattle.jl_calculus.specs.Legal.{MayStand};
ghost use Rattle.jl_calculus.specs.World.{changes, change_at};
ghost use Rattle.jl_methods.specs.Filters.{IsOfProgram};
ghost use Rattle.jl_subsig.specs.Side.{Every};
ghost use Rattle.jl_subsig.specs.Standing.{HasPlace, AreSameSigs, IsLastDeletion};
ghost use Rattle.jl_ambig.specs.Asked.{IsEndOf, AreEnds};
ghost use Rattle.jl_ambig.specs.Pairs.{IsUnexamined, AreUnexamined};

use crate::made::{changes_of, components};
use crate::probing::MOST_COMPONENTS;
use jl_calculus::history::{Change, Def, Del, Event};
use jl_choosing::Changes;
use jl_sig::Ready;
use jl_subsig::has_standing;
use std::alloc::{AllocError, Global};

/// Whether the signatures of a site and of a deletion place are the same.
fn is_same_at(alloc: Global, ready: &Ready, site: u32, place: u32) -> Result<bool, AllocError>
    requires site { site < length ready.now.sites }
    requires place { place < length ready.now.deletes }
    ensures { IfOk result (λ yes. Decides yes (AreSameSigs ready.now site place)) }
{
    let defs = [Def { world: 0, site }];
    let yes = has_standing(alloc, ready, place, &defs, &[])?;
    Ok(yes)
}

/// The world of the last deletion whose place has the signature of a site, and 0 where there is none.
fn last_deletion(alloc: Global, ready: &Ready, site: u32, dels: &[Del]) -> Result<u32, AllocError>
    requires site { site < length ready.now.sites }
    requires places { Every (HasPlace ready.now) dels.now }
    ensures { IfOk result (λ world. IsLastDeletion ready.now dels.now site world) }
{
    let mut last = 0;
    for del in dels {
        if del.world <= last {
            continue;
        }
        let is_same = is_same_at(alloc, ready, site, del.place)?;
        if !is_same {
            continue;
        }
        last = del.world;
    }
    Ok(last)
}

/// The last deletion of the signature of a site.
fn end_of(alloc: Global, made: &Changes<'_>, world: u32, site: u32) -> Result<u32, AllocError>
    requires world { world ≡ length made.now.1 }
    requires site { site < length made.now.0.sites }
    ensures { IfOk result (λ end. IsEndOf made.now.0 made.now.1 site end) }
{
    let ready = made.ready();
    ready.valid();
    let sites = ready.program().sites.as_slice();
    let at = site as usize;
    let row = &sites[at];
    let dels = made.dels_of(row.function, world);
    let last = last_deletion(alloc, ready, site, dels)?;
    Ok(last)
}

/// No deletion is known of so many sites.
fn no_ends(alloc: Global, sites: usize) -> Result<Vec<Option<u32>>, AllocError>
    ensures count { IfOk result (λ ends. length ends.items ≡ sites) }
    ensures empty { IfOk result (λ ends. (s : ℕ) → get_or ends.items s None ≡ None) }
{
    let mut ends = Vec::new(alloc);
    for _ in 0..sites {
        ends.push(None)?;
    }
    Ok(ends)
}

/// Keeps the last deletion of the signature of a site.
fn keep_end(ends: &mut Vec<Option<u32>>, site: u32, end: u32)
    requires { site < length ends.old.items }
    ensures { ends.new.items ≡ slice_set ends.old.items site (Some end) }
{
    ends[site as usize] = Some(end);
}

/// The last deletion of the signature of a site, which is sought once.
fn find_end(
    alloc: Global,
    made: &Changes<'_>,
    world: u32,
    site: u32,
    ends: &mut Vec<Option<u32>>,
) -> Result<u32, AllocError>
    requires world { world ≡ length made.now.1 }
    requires site { site < length made.now.0.sites }
    requires ends { AreEnds made.now.0 made.now.1 ends.old.items }
    ensures ends { OnOk result (AreEnds made.now.0 made.now.1 ends.new.items) }
    ensures end { IfOk result (λ end. IsEndOf made.now.0 made.now.1 site end) }
{
    if let Some(end) = ends[site as usize] {
        return Ok(end);
    }
    let end = end_of(alloc, made, world, site)?;
    keep_end(ends, site, end);
    Ok(end)
}

/// Whether the definition that made a world stands and has more components than functions are asked with.
fn is_beyond(
    alloc: Global,
    made: &Changes<'_>,
    newest: u32,
    world: u32,
    site: u32,
    ends: &mut Vec<Option<u32>>,
) -> Result<bool, AllocError>
    requires world { newest ≡ length made.now.1 }
    requires site { site < length made.now.0.sites }
    requires ends { AreEnds made.now.0 made.now.1 ends.old.items }
    ensures ends { OnOk result (AreEnds made.now.0 made.now.1 ends.new.items) }
    ensures yes { IfOk result (λ yes. (es : List E) → changes es ≡ made.now.1 → change_at es world ≡ Some (Ch.Def site) → Decides yes (IsUnexamined made.now.0 es world)) }
{
    let parts = components(made.ready(), site);
    if parts <= MOST_COMPONENTS {
        return Ok(false);
    }
    let end = find_end(alloc, made, newest, site, ends)?;
    if world < end {
        return Ok(false);
    }
    Ok(true)
}

/// The same of the change that made a world.
fn is_unexamined(
    alloc: Global,
    made: &Changes<'_>,
    newest: u32,
    world: u32,
    change: Change,
    ends: &mut Vec<Option<u32>>,
) -> Result<bool, AllocError>
    requires world { newest ≡ length made.now.1 }
    requires change { IsOfProgram made.now.0 change }
    requires ends { AreEnds made.now.0 made.now.1 ends.old.items }
    ensures ends { OnOk result (AreEnds made.now.0 made.now.1 ends.new.items) }
    ensures yes { IfOk result (λ yes. (es : List E) → changes es ≡ made.now.1 → change_at es world ≡ Some change → Decides yes (IsUnexamined made.now.0 es world)) }
{
    match change {
        Change::Def(site) => {
            let yes = is_beyond(alloc, made, newest, world, site, ends)?;
            Ok(yes)
        }
        Change::Del(_) => Ok(false),
    }
}

/// The definitions, by the worlds that they made, that stand in the newest world of a history and have more components than functions are
/// asked with, in order.
pub fn unexamined(alloc: Global, ready: &Ready, events: &[Event]) -> Result<Vec<u32>, AllocError>
    requires { MayStand ready.now events.now }
    ensures { IfOk result (λ worlds. AreUnexamined ready.now events.now worlds.items) }
{
    ready.valid();
    let made = changes_of(alloc, ready, events)?;
    let all = made.all();
    let newest = all.len() as u32;
    let mut ends = no_ends(alloc, ready.program().sites.len())?;
    let mut worlds = Vec::new(alloc);
    for (i, change) in all.iter().enumerate() {
        let world = i as u32 + 1;
        let yes = is_unexamined(alloc, &made, newest, world, *change, &mut ends)?;
        if !yes {
            continue;
        }
        worlds.push(world)?;
    }
    Ok(worlds)
}
