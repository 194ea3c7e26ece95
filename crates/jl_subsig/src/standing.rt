//! Which definitions no later deletion takes away, and the choice among them.

ghost use Rattle.std.specs.Prelude.{◌≡◌, ◌<◌, IsTrue, IfOk, List, length, slice_get};
ghost use Rattle.std.specs.Bool.{Decides};
ghost use Rattle.std.specs.List.{Contains};
ghost use Rattle.std.specs.List.Sorted.{IsStrictlyIncreasing};
ghost use Rattle.jl_model.specs.declared.ty.Ty.{Ty};
ghost use Rattle.jl_calculus.specs.declared.history.Def.{Def as D};
ghost use Rattle.jl_calculus.specs.Definitions.{sig_of, worlds, HasSite, AppliesTo};
ghost use Rattle.jl_subsig.specs.Side.{Every};
ghost use Rattle.jl_subsig.specs.Standing.{sig_of_place, HasPlace, AreSameSigs, IsLeft, HaveLatest, ChoosesLeft, HasLeftAt, IsLastDeletion, AreLeft, IsRepeated, AreLastOfPlaces};

use crate::definitions::choose;
use crate::latest::{is_same_sig, latest};
use crate::order::sig_sub;
use jl_calculus::history::{Def, Del};
use jl_program::choice::Choice;
use jl_sig::Ready;
use std::alloc::{AllocError, Global};

/// Whether the signatures of a site and of a deletion place are written alike.
fn is_written_alike(ready: &Ready, site: u32, place: u32) -> bool
    requires site { site < length ready.now.sites }
    requires place { place < length ready.now.deletes }
    ensures { IsTrue result → sig_of (slice_get ready.now.sites site) ≡ sig_of_place (slice_get ready.now.deletes place) }
{
    let program = ready.program();
    let sites = program.sites.as_slice();
    let places = program.deletes.as_slice();
    is_same_sig(&sites[site as usize].sig, &places[place as usize].sig)
}

/// Whether a site and a deletion place have the same signature. Two of different lengths may: signatures without rows are all the same.
pub fn is_same_at(alloc: Global, ready: &Ready, site: u32, place: u32) -> Result<bool, AllocError>
    requires site { site < length ready.now.sites }
    requires place { place < length ready.now.deletes }
    ensures { IfOk result (λ yes. Decides yes (AreSameSigs ready.now site place)) }
{
    ready.valid();
    if is_written_alike(ready, site, place) {
        return Ok(true);
    }
    let table = ready.table();
    let sig = ready.sig(site);
    let other = ready.delete_sig(place);
    if !sig_sub(alloc, table, sig, other)? {
        return Ok(false);
    }
    let is_above = sig_sub(alloc, table, other, sig)?;
    Ok(is_above)
}

/// The world of the last deletion whose place has the signature of a site, and 0 where there is none.
fn last_deletion(alloc: Global, ready: &Ready, site: u32, dels: &[Del]) -> Result<u32, AllocError>
    requires site { site < length ready.now.sites }
    requires places { Every (HasPlace ready.now) dels.now }
    ensures { IfOk result (λ world. IsLastDeletion ready.now dels.now site world) }
{
    let mut last = 0;
    for del in dels {
        if del.world <= last {
            continue;
        }
        let is_same = is_same_at(alloc, ready, site, del.place)?;
        if !is_same {
            continue;
        }
        last = del.world;
    }
    Ok(last)
}

/// Whether one of these deletions is of the same place, and no earlier.
fn is_repeated(del: Del, others: &[Del]) -> bool
    ensures { IsTrue result → IsRepeated del others.now }
{
    for other in others {
        if other.place == del.place && other.world >= del.world {
            return true;
        }
    }
    false
}

/// The deletions without those that a later one of the same place repeats.
fn last_of_places(alloc: Global, dels: &[Del]) -> Result<Vec<Del>, AllocError>
    ensures { IfOk result (λ those. AreLastOfPlaces dels.now those.items) }
{
    let mut those = Vec::new(alloc);
    for (i, del) in dels.iter().enumerate() {
        if is_repeated(*del, &dels[i + 1..]) {
            continue;
        }
        those.push(*del)?;
    }
    Ok(those)
}

/// Those of the definitions that no later deletion takes away.
fn pick_left(
    alloc: Global,
    ready: &Ready,
    defs: &[Def],
    dels: &[Del],
) -> Result<Vec<Def>, AllocError>
    requires sites { Every (HasSite ready.now) defs.now }
    requires places { Every (HasPlace ready.now) dels.now }
    ensures { IfOk result (λ those. AreLeft ready.now dels.now defs.now those.items) }
{
    let mut those = Vec::new(alloc);
    for def in defs {
        let last = last_deletion(alloc, ready, def.site, dels)?;
        if def.world < last {
            continue;
        }
        those.push(*def)?;
    }
    Ok(those)
}

/// The same, with no memory taken where there is no deletion.
fn find_left(
    alloc: Global,
    ready: &Ready,
    defs: Vec<Def>,
    dels: &[Del],
) -> Result<Vec<Def>, AllocError>
    requires sites { Every (HasSite ready.now) defs.items }
    requires places { Every (HasPlace ready.now) dels.now }
    ensures { IfOk result (λ those. AreLeft ready.now dels.now defs.items those.items) }
{
    if dels.is_empty() {
        return Ok(defs);
    }
    let last = last_of_places(alloc, dels)?;
    let those = pick_left(alloc, ready, defs.as_slice(), last.as_slice())?;
    Ok(those)
}

/// The choice among the definitions, in their order, that no later deletion takes away. All of them apply to a call. Each list may be
/// whole, or have the latest of each site or of each place alone: what takes the latest of a site away takes the earlier ones too.
/// The choice is that among all that are left. Of each site the latest definition counts and of each place the latest deletion, so
/// that what is made again and again costs little.
pub fn choose_standing(
    alloc: Global,
    ready: &Ready,
    defs: &[Def],
    dels: &[Del],
) -> Result<Choice, AllocError>
    requires sites { Every (HasSite ready.now) defs.now }
    requires places { Every (HasPlace ready.now) dels.now }
    requires ordered { IsStrictlyIncreasing (worlds defs.now) }
    ensures { IfOk result (λ c. (ts : List Ty) → Every (AppliesTo ready.now ts) defs.now → (all : List D) → HaveLatest ready.now ts all defs.now → ChoosesLeft ready.now dels.now ts all c) }
{
    ready.valid();
    let latest = latest(alloc, ready, defs)?;
    let those = find_left(alloc, ready, latest, dels)?;
    let choice = choose(alloc, ready, those.as_slice())?;
    Ok(choice)
}

/// Whether no later deletion takes a definition away. Deletions that are no later are not compared.
fn is_left(alloc: Global, ready: &Ready, def: Def, dels: &[Del]) -> Result<bool, AllocError>
    requires site { HasSite ready.now def }
    requires places { Every (HasPlace ready.now) dels.now }
    ensures { IfOk result (λ yes. Decides yes (IsLeft ready.now dels.now def)) }
{
    for del in dels {
        if del.world <= def.world {
            continue;
        }
        let is_same = is_same_at(alloc, ready, def.site, del.place)?;
        if is_same {
            return Ok(false);
        }
    }
    Ok(true)
}

/// Whether a definition has the signature of a deletion place, and no later deletion takes it away.
fn is_left_at(
    alloc: Global,
    ready: &Ready,
    place: u32,
    def: Def,
    dels: &[Del],
) -> Result<bool, AllocError>
    requires place { place < length ready.now.deletes }
    requires site { HasSite ready.now def }
    requires places { Every (HasPlace ready.now) dels.now }
    ensures { IfOk result (λ yes. Decides yes (IsLeft ready.now dels.now def × AreSameSigs ready.now def.site place)) }
{
    let is_same = is_same_at(alloc, ready, def.site, place)?;
    if !is_same {
        return Ok(false);
    }
    is_left(alloc, ready, def, dels)
}

/// How many of the next definitions are asked whether one is of the same site. All of them would cost the square of their number.
const NEXT_DEFINITIONS: usize = 64;

/// Whether one of the next definitions is of the same site.
fn is_made_again(def: Def, later: &[Def]) -> bool
    ensures { IsTrue result → (e : D) × Contains later.now e × (e.site ≡ def.site) }
{
    for (i, other) in later.iter().enumerate() {
        if i == NEXT_DEFINITIONS {
            return false;
        }
        if other.site == def.site {
            return true;
        }
    }
    false
}

/// Whether one of the definitions, in their order, that no later deletion takes away has the signature of a deletion place. The newest
/// are asked first, so that one that is there is mostly found at once. Each list may be whole, or have the latest of each site or of
/// each place alone.
pub fn has_standing(
    alloc: Global,
    ready: &Ready,
    place: u32,
    defs: &[Def],
    dels: &[Del],
) -> Result<bool, AllocError>
    requires place { place < length ready.now.deletes }
    requires sites { Every (HasSite ready.now) defs.now }
    requires places { Every (HasPlace ready.now) dels.now }
    requires ordered { IsStrictlyIncreasing (worlds defs.now) }
    ensures { IfOk result (λ yes. Decides yes (HasLeftAt ready.now dels.now defs.now place)) }
{
    for past in 0..defs.len() {
        let at = defs.len() - 1 - past;
        let def = defs[at];
        if is_made_again(def, &defs[at + 1..]) {
            continue;
        }
        let is_left = is_left_at(alloc, ready, place, def, dels)?;
        if is_left {
            return Ok(true);
        }
    }
    Ok(false)
}
