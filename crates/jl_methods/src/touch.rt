//! Which changes touch which keys.

ghost use Rattle.std.specs.Prelude.{◌≡◌, ◌<◌, ◌≤◌, true, false, List, All, IfOk, MatchOption, Some, length};
ghost use Rattle.std.specs.Bool.{Decides};
ghost use Rattle.std.specs.List.Sorted.{IsStrictlyIncreasing};
ghost use Rattle.jl_model.specs.declared.ty.Key.{Key};
ghost use Rattle.jl_program.specs.declared.tree.Program.{Program};
ghost use Rattle.jl_program.specs.Scope.{all_types};
ghost use Rattle.jl_calculus.specs.declared.history.Change.TheVariants as Ch;
ghost use Rattle.jl_calculus.specs.declared.history.Event.{Event};
ghost use Rattle.jl_calculus.specs.Definitions.{defs_in, worlds};
ghost use Rattle.jl_calculus.specs.Legal.{IsKeyOf};
ghost use Rattle.jl_calculus.specs.Ranges.{head_of, ChangeTouches};
ghost use Rattle.jl_sig.specs.Prepared.{IsSigOf};
ghost use Rattle.jl_sig.specs.SigParts.{written_of};
ghost use Rattle.jl_methods.specs.Filters.{dels_in, defs_at, ChangeApplies, HasSig, IsOfProgram};
ghost use Rattle.jl_methods.specs.Indexed.{IsIndex, IsIndexOf};
ghost use Rattle.jl_methods.specs.Latest.{HaveLatestOfSites, HaveLatestOfPlaces};
ghost use Rattle.jl_methods.specs.Links.{AreApplying};

use crate::index::{Index, function_of};
use crate::latest::def_by;
use jl_calculus::history::{Change, Def, Del};
use jl_match::applies;
use jl_model::ty::Key;
use jl_sig::{Ready, Sig};
use std::alloc::{AllocError, Global};

/// Whether there is a value.
fn is_there<T: Drop>(found: Option<T>) -> bool
    ensures { MatchOption found (result ≡ false) (λ _. result ≡ true) }
{
    found.is_some()
}

/// The signature of a change.
fn sig_of(ready: &Ready, change: Change) -> &Sig
    requires { IsOfProgram ready.now change }
    ensures written { HasSig (head_of ready.now change) (written_of result.now) }
    ensures kept { IsSigOf (all_types ready.now) result.now }
{
    match change {
        Change::Def(site) => ready.sig(site),
        Change::Del(place) => ready.delete_sig(place),
    }
}

/// Whether the signature of a change applies to the types of a key.
fn change_applies(
    alloc: Global,
    ready: &Ready,
    change: Change,
    key: &Key,
) -> Result<bool, AllocError>
    requires change { IsOfProgram ready.now change }
    requires key { IsKeyOf ready.now key.now }
    ensures { IfOk result (λ yes. Decides yes (ChangeApplies ready.now change key.now.types)) }
{
    let found = applies(
        alloc,
        ready.table(),
        sig_of(ready, change),
        key.types.as_slice(),
    )?;
    Ok(is_there(found))
}

/// Whether a change touches a key: it is of its function, and its signature applies to its types.
pub fn touches(alloc: Global, ready: &Ready, change: Change, key: &Key) -> Result<bool, AllocError>
    requires change { IsOfProgram ready.now change }
    requires key { IsKeyOf ready.now key.now }
    ensures { IfOk result (λ yes. Decides yes (ChangeTouches ready.now (Some change) key.now)) }
{
    if function_of(ready, change) != key.function {
        return Ok(false);
    }
    let does_apply = change_applies(alloc, ready, change, key)?;
    Ok(does_apply)
}

/// How many there are, as a number of a site or of a place. No machine has memory for a program of more.
fn count_of(length: usize) -> Result<u32, AllocError>
    ensures { IfOk result (λ count. count ≡ length) }
{
    if length > u32::MAX as usize {
        return Err(AllocError);
    }
    Ok(length as u32)
}

/// The sites whose definitions touch a key, in order: those of its function whose signatures apply to its types. It is a fact of the
/// program. The cost is in the sites of the function.
pub fn find_sites(alloc: Global, ready: &Ready, key: &Key) -> Result<Vec<u32>, AllocError>
    requires key { IsKeyOf ready.now key.now }
    ensures { IfOk result (λ sites. AreApplying ready.now Ch.Def key.now sites.items) }
{
    let count = count_of(ready.program().sites.len())?;
    let mut those = Vec::new(alloc);
    for site in 0..count {
        if touches(alloc, ready, Change::Def(site), key)? {
            those.push(site)?;
        }
    }
    Ok(those)
}

/// The deletion places whose deletions touch a key, in order.
pub fn find_places(alloc: Global, ready: &Ready, key: &Key) -> Result<Vec<u32>, AllocError>
    requires key { IsKeyOf ready.now key.now }
    ensures { IfOk result (λ places. AreApplying ready.now Ch.Del key.now places.items) }
{
    let count = count_of(ready.program().deletes.len())?;
    let mut those = Vec::new(alloc);
    for place in 0..count {
        if touches(alloc, ready, Change::Del(place), key)? {
            those.push(place)?;
        }
    }
    Ok(those)
}

/// The definitions that made some of these worlds.
fn make_defs(alloc: Global, changes: &[Change], worlds: &[u32]) -> Result<Vec<Def>, AllocError>
    requires { All (λ n. (1 ≤ n) × (n ≤ length changes.now)) worlds.now }
    ensures { IfOk result (λ defs. defs.items ≡ defs_at changes.now worlds.now) }
{
    let mut defs = Vec::new(alloc);
    for world in worlds {
        let change = changes[*world as usize - 1];
        match def_by(*world, change) {
            Some(def) => defs.push(def)?,
            None => {}
        }
    }
    Ok(defs)
}

impl Index {
    /// Of the definitions up to a world the latest of each of some sites, in order, whether or not they are deleted. These are the sites that
    /// apply to a key, which the history need not have. The cost is in these sites, however often they were defined.
    pub fn defs_among(
        &self,
        alloc: Global,
        sites: &[u32],
        world: u32,
    ) -> Result<Vec<Def>, AllocError>
        requires { (P : Program) × IsIndex P self.now }
        ensures latest { IfOk result (λ defs. (P : Program) (es : List Event) (k : Key) → IsIndexOf P es self.now → AreApplying P Ch.Def k sites.now → HaveLatestOfSites P k.types (defs_in P es k.function world) defs.items) }
        ensures ordered { IfOk result (λ defs. IsStrictlyIncreasing (worlds defs.items)) }
    {
        let made = self.sites.latest_of(alloc, sites, world)?;
        let defs = make_defs(alloc, self.changes.as_slice(), made.as_slice())?;
        Ok(defs)
    }

    /// Of the deletions up to a world the latest of each of some places. These are the places that apply to a key, which the history need
    /// not have.
    pub fn dels_among(
        &self,
        alloc: Global,
        places: &[u32],
        world: u32,
    ) -> Result<Vec<Del>, AllocError>
        ensures { IfOk result (λ dels. (P : Program) (es : List Event) (k : Key) → IsIndexOf P es self.now → AreApplying P Ch.Del k places.now → HaveLatestOfPlaces P k.types (dels_in P es k.function world) dels.items) }
    {
        let dels = self.places.latest_dels(alloc, places, world)?;
        Ok(dels)
    }
}
