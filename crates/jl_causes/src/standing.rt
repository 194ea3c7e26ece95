//! Whether a method with the signature of a deletion place stands in a world.

ghost use Rattle.std.specs.Prelude.{◌≡◌, ◌<◌, ◌≤◌, ◌+◌, ◌++◌, ◌∷◌, [], ℕ, List, IfOk, OnOk, MatchOption, length, map, slice_get, Some};
ghost use Rattle.std.specs.Bool.{Decides};
ghost use Rattle.std.specs.List.{Contains};
ghost use Rattle.jl_program.specs.declared.tree.Delete.{Delete};
ghost use Rattle.jl_program.specs.declared.tree.Program.{Program};
ghost use Rattle.jl_program.specs.declared.tree.Site.{Site};
ghost use Rattle.jl_program.specs.Prelude.{prelude_numbers};
ghost use Rattle.jl_calculus.specs.declared.history.Change.{Change};
ghost use Rattle.jl_calculus.specs.declared.history.Change.TheVariants as Ch;
ghost use Rattle.jl_methods.specs.Numbered.{nth, RisesFrom};
ghost use Rattle.jl_causes.specs.Stands.{lists_in, IsAlike, AreAlike, AllNone, AreFoundAt, AreStanding, HasThere, IsTaken, SaysLater};

use crate::lists::Lists;
use jl_program::prelude::PRELUDE_SITES;
use jl_report::{Entry, Step};
use jl_sig::Ready;
use jl_subsig::is_same_at;
use std::alloc::{AllocError, Global};

/// For each deletion place the sites that it takes away, which is a fact of the program, found once for the places that entries name. And for
/// each site the worlds that its definitions made, and those in which a deletion took away a method of it that stood, so that there are no
/// more of these. Two sites that one place takes away need not have the same signature, so the worlds are kept by site.
#[derive(Drop)]
pub(crate) struct Standing {
    pub(crate) alike: Vec<Option<Vec<u32>>>,
    pub(crate) made: Lists,
    pub(crate) gone: Lists,
}

/// How many there are, as a number of a site or of a place. No machine has memory for a program of more.
fn count_of(length: usize) -> Result<u32, AllocError>
    ensures { IfOk result (λ count. count ≡ length) }
{
    if length > u32::MAX as usize {
        return Err(AllocError);
    }
    Ok(length as u32)
}

/// The function of a site.
fn function_of_site(ready: &Ready, site: u32) -> u32
    requires { site < length ready.now.sites }
    ensures { (s : Site) → slice_get ready.now.sites site ≡ Some s → result ≡ s.function }
{
    ready.program().sites.as_slice()[site as usize].function
}

/// The function of a deletion place.
fn function_of_place(ready: &Ready, place: u32) -> u32
    requires { place < length ready.now.deletes }
    ensures { (p : Delete) → slice_get ready.now.deletes place ≡ Some p → result ≡ p.function }
{
    ready.program().deletes.as_slice()[place as usize].function
}

/// Whether a deletion at a place takes the methods of a site away.
fn is_alike(alloc: Global, ready: &Ready, site: u32, place: u32) -> Result<bool, AllocError>
    requires site { site < length ready.now.sites }
    requires place { place < length ready.now.deletes }
    ensures { IfOk result (λ yes. Decides yes (IsAlike ready.now site place)) }
{
    let function = function_of_site(ready, site);
    let other = function_of_place(ready, place);
    if function != other {
        return Ok(false);
    }
    let is_same = is_same_at(alloc, ready, site, place)?;
    Ok(is_same)
}

/// The sites that a deletion at a place takes away, in order.
fn find_alike(alloc: Global, ready: &Ready, place: u32) -> Result<Vec<u32>, AllocError>
    requires { place < length ready.now.deletes }
    ensures { IfOk result (λ those. AreAlike ready.now place those.items) }
{
    let count = count_of(ready.program().sites.len())?;
    let mut those = Vec::new(alloc);
    for site in 0..count {
        if is_alike(alloc, ready, site, place)? {
            those.push(site)?;
        }
    }
    Ok(those)
}

/// A place for the sites of each deletion place, none of which were found yet.
fn nothing_found(alloc: Global, count: usize) -> Result<Vec<Option<Vec<u32>>>, AllocError>
    ensures many { IfOk result (λ alike. length alike.items ≡ count) }
    ensures none { IfOk result (λ alike. AllNone alike.items) }
{
    let mut alike = Vec::new(alloc);
    for _ in 0..count {
        alike.push(None)?;
    }
    Ok(alike)
}

/// The sites that a deletion at a place takes away, where they were found.
fn sites_of(alike: &[Option<Vec<u32>>], place: u32) -> Option<&[u32]>
    ensures { MatchOption result (Unit {0}) (λ sites. AreFoundAt (slice_get alike.now place) sites.now) }
{
    match alike.get(place as usize) {
        Some(found) => match found {
            Some(those) => Some(those.as_slice()),
            None => None,
        },
        None => None,
    }
}

/// Whether the last definition of a site up to a world is later than the last deletion that took it away.
fn stands(made: &Lists, gone: &Lists, site: u32, world: u32) -> bool
    ensures { RisesFrom 0 (nth (lists_in made.now) site) → RisesFrom 0 (nth (lists_in gone.now) site) → SaysLater result (nth (lists_in made.now) site) (nth (lists_in gone.now) site) world }
{
    gone.last(site, world) < made.last(site, world)
}

/// Notes that a deletion took a site away, which made this world, where a method of the site stood before.
fn take_away(made: &Lists, gone: &mut Lists, site: u32, world: u32) -> Result<(), AllocError>
    requires { site < length (lists_in gone.old) }
    ensures many { OnOk result (length (lists_in gone.new) ≡ length (lists_in gone.old)) }
    ensures others { OnOk result ((m : ℕ) → (m ≡ site → ⊥) → nth (lists_in gone.new) m ≡ nth (lists_in gone.old) m) }
    ensures taken { OnOk result (RisesFrom 0 (nth (lists_in made.now) site) → RisesFrom 0 (nth (lists_in gone.old) site) → IsTaken world (nth (lists_in made.now) site) (nth (lists_in gone.old) site) (nth (lists_in gone.new) site)) }
{
    if !stands(made, gone, site, world) {
        return Ok(());
    }
    gone.put(site, world)?;
    Ok(())
}

/// The same of each of these sites.
fn take_each(made: &Lists, gone: &mut Lists, sites: &[u32], world: u32) -> Result<(), AllocError>
    requires known { (m : ℕ) → Contains sites.now m → m < length (lists_in gone.old) }
    requires rises { RisesFrom 0 sites.now }
    ensures many { OnOk result (length (lists_in gone.new) ≡ length (lists_in gone.old)) }
    ensures others { OnOk result ((m : ℕ) → (Contains sites.now m → ⊥) → nth (lists_in gone.new) m ≡ nth (lists_in gone.old) m) }
    ensures taken { OnOk result ((m : ℕ) → Contains sites.now m → RisesFrom 0 (nth (lists_in made.now) m) → RisesFrom 0 (nth (lists_in gone.old) m) → IsTaken world (nth (lists_in made.now) m) (nth (lists_in gone.old) m) (nth (lists_in gone.new) m)) }
{
    for site in sites {
        take_away(made, gone, *site, world)?;
    }
    Ok(())
}

/// What stands where nothing was defined.
fn nothing_stands(alloc: Global, ready: &Ready) -> Result<Standing, AllocError>
    ensures { IfOk result (λ standing. AreStanding ready.now [] standing) }
{
    let places = ready.program().deletes.len();
    let sites = ready.program().sites.len();
    let alike = nothing_found(alloc, places)?;
    let made = Lists::new(alloc, sites)?;
    let gone = Lists::new(alloc, sites)?;
    Ok(Standing { alike, made, gone })
}

/// What stands before the first event: the prelude's definitions.
fn prelude_stands(alloc: Global, ready: &Ready) -> Result<Standing, AllocError>
    ensures { IfOk result (λ standing. AreStanding ready.now (map Ch.Def prelude_numbers) standing) }
{
    ready.valid();
    let mut standing = nothing_stands(alloc, ready)?;
    for site in 0..PRELUDE_SITES {
        standing.define(site, site + 1)?;
    }
    Ok(standing)
}

impl Standing {
    /// What stands before the first event, with the sites of all deletion places that entries name. The cost is in these places and the
    /// sites of the program: of each two of one function the signatures are compared once.
    pub(crate) fn new(
        alloc: Global,
        ready: &Ready,
        entries: &[Entry],
    ) -> Result<Standing, AllocError>
        ensures { IfOk result (λ standing. AreStanding ready.now (map Ch.Def prelude_numbers) standing) }
    {
        let mut standing = prelude_stands(alloc, ready)?;
        for entry in entries {
            standing.learn_entry(alloc, ready, entry)?;
        }
        Ok(standing)
    }

    /// The sites that a deletion at a place takes away are found, where they were not yet.
    fn learn(&mut self, alloc: Global, ready: &Ready, place: u32) -> Result<(), AllocError>
        requires { (cs : List Change) × AreStanding ready.now cs self.old }
        ensures { OnOk result ((cs : List Change) → AreStanding ready.now cs self.old → AreStanding ready.now cs self.new) }
    {
        if place as usize >= self.alike.len() || self.alike[place as usize].is_some() {
            return Ok(());
        }
        let those = find_alike(alloc, ready, place)?;
        self.alike[place as usize] = Some(those);
        Ok(())
    }

    /// Those of the place where a task found nothing to delete.
    fn learn_step(&mut self, alloc: Global, ready: &Ready, step: &Step) -> Result<(), AllocError>
        requires { (cs : List Change) × AreStanding ready.now cs self.old }
        ensures { OnOk result ((cs : List Change) → AreStanding ready.now cs self.old → AreStanding ready.now cs self.new) }
    {
        match step {
            Step::Absent { place, .. } => self.learn(alloc, ready, *place),
            Step::Look { .. }
            | Step::Def { .. }
            | Step::Spawn { .. }
            | Step::Fetch { .. }
            | Step::WorldFull { .. }
            | Step::TaskFull { .. }
            | Step::Del { .. } => Ok(()),
        }
    }

    /// Those of all such places of a trace.
    fn learn_steps(
        &mut self,
        alloc: Global,
        ready: &Ready,
        steps: &[Step],
    ) -> Result<(), AllocError>
        requires { (cs : List Change) × AreStanding ready.now cs self.old }
        ensures { OnOk result ((cs : List Change) → AreStanding ready.now cs self.old → AreStanding ready.now cs self.new) }
    {
        for step in steps {
            self.learn_step(alloc, ready, step)?;
        }
        Ok(())
    }

    /// Those of the places that an entry names.
    fn learn_entry(&mut self, alloc: Global, ready: &Ready, entry: &Entry) -> Result<(), AllocError>
        requires { (cs : List Change) × AreStanding ready.now cs self.old }
        ensures { OnOk result ((cs : List Change) → AreStanding ready.now cs self.old → AreStanding ready.now cs self.new) }
    {
        match entry {
            Entry::Del { place, .. } => self.learn(alloc, ready, *place),
            Entry::Done { trace, .. } => self.learn_steps(alloc, ready, trace.as_slice()),
            Entry::Begin(_)
            | Entry::Key { .. }
            | Entry::Fill { .. }
            | Entry::Def { .. }
            | Entry::Spawn { .. } => Ok(()),
        }
    }

    /// Whether a method of one of these sites stands in a world.
    fn has_one(&self, sites: &[u32], world: u32) -> bool
        ensures { (P : Program) (cs : List Change) (place : ℕ) → AreStanding P cs self.now → AreAlike P place sites.now → world ≤ length cs → Decides result (HasThere P cs place world) }
    {
        for site in sites {
            if stands(&self.made, &self.gone, *site, world) {
                return true;
            }
        }
        false
    }

    /// Whether a method with the function and the signature of a deletion place stands in a world. The cost is in the sites that the place
    /// takes away, where these were found before.
    pub(crate) fn has_method(
        &self,
        alloc: Global,
        ready: &Ready,
        place: u32,
        world: u32,
    ) -> Result<bool, AllocError>
        requires { place < length ready.now.deletes }
        ensures { IfOk result (λ yes. (cs : List Change) → AreStanding ready.now cs self.now → world ≤ length cs → Decides yes (HasThere ready.now cs place world)) }
    {
        let alike = self.alike.as_slice();
        match sites_of(alike, place) {
            Some(sites) => Ok(self.has_one(sites, world)),
            None => {
                let those = find_alike(alloc, ready, place)?;
                let sites = those.as_slice();
                Ok(self.has_one(sites, world))
            }
        }
    }

    /// One more definition, which made this world.
    pub(crate) fn define(&mut self, site: u32, world: u32) -> Result<(), AllocError>
        requires { site < length (lists_in self.old.made) }
        ensures { OnOk result ((P : Program) (cs : List Change) → AreStanding P cs self.old → world ≡ length cs + 1 → AreStanding P (cs ++ Ch.Def site ∷ []) self.new) }
    {
        self.made.put(site, world)?;
        Ok(())
    }

    /// One more deletion, which made this world.
    pub(crate) fn delete(
        &mut self,
        alloc: Global,
        ready: &Ready,
        place: u32,
        world: u32,
    ) -> Result<(), AllocError>
        requires { (cs : List Change) × AreStanding ready.now cs self.old × (place < length ready.now.deletes) }
        ensures { OnOk result ((cs : List Change) → AreStanding ready.now cs self.old → world ≡ length cs + 1 → AreStanding ready.now (cs ++ Ch.Del place ∷ []) self.new) }
    {
        let alike = self.alike.as_slice();
        match sites_of(alike, place) {
            Some(sites) => {
                take_each(&self.made, &mut self.gone, sites, world)?;
                Ok(())
            }
            None => {
                let those = find_alike(alloc, ready, place)?;
                let sites = those.as_slice();
                take_each(&self.made, &mut self.gone, sites, world)?;
                Ok(())
            }
        }
    }
}
