//! The definitions and the deletions that were made, in order, and found by their functions.

ghost use Rattle.std.specs.Prelude.{ℕ, false, ◌-◌, ◌≡◌, ◌<◌, ◌≤◌, ◌++◌, [], ◌∷◌, List, map, take, length, get_or, cond, nat_eq, IfOk, OnOk, OnErr};
ghost use Rattle.jl_model.specs.declared.limits.TheConstants.{MOST_WORLDS};
ghost use Rattle.jl_program.specs.declared.tree.Program.{Program};
ghost use Rattle.jl_program.specs.Prelude.{prelude_numbers};
ghost use Rattle.jl_calculus.specs.declared.history.Change.{Change as C};
ghost use Rattle.jl_calculus.specs.declared.history.Change.TheVariants as Ch;
ghost use Rattle.jl_calculus.specs.declared.history.Event.{Event};
ghost use Rattle.jl_calculus.specs.Definitions.{defs_from, dels_from};
ghost use Rattle.jl_calculus.specs.Legal.{IsKeyOf};
ghost use Rattle.jl_calculus.specs.World.{changes, Selects};
ghost use Rattle.jl_methods.specs.Filters.{IsOfProgram};
ghost use Rattle.jl_methods.specs.Latest.{renewed, place_number};
ghost use Rattle.jl_methods.specs.Numbered.{put_at};
ghost use Rattle.jl_methods.specs.Room.{IsRoomy};
ghost use Rattle.jl_choosing.specs.ByFunction.{in_world, AreBefore, AreDelsBefore, AreLatest, AreLatestDels, AreLastPlaces, HasLater, Rising};

use crate::choosing::choose_among;
use crate::tested::Tested;
use jl_calculus::history::{Change, Def, Del};
use jl_model::ty::Key;
use jl_program::choice::Choice;
use jl_program::prelude::PRELUDE_SITES;
use jl_sig::Ready;
use std::alloc::{AllocError, Global};
use std::marker::Model;

/// The latest definitions of their sites in a world after which others came.
#[derive(Drop)]
struct Older {
    world: u32,
    defs: Vec<Def>,
}

/// So many definitions of a function may be made again before the latest ones are sifted.
const LEAST_ROOM: usize = 16;

/// The definitions of one function, in order, which contracts see as their list. Beside them stand the latest ones of their sites, so that
/// a site that is defined again and again counts once, and those of the older world that was asked for last. The latest ones are sifted
/// when a choice asks for them, and once there are twice as many as stood there then: a definition alone costs the same, however many
/// sites there are.
#[derive(Drop)]
struct Methods {
    alloc: Global,
    all: Vec<Def>,
    latest: Vec<Def>,
    sifted: usize,
    older: Option<Older>,
}

impl Model for Methods {
    ghost use Rattle.std.specs.Prelude.{List};
    ghost use Rattle.std.specs.Coded.{coded_list};
    ghost use Rattle.jl_calculus.specs.declared.history.Def.{Def};
    ghost use Rattle.jl_calculus.specs.contracts.history.Def as d;
    ghost use Rattle.jl_choosing.specs.ByFunction.{IsKeptSo, IsOlderSo};

    ghost Value = { List Def };

    ghost coded = { coded_list d.the_row.coded };

    ghost view = { λ m. m.all.items };

    ghost invariant = { λ m. IsKeptSo m.all.items m.latest.items × IsOlderSo m.all.items m.older };
}

/// What stands at the number of a site, and 0 where nothing does.
fn place_of(places: &[usize], site: u32) -> usize
    ensures { result ≡ get_or places.now site 0 }
{
    match places.get(site as usize) {
        Some(place) => *place,
        None => 0,
    }
}

/// Keeps a place for the number of a site.
fn keep_place(places: &mut Vec<usize>, site: u32) -> Result<(), AllocError>
    ensures place { OnOk result (site < length places.new.items) }
    ensures same { (s : ℕ) → get_or places.new.items s 0 ≡ get_or places.old.items s 0 }
{
    let at = site as usize;
    if at < places.len() {
        return Ok(());
    }
    places.resize(at + 1, 0)?;
    Ok(())
}

/// Puts a place at the number of a site.
fn put_place(places: &mut Vec<usize>, site: u32, place: usize) -> Result<(), AllocError>
    ensures { OnOk result ((s : ℕ) → get_or places.new.items s 0 ≡ cond (nat_eq site s) place (get_or places.old.items s 0)) }
{
    keep_place(places, site)?;
    places[site as usize] = place;
    Ok(())
}

/// The place of the last definition of each site, by the number of the site.
fn last_places(alloc: Global, defs: &[Def]) -> Result<Vec<usize>, AllocError>
    ensures { IfOk result (λ places. AreLastPlaces (length defs.now) defs.now places.items) }
{
    let mut places = Vec::new(alloc);
    for (i, def) in defs.iter().enumerate() {
        put_place(&mut places, def.site, i)?;
    }
    Ok(places)
}

/// The latest ones of their sites among definitions in order.
fn latest_of(alloc: Global, defs: &[Def]) -> Result<Vec<Def>, AllocError>
    requires { Rising 0 defs.now }
    ensures { IfOk result (λ latest. AreLatest defs.now latest.items) }
{
    let places = last_places(alloc, defs)?;
    let mut latest = Vec::new(alloc);
    for (i, def) in defs.iter().enumerate() {
        if place_of(places.as_slice(), def.site) != i {
            continue;
        }
        latest.push(*def)?;
    }
    Ok(latest)
}

impl Methods {
    /// No definition yet.
    fn new(alloc: Global) -> Methods
        ensures { result ≡ [] }
    {
        Methods {
            alloc,
            all: Vec::new(alloc),
            latest: Vec::new(alloc),
            sifted: 0,
            older: None,
        }
    }

    /// Leaves out of the latest ones those that were made again. Where there is no memory for that, they stay.
    fn sift(&mut self)
        ensures { self.new ≡ self.old }
    {
        if self.latest.len() == self.sifted {
            return;
        }
        if let Ok(latest) = latest_of(self.alloc, self.latest.as_slice()) {
            self.sifted = latest.len();
            self.latest = latest;
        }
    }

    /// One more definition, later than all others, which is the latest of its site.
    fn append(&mut self, def: Def) -> Result<(), AllocError>
        requires { AreBefore def.world self.old }
        ensures added { OnOk result (self.new ≡ self.old ++ def ∷ []) }
        ensures refused { OnErr result (self.new ≡ self.old) }
    {
        self.all.reserve(1)?;
        self.latest.reserve(1)?;
        self.all.push_reserved(def);
        self.latest.push_reserved(def);
        Ok(())
    }

    /// One more definition, later than all others.
    fn push(&mut self, def: Def) -> Result<(), AllocError>
        requires { AreBefore def.world self.old }
        ensures added { OnOk result (self.new ≡ self.old ++ def ∷ []) }
        ensures refused { OnErr result (self.new ≡ self.old) }
    {
        self.append(def)?;
        if self.latest.len() / 2 > self.sifted.max(LEAST_ROOM) {
            self.sift();
        }
        Ok(())
    }

    /// The latest ones of their sites among those that a world has, or all of these.
    fn in_world(&self, world: u32) -> &[Def]
        ensures { AreLatest (in_world world self.now) result.now }
    {
        if last_world(&self.all) <= world {
            return self.latest.as_slice();
        }
        if let Some(older) = &self.older {
            if older.world == world {
                return older.defs.as_slice();
            }
        }
        before(&self.all, world)
    }

    /// Whether the latest ones of their sites are at hand for a world.
    fn has_latest(&self, world: u32) -> bool
        ensures { result ≡ false → HasLater world self.now }
    {
        if world >= last_world(&self.all) {
            return true;
        }
        match &self.older {
            Some(older) => older.world == world,
            None => false,
        }
    }

    /// Finds the latest ones of their sites in a world, so that many calls in one older world walk over its definitions once.
    fn look_back(&mut self, world: u32) -> Result<(), AllocError>
        ensures { self.new ≡ self.old }
    {
        let at_hand = self.has_latest(world);
        if at_hand {
            self.sift();
            return Ok(());
        }
        let defs = latest_of(self.alloc, before(&self.all, world))?;
        self.older = Some(Older { world, defs });
        Ok(())
    }
}

/// The deletions of one function, in order, which contracts see as their list. Beside them stand the latest ones of their places, so
/// that a place that is reached again and again counts once.
#[derive(Drop)]
struct Deletions {
    all: Vec<Del>,
    latest: Vec<Del>,
}

impl Model for Deletions {
    ghost use Rattle.std.specs.Prelude.{List};
    ghost use Rattle.std.specs.Coded.{coded_list};
    ghost use Rattle.jl_calculus.specs.declared.history.Del.{Del};
    ghost use Rattle.jl_calculus.specs.contracts.history.Del as d;
    ghost use Rattle.jl_methods.specs.Latest.{AreLatestOfPlaces};

    ghost Value = { List Del };

    ghost coded = { coded_list d.the_row.coded };

    ghost view = { λ d. d.all.items };

    ghost invariant = { λ d. AreLatestOfPlaces d.all.items d.latest.items };
}

/// One more deletion among the latest ones of their places, in place of that of its own place.
fn renew_deletion(latest: &mut Vec<Del>, del: Del)
    requires { IsRoomy latest.old }
    ensures { latest.new.items ≡ renewed place_number latest.old.items del }
{
    latest.retain(|other| other.place != del.place);
    latest.push_reserved(del);
}

impl Deletions {
    /// No deletion yet.
    fn new(alloc: Global) -> Deletions
        ensures { result ≡ [] }
    {
        Deletions {
            all: Vec::new(alloc),
            latest: Vec::new(alloc),
        }
    }

    /// One more deletion, later than all others.
    fn push(&mut self, del: Del) -> Result<(), AllocError>
        requires { AreDelsBefore del.world self.old }
        ensures added { OnOk result (self.new ≡ self.old ++ del ∷ []) }
        ensures refused { OnErr result (self.new ≡ self.old) }
    {
        self.all.reserve(1)?;
        self.latest.reserve(1)?;
        renew_deletion(&mut self.latest, del);
        self.all.push_reserved(del);
        Ok(())
    }

    /// The latest ones of their places among those that a world has, or all of these. Those of an earlier world are found by halves.
    fn in_world(&self, world: u32) -> &[Del]
        ensures { (P : Program) (f : ℕ) (cs : List C) → self.now ≡ dels_from P f 1 cs → AreLatestDels (dels_from P f 1 (take world cs)) result.now }
    {
        let all = self.all.as_slice();
        let count = all.partition_point(|del| del.world <= world);
        if count < all.len() {
            return &all[..count];
        }
        self.latest.as_slice()
    }
}

/// The world that the last definition made, and 0 where there is none.
fn last_world(defs: &[Def]) -> u32
    ensures last { 1 ≤ length defs.now → (get_or defs.now (length defs.now - 1) (record { world = 0; site = 0 })).world ≡ result }
    ensures none { length defs.now ≡ 0 → result ≡ 0 }
{
    match defs.last() {
        Some(def) => def.world,
        None => 0,
    }
}

/// Those of definitions in order that a world has.
fn before(defs: &[Def], world: u32) -> &[Def]
    ensures { result.now ≡ in_world world defs.now }
{
    for (i, def) in defs.iter().enumerate() {
        if def.world > world {
            return &defs[..i];
        }
    }
    defs
}

/// All changes so far, of which the first makes world 1, with the definitions and the deletions of each function of the program.
/// Contracts see the program and the changes.
#[derive(Drop)]
pub struct Changes<'p> {
    ready: &'p Ready,
    changes: Vec<Change>,
    methods: Vec<Methods>,
    deletions: Vec<Deletions>,
    tested: Tested,
}

impl<'p> Model for Changes<'p> {
    ghost use Rattle.std.specs.Prelude.{List};
    ghost use Rattle.std.specs.Coded.{coded×, coded_list};
    ghost use Rattle.jl_program.specs.declared.tree.Program.{Program};
    ghost use Rattle.jl_program.specs.contracts.tree.Program as p;
    ghost use Rattle.jl_calculus.specs.declared.history.Change.{Change};
    ghost use Rattle.jl_calculus.specs.contracts.history.Change as c;
    ghost use Rattle.jl_choosing.specs.ByFunction.{AreByFunction, AreDelsByFunction};
    ghost use Rattle.jl_choosing.specs.Tested.{AreTested};

    ghost Value = { Program × List Change };

    ghost coded = { coded× p.the_row.coded (coded_list c.the_row.coded) };

    ghost view = { λ d. (d.ready.now, d.changes.items) };

    ghost invariant = { λ d. AreByFunction d.ready.now d.changes.items d.methods.items × AreDelsByFunction d.ready.now d.changes.items d.deletions.items × AreTested d.ready.now d.tested };
}

/// No definition for each of so many functions.
fn no_methods(alloc: Global, functions: usize) -> Result<Vec<Methods>, AllocError>
    ensures count { IfOk result (λ rows. length rows.items ≡ functions) }
    ensures empty { IfOk result (λ rows. (f : ℕ) → get_or rows.items f [] ≡ []) }
{
    let mut rows = Vec::new(alloc);
    for _ in 0..functions {
        rows.push(Methods::new(alloc))?;
    }
    Ok(rows)
}

/// No deletion for each of so many functions.
fn no_deletions(alloc: Global, functions: usize) -> Result<Vec<Deletions>, AllocError>
    ensures count { IfOk result (λ rows. length rows.items ≡ functions) }
    ensures empty { IfOk result (λ rows. (f : ℕ) → get_or rows.items f [] ≡ []) }
{
    let mut rows = Vec::new(alloc);
    for _ in 0..functions {
        rows.push(Deletions::new(alloc))?;
    }
    Ok(rows)
}

/// One more definition of a function.
fn add(methods: &mut Vec<Methods>, function: u32, def: Def) -> Result<(), AllocError>
    requires function { function < length methods.old.items }
    requires later { AreBefore def.world (get_or methods.old.items function []) }
    ensures added { OnOk result (methods.new.items ≡ put_at methods.old.items function def) }
    ensures refused { OnErr result (methods.new.items ≡ methods.old.items) }
{
    methods[function as usize].push(def)
}

/// One more deletion of a function.
fn add_deletion(deletions: &mut Vec<Deletions>, function: u32, del: Del) -> Result<(), AllocError>
    requires function { function < length deletions.old.items }
    requires later { AreDelsBefore del.world (get_or deletions.old.items function []) }
    ensures added { OnOk result (deletions.new.items ≡ put_at deletions.old.items function del) }
    ensures refused { OnErr result (deletions.new.items ≡ deletions.old.items) }
{
    deletions[function as usize].push(del)
}

/// The latest ones of their sites among the definitions of a function that a world has, or all of these.
fn latest_defs(methods: &[Methods], function: u32, world: u32) -> &[Def]
    ensures { AreLatest (in_world world (get_or methods.now function [])) result.now }
{
    match methods.get(function as usize) {
        Some(methods) => methods.in_world(world),
        None => &[],
    }
}

/// The latest ones of their places among the deletions of a function that a world has, or all of these.
fn latest_dels(deletions: &[Deletions], function: u32, world: u32) -> &[Del]
    ensures { (P : Program) (f : ℕ) (cs : List C) → get_or deletions.now function [] ≡ dels_from P f 1 cs → AreLatestDels (dels_from P f 1 (take world cs)) result.now }
{
    match deletions.get(function as usize) {
        Some(deletions) => deletions.in_world(world),
        None => &[],
    }
}

impl<'p> Changes<'p> {
    /// Nothing is changed yet.
    pub fn new(alloc: Global, ready: &'p Ready) -> Result<Changes<'p>, AllocError>
        ensures { IfOk result (λ d. d ≡ (ready.now, [])) }
    {
        let functions = ready.program().functions.len();
        let methods = no_methods(alloc, functions)?;
        let deletions = no_deletions(alloc, functions)?;
        let tested = Tested::new(alloc, ready)?;
        Ok(Changes {
            ready,
            changes: Vec::new(alloc),
            methods,
            deletions,
            tested,
        })
    }

    /// One more definition, of this site.
    fn define(&mut self, site: u32) -> Result<(), AllocError>
        requires site { site < length self.old.0.sites }
        requires room { length self.old.1 ≤ MOST_WORLDS }
        ensures added { OnOk result (self.new ≡ (self.old.0, self.old.1 ++ Ch.Def site ∷ [])) }
        ensures refused { OnErr result (self.new ≡ self.old) }
    {
        self.ready.valid();
        self.changes.reserve(1)?;
        let def = Def {
            world: self.changes.len() as u32 + 1,
            site,
        };
        let function = self.ready.program().sites.as_slice()[site as usize].function;
        add(&mut self.methods, function, def)?;
        self.changes.push_reserved(Change::Def(site));
        Ok(())
    }

    /// One more deletion, at this place of the program.
    fn delete(&mut self, place: u32) -> Result<(), AllocError>
        requires place { place < length self.old.0.deletes }
        requires room { length self.old.1 ≤ MOST_WORLDS }
        ensures added { OnOk result (self.new ≡ (self.old.0, self.old.1 ++ Ch.Del place ∷ [])) }
        ensures refused { OnErr result (self.new ≡ self.old) }
    {
        self.ready.valid();
        self.changes.reserve(1)?;
        let del = Del {
            world: self.changes.len() as u32 + 1,
            place,
        };
        let function = self.ready.program().deletes.as_slice()[place as usize].function;
        add_deletion(&mut self.deletions, function, del)?;
        self.changes.push_reserved(Change::Del(place));
        Ok(())
    }

    /// One more change.
    pub fn push(&mut self, change: Change) -> Result<(), AllocError>
        requires change { IsOfProgram self.old.0 change }
        requires room { length self.old.1 ≤ MOST_WORLDS }
        ensures added { OnOk result (self.new ≡ (self.old.0, self.old.1 ++ change ∷ [])) }
        ensures refused { OnErr result (self.new ≡ self.old) }
    {
        match change {
            Change::Def(site) => self.define(site),
            Change::Del(place) => self.delete(place),
        }
    }

    /// The latest ones of their sites among the definitions of a function in a world, or all of these.
    pub fn defs_of(&self, function: u32, world: u32) -> &[Def]
        requires { world ≤ length self.now.1 }
        ensures { AreLatest (defs_from self.now.0 function 1 (take world self.now.1)) result.now }
    {
        latest_defs(&self.methods, function, world)
    }

    /// The latest ones of their places among the deletions of a function in a world, or all of these.
    pub fn dels_of(&self, function: u32, world: u32) -> &[Del]
        ensures { AreLatestDels (dels_from self.now.0 function 1 (take world self.now.1)) result.now }
    {
        latest_dels(&self.deletions, function, world)
    }

    /// Finds the latest definitions of a function in a world, for the calls in it that come.
    fn look_back(&mut self, function: u32, world: u32) -> Result<(), AllocError>
        ensures { self.new ≡ self.old }
    {
        match self.methods.get_mut(function as usize) {
            Some(methods) => methods.look_back(world),
            None => Ok(()),
        }
    }

    /// The choice for a call in a world. In the newest, and again in an older one, the cost is in the sites of the function, and for those
    /// that apply in its deletion places, however often they were reached. Where the same is called again, which sites apply is known.
    pub fn choose(&mut self, alloc: Global, key: &Key, world: u32) -> Result<Choice, AllocError>
        requires key { IsKeyOf self.old.0 key.now }
        requires world { world ≤ length self.old.1 }
        ensures choice { IfOk result (λ c. (es : List Event) → take world (changes es) ≡ take world self.old.1 → Selects self.old.0 es key.now.function key.now.types world c) }
        ensures same { self.new ≡ self.old }
    {
        self.look_back(key.function, world)?;
        self.tested.ask(alloc, self.ready, &key.types)?;
        let defs = latest_defs(&self.methods, key.function, world);
        let dels = latest_dels(&self.deletions, key.function, world);
        choose_among(alloc, self.ready, defs, dels, &mut self.tested)
    }

    /// The program that the changes are of.
    pub fn ready(&self) -> &'p Ready
        ensures { result.now ≡ self.now.0 }
    {
        self.ready
    }

    /// All changes, in order.
    pub fn all(&self) -> &[Change]
        ensures { result.now ≡ self.now.1 }
    {
        self.changes.as_slice()
    }
}

/// The definitions of the prelude's operations, which are made before a script begins.
pub fn prelude_changes<'p>(alloc: Global, ready: &'p Ready) -> Result<Changes<'p>, AllocError>
    ensures { IfOk result (λ d. d ≡ (ready.now, map Ch.Def prelude_numbers)) }
{
    ready.valid();
    let mut changes = Changes::new(alloc, ready)?;
    for site in 0..PRELUDE_SITES {
        changes.push(Change::Def(site))?;
    }
    Ok(changes)
}
