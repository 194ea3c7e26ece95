//! The lists by function and by key that a history's events make.

ghost use Rattle.std.specs.Prelude.{◌≡◌, ◌<◌, ◌≤◌, ◌+◌, ◌++◌, ◌∷◌, [], ℕ, List, IfOk, OnOk, length, map, slice_get, Some};
ghost use Rattle.jl_model.specs.declared.limits.TheConstants.{MOST_WORLDS, MOST_CACHE_KEYS};
ghost use Rattle.jl_model.specs.declared.ty.Key.{Key};
ghost use Rattle.jl_program.specs.declared.tree.Program.{Program};
ghost use Rattle.jl_program.specs.Prelude.{prelude_numbers};
ghost use Rattle.jl_calculus.specs.declared.history.Change.TheVariants as Ch;
ghost use Rattle.jl_calculus.specs.declared.history.Event.{Event};
ghost use Rattle.jl_calculus.specs.Definitions.{defs_from};
ghost use Rattle.jl_calculus.specs.Legal.{IsKeyOf, MayCome};
ghost use Rattle.jl_calculus.specs.Ranges.{keys_of, rows_of, Touches};
ghost use Rattle.jl_calculus.specs.World.{change_at, site_of, world_of};
ghost use Rattle.jl_methods.specs.Filters.{defs_of, dels_of, dels_in, change_in, key_numbers, row_numbers, AreTouched, IsDefinition, IsOfProgram};
ghost use Rattle.jl_methods.specs.Indexed.{noted_in, awaited_in, IsIndexOf, MayBeNoted, HasLinksFor, HasListsFor, HasRoomFor, HasRoomForKey, HasRoomForRow, HasRoomForDef, HasRoomForDel};
ghost use Rattle.jl_methods.specs.Latest.{AreLatestOfPlaces};
ghost use Rattle.jl_methods.specs.Links.{linked_in, AreApplying, AreLinked, IsLast, IsNext};
ghost use Rattle.jl_methods.specs.Newest.{IsNewestOf};
ghost use Rattle.jl_methods.specs.Noted.{with_key, with_row, with_def, with_del, function_of};
ghost use Rattle.jl_methods.specs.Numbered.{nth};
ghost use Rattle.jl_methods.specs.Room.{items_of};

use crate::links::{Links, earlier};
use crate::lists::{Lists, empty_lists};
use crate::newest::{NewestRow, newer};
use crate::touch::{find_places, find_sites};
use jl_calculus::history::{Change, Def, Del, Event};
use jl_model::ty::Key;
use jl_program::prelude::PRELUDE_SITES;
use jl_sig::Ready;
use std::alloc::{AllocError, Global};
use std::mem;

/// What a run asks of its history, kept by function and by key, so that no question walks over the events. An event is noted in
/// two steps: `reserve` takes all the memory that it needs, and `note` cannot fail.
#[derive(Drop)]
pub struct Index {
    alloc: Global,
    pub(crate) keys: Vec<Key>,
    pub(crate) changes: Vec<Change>,
    pub(crate) defs: Lists<Def>,
    pub(crate) dels: Lists<Del>,
    latest_dels: Lists<Del>,
    pub(crate) numbers: Lists<u32>,
    rows: Lists<u32>,
    pub(crate) sites: Links,
    pub(crate) places: Links,
    newest: Vec<Option<NewestRow>>,
    fills: u32,
    next_key: Option<Key>,
    next_sites: Vec<u32>,
    next_places: Vec<u32>,
}

/// The function of a change.
pub(crate) fn function_of(ready: &Ready, change: Change) -> u32
    requires { IsOfProgram ready.now change }
    ensures { result ≡ function_of ready.now change }
{
    match change {
        Change::Def(site) => ready.program().sites.as_slice()[site as usize].function,
        Change::Del(place) => ready.program().deletes.as_slice()[place as usize].function,
    }
}

/// The prelude's definitions, in order.
fn prelude_changes(alloc: Global) -> Result<Vec<Change>, AllocError>
    ensures { IfOk result (λ changes. changes.items ≡ map Ch.Def prelude_numbers) }
{
    let mut changes = Vec::new(alloc);
    for site in 0..PRELUDE_SITES {
        changes.push(Change::Def(site))?;
    }
    Ok(changes)
}

/// The prelude's definitions, by function.
fn prelude_defs(alloc: Global, ready: &Ready) -> Result<Lists<Def>, AllocError>
    ensures count { IfOk result (λ defs. length (items_of defs) ≡ length ready.now.functions) }
    ensures each { IfOk result (λ defs. (f : ℕ) → nth (items_of defs) f ≡ defs_from ready.now f 1 (map Ch.Def prelude_numbers)) }
{
    ready.valid();
    let mut defs = empty_lists(alloc, ready.program().functions.len())?;
    for site in 0..PRELUDE_SITES {
        let function = function_of(ready, Change::Def(site));
        defs.reserve(function)?;
        let world = site + 1;
        defs.put(function, Def { world, site });
    }
    Ok(defs)
}

/// What is kept of the sites where only the prelude's definitions were made.
fn prelude_sites(alloc: Global, ready: &Ready) -> Result<Links, AllocError>
    ensures { IfOk result (λ sites. AreLinked ready.now Ch.Def (length ready.now.sites) (map Ch.Def prelude_numbers) [] (linked_in sites)) }
{
    ready.valid();
    let mut sites = Links::new(alloc, ready.program().sites.len())?;
    for site in 0..PRELUDE_SITES {
        sites.reserve_world(site)?;
        sites.put_world(site, site + 1);
    }
    Ok(sites)
}

/// What is kept of the deletion places, none of which was reached.
fn no_places(alloc: Global, ready: &Ready) -> Result<Links, AllocError>
    ensures { IfOk result (λ places. AreLinked ready.now Ch.Del (length ready.now.deletes) (map Ch.Def prelude_numbers) [] (linked_in places)) }
{
    let places = Links::new(alloc, ready.program().deletes.len())?;
    Ok(places)
}

impl Index {
    /// The index of a history without events: it has the prelude's definitions.
    pub fn new(alloc: Global, ready: &Ready) -> Result<Index, AllocError>
        ensures { IfOk result (λ index. IsIndexOf ready.now [] index) }
    {
        let functions = ready.program().functions.len();
        let changes = prelude_changes(alloc)?;
        let defs = prelude_defs(alloc, ready)?;
        let dels = empty_lists(alloc, functions)?;
        let latest_dels = empty_lists(alloc, functions)?;
        let numbers = empty_lists(alloc, functions)?;
        let sites = prelude_sites(alloc, ready)?;
        let places = no_places(alloc, ready)?;
        Ok(Index {
            alloc,
            keys: Vec::new(alloc),
            changes,
            defs,
            dels,
            latest_dels,
            numbers,
            rows: Lists::new(alloc),
            sites,
            places,
            newest: Vec::new(alloc),
            fills: 0,
            next_key: None,
            next_sites: Vec::new(alloc),
            next_places: Vec::new(alloc),
        })
    }

    /// The definitions of a function, in the order of their worlds, the prelude's first.
    pub fn defs_of(&self, function: u32) -> &[Def]
        ensures { (P : Program) (es : List Event) → IsIndexOf P es self.now → result.now ≡ defs_of P es function }
    {
        self.defs.get(function)
    }

    /// The deletions of a function, in the order of their worlds.
    pub fn dels_of(&self, function: u32) -> &[Del]
        ensures { (P : Program) (es : List Event) → IsIndexOf P es self.now → result.now ≡ dels_of P es function }
    {
        self.dels.get(function)
    }

    /// Those of them that were made up to a world. They are found by halves.
    pub fn dels_up_to(&self, function: u32, world: u32) -> &[Del]
        ensures { (P : Program) (es : List Event) → IsIndexOf P es self.now → result.now ≡ dels_in P es function world }
    {
        let dels = self.dels.get(function);
        &dels[..dels.partition_point(|del| del.world <= world)]
    }

    /// The deletions of a function, in the order of their worlds, without those that a later one of the same place repeats. There are no
    /// more of them than the function has deletion places, however often these are reached.
    pub fn latest_dels_of(&self, function: u32) -> &[Del]
        ensures { (P : Program) (es : List Event) → IsIndexOf P es self.now → AreLatestOfPlaces (dels_of P es function) result.now }
    {
        self.latest_dels.get(function)
    }

    /// The numbers of the keys of a function, in order.
    pub fn keys_of(&self, function: u32) -> &[u32]
        ensures { (P : Program) (es : List Event) → IsIndexOf P es self.now → result.now ≡ key_numbers es function }
    {
        self.numbers.get(function)
    }

    /// The numbers of the rows of a key, in order.
    pub fn rows_of(&self, key: u32) -> &[u32]
        ensures { (P : Program) (es : List Event) → IsIndexOf P es self.now → result.now ≡ row_numbers es key }
    {
        self.rows.get(key)
    }

    /// The sites whose definitions touch a key, in order: those of its function that apply to its types.
    pub fn sites_of(&self, key: u32) -> &[u32]
        ensures { (P : Program) (es : List Event) (k : Key) → IsIndexOf P es self.now → slice_get (keys_of es) key ≡ Some k → AreApplying P Ch.Def k result.now }
    {
        self.sites.applying(key)
    }

    /// The deletion places whose deletions touch a key, in order.
    pub fn places_of(&self, key: u32) -> &[u32]
        ensures { (P : Program) (es : List Event) (k : Key) → IsIndexOf P es self.now → slice_get (keys_of es) key ≡ Some k → AreApplying P Ch.Del k result.now }
    {
        self.places.applying(key)
    }

    /// The numbers of the keys that a change touches, in order: those of its function to whose types its signature applies. They are kept by
    /// the change's site or place, so that it costs nothing to have them.
    pub fn touched(&self, change: Change) -> &[u32]
        ensures { (P : Program) (es : List Event) → IsIndexOf P es self.now → AreTouched P (keys_of es) change result.now }
    {
        match change {
            Change::Def(site) => self.sites.touched(site),
            Change::Del(place) => self.places.touched(place),
        }
    }

    /// The last world up to another whose change touches a key, and 0 where there is none. The cost is in the sites and the places that apply
    /// to the key, however often they were reached.
    pub fn last_touching(&self, key: u32, world: u32) -> u32
        ensures { (P : Program) (es : List Event) (k : Key) → IsIndexOf P es self.now → slice_get (keys_of es) key ≡ Some k → IsLast (λ w. Touches P es w k) world result }
    {
        let defined = self.sites.last_of(self.sites.applying(key), world);
        let deleted = self.places.last_of(self.places.applying(key), world);
        defined.max(deleted)
    }

    /// The first world past another whose change touches a key. The cost is that of `last_touching`.
    pub fn next_touching(&self, key: u32, world: u32) -> Option<u32>
        ensures { (P : Program) (es : List Event) (k : Key) → IsIndexOf P es self.now → slice_get (keys_of es) key ≡ Some k → IsNext (λ w. Touches P es w k) world result }
    {
        let defined = self.sites.next_of(self.sites.applying(key), world);
        let deleted = self.places.next_of(self.places.applying(key), world);
        earlier(defined, deleted)
    }

    /// The row of a key that begins in the latest world, where the key has a row.
    pub fn newest_row(&self, key: u32) -> Option<NewestRow>
        ensures { (P : Program) (es : List Event) → IsIndexOf P es self.now → IsNewestOf (rows_of es) key result }
    {
        if key as usize >= self.newest.len() {
            return None;
        }
        self.newest[key as usize]
    }

    /// The key of a number.
    pub fn key(&self, number: u32) -> &Key
        requires { number < length (noted_in self.now).keys }
        ensures { (P : Program) (es : List Event) → IsIndexOf P es self.now → slice_get (keys_of es) number ≡ Some result.now }
    {
        &self.keys[number as usize]
    }

    /// The change that made a world.
    pub fn change(&self, world: u32) -> Change
        requires { (1 ≤ world) × (world ≤ length (noted_in self.now).changes) }
        ensures { (P : Program) (es : List Event) → IsIndexOf P es self.now → change_at es world ≡ Some result }
    {
        self.changes[world as usize - 1]
    }

    /// The site of the definition that made a world.
    pub fn site(&self, world: u32) -> u32
        requires { IsDefinition (change_in (noted_in self.now).changes world) }
        ensures { (P : Program) (es : List Event) → IsIndexOf P es self.now → result ≡ site_of es world }
    {
        match self.changes[world as usize - 1] {
            Change::Def(site) => site,
            Change::Del(_) => unreachable!(),
        }
    }

    /// How many worlds there are, which is the number of the newest.
    pub fn worlds(&self) -> usize
        ensures { (P : Program) (es : List Event) → IsIndexOf P es self.now → result ≡ world_of es }
    {
        self.changes.len()
    }

    /// Takes all the memory that noting this event needs. For a key the sites and the places that apply to it are found. What was reserved
    /// before is given up.
    pub fn reserve(&mut self, ready: &Ready, event: &Event) -> Result<(), AllocError>
        requires { MayBeNoted ready.now self.old event.now }
        ensures room { OnOk result (HasRoomFor ready.now event.now self.new) }
        ensures kept { noted_in self.new ≡ noted_in self.old }
    {
        ready.valid();
        match event {
            Event::Key(key) => self.reserve_key(ready, key),
            Event::Fill { key, .. } => self.rows.reserve(*key),
            Event::Def { site, .. } => {
                self.reserve_def(function_of(ready, Change::Def(*site)), *site)
            }
            Event::Del { place, .. } => {
                self.reserve_del(function_of(ready, Change::Del(*place)), *place)
            }
            Event::Begin(_) => Ok(()),
            Event::Spawn { .. } => Ok(()),
            Event::Done { .. } => Ok(()),
        }
    }

    /// Notes the event for which room was reserved.
    pub fn note(&mut self, ready: &Ready, event: &Event)
        requires { HasRoomFor ready.now event.now self.old }
        ensures { (es : List Event) → IsIndexOf ready.now es self.old → MayCome ready.now es event.now → IsIndexOf ready.now (es ++ event.now ∷ []) self.new }
    {
        ready.valid();
        match event {
            Event::Key(_) => self.note_key(),
            Event::Fill { key, first, .. } => self.note_row(*key, *first),
            Event::Def { site, .. } => {
                self.note_def(function_of(ready, Change::Def(*site)), *site);
            }
            Event::Del { place, .. } => {
                self.note_del(function_of(ready, Change::Del(*place)), *place);
            }
            Event::Begin(_) => {}
            Event::Spawn { .. } => {}
            Event::Done { .. } => {}
        }
    }

    /// Finds the sites and the places that apply to a key, and takes the memory for a place in the list of each.
    fn reserve_links(&mut self, ready: &Ready, key: &Key) -> Result<(), AllocError>
        requires key { IsKeyOf ready.now key.now }
        requires sites { length (noted_in self.old).sites.touched ≡ length ready.now.sites }
        requires places { length (noted_in self.old).places.touched ≡ length ready.now.deletes }
        ensures links { OnOk result (HasLinksFor ready.now key.now self.new) }
        ensures kept { noted_in self.new ≡ noted_in self.old }
        ensures room { (other : Key) → HasListsFor other self.old → HasListsFor other self.new }
    {
        let sites = find_sites(self.alloc, ready, key)?;
        let places = find_places(self.alloc, ready, key)?;
        self.sites.reserve_key(sites.as_slice())?;
        self.places.reserve_key(places.as_slice())?;
        self.next_sites = sites;
        self.next_places = places;
        Ok(())
    }

    fn reserve_key(&mut self, ready: &Ready, key: &Key) -> Result<(), AllocError>
        requires key { IsKeyOf ready.now key.now }
        requires function { key.now.function < length (noted_in self.old).numbers }
        requires few { length (noted_in self.old).keys < MOST_CACHE_KEYS }
        requires sites { length (noted_in self.old).sites.touched ≡ length ready.now.sites }
        requires places { length (noted_in self.old).places.touched ≡ length ready.now.deletes }
        ensures room { OnOk result (HasRoomForKey ready.now key.now self.new) }
        ensures kept { noted_in self.new ≡ noted_in self.old }
    {
        self.keys.reserve(1)?;
        self.numbers.reserve(key.function)?;
        self.rows.reserve_list()?;
        self.newest.reserve(1)?;
        self.reserve_links(ready, key)?;
        self.next_key = Some(key.copy()?);
        Ok(())
    }

    fn reserve_def(&mut self, function: u32, site: u32) -> Result<(), AllocError>
        requires function { function < length (noted_in self.old).defs }
        requires few { length (noted_in self.old).changes < MOST_WORLDS }
        requires site { site < length (noted_in self.old).sites.worlds }
        ensures room { OnOk result (HasRoomForDef function site self.new) }
        ensures kept { noted_in self.new ≡ noted_in self.old }
    {
        self.changes.reserve(1)?;
        self.defs.reserve(function)?;
        self.sites.reserve_world(site)
    }

    fn reserve_del(&mut self, function: u32, place: u32) -> Result<(), AllocError>
        requires function { function < length (noted_in self.old).dels }
        requires function_latest { function < length (noted_in self.old).latest_dels }
        requires few { length (noted_in self.old).changes < MOST_WORLDS }
        requires place { place < length (noted_in self.old).places.worlds }
        ensures room { OnOk result (HasRoomForDel function place self.new) }
        ensures kept { noted_in self.new ≡ noted_in self.old }
    {
        self.changes.reserve(1)?;
        self.dels.reserve(function)?;
        self.latest_dels.reserve(function)?;
        self.places.reserve_world(place)
    }

    fn note_key(&mut self)
        requires { (P : Program) × (key : Key) × HasRoomForKey P key self.old }
        ensures { (P : Program) (key : Key) → HasRoomForKey P key self.old → noted_in self.new ≡ with_key key (awaited_in self.old) (noted_in self.old) }
    {
        let number = self.keys.len() as u32;
        if let Some(key) = self.next_key.take() {
            self.numbers.put(key.function, number);
            self.rows.add(Vec::new(self.alloc));
            let sites = mem::replace(&mut self.next_sites, Vec::new(self.alloc));
            self.sites.put_key(sites, number);
            let places = mem::replace(&mut self.next_places, Vec::new(self.alloc));
            self.places.put_key(places, number);
            self.newest.push_reserved(None);
            self.keys.push_reserved(key);
        }
    }

    fn note_row(&mut self, key: u32, first: u32)
        requires { HasRoomForRow key self.old }
        ensures { noted_in self.new ≡ with_row key first (noted_in self.old) }
    {
        let row = NewestRow {
            number: self.fills,
            first,
        };
        self.rows.put(key, self.fills);
        self.newest[key as usize] = Some(newer(self.newest[key as usize], row));
        self.fills += 1;
    }

    fn note_def(&mut self, function: u32, site: u32)
        requires { HasRoomForDef function site self.old }
        ensures { noted_in self.new ≡ with_def function site (noted_in self.old) }
    {
        let world = self.changes.len() as u32 + 1;
        self.changes.push_reserved(Change::Def(site));
        self.defs.put(function, Def { world, site });
        self.sites.put_world(site, world);
    }

    fn note_del(&mut self, function: u32, place: u32)
        requires { HasRoomForDel function place self.old }
        ensures { noted_in self.new ≡ with_del function place (noted_in self.old) }
    {
        let world = self.changes.len() as u32 + 1;
        self.changes.push_reserved(Change::Del(place));
        self.dels.put(function, Del { world, place });
        self.latest_dels.renew(function, Del { world, place });
        self.places.put_world(place, world);
    }
}
