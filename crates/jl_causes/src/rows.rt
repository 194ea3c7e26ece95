//! The keys, the rows, the definitions and the deletions of the events.

ghost use Rattle.std.specs.Prelude.{◌≡◌, ◌<◌, ◌+◌, ◌↔◌, ◌++◌, ◌∷◌, [], ℕ, List, IsTrue, IfOk, OnOk, length, take, slice_get, Some};
ghost use Rattle.std.specs.Bool.{Decides};
ghost use Rattle.std.specs.List.{Contains};
ghost use Rattle.jl_model.specs.declared.ty.Key.{Key};
ghost use Rattle.jl_program.specs.declared.tree.Program.{Program};
ghost use Rattle.jl_calculus.specs.declared.history.Event.{Event};
ghost use Rattle.jl_calculus.specs.declared.history.Event.TheVariants.{Begin, Key as KeyEvent, Fill as FillEvent, Def as DefEvent, Del as DelEvent};
ghost use Rattle.jl_calculus.specs.Legal.{MayCome};
ghost use Rattle.jl_calculus.specs.Ranges.{keys_of, MayBegin, SelectsSite};
ghost use Rattle.jl_calculus.specs.World.{world_of, FindsMethod};
ghost use Rattle.jl_methods.specs.Indexed.{IsIndexOf, MayBeNoted};
ghost use Rattle.jl_causes.specs.Causes.{IsNextFill};
ghost use Rattle.jl_causes.specs.State.{AreRows, HasRow};

use crate::standing::Standing;
use jl_calculus::history::Event;
use jl_methods::Index;
use jl_model::limits::MOST_CACHE_ROWS;
use jl_model::ty::Key;
use jl_program::choice::Choice;
use jl_program::prelude::FIRST_WORLD;
use jl_report::Entry;
use jl_rows::choose_for_key;
use jl_sig::Ready;
use jl_types::same::same_all;
use std::alloc::{AllocError, Global};

/// The lists by function and by key, how many keys there are, the first world of each row, and what stands.
#[derive(Drop)]
pub(crate) struct Rows {
    index: Index,
    keys: u32,
    firsts: Vec<u32>,
    standing: Standing,
}

/// Whether two keys are the same.
fn is_same_key(a: &Key, b: &Key) -> bool
    ensures { IsTrue result ↔ (a.now ≡ b.now) }
{
    a.function == b.function && same_all(a.types.as_slice(), b.types.as_slice())
}

/// One more event.
fn note_event(index: &mut Index, ready: &Ready, event: &Event) -> Result<(), AllocError>
    requires { MayBeNoted ready.now index.old event.now }
    ensures { OnOk result ((es : List Event) → IsIndexOf ready.now es index.old → MayCome ready.now es event.now → IsIndexOf ready.now (es ++ event.now ∷ []) index.new) }
{
    index.reserve(ready, event)?;
    index.note(ready, event);
    Ok(())
}

impl Rows {
    /// Those of a history with these entries that has begun.
    pub(crate) fn new(alloc: Global, ready: &Ready, entries: &[Entry]) -> Result<Rows, AllocError>
        ensures { IfOk result (λ rows. (fuel : ℕ) → AreRows ready.now (Begin fuel ∷ []) rows) }
    {
        let index = Index::new(alloc, ready)?;
        let standing = Standing::new(alloc, ready, entries)?;
        Ok(Rows {
            index,
            keys: 0,
            firsts: Vec::new(alloc),
            standing,
        })
    }

    /// How many keys there are.
    pub(crate) fn keys(&self) -> u32
        ensures { (P : Program) (es : List Event) → AreRows P es self.now → result ≡ length (keys_of es) }
    {
        self.keys
    }

    /// Whether a key is there.
    pub(crate) fn has_key(&self, key: &Key) -> bool
        requires { (P : Program) × (es : List Event) × AreRows P es self.now }
        ensures { (P : Program) (es : List Event) → AreRows P es self.now → IsTrue result ↔ Contains (keys_of es) key.now }
    {
        for number in 0..self.keys {
            if is_same_key(self.index.key(number), key) {
                return true;
            }
        }
        false
    }

    /// Whether a key has a row that begins in this world. All rows of the key are looked at.
    fn has_older_row(&self, key: u32, first: u32) -> bool
        requires { (P : Program) × (es : List Event) × AreRows P es self.now }
        ensures { (P : Program) (es : List Event) → AreRows P es self.now → IsTrue result ↔ HasRow es key first }
    {
        let rows = self.index.rows_of(key);
        for row in rows {
            let begins = self.firsts[*row as usize];
            if begins == first {
                return true;
            }
        }
        false
    }

    /// Whether a key has a row that begins in this world. A world that is not below the first world of the newest row is answered at
    /// once.
    fn has_row(&self, key: u32, first: u32) -> bool
        requires { (P : Program) × (es : List Event) × AreRows P es self.now }
        ensures { (P : Program) (es : List Event) → AreRows P es self.now → IsTrue result ↔ HasRow es key first }
    {
        let Some(newest) = self.index.newest_row(key) else {
            return false;
        };
        if newest.first <= first {
            return newest.first == first;
        }
        self.has_older_row(key, first)
    }

    /// Whether a fill of this key may come next, as far as its key, its first world and room go.
    pub(crate) fn is_next_fill(&self, key: u32, first: u32) -> bool
        requires { (P : Program) × (es : List Event) × AreRows P es self.now }
        ensures { (P : Program) (es : List Event) → AreRows P es self.now → Decides result (IsNextFill es key first) }
    {
        if key >= self.keys {
            return false;
        }
        let count = self.firsts.len();
        if count >= MOST_CACHE_ROWS {
            return false;
        }
        if self.has_row(key, first) {
            return false;
        }
        true
    }

    /// Whether a row of a key may begin in this world.
    pub(crate) fn begins_right(&self, key: u32, first: u32) -> bool
        ensures { (P : Program) (es : List Event) (k : Key) → AreRows P es self.now → slice_get (keys_of es) key ≡ Some k → Decides result (MayBegin P es k first) }
    {
        if first <= FIRST_WORLD {
            return first == FIRST_WORLD;
        }
        self.index.last_touching(key, first) == first
    }

    /// Whether the method that is chosen for a key in this world is of this site. The cost is that of `choose_for_key`.
    pub(crate) fn chooses_right(
        &self,
        alloc: Global,
        ready: &Ready,
        key: u32,
        site: u32,
        first: u32,
    ) -> Result<bool, AllocError>
        requires { (es : List Event) × (k : Key) × AreRows ready.now es self.now × (slice_get (keys_of es) key ≡ Some k) × MayBegin ready.now es k first }
        ensures { IfOk result (λ yes. (es : List Event) (k : Key) → AreRows ready.now es self.now → slice_get (keys_of es) key ≡ Some k → MayBegin ready.now es k first → Decides yes (SelectsSite ready.now es k first site)) }
    {
        let choice = choose_for_key(alloc, ready, &self.index, key, first)?;
        let Choice::Method(method) = choice else {
            return Ok(false);
        };
        Ok(self.index.site(method) == site)
    }

    /// Whether a method of the function and the signature of a deletion place stood in this world, which was the newest after the first
    /// events. The cost is in the sites that the place takes away.
    pub(crate) fn has_method_in(
        &self,
        alloc: Global,
        ready: &Ready,
        place: u32,
        world: u32,
    ) -> Result<bool, AllocError>
        requires { place < length ready.now.deletes }
        ensures { IfOk result (λ yes. (es : List Event) (at : ℕ) → AreRows ready.now es self.now → world_of (take at es) ≡ world → Decides yes (FindsMethod ready.now (take at es) place)) }
    {
        let found = self.standing.has_method(alloc, ready, place, world)?;
        Ok(found)
    }

    /// One more key.
    pub(crate) fn note_key(
        &mut self,
        alloc: Global,
        ready: &Ready,
        key: Key,
    ) -> Result<(), AllocError>
        requires { (es : List Event) × AreRows ready.now es self.old × MayCome ready.now es (KeyEvent key) }
        ensures { OnOk result ((es : List Event) → AreRows ready.now es self.old → MayCome ready.now es (KeyEvent key) → AreRows ready.now (es ++ KeyEvent key ∷ []) self.new) }
    {
        let event = Event::Key(key);
        let noted = note_event(&mut self.index, ready, &event);
        drop(event);
        noted?;
        self.keys += 1;
        Ok(())
    }

    /// One more row.
    pub(crate) fn note_fill(
        &mut self,
        ready: &Ready,
        key: u32,
        site: u32,
        first: u32,
    ) -> Result<(), AllocError>
        requires { (es : List Event) × AreRows ready.now es self.old × MayCome ready.now es (FillEvent key site first) }
        ensures { OnOk result ((es : List Event) → AreRows ready.now es self.old → MayCome ready.now es (FillEvent key site first) → AreRows ready.now (es ++ FillEvent key site first ∷ []) self.new) }
    {
        let event = Event::Fill { key, site, first };
        let noted = note_event(&mut self.index, ready, &event);
        drop(event);
        noted?;
        self.firsts.push(first)?;
        Ok(())
    }

    /// One more definition, which makes this world.
    pub(crate) fn note_def(
        &mut self,
        ready: &Ready,
        task: u32,
        site: u32,
        world: u32,
    ) -> Result<(), AllocError>
        requires { (es : List Event) × AreRows ready.now es self.old × MayCome ready.now es (DefEvent task site) }
        ensures { OnOk result ((es : List Event) → AreRows ready.now es self.old → MayCome ready.now es (DefEvent task site) → world ≡ world_of es + 1 → AreRows ready.now (es ++ DefEvent task site ∷ []) self.new) }
    {
        let event = Event::Def { task, site };
        let noted = note_event(&mut self.index, ready, &event);
        drop(event);
        noted?;
        self.standing.define(site, world)?;
        Ok(())
    }

    /// One more deletion, which makes this world.
    pub(crate) fn note_del(
        &mut self,
        alloc: Global,
        ready: &Ready,
        task: u32,
        place: u32,
        world: u32,
    ) -> Result<(), AllocError>
        requires { (es : List Event) × AreRows ready.now es self.old × MayCome ready.now es (DelEvent task place) }
        ensures { OnOk result ((es : List Event) → AreRows ready.now es self.old → MayCome ready.now es (DelEvent task place) → world ≡ world_of es + 1 → AreRows ready.now (es ++ DelEvent task place ∷ []) self.new) }
    {
        let event = Event::Del { task, place };
        let noted = note_event(&mut self.index, ready, &event);
        drop(event);
        noted?;
        self.standing.delete(alloc, ready, place, world)?;
        Ok(())
    }
}
