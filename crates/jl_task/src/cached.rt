//! A dispatcher over another one.

ghost use Rattle.std.specs.Prelude.{◌≡◌, IfOk};

use crate::numbers::{NumberSite, find_number, keep_number, no_numbers};
use crate::table::{FIRST_PLACES, Kept, empty_table, find_by_values, keep};
use crate::{Dispatcher, Recall, Recalled};
use jl_calculus::history::{DefineFault, DeleteFault, FetchFault, Outcome, Seen, SpawnFault};
use jl_model::shared::SharedNode;
use jl_model::ty::{Key, Tys};
use jl_program::choice::Choice;
use jl_program::tree::Start;
use jl_program::value::Value;
use std::alloc::{AllocError, Global};
use std::marker::Model;

/// A dispatcher over another one, which is told what to remember: methods that were chosen, each for the world in which it was
/// asked. A call that was answered before in its world is found again in a table, by the numbers of its types, and compared in
/// place; so it takes no memory. An operation of the prelude on two numbers has a place of its own. The table has few places at first, and grows as calls come to the places of others. Contracts
/// see the other dispatcher.
#[derive(Drop)]
pub struct Cached<D: Dispatcher + Drop> {
    alloc: Global,
    inner: D,
    table: Vec<Option<Kept>>,
    numbers: Vec<NumberSite>,
}

impl<D: Dispatcher + Drop> Model for Cached<D> {
    ghost use Rattle.jl_task.specs.Remembered.{AreRemembered};

    ghost Value = { D };

    ghost coded = { D.code };

    ghost view = { λ a. a.inner };

    ghost invariant = { λ a. AreRemembered (D.knows a.inner) a.table.items a.numbers.items };
}

impl<D: Dispatcher + Drop> Cached<D> {
    /// A dispatcher over this one, which remembers nothing yet.
    pub fn new(alloc: Global, inner: D) -> Result<Cached<D>, AllocError>
        ensures { IfOk result (λ cached. cached ≡ inner) }
    {
        let table = empty_table(alloc, FIRST_PLACES)?;
        let numbers = no_numbers(alloc)?;
        Ok(Cached {
            alloc,
            inner,
            table,
            numbers,
        })
    }

    /// The dispatcher that is asked.
    pub fn inner(&self) -> &D
        ensures { result.now ≡ self.now }
    {
        &self.inner
    }

    /// The dispatcher that was asked. What was remembered goes.
    pub fn into_inner(self) -> D
        ensures { result ≡ self }
    {
        let Cached { inner, .. } = self;
        inner
    }
}

impl<D: Dispatcher + Drop> Dispatcher for Cached<D> {
    ghost knows = { D.knows };

    fn newest(&mut self) -> Seen {
        self.inner.newest()
    }

    fn select(&mut self, key: Key, world: u32) -> Result<Choice, AllocError> {
        self.inner.select(key, world)
    }

    fn site(&self, definition: u32) -> u32 {
        self.inner.site(definition)
    }

    fn define(&mut self, site: u32) -> Result<u32, DefineFault> {
        self.inner.define(site)
    }

    fn delete(&mut self, place: u32) -> Result<u32, DeleteFault> {
        self.inner.delete(place)
    }

    fn spawn(&mut self, start: Start) -> Result<u32, SpawnFault> {
        self.inner.spawn(start)
    }

    fn fetched(&mut self, task: u32) -> Result<SharedNode<Outcome>, FetchFault> {
        self.inner.fetched(task)
    }

    fn seen(&self) -> u32 {
        self.inner.seen()
    }
}

impl<D: Dispatcher + Drop> Recall for Cached<D> {
    #[inline(always)]
    fn recall(&self, function: u32, values: &[Value], world: u32) -> Option<Recalled<'_>> {
        match find_by_values(&self.table, function, values, world) {
            Some(kept) => Some(Recalled {
                site: kept.site,
                statics: kept.statics.as_slice(),
            }),
            None => None,
        }
    }

    #[inline(always)]
    fn recall_numbers(&self, function: u32, world: u32) -> Option<u32> {
        find_number(&self.numbers, function, world)
    }

    fn keep(&mut self, key: Key, world: u32, site: u32, statics: Tys) {
        keep_number(&mut self.numbers, &key, world, site);
        let kept = Kept {
            key,
            world,
            site,
            statics,
        };
        keep(self.alloc, &mut self.table, kept);
    }
}
