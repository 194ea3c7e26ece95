//! The number of a key.

ghost use Rattle.std.specs.Prelude.{◌≡◌, ◌<◌, ◌↔◌, ◌++◌, ◌∷◌, [], ℕ, List, IfOk, OnErr, Err};
ghost use Rattle.indexmap.specs.IndexSet.{spare};
ghost use Rattle.jl_calculus.specs.declared.history.Event.{Event};
ghost use Rattle.jl_calculus.specs.declared.history.Event.TheVariants as E;
ghost use Rattle.jl_calculus.specs.Learnt.{IsNamed};
ghost use Rattle.jl_calculus.specs.Legal.{IsKeyOf, MayCome};
ghost use Rattle.jl_methods.specs.Indexed.{noted_in, IsIndexOf, HasRoomFor};
ghost use Rattle.jl_methods.specs.Room.{IsRoomy};
ghost use Rattle.jl_world.specs.Views.{Begins, met};
ghost use Rattle.jl_book.specs.declared.faults.KeyFault.TheVariants as F;
ghost use Rattle.jl_book.specs.Answers.{AreKeysFull, IsAddedOnce};
ghost use Rattle.jl_book.specs.Passes.{HasShare};

use crate::book::Book;
use crate::faults::KeyFault;
use crate::parts;
use crate::pass::Pass;
use crate::table::{add_key, find_key};
use indexmap::IndexSet;
use jl_cache::Cache;
use jl_calculus::history::Event;
use jl_methods::Index;
use jl_model::ty::Key;
use jl_sig::Ready;
use jl_world::Naming;
use std::alloc::{AllocError, Global};

/// Takes all the memory that a new key needs, and gives its event and a copy of it.
fn reserve_key(
    ready: &Ready,
    keys: &mut IndexSet<Key>,
    index: &mut Index,
    events: &mut Vec<Event>,
    key: &Key,
) -> Result<(Event, Key), AllocError>
    requires { (es : List Event) × IsIndexOf ready.now es index.old × MayCome ready.now es (E.Key key.now) }
    ensures event { IfOk result (λ made. made.0 ≡ E.Key key.now) }
    ensures key { IfOk result (λ made. made.1 ≡ key.now) }
    ensures free { IfOk result (λ made. 0 < spare keys.new) }
    ensures keys { keys.new.keys ≡ keys.old.keys }
    ensures room { IfOk result (λ made. HasRoomFor ready.now (E.Key key.now) index.new) }
    ensures place { IfOk result (λ made. IsRoomy events.new) }
    ensures noted { noted_in index.new ≡ noted_in index.old }
    ensures events { events.new.items ≡ events.old.items }
{
    let copy = key.copy()?;
    let event = Event::Key(key.copy()?);
    keys.reserve(1)?;
    parts::reserve(ready, index, events, &event)?;
    Ok((event, copy))
}

impl<N: Naming> Book<N> {
    /// The number of a key, which is added where the history does not have it. It is refused exactly where it is new and all places for
    /// keys are in use.
    pub fn key(
        &mut self,
        alloc: Global,
        ready: &Ready,
        cache: &Cache<N>,
        pass: &mut Pass<N>,
        key: &Key,
    ) -> Result<u32, KeyFault>
        requires ready { ready.now ≡ N.about.program.value }
        requires key { IsKeyOf N.about.program.value key.now }
        ensures named { IfOk result (λ number. IsNamed self.new number key.now) }
        ensures added { IfOk result (λ number. IsAddedOnce self.old key.now self.new) }
        ensures full { result ≡ Err F.KeysFull ↔ AreKeysFull N.about self.old key.now }
        ensures refused { OnErr result (self.new ≡ self.old) }
        ensures pass { pass.new ≡ met self.new pass.old }
        ensures seen { Begins pass.old.seen self.old }
        ensures share { HasShare self.old pass.old }
    {
        cache.world().meet(&mut self.seat, &mut pass.seat);
        let most = cache.world().keys();
        if let Some(number) = find_key(&self.keys, key) {
            return Ok(number as u32);
        }
        let number = self.keys.len();
        if number >= most as usize {
            return Err(KeyFault::KeysFull);
        }
        let Ok((event, copy)) = reserve_key(
            ready,
            &mut self.keys,
            &mut self.index,
            &mut self.events,
            key,
        ) else {
            return Err(KeyFault::Memory);
        };
        cache.world().note(&mut self.seat, &event);
        parts::add(ready, &mut self.index, &mut self.events, event);
        add_key(&mut self.keys, copy);
        cache.world().meet(&mut self.seat, &mut pass.seat);
        Ok(number as u32)
    }
}
