//! The history of a run, and how it begins and ends.

ghost use Rattle.std.specs.Prelude.{◌≡◌, ◌≤◌, None, Some, IfOk, length};
ghost use Rattle.jl_calculus.specs.Legal.{fuel_of, IsLegal, IsCached};
ghost use Rattle.jl_calculus.specs.ValidHistory.{AreValidEvents};
ghost use Rattle.jl_calculus.specs.World.{change_at, site_of};
ghost use Rattle.jl_methods.specs.Filters.{IsDefinition};
ghost use Rattle.jl_world.specs.Names.{table_of, about_of};
ghost use Rattle.jl_world.specs.Rule.{first_events};
ghost use Rattle.jl_world.specs.Views.{begun};
ghost use Rattle.jl_book.specs.Books.{IsBook};
ghost use Rattle.jl_rows.specs.Plans.{places_of};
ghost use Rattle.jl_book.specs.Tasks.{gathered_in, made_in, unfinished_of};

use crate::pass::Pass;
use indexmap::IndexSet;
use jl_cache::Cache;
use jl_calculus::history::{Event, History};
use jl_methods::Index;
use jl_model::shared::SharedList;
use jl_model::ty::Key;
use jl_sig::Ready;
use jl_world::{Blank, BookSeat, Naming, World};
use std::alloc::{AllocError, Global};
use std::marker::Model;

/// The history of a run, with all that its questions need: the events, their index, the keys in the order of their numbers, and for each
/// task where it ended. Contracts see it as the events.
#[derive(Drop)]
pub struct Book<N: Naming> {
    pub(crate) seat: BookSeat<N>,
    pub(crate) events: Vec<Event>,
    pub(crate) index: Index,
    pub(crate) keys: IndexSet<Key>,
    pub(crate) ends: Vec<Option<u32>>,
    pub(crate) unfinished: u32,
}

impl<N: Naming> Model for Book<N> {
    ghost use Rattle.std.specs.Prelude.{List};
    ghost use Rattle.std.specs.Coded.{coded_list};
    ghost use Rattle.jl_calculus.specs.declared.history.Event.{Event};
    ghost use Rattle.jl_calculus.specs.contracts.history.Event as e;
    ghost use Rattle.jl_book.specs.Books.{HasParts};

    ghost Value = { List Event };

    ghost coded = { coded_list e.the_row.coded };

    ghost view = { λ b. b.seat.events };

    ghost invariant = { λ b. HasParts N.about b.seat.events b.seat b.events.items b.index b.keys.keys b.ends.items b.unfinished };
}

impl<N: Naming> Book<N> {
    /// The book of a run that begins, with the cache over its words and the pass of the root.
    pub fn open(
        alloc: Global,
        ready: &Ready,
        blank: Blank,
    ) -> Result<(Book<N>, Cache<N>, Pass<N>), AllocError>
        requires ready { ready.now ≡ N.about.program.value }
        requires name { (table_of blank ≡ N.table) × (about_of blank ≡ N.about) }
        ensures book { IfOk result (λ opened. opened.0 ≡ first_events N.about) }
        ensures root { IfOk result (λ opened. opened.2 ≡ begun 0 None (first_events N.about)) }
    {
        ready.valid();
        let index = Index::new(alloc, ready)?;
        let mut events = Vec::new(alloc);
        events.push(Event::Begin(blank.fuel()))?;
        let mut ends = Vec::new(alloc);
        ends.push(None)?;
        let (world, mut seat, mut root) = World::<N>::open(blank);
        world.meet(&mut seat, &mut root);
        let keys = IndexSet::new(alloc);
        let book = Book {
            seat,
            events,
            index,
            keys,
            ends,
            unfinished: 1,
        };
        let pass = Pass {
            seat: root,
            task: 0,
        };
        Ok((book, Cache::over(world), pass))
    }

    /// The events so far, in order.
    pub fn events(&self) -> &[Event]
        ensures { result.now ≡ self.now }
    {
        self.events.as_slice()
    }

    /// How many tasks have not ended.
    pub fn unfinished(&self) -> u32
        ensures { result ≡ unfinished_of self.now }
    {
        self.unfinished
    }

    /// The site of the definition that made a world.
    pub fn site(&self, world: u32) -> u32
        requires { IsDefinition (change_at self.now world) }
        ensures { result ≡ site_of self.now world }
    {
        self.index.site(world)
    }

    /// That the events are those of a run so far, for proofs that rest on it. It does nothing.
    pub fn facts(&self)
        ensures { IsBook N.about self.now }
    {
        let _ = &self.seat;
    }

    /// The history, once all tasks have ended. It takes memory, since whoever has a history shares it.
    pub fn close(self, alloc: Global) -> Result<History, AllocError>
        requires { unfinished_of self ≡ 0 }
        ensures events { IfOk result (λ history. history.events ≡ self) }
        ensures gathered { IfOk result (λ history. gathered_in history.events ≡ made_in history.events) }
        ensures legal { IfOk result (λ history. IsLegal N.about.program.value history.events) }
        ensures fuel { IfOk result (λ history. fuel_of history.events ≡ Some N.about.fuel) }
        ensures cached { IfOk result (λ history. IsCached N.about.program.value (places_of N.about) history.events) }
        ensures valid { IfOk result (λ history. AreValidEvents N.about.program.value history.events) }
    {
        let Book { events, .. } = self;
        let events = SharedList::from_vec(alloc, events)?;
        Ok(History { events })
    }
}
