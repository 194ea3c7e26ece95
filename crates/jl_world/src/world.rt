//! The words, and the steps that tell worlds and lengths.

ghost use Rattle.std.specs.Prelude.{◌≡◌, ℕ, true, ◌+◌, ◌*◌, ◌<◌, ◌≤◌, ◌++◌, ◌∷◌, [], length, slice_get, Some, None};
ghost use Rattle.jl_model.specs.declared.limits.TheConstants.{MOST_WORLDS};
ghost use Rattle.jl_calculus.specs.declared.history.TraceItem.TheVariants.{Look};
ghost use Rattle.jl_calculus.specs.Legal.{MayBeMade, MayCome};
ghost use Rattle.jl_calculus.specs.Past.{IsTrueOf};
ghost use Rattle.jl_calculus.specs.Ranges.{rows_of};
ghost use Rattle.jl_calculus.specs.Words.{AreAllCut};
ghost use Rattle.jl_calculus.specs.World.{world_of, change_event};
ghost use Rattle.jl_world.specs.Places.{HasPlaces, place_of, word_count, word_of};
ghost use Rattle.jl_world.specs.Rule.{IsHistory, first_events};
ghost use Rattle.jl_world.specs.Adds.{IsNote, HasPlaceFor, HoldsActor, MayAdd};
ghost use Rattle.jl_world.specs.Views.{Begins, Fits, HasTask, begun, front, given, grown, idle, looked, met, returned, taken, view_of};

use crate::blank::{Blank, UPPER, WordTable};
use crate::name::Naming;
use crate::seats::{BookSeat, TaskSeat};
use crate::steps::{Asked, Checks, Copies, Gives, Grows, HandsOver, Looks, Returns, TakesIn, Told};
use jl_calculus::history::{Change, Event, Seen};
use jl_program::prelude::FIRST_WORLD;
use std::marker::{Brand, PhantomData};

/// The words that threads share. Each call is one step on a word, but for `meet`, which is four, and `end`, which is two.
#[derive(Drop)]
pub struct World<N: Naming> {
    pub(crate) table: WordTable,
    pub(crate) keys: u32,
    pub(crate) rows: u32,
    of: PhantomData<N>,
    ghost named: { (table.shared.table_id ≡ N.table) × (table.shared.key ≡ N.about) },
    ghost places: { HasPlaces N.about },
    ghost sized: { table.shared.table_id.words ≡ word_count N.about },
    ghost counts: { (keys ≡ N.about.keys) × (rows ≡ N.about.rows) },
}

impl<N: Naming> World<N> {
    ghost use Rattle.jl_world.specs.Names.{table_of, about_of};

    /// The words under a name, the book's seat, and that of the root, which has seen the Begin.
    pub fn open(blank: Blank) -> (World<N>, BookSeat<N>, TaskSeat<N>)
        requires name { (table_of blank ≡ N.table) × (about_of blank ≡ N.about) }
        ensures book { result.1 ≡ record { events = first_events N.about; held = []; cut = []; stored = [] } }
        ensures root { result.2 ≡ begun 0 None (first_events N.about) }
    {
        let Blank {
            table,
            seat,
            fuel: _,
            keys,
            rows,
        } = blank;
        let world = World {
            table,
            keys,
            rows,
            of: PhantomData,
        };
        let mut book = BookSeat {
            seat,
            world: FIRST_WORLD,
            count: 1,
            linked: 0,
            of: PhantomData,
        };
        let root = world.send_back(&mut book);
        (world, book, root)
    }

    /// Sees which world is the newest. It waits for nobody.
    pub fn look(&self, seat: &mut TaskSeat<N>) -> Seen
        ensures item { (task : ℕ) → IsTrueOf N.about.program.value seat.new.seen task (Look result.world result.length) }
        ensures world { world_of seat.new.seen ≡ result.world }
        ensures seen { Begins seat.old.seen seat.new.seen × (result.length ≡ length seat.new.seen) }
        ensures looks { seat.new.looks ≡ seat.old.looks + 1 }
        ensures same { seat.new ≡ looked seat.new.seen seat.old }
    {
        let found = self.table.shared.load::<Looks<N>>(&mut seat.seat, 0);
        let world = (found % UPPER) as u32;
        let length = (found / UPPER) as u32;
        if length > seat.seen {
            seat.seen = length;
        }
        Seen {
            world,
            length: seat.seen,
        }
    }

    /// Makes the next world: one store publishes a definition or a deletion by a task, and all rows that were cut for it.
    pub fn publish(&self, book: &mut BookSeat<N>, task: u32, change: Change)
        requires held { HasTask task book.old.held }
        requires change { MayBeMade N.about.program.value book.old.events change }
        requires cut { AreAllCut N.about.program.value book.old.events change book.old.cut }
        requires world { world_of book.old.events < MOST_WORLDS }
        ensures { book.new ≡ grown (change_event task change) book.old }
    {
        let event = change.event(task);
        let count = book.count + 1;
        let world = book.world + 1;
        let linked = book.linked;
        self.grow::<Brand>(
            book,
            &event,
            0,
            u64::from(count) * UPPER + u64::from(world),
            world,
            linked,
        );
    }

    /// Records a new key, a spawn or the end of a task, by one store.
    pub fn note(&self, book: &mut BookSeat<N>, event: &Event)
        requires kind { IsNote event.now }
        requires held { HoldsActor book.old.held event.now }
        requires legal { MayCome N.about.program.value book.old.events event.now }
        requires place { HasPlaceFor N.about book.old.events event.now }
        requires uncut { book.old.cut ≡ [] }
        ensures { book.new ≡ grown event.now book.old }
    {
        let count = book.count + 1;
        let world = book.world;
        let linked = book.linked;
        self.grow::<Brand>(book, event, 1, u64::from(count), world, linked);
    }

    pub(crate) fn grow<E: Told>(
        &self,
        book: &mut BookSeat<N>,
        event: &Event,
        word: usize,
        value: u64,
        world: u32,
        linked: u32,
    )
        requires told { E.event ≡ event.now }
        requires event { MayAdd N.about book.old event.now }
        requires word { (word ≡ place_of event.now) × (value ≡ word_of event.now (book.old.events ++ event.now ∷ [])) }
        requires world { world ≡ world_of (book.old.events ++ event.now ∷ []) }
        requires linked { linked ≡ length (rows_of (book.old.events ++ event.now ∷ [])) }
        ensures { book.new ≡ grown event.now book.old }
    {
        self.table
            .shared
            .store::<Grows<N, E>>(&mut book.seat, word, value);
        book.world = world;
        book.count += 1;
        book.linked = linked;
    }

    /// A seat without a task, which has seen as much.
    pub fn child(&self, seat: &mut TaskSeat<N>) -> TaskSeat<N>
        ensures same { seat.new ≡ seat.old }
        ensures child { result ≡ idle seat.old.seen }
    {
        let other = self.table.shared.split_seat::<Copies>(&mut seat.seat);
        TaskSeat {
            seat: other,
            seen: seat.seen,
            of: PhantomData,
        }
    }

    // All of the seat but what it has seen goes into a new one.
    fn hand_over(&self, seat: &mut TaskSeat<N>) -> TaskSeat<N>
        ensures left { seat.new ≡ idle seat.old.seen }
        ensures moved { result ≡ seat.old }
    {
        let other = self.table.shared.split_seat::<HandsOver>(&mut seat.seat);
        TaskSeat {
            seat: other,
            seen: seat.seen,
            of: PhantomData,
        }
    }

    /// Takes a seat back. Where it has a task, the book's seat then holds the task.
    pub fn end(&self, book: &mut BookSeat<N>, seat: TaskSeat<N>)
        ensures book { book.new ≡ taken seat book.old }
        ensures fits { Fits N.about.program.value book.old.events seat }
        ensures history { IsHistory N.about book.old.events }
    {
        let TaskSeat {
            seat,
            seen: _,
            of: _,
        } = seat;
        self.table.shared.join_seat::<TakesIn>(&mut book.seat, seat);
        self.table.shared.load::<Checks<N>>(&mut book.seat, 0);
    }

    // The seat that was taken back last, with all that the book has seen.
    fn send_back(&self, book: &mut BookSeat<N>) -> TaskSeat<N>
        requires { 0 < length book.old.held }
        ensures book { book.new ≡ returned book.old }
        ensures seat { result ≡ met book.old.events (front book.old.held) }
    {
        let other = self.table.shared.split_seat::<Returns>(&mut book.seat);
        TaskSeat {
            seat: other,
            seen: book.count,
            of: PhantomData,
        }
    }

    /// Lets a seat have seen all that the book's seat has seen.
    pub fn meet(&self, book: &mut BookSeat<N>, seat: &mut TaskSeat<N>)
        ensures book { book.new ≡ book.old }
        ensures seat { seat.new ≡ met book.old.events seat.old }
        ensures fits { Fits N.about.program.value book.old.events seat.old }
        ensures history { IsHistory N.about book.old.events }
    {
        let moved = self.hand_over(seat);
        self.end(book, moved);
        *seat = self.send_back(book);
    }

    /// The seat of a task that the book's seat holds, with all that it has seen. It is held no longer.
    pub fn give(&self, book: &mut BookSeat<N>, task: u32) -> TaskSeat<N>
        requires { HasTask task book.old.held }
        ensures book { book.new ≡ given task book.old }
        ensures seat { result ≡ met book.old.events (view_of task book.old.held) }
    {
        self.give_as::<Brand>(book, task)
    }

    fn give_as<T: Asked>(&self, book: &mut BookSeat<N>, task: u32) -> TaskSeat<N>
        requires task { T.task ≡ task }
        requires held { HasTask task book.old.held }
        ensures book { book.new ≡ given task book.old }
        ensures seat { result ≡ met book.old.events (view_of task book.old.held) }
    {
        let other = self.table.shared.split_seat::<Gives<T>>(&mut book.seat);
        TaskSeat {
            seat: other,
            seen: book.count,
            of: PhantomData,
        }
    }
}
