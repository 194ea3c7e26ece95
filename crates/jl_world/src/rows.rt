//! The steps on the heads of keys and on rows.

ghost use Rattle.std.specs.Prelude.{◌≡◌, ◌<◌, ◌≤◌, [], length};
ghost use Rattle.jl_model.specs.declared.limits.TheConstants.{MOST_CACHE_ROWS};
ghost use Rattle.jl_calculus.specs.declared.history.Event.TheVariants.{Fill};
ghost use Rattle.jl_calculus.specs.Ranges.{keys_of, rows_of};
ghost use Rattle.jl_calculus.specs.Words.{head_word};
ghost use Rattle.jl_calculus.specs.World.{world_of};
ghost use Rattle.jl_world.specs.Adds.{HasWordsOf, IsNextFill};
ghost use Rattle.jl_world.specs.Places.{row_place};
ghost use Rattle.jl_world.specs.Rule.{IsOpenRow};
ghost use Rattle.jl_world.specs.Tells.{HasWord, IsPlace, IsRowWord};
ghost use Rattle.jl_world.specs.Views.{Begins, cut_at, grown, met, stored_at};

use crate::blank::UPPER;
use crate::name::Naming;
use crate::row_word::{Place, RowWord, index, index_in_row};
use crate::seats::{BookSeat, TaskSeat};
use crate::steps::{Cuts, Heads, Loosens, Reads, Rows};
use crate::world::World;
use jl_calculus::history::Event;
use std::marker::Brand;

impl<N: Naming> World<N> {
    /// The head of a key that the seat has seen, by one load: 1 plus the key's last row, and above it the length just after
    /// that row's fill, and 0 where it has none. It waits for nobody.
    pub fn load_head(&self, seat: &mut TaskSeat<N>, key: u32) -> u64
        requires { key < length (keys_of seat.old.seen) }
        ensures head { result ≡ head_word seat.new.seen key }
        ensures few { (length (rows_of seat.new.seen) ≤ N.about.rows) × (N.about.rows ≤ MOST_CACHE_ROWS) }
        ensures seen { Begins seat.old.seen seat.new.seen }
        ensures same { seat.new ≡ met seat.new.seen seat.old }
    {
        let found = self
            .table
            .shared
            .load::<Heads<N>>(&mut seat.seat, 8 * key as usize + 2);
        let length = (found / UPPER) as u32;
        if length > seat.seen {
            seat.seen = length;
        }
        found
    }

    /// A word of a row whose fill the seat has seen, by one load. A last world is that of the events seen, or one that is
    /// no less than the world seen where the row had no end there. It waits for nobody.
    pub fn load_row(&self, seat: &mut TaskSeat<N>, row: u32, word: RowWord) -> u64
        requires { row < length (rows_of seat.old.seen) }
        ensures same { seat.new ≡ seat.old }
        ensures word { IsRowWord N.about.program.value seat.old.seen row word result }
    {
        self.table
            .shared
            .load::<Rows<N>>(&mut seat.seat, index_in_row(row, word))
    }

    /// One of the words, by one load of the book's seat: it tells the events of that seat, where a row that was cut ahead
    /// ends at the present world already.
    pub fn read(&self, book: &mut BookSeat<N>, place: Place) -> u64
        requires { IsPlace N.about book.old.events place }
        ensures same { book.new ≡ book.old }
        ensures word { HasWord N.about.program.value book.old.events book.old.cut place result }
    {
        self.table
            .shared
            .load::<Reads<N>>(&mut book.seat, index(place))
    }

    /// The head of a key.
    pub fn book_head(&self, book: &mut BookSeat<N>, key: u32) -> u64
        requires { key < length (keys_of book.old.events) }
        ensures same { book.new ≡ book.old }
        ensures head { result ≡ head_word book.old.events key }
    {
        self.table
            .shared
            .load::<Reads<N>>(&mut book.seat, index(Place::Head(key)))
    }

    /// How many rows are linked.
    pub fn linked(&self, book: &BookSeat<N>) -> u32
        ensures count { result ≡ length (rows_of book.now.events) }
        ensures few { result ≤ N.about.rows }
    {
        book.linked
    }

    /// For how many rows there are words.
    pub fn rows(&self) -> u32
        ensures { result ≡ N.about.rows }
    {
        self.rows
    }

    /// For how many keys there are words.
    pub fn keys(&self) -> u32
        ensures { result ≡ N.about.keys }
    {
        self.keys
    }

    /// Stores a word of a row that is not linked. The seat knows it until the row is linked.
    pub fn store_row(&self, book: &mut BookSeat<N>, row: u32, word: RowWord, value: u64)
        requires free { length (rows_of book.old.events) ≤ row }
        requires row { row < N.about.rows }
        ensures { book.new ≡ stored_at (row_place row word) value book.old }
    {
        self.table
            .shared
            .store::<Loosens>(&mut book.seat, index_in_row(row, word), value);
    }

    /// Links the next row, by one store: the history has then its fill.
    pub fn store_head(&self, book: &mut BookSeat<N>, key: u32, site: u32, first: u32)
        requires fill { IsNextFill N.about.program.value book.old.events key site first }
        requires free { length (rows_of book.old.events) < N.about.rows }
        requires uncut { book.old.cut ≡ [] }
        requires words { HasWordsOf N.about.program.value book.old key site first }
        ensures { book.new ≡ grown (Fill key site first) book.old }
    {
        let event = Event::Fill { key, site, first };
        let count = book.count + 1;
        let world = book.world;
        let linked = book.linked + 1;
        self.grow::<Brand>(
            book,
            &event,
            8 * key as usize + 2,
            u64::from(count) * UPPER + u64::from(linked),
            world,
            linked,
        );
    }

    /// Cuts a row that has no end at the present world, ahead of a definition that touches its key.
    pub fn store_last(&self, book: &mut BookSeat<N>, row: u32, last: u32)
        requires row { IsOpenRow N.about.program.value book.old.events row }
        requires last { last ≡ world_of book.old.events }
        ensures { book.new ≡ cut_at row book.old }
    {
        self.table.shared.store::<Cuts>(
            &mut book.seat,
            index_in_row(row, RowWord::Last),
            u64::from(last),
        );
    }
}
