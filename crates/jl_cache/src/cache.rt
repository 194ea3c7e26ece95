//! The cache over the shared words.

ghost use Rattle.std.specs.Prelude.{◌≡◌, ◌⊎◌, ℕ, ◌<◌, ◌≤◌, max, [], length, IsTrue, ◌↔◌, MatchOption};
ghost use Rattle.jl_calculus.specs.declared.history.Event.TheVariants.{Fill};
ghost use Rattle.jl_calculus.specs.Learnt.{IsUncovered};
ghost use Rattle.jl_calculus.specs.Ranges.{keys_of, rows_of};
ghost use Rattle.jl_calculus.specs.Words.{link_of};
ghost use Rattle.jl_calculus.specs.World.{world_of};
ghost use Rattle.jl_cache.specs.Finds.{HasRangeEnd, IsHit, MatchFound, Reaches};
ghost use Rattle.jl_program.specs.Prelude.{prelude_count};
ghost use Rattle.jl_world.specs.Adds.{IsNextFill};
ghost use Rattle.jl_world.specs.Rule.{IsOpenRow};
ghost use Rattle.jl_world.specs.Tells.{IsRowWord};
ghost use Rattle.jl_world.specs.Tops.{top_of};
ghost use Rattle.jl_world.specs.Views.{Begins, cut_at, grown, met};
ghost use Rattle.jl_world.specs.declared.row_word.RowWord.TheVariants.{Next, Top};

use crate::found::{Found, Miss};
use jl_world::{BookSeat, Naming, Place, RowWord, TaskSeat, World};
use std::snapshot::Snapshot;

/// What the lower half of a head counts.
const HALF: u64 = 4_294_967_296;

/// The rows of the cache, in shared words: a search takes no lock and no memory.
#[derive(Drop)]
pub struct Cache<N: Naming> {
    world: World<N>,
}

// Whether a range with these words has the world.
fn covers(first: u64, last: u64, world: u64) -> bool
    ensures { IsTrue result ↔ ((first ≤ world) × Reaches last world) }
{
    first <= world && (last == 0 || world <= last)
}

impl<N: Naming> Cache<N> {
    /// The cache over these words.
    pub fn over(world: World<N>) -> Cache<N> {
        Cache { world }
    }

    /// The words that it is over.
    pub fn world(&self) -> &World<N> {
        &self.world
    }

    /// Searches the rows of a key that the seat has seen for one that covers a world: a hit has its site, and there is a
    /// miss exactly where none of the rows that were linked when the key's head was loaded covers it. It waits for nobody.
    pub fn find(&self, seat: &mut TaskSeat<N>, key: u32, world: u32) -> Found<Miss<N>>
        requires key { key < length (keys_of seat.old.seen) }
        requires world { (prelude_count ≤ world) × (world ≤ world_of seat.old.seen) }
        ensures found { MatchFound result (IsHit N.about.program.value seat.new.seen key world) (λ m. IsUncovered N.about.program.value seat.new.seen key world) }
        ensures miss { MatchFound result (λ site. Unit {0}) (λ m. m ≡ record { key = key; world = world; seen = seat.new.seen }) }
        ensures seen { Begins seat.old.seen seat.new.seen }
        ensures same { seat.new ≡ met seat.new.seen seat.old }
    {
        let head = self.world.load_head(seat, key);
        let mut link = (head % HALF) as u32;
        while link > 0 {
            let row = link - 1;
            let first = self.world.load_row(seat, row, RowWord::First);
            let last = self.world.load_row(seat, row, RowWord::Last);
            if covers(first, last, u64::from(world)) {
                let site = self.world.load_row(seat, row, RowWord::Site);
                return Found::Hit(site as u32);
            }
            let next = self.next_to_try(seat, row, first, world);
            link = next as u32;
        }
        let seen = Snapshot::of(seat);
        Found::Miss(Miss { key, world, seen })
    }

    // 1 plus the next row to try after one that does not cover the world, and 0 where there is none. Where no row of the key up
    // to this one begins later, and this one begins by the world, those that begin earlier end before this one begins.
    fn next_to_try(&self, seat: &mut TaskSeat<N>, row: u32, first: u64, world: u32) -> u64
        requires { row < length (rows_of seat.old.seen) }
        ensures same { seat.new ≡ seat.old }
        ensures next { IsRowWord N.about.program.value seat.old.seen row Next result ⊎ ((result ≡ 0) × (first ≤ world) × IsRowWord N.about.program.value seat.old.seen row Top first) }
    {
        let top = self.world.load_row(seat, row, RowWord::Top);
        if top == first && first <= u64::from(world) {
            return 0;
        }
        self.world.load_row(seat, row, RowWord::Next)
    }

    // The largest first world of a key's rows, with one more row that begins in this world.
    fn top_with(&self, book: &mut BookSeat<N>, key: u32, link: u32, first: u32) -> u64
        requires link { link ≡ link_of key (rows_of book.old.events) }
        ensures same { book.new ≡ book.old }
        ensures top { result ≡ max first (top_of key (rows_of book.old.events)) }
    {
        if link == 0 {
            return u64::from(first);
        }
        let place = Place::Row(link - 1, RowWord::Top);
        let top = self.world.read(book, place);
        u64::from(first).max(top)
    }

    /// Links a row for a key, with a site that is right from its first world on, and answers its number, or None exactly
    /// where all rows are in use.
    pub fn link(
        &self,
        book: &mut BookSeat<N>,
        key: u32,
        site: u32,
        first: u32,
        last: Option<u32>,
    ) -> Option<u32>
        requires fill { IsNextFill N.about.program.value book.old.events key site first }
        requires last { HasRangeEnd N.about.program.value book.old.events key first last }
        requires uncut { book.old.cut ≡ [] }
        ensures row { MatchOption result (length (rows_of book.old.events) ≡ N.about.rows) (λ row. (row ≡ length (rows_of book.old.events)) × (row < N.about.rows)) }
        ensures book { MatchOption result (book.new ≡ book.old) (λ row. book.new ≡ grown (Fill key site first) book.old) }
    {
        let row = self.world.linked(book);
        if row == self.world.rows() {
            return None;
        }
        let head = self.world.book_head(book, key);
        let top = self.top_with(book, key, (head % HALF) as u32, first);
        let last = u64::from(last.unwrap_or(0));
        self.world
            .store_row(book, row, RowWord::Site, u64::from(site));
        self.world
            .store_row(book, row, RowWord::First, u64::from(first));
        self.world.store_row(book, row, RowWord::Last, last);
        self.world.store_row(book, row, RowWord::Next, head % HALF);
        self.world.store_row(book, row, RowWord::Top, top);
        self.world.store_head(book, key, site, first);
        Some(row)
    }

    /// Cuts a row that has no end at the present world, ahead of a definition that touches its key.
    pub fn cut(&self, book: &mut BookSeat<N>, row: u32, last: u32)
        requires row { IsOpenRow N.about.program.value book.old.events row }
        requires last { last ≡ world_of book.old.events }
        ensures { book.new ≡ cut_at row book.old }
    {
        self.world.store_last(book, row, last);
    }
}
