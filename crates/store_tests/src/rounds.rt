//! The writing side: a row is linked, cut at the present world, and a definition publishes the next.

ghost use Rattle.std.specs.Prelude.{◌≡◌, ◌+◌, ◌<◌, ◌≤◌, [], IsTrue};
ghost use Rattle.store_tests.specs.Programs.{late};
ghost use Rattle.store_tests.specs.Rounds.{IsRound};

use jl_cache::Cache;
use jl_calculus::history::Change;
use jl_world::{BookSeat, Naming};

/// The world of the first definition.
pub const FIRST: u32 = 15;

/// One round: whether there was a row.
fn define_again<N: Naming>(cache: &Cache<N>, book: &mut BookSeat<N>, number: u32) -> bool
    requires program { N.about.program.value ≡ late }
    requires round { IsRound N.about.fuel number book.old }
    requires few { number < 60000 }
    ensures { IsTrue result → IsRound N.about.fuel (number + 1) book.new }
{
    let world = FIRST + number;
    let Some(row) = cache.link(book, 0, 14, world, None) else {
        return false;
    };
    cache.cut(book, row, world);
    cache.world().publish(book, 0, Change::Def(14));
    true
}

/// So many rounds: whether there were rows for all.
pub fn define_often<N: Naming>(cache: &Cache<N>, mut book: BookSeat<N>, count: u32) -> bool
    requires program { N.about.program.value ≡ late }
    requires round { IsRound N.about.fuel 0 book }
    requires few { count ≤ 60000 }
{
    for number in 0..count {
        if !define_again(cache, &mut book, number) {
            return false;
        }
    }
    true
}
