//! The rows of a key, as the words tell them.

ghost use Rattle.std.specs.Prelude.{◌≡◌, ◌↔◌, IsTrue, MatchOption};
ghost use Rattle.jl_world.specs.Rule.{IsHistory};
ghost use Rattle.jl_methods.specs.Indexed.{IsIndexOf};
ghost use Rattle.jl_rows.specs.Open.{AreOpenCut, HasRowFrom, IsOpenOf};

use jl_cache::Cache;
use jl_methods::Index;
use jl_world::{BookSeat, Naming, Place, RowWord};

/// The row of a key that has no end and was not cut, where there is one. Only the newest row can be one, since a row without an end
/// begins in the last world whose definition touches the key.
pub(crate) fn find_open<N: Naming>(
    index: &Index,
    cache: &Cache<N>,
    book: &mut BookSeat<N>,
    key: u32,
) -> Option<u32>
    requires index { IsIndexOf N.about.program.value book.old.events index.now }
    requires history { IsHistory N.about book.old.events }
    ensures same { book.new ≡ book.old }
    ensures found { MatchOption result (AreOpenCut N.about.program.value book.old.events key book.old.cut) (λ row. IsOpenOf N.about.program.value book.old.events key row) }
{
    let Some(newest) = index.newest_row(key) else {
        return None;
    };
    let last = cache
        .world()
        .read(book, Place::Row(newest.number, RowWord::Last));
    if last == 0 {
        return Some(newest.number);
    }
    None
}

/// Whether a row of a key begins in a world. The walk begins at the latest row.
fn has_older_row_from<N: Naming>(
    index: &Index,
    cache: &Cache<N>,
    book: &mut BookSeat<N>,
    key: u32,
    first: u32,
) -> bool
    requires index { IsIndexOf N.about.program.value book.old.events index.now }
    ensures same { book.new ≡ book.old }
    ensures found { IsTrue result ↔ HasRowFrom book.old.events key first }
{
    let rows = index.rows_of(key);
    let mut left = rows.len();
    while left > 0 {
        left -= 1;
        let begun = cache
            .world()
            .read(book, Place::Row(rows[left], RowWord::First));
        if begun == u64::from(first) {
            return true;
        }
    }
    false
}

/// Whether a row of a key begins in a world. A world that is not below the first world of the newest row is answered at once.
pub(crate) fn has_row_from<N: Naming>(
    index: &Index,
    cache: &Cache<N>,
    book: &mut BookSeat<N>,
    key: u32,
    first: u32,
) -> bool
    requires index { IsIndexOf N.about.program.value book.old.events index.now }
    ensures same { book.new ≡ book.old }
    ensures found { IsTrue result ↔ HasRowFrom book.old.events key first }
{
    let Some(newest) = index.newest_row(key) else {
        return false;
    };
    if newest.first <= first {
        return newest.first == first;
    }
    has_older_row_from(index, cache, book, key, first)
}
