//! Which rows a change ends.

ghost use Rattle.std.specs.Prelude.{◌≡◌, ◌⊎◌, ◌↔◌, ℕ, []};
ghost use Rattle.std.specs.List.{Contains};
ghost use Rattle.jl_calculus.specs.declared.history.Change.{Change as C};
ghost use Rattle.jl_calculus.specs.Ranges.{keys_of};
ghost use Rattle.jl_calculus.specs.Words.{AreAllCut};
ghost use Rattle.jl_calculus.specs.World.{world_of};
ghost use Rattle.jl_methods.specs.Filters.{AreTouched};
ghost use Rattle.jl_methods.specs.Indexed.{IsIndexOf};
ghost use Rattle.jl_world.specs.Rule.{IsHistory};
ghost use Rattle.jl_rows.specs.Open.{IsOpenOf, with_cut};

use crate::rows::find_open;
use jl_cache::Cache;
use jl_methods::Index;
use jl_world::{BookSeat, Naming};

/// Cuts the row of a key that has no end, where there is one.
fn cut_row<N: Naming>(index: &Index, cache: &Cache<N>, book: &mut BookSeat<N>, key: u32, world: u32)
    requires index { IsIndexOf N.about.program.value book.old.events index.now }
    requires history { IsHistory N.about book.old.events }
    requires world { world ≡ world_of book.old.events }
    ensures same { book.new ≡ with_cut book.new.cut book.old }
    ensures cut { (r : ℕ) → Contains book.new.cut r ↔ (Contains book.old.cut r ⊎ IsOpenOf N.about.program.value book.old.events key r) }
{
    let Some(row) = find_open(index, cache, book, key) else {
        return;
    };
    cache.cut(book, row, world);
}

/// Cuts, at the present world, exactly the rows without an end of the keys that a definition or a deletion touches, ahead of it. It
/// takes no memory. Of each key one row at most has no end.
pub fn cut_rows<N: Naming>(index: &Index, cache: &Cache<N>, book: &mut BookSeat<N>, touched: &[u32])
    requires index { IsIndexOf N.about.program.value book.old.events index.now }
    requires history { IsHistory N.about book.old.events }
    requires uncut { book.old.cut ≡ [] }
    ensures same { book.new ≡ with_cut book.new.cut book.old }
    ensures cut { (change : C) → AreTouched N.about.program.value (keys_of book.old.events) change touched.now → AreAllCut N.about.program.value book.old.events change book.new.cut }
{
    let world = index.worlds() as u32;
    for number in touched {
        cut_row(index, cache, book, *number, world);
    }
}
