//! The words of the rows: what a search reads of a row, and where the search of a key begins.

ghost use Rattle.std.specs.Prelude.{◌≡◌, ◌≤◌, ◌&&◌, nat_eq, map, length};
ghost use Rattle.jl_model.specs.declared.limits.TheConstants.{MOST_CACHE_ROWS};
ghost use Rattle.jl_calculus.specs.Core.{go_to, is_reached, after_row};
ghost use Rattle.jl_calculus.specs.Words.{link_of};
ghost use Rattle.jl_core.specs.Asked.{any_reached};
ghost use Rattle.jl_core.specs.View.{row_of, stand_of, search_of};

use crate::task::{Search, Stand};

/// The words of a row: its key and its site, its first world, its last world (0 without an end), and 1 plus the row of its key
/// before it (0 where there is none).
#[derive(Clone, Copy)]
pub(crate) struct Words {
    pub(crate) key: u32,
    pub(crate) site: u32,
    pub(crate) first: u32,
    pub(crate) last: u32,
    pub(crate) next: u32,
}

impl Words {
    /// Whether the row covers a world.
    fn reaches(&self, world: u32) -> bool
        ensures { result ≡ is_reached self.now.first self.now.last world }
    {
        self.first <= world && (self.last == 0 || world <= self.last)
    }
}

/// Whether a row of this key covers a world.
pub(crate) fn is_covered(rows: &[Words], key: u32, world: u32) -> bool
    ensures { result ≡ any_reached key world rows.now }
{
    for row in rows {
        if row.key == key && row.reaches(world) {
            return true;
        }
    }
    false
}

/// 1 plus the last row of a key, and 0 where it has none.
pub(crate) fn link_of(rows: &[Words], key: u32) -> u32
    requires { length rows.now ≤ MOST_CACHE_ROWS }
    ensures { result ≡ link_of key (map row_of rows.now) }
{
    let mut link = 0;
    for (i, row) in rows.iter().enumerate() {
        if row.key == key {
            link = i as u32 + 1;
        }
    }
    link
}

/// Where a search goes by a link.
pub(crate) fn go_to(link: u32) -> Stand
    ensures { stand_of result ≡ go_to link }
{
    if link == 0 {
        return Stand::Missed;
    }
    Stand::AtRow(link - 1)
}

/// A search that has read a row: it ends there where the row covers its world, and else goes on.
pub(crate) fn after_row(last: Search, words: Words) -> Search
    ensures { search_of result ≡ after_row (search_of last) words.site words.first words.last words.next }
{
    let stand = if words.reaches(last.world) {
        Stand::Found(words.site)
    } else {
        go_to(words.next)
    };
    Search {
        key: last.key,
        world: last.world,
        stand,
    }
}
