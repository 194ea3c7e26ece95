//! The words, and where they stand.

ghost use Rattle.std.specs.Prelude.{◌≡◌};
ghost use Rattle.jl_world.specs.Places.{row_place, index_of};

/// A word of a row of the cache: the site that it tells, the first and the last world that it covers, the row before it, and
/// the largest first world among the rows of its key up to this one.
#[derive(Clone, Copy, PartialEq, Eq, Debug)]
pub enum RowWord {
    Site,
    First,
    Last,
    Next,
    Top,
}

/// One of the words.
#[derive(Clone, Copy, PartialEq, Eq, Debug)]
pub enum Place {
    /// The newest world, and the length just after what made it.
    World,
    /// The length just after the last key, spawn or end of a task.
    Notes,
    /// The last row of a key, and the length just after its fill.
    Head(u32),
    Row(u32, RowWord),
}

// Where a word of a row stands.
pub(crate) fn index_in_row(row: u32, word: RowWord) -> usize
    ensures { result ≡ row_place row word }
{
    let first = 8 * row as usize;
    match word {
        RowWord::Site => first + 4,
        RowWord::First => first + 5,
        RowWord::Last => first + 6,
        RowWord::Next => first + 7,
        RowWord::Top => first + 3,
    }
}

// Where a word stands.
pub(crate) fn index(place: Place) -> usize
    ensures { result ≡ index_of place }
{
    match place {
        Place::World => 0,
        Place::Notes => 1,
        Place::Head(key) => 8 * key as usize + 2,
        Place::Row(row, word) => index_in_row(row, word),
    }
}
