//! Lines and columns.

ghost use Rattle.std.specs.Prelude.{◌≡◌, ◌+◌, ◌<◌, ◌≤◌, ◌^◌, ℕ, List, length};
ghost use Rattle.jl_sites.specs.Spots.{one_more, spot_at, IsReached};

/// A line and a column, each from 1. Columns count characters.
#[derive(Clone, Copy)]
pub(crate) struct Spot {
    pub(crate) line: u64,
    pub(crate) column: u64,
}

/// How far a source is read, and what line and column that is.
#[derive(Clone, Copy)]
pub(crate) struct Cursor {
    pub(crate) at: usize,
    pub(crate) spot: Spot,
}

/// The spot behind one more byte.
fn one_more(spot: Spot, byte: u8) -> Spot
    requires line { spot.line < 2 ^ 63 }
    requires column { spot.column < 2 ^ 63 }
    ensures spot { result ≡ one_more spot byte }
    ensures line { result.line ≤ spot.line + 1 }
    ensures column { result.column ≤ spot.column + 1 }
{
    if byte == b'\n' {
        Spot {
            line: spot.line + 1,
            column: 1,
        }
    } else if byte >= 128 && byte < 192 {
        spot
    } else {
        Spot {
            line: spot.line,
            column: spot.column + 1,
        }
    }
}

/// The beginning of a source.
pub(crate) fn beginning() -> Cursor
    ensures reached { (bytes : List ℕ) → IsReached bytes result }
    ensures at { result.at ≡ 0 }
{
    Cursor {
        at: 0,
        spot: Spot { line: 1, column: 1 },
    }
}

/// A cursor, or the beginning where it is past this place.
fn not_past(cursor: Cursor, end: usize) -> Cursor
    ensures reached { (bytes : List ℕ) → IsReached bytes cursor → IsReached bytes result }
    ensures before { result.at ≤ end }
{
    if cursor.at > end {
        return beginning();
    }
    cursor
}

/// A cursor one byte further.
fn next(cursor: Cursor, bytes: &[u8]) -> Cursor
    requires reached { IsReached bytes.now cursor }
    requires more { cursor.at < length bytes.now }
    ensures reached { IsReached bytes.now result }
    ensures at { result.at ≡ cursor.at + 1 }
{
    Cursor {
        at: cursor.at + 1,
        spot: one_more(cursor.spot, bytes[cursor.at]),
    }
}

/// The cursor at a place, from one that may be before it.
pub(crate) fn move_to(from: Cursor, bytes: &[u8], at: u32) -> Cursor
    requires reached { IsReached bytes.now from }
    ensures reached { IsReached bytes.now result }
    ensures spot { result.spot ≡ spot_at bytes.now at }
{
    let end = bytes.len().min(at as usize);
    let mut cursor = not_past(from, end);
    while cursor.at < end {
        cursor = next(cursor, bytes);
    }
    cursor
}
