//! The row of a key that begins last.

ghost use Rattle.std.specs.Prelude.{◌≡◌};
ghost use Rattle.jl_methods.specs.Newest.{newer};

/// The number of a row and its first world.
#[derive(Clone, Copy)]
pub struct NewestRow {
    pub number: u32,
    pub first: u32,
}

/// A row, unless the one before begins in a later world.
pub(crate) fn newer(old: Option<NewestRow>, row: NewestRow) -> NewestRow
    ensures { result ≡ newer old row }
{
    match old {
        Some(other) => {
            if row.first < other.first {
                return other;
            }
            row
        }
        None => row,
    }
}
