//! What a call runs.

/// What a call runs. The numbers are those of definitions, that is of the worlds that they made.
#[derive(Clone, Copy, PartialEq, Eq, Debug)]
pub enum Choice {
    Method(u32),
    None,
    Ambiguous(u32, u32),
}
