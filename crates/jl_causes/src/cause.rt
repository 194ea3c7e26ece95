//! Why a text is not that of a legal history.

/// A cause, in the order of the table: of several at one event the first is reported. `RunDiffers` is told by a run alone; the
/// others are read from the text and the program.
#[derive(Clone, Copy, PartialEq, Eq, Debug)]
pub enum Cause {
    KeyOrder,
    KeyUnknown,
    FillKey,
    FillWorld,
    FillChoice,
    NotRunning,
    Site,
    NoDefinition,
    ChildOrder,
    Limit,
    Unfinished,
    ItemFalse,
    EventMissing,
    RunDiffers,
}
