//! Laws of the rows of a history and of what they keep. They are about definitions alone: each function does nothing, and its
//! contract is the law.

ghost use Rattle.jl_rows.specs.RowLaws.{OneOpenRow, LinkedIsChosen, FullIsKept, FullRowsAreKept, CoveredIsKept, ChosenIsKept, NoMethodIsKept, PlannedIsKept};

/// At most one row of a key has no end: two would begin in the same world, which the history refuses.
pub fn law_one_open_row()
    ensures { OneOpenRow }
{}

/// A row that was linked as planned covers the world for which it was planned, and its site is that of the choice there.
pub fn law_linked_row_is_chosen()
    ensures { LinkedIsChosen }
{}

/// What makes a call kept: there is no place for its key or for a row, or its key is named and a row of it covers the world or no
/// method is chosen there. That it stays so when the history grows is a law of histories.
pub fn law_kept_calls()
    ensures keys { FullIsKept }
    ensures rows { FullRowsAreKept }
    ensures covered { CoveredIsKept }
    ensures chosen { ChosenIsKept }
    ensures no_method { NoMethodIsKept }
    ensures planned { PlannedIsKept }
{}
