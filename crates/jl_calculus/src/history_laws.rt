//! Laws of histories. They are about definitions alone: each function does nothing, and its contract is the law.

ghost use Rattle.jl_calculus.specs.HistoryLaws.{ItemsStay, KeptStays, ChoiceStays, RangesStay, RightStays, OneRightSite, OneFirstWorld, OrdersAreWhole, RowsKeepTheChoice, RowsTellTheSite, RowsAreRight, RunsStay, ViewsAreOne};
ghost use Rattle.jl_calculus.specs.Orders.{path_order, wait_order};

/// What is true of a history, as far as a task has seen it, stays true when the history grows: an item of a trace, the
/// number of a key, an answer, and that a row covers a world or none does (Belyakova et al., OOPSLA 2020).
pub fn law_items_stay()
    ensures items { ItemsStay }
    ensures kept { KeptStays }
{}

/// The choice in a world, the rows that cover it, and that a fill is right stay as they are when later worlds are made (Julia manual,
/// Redefining Methods).
pub fn law_old_worlds_stay()
    ensures choice { ChoiceStays }
    ensures ranges { RangesStay }
    ensures right { RightStays }
{}

/// What a task did stays a run when the history grows: its calls are made in worlds that are there already.
pub fn law_runs_stay()
    ensures { RunsStay }
{}

/// A row of a key that begins in a world can have one site alone, and of rows that cover one world all begin in the same.
pub fn law_one_right_row()
    ensures site { OneRightSite }
    ensures first { OneFirstWorld }
{}

/// A row tells the choice: the choice for its key is the same in all worlds that it covers, and a right row has its site
/// (Belyakova et al., OOPSLA 2020).
pub fn law_rows_tell_the_choice()
    ensures choice { RowsKeepTheChoice }
    ensures site { RowsTellTheSite }
    ensures right { RowsAreRight }
{}

/// In path order, and in wait order, each task stands once, and nothing else.
pub fn law_orders_are_whole()
    ensures path { OrdersAreWhole path_order }
    ensures wait { OrdersAreWhole wait_order }
{}

/// What is visible at the spawn places of a valid program is a function of the program.
pub fn law_views()
    ensures { ViewsAreOne }
{}
