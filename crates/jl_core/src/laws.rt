//! Laws of the states that steps reach in any order. They are about definitions alone: each function does nothing, and its contract is
//! the law.

ghost use Rattle.jl_core.specs.Laws.{RowsAreRight, HitsAreRight, EventsMayStand, EventsAreTraced, FirstKnowsFinished, FirstMayFetch, FirstIsThere, PartsAreReached};

/// After every list of enabled steps each row tells the choice in each world of its range up to the present one, and each search
/// that has hit tells the choice in its own world, whatever was defined or deleted in the meantime (Belyakova et al., OOPSLA 2020).
pub fn law_hits_are_the_choice()
    ensures rows { RowsAreRight }
    ensures hits { HitsAreRight }
{}

/// After every list of enabled steps the events are legal so far, except that nothing is said of the runs of the tasks.
pub fn law_events_are_legal()
    ensures stand { EventsMayStand }
    ensures traced { EventsAreTraced }
{}

/// After every list of enabled steps the first task in wait order that has not ended knows finished tasks alone. So while no
/// change is open it may fetch each task that it knows; and there is such a task, unless all have ended.
pub fn law_first_can_go_on()
    ensures knows { FirstKnowsFinished }
    ensures fetches { FirstMayFetch }
    ensures there { FirstIsThere }
{}

/// While a change is open the state in which any of the rows that it ends are cut for it, and no other, is reached by enabled steps. So what
/// the book does between a change and its publication goes through states of the model.
pub fn law_parts_are_reached()
    ensures { PartsAreReached }
{}
