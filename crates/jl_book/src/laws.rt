//! Laws of histories that a book counts on. They are about definitions alone: each function does nothing, and its contract is the law.

ghost use Rattle.jl_book.specs.Tasks.{RunningIsUnfinished, NoneIsUnfinished, EachOnce};

/// A task is unfinished while it runs, and where none is unfinished every task has a Done.
pub fn law_unfinished()
    ensures running { RunningIsUnfinished }
    ensures none { NoneIsUnfinished }
{}

/// Once all tasks have ended, each definition and each spawn of the history is counted once among those of the tasks.
pub fn law_each_once()
    ensures { EachOnce }
{}
