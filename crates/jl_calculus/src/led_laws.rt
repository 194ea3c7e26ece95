//! Laws of a run that its trace leads up to a question. They are about definitions alone: each function does nothing, and its
//! contract is the law.

ghost use Rattle.jl_calculus.specs.Led.{RunsCome};

/// A run comes to each look, definition, spawn and fetch of its trace: the trace before the item leads to the question that the
/// item answers. A spawn is from the start that the run has for it.
pub fn law_runs_come()
    ensures { RunsCome }
{}
