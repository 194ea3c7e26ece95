//! Laws of the questions that the rules of a run ask. They are about definitions alone: each function does nothing, and its
//! contract is the law.

ghost use Rattle.jl_calculus.specs.Laws.{OneChoice, OneTuple, OneWritten, OneInferred, OneTest, OneOrder, OneIdentity, OneValue, BrokenIsBad, RunsWithoutPlaces};

/// A call has at most one choice in a world.
pub fn law_one_choice()
    ensures { OneChoice }
{}

/// Making a tuple of given values has one answer at most, and so has each way to make a struct.
pub fn law_one_made()
    ensures tuple { OneTuple }
    ensures written { OneWritten }
    ensures inferred { OneInferred }
{}

/// `isa`, `<:` and `===` have at most one answer, also where a written type is refused.
pub fn law_one_answer()
    ensures test { OneTest }
    ensures order { OneOrder }
    ensures identity { OneIdentity }
{}

/// A written type breaks a declared bound exactly where there is a nominal type in it to name.
pub fn law_bad_parameter()
    ensures { BrokenIsBad }
{}

/// A value and what a contract sees of it give one another.
pub fn law_one_value()
    ensures { OneValue }
{}

/// A run whose calls are all kept in a cache is a run all the same where nothing is asked of a cache.
pub fn law_run_without_places()
    ensures { RunsWithoutPlaces }
{}
