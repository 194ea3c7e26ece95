//! Laws of the choice of a method, for every table of types, list of methods and types of arguments, and for the definitions of a
//! world. They are about definitions alone: each function does nothing, and its contract is the law.

ghost use Rattle.jl_calculus.specs.ChoiceLaws.{NoneApplies, OneBest, OneChosen, ApplicableChoose, ThoseThatApplySelect};

/// There is no candidate exactly where no method applies.
pub fn law_none_applies()
    ensures { NoneApplies }
{}

/// At most one method is the best, and there is at most one choice.
pub fn law_one_chosen()
    ensures best { OneBest }
    ensures choice { OneChosen }
{}

/// The candidates among the methods that apply are the candidates among all, so both have the same choice.
pub fn law_applicable_choose()
    ensures { ApplicableChoose }
{}

/// What is chosen among exactly those definitions of a function in a world that apply to a call is the choice for that call in that
/// world.
pub fn law_those_that_apply()
    ensures { ThoseThatApplySelect }
{}
