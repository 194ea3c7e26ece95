//! Laws of the first round. They are about definitions alone: each function does nothing, and its contract is the law.

ghost use Rattle.jl_causes.specs.Laws.{LegalHasNoCause, NoCauseIsLegal, NoCauseSoFar};

/// Of the entries of a history that is legal but for the runs of its tasks no cause holds.
pub fn law_legal_has_no_cause()
    ensures { LegalHasNoCause }
{}

/// A history of whose entries no cause holds is legal but for the runs of its tasks, and so is each beginning of one, as far as it
/// goes.
pub fn law_no_cause_is_legal()
    ensures whole { NoCauseIsLegal }
    ensures front { NoCauseSoFar }
{}
