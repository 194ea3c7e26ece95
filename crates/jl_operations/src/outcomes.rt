//! Outcomes of a kind.

ghost use Rattle.std.specs.Prelude.{◌≡◌};
ghost use Rattle.jl_program.specs.declared.tree.Program.{Program};
ghost use Rattle.jl_calculus.specs.ValidHistory.{IsValidOutcome};

use jl_calculus::history::Outcome;
use jl_program::value::Value;

/// The answer of a question.
pub fn truth(holds: bool) -> Outcome
    ensures value { result ≡ Outcome.Value (Value.Bool holds) }
    ensures valid { (P : Program) → IsValidOutcome P result }
{
    Outcome::Value(Value::Bool(holds))
}
