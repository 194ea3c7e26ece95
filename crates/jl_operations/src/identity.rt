//! Whether two values can be told apart (Julia manual, Essentials: `===`).

ghost use Rattle.jl_program.specs.declared.tree.Program.{Program};
ghost use Rattle.jl_calculus.specs.Operations.{test_same};
ghost use Rattle.jl_calculus.specs.ValidHistory.{IsValidOutcome};

use crate::outcomes::truth;
use jl_calculus::history::Outcome;
use jl_program::value::Value;
use jl_value::egal;

/// `left === right`, or `left !== right` where the flag is true. It takes no memory, and visits each part at most once.
pub fn test_same(negated: bool, left: &Value, right: &Value) -> Outcome
    ensures answer { test_same negated left.now right.now result }
    ensures valid { (P : Program) → IsValidOutcome P result }
{
    let same = egal(left, right);
    if negated {
        return truth(!same);
    }
    truth(same)
}
