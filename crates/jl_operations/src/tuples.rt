//! Tuples are made (Julia manual, Types: Tuple Types).

ghost use Rattle.std.specs.Prelude.{IfOk, map};
ghost use Rattle.jl_program.specs.Meaning.{datum};
ghost use Rattle.jl_program.specs.Scope.{all_types};
ghost use Rattle.jl_program.specs.ValidValue.{AllValid};
ghost use Rattle.jl_calculus.specs.Operations.{make_tuple};
ghost use Rattle.jl_calculus.specs.ValidHistory.{IsValidOutcome};

use crate::values::list_of;
use jl_calculus::history::Outcome;
use jl_program::fault::Fault;
use jl_program::value::Value;
use jl_sig::Ready;
use jl_value::{MakeFault, tuple};
use std::alloc::{AllocError, Global};

/// A tuple of these values, whose parts are shared. It answers `TypeLimit` where its type is too large, and else `ValueLimit` where it
/// is too large itself. The cost is the number of the values and one pass over their types.
pub fn make_tuple(alloc: Global, ready: &Ready, values: &[Value]) -> Result<Outcome, AllocError>
    requires valid { AllValid (all_types ready.now) (map datum values.now) }
    ensures answer { IfOk result (λ o. make_tuple (all_types ready.now) values.now o) }
    ensures valid { IfOk result (λ o. IsValidOutcome ready.now o) }
{
    let parts = list_of(alloc, values)?;
    match tuple(alloc, ready.table(), parts) {
        Ok(value) => Ok(Outcome::Value(value)),
        Err(MakeFault::TypeLimit) => Ok(Outcome::Error(Fault::TypeLimit)),
        Err(MakeFault::ValueLimit) => Ok(Outcome::Error(Fault::ValueLimit)),
        Err(MakeFault::Memory) => Err(AllocError),
        Err(_) => unreachable!(),
    }
}
