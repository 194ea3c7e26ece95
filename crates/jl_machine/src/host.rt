//! The operations of the prelude, by the functions that were handed in.

ghost use Rattle.std.specs.Prelude.{◌≡◌, ◌<◌, ◌∷◌, [], get_or};
ghost use Rattle.jl_program.specs.declared.prelude.TheConstants.{PRELUDE_SITES};
ghost use Rattle.jl_program.specs.declared.value.Value.TheVariants.{Int, Nothing};
ghost use Rattle.jl_calculus.specs.Run.{number_of, operates};
ghost use Rattle.jl_host.specs.Replies.{outcome_of};
ghost use Rattle.jl_machine.specs.Taken.{IsTakenBy};

use jl_host::{HostOps, OpReply};
use jl_program::value::Value;

/// A number as an operation sees it: a truth value is 1 or 0.
#[inline(always)]
fn number_of(value: &Value) -> i64
    ensures { result ≡ number_of value.now }
{
    match value {
        Value::Int(n) => *n,
        Value::Bool(true) => 1,
        _ => 0,
    }
}

/// The number at a place; 0 where there is none.
#[inline(always)]
fn number_at(values: &[Value], place: usize) -> i64
    ensures { result ≡ number_of (get_or values.now place Nothing) }
{
    match values.get(place) {
        None => 0,
        Some(value) => number_of(value),
    }
}

/// What an operation of the prelude replies for the arguments that it takes. No outcome is made of it, which would be moved through memory.
#[inline(always)]
pub(crate) fn operate(ops: &HostOps, operation: u32, values: &[Value]) -> OpReply
    requires there { operation < PRELUDE_SITES }
    requires taken { IsTakenBy operation values.now }
    ensures { outcome_of result ≡ operates operation values.now }
{
    let first = number_at(values, 0);
    let second = number_at(values, 1);
    ops.call(operation as u8, first, second)
}

/// What an operation of the prelude replies for two numbers.
#[inline(always)]
pub(crate) fn operate_numbers(ops: &HostOps, operation: u32, left: i64, right: i64) -> OpReply
    requires there { operation < PRELUDE_SITES }
    requires taken { IsTakenBy operation (Int left ∷ Int right ∷ []) }
    ensures { outcome_of result ≡ operates operation (Int left ∷ Int right ∷ []) }
{
    ops.call(operation as u8, left, right)
}
