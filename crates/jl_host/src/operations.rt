//! What each operation of the prelude does, as the functions that a program hands in, in the order of their codes. The second number of
//! an operation with one parameter counts for nothing, and a truth value is 1 or 0.

ghost use Rattle.jl_host.specs.Replies.{Means};

use crate::reply::OpReply;

pub fn add(a: i64, b: i64) -> OpReply
    ensures { Means 0 a b result }
{
    OpReply::Int(a.wrapping_add(b))
}

pub fn subtract(a: i64, b: i64) -> OpReply
    ensures { Means 1 a b result }
{
    OpReply::Int(a.wrapping_sub(b))
}

pub fn multiply(a: i64, b: i64) -> OpReply
    ensures { Means 2 a b result }
{
    OpReply::Int(a.wrapping_mul(b))
}

/// The quotient towards zero. There is none by 0, and none of the least number by -1.
pub fn divide(a: i64, b: i64) -> OpReply
    ensures { Means 3 a b result }
{
    if b == 0 {
        return OpReply::DivideError;
    }
    if a == i64::MIN && b == -1 {
        return OpReply::DivideError;
    }
    OpReply::Int(a / b)
}

/// What is left of the quotient, with the sign of the first number.
pub fn remainder(a: i64, b: i64) -> OpReply
    ensures { Means 4 a b result }
{
    if b == 0 {
        return OpReply::DivideError;
    }
    OpReply::Int(a.wrapping_rem(b))
}

pub fn negate(a: i64, b: i64) -> OpReply
    ensures { Means 5 a b result }
{
    OpReply::Int(a.wrapping_neg())
}

pub fn equal(a: i64, b: i64) -> OpReply
    ensures { Means 6 a b result }
{
    OpReply::Bool(a == b)
}

pub fn not_equal(a: i64, b: i64) -> OpReply
    ensures { Means 7 a b result }
{
    OpReply::Bool(a != b)
}

pub fn less(a: i64, b: i64) -> OpReply
    ensures { Means 8 a b result }
{
    OpReply::Bool(a < b)
}

pub fn less_equal(a: i64, b: i64) -> OpReply
    ensures { Means 9 a b result }
{
    OpReply::Bool(a <= b)
}

pub fn greater(a: i64, b: i64) -> OpReply
    ensures { Means 10 a b result }
{
    OpReply::Bool(a > b)
}

pub fn greater_equal(a: i64, b: i64) -> OpReply
    ensures { Means 11 a b result }
{
    OpReply::Bool(a >= b)
}

pub fn not(a: i64, b: i64) -> OpReply
    ensures { Means 12 a b result }
{
    OpReply::Bool(a == 0)
}

pub fn equal_truths(a: i64, b: i64) -> OpReply
    ensures { Means 13 a b result }
{
    OpReply::Bool(a == b)
}
