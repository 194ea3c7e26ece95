//! When two values are the same, and copies of values.

ghost use Rattle.std.specs.Prelude.{◌≡◌, IsTrue, ◌↔◌, IfOk, map};
ghost use Rattle.jl_program.specs.Meaning.{datum};

use jl_program::value::{Compound, Value};
use jl_types::same::same;
use std::alloc::AllocError;

/// Whether two lists have the same values.
#[cycle(egal)]
#[tactic(auto, using(crate::proofs::ValueLemmas::alike))]
fn egal_all(xs: &[Value], ys: &[Value]) -> bool
    ensures { IsTrue result ↔ (map datum xs.now ≡ map datum ys.now) }
{
    if xs.len() != ys.len() {
        return false;
    }
    for (i, x) in xs.iter().enumerate() {
        if !egal(x, &ys[i]) {
            return false;
        }
    }
    true
}

/// Whether two tuples, or two structs, are of one type and have the same parts.
#[cycle(egal)]
#[tactic(auto, using(crate::proofs::ValueLemmas::alike))]
fn egal_compounds(a: &Compound, b: &Compound) -> bool
    ensures { IsTrue result ↔ (a.now ≡ b.now) }
{
    same(&a.ty, &b.ty) && egal_all(a.parts.as_slice(), b.parts.as_slice())
}

/// Whether two values can't be told apart: they are of one type and have the same parts. Tasks are compared by their
/// numbers. It takes no memory, and visits each part at most once (Julia manual, Essentials: `===`).
#[cycle(egal)]
#[tactic(auto, using(crate::proofs::ValueLemmas::alike))]
pub fn egal(a: &Value, b: &Value) -> bool
    ensures { IsTrue result ↔ (datum a.now ≡ datum b.now) }
{
    match a {
        Value::Int(m) => match b {
            Value::Int(n) => m == n,
            _ => false,
        },
        Value::Bool(m) => match b {
            Value::Bool(n) => m == n,
            _ => false,
        },
        Value::Nothing => match b {
            Value::Nothing => true,
            _ => false,
        },
        Value::Task(m) => match b {
            Value::Task(n) => m == n,
            _ => false,
        },
        Value::Tuple(x) => match b {
            Value::Tuple(y) => egal_compounds(x.get(), y.get()),
            _ => false,
        },
        Value::Struct(x) => match b {
            Value::Struct(y) => egal_compounds(x.get(), y.get()),
            _ => false,
        },
    }
}

/// An equal value, whose parts are shared. It takes no memory, and costs the same whatever the value. The one error is a
/// count of copies that can't be raised.
pub fn copy(value: &Value) -> Result<Value, AllocError>
    ensures { IfOk result (λ c. c ≡ value.now) }
{
    value.copy()
}
