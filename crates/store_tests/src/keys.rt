//! Keys.

ghost use Rattle.std.specs.Prelude.{◌≡◌, ◌≤◌, IfOk, length};
ghost use Rattle.jl_calculus.specs.Legal.{IsKeyOf};
ghost use Rattle.store_tests.specs.Simple.{AreSimple};

use crate::making::push;
use jl_model::builtin::INT64;
use jl_model::ty::{Key, Ty, Tys};
use jl_sig::Ready;
use std::alloc::{AllocError, Global};

/// How many types keys are made of: those of integers, of truth values, of nothing and of tasks.
const TYPES: u32 = 4;

/// The types of the key of a number: its digits to the base 4, the last one first.
fn make_types(alloc: Global, number: u32, count: u32) -> Result<Tys, AllocError>
    ensures few { IfOk result (λ types. length types ≡ count) }
    ensures simple { IfOk result (λ types. AreSimple types) }
{
    let mut types = Vec::new(alloc);
    let mut rest = number;
    for _ in 0..count {
        types = push(types, Ty::Nominal(INT64 + rest % TYPES, Tys::empty()))?;
        rest /= TYPES;
    }
    let types = Tys::from_vec(alloc, types)?;
    Ok(types)
}

/// The key of a function and a number, with so many types. A program without the function is answered as out of memory.
pub(crate) fn make_key(
    alloc: Global,
    ready: &Ready,
    function: u32,
    number: u32,
    count: u32,
) -> Result<Key, AllocError>
    requires { count ≤ 8 }
    ensures { IfOk result (λ key. IsKeyOf ready.now key) }
{
    if ready.program().functions.len() <= function as usize {
        return Err(AllocError);
    }
    ready.valid();
    let types = make_types(alloc, number, count)?;
    Ok(Key { function, types })
}
