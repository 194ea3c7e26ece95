//! Types, signatures and keys are equal to their copies.

use crate::holds;
use crate::making::pair;
use jl_model::shared::SharedList;
use jl_model::ty::{Key, Ty, Tys, Written};
use std::alloc::{AllocError, Global};

/// `Int64` and a variable.
fn members(alloc: Global) -> Result<Tys, AllocError> {
    pair(alloc, Ty::Nominal(4, Tys::empty()), Ty::Var(0))
}

/// A type of each form.
fn form(place: u32, members: Tys) -> Ty {
    match place {
        0 => Ty::Any,
        1 => Ty::Union(members),
        2 => Ty::Tuple(members),
        3 => Ty::Nominal(8, members),
        _ => Ty::Var(0),
    }
}

/// Whether a copy is equal to what it is of. It is let go by a call: a drop that is left to the compiler is unrolled into the proof.
fn is_equal<T: PartialEq + Drop>(copy: Result<T, AllocError>, of: &T) -> Result<bool, AllocError> {
    let copy = copy?;
    let answer = copy == *of;
    drop(copy);
    Ok(answer)
}

fn form_is_copied(alloc: Global, place: u32) -> Result<bool, AllocError> {
    let ty = form(place, members(alloc)?);
    let answer = is_equal(ty.copy(), &ty);
    drop(ty);
    answer
}

fn forms_are_copied(alloc: Global) -> Result<bool, AllocError> {
    for place in 0..5u32 {
        if !form_is_copied(alloc, place)? {
            return Ok(false);
        }
    }
    Ok(true)
}

#[test]
fn types_are_equal_to_their_copies(rt: HostRuntime) {
    assert!(rt; holds(forms_are_copied(rt.alloc())));
}

fn written_is_copied(alloc: Global) -> Result<bool, AllocError> {
    let written = Written {
        vars: SharedList::empty(),
        parts: members(alloc)?,
    };
    let answer = is_equal(written.copy(), &written);
    drop(written);
    answer
}

#[test]
fn a_signature_is_equal_to_its_copy(rt: HostRuntime) {
    assert!(rt; holds(written_is_copied(rt.alloc())));
}

fn key_is_copied(alloc: Global) -> Result<bool, AllocError> {
    let key = Key {
        function: 12,
        types: members(alloc)?,
    };
    let answer = is_equal(key.copy(), &key);
    drop(key);
    answer
}

#[test]
fn a_key_is_equal_to_its_copy(rt: HostRuntime) {
    assert!(rt; holds(key_is_copied(rt.alloc())));
}
