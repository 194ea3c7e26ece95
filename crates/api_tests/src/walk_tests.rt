//! The numbers that the parts of a small script get.

use crate::holds;
use crate::programs::ready_of;
use jl_program::tree::{Expr, Item, Program};
use std::alloc::{AllocError, Global};

/// The site that the first statement defines.
fn defined(program: &Program) -> Option<u32> {
    match program.top.as_slice().first() {
        Some(Item::Define(site)) => Some(*site),
        _ => None,
    }
}

/// The slot that the last statement binds.
fn bound(program: &Program) -> Option<u32> {
    match program.top.as_slice().last() {
        Some(Item::Bind(slot, _)) => Some(*slot),
        _ => None,
    }
}

/// The slot that the body of the last site gives.
fn given(program: &Program) -> Option<u32> {
    match program.sites.as_slice().last() {
        Some(site) => match &site.body {
            Expr::Local(slot) => Some(*slot),
            _ => None,
        },
        None => None,
    }
}

fn the_numbers_are_right(alloc: Global) -> Result<bool, AllocError> {
    let ready = ready_of(alloc, "f(x) = x\nz = 3")?;
    let program = ready.program();
    let answer = defined(program) == Some(14)
        && bound(program) == Some(0)
        && given(program) == Some(0);
    drop(ready);
    Ok(answer)
}

#[test]
fn a_method_has_the_site_behind_the_prelude_s(rt: HostRuntime) {
    assert!(rt; holds(the_numbers_are_right(rt.alloc())));
}
