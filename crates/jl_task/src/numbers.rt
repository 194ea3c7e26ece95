//! The sites that were chosen for two numbers. Most calls are operations of the prelude on two numbers: what was chosen for one of these is found
//! by its function alone, with no hash and no comparison of types.

ghost use Rattle.std.specs.Prelude.{◌≡◌, IfOk, IsTrue, MatchOption};
ghost use Rattle.jl_task.specs.Numbers.{two_numbers, NoNumbers, IsNumber, IsNumberPut};

use crate::table::is_named;
use jl_model::builtin::INT64;
use jl_model::ty::Key;
use jl_program::prelude::{PRELUDE_FUNCTIONS, PRELUDE_SITES};
use std::alloc::{AllocError, Global};

/// The site that was chosen for two numbers in a world.
#[derive(Clone, Copy)]
pub(crate) struct NumberSite {
    pub(crate) world: u32,
    pub(crate) site: u32,
}

/// A place for each function of the prelude, with a site that is none of the prelude.
pub(crate) fn no_numbers(alloc: Global) -> Result<Vec<NumberSite>, AllocError>
    ensures { IfOk result (λ numbers. NoNumbers numbers.items) }
{
    let mut numbers = Vec::new(alloc);
    for _ in 0..PRELUDE_FUNCTIONS {
        numbers.push(NumberSite {
            world: 0,
            site: PRELUDE_SITES,
        })?;
    }
    Ok(numbers)
}

/// Whether a call is one with two numbers.
fn is_of_numbers(key: &Key) -> bool
    ensures { IsTrue result → key.now.types ≡ two_numbers }
{
    match key.types.as_slice() {
        [first, second] => is_named(first, INT64) && is_named(second, INT64),
        _ => false,
    }
}

/// Keeps the site that was chosen for a call, where that is one of a function of the prelude with two numbers.
pub(crate) fn keep_number(numbers: &mut Vec<NumberSite>, key: &Key, world: u32, site: u32)
    ensures { IsNumberPut key.now world site numbers.old.items numbers.new.items }
{
    let place = key.function as usize;
    if place >= numbers.len() {
        return;
    }
    if !is_of_numbers(key) {
        return;
    }
    numbers[place] = NumberSite { world, site };
}

/// The operation of the prelude that was chosen for a function and two numbers in a world.
#[inline(always)]
pub(crate) fn find_number(numbers: &[NumberSite], function: u32, world: u32) -> Option<u32>
    ensures { MatchOption result (Unit {0}) (λ site. IsNumber numbers.now function world site) }
{
    match numbers.get(function as usize) {
        Some(kept) => {
            if kept.world == world && kept.site < PRELUDE_SITES {
                return Some(kept.site);
            }
            None
        }
        None => None,
    }
}
