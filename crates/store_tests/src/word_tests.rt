//! The shared words and the cache: what a seat sees that met nobody, and a search in one thread while another defines a method again
//! and again.

ghost use Rattle.std.specs.Prelude.{◌≡◌};
ghost use Rattle.jl_world.specs.Names.{table_of, about_of};
ghost use Rattle.store_tests.specs.Programs.{late};

use crate::holds;
use crate::programs::{FUEL, make_late};
use crate::threads::search_beside_definitions;
use jl_calculus::history::{Change, Seen};
use jl_program::tree::Program;
use jl_world::{Blank, Naming, World};
use std::alloc::{AllocError, Global};
use std::marker::Brand;
use std::thread::Threads;

/// What the second seat sees after a definition, twice, and how many events the root's seat has seen that is given back.
fn look_after_a_definition<N: Naming>(blank: Blank) -> (Seen, Seen, u32)
    requires name { (table_of blank ≡ N.table) × (about_of blank ≡ N.about) }
    requires program { (about_of blank).program.value ≡ late }
{
    let (world, mut book, mut root) = World::<N>::open(blank);
    let mut second = world.child(&mut root);
    world.end(&mut book, root);
    world.publish(&mut book, 0, Change::Def(14));
    let first = world.look(&mut second);
    let again = world.look(&mut second);
    let given = world.give(&mut book, 0);
    (first, again, given.seen())
}

/// Whether all see the definition.
fn look(alloc: Global, program: &Program) -> Result<bool, AllocError>
    requires { program.now ≡ late }
{
    let blank = Blank::make(alloc, program, FUEL, 1, 1)?;
    let (first, again, seen) = look_after_a_definition::<Brand>(blank);
    Ok(
        first.world == 15
            && first.length == 2
            && again.world == 15
            && again.length == 2
            && seen == 2,
    )
}

fn looks_are_right(alloc: Global) -> Result<bool, AllocError> {
    let program = make_late(alloc)?;
    let answer = look(alloc, &program);
    drop(program);
    answer
}

#[test]
fn a_seat_that_met_nobody_looks(rt: HostRuntime) {
    assert!(rt; holds(looks_are_right(rt.alloc())));
}

/// Whether there is a row for each of ten thousand definitions, and none of ten thousand searches beside them is wrong.
fn search<R: Threads + Sync>(rt: &R, alloc: Global, program: &Program) -> Result<bool, AllocError>
    requires { program.now ≡ late }
{
    let blank = Blank::make(alloc, program, FUEL, 1, 10_000)?;
    let (all, wrong) = search_beside_definitions::<Brand, _>(rt, blank, 10_000, 10_000);
    Ok(all && wrong == 0)
}

fn searches_are_right<R: Threads + Sync>(rt: &R, alloc: Global) -> Result<bool, AllocError> {
    let program = make_late(alloc)?;
    let answer = search(rt, alloc, &program);
    drop(program);
    answer
}

#[test]
fn searches_beside_definitions_are_right(rt: HostRuntime) {
    assert!(rt; holds(searches_are_right(&rt, rt.alloc())));
}
