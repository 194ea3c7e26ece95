//! How many declarations are kept of a script, and how many of them are in its table.

use crate::holds;
use crate::programs::{known_of_text, script_of};
use jl_declare::declarations::declarations;
use jl_grammar::tree::Item;
use jl_model::ty::Decl;
use jl_written::fault::StaticKind;
use std::alloc::{AllocError, Global};

/// How many types are in the table, how many are declared, and the place and the kind of the first fault.
type Found = (u32, usize, Option<(u32, StaticKind)>);

fn found(alloc: Global, items: &[Item]) -> Result<Found, AllocError> {
    let found = declarations(alloc, items)?;
    let table = found.table.count();
    let all = found.decls.len();
    let fault = found.fault;
    drop(found);
    match fault {
        Some(fault) => Ok((table, all, Some((fault.at, fault.kind)))),
        None => Ok((table, all, None)),
    }
}

fn found_of(alloc: Global, source: &str) -> Result<Found, AllocError> {
    let script = script_of(alloc, source)?;
    let found = found(alloc, script.items.as_slice());
    drop(script);
    found
}

/// A script, and what is found of it; the eight built-in types are counted.
static SCRIPTS: [(&str, Found); 8] = [
    ("abstract type A end; struct B <: A end", (10, 10, None)),
    (
        "abstract type A end; struct A <: A end",
        (9, 10, Some((28, StaticKind::DuplicateType))),
    ),
    (
        "abstract type A end; struct B <: Int64 end",
        (9, 10, Some((28, StaticKind::SuperNotAbstract))),
    ),
    (
        "abstract type A end; struct B <: Foo end",
        (9, 10, Some((33, StaticKind::UnknownType))),
    ),
    (
        "struct P{T, T} <: Int64 end",
        (8, 9, Some((7, StaticKind::SuperNotAbstract))),
    ),
    (
        "struct P{T, T} <: Real end",
        (9, 9, Some((12, StaticKind::Rebound))),
    ),
    (
        "abstract type Int end; struct B <: Real end",
        (10, 10, Some((14, StaticKind::NameClash))),
    ),
    (
        "abstract type Int64 end; struct B <: Bool end",
        (8, 10, Some((14, StaticKind::DuplicateType))),
    ),
];

fn scripts_are_right(alloc: Global) -> Result<bool, AllocError> {
    for (source, due) in &SCRIPTS {
        if found_of(alloc, source)? != *due {
            return Ok(false);
        }
    }
    Ok(true)
}

#[test]
fn declarations_are_kept_and_told(rt: HostRuntime) {
    assert!(rt; holds(scripts_are_right(rt.alloc())));
}

/// How many parameters and fields a declaration has.
fn sizes(decl: Option<&Decl>) -> (usize, usize) {
    match decl {
        Some(decl) => (decl.params.len(), decl.fields.len()),
        None => (0, 0),
    }
}

/// How many parameters and fields the first declared type has.
fn outline(alloc: Global, items: &[Item]) -> Result<(usize, usize), AllocError> {
    let found = declarations(alloc, items)?;
    let sizes = sizes(found.decls.as_slice().get(8));
    drop(found);
    Ok(sizes)
}

fn an_outline_has_two_of_each(alloc: Global) -> Result<bool, AllocError> {
    let script = script_of(alloc, "struct P{T, T} <: Foo end")?;
    let sizes = outline(alloc, script.items.as_slice());
    drop(script);
    Ok(sizes? == (2, 2))
}

#[test]
fn an_outline_has_its_parameters_and_a_field_of_each(rt: HostRuntime) {
    assert!(rt; holds(an_outline_has_two_of_each(rt.alloc())));
}

/// How many functions are known of a script, the built-in ones among them, and how many types it names.
fn counts_of(alloc: Global, source: &str) -> Result<(usize, usize), AllocError> {
    let known = known_of_text(alloc, source)?;
    let counts = (known.functions.len(), known.types.as_slice().len());
    drop(known);
    Ok(counts)
}

/// A script, and the counts.
static KNOWN: [(&str, (usize, usize)); 2] = [
    ("abstract type A end", (12, 1)),
    ("f() = nothing", (13, 0)),
];

fn counts_are_right(alloc: Global) -> Result<bool, AllocError> {
    for (source, due) in &KNOWN {
        if counts_of(alloc, source)? != *due {
            return Ok(false);
        }
    }
    Ok(true)
}

#[test]
fn the_types_and_functions_of_a_script_are_known(rt: HostRuntime) {
    assert!(rt; holds(counts_are_right(rt.alloc())));
}
