//! The variables of written types by their numbers, and which of two faults comes first.

use crate::holds;
use crate::making::{one, plain, text};
use jl_model::ty::{Bound, Bounds, Ty, Tys};
use jl_names::decls::DeclList;
use jl_token::tokens;
use jl_typeread::fault::TypeFault;
use jl_typeread::read_type;
use jl_typeread::tree::TypeText;
use jl_written::fault::{Fault, StaticKind};
use jl_written::notes::first_of;
use jl_written::reading::TypeVar;
use jl_written::signatures::body_type;
use jl_written::vars::TypeVars;
use std::alloc::{AllocError, Global};

/// The bound of `{T<:Int64}`, where the number of `Int64` is 0.
fn one_bound(alloc: Global) -> Result<Bounds, AllocError> {
    let bound = Bound {
        low: Ty::Union(Tys::empty()),
        high: Ty::Nominal(0, Tys::empty()),
    };
    one(alloc, bound)
}

fn push_decls(alloc: Global, decls: &mut DeclList) -> Result<(), AllocError> {
    decls.push(plain(alloc, "Int64", Bounds::empty())?)?;
    let bounds = one_bound(alloc)?;
    decls.push(plain(alloc, "Box", bounds)?)
}

/// The types `Int64`, whose number is 0 here, and `Box{T<:Int64}`, whose number is 1. Whoever has a table lets it go by a call: a drop
/// that is left to the compiler is unrolled into the proof at each way out.
fn decls(alloc: Global) -> Result<DeclList, AllocError> {
    let mut decls = DeclList::new(alloc);
    match push_decls(alloc, &mut decls) {
        Ok(()) => Ok(decls),
        Err(error) => {
            drop(decls);
            Err(error)
        }
    }
}

fn static_parameter(alloc: Global, name: &str, number: u32) -> Result<TypeVar, AllocError> {
    let name = text(alloc, name)?;
    Ok(TypeVar {
        name,
        number,
        usable: true,
    })
}

/// The static parameters `T`, `S` and `T`. The answer is whether only the last hides one.
fn push_statics(alloc: Global, vars: &mut TypeVars) -> Result<bool, AllocError> {
    let first = vars.push(static_parameter(alloc, "T", 0)?)?;
    let other = vars.push(static_parameter(alloc, "S", 1)?)?;
    let last = vars.push(static_parameter(alloc, "T", 2)?)?;
    Ok(!first && !other && last)
}

fn only_the_last_hides(alloc: Global) -> Result<bool, AllocError> {
    let mut vars = TypeVars::new(alloc);
    let answer = push_statics(alloc, &mut vars);
    drop(vars);
    answer
}

/// The first so many of the static parameters `T`, `S` and `T`.
fn statics(alloc: Global, visible: usize) -> Result<TypeVars, AllocError> {
    let mut vars = TypeVars::new(alloc);
    match push_statics(alloc, &mut vars) {
        Ok(_) => {
            vars.truncate(visible);
            Ok(vars)
        }
        Err(error) => {
            drop(vars);
            Err(error)
        }
    }
}

/// The type that a text is.
#[tactic(auto, using(jl_typeread::proofs::Ends::ends_alone))]
fn text_of(alloc: Global, source: &[u8]) -> Result<TypeText, TypeFault> {
    let Ok(found) = tokens(alloc, source) else {
        return Err(TypeFault::Memory);
    };
    if found.len() == 0 {
        return Err(TypeFault::Memory);
    }
    let (ty, _) = read_type(alloc, found.as_slice(), 0)?;
    Ok(ty)
}

fn number_of(ty: Option<&Ty>) -> Option<u32> {
    match ty {
        Some(Ty::Var(number)) => Some(*number),
        _ => None,
    }
}

/// The number of the variable that a type is, or that its first argument or part is.
fn variable_in(ty: &Ty) -> Option<u32> {
    match ty {
        Ty::Var(number) => Some(*number),
        Ty::Nominal(_, arguments) => number_of(arguments.as_slice().first()),
        Ty::Tuple(parts) => number_of(parts.as_slice().first()),
        _ => None,
    }
}

/// The number of the variable in a type of a body, how many variables it has, and whether one stands where none may.
type Found = (Option<u32>, usize, bool);

/// What is found of a text over these declarations and static parameters.
fn found(
    alloc: Global,
    decls: &DeclList,
    vars: &TypeVars,
    text: &TypeText,
) -> Result<Found, AllocError> {
    let (ty, reading) = body_type(alloc, &decls.all(), vars, text)?;
    let found = (variable_in(&ty), reading.vars.len(), reading.misplaced);
    drop(ty);
    drop(reading);
    Ok(found)
}

/// The same, with the first so many of the static parameters `T`, `S` and `T`.
fn found_with(
    alloc: Global,
    decls: &DeclList,
    text: &TypeText,
    visible: usize,
) -> Result<Found, AllocError> {
    let vars = statics(alloc, visible)?;
    let found = found(alloc, decls, &vars, text);
    drop(vars);
    found
}

fn found_over(alloc: Global, text: &TypeText, visible: usize) -> Result<Found, AllocError> {
    let decls = decls(alloc)?;
    let found = found_with(alloc, &decls, text, visible);
    drop(decls);
    found
}

fn found_of(alloc: Global, source: &str, visible: usize) -> Result<Found, TypeFault> {
    let text = text_of(alloc, source.as_bytes())?;
    let found = found_over(alloc, &text, visible);
    drop(text);
    Ok(found?)
}

/// A text, how many static parameters are visible, and what is found.
static TEXTS: [(&str, usize, u32, usize, bool); 5] = [
    // a missing argument is a fresh variable
    ("Box", 0, 0, 1, false),
    // static parameters have the numbers behind those of the type, and the last of a name hides the others
    ("(Box{T} where U)", 3, 3, 1, false),
    ("T", 2, 0, 0, false),
    // the variable of a `where` comes after those of the type in front of it, wherever that names it
    ("(Tuple{<:Int64, U} where U)", 0, 0, 2, false),
    ("(Tuple{U, <:Int64} where U)", 0, 1, 2, false),
];

fn numbers_are_right(alloc: Global) -> Result<bool, TypeFault> {
    for (source, visible, number, count, misplaced) in &TEXTS {
        let due = (Some(*number), *count, *misplaced);
        if found_of(alloc, source, *visible)? != due {
            return Ok(false);
        }
    }
    Ok(true)
}

#[test]
fn a_variable_says_whether_it_hides_one(rt: HostRuntime) {
    assert!(rt; holds(only_the_last_hides(rt.alloc())));
}

#[test]
fn variables_of_types_in_bodies_have_these_numbers(rt: HostRuntime) {
    assert!(rt; holds(numbers_are_right(rt.alloc())));
}

#[test]
fn the_earlier_fault_is_answered_and_at_one_place_the_lower_number(rt: HostRuntime) {
    let clash = Fault {
        at: 4,
        kind: StaticKind::NameClash,
    };
    let rebound = Fault {
        at: 4,
        kind: StaticKind::Rebound,
    };
    let later = Fault {
        at: 5,
        kind: StaticKind::UnknownName,
    };
    assert!(rt; first_of(None, clash) == Some(clash));
    assert!(rt; first_of(Some(clash), rebound) == Some(rebound));
    assert!(rt; first_of(Some(clash), later) == Some(clash));
}
