//! Types, made word by word on a stack.

use jl_model::ty::{Ty, Tys};
use std::alloc::{AllocError, Global};

/// The number that a word is, or 0.
pub fn number(word: &str) -> u32 {
    word.parse::<u32>().unwrap_or(0)
}

/// The type with this head and these parts. A head that is no word is the number of a nominal type.
fn type_of_head(head: &str, parts: Tys) -> Ty {
    match head {
        "Any" => Ty::Any,
        "_" => Ty::Var(1),
        "Union" => Ty::Union(parts),
        "Tuple" => Ty::Tuple(parts),
        _ => Ty::Nominal(number(head), parts),
    }
}

/// Puts the type on the stack that a word makes: `HEAD`, or `HEAD/N`, which takes its last N types as parts.
fn take_type(alloc: Global, stack: &mut Vec<Ty>, word: &str) -> Result<(), AllocError> {
    let (head, count) = word.split_once('/').unwrap_or((word, "0"));
    let at = stack.len().saturating_sub(number(count) as usize);
    let parts = Tys::from_vec(alloc, stack.split_off(at)?)?;
    stack.push(type_of_head(head, parts))?;
    Ok(())
}

/// The types that the words of a text make.
pub fn types_of(alloc: Global, text: &str) -> Result<Vec<Ty>, AllocError> {
    let mut stack = Vec::new(alloc);
    for word in text.split_whitespace() {
        take_type(alloc, &mut stack, word)?;
    }
    Ok(stack)
}

/// Takes the last type off a list: `Any` where there is none.
pub fn last_type(types: &mut Vec<Ty>) -> Ty {
    match types.pop() {
        Some(ty) => ty,
        None => Ty::Any,
    }
}
