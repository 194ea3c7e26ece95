//! The places that programs and histories number: definition sites, spawns and deletions.

ghost use Rattle.std.specs.Prelude.{◌≡◌, IfOk};
ghost use Rattle.jl_sites.specs.Places.{place_of, function_of, operator_name, function_name, site, deletion};

use jl_grammar::tree::{Callee, Head, Name};
use jl_model::ty::Bytes;
use jl_token::token::Operator;
use std::alloc::AllocError;

/// The function that a method is added to.
#[derive(Drop)]
pub(crate) enum Function {
    Named(Bytes),
    Operator(Operator),
}

/// A place, by its offset in bytes.
#[derive(Drop)]
pub(crate) enum Place {
    /// A definition of a function, at the function's name, or at the `Base` before it.
    Site(u32, Function),
    /// A `Threads.@spawn`.
    Spawn(u32),
    /// A `Base.delete_method` of a function's methods, at its `Base`.
    Delete(u32, Function),
}

/// Where a function's name stands.
fn place_of(callee: &Callee) -> u32
    ensures { result ≡ place_of callee.now }
{
    match callee {
        Callee::Plain(name) => name.at,
        Callee::Base(at, _) => *at,
        Callee::Operator(at, _) => *at,
    }
}

/// The function that stands there.
fn function_of(callee: &Callee) -> Result<Function, AllocError>
    ensures { IfOk result (λ f. f ≡ function_of callee.now) }
{
    Ok(match callee {
        Callee::Plain(name) => Function::Named(name.bytes.copy()?),
        Callee::Base(_, name) => Function::Named(name.bytes.copy()?),
        Callee::Operator(_, operator) => Function::Operator(*operator),
    })
}

/// The definition site of a method with this head.
pub(crate) fn site(head: &Head) -> Result<Place, AllocError>
    ensures { IfOk result (λ p. p ≡ site head.now) }
{
    let function = function_of(&head.callee)?;
    Ok(Place::Site(place_of(&head.callee), function))
}

/// The deletion place of this function's methods.
pub(crate) fn deletion(at: u32, function: &Name) -> Result<Place, AllocError>
    ensures { IfOk result (λ p. p ≡ deletion at function.now) }
{
    let function = Function::Named(function.bytes.copy()?);
    Ok(Place::Delete(at, function))
}

/// The name of a function that is written as an operator, as histories have it.
fn operator_name(operator: Operator) -> &'static [u8]
    ensures { result.now ≡ operator_name operator }
{
    match operator {
        Operator::Plus => b"+",
        Operator::Minus => b"-",
        Operator::Times => b"*",
        Operator::Divide => b"div",
        Operator::Remainder => b"rem",
        Operator::Equal => b"==",
        Operator::NotEqual => b"!=",
        Operator::Less => b"<",
        Operator::LessEqual => b"<=",
        Operator::Greater => b">",
        Operator::GreaterEqual => b">=",
        Operator::Not => b"!",
        _ => b"",
    }
}

/// The name of a function, as histories have it.
pub(crate) fn function_name(function: &Function) -> &[u8]
    ensures { result.now ≡ function_name function.now }
{
    match function {
        Function::Named(name) => name.as_slice(),
        Function::Operator(operator) => operator_name(*operator),
    }
}
