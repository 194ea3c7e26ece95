//! Which of a few methods a call runs. The methods are numbered from 15 on, and all apply to some list of types.

ghost use Rattle.jl_sig.specs.Prepared.{IsSigOf};

use crate::halt::Halt;
use crate::signatures::signature;
use jl_program::choice::Choice;
use jl_sig::Sig;
use jl_subsig::{Method, choose_method};
use jl_types::Table;
use std::alloc::Global;

/// Which of four methods runs. Each signature is read by a function of its own, which alone has it and lets it go by a call: a drop that
/// is left to the compiler is unrolled into the proof at each way out.
fn among_four(
    alloc: Global,
    table: &Table,
    first: &Sig,
    second: &Sig,
    third: &Sig,
    fourth: &Sig,
) -> Result<Choice, Halt>
    requires first { IsSigOf table.now first.now }
    requires second { IsSigOf table.now second.now }
    requires third { IsSigOf table.now third.now }
    requires fourth { IsSigOf table.now fourth.now }
{
    let methods = [
        Method {
            number: 15,
            sig: first,
        },
        Method {
            number: 16,
            sig: second,
        },
        Method {
            number: 17,
            sig: third,
        },
        Method {
            number: 18,
            sig: fourth,
        },
    ];
    Ok(choose_method(alloc, table, &methods)?)
}

fn among_three(
    alloc: Global,
    table: &Table,
    first: &Sig,
    second: &Sig,
    third: &Sig,
) -> Result<Choice, Halt>
    requires first { IsSigOf table.now first.now }
    requires second { IsSigOf table.now second.now }
    requires third { IsSigOf table.now third.now }
{
    let methods = [
        Method {
            number: 15,
            sig: first,
        },
        Method {
            number: 16,
            sig: second,
        },
        Method {
            number: 17,
            sig: third,
        },
    ];
    Ok(choose_method(alloc, table, &methods)?)
}

fn among_two(alloc: Global, table: &Table, first: &Sig, second: &Sig) -> Result<Choice, Halt>
    requires first { IsSigOf table.now first.now }
    requires second { IsSigOf table.now second.now }
{
    let methods = [
        Method {
            number: 15,
            sig: first,
        },
        Method {
            number: 16,
            sig: second,
        },
    ];
    Ok(choose_method(alloc, table, &methods)?)
}

fn among_one(alloc: Global, table: &Table, first: &Sig) -> Result<Choice, Halt>
    requires first { IsSigOf table.now first.now }
{
    let methods = [Method {
        number: 15,
        sig: first,
    }];
    Ok(choose_method(alloc, table, &methods)?)
}

/// Which of these methods and at most one that is read runs.
fn after_three(
    alloc: Global,
    table: &Table,
    first: &Sig,
    second: &Sig,
    third: &Sig,
    texts: &[&str],
) -> Result<Choice, Halt>
    requires first { IsSigOf table.now first.now }
    requires second { IsSigOf table.now second.now }
    requires third { IsSigOf table.now third.now }
{
    match texts {
        [] => among_three(alloc, table, first, second, third),
        [text] => {
            let fourth = signature(alloc, table, text)?;
            let choice = among_four(alloc, table, first, second, third, fourth.get());
            drop(fourth);
            choice
        }
        _ => Err(Halt::Unread),
    }
}

/// Which of these methods and those that are read runs.
fn after_two(
    alloc: Global,
    table: &Table,
    first: &Sig,
    second: &Sig,
    texts: &[&str],
) -> Result<Choice, Halt>
    requires first { IsSigOf table.now first.now }
    requires second { IsSigOf table.now second.now }
{
    match texts {
        [] => among_two(alloc, table, first, second),
        [text, rest @ ..] => {
            let third = signature(alloc, table, text)?;
            let choice = after_three(alloc, table, first, second, third.get(), rest);
            drop(third);
            choice
        }
    }
}

fn after_one(alloc: Global, table: &Table, first: &Sig, texts: &[&str]) -> Result<Choice, Halt>
    requires first { IsSigOf table.now first.now }
{
    match texts {
        [] => among_one(alloc, table, first),
        [text, rest @ ..] => {
            let second = signature(alloc, table, text)?;
            let choice = after_two(alloc, table, first, second.get(), rest);
            drop(second);
            choice
        }
    }
}

/// The choice among at most four methods.
fn of_all(alloc: Global, table: &Table, texts: &[&str]) -> Result<Choice, Halt> {
    match texts {
        [] | [""] => Ok(choose_method(alloc, table, &[])?),
        [text, rest @ ..] => {
            let first = signature(alloc, table, text)?;
            let choice = after_one(alloc, table, first.get(), rest);
            drop(first);
            choice
        }
    }
}

/// The choice among the methods of these signatures.
pub fn chosen(alloc: Global, table: &Table, text: &str) -> Result<String, Halt> {
    let mut texts = Vec::new(alloc);
    for part in text.split(" | ") {
        texts.push(part)?;
    }
    match of_all(alloc, table, texts.as_slice())? {
        Choice::Method(number) => Ok(format!(in alloc; "{number}")?),
        Choice::Ambiguous(first, second) => {
            Ok(format!(in alloc; "ambiguous, {first} and {second}")?)
        }
        Choice::None => Ok(format!(in alloc; "none")?),
    }
}
