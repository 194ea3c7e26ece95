//! What the types of a program mean: answers to questions about types, declarations, signatures, calls and methods, as standard input
//! asks them, a question a line.
//!
//! `table` begins a group with the built-in types alone. `abstract Above{T} <: Any` and `struct Box{T} <: Above{T}; first::T` declare a
//! type, whose number is the answer. `type T`, `signature (T, T) where {T<:Integer}` and `call (Int64, Bool)` are listed for `all types`,
//! `all signatures` and `all calls`; they are answered with the normal form, the number of rows and the number of types. Other questions:
//!
//! - `nodes T` how large a normal form is, `types T | S` how two types stand to one another
//! - `names` all types, `kept S` the parent and the fields that the table keeps of a type, `above T | S` the arguments of an ancestor
//! - `rows SIG` rows, `keep SIG` what is kept of a signature, `variables SIG` how its variables stand and whether a body may use them
//! - `apply SIG | (T, S)` what a body gets for the variables, `signatures SIG | SIG` how two signatures stand to one another,
//!   `choose SIG | SIG` which of up to four methods runs; they are numbered from 15 on
//! - `fields S` is the signature of a struct's fields in `rows`, `keep` and `signatures`
//! - `body (T, S) where V` whether a type in a body is allowed: the variables that have no name are static parameters
//! - `find N (T, S) | (T, S)` what stands at the first place of variable N among arguments, `lacking N (T)` which of N variables do not
//!   stand there, nor an atom of theirs
//! - `judge below T | S`, `judge signature SIG`, `judge body (T, S)` and `judge wide N` what the tests of jl_judge tell: whether both
//!   types can be judged and one is below the other, the first refusal, and whether type N has too many rows
//!
//! A refusal is the answer. Any other line is a heading.
#![tactic(auto)]

mod all;
mod cases;
mod choice;
mod halt;
mod heads;
mod judging;
mod reading;
mod ready;
mod signatures;
mod types;
mod writing;

use crate::cases::Cases;
use crate::halt::Halt;
use std::io::{self, BufRead, BufReader};
use std::mem;

/// Writes the answer to a line: behind it, or below it where it has lines of its own.
fn show(rt: &HostRuntime, line: &str, word: &str, answer: Result<String, Halt>) -> io::Result<()> {
    match answer {
        Ok(text) => match word {
            "all" => print!(rt; "{line} =>\n{text}"),
            _ => println!(rt; "{line} => {text}"),
        },
        Err(halt) => println!(rt; "{line} => {halt}"),
    }
}

/// Takes a line.
fn take(rt: &HostRuntime, cases: &mut Cases, line: &str) -> io::Result<()> {
    let (word, text) = line.split_once(' ').unwrap_or((line, ""));
    match word {
        "" | "#" => println!(rt; "{line}"),
        "table" => {
            drop(mem::replace(cases, Cases::new(rt.alloc())?));
            println!(rt; "{line}")
        }
        _ => {
            let answer = cases.answer(rt.alloc(), word, text);
            show(rt, line, word, answer)
        }
    }
}

/// Takes all lines.
fn take_all(rt: &HostRuntime, cases: &mut Cases) -> io::Result<()> {
    let alloc = rt.alloc();
    for line in BufReader::new(alloc, rt.reader())?.lines(alloc) {
        take(rt, cases, line?.as_str())?;
    }
    Ok(())
}

fn main(rt: HostRuntime) -> io::Result<()> {
    let mut cases = Cases::new(rt.alloc())?;
    let taken = take_all(&rt, &mut cases);
    drop(cases);
    taken
}
