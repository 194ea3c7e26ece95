//! The answers to a text.

use crate::outline_items::outline;
use jl_grammar::tree::Script;
use jl_model::ty::Bytes;
use jl_print::print;
use jl_reader::fault::SyntaxFault;
use jl_reader::read;
use jl_token::token::TokenFault;
use jl_token::tokens;
use std::alloc::{AllocError, Global};
use std::str;

/// Why a text is no script.
#[derive(Clone, Copy, Debug, Drop)]
enum Refusal {
    Token(TokenFault),
    Script(SyntaxFault),
}

/// The script that a text is.
#[tactic(auto, using(jl_typeread::proofs::Ends::ends_alone))]
fn script_of(alloc: Global, source: &[u8]) -> Result<Script, Refusal> {
    let found = match tokens(alloc, source) {
        Ok(found) => found,
        Err(fault) => return Err(Refusal::Token(fault)),
    };
    match read(alloc, found.as_slice()) {
        Ok(script) => Ok(script),
        Err(fault) => Err(Refusal::Script(fault)),
    }
}

/// The name of a fault with its place.
fn refused(alloc: Global, refusal: Refusal) -> Result<String, AllocError> {
    match refusal {
        Refusal::Token(fault) => format!(in alloc; "{fault:?}"),
        Refusal::Script(fault) => format!(in alloc; "{fault:?}"),
    }
}

/// The number of items of a text that is a script, or the fault with its place.
pub fn read_as(alloc: Global, source: &[u8]) -> Result<String, AllocError> {
    match script_of(alloc, source) {
        Ok(script) => {
            let count = script.items.len();
            format!(in alloc; "Ok({count})")
        }
        Err(refusal) => refused(alloc, refusal),
    }
}

/// The tree of a text that is a script, or the fault with its place.
pub fn tree_of(alloc: Global, source: &[u8]) -> Result<String, AllocError> {
    match script_of(alloc, source) {
        Ok(script) => outline(alloc, script.items.as_slice()),
        Err(refusal) => refused(alloc, refusal),
    }
}

/// Whether a text is a script with this tree, and is printed as it is.
fn is_same(alloc: Global, text: &Bytes, tree: &str) -> Result<bool, AllocError> {
    match script_of(alloc, text.as_slice()) {
        Ok(script) => {
            let printed = print(alloc, &script)?;
            let found = outline(alloc, script.items.as_slice())?;
            Ok(printed.as_slice() == text.as_slice() && found.as_str() == tree)
        }
        Err(_) => Ok(false),
    }
}

/// The printed text of a script, and whether it reads back as the same.
fn print_of(alloc: Global, script: &Script) -> Result<String, AllocError> {
    let text = print(alloc, script)?;
    let tree = outline(alloc, script.items.as_slice())?;
    let verdict = match is_same(alloc, &text, tree.as_str())? {
        true => "the same",
        false => "another",
    };
    let lines = str::from_utf8(text.as_slice()).unwrap_or("no text");
    format!(in alloc; "{lines}reads back as {verdict}")
}

/// The printed text of a text that is a script, and whether it reads back as the same; or the fault with its place.
pub fn printed(alloc: Global, source: &[u8]) -> Result<String, AllocError> {
    match script_of(alloc, source) {
        Ok(script) => print_of(alloc, &script),
        Err(refusal) => refused(alloc, refusal),
    }
}
