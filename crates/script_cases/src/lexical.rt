//! The answers of what stands below the grammar of scripts: tokens, written types, and the marks of tokens.

use crate::outline_types::put_type;
use crate::text::Written;
use crate::type_places::put_type_places;
use jl_marks::marks::with_marks;
use jl_marks::newlines::drop_newlines;
use jl_model::ty::Bytes;
use jl_token::token::{Token, TokenFault, TokenKind, Tokens};
use jl_token::{line_tokens, tokens};
use jl_typeread::fault::TypeFault;
use jl_typeread::read_type;
use jl_typeread::tree::TypeText;
use std::alloc::{AllocError, Global};
use std::str;

/// The most bytes that are read as a line too.
const LINE_LIMIT: usize = 67_108_864;

/// The text that bytes spell.
fn spelled(bytes: &Bytes) -> &str {
    str::from_utf8(bytes.as_slice()).unwrap_or("no text")
}

/// A token, with its place before it.
fn token_text(alloc: Global, token: &Token) -> Result<String, AllocError> {
    let at = token.at;
    match &token.kind {
        TokenKind::Identifier(word) => format!(in alloc; "{at}:word {}", spelled(word)),
        TokenKind::Number(value) => format!(in alloc; "{at}:number {value}"),
        TokenKind::Negative(value) => format!(in alloc; "{at}:negative {value}"),
        TokenKind::Text(bytes) => format!(in alloc; "{at}:text {:?}", spelled(bytes)),
        TokenKind::Macro(word) => format!(in alloc; "{at}:macro {}", spelled(word)),
        TokenKind::Operator(operator) => format!(in alloc; "{at}:{operator:?}"),
        TokenKind::Newline => format!(in alloc; "{at}:newline"),
        TokenKind::End => format!(in alloc; "{at}:end"),
    }
}

/// Tokens with their places.
fn token_texts(alloc: Global, found: &[Token]) -> Result<String, AllocError> {
    let mut out = String::new(alloc);
    for (i, token) in found.iter().enumerate() {
        if i > 0 {
            out.push_str(", ")?;
        }
        out.push_str(token_text(alloc, token)?.as_str())?;
    }
    Ok(out)
}

/// Tokens with their places, or the fault.
fn token_answer(alloc: Global, found: Result<Tokens, TokenFault>) -> Result<String, AllocError> {
    match found {
        Ok(found) => token_texts(alloc, found.as_slice()),
        Err(fault) => format!(in alloc; "{fault:?}"),
    }
}

/// The tokens of a text with their places, or the fault; what the text is as a line of another text, where that differs.
pub fn tokens_of(alloc: Global, source: &[u8]) -> Result<String, AllocError> {
    let found = token_answer(alloc, tokens(alloc, source))?;
    if source.len() > LINE_LIMIT {
        return Ok(found);
    }
    let line = token_answer(alloc, line_tokens(alloc, source))?;
    if found.as_str() == line.as_str() {
        return Ok(found);
    }
    format!(in alloc; "{found}, as a line {line}")
}

/// The type that begins with the token of this number, and the number of the token behind it. A text without that token has
/// none.
#[tactic(auto, using(jl_typeread::proofs::Ends::ends_alone))]
fn type_at(alloc: Global, source: &[u8], from: usize) -> Result<(TypeText, usize), TypeFault> {
    let Ok(found) = tokens(alloc, source) else {
        return Err(TypeFault::Memory);
    };
    if from >= found.len() {
        return Err(TypeFault::Memory);
    }
    read_type(alloc, found.as_slice(), from)
}

/// The number of the token behind the type that begins with the token of this number, or the fault.
pub fn type_end(alloc: Global, source: &[u8], from: usize) -> Result<String, AllocError> {
    match type_at(alloc, source, from) {
        Ok((ty, next)) => {
            drop(ty);
            format!(in alloc; "{next}")
        }
        Err(fault) => format!(in alloc; "{fault:?}"),
    }
}

/// A type, and the places in it.
fn placed(alloc: Global, ty: &TypeText) -> Result<String, AllocError> {
    let mut out = Written::new(alloc);
    put_type(&mut out, ty);
    out.put(" at");
    put_type_places(&mut out, ty);
    out.finish()
}

/// The type that begins with the token of this number, and the places in it; or the fault.
pub fn type_tree(alloc: Global, source: &[u8], from: usize) -> Result<String, AllocError> {
    match type_at(alloc, source, from) {
        Ok((ty, _)) => {
            let text = placed(alloc, &ty);
            drop(ty);
            text
        }
        Err(fault) => format!(in alloc; "{fault:?}"),
    }
}

/// How many tokens of these the grammar sees, and the marks of the first of them.
fn mark_text(alloc: Global, found: &[Token]) -> Result<String, AllocError> {
    let seen = drop_newlines(alloc, found)?;
    let count = seen.len();
    let mut marked = with_marks(alloc, seen)?;
    match marked.pop() {
        None => format!(in alloc; "no token"),
        Some(first) => {
            let opening = first.marks.opening;
            let ahead = first.marks.ahead;
            format!(in alloc; "{count}, {opening:?} {ahead:?}")
        }
    }
}

/// How many tokens of a text the grammar sees, its end among them, and the marks of the first; or the fault.
pub fn marks_of(alloc: Global, source: &[u8]) -> Result<String, AllocError> {
    match tokens(alloc, source) {
        Ok(found) => mark_text(alloc, found.as_slice()),
        Err(fault) => format!(in alloc; "{fault:?}"),
    }
}
