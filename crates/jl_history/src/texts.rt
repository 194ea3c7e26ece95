//! The texts of a line.

ghost use Rattle.std.specs.Prelude.{◌≡◌, Some, None, MatchOption, IfOk};
ghost use Rattle.std.specs.Str.{is_utf8};
ghost use Rattle.jl_history.specs.Fields.{is_text, key_in, meaning, is_plain, byte_at, IsUnquoted, after_quote, text_of, output_in};

use crate::fields::{cut, small};
use jl_model::rows::Row;
use jl_model::shared::SharedList;
use jl_model::ty::Bytes;
use std::alloc::{AllocError, Global};
use std::str;

/// Whether bytes are UTF-8.
fn is_utf8(bytes: &[u8]) -> bool
    ensures { result ≡ is_utf8 bytes.now }
{
    match str::from_utf8(bytes) {
        Ok(_) => true,
        Err(_) => false,
    }
}

/// Whether bytes of a line are a text: not empty, and UTF-8.
pub(crate) fn is_text(bytes: &[u8]) -> bool
    ensures { result ≡ is_text bytes.now }
{
    !bytes.is_empty() && is_utf8(bytes)
}

/// Bytes of a line, to be kept.
pub(crate) fn share(alloc: Global, bytes: &[u8]) -> Result<Bytes, AllocError>
    ensures { IfOk result (λ it. it ≡ bytes.now) }
{
    let mut row = Row::new(alloc);
    row.append(bytes)?;
    row.into_shared(alloc)
}

/// The number, the function and the types of a key.
pub(crate) fn key(text: &[u8]) -> Option<(u32, &[u8], &[u8])>
    ensures { MatchOption result (key_in text.now ≡ None) (λ x. key_in text.now ≡ Some (x.0, x.1.now, x.2.now)) }
{
    let (number, rest) = cut(b' ', text)?;
    let (function, tuple) = cut(b' ', rest)?;
    let number = small(number)?;
    if is_text(function) && is_text(tuple) {
        Some((number, function, tuple))
    } else {
        None
    }
}

/// The byte that a backslash and a letter stand for.
fn meaning(letter: u8) -> Option<u8>
    ensures { result ≡ meaning letter }
{
    if letter == b'\\' || letter == b'"' {
        Some(letter)
    } else if letter == b'n' {
        Some(b'\n')
    } else if letter == b'r' {
        Some(b'\r')
    } else {
        None
    }
}

/// Whether a byte stands in quotes as it is.
fn is_plain(byte: u8) -> bool
    ensures { result ≡ is_plain byte }
{
    byte != b'\\' && byte != b'"' && byte != b'\n' && byte != b'\r'
}

/// The byte that the front of a text in quotes stands for, and what follows.
fn byte_at(text: &[u8]) -> Option<(u8, &[u8])>
    ensures { MatchOption result (byte_at text.now ≡ None) (λ x. byte_at text.now ≡ Some (x.0, x.1.now)) }
{
    match text {
        [b'\\', letter, rest @ ..] => {
            let byte = meaning(*letter)?;
            Some((byte, rest))
        }
        [byte, rest @ ..] => {
            if is_plain(*byte) {
                Some((*byte, rest))
            } else {
                None
            }
        }
        [] => None,
    }
}

/// Appends what the bytes in front of the last quote stand for, and answers whether they are of the form.
fn append_unquoted(out: &mut Row<u8>, text: &[u8]) -> Result<bool, AllocError>
    ensures { IfOk result (λ b. IsUnquoted b out.old out.new text.now) }
{
    let mut rest = text;
    while let Some((byte, after)) = byte_at(rest) {
        out.push(byte)?;
        rest = after;
    }
    Ok(rest == b"\"".as_slice())
}

/// What follows the quote in front of a text.
fn after_quote(text: &[u8]) -> Option<&[u8]>
    ensures { MatchOption result (after_quote text.now ≡ None) (λ rest. after_quote text.now ≡ Some rest.now) }
{
    match text {
        [byte, rest @ ..] => { if *byte == b'"' { Some(rest) } else { None } }
        [] => None,
    }
}

/// Bytes that are kept where they are UTF-8.
fn text_of(alloc: Global, bytes: Row<u8>) -> Result<Option<Bytes>, AllocError>
    ensures { IfOk result (λ text. text ≡ text_of bytes) }
{
    if !is_utf8(bytes.as_slice()) {
        return Ok(None);
    }
    let text = bytes.into_shared(alloc)?;
    Ok(Some(text))
}

/// The bytes that a text in quotes stands for.
pub(crate) fn output(alloc: Global, text: &[u8]) -> Result<Option<Bytes>, AllocError>
    ensures { IfOk result (λ o. o ≡ output_in text.now) }
{
    let Some(rest) = after_quote(text) else {
        return Ok(None);
    };
    let mut out = Row::new(alloc);
    let is_whole = append_unquoted(&mut out, rest)?;
    if is_whole {
        text_of(alloc, out)
    } else {
        Ok(None)
    }
}
