//! Strings: where one ends, and the bytes that it stands for.

ghost use Rattle.std.specs.Prelude.{◌≡◌, ◌∷◌, ◌≤◌, length, MatchOption, None, Some, IfOk, false, MatchResult};
ghost use Rattle.std.specs.Str.{chars};
ghost use Rattle.jl_token.specs.Characters.{escape, has_first};
ghost use Rattle.jl_token.specs.Grammar.{is_plain};
ghost use Rattle.jl_token.specs.Reading.{after_string, after_plain, read_escape, with_front, unescape, Means};

use crate::characters::split_first;
use crate::words::front;
use jl_model::shared::SharedList;
use jl_model::ty::Bytes;
use std::alloc::{AllocError, Global};

/// What follows a string's end, if it has one. The text stands behind its first `"`.
pub fn after_string(text: &str) -> Option<&str>
    ensures rest { MatchOption result (after_string false (chars text.now)
        ≡ None) (λ rest. after_string false (chars text.now) ≡ Some (chars rest.now)) }
    ensures shorter { MatchOption result (Unit {0}) (λ rest. length rest.now ≤ length text.now) }
{
    let mut taken = false;
    let mut rest = text;
    while let Some((first, after)) = split_first(rest) {
        if !taken && first == '"' {
            return Some(after);
        }
        taken = !taken && first == '\\';
        rest = after;
    }
    None
}

/// What the character behind a backslash stands for, an ASCII character.
fn escape(character: char) -> Option<u8>
    ensures { result ≡ escape character }
{
    match character {
        'n' => Some(b'\n'),
        't' => Some(b'\t'),
        '\\' => Some(b'\\'),
        '"' => Some(b'"'),
        '$' => Some(b'$'),
        _ => None,
    }
}

/// What an escape behind its backslash stands for, and what follows it; none if it is wrong.
fn read_escape(text: &str) -> Option<(u8, &str)>
    ensures found { MatchOption result (read_escape (chars text.now)
        ≡ None) (λ p. read_escape (chars text.now) ≡ Some (p.0, chars p.1.now)) }
    ensures shorter { MatchOption result (Unit {0}) (λ p. length p.1.now ≤ length text.now) }
{
    let (first, rest) = split_first(text)?;
    Some((escape(first)?, rest))
}

/// Whether the character stands for itself in a string.
fn is_plain(character: char) -> bool
    ensures { result ≡ is_plain character }
{
    character != '"' && character != '\\' && character != '$'
}

/// What follows the characters that stand for themselves in a string.
fn after_plain(text: &str) -> &str
    ensures rest { chars result.now ≡ after_plain (chars text.now) }
    ensures shorter { length result.now ≤ length text.now }
{
    let mut rest = text;
    while let Some((first, after)) = split_first(rest) {
        if !is_plain(first) {
            break;
        }
        rest = after;
    }
    rest
}

/// Adds the characters at the front that stand for themselves, all at once, to the bytes so far. Gives what
/// follows them.
fn take_plain<'a>(meant: &mut Vec<u8>, text: &'a str) -> Result<&'a str, AllocError>
    ensures bytes { IfOk result (λ rest. with_front meant.new.items (unescape (chars rest.now))
        ≡ with_front meant.old.items (unescape (chars text.now))) }
    ensures end { IfOk result (λ rest. after_string false (chars rest.now)
        ≡ after_string false (chars text.now)) }
    ensures stops { IfOk result (λ rest. has_first is_plain (chars rest.now) ≡ false) }
    ensures shorter { IfOk result (λ rest. length rest.now ≤ length text.now) }
{
    let rest = after_plain(text);
    meant.extend_from_slice(front(text, rest))?;
    Ok(rest)
}

/// The bytes that a string's text stands for, and what follows its end. Or, if it has an end, the text from
/// its first wrong escape on. Whether it has one is for the caller to ask, so that a string without a fault is
/// read only once.
pub fn unescape(alloc: Global, text: &str) -> Result<Result<(Bytes, &str), &str>, AllocError>
    ensures found { IfOk result (λ read. Means read (chars text.now)) }
    ensures shorter { IfOk result (λ read. MatchResult read
        (λ found. length found.1.now ≤ length text.now)
        (λ wrong. length wrong.now ≤ length text.now)) }
{
    let mut meant = Vec::new(alloc);
    let mut rest = take_plain(&mut meant, text)?;
    while let Some((first, after)) = split_first(rest) {
        if first == '"' {
            return Ok(Ok((SharedList::from_vec(alloc, meant)?, after)));
        }
        if first != '\\' {
            return Ok(Err(rest));
        }
        let Some((byte, behind)) = read_escape(after) else {
            return Ok(Err(rest));
        };
        meant.push(byte)?;
        rest = take_plain(&mut meant, behind)?;
    }
    Ok(Err(rest))
}
