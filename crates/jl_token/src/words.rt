//! Identifiers: how far one goes, and the bytes of what was read.

ghost use Rattle.std.specs.Prelude.{◌≡◌, ◌≤◌, ◌-◌, ◌++◌, length, take, IfOk, List, ℕ};
ghost use Rattle.std.specs.Str.{chars, encode_utf8_all};
ghost use Rattle.jl_token.specs.Characters.{may_be_reserved};
ghost use Rattle.jl_token.specs.Reading.{after_word};

use crate::characters::{is_word_part, split_first};
use crate::known::KnownWords;
use jl_model::ty::Bytes;
use std::alloc::AllocError;

/// What follows the characters that may continue an identifier.
pub fn after_word(text: &str) -> &str
    ensures rest { chars result.now ≡ after_word (chars text.now) }
    ensures shorter { length result.now ≤ length text.now }
{
    let mut rest = text;
    while let Some((first, after)) = split_first(rest) {
        if !is_word_part(first) {
            break;
        }
        rest = after;
    }
    rest
}

/// Whether the first two bytes are both at least 97, the code of `a`, as they are in each reserved word. Most
/// names of types begin with a capital letter, and most generated names have a digit second, as `x1` has. So
/// such names need not be compared with the reserved words.
pub fn may_be_reserved(word: &[u8]) -> bool
    ensures { result ≡ may_be_reserved word.now }
{
    match word {
        [first, second, ..] => *first >= 97 && *second >= 97,
        _ => false,
    }
}

/// The text up to its rest.
pub(crate) fn front<'a>(text: &'a str, rest: &str) -> &'a [u8]
    requires { length rest.now ≤ length text.now }
    ensures { result.now ≡ take (length text.now - length rest.now) text.now }
{
    let bytes = text.as_bytes();
    &bytes[..bytes.len() - rest.len()]
}

/// The bytes of a text up to its rest.
pub fn bytes_before(known: &mut KnownWords, text: &str, rest: &str) -> Result<Bytes, AllocError>
    requires { length rest.now ≤ length text.now }
    ensures { IfOk result (λ bytes. (read : List ℕ) → chars text.now ≡ read ++ chars rest.now
        → bytes ≡ encode_utf8_all read) }
{
    known.share(front(text, rest))
}
