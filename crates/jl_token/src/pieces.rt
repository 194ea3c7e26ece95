//! The token at the front of a text, and what stands between tokens.

ghost use Rattle.std.specs.Prelude.{◌≡◌, ◌≤◌, ◌<◌, ◌^◌, ◌-◌, ◌∷◌, length, IfOk, List, ℕ, pos, Bool, true};
ghost use Rattle.std.specs.Char.{is_ascii_digit};
ghost use Rattle.jl_token.specs.Characters.{has_first};
ghost use Rattle.std.specs.Str.{chars, encode_utf8_all};
ghost use Rattle.jl_token.specs.Reading.{word, after_word};
ghost use Rattle.jl_token.specs.Grammar.{negate};
ghost use Rattle.jl_token.specs.Pieces.{Gives, magnitude, number, negative_number, string, macro_word, operator_of, token, comment, piece};

use crate::characters::{
    has_digit_first, is_blank, is_word_start, is_wrong_after_number, place, split_first,
};
use crate::comments::{after_comment, after_line};
use crate::known::KnownWords;
use crate::numbers::digits;
use crate::operators::{operator, rest_after};
use crate::strings::{after_string, unescape};
use crate::token::{TokenFault, TokenKind};
use crate::words::{after_word, bytes_before};
use jl_model::ty::Bytes;
use std::alloc::{AllocError, Global};

/// The value of a number of at most this size, which begins at `from`, its sign included.
fn magnitude<'a>(
    bytes: usize,
    from: &str,
    most: u64,
    text: &'a str,
) -> Result<(u64, &'a str), TokenFault>
    requires small { bytes < 2 ^ 32 }
    requires within { length from.now ≤ bytes }
    requires inside { length text.now ≤ bytes }
    requires limit { most < 2 ^ 64 - 1 }
    ensures found { Gives (λ x. (x.0, chars x.1.now)) result
        (magnitude bytes (chars from.now) most (chars text.now)) }
    ensures limited { IfOk result (λ x. x.0 ≤ most) }
    ensures progress { has_first is_ascii_digit (chars text.now) ≡ true
        → IfOk result (λ x. length x.1.now < length text.now) }
    ensures shorter { IfOk result (λ x. length x.1.now ≤ length text.now) }
{
    let (value, rest) = digits(text);
    if value > most {
        return Err(TokenFault::NumberTooLarge(place(bytes, from)));
    }
    if is_wrong_after_number(rest) {
        return Err(TokenFault::BadCharacter(place(bytes, rest)));
    }
    Ok((value, rest))
}

/// The number with the sign `-`.
fn negate(value: u64) -> i64
    requires { value ≤ 9223372036854775808 }
    ensures { result ≡ negate value }
{
    if value == 0 {
        return 0;
    }
    -((value - 1) as i64) - 1
}

/// A number, with no sign.
fn number(bytes: usize, text: &str) -> Result<(TokenKind, &str), TokenFault>
    requires small { bytes < 2 ^ 32 }
    requires within { length text.now ≤ bytes }
    ensures found { Gives (λ x. (x.0, chars x.1.now)) result (number bytes (chars text.now)) }
    ensures progress { has_first is_ascii_digit (chars text.now) ≡ true
        → IfOk result (λ x. length x.1.now < length text.now) }
{
    let (value, rest) = magnitude(bytes, text, i64::MAX as u64, text)?;
    Ok((TokenKind::Number(value as i64), rest))
}

/// A number with its sign, whose digits stand behind it.
fn negative_number<'a>(
    bytes: usize,
    text: &str,
    rest: &'a str,
) -> Result<(TokenKind, &'a str), TokenFault>
    requires small { bytes < 2 ^ 32 }
    requires within { length text.now ≤ bytes }
    requires inside { length rest.now ≤ bytes }
    ensures found { Gives (λ x. (x.0, chars x.1.now)) result
        (negative_number bytes (chars text.now) (chars rest.now)) }
    ensures shorter { IfOk result (λ x. length x.1.now ≤ length rest.now) }
{
    let (value, rest) = magnitude(bytes, text, 1 << 63, rest)?;
    Ok((TokenKind::Negative(negate(value)), rest))
}

/// A string, whose text stands behind its first `"`.
fn string<'a>(
    alloc: Global,
    bytes: usize,
    text: &str,
    body: &'a str,
) -> Result<(TokenKind, &'a str), TokenFault>
    requires small { bytes < 2 ^ 32 }
    requires within { length text.now ≤ bytes }
    requires inside { length body.now ≤ bytes }
    ensures found { Gives (λ x. (x.0, chars x.1.now)) result
        (string bytes (chars text.now) (chars body.now)) }
    ensures shorter { IfOk result (λ x. length x.1.now ≤ length body.now) }
{
    match unescape(alloc, body)? {
        Ok((meant, rest)) => Ok((TokenKind::Text(meant), rest)),
        Err(wrong) => Err(match after_string(body) {
            None => TokenFault::OpenString(place(bytes, text)),
            Some(_) => TokenFault::BadCharacter(place(bytes, wrong)),
        }),
    }
}

/// The bytes of an identifier whose text is this and whose text behind the first character is `rest`.
fn identifier<'a>(
    known: &mut KnownWords,
    text: &str,
    rest: &'a str,
) -> Result<(Bytes, &'a str), AllocError>
    requires { length rest.now ≤ length text.now }
    ensures word { IfOk result (λ x. (c : ℕ) → chars text.now ≡ c ∷ chars rest.now
        → x.0 ≡ encode_utf8_all (c ∷ word (chars rest.now))) }
    ensures rest { IfOk result (λ x. chars x.1.now ≡ after_word (chars rest.now)) }
    ensures shorter { IfOk result (λ x. length x.1.now ≤ length rest.now) }
{
    let after = after_word(rest);
    Ok((bytes_before(known, text, after)?, after))
}

/// A macro word, whose identifier stands behind its `@`.
fn macro_word<'a>(
    known: &mut KnownWords,
    bytes: usize,
    text: &str,
    name: &'a str,
) -> Result<(TokenKind, &'a str), TokenFault>
    requires small { bytes < 2 ^ 32 }
    requires within { length text.now ≤ bytes }
    ensures found { Gives (λ x. (x.0, chars x.1.now)) result
        (macro_word bytes (chars text.now) (chars name.now)) }
    ensures shorter { IfOk result (λ x. length x.1.now ≤ length name.now) }
{
    let Some((first, rest)) = split_first(name) else {
        return Err(TokenFault::BadCharacter(place(bytes, text)));
    };
    if !is_word_start(first) {
        return Err(TokenFault::BadCharacter(place(bytes, text)));
    }
    let (word, after) = identifier(known, name, rest)?;
    Ok((TokenKind::Macro(word), after))
}

/// An operator, or the fault of a character that begins no token.
fn operator_of<'a>(
    bytes: usize,
    text: &str,
    first: char,
    rest: &'a str,
) -> Result<(TokenKind, &'a str), TokenFault>
    requires small { bytes < 2 ^ 32 }
    requires within { length text.now ≤ bytes }
    requires split { chars text.now ≡ first ∷ chars rest.now }
    ensures found { Gives (λ x. (x.0, chars x.1.now)) result
        (operator_of bytes first (chars rest.now)) }
    ensures shorter { IfOk result (λ x. length x.1.now ≤ length rest.now) }
{
    match operator(first, rest) {
        Some((found, after)) => Ok((TokenKind::Operator(found), after)),
        None => Err(TokenFault::BadCharacter(place(bytes, text))),
    }
}

/// The comment of a text whose rest behind its `#` is `rest`: what follows it.
fn comment<'a>(
    bytes: usize,
    text: &str,
    rest: &'a str,
) -> Result<(Option<TokenKind>, &'a str), TokenFault>
    requires small { bytes < 2 ^ 32 }
    requires within { length text.now ≤ bytes }
    requires inside { length rest.now ≤ bytes }
    ensures found { Gives (λ x. (x.0, chars x.1.now)) result
        (comment bytes (chars text.now) (chars rest.now)) }
    ensures shorter { IfOk result (λ x. length x.1.now ≤ length rest.now) }
{
    let Some(body) = rest_after('=', rest) else {
        return Ok((None, after_line(rest)));
    };
    match after_comment(body) {
        Some(after) => Ok((None, after)),
        None => Err(TokenFault::OpenComment(place(bytes, text))),
    }
}

/// The token at the front of a text of this first character and this rest.
fn token<'a>(
    known: &mut KnownWords,
    bytes: usize,
    prefix: bool,
    text: &'a str,
    first: char,
    rest: &'a str,
) -> Result<(TokenKind, &'a str), TokenFault>
    requires small { bytes < 2 ^ 32 }
    requires within { length text.now ≤ bytes }
    requires inside { length rest.now < length text.now }
    requires split { chars text.now ≡ first ∷ chars rest.now }
    ensures found { Gives (λ x. (x.0, chars x.1.now)) result
        (token bytes prefix first (chars rest.now)) }
    ensures shorter { IfOk result (λ x. length x.1.now < length text.now) }
{
    if is_word_start(first) {
        let (word, after) = identifier(known, text, rest)?;
        return Ok((TokenKind::Identifier(word), after));
    }
    if first.is_ascii_digit() {
        return number(bytes, text);
    }
    match first {
        '\n' => Ok((TokenKind::Newline, rest)),
        '"' => string(known.alloc, bytes, text, rest),
        '@' => macro_word(known, bytes, text, rest),
        '-' if prefix && has_digit_first(rest) => negative_number(bytes, text, rest),
        _ => operator_of(bytes, text, first, rest),
    }
}

/// The piece at the front of a text: a token, or nothing where a blank or a comment stands there; and what follows it.
pub fn piece<'a>(
    known: &mut KnownWords,
    bytes: usize,
    prefix: bool,
    text: &'a str,
) -> Result<(Option<TokenKind>, &'a str), TokenFault>
    requires small { bytes < 2 ^ 32 }
    requires within { length text.now ≤ bytes }
    ensures found { Gives (λ x. (x.0, chars x.1.now)) result (piece bytes prefix (chars text.now)) }
    ensures shorter { 0 < length text.now → IfOk result (λ x. length x.1.now < length text.now) }
{
    let Some((first, rest)) = split_first(text) else {
        return Ok((None, text));
    };
    if is_blank(first) {
        return Ok((None, rest));
    }
    if first == '#' {
        return comment(bytes, text, rest);
    }
    let (kind, after) = token(known, bytes, prefix, text, first, rest)?;
    Ok((Some(kind), after))
}
