//! Operators, longest first.

ghost use Rattle.std.specs.Prelude.{◌≡◌, ◌∷◌, ◌≤◌, length, MatchOption, None, Some};
ghost use Rattle.std.specs.Str.{chars};
ghost use Rattle.jl_token.specs.Operators.{rest_after, longer_operator, double_operator, after_equals, after_exclamation, after_angle, single_operator, operator};

use crate::characters::split_first;
use crate::token::Operator;

/// What follows this character, where the text begins with it.
pub fn rest_after(wanted: char, text: &str) -> Option<&str>
    ensures rest { MatchOption result (rest_after wanted (chars text.now)
        ≡ None) (λ rest. rest_after wanted (chars text.now) ≡ Some (chars rest.now)) }
    ensures shorter { MatchOption result (Unit {0}) (λ rest. length rest.now ≤ length text.now) }
{
    let (first, rest) = split_first(text)?;
    if first == wanted { Some(rest) } else { None }
}

/// The longer operator where this character follows, else the shorter.
fn longer_operator(next: char, longer: Operator, shorter: Operator, text: &str) -> (Operator, &str)
    ensures found { (result.0, chars result.1.now)
        ≡ longer_operator next longer shorter (chars text.now) }
    ensures shorter { length result.1.now ≤ length text.now }
{
    match rest_after(next, text) {
        Some(rest) => (longer, rest),
        None => (shorter, text),
    }
}

/// `=`, `==` or `===`, behind the first character.
fn after_equals(text: &str) -> (Operator, &str)
    ensures found { (result.0, chars result.1.now) ≡ after_equals (chars text.now) }
    ensures shorter { length result.1.now ≤ length text.now }
{
    match rest_after('=', text) {
        Some(rest) => longer_operator('=', Operator::Identical, Operator::Equal, rest),
        None => (Operator::Assign, text),
    }
}

/// `!`, `!=` or `!==`, behind the first character.
fn after_exclamation(text: &str) -> (Operator, &str)
    ensures found { (result.0, chars result.1.now) ≡ after_exclamation (chars text.now) }
    ensures shorter { length result.1.now ≤ length text.now }
{
    match rest_after('=', text) {
        Some(rest) => longer_operator('=', Operator::NotIdentical, Operator::NotEqual, rest),
        None => (Operator::Not, text),
    }
}

/// `<:` or `>:`, or what compares, behind the first character.
fn after_angle(
    text: &str,
    bound: Operator,
    or_equal: Operator,
    strict: Operator,
) -> (Operator, &str)
    ensures found { (result.0, chars result.1.now)
        ≡ after_angle bound or_equal strict (chars text.now) }
    ensures shorter { length result.1.now ≤ length text.now }
{
    match rest_after(':', text) {
        Some(rest) => (bound, rest),
        None => longer_operator('=', or_equal, strict, text),
    }
}

/// An operator of two equal characters, behind the first one.
fn double_operator(character: char, operator: Operator, text: &str) -> Option<(Operator, &str)>
    ensures found { MatchOption result (double_operator character operator (chars text.now)
        ≡ None) (λ found. double_operator character operator (chars text.now)
        ≡ Some (found.0, chars found.1.now)) }
    ensures shorter { MatchOption result (Unit {0})
        (λ found. length found.1.now ≤ length text.now) }
{
    Some((operator, rest_after(character, text)?))
}

/// An operator that is one character and begins no other.
fn single_operator(character: char) -> Option<Operator>
    ensures { result ≡ single_operator character }
{
    match character {
        '+' => Some(Operator::Plus),
        '-' => Some(Operator::Minus),
        '*' => Some(Operator::Times),
        '÷' => Some(Operator::Divide),
        '%' => Some(Operator::Remainder),
        '?' => Some(Operator::Question),
        '.' => Some(Operator::Dot),
        ',' => Some(Operator::Comma),
        ';' => Some(Operator::Semicolon),
        '(' => Some(Operator::OpenParen),
        ')' => Some(Operator::CloseParen),
        '[' => Some(Operator::OpenBracket),
        ']' => Some(Operator::CloseBracket),
        '{' => Some(Operator::OpenBrace),
        '}' => Some(Operator::CloseBrace),
        _ => None,
    }
}

/// The operator at the front of a text of this first character and this rest, and what follows it.
pub fn operator(first: char, rest: &str) -> Option<(Operator, &str)>
    ensures found { MatchOption result (operator first (chars rest.now)
        ≡ None) (λ found. operator first (chars rest.now) ≡ Some (found.0, chars found.1.now)) }
    ensures shorter { MatchOption result (Unit {0})
        (λ found. length found.1.now ≤ length rest.now) }
{
    match first {
        '=' => Some(after_equals(rest)),
        '!' => Some(after_exclamation(rest)),
        '<' => Some(after_angle(rest, Operator::Subtype, Operator::LessEqual, Operator::Less)),
        '>' => Some(after_angle(
            rest,
            Operator::Supertype,
            Operator::GreaterEqual,
            Operator::Greater,
        )),
        ':' => Some(longer_operator(':', Operator::HasType, Operator::Colon, rest)),
        '&' => double_operator('&', Operator::And, rest),
        '|' => double_operator('|', Operator::Or, rest),
        _ => Some((single_operator(first)?, rest)),
    }
}
