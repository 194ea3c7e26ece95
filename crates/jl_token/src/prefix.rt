//! Prefix places, where a `-` before a digit is the sign of a number.

ghost use Rattle.std.specs.Prelude.{◌≡◌};
ghost use Rattle.jl_token.specs.Prefix.{is_closing_bracket, is_opening_word, is_prefix_after};

use crate::token::{Operator, TokenKind};
use crate::words::may_be_reserved;

// The reserved words but `end`, `true`, `false` and `nothing`. A word is compared with those of its own length alone.
const WORDS_OF_2: [&[u8]; 2] = [b"if", b"do"];

const WORDS_OF_3: [&[u8]; 4] = [b"isa", b"for", b"try", b"let"];

const WORDS_OF_4: [&[u8]; 1] = [b"else"];

const WORDS_OF_5: [&[u8]; 10] = [
    b"begin", b"quote", b"where", b"while", b"catch", b"using", b"const", b"local", b"macro",
    b"break",
];

const WORDS_OF_6: [&[u8]; 7] = [
    b"struct", b"elseif", b"return", b"module", b"import", b"export", b"global",
];

const WORDS_OF_7: [&[u8]; 2] = [b"finally", b"mutable"];

const WORDS_OF_8: [&[u8]; 3] = [b"abstract", b"function", b"continue"];

const LONGER_WORDS: [&[u8]; 2] = [b"primitive", b"baremodule"];

/// Whether an operand may follow the word. It is looked for among those of its length.
fn is_listed(word: &[u8]) -> bool
    ensures { result ≡ is_opening_word word.now }
{
    match word.len() {
        0 | 1 => false,
        2 => WORDS_OF_2.contains(&word),
        3 => WORDS_OF_3.contains(&word),
        4 => WORDS_OF_4.contains(&word),
        5 => WORDS_OF_5.contains(&word),
        6 => WORDS_OF_6.contains(&word),
        7 => WORDS_OF_7.contains(&word),
        8 => WORDS_OF_8.contains(&word),
        _ => LONGER_WORDS.contains(&word),
    }
}

/// Whether an operand may follow the word. A name that begins as no reserved word does is not looked for.
fn is_opening_word(word: &[u8]) -> bool
    ensures { result ≡ is_opening_word word.now }
{
    may_be_reserved(word) && is_listed(word)
}

/// Whether the mark is `)`, `]` or `}`.
fn is_closing_bracket(operator: Operator) -> bool
    ensures { result ≡ is_closing_bracket operator }
{
    matches!(
        operator,
        Operator::CloseParen | Operator::CloseBracket | Operator::CloseBrace
    )
}

/// Whether the place behind this token is a prefix place.
pub fn is_prefix_after(kind: &TokenKind) -> bool
    ensures { result ≡ is_prefix_after kind.now }
{
    match kind {
        TokenKind::Newline => true,
        TokenKind::Operator(operator) => !is_closing_bracket(*operator),
        TokenKind::Identifier(word) => is_opening_word(word.as_slice()),
        _ => false,
    }
}
