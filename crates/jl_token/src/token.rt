//! Tokens, their kinds, and the faults of a source that has none.

ghost use Rattle.std.specs.Prelude.{◌≡◌};
ghost use Rattle.jl_token.specs.declared.token.TokenFault.TheVariants.{Memory};

use jl_model::shared::SharedList;
use jl_model::ty::Bytes;
use std::alloc::{AllocError, AllocFailed};
use thiserror::Error;

/// The tokens of a source, in order. The last one, and no other, is the source's end.
pub type Tokens = SharedList<Token>;

/// A token, and where it begins: `at` is its offset in bytes from the start of the source.
#[derive(Drop, PartialEq, Eq)]
pub struct Token {
    pub kind: TokenKind,
    pub at: u32,
}

/// What a token is, with the word, number or bytes that it carries (Julia manual, Variables, Integers, Strings and
/// Mathematical Operations).
#[derive(Drop, PartialEq, Eq)]
pub enum TokenKind {
    /// A name or a reserved word, by its bytes.
    Identifier(Bytes),
    /// A number without a sign, from 0 to 9223372036854775807.
    Number(i64),
    /// A number with its `-`, which stood directly before it in a prefix place: from -9223372036854775808 to 0.
    Negative(i64),
    /// A string, by the bytes that it stands for: its escapes are replaced.
    Text(Bytes),
    /// A macro word, by the bytes of the identifier behind its `@`.
    Macro(Bytes),
    /// An operator or another mark.
    Operator(Operator),
    /// A newline outside of strings and comments.
    Newline,
    /// The end of the source.
    End,
}

/// The operators and marks.
#[derive(Clone, Copy, PartialEq, Eq, Debug)]
pub enum Operator {
    /// `===`
    Identical,
    /// `!==`
    NotIdentical,
    /// `::`
    HasType,
    /// `<:`
    Subtype,
    /// `>:`
    Supertype,
    /// `==`
    Equal,
    /// `!=`
    NotEqual,
    /// `<=`
    LessEqual,
    /// `>=`
    GreaterEqual,
    /// `&&`
    And,
    /// `||`
    Or,
    /// `=`
    Assign,
    /// `<`
    Less,
    /// `>`
    Greater,
    /// `+`
    Plus,
    /// `-`
    Minus,
    /// `*`
    Times,
    /// `÷`, which is U+00F7
    Divide,
    /// `%`
    Remainder,
    /// `!`
    Not,
    /// `?`
    Question,
    /// `:`
    Colon,
    /// `.`
    Dot,
    /// `,`
    Comma,
    /// `;`
    Semicolon,
    /// `(`
    OpenParen,
    /// `)`
    CloseParen,
    /// `[`
    OpenBracket,
    /// `]`
    CloseBracket,
    /// `{`
    OpenBrace,
    /// `}`
    CloseBrace,
}

/// Why a source has no tokens. Each place is an offset in bytes.
#[derive(Clone, Copy, Debug, Drop, PartialEq, Eq, Error)]
pub enum TokenFault {
    /// The source has more bytes than are allowed.
    #[error("SourceTooLong")]
    SourceTooLong,
    /// The bytes are no UTF-8 from this place on.
    #[error("BadUtf8")]
    BadUtf8(u32),
    /// A character that begins no token, stands directly behind a number, or begins no escape in a string.
    #[error("BadCharacter")]
    BadCharacter(u32),
    /// A number past the limit, at its first character, the `-` included.
    #[error("NumberTooLarge")]
    NumberTooLarge(u32),
    /// A string without its end, at its beginning.
    #[error("OpenString")]
    OpenString(u32),
    /// A block comment without its end, at its beginning.
    #[error("OpenComment")]
    OpenComment(u32),
    /// Memory ran out.
    #[error("out of memory")]
    Memory,
}

impl From<AllocError> for TokenFault {
    ghost from_gives = { λ _ e. e ≡ Memory };

    fn from(_e: AllocError) -> TokenFault {
        TokenFault::Memory
    }
}

impl<T: Drop> From<AllocFailed<T>> for TokenFault {
    ghost from_gives = { λ _ e. e ≡ Memory };

    fn from(_e: AllocFailed<T>) -> TokenFault {
        TokenFault::Memory
    }
}
