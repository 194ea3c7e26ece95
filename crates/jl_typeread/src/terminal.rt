//! What the grammars of types and scripts see of a token: reserved words apart from names, and numbers with their sign.

ghost use Rattle.std.specs.Prelude.{◌≡◌, IfOk};
ghost use Rattle.jl_typeread.specs.Lexemes.{is_unruled, opening_word, closing_word, reserved_word, word_or_name, terminal_of, lexeme_of};

use jl_model::ty::Bytes;
use jl_token::may_be_reserved;
use jl_token::token::{Operator, Token, TokenKind};
use std::alloc::AllocError;

/// The reserved words. `Unruled` stands for those that have no rule in the grammar.
#[derive(Clone, Copy)]
pub enum Word {
    Abstract,
    Struct,
    Function,
    End,
    If,
    Elseif,
    Else,
    Begin,
    Quote,
    Return,
    Where,
    True,
    False,
    Nothing,
    Isa,
    Unruled,
}

/// What the grammars see of a token.
#[derive(Drop)]
pub enum Terminal {
    /// A name that is no reserved word.
    Name(Bytes),
    /// A reserved word.
    Word(Word),
    /// A number, with its sign where that belongs to its token.
    Number(i64),
    /// A string, by the bytes that it stands for.
    Text(Bytes),
    /// A macro word, by the bytes behind its `@`.
    Macro(Bytes),
    /// An operator or another mark.
    Operator(Operator),
    /// A newline.
    Newline,
    /// The end of the source.
    End,
}

/// A token as a terminal of the grammars, and its offset in bytes.
pub struct Lexeme {
    pub terminal: Terminal,
    pub at: u32,
}

impl Drop for Lexeme {
    fn drop(self) {
        let Lexeme { terminal, at: _ } = self;
        drop(terminal);
    }
}

// The reserved words without a rule. A word is compared with those of its own length alone.
const UNRULED_OF_2: [&[u8]; 1] = [b"do"];

const UNRULED_OF_3: [&[u8]; 3] = [b"for", b"try", b"let"];

const UNRULED_OF_5: [&[u8]; 7] = [
    b"while", b"catch", b"using", b"const", b"local", b"macro", b"break",
];

const UNRULED_OF_6: [&[u8]; 4] = [b"module", b"import", b"export", b"global"];

const UNRULED_OF_7: [&[u8]; 2] = [b"finally", b"mutable"];

const LONGER_UNRULED: [&[u8]; 3] = [b"primitive", b"baremodule", b"continue"];

/// Whether the word is reserved and has no rule. It is looked for among those of its length.
fn is_unruled(word: &[u8]) -> bool
    ensures { result ≡ is_unruled word.now }
{
    match word.len() {
        0 | 1 => false,
        2 => UNRULED_OF_2.contains(&word),
        3 => UNRULED_OF_3.contains(&word),
        4 => false,
        5 => UNRULED_OF_5.contains(&word),
        6 => UNRULED_OF_6.contains(&word),
        7 => UNRULED_OF_7.contains(&word),
        _ => LONGER_UNRULED.contains(&word),
    }
}

/// The reserved words that begin a form.
fn opening_word(word: &[u8]) -> Option<Word>
    ensures { result ≡ opening_word word.now }
{
    if word == b"abstract".as_slice() {
        return Some(Word::Abstract);
    }
    if word == b"struct".as_slice() {
        return Some(Word::Struct);
    }
    if word == b"function".as_slice() {
        return Some(Word::Function);
    }
    if word == b"if".as_slice() {
        return Some(Word::If);
    }
    if word == b"begin".as_slice() {
        return Some(Word::Begin);
    }
    if word == b"quote".as_slice() {
        return Some(Word::Quote);
    }
    if word == b"return".as_slice() {
        return Some(Word::Return);
    }
    if word == b"where".as_slice() {
        return Some(Word::Where);
    }
    None
}

/// The other reserved words with a rule.
fn closing_word(word: &[u8]) -> Option<Word>
    ensures { result ≡ closing_word word.now }
{
    if word == b"end".as_slice() {
        return Some(Word::End);
    }
    if word == b"elseif".as_slice() {
        return Some(Word::Elseif);
    }
    if word == b"else".as_slice() {
        return Some(Word::Else);
    }
    if word == b"true".as_slice() {
        return Some(Word::True);
    }
    if word == b"false".as_slice() {
        return Some(Word::False);
    }
    if word == b"nothing".as_slice() {
        return Some(Word::Nothing);
    }
    if word == b"isa".as_slice() {
        return Some(Word::Isa);
    }
    None
}

/// The reserved word that these bytes are. A name that begins as no reserved word does is not looked for.
fn reserved_word(word: &[u8]) -> Option<Word>
    ensures { result ≡ reserved_word word.now }
{
    if !may_be_reserved(word) {
        return None;
    }
    match opening_word(word) {
        Some(found) => Some(found),
        None => match closing_word(word) {
            Some(found) => Some(found),
            None if is_unruled(word) => Some(Word::Unruled),
            None => None,
        },
    }
}

/// The terminal of an identifier: a reserved word, or a name.
fn word_or_name(name: &Bytes) -> Result<Terminal, AllocError>
    ensures { IfOk result (λ s. s ≡ word_or_name name.now) }
{
    match reserved_word(name.as_slice()) {
        Some(word) => Ok(Terminal::Word(word)),
        None => Ok(Terminal::Name(name.copy()?)),
    }
}

/// What the grammars see of a token.
fn terminal_of(kind: &TokenKind) -> Result<Terminal, AllocError>
    ensures { IfOk result (λ s. s ≡ terminal_of kind.now) }
{
    match kind {
        TokenKind::Identifier(name) => word_or_name(name),
        TokenKind::Number(number) => Ok(Terminal::Number(*number)),
        TokenKind::Negative(number) => Ok(Terminal::Number(*number)),
        TokenKind::Text(text) => Ok(Terminal::Text(text.copy()?)),
        TokenKind::Macro(name) => Ok(Terminal::Macro(name.copy()?)),
        TokenKind::Operator(operator) => Ok(Terminal::Operator(*operator)),
        TokenKind::Newline => Ok(Terminal::Newline),
        TokenKind::End => Ok(Terminal::End),
    }
}

impl Lexeme {
    /// A token as the grammars see it. Its bytes are shared, so it takes no memory.
    pub fn of(token: &Token) -> Result<Lexeme, AllocError>
        ensures { IfOk result (λ l. l ≡ lexeme_of token.now) }
    {
        let terminal = terminal_of(&token.kind)?;
        let at = token.at;
        Ok(Lexeme { terminal, at })
    }
}
