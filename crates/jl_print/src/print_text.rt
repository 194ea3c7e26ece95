//! The text that tokens are printed by.

ghost use Rattle.std.specs.Prelude.{◌≡◌, ◌++◌, ◌∷◌, [], OnOk};
ghost use Rattle.std.specs.Fmt.{signed_decimal};
ghost use Rattle.jl_print.specs.Spelling.{word_text, is_special, escape_byte, escape_text, operator_text, terminal_text, is_negative, is_negative_number, is_prefix_word, is_prefix, gap, text_from, text_of};
ghost use Rattle.jl_token.specs.Prefix.{is_closing_bracket};

use itoa::Buffer;
use jl_model::rows::Row;
use jl_token::token::Operator;
use jl_typeread::terminal::{Terminal, Word};
use std::alloc::AllocError;

/// The bytes of a reserved word.
fn word_text(word: Word) -> &'static [u8]
    ensures { result.now ≡ word_text word }
{
    match word {
        Word::Abstract => b"abstract",
        Word::Struct => b"struct",
        Word::Function => b"function",
        Word::End => b"end",
        Word::If => b"if",
        Word::Elseif => b"elseif",
        Word::Else => b"else",
        Word::Begin => b"begin",
        Word::Quote => b"quote",
        Word::Return => b"return",
        Word::Where => b"where",
        Word::True => b"true",
        Word::False => b"false",
        Word::Nothing => b"nothing",
        Word::Isa => b"isa",
        Word::Unruled => b"",
    }
}

/// The bytes of an operator.
fn operator_text(operator: Operator) -> &'static [u8]
    ensures { result.now ≡ operator_text operator }
{
    match operator {
        Operator::Identical => b"===",
        Operator::NotIdentical => b"!==",
        Operator::HasType => b"::",
        Operator::Subtype => b"<:",
        Operator::Supertype => b">:",
        Operator::Equal => b"==",
        Operator::NotEqual => b"!=",
        Operator::LessEqual => b"<=",
        Operator::GreaterEqual => b">=",
        Operator::And => b"&&",
        Operator::Or => b"||",
        Operator::Assign => b"=",
        Operator::Less => b"<",
        Operator::Greater => b">",
        Operator::Plus => b"+",
        Operator::Minus => b"-",
        Operator::Times => b"*",
        Operator::Divide => b"\xc3\xb7",
        Operator::Remainder => b"%",
        Operator::Not => b"!",
        Operator::Question => b"?",
        Operator::Colon => b":",
        Operator::Dot => b".",
        Operator::Comma => b",",
        Operator::Semicolon => b";",
        Operator::OpenParen => b"(",
        Operator::CloseParen => b")",
        Operator::OpenBracket => b"[",
        Operator::CloseBracket => b"]",
        Operator::OpenBrace => b"{",
        Operator::CloseBrace => b"}",
    }
}

/// Whether the byte does not stand for itself in a string.
fn is_special(byte: u8) -> bool
    ensures { result ≡ is_special byte }
{
    byte == b'"' || byte == b'\\' || byte == b'$'
}

/// A byte of a string.
fn put_byte(out: &mut Row<u8>, byte: u8) -> Result<(), AllocError>
    ensures { OnOk result (out.new ≡ out.old ++ escape_byte byte) }
{
    if is_special(byte) {
        out.push(b'\\')?;
    }
    out.push(byte)
}

/// The bytes of a string between its quotes.
fn put_escaped(out: &mut Row<u8>, text: &[u8]) -> Result<(), AllocError>
    ensures { OnOk result (out.new ≡ out.old ++ escape_text text.now) }
{
    for byte in text {
        put_byte(out, *byte)?;
    }
    Ok(())
}

/// A string with its quotes, and a space.
fn put_string(out: &mut Row<u8>, text: &[u8]) -> Result<(), AllocError>
    ensures { OnOk result (out.new ≡ out.old ++ 34 ∷ (escape_text text.now ++ 34 ∷ 32 ∷ [])) }
{
    out.push(b'"')?;
    put_escaped(out, text)?;
    out.append(b"\" ")
}

/// A number, and a space.
fn put_number(out: &mut Row<u8>, number: i64) -> Result<(), AllocError>
    ensures { OnOk result (out.new ≡ out.old ++ (signed_decimal number ++ 32 ∷ [])) }
{
    let mut buffer = Buffer::new();
    out.append(buffer.format(number).as_bytes())?;
    out.append(b" ")
}

/// These bytes, and a space.
fn put_spaced(out: &mut Row<u8>, bytes: &[u8]) -> Result<(), AllocError>
    ensures { OnOk result (out.new ≡ out.old ++ (bytes.now ++ 32 ∷ [])) }
{
    out.append(bytes)?;
    out.append(b" ")
}

/// A token with what stands behind it.
fn put_terminal(out: &mut Row<u8>, terminal: &Terminal) -> Result<(), AllocError>
    ensures { OnOk result (out.new ≡ out.old ++ terminal_text terminal.now) }
{
    match terminal {
        Terminal::Name(name) => put_spaced(out, name.as_slice()),
        Terminal::Word(word) => put_spaced(out, word_text(*word)),
        Terminal::Number(number) => put_number(out, *number),
        Terminal::Text(text) => put_string(out, text.as_slice()),
        Terminal::Macro(name) => {
            out.push(b'@')?;
            put_spaced(out, name.as_slice())
        }
        Terminal::Operator(operator) => put_spaced(out, operator_text(*operator)),
        Terminal::Newline => out.push(b'\n'),
        Terminal::End => Ok(()),
    }
}

/// Whether the token is a number below 0.
fn is_negative(terminal: &Terminal) -> bool
    ensures { result ≡ is_negative terminal.now }
{
    match terminal {
        Terminal::Number(number) => *number < 0,
        _ => false,
    }
}

/// Whether the place behind the word is a prefix place.
fn is_prefix_word(word: Word) -> bool
    ensures { result ≡ is_prefix_word word }
{
    match word {
        Word::End | Word::True | Word::False | Word::Nothing => false,
        _ => true,
    }
}

/// Whether the operator closes a bracket.
fn is_closing_bracket(operator: Operator) -> bool
    ensures { result ≡ is_closing_bracket operator }
{
    match operator {
        Operator::CloseParen | Operator::CloseBracket | Operator::CloseBrace => true,
        _ => false,
    }
}

/// Whether the place behind the token is a prefix place, where `-` before a digit is the sign of a number.
fn is_prefix(terminal: &Terminal) -> bool
    ensures { result ≡ is_prefix terminal.now }
{
    match terminal {
        Terminal::Operator(operator) => !is_closing_bracket(*operator),
        Terminal::Word(word) => is_prefix_word(*word),
        Terminal::Newline => true,
        _ => false,
    }
}

/// What stands before a token, in a prefix place or not.
fn put_gap(out: &mut Row<u8>, free: bool, terminal: &Terminal) -> Result<(), AllocError>
    ensures { OnOk result (out.new ≡ out.old ++ gap free terminal.now) }
{
    if is_negative(terminal) && !free {
        return out.push(b'\n');
    }
    Ok(())
}

/// The text of tokens.
pub(crate) fn put_terminals(out: &mut Row<u8>, terminals: &[Terminal]) -> Result<(), AllocError>
    ensures { OnOk result (out.new ≡ out.old ++ text_of terminals.now) }
{
    let mut free = true;
    for terminal in terminals {
        put_gap(out, free, terminal)?;
        put_terminal(out, terminal)?;
        free = is_prefix(terminal);
    }
    Ok(())
}
