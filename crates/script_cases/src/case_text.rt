//! The text of a case, without its escapes.

use std::alloc::AllocError;

/// The most times that one escape repeats its character.
const MOST: usize = 1_000_000;

/// What is open behind a byte of a case.
#[derive(Clone, Copy)]
enum Escape {
    Nothing,
    /// `\` and a number
    Repeat(usize),
    /// `\x`
    Byte,
    /// `\x` and the value of a digit
    HalfByte(u8),
}

/// Puts a byte so many times behind a text.
fn repeat(text: &mut Vec<u8>, byte: u8, count: usize) -> Result<(), AllocError> {
    for _ in 0..count {
        text.push(byte)?;
    }
    Ok(())
}

/// The character that an escape ends with.
fn escaped(byte: u8) -> u8 {
    match byte {
        b'n' => b'\n',
        byte => byte,
    }
}

/// The number with one digit more, or none where the byte is no digit.
fn with_digit(count: usize, byte: u8) -> Option<usize> {
    if !byte.is_ascii_digit() {
        return None;
    }
    Some(
        count
            .saturating_mul(10)
            .saturating_add((byte - b'0') as usize),
    )
}

/// The value of a hexadecimal digit.
fn hex_value(byte: u8) -> u8 {
    match byte {
        b'0'..=b'9' => byte - b'0',
        b'a'..=b'f' => byte - b'a' + 10,
        _ => 0,
    }
}

/// Puts a byte behind the text, where it is no digit of the escape; the answer is the escape that goes on.
fn put_repeated(text: &mut Vec<u8>, count: usize, byte: u8) -> Result<Escape, AllocError> {
    if let Some(more) = with_digit(count, byte) {
        return Ok(Escape::Repeat(more));
    }
    if byte == b'x' {
        return Ok(Escape::Byte);
    }
    repeat(text, escaped(byte), count.clamp(1, MOST))?;
    Ok(Escape::Nothing)
}

/// Puts a byte of a case behind a text, as the escape before it says; the answer is the escape that goes on.
fn put_byte(text: &mut Vec<u8>, escape: Escape, byte: u8) -> Result<Escape, AllocError> {
    match escape {
        Escape::Nothing => {
            if byte == b'\\' {
                return Ok(Escape::Repeat(0));
            }
            text.push(byte)?;
            Ok(Escape::Nothing)
        }
        Escape::Repeat(count) => put_repeated(text, count, byte),
        Escape::Byte => Ok(Escape::HalfByte(hex_value(byte))),
        Escape::HalfByte(high) => {
            text.push((high << 4) | hex_value(byte))?;
            Ok(Escape::Nothing)
        }
    }
}

/// Puts the text of a case behind the text.
pub fn expand(text: &mut Vec<u8>, case: &[u8]) -> Result<(), AllocError> {
    let mut escape = Escape::Nothing;
    for byte in case {
        escape = put_byte(text, escape, *byte)?;
    }
    Ok(())
}

/// Puts a line as it stands behind the text.
pub fn put_line(text: &mut Vec<u8>, line: &[u8]) -> Result<(), AllocError> {
    text.extend_from_slice(line)?;
    text.push(b'\n')?;
    Ok(())
}
