//! The bytes that a line spells.

ghost use Rattle.std.specs.Prelude.{◌<◌};

use jl_model::rows::Row;
use std::alloc::{AllocError, Global};

/// What a hexadecimal digit is worth, and 0 for another byte.
fn digit(byte: u8) -> u8
    ensures { result < 16 }
{
    if byte >= b'0' && byte <= b'9' {
        byte - b'0'
    } else if byte >= b'A' && byte <= b'F' {
        byte - b'A' + 10
    } else {
        0
    }
}

/// The bytes of a piece, in which `|` is a newline and `^` begins a byte by its number.
fn append_piece(out: &mut Row<u8>, piece: &[u8]) -> Result<(), AllocError> {
    let mut rest = piece;
    loop {
        match rest {
            [b'^', high, low, after @ ..] => {
                out.push(digit(*high) * 16 + digit(*low))?;
                rest = after;
            }
            [b'|', after @ ..] => {
                out.push(b'\n')?;
                rest = after;
            }
            [byte, after @ ..] => {
                out.push(*byte)?;
                rest = after;
            }
            [] => return Ok(()),
        }
    }
}

/// A piece so many times.
fn append_times(out: &mut Row<u8>, count: &str, piece: &str) -> Result<(), AllocError> {
    let count = count.parse::<u32>().unwrap_or(0);
    for _ in 0..count {
        append_piece(out, piece.as_bytes())?;
    }
    Ok(())
}

/// The bytes of a line.
pub fn bytes_of(alloc: Global, line: &str) -> Result<Row<u8>, AllocError> {
    let mut out = Row::new(alloc);
    for part in line.split('&') {
        match part.split_once('*') {
            Some((count, piece)) => append_times(&mut out, count, piece)?,
            None => append_piece(&mut out, part.as_bytes())?,
        }
    }
    Ok(out)
}
