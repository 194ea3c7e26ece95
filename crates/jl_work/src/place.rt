//! Where a fault of a source stands, and the line that tells it.

ghost use Rattle.std.specs.Prelude.{◌≡◌, ◌+◌, ◌++◌, ◌≤◌, ◌<◌, ◌^◌, [], ◌==◌, if◌then◌else◌, codes, decimal, length, take, IfOk, OnOk};
ghost use Rattle.jl_work.specs.Place.{newline, newlines, character, characters, last_line, fault_line};

use itoa::Buffer;
use jl_model::rows::Row;
use jl_model::ty::Bytes;
use std::alloc::{AllocError, Global};

/// The line of what stands behind these bytes, from 1.
fn line_behind(bytes: &[u8]) -> u64
    ensures { result ≡ 1 + newlines bytes.now }
{
    let mut line: u64 = 1;
    for byte in bytes {
        if *byte == b'\n' {
            line += 1;
        }
    }
    line
}

/// The column behind one more byte.
fn next_column(column: u64, byte: u8) -> u64
    requires { column < 2 ^ 63 }
    ensures { result ≡ (if byte == 10 then 1 else column + character byte) }
{
    if byte == b'\n' {
        1
    } else if byte >= 128 && byte < 192 {
        column
    } else {
        column + 1
    }
}

/// The column of what stands behind these bytes, from 1.
fn column_behind(bytes: &[u8]) -> u64
    ensures { result ≡ 1 + characters (last_line [] bytes.now) }
{
    let mut column: u64 = 1;
    for byte in bytes {
        column = next_column(column, *byte);
    }
    column
}

/// The bytes before a place.
fn bytes_before(bytes: &[u8], at: u32) -> &[u8]
    ensures { result.now ≡ take at bytes.now }
{
    &bytes[..bytes.len().min(at as usize)]
}

/// A number in decimal.
pub fn append_number(out: &mut Row<u8>, number: u64) -> Result<(), AllocError>
    ensures { OnOk result (out.new ≡ out.old ++ decimal number) }
{
    let mut buffer = Buffer::new();
    out.append(buffer.format(number).as_bytes())
}

/// A world, or the definition that made it, in decimal.
pub(crate) fn append_world(out: &mut Row<u8>, world: u32) -> Result<(), AllocError>
    ensures { OnOk result (out.new ≡ out.old ++ decimal world) }
{
    append_number(out, u64::from(world))
}

/// The line that tells a fault of a source by its place, which is an offset in bytes, and its name.
pub(crate) fn fault_line(
    alloc: Global,
    bytes: &[u8],
    at: u32,
    name: &[u8],
) -> Result<Bytes, AllocError>
    ensures { IfOk result (λ line. line ≡ fault_line bytes.now at name.now) }
{
    let before = bytes_before(bytes, at);
    let mut out = Row::new(alloc);
    out.append(b"ERROR: line ")?;
    append_number(&mut out, line_behind(before))?;
    out.append(b", column ")?;
    append_number(&mut out, column_behind(before))?;
    out.append(b": ")?;
    out.append(name)?;
    out.append(b"\n")?;
    out.into_shared(alloc)
}
