//! Lines of a word and what belongs to it.

ghost use Rattle.std.specs.Prelude.{◌≡◌, ◌++◌, decimal, OnOk};
ghost use Rattle.jl_report.specs.HistoryText.{spaced, number_line, text_line, escaped, all_escaped, quoted};

use itoa::Buffer;
use jl_model::rows::Row;
use std::alloc::AllocError;

/// A number in decimal.
pub(crate) fn append_number(out: &mut Row<u8>, number: u64) -> Result<(), AllocError>
    ensures { OnOk result (out.new ≡ out.old ++ decimal number) }
{
    let mut buffer = Buffer::new();
    out.append(buffer.format(number).as_bytes())
}

/// Numbers, each with a space before it.
pub(crate) fn append_spaced(out: &mut Row<u8>, numbers: &[u64]) -> Result<(), AllocError>
    ensures { OnOk result (out.new ≡ out.old ++ spaced numbers.now) }
{
    for number in numbers {
        out.append(b" ")?;
        append_number(out, *number)?;
    }
    Ok(())
}

/// A line of a word and numbers.
pub(crate) fn append_numbers(
    out: &mut Row<u8>,
    word: &[u8],
    numbers: &[u64],
) -> Result<(), AllocError>
    ensures { OnOk result (out.new ≡ out.old ++ number_line word.now numbers.now) }
{
    out.append(word)?;
    append_spaced(out, numbers)?;
    out.append(b"\n")
}

/// A byte as it stands in quotes.
fn append_escaped(out: &mut Row<u8>, byte: u8) -> Result<(), AllocError>
    ensures { OnOk result (out.new ≡ out.old ++ escaped byte) }
{
    match byte {
        b'\\' => out.append(b"\\\\"),
        b'"' => out.append(b"\\\""),
        b'\n' => out.append(b"\\n"),
        b'\r' => out.append(b"\\r"),
        plain => out.push(plain),
    }
}

/// Bytes as they stand in quotes.
fn append_all_escaped(out: &mut Row<u8>, bytes: &[u8]) -> Result<(), AllocError>
    ensures { OnOk result (out.new ≡ out.old ++ all_escaped bytes.now) }
{
    for byte in bytes {
        append_escaped(out, *byte)?;
    }
    Ok(())
}

/// Bytes in quotes.
fn append_quoted(out: &mut Row<u8>, bytes: &[u8]) -> Result<(), AllocError>
    ensures { OnOk result (out.new ≡ out.old ++ quoted bytes.now) }
{
    out.append(b"\"")?;
    append_all_escaped(out, bytes)?;
    out.append(b"\"")
}

/// A line of a word and bytes in quotes.
pub(crate) fn append_quoted_line(
    out: &mut Row<u8>,
    word: &[u8],
    bytes: &[u8],
) -> Result<(), AllocError>
    ensures { OnOk result (out.new ≡ out.old ++ text_line word.now (quoted bytes.now)) }
{
    out.append(word)?;
    append_quoted(out, bytes)?;
    out.append(b"\n")
}
