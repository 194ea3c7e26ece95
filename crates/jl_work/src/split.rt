//! Where a text is parted by a line.

ghost use Rattle.std.specs.Prelude.{◌≡◌, slice_get};
ghost use Rattle.jl_work.specs.Split.{ends_line, begins_with, begins_one, separator_among, texts};

/// Whether a line ends at a place: there is a newline, or no byte.
fn ends_line(bytes: &[u8], place: usize) -> bool
    ensures { result ≡ ends_line (slice_get bytes.now place) }
{
    match bytes.get(place) {
        Some(byte) => *byte == b'\n',
        None => true,
    }
}

/// Whether the line at the front is exactly this one.
fn begins_with(line: &[u8], bytes: &[u8]) -> bool
    ensures { result ≡ begins_with line.now bytes.now }
{
    let front = &bytes[..bytes.len().min(line.len())];
    front == line && ends_line(bytes, line.len())
}

/// Whether the line at the front is exactly one of these.
fn begins_one(lines: &[&[u8]], bytes: &[u8]) -> bool
    ensures { result ≡ begins_one (texts lines.now) bytes.now }
{
    for line in lines {
        if begins_with(line, bytes) {
            return true;
        }
    }
    false
}

/// The place of the first line of a text that is exactly one of these. A newline at its end is no part of a line.
pub fn separator_among(lines: &[&[u8]], bytes: &[u8]) -> Option<usize>
    ensures { result ≡ separator_among (texts lines.now) bytes.now }
{
    let mut begins_line = true;
    for (place, byte) in bytes.iter().enumerate() {
        if begins_line && begins_one(lines, &bytes[place..]) {
            return Some(place);
        }
        begins_line = *byte == b'\n';
    }
    None
}
