//! Bytes that are cut at a byte: into the words of a line, and into lines.

ghost use Rattle.std.specs.Prelude.{◌≡◌, ◌<◌, ◌∷◌, Some, None, MatchOption, length};
ghost use Rattle.jl_embed.specs.Cuts.{cut};
ghost use Rattle.jl_embed.specs.Requests.{lines_of};

use memchr::memchr;

/// What comes before the first of these bytes, and what comes after it.
pub(crate) fn cut(mark: u8, text: &[u8]) -> Option<(&[u8], &[u8])>
    ensures { MatchOption result (cut mark text.now ≡ None) (λ x. cut mark text.now ≡ Some (x.0.now, x.1.now)) }
{
    let Some(place) = memchr(mark, text) else {
        return None;
    };
    let (before, after) = text.split_at(place);
    Some((before, &after[1..]))
}

/// The first line of a text, without its newline, and what comes after it.
pub(crate) fn first_line(text: &[u8]) -> (&[u8], &[u8])
    requires { 0 < length text.now }
    ensures lines { lines_of text.now ≡ result.0.now ∷ lines_of result.1.now }
    ensures shorter { length result.1.now < length text.now }
{
    match cut(b'\n', text) {
        Some((line, after)) => (line, after),
        None => (text, &[]),
    }
}
