//! The fields of a line.

ghost use Rattle.std.specs.Prelude.{◌≡◌, ◌<◌, ◌^◌, ℕ, Some, decimal, MatchOption, None};
ghost use Rattle.jl_history.specs.Fields.{cut, is_padded, number_in, two_in, three_in};
ghost use Rattle.jl_history.specs.declared.fields.TheConstants.{MOST_NUMBER};

use memchr::memchr;
use std::str;

/// The greatest number of a line, except the fuel and the number of the items of a trace.
pub const MOST_NUMBER: u64 = 4_294_967_295;
/// The greatest number of the items of a trace.
pub const MOST_ITEMS: u64 = 18_446_744_073_709_551_615;

/// What stands before the first of these bytes, and what follows it.
pub(crate) fn cut(mark: u8, text: &[u8]) -> Option<(&[u8], &[u8])>
    ensures { MatchOption result (cut mark text.now ≡ None) (λ x. cut mark text.now ≡ Some (x.0.now, x.1.now)) }
{
    let Some(place) = memchr(mark, text) else {
        return None;
    };
    let (before, after) = text.split_at(place);
    Some((before, &after[1..]))
}

/// Whether a plus, or a zero before other digits, stands in front. `parse` takes these, and no decimal has them.
fn is_padded(text: &[u8]) -> bool
    ensures { result ≡ is_padded text.now }
{
    text.len() > 1 && (text[0] == b'0' || text[0] == b'+')
}

/// The number that a text is the decimal of.
fn spelled(text: &[u8]) -> Option<u64>
    ensures { MatchOption result ((n : ℕ) → n < 2 ^ 64 → text.now ≡ decimal n → ⊥) (λ n. (n < 2 ^ 64) × (text.now ≡ decimal n)) }
{
    if is_padded(text) {
        return None;
    }
    let Ok(text) = str::from_utf8(text) else {
        return None;
    };
    let Ok(number) = text.parse::<u64>() else {
        return None;
    };
    Some(number)
}

/// The number that a text is the decimal of, where it is at most so much.
pub(crate) fn number(most: u64, text: &[u8]) -> Option<u64>
    ensures { result ≡ number_in most text.now }
{
    let number = spelled(text)?;
    if number <= most { Some(number) } else { None }
}

/// The number of 32 bits that a text is the decimal of.
pub(crate) fn small(text: &[u8]) -> Option<u32>
    ensures { result ≡ number_in MOST_NUMBER text.now }
{
    let number = number(MOST_NUMBER, text)?;
    Some(number as u32)
}

/// Two numbers with a space between them.
pub(crate) fn two(text: &[u8]) -> Option<(u32, u32)>
    ensures { result ≡ two_in text.now }
{
    let (first, second) = cut(b' ', text)?;
    let first = small(first)?;
    let second = small(second)?;
    Some((first, second))
}

/// Three numbers, of which the last is at most so much.
pub(crate) fn three(most: u64, text: &[u8]) -> Option<(u32, u32, u64)>
    ensures { result ≡ three_in most text.now }
{
    let (first, rest) = cut(b' ', text)?;
    let (second, third) = cut(b' ', rest)?;
    let first = small(first)?;
    let second = small(second)?;
    let third = number(most, third)?;
    Some((first, second, third))
}

/// Three numbers of 32 bits.
pub(crate) fn three_small(text: &[u8]) -> Option<(u32, u32, u32)>
    ensures { result ≡ three_in MOST_NUMBER text.now }
{
    let (first, second, third) = three(MOST_NUMBER, text)?;
    Some((first, second, third as u32))
}
