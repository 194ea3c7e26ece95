//! The numbers of a line.

ghost use Rattle.std.specs.Prelude.{◌≡◌, ◌&&◌, nat_lt, nat_eq, length, slice_index};
ghost use Rattle.jl_embed.specs.Requests.{has_plus, method_in, signed_in, number_in};

use std::str;

/// The characters of the number of a method.
pub(crate) const MOST_METHOD_DIGITS: usize = 2;
/// The characters of a number, with its sign.
pub(crate) const MOST_NUMBER_LENGTH: usize = 20;

/// Whether a plus is the first byte. `parse` takes one, and no number of a line has one.
fn has_plus(text: &[u8]) -> bool
    ensures { result ≡ has_plus text.now }
{
    !text.is_empty() && text[0] == b'+'
}

/// The number of a method of a host with so many.
pub(crate) fn method(count: u32, text: &[u8]) -> Option<u32>
    ensures { result ≡ method_in count text.now }
{
    if text.len() > MOST_METHOD_DIGITS || has_plus(text) {
        return None;
    }
    let Ok(text) = str::from_utf8(text) else {
        return None;
    };
    let Ok(number) = text.parse::<u32>() else {
        return None;
    };
    if number < count { Some(number) } else { None }
}

/// A number, however long.
fn signed(text: &[u8]) -> Option<i64>
    ensures { result ≡ signed_in text.now }
{
    if has_plus(text) {
        return None;
    }
    let Ok(text) = str::from_utf8(text) else {
        return None;
    };
    let Ok(number) = text.parse::<i64>() else {
        return None;
    };
    Some(number)
}

/// A number.
pub(crate) fn number(text: &[u8]) -> Option<i64>
    ensures { result ≡ number_in text.now }
{
    if text.len() > MOST_NUMBER_LENGTH {
        return None;
    }
    signed(text)
}
