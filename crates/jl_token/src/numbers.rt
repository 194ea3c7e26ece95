//! Numbers: the value of digits, and what may not stand behind them.

ghost use Rattle.std.specs.Prelude.{◌≡◌, ◌≤◌, ◌<◌, true, ◌^◌, ◌-◌, ◌==◌, ◌&&◌, length, min};
ghost use Rattle.std.specs.Char.{is_ascii_digit};
ghost use Rattle.std.specs.Str.{chars};
ghost use Rattle.jl_token.specs.Characters.{has_first};
ghost use Rattle.jl_token.specs.Reading.{digits};

use crate::characters::{has_digit_first, split_first};

/// Whether the character is a `_` before a digit.
fn is_separator(first: char, after: &str) -> bool
    ensures { result ≡ ((first == 95) && has_first is_ascii_digit (chars after.now)) }
{
    first == '_' && has_digit_first(after)
}

/// The value of the digits at the front, with single `_` between digits, and what follows them. A value that is too
/// large for a `u64` is the greatest one.
pub fn digits(text: &str) -> (u64, &str)
    ensures value { result.0 ≡ min (digits 0 (chars text.now)).0 (2 ^ 64 - 1) }
    ensures rest { chars result.1.now ≡ (digits 0 (chars text.now)).1 }
    ensures shorter { length result.1.now ≤ length text.now }
    ensures progress { has_first is_ascii_digit (chars text.now) ≡ true
        → length result.1.now < length text.now }
{
    let mut value: u64 = 0;
    let mut rest = text;
    while let Some((first, after)) = split_first(rest) {
        if first.is_ascii_digit() {
            value = value
                .saturating_mul(10)
                .saturating_add(first as u64 - '0' as u64);
        } else if !is_separator(first, after) {
            break;
        }
        rest = after;
    }
    (value, rest)
}
