//! Comments: how far one goes.

ghost use Rattle.std.specs.Prelude.{◌≡◌, ◌≤◌, ◌<◌, ◌^◌, length, MatchOption, None, Some};
ghost use Rattle.std.specs.Str.{chars};
ghost use Rattle.jl_token.specs.Characters.{is_comment_end, is_comment_start};
ghost use Rattle.jl_token.specs.Reading.{after_line, after_comment};

use crate::characters::split_first;

/// What follows the line: its newline, or nothing.
pub fn after_line(text: &str) -> &str
    ensures rest { chars result.now ≡ after_line (chars text.now) }
    ensures shorter { length result.now ≤ length text.now }
{
    let mut rest = text;
    while let Some((first, after)) = split_first(rest) {
        if first == '\n' {
            break;
        }
        rest = after;
    }
    rest
}

/// Whether the two characters are `=#`.
fn is_comment_end(first: char, second: char) -> bool
    ensures { result ≡ is_comment_end first second }
{
    first == '=' && second == '#'
}

/// Whether the two characters are `#=`.
fn is_comment_start(first: char, second: char) -> bool
    ensures { result ≡ is_comment_start first second }
{
    first == '#' && second == '='
}

/// What follows the end of a block comment, if it has one. The text stands behind its `#=`.
pub fn after_comment(text: &str) -> Option<&str>
    requires { length text.now < 2 ^ 32 }
    ensures rest { MatchOption result (after_comment 0 (chars text.now)
        ≡ None) (λ rest. after_comment 0 (chars text.now) ≡ Some (chars rest.now)) }
    ensures shorter { MatchOption result (Unit {0}) (λ rest. length rest.now ≤ length text.now) }
{
    let mut around: u32 = 0;
    let mut rest = text;
    while let Some((first, after)) = split_first(rest) {
        let (second, behind) = split_first(after)?;
        if is_comment_end(first, second) {
            if around == 0 {
                return Some(behind);
            }
            around -= 1;
            rest = behind;
        } else if is_comment_start(first, second) {
            around += 1;
            rest = behind;
        } else {
            rest = after;
        }
    }
    None
}
