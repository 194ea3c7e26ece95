//! What a word may be.

ghost use Rattle.std.specs.Prelude.{◌≡◌, not, length, take, drop, map, bytes_eq};
ghost use Rattle.std.specs.List.{list_all};
ghost use Rattle.jl_command.specs.Rule.{is_digit, is_value, begins_with_hyphen, is_known, form_of, first_verb, verb_of, are_known, opening};
ghost use Rattle.jl_command.specs.Texts.{texts};

use crate::commands::Verb;

/// How many digits a value has at most.
pub const MOST_DIGITS: usize = 10;

/// Whether a byte is a digit.
fn is_digit(byte: u8) -> bool
    ensures { result ≡ is_digit byte }
{
    byte >= b'0' && byte <= b'9'
}

/// Whether all bytes are digits.
fn are_digits(bytes: &[u8]) -> bool
    ensures { result ≡ list_all is_digit bytes.now }
{
    for byte in bytes {
        if !is_digit(*byte) {
            return false;
        }
    }
    true
}

/// Whether a word is a value: one to ten digits.
pub(crate) fn is_value(word: &[u8]) -> bool
    ensures { result ≡ is_value word.now }
{
    word.len() >= 1 && word.len() <= MOST_DIGITS && are_digits(word)
}

/// Whether a word begins with these bytes.
fn begins_with(word: &[u8], start: &[u8]) -> bool
    ensures { result ≡ bytes_eq (take (length start.now) word.now) start.now }
{
    &word[..word.len().min(start.len())] == start
}

/// Whether a word begins with a hyphen, as an option does.
fn begins_with_hyphen(word: &[u8]) -> bool
    ensures { result ≡ begins_with_hyphen word.now }
{
    match word.first() {
        Some(byte) => *byte == b'-',
        None => false,
    }
}

/// Whether a word may stand after the first: an option, an option with its value, or a word that does not begin with a hyphen.
fn is_known(word: &[u8]) -> bool
    ensures { result ≡ is_known (form_of word.now) }
{
    if word == b"--threads".as_slice() || word == b"--fuel".as_slice() {
        true
    } else if begins_with(word, b"--threads=") || begins_with(word, b"--fuel=") {
        true
    } else {
        !begins_with_hyphen(word)
    }
}

/// Whether all words may stand after the first.
fn are_known(words: &[&str]) -> bool
    ensures { result ≡ are_known (texts words.now) }
{
    for word in words {
        if !is_known(word.as_bytes()) {
            return false;
        }
    }
    true
}

/// Whether all words but the first may stand where they do.
fn rest_is_known(words: &[&str]) -> bool
    ensures { result ≡ are_known (drop 1 (texts words.now)) }
{
    are_known(&words[words.len().min(1)..])
}

/// What a word asks for, where it stands first.
fn verb_of(word: &[u8]) -> Option<Verb>
    ensures { result ≡ verb_of word.now }
{
    if word == b"check".as_slice() {
        Some(Verb::Check)
    } else if word == b"replay".as_slice() {
        Some(Verb::Replay)
    } else if word == b"run".as_slice() {
        Some(Verb::Run)
    } else if word == b"trace".as_slice() {
        Some(Verb::Trace)
    } else if word == b"ambiguous".as_slice() {
        Some(Verb::Ambiguous)
    } else if word == b"gen".as_slice() {
        Some(Verb::Gen)
    } else if word == b"which".as_slice() {
        Some(Verb::Which)
    } else {
        None
    }
}

/// What words ask for, by the first.
fn first_verb(words: &[&str]) -> Option<Verb>
    ensures { result ≡ first_verb (texts words.now) }
{
    match words.first() {
        Some(word) => verb_of(word.as_bytes()),
        None => None,
    }
}

/// What words ask for, by the first, where the others may stand where they do.
pub(crate) fn opening(words: &[&str]) -> Option<Verb>
    ensures { result ≡ opening (texts words.now) }
{
    if rest_is_known(words) {
        first_verb(words)
    } else {
        None
    }
}
