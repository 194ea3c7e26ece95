//! Identifiers.

ghost use Rattle.std.specs.Prelude.{◌≡◌, ◌∷◌, ◌<◌, [], length, MatchOption};
ghost use Rattle.std.specs.List.{list_all};
ghost use Rattle.std.specs.Str.{chars};
ghost use Rattle.jl_program.specs.Names.{starts_name, continues_name, is_word, is_identifier};

use std::str;

/// The first character, and what comes after it.
fn split_first(text: &str) -> Option<(char, &str)>
    ensures split { MatchOption result (chars text.now ≡ []) (λ p. chars text.now ≡ p.0 ∷ chars p.1.now) }
    ensures shorter { MatchOption result (text.now ≡ []) (λ p. length p.1.now < length text.now) }
{
    let mut rest = text.chars();
    let first = rest.next()?;
    Some((first, rest.as_str()))
}

/// Whether a character may begin an identifier.
fn starts_name(character: char) -> bool
    ensures { result ≡ starts_name character }
{
    unicode_ident::is_xid_start(character) || character == '_'
}

/// Whether a character may come after the first one of an identifier.
fn continues_name(character: char) -> bool
    ensures { result ≡ continues_name character }
{
    unicode_ident::is_xid_continue(character) || character == '_'
}

/// Whether all characters of a text may come after the first one of an identifier.
fn all_continue(text: &str) -> bool
    ensures { result ≡ list_all continues_name (chars text.now) }
{
    let mut rest = text;
    while let Some((first, after)) = split_first(rest) {
        if !continues_name(first) {
            return false;
        }
        rest = after;
    }
    true
}

/// Whether a text is an identifier.
fn is_word(text: &str) -> bool
    ensures { result ≡ is_word (chars text.now) }
{
    match split_first(text) {
        Some((first, rest)) => starts_name(first) && all_continue(rest),
        None => false,
    }
}

/// Whether bytes are an identifier in UTF-8.
pub(crate) fn is_identifier(bytes: &[u8]) -> bool
    ensures { result ≡ is_identifier bytes.now }
{
    match str::from_utf8(bytes) {
        Ok(text) => is_word(text),
        Err(_) => false,
    }
}
