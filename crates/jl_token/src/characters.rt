//! The characters at the front of a text, and where a rest of the source begins.

ghost use Rattle.std.specs.Prelude.{◌≡◌, ◌∷◌, ◌≤◌, ◌<◌, ◌^◌, ◌+◌, length, [], MatchOption};
ghost use Rattle.std.specs.Char.{is_ascii_digit};
ghost use Rattle.std.specs.Str.{chars};
ghost use Rattle.jl_token.specs.Characters.{is_word_start, is_word_part, is_blank, is_wrong_after_number, has_first, place};

/// The first character, and what follows it.
pub fn split_first(text: &str) -> Option<(char, &str)>
    ensures split { MatchOption result (chars text.now ≡ []) (λ p. chars text.now
        ≡ p.0 ∷ chars p.1.now) }
    ensures shorter { MatchOption result (text.now ≡ []) (λ p. length p.1.now < length text.now) }
{
    let mut rest = text.chars();
    let first = rest.next()?;
    Some((first, rest.as_str()))
}

/// Whether an identifier may begin with the character.
pub fn is_word_start(character: char) -> bool
    ensures { result ≡ is_word_start character }
{
    unicode_ident::is_xid_start(character) || character == '_'
}

/// Whether the character may stand in an identifier behind its first one.
pub fn is_word_part(character: char) -> bool
    ensures { result ≡ is_word_part character }
{
    unicode_ident::is_xid_continue(character) || character == '_'
}

/// Whether the character only separates tokens.
pub fn is_blank(character: char) -> bool
    ensures { result ≡ is_blank character }
{
    character == ' ' || character == '\t' || character == '\r'
}

/// Whether the text begins with a digit.
pub fn has_digit_first(text: &str) -> bool
    ensures { result ≡ has_first is_ascii_digit (chars text.now) }
{
    match split_first(text) {
        Some((first, _)) => first.is_ascii_digit(),
        None => false,
    }
}

/// Whether the text begins with a character that may begin an identifier.
pub fn has_word_first(text: &str) -> bool
    ensures { result ≡ has_first is_word_start (chars text.now) }
{
    match split_first(text) {
        Some((first, _)) => is_word_start(first),
        None => false,
    }
}

/// Whether the text begins with a character that may not stand directly behind a number.
pub fn is_wrong_after_number(text: &str) -> bool
    ensures { result ≡ has_first is_wrong_after_number (chars text.now) }
{
    match split_first(text) {
        Some((first, _)) => first == '.' || is_word_start(first),
        None => false,
    }
}

/// Where the rest of a source of so many bytes begins.
pub fn place(bytes: usize, rest: &str) -> u32
    requires within { length rest.now ≤ bytes }
    requires small { bytes < 2 ^ 32 }
    ensures { result ≡ place bytes (chars rest.now) }
{
    (bytes - rest.len()) as u32
}
