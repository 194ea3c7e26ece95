//! The tokens of a whole source.

ghost use Rattle.std.specs.Prelude.{◌≡◌, ◌≤◌, ◌<◌, ◌^◌, length, IfOk, Err, true};
ghost use Rattle.std.specs.Str.{chars, IsUtf8};
ghost use Rattle.jl_model.specs.declared.limits.TheConstants.{MOST_SOURCE_BYTES};
ghost use Rattle.jl_token.specs.Grammar.{EndsOnce, IsOnly, Reads, ReadsBytes, ReadsSource, RefusesBadUtf8, UnlessMemory};
ghost use Rattle.jl_token.specs.declared.token.TokenFault.TheVariants.{SourceTooLong};

use crate::characters::place;
use crate::known::KnownWords;
use crate::pieces::piece;
use crate::prefix::is_prefix_after;
use crate::token::{Token, TokenFault, TokenKind, Tokens};
use jl_model::limits::MOST_SOURCE_BYTES;
use jl_model::shared::SharedList;
use std::alloc::Global;
use std::str;

/// The tokens of a text.
fn read(alloc: Global, source: &str) -> Result<Tokens, TokenFault>
    requires { length source.now < 2 ^ 32 }
    ensures { UnlessMemory result (Reads (length source.now) true (chars source.now)) }
{
    let bytes = source.len();
    let mut known = KnownWords::new(alloc)?;
    let mut found = Vec::new(alloc);
    let mut prefix = true;
    let mut rest = source;
    while !rest.is_empty() {
        let (kind, after) = piece(&mut known, bytes, prefix, rest)?;
        if let Some(kind) = kind {
            prefix = is_prefix_after(&kind);
            let at = place(bytes, rest);
            found.push(Token { kind, at })?;
        }
        rest = after;
    }
    let at = bytes as u32;
    found.push(Token {
        kind: TokenKind::End,
        at,
    })?;
    Ok(SharedList::from_vec(alloc, found)?)
}

/// The tokens of a text in bytes.
fn read_bytes(alloc: Global, text: &[u8]) -> Result<Tokens, TokenFault>
    requires { length text.now < 2 ^ 32 }
    ensures reads { UnlessMemory result (ReadsBytes text.now) }
    ensures bad_utf8 { RefusesBadUtf8 text.now result }
{
    match str::from_utf8(text) {
        Ok(text) => read(alloc, text),
        Err(error) => Err(TokenFault::BadUtf8(error.valid_up_to() as u32)),
    }
}

/// The tokens of a source of at most 1,048,576 bytes. The last token, and no other, is the source's end.
///
/// # Errors
///
/// `SourceTooLong`; then `BadUtf8`, at the first byte that belongs to no character; then the first fault in the order
/// of the text. Besides, `Memory`, but neither for a source that is too long nor for one that is no UTF-8.
pub fn tokens(alloc: Global, source: &[u8]) -> Result<Tokens, TokenFault>
    ensures reads { UnlessMemory result (ReadsSource source.now) }
    ensures only { IsOnly result (ReadsSource source.now) }
    ensures end { IfOk result (EndsOnce (length source.now)) }
    ensures too_long { MOST_SOURCE_BYTES < length source.now → result ≡ Err SourceTooLong }
    ensures bad_utf8 { length source.now ≤ MOST_SOURCE_BYTES → RefusesBadUtf8 source.now result }
{
    if source.len() > MOST_SOURCE_BYTES {
        return Err(TokenFault::SourceTooLong);
    }
    read_bytes(alloc, source)
}

/// The tokens of a text of at most 67,108,864 bytes, as those of a source.
///
/// # Errors
///
/// As `tokens` has them, but for `SourceTooLong`.
pub fn line_tokens(alloc: Global, text: &[u8]) -> Result<Tokens, TokenFault>
    requires { length text.now ≤ 67108864 }
    ensures reads { UnlessMemory result (ReadsBytes text.now) }
    ensures only { IsOnly result (ReadsBytes text.now) }
    ensures end { IfOk result (EndsOnce (length text.now)) }
    ensures bad_utf8 { RefusesBadUtf8 text.now result }
{
    read_bytes(alloc, text)
}
