//! The table of the script that bytes are.

ghost use Rattle.std.specs.Prelude.{◌≡◌, IfOk, Ok};
ghost use Rattle.jl_token.specs.Grammar.{ReadsSource};
ghost use Rattle.jl_typeread.specs.Reads.{EndsAlone};
ghost use Rattle.jl_sites.specs.Table.{IsAnswer};

use crate::table::table;
use jl_model::ty::Bytes;
use jl_reader::fault::SyntaxFault;
use jl_reader::read;
use jl_token::token::{Token, TokenFault};
use jl_token::tokens;
use std::alloc::{AllocError, Global};
use std::mem::forget;

/// The table of the script that these tokens of the bytes are; none where they are no script.
fn sites_of(alloc: Global, bytes: &[u8], tokens: &[Token]) -> Result<Option<Bytes>, AllocError>
    requires ends { EndsAlone tokens.now }
    requires source { ReadsSource bytes.now (Ok tokens.now) }
    ensures { IfOk result (λ found. IsAnswer bytes.now found) }
{
    match read(alloc, tokens) {
        Ok(script) => {
            let table = table(alloc, bytes, &script);
            forget(script);
            let table = table?;
            Ok(Some(table))
        }
        Err(SyntaxFault::Syntax(_)) => Ok(None),
        Err(SyntaxFault::BadType(_)) => Ok(None),
        Err(SyntaxFault::TooDeep(_)) => Ok(None),
        Err(SyntaxFault::Memory) => Err(AllocError),
    }
}

/// The table of the script that these bytes are; none where they are no script.
pub(crate) fn sites(alloc: Global, bytes: &[u8]) -> Result<Option<Bytes>, AllocError>
    ensures { IfOk result (λ found. IsAnswer bytes.now found) }
{
    match tokens(alloc, bytes) {
        Ok(tokens) => sites_of(alloc, bytes, tokens.as_slice()),
        Err(TokenFault::SourceTooLong) => Ok(None),
        Err(TokenFault::BadUtf8(_)) => Ok(None),
        Err(TokenFault::BadCharacter(_)) => Ok(None),
        Err(TokenFault::NumberTooLarge(_)) => Ok(None),
        Err(TokenFault::OpenString(_)) => Ok(None),
        Err(TokenFault::OpenComment(_)) => Ok(None),
        Err(TokenFault::Memory) => Err(AllocError),
    }
}
