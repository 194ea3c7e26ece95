//! The type that a whole text means at the end of a program.

ghost use Rattle.std.specs.Prelude.{◌≡◌, IfOk, OnOk};
ghost use Rattle.jl_token.specs.declared.token.TokenFault.TheVariants.{Memory};
ghost use Rattle.jl_typeread.specs.Reads.{EndsAlone};
ghost use Rattle.jl_written.specs.Reads.{typed};
ghost use Rattle.jl_reflect.specs.Asked.{IsWhole, IsText, Means, IsPlain, Finds};

use jl_model::ty::Ty;
use jl_names::decls::{DeclList, copy_decl};
use jl_token::line_tokens;
use jl_token::token::{Token, TokenFault};
use jl_typeread::fault::TypeFault;
use jl_typeread::read_type;
use jl_typeread::tree::TypeText;
use jl_types::Table;
use jl_written::reading::Reading;
use jl_written::reads::read_alone;
use jl_written::signatures::no_reading;
use jl_written::vars::Around;
use std::alloc::{AllocError, Global};

/// The most bytes that the text of a type may have.
pub(crate) const MOST_TYPE_BYTES: usize = 67_108_864;

/// Goes on where a text has no tokens, and not where memory ran out.
fn fail_without_memory(fault: TokenFault) -> Result<(), AllocError>
    ensures { OnOk result (fault ≡ Memory → ⊥) }
{
    match fault {
        TokenFault::Memory => Err(AllocError),
        TokenFault::SourceTooLong => Ok(()),
        TokenFault::BadUtf8(_) => Ok(()),
        TokenFault::BadCharacter(_) => Ok(()),
        TokenFault::NumberTooLarge(_) => Ok(()),
        TokenFault::OpenString(_) => Ok(()),
        TokenFault::OpenComment(_) => Ok(()),
    }
}

/// The type that all tokens but the last spell.
fn whole_type(alloc: Global, tokens: &[Token]) -> Result<Option<TypeText>, AllocError>
    requires { EndsAlone tokens.now }
    ensures { IfOk result (λ found. Finds (IsWhole tokens.now) found) }
{
    match read_type(alloc, tokens, 0) {
        Ok((ty, next)) => {
            if next + 1 == tokens.len() {
                Ok(Some(ty))
            } else {
                Ok(None)
            }
        }
        Err(TypeFault::Memory) => Err(AllocError),
        Err(TypeFault::BadType(_)) => Ok(None),
        Err(TypeFault::TooDeep(_)) => Ok(None),
    }
}

/// The type that a whole text is.
pub(crate) fn read_text(alloc: Global, text: &[u8]) -> Result<Option<TypeText>, AllocError>
    ensures { IfOk result (λ found. Finds (IsText text.now) found) }
{
    if text.len() > MOST_TYPE_BYTES {
        return Ok(None);
    }
    match line_tokens(alloc, text) {
        Ok(tokens) => {
            let found = whole_type(alloc, tokens.as_slice())?;
            Ok(found)
        }
        Err(fault) => {
            fail_without_memory(fault)?;
            Ok(None)
        }
    }
}

/// The declarations of a table, to be found by their names.
fn copy_decls(alloc: Global, table: &Table) -> Result<DeclList, AllocError>
    ensures { IfOk result (λ decls. decls ≡ table.now) }
{
    let mut decls = DeclList::new(alloc);
    for number in 0..table.count() {
        let copy = copy_decl(table.decl(number))?;
        decls.push(copy)?;
    }
    Ok(decls)
}

/// A type that was read, where no fault is known and no variable.
fn plain_type(ty: Ty, state: &Reading) -> Option<Ty>
    ensures { Finds (IsPlain (typed ty state.now)) result }
{
    if state.fault.is_some() {
        return None;
    }
    if state.vars.len() > 0 {
        return None;
    }
    Some(ty)
}

/// The type that a text means, where it has no fault and brings no variable.
pub(crate) fn read_meaning(
    alloc: Global,
    table: &Table,
    text: &TypeText,
) -> Result<Option<Ty>, AllocError>
    ensures { IfOk result (λ found. Finds (Means table.now text.now) found) }
{
    let decls = copy_decls(alloc, table)?;
    let all = decls.all();
    let around = Around::top(&all);
    let mut state = no_reading(alloc);
    let ty = read_alone(alloc, &around, &mut state, text)?;
    Ok(plain_type(ty, &state))
}
