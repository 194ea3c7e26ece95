//! The script of a source's tokens.
//!
//! It is one loop, with the open forms on a list, and no recursion: a text may open as many forms as it has tokens,
//! and must not take the program's stack for them.

ghost use Rattle.std.specs.Prelude.{◌≡◌, Option, Some, None, Result, Err};
ghost use Rattle.jl_typeread.specs.Reads.{EndsAlone};
ghost use Rattle.jl_reader.specs.Answers.{Reads, UnlessMemory, IsOnly, TookAt, wrong_token};

use crate::fault::SyntaxFault;
use crate::step::{
    is_frequent, is_in_type_or_fields, is_type_wanted, start, step_anywhere,
    step_in_type_or_fields, step_often,
};
use jl_grammar::mark::Marked;
use jl_grammar::state::{Point, Reading};
use jl_grammar::tree::Script;
use jl_marks::marks::with_marks;
use jl_marks::newlines::drop_newlines;
use jl_token::token::Token;
use std::alloc::Global;

/// The fault of a wrong token at this place.
fn wrong_token(is_type: bool, at: u32) -> SyntaxFault
    ensures { result ≡ wrong_token is_type at }
{
    if is_type {
        return SyntaxFault::BadType(at);
    }
    SyntaxFault::Syntax(at)
}

/// Takes a token, or tells what is wrong with it, or that it ends an item that is too deep.
#[inline(always)]
fn take(
    alloc: Global,
    token: Marked,
    point: Point,
    reading: &mut Reading,
) -> Result<Point, SyntaxFault>
    ensures { TookAt token point reading.old reading.new result }
{
    let is_type = is_type_wanted(&point);
    let at = token.lexeme.at;
    let taken = if is_frequent(&point) {
        step_often(alloc, &token, point, reading)
    } else if is_in_type_or_fields(&point) {
        step_in_type_or_fields(alloc, &token, point, reading)
    } else {
        step_anywhere(alloc, &token, point, reading)
    };
    drop(token);
    match taken {
        Err(error) => Err(SyntaxFault::from(error)),
        Ok(None) => Err(wrong_token(is_type, at)),
        Ok(Some(next)) => match reading.script.too_deep {
            None => Ok(next),
            Some(at) => {
                drop(next);
                Err(SyntaxFault::TooDeep(at))
            }
        },
    }
}

/// The script that the tokens of a source are.
///
/// # Errors
///
/// `Syntax` at the first token that the grammar does not allow, or at the source's end; `BadType` in its place where a type
/// must stand there. `TooDeep` at the first item of a depth above 500, where the text up to the separator behind it, or
/// to the source's end, has no wrong token. Besides, `Memory`.
pub fn read(alloc: Global, tokens: &[Token]) -> Result<Script, SyntaxFault>
    requires ends { EndsAlone tokens.now }
    ensures reads { UnlessMemory result (Reads tokens.now) }
    ensures only { IsOnly result (Reads tokens.now) }
{
    let lexemes = drop_newlines(alloc, tokens)?;
    let mut left = with_marks(alloc, lexemes)?;
    let mut reading = start(alloc);
    let mut point = Point::Entry;
    while let Some(token) = left.pop() {
        match take(alloc, token, point, &mut reading) {
            Ok(next) => point = next,
            Err(fault) => return Err(fault),
        }
    }
    drop(point);
    let Reading { stack, script } = reading;
    drop(stack);
    let items = script.items.into_shared(alloc)?;
    Ok(Script { items })
}
