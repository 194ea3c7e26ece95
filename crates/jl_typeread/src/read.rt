//! A type at a place of a source.

ghost use Rattle.std.specs.Prelude.{List, ◌≡◌, ◌<◌, ◌≤◌, IfOk, drop, length, option_map};
ghost use Rattle.jl_typeread.specs.declared.terminal.Lexeme.{Lexeme};
ghost use Rattle.jl_typeread.specs.declared.state.State.{State};
ghost use Rattle.jl_typeread.specs.declared.tree.TypeText.{TypeText};
ghost use Rattle.jl_typeread.specs.Lexemes.{lexemes};
ghost use Rattle.jl_typeread.specs.Depth.{type_depth, depth_limit};
ghost use Rattle.jl_typeread.specs.Grammar.{IsType};
ghost use Rattle.jl_typeread.specs.Machine.{turn_of};
ghost use Rattle.jl_typeread.specs.Reads.{depth_after, is_passed, Reads, UnlessMemory, IsOnly, EndsAlone, Took, final_answer};

use crate::deep::Deep;
use crate::entries::type_start;
use crate::fault::TypeFault;
use crate::state::{State, Taken};
use crate::terminal::{Lexeme, Terminal};
use crate::tree::TypeText;
use crate::turns::step;
use jl_token::token::{Operator, Token};
use std::alloc::{AllocError, Global};

/// A reading, and how many brackets are open.
struct Reader {
    state: State,
    depth: usize,
}

impl Drop for Reader {
    fn drop(self) {
        let Reader { state, depth: _ } = self;
        drop(state);
    }
}

/// How many brackets are open behind a token.
fn depth_after(depth: usize, terminal: &Terminal) -> usize
    requires { depth < usize.MAX }
    ensures { result ≡ depth_after depth terminal.now }
{
    match terminal {
        Terminal::Operator(Operator::OpenParen) => depth + 1,
        Terminal::Operator(Operator::OpenBrace) => depth + 1,
        Terminal::Operator(Operator::CloseParen) => depth.saturating_sub(1),
        Terminal::Operator(Operator::CloseBrace) => depth.saturating_sub(1),
        _ => depth,
    }
}

/// Whether the token is a newline between brackets, which is none for the grammar.
fn is_passed(depth: usize, terminal: &Terminal) -> bool
    ensures { result ≡ is_passed depth terminal.now }
{
    match terminal {
        Terminal::Newline => depth > 0,
        _ => false,
    }
}

/// Takes a token, or tells what ends the reading at it.
fn take(alloc: Global, reader: &mut Reader, lexeme: &Lexeme) -> Result<Option<Taken>, AllocError>
    requires { reader.old.depth < usize.MAX }
    ensures { IfOk result
        (λ ended. Took reader.old.depth lexeme.now reader.old.state reader.new.state reader.new.depth
        (option_map (λ t. turn_of t reader.new.state) ended)) }
{
    if !is_passed(reader.depth, &lexeme.terminal) {
        match step(alloc, lexeme, &mut reader.state)? {
            Taken::Goes => {}
            Taken::Type(ty) => return Ok(Some(Taken::Type(ty))),
            Taken::Variables(variables) => return Ok(Some(Taken::Variables(variables))),
            Taken::Wrong => return Ok(Some(Taken::Wrong)),
        }
    }
    reader.depth = depth_after(reader.depth, &lexeme.terminal);
    Ok(None)
}

/// The answer at a token that ends the reading, of this place, with this many tokens before it.
fn final_answer(ended: Taken, place: u32, next: usize) -> Result<(TypeText, usize), TypeFault>
    ensures { (s : State) → result ≡ final_answer (turn_of ended s) place next }
{
    match ended {
        Taken::Type(Deep::Built(ty, _)) => Ok((ty, next)),
        Taken::Type(Deep::TooDeep) => Err(TypeFault::TooDeep(next)),
        ended => {
            drop(ended);
            Err(TypeFault::BadType(place))
        }
    }
}

/// The type that begins with the token of this number, and the number of the token behind it. It is the longest that
/// stands there; between its brackets newlines are no tokens.
///
/// # Errors
///
/// `BadType` at the first token that no type allows. `TooDeep` where the type's depth is above 1,100. Besides,
/// `Memory`.
pub fn read_type(
    alloc: Global,
    tokens: &[Token],
    from: usize,
) -> Result<(TypeText, usize), TypeFault>
    requires ends { EndsAlone tokens.now }
    requires inside { from < length tokens.now }
    ensures reads { UnlessMemory result (Reads (lexemes (drop from tokens.now)) from) }
    ensures only { IsOnly result (Reads (lexemes (drop from tokens.now)) from) }
{
    let rest = &tokens[from..];
    let mut reader = Reader {
        state: type_start(alloc),
        depth: 0,
    };
    for (count, token) in rest.iter().enumerate() {
        let lexeme = Lexeme::of(token)?;
        if let Some(ended) = take(alloc, &mut reader, &lexeme)? {
            return final_answer(ended, token.at, from + count);
        }
    }
    unreachable!()
}

/// A text of a type within the limit of depth is no other type.
pub fn one_type()
    ensures { (t u : TypeText) (ts : List Lexeme)
        → IsType t ts → IsType u ts → type_depth t ≤ depth_limit → t ≡ u }
{}
