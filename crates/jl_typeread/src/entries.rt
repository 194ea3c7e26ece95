//! Where a reading begins and goes on, and how a type begins.

ghost use Rattle.std.specs.Prelude.{◌≡◌, ◌∷◌, IfOk};
ghost use Rattle.jl_typeread.specs.declared.state.Turn.TheVariants.{Goes};
ghost use Rattle.jl_typeread.specs.Machine.{at, tree_of, begin_type, type_start, where_start, header_start, is_type_wanted, turn_of};

use crate::deep::{Deep, no_variables, plain_type};
use crate::state::{Bound, Enclosure, Frame, Point, State, Taken, TypeSoFar};
use crate::terminal::{Lexeme, Terminal};
use crate::tree::TypeText;
use jl_model::rows::Stack;
use jl_token::token::Operator;
use std::alloc::{AllocError, Global};

/// The reading goes on at this point.
pub(crate) fn at(point: Point, state: &mut State) -> Result<Taken, AllocError>
    ensures { IfOk result (λ t. turn_of t state.new ≡ at point state.old.stack) }
{
    state.point = point;
    Ok(Taken::Goes)
}

/// The reading goes on inside of one more form.
#[inline(always)]
pub(crate) fn push_frame(point: Point, frame: Frame, state: &mut State) -> Result<Taken, AllocError>
    ensures { IfOk result (λ t. turn_of t state.new ≡ at point (frame ∷ state.old.stack)) }
{
    state.point = point;
    state.stack.push(frame)?;
    Ok(Taken::Goes)
}

/// A type that was read, as a tree.
pub(crate) fn tree_of(begun: TypeSoFar) -> Deep<TypeText>
    ensures { result ≡ tree_of begun }
{
    match begun {
        TypeSoFar::Plain(at, name) => plain_type(at, name),
        TypeSoFar::Whole(ty) => ty,
    }
}

/// A type begins.
#[inline(always)]
pub(crate) fn begin_type(lexeme: &Lexeme, state: &mut State) -> Result<Taken, AllocError>
    ensures { IfOk result (λ t. turn_of t state.new
        ≡ begin_type lexeme.now.terminal lexeme.now.at state.old.stack) }
{
    match &lexeme.terminal {
        Terminal::Name(name) => at(
            Point::Have(TypeSoFar::Plain(lexeme.at, name.copy()?)),
            state,
        ),
        Terminal::Operator(Operator::OpenParen) => push_frame(
            Point::Want,
            Frame::Paren(lexeme.at),
            state,
        ),
        _ => Ok(Taken::Wrong),
    }
}

/// The beginning of a type.
pub fn type_start(alloc: Global) -> State
    ensures { Goes result ≡ type_start }
{
    State {
        point: Point::Want,
        stack: Stack::new(alloc),
    }
}

/// The beginning of the variables behind a `where`.
pub fn where_start(alloc: Global) -> State
    ensures { Goes result ≡ where_start }
{
    State {
        point: Point::Where,
        stack: Stack::new(alloc),
    }
}

/// The beginning of the variables behind the `{` of a declaration.
pub fn header_start(alloc: Global) -> Result<State, AllocError>
    ensures { IfOk result (λ s. Goes s ≡ header_start) }
{
    let mut stack = Stack::new(alloc);
    let listed = Enclosure::Braces(no_variables(alloc));
    stack.push(Frame::Variable(Bound::First, listed))?;
    Ok(State {
        point: Point::Variable,
        stack,
    })
}
/// Whether a type must follow. Where a variable must, its name may, so no type must.
pub fn is_type_wanted(point: &Point) -> bool
    ensures { result ≡ is_type_wanted point.now }
{
    matches!(point, Point::Want | Point::First | Point::Next)
}
