//! One token of variables, or of what follows one.

ghost use Rattle.std.specs.Prelude.{◌≡◌, ◌∷◌, IfOk, None, Some};
ghost use Rattle.jl_typeread.specs.Machine.{variable, end_of_variable, close_variables, close_enclosure, next_variable, next_in_enclosure, close_where, first_subtype, at_where, at_low, upper_bound, at_named, end_of_variables, close_after_variables, at_closed, turn_of};

use crate::deep::{
    Deep, above_bound, below_bound, between_bound, no_variables, paren, with_variable,
};
use crate::entries::{at, begin_type, push_frame, tree_of};
use crate::state::{Bound, Enclosure, Frame, Point, State, Taken, TypeSoFar};
use crate::terminal::{Lexeme, Terminal};
use crate::tree::{TypeText, VarText};
use jl_model::rows::Row;
use jl_model::ty::Bytes;
use jl_token::token::Operator;
use std::alloc::{AllocError, Global};

/// A variable that ends with this type.
pub(crate) fn variable(
    alloc: Global,
    bound: Bound,
    begun: TypeSoFar,
) -> Result<Option<Deep<VarText>>, AllocError>
    ensures { IfOk result (λ v. v ≡ variable bound begun) }
{
    match bound {
        Bound::First => match begun {
            TypeSoFar::Plain(at, name) => Ok(Some(Deep::Built(VarText::Free(at, name), 0))),
            TypeSoFar::Whole(ty) => {
                drop(ty);
                Ok(None)
            }
        },
        Bound::Below(at, name) => Ok(Some(below_bound(alloc, at, name, tree_of(begun))?)),
        Bound::Above(at, name) => Ok(Some(above_bound(alloc, at, name, tree_of(begun))?)),
        Bound::Between(low, at, name) => {
            let variable = between_bound(alloc, low, at, name, tree_of(begun))?;
            Ok(Some(variable))
        }
    }
}

/// A token behind variables that have ended, alone.
pub(crate) fn end_of_variable(
    alloc: Global,
    variable: Option<Deep<VarText>>,
    state: &mut State,
) -> Result<Taken, AllocError>
    ensures { IfOk result (λ t. turn_of t state.new ≡ end_of_variable variable state.old.stack) }
{
    let Some(variable) = variable else {
        return Ok(Taken::Wrong);
    };
    match state.stack.pop() {
        None => {
            let variables = with_variable(no_variables(alloc), variable)?;
            Ok(Taken::Variables(variables))
        }
        Some(frame) => {
            drop(frame);
            drop(variable);
            Ok(Taken::Wrong)
        }
    }
}

/// `}` behind a variable.
pub(crate) fn close_variables(
    variable: Option<Deep<VarText>>,
    variables: Deep<Row<VarText>>,
    state: &mut State,
) -> Result<Taken, AllocError>
    ensures { IfOk result (λ t. turn_of t state.new ≡ close_variables variable variables state.old.stack) }
{
    match variable {
        Some(variable) => at(Point::Closed(with_variable(variables, variable)?), state),
        None => {
            drop(variables);
            Ok(Taken::Wrong)
        }
    }
}

/// `}` behind a variable, if that stands in braces.
pub(crate) fn close_enclosure(
    alloc: Global,
    variable: Option<Deep<VarText>>,
    listed: Enclosure,
    state: &mut State,
) -> Result<Taken, AllocError>
    ensures { IfOk result (λ t. turn_of t state.new ≡ close_enclosure variable listed state.old.stack) }
{
    match listed {
        Enclosure::One => end_of_variable(alloc, variable, state),
        Enclosure::Braces(variables) => close_variables(variable, variables, state),
    }
}

/// `,` behind a variable.
pub(crate) fn next_variable(
    variable: Option<Deep<VarText>>,
    variables: Deep<Row<VarText>>,
    state: &mut State,
) -> Result<Taken, AllocError>
    ensures { IfOk result (λ t. turn_of t state.new ≡ next_variable variable variables state.old.stack) }
{
    match variable {
        Some(variable) => {
            let variables = with_variable(variables, variable)?;
            let frame = Frame::Variable(Bound::First, Enclosure::Braces(variables));
            push_frame(Point::Variable, frame, state)
        }
        None => {
            drop(variables);
            Ok(Taken::Wrong)
        }
    }
}

/// `,` behind a variable, if that stands in braces.
pub(crate) fn next_in_enclosure(
    alloc: Global,
    variable: Option<Deep<VarText>>,
    listed: Enclosure,
    state: &mut State,
) -> Result<Taken, AllocError>
    ensures { IfOk result (λ t. turn_of t state.new ≡ next_in_enclosure variable listed state.old.stack) }
{
    match listed {
        Enclosure::One => end_of_variable(alloc, variable, state),
        Enclosure::Braces(variables) => next_variable(variable, variables, state),
    }
}

/// `)` behind the one variable of a `where`.
pub(crate) fn close_where(
    alloc: Global,
    variable: Option<Deep<VarText>>,
    state: &mut State,
) -> Result<Taken, AllocError>
    ensures { IfOk result (λ t. turn_of t state.new ≡ close_where variable state.old.stack) }
{
    let Some(variable) = variable else {
        return Ok(Taken::Wrong);
    };
    match state.stack.pop() {
        None => end_of_variable(alloc, Some(variable), state),
        Some(Frame::Where(place, ty)) => match with_variable(no_variables(alloc), variable) {
            Ok(variables) => {
                let ty = paren(alloc, place, ty, variables)?;
                at(Point::Have(TypeSoFar::Whole(ty)), state)
            }
            Err(error) => {
                drop(ty);
                Err(error)
            }
        },
        Some(frame) => {
            drop(frame);
            drop(variable);
            Ok(Taken::Wrong)
        }
    }
}

/// `<:` behind the first type of a variable, which is its name or its lower bound.
pub(crate) fn first_subtype(
    begun: TypeSoFar,
    listed: Enclosure,
    state: &mut State,
) -> Result<Taken, AllocError>
    ensures { IfOk result (λ t. turn_of t state.new ≡ first_subtype begun listed state.old.stack) }
{
    match begun {
        TypeSoFar::Plain(at, name) => {
            let frame = Frame::Variable(Bound::Below(at, name), listed);
            push_frame(Point::Want, frame, state)
        }
        TypeSoFar::Whole(ty) => push_frame(
            Point::Low(ty),
            Frame::Variable(Bound::First, listed),
            state,
        ),
    }
}

/// A token behind `where`.
pub(crate) fn at_where(
    alloc: Global,
    lexeme: &Lexeme,
    state: &mut State,
) -> Result<Taken, AllocError>
    ensures { IfOk result (λ t. turn_of t state.new ≡ at_where lexeme.now.terminal lexeme.now.at state.old.stack) }
{
    match &lexeme.terminal {
        Terminal::Operator(Operator::OpenBrace) => {
            let listed = Enclosure::Braces(no_variables(alloc));
            push_frame(
                Point::Variable,
                Frame::Variable(Bound::First, listed),
                state,
            )
        }
        _ => {
            state
                .stack
                .push(Frame::Variable(Bound::First, Enclosure::One))?;
            begin_type(lexeme, state)
        }
    }
}

/// A token behind a variable's lower bound and `<:`.
pub(crate) fn at_low(
    lexeme: &Lexeme,
    low: Deep<TypeText>,
    state: &mut State,
) -> Result<Taken, AllocError>
    ensures { IfOk result (λ t. turn_of t state.new ≡ at_low lexeme.now.terminal lexeme.now.at low state.old.stack) }
{
    match &lexeme.terminal {
        Terminal::Name(name) => match name.copy() {
            Ok(name) => at(Point::Named(low, lexeme.at, name), state),
            Err(error) => {
                drop(low);
                Err(error)
            }
        },
        _ => {
            drop(low);
            Ok(Taken::Wrong)
        }
    }
}

/// `<:` behind a variable's lower bound, `<:` and its name.
pub(crate) fn upper_bound(
    low: Deep<TypeText>,
    at: u32,
    name: Bytes,
    state: &mut State,
) -> Result<Taken, AllocError>
    ensures { IfOk result (λ t. turn_of t state.new ≡ upper_bound low at name state.old.stack) }
{
    match state.stack.pop() {
        Some(Frame::Variable(before, listed)) => {
            drop(before);
            let bound = Bound::Between(low, at, name);
            push_frame(Point::Want, Frame::Variable(bound, listed), state)
        }
        Some(frame) => {
            drop(frame);
            drop(low);
            Ok(Taken::Wrong)
        }
        None => {
            drop(low);
            Ok(Taken::Wrong)
        }
    }
}

/// A token behind a variable's lower bound, `<:` and its name.
pub(crate) fn at_named(
    terminal: &Terminal,
    low: Deep<TypeText>,
    at: u32,
    name: Bytes,
    state: &mut State,
) -> Result<Taken, AllocError>
    ensures { IfOk result (λ t. turn_of t state.new ≡ at_named terminal.now low at name state.old.stack) }
{
    match terminal {
        Terminal::Operator(Operator::Subtype) => upper_bound(low, at, name, state),
        _ => {
            drop(low);
            Ok(Taken::Wrong)
        }
    }
}

/// A token that is not of the variables before it.
pub(crate) fn end_of_variables(
    variables: Deep<Row<VarText>>,
    state: &mut State,
) -> Result<Taken, AllocError>
    ensures { IfOk result (λ t. turn_of t state.new ≡ end_of_variables variables state.old.stack) }
{
    match state.stack.pop() {
        None => Ok(Taken::Variables(variables)),
        Some(frame) => {
            drop(frame);
            drop(variables);
            Ok(Taken::Wrong)
        }
    }
}

/// `)` behind the `}` of variables.
pub(crate) fn close_after_variables(
    alloc: Global,
    variables: Deep<Row<VarText>>,
    state: &mut State,
) -> Result<Taken, AllocError>
    ensures { IfOk result (λ t. turn_of t state.new ≡ close_after_variables variables state.old.stack) }
{
    match state.stack.pop() {
        None => Ok(Taken::Variables(variables)),
        Some(Frame::Where(place, ty)) => {
            let ty = paren(alloc, place, ty, variables)?;
            at(Point::Have(TypeSoFar::Whole(ty)), state)
        }
        Some(frame) => {
            drop(frame);
            drop(variables);
            Ok(Taken::Wrong)
        }
    }
}

/// A token behind the `}` of variables.
pub(crate) fn at_closed(
    alloc: Global,
    terminal: &Terminal,
    variables: Deep<Row<VarText>>,
    state: &mut State,
) -> Result<Taken, AllocError>
    ensures { IfOk result (λ t. turn_of t state.new ≡ at_closed terminal.now variables state.old.stack) }
{
    match terminal {
        Terminal::Operator(Operator::CloseParen) => close_after_variables(alloc, variables, state),
        _ => end_of_variables(variables, state),
    }
}
