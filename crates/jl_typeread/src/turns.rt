//! One token of a type, or of variables. A step takes the point out of the state and puts the next one there, so what a step calls
//! finds a state without its point. What most tokens call is inlined into the step, so that its pieces are not moved.

ghost use Rattle.std.specs.Prelude.{◌≡◌, ◌∷◌, IfOk};
ghost use Rattle.jl_typeread.specs.Machine.{after_mark, at_next, close_empty, at_first, end_of_type, open_brace, close_brace, after_comma, close_paren, after_where, second_subtype, subtype_in_variable, after_subtype, lower_bound, after_supertype, after_type, step_at, turn_of};

use crate::deep::{
    Mark, applied_type, no_arguments, no_variables, paren, plain_type, with_argument,
};
use crate::entries::{at, begin_type, push_frame, tree_of};
use crate::state::{Bound, Enclosure, Frame, Point, State, Taken, TypeSoFar};
use crate::terminal::{Lexeme, Terminal, Word};
use crate::variables::{
    at_closed, at_low, at_named, at_where, close_enclosure, close_where, end_of_variable,
    first_subtype, next_in_enclosure, variable,
};
use jl_model::ty::Bytes;
use jl_token::token::Operator;
use std::alloc::{AllocError, Global};
use std::mem;

/// A type behind the mark of an argument.
fn after_mark(mark: Mark, state: &mut State) -> Result<Taken, AllocError>
    ensures { IfOk result (λ t. turn_of t state.new ≡ after_mark mark state.old.stack) }
{
    match state.stack.pop() {
        Some(Frame::Argument(at, name, arguments, _)) => {
            push_frame(
                Point::Want,
                Frame::Argument(at, name, arguments, mark),
                state,
            )
        }
        Some(frame) => {
            drop(frame);
            Ok(Taken::Wrong)
        }
        None => Ok(Taken::Wrong),
    }
}

/// An argument begins, behind its mark if it has one.
fn at_next(lexeme: &Lexeme, state: &mut State) -> Result<Taken, AllocError>
    ensures { IfOk result (λ t. turn_of t state.new ≡ at_next lexeme.now.terminal lexeme.now.at state.old.stack) }
{
    match &lexeme.terminal {
        Terminal::Operator(Operator::Subtype) => after_mark(Mark::Below(lexeme.at), state),
        Terminal::Operator(Operator::Supertype) => after_mark(Mark::Above(lexeme.at), state),
        _ => begin_type(lexeme, state),
    }
}

/// The braces end without an argument.
fn close_empty(alloc: Global, state: &mut State) -> Result<Taken, AllocError>
    ensures { IfOk result (λ t. turn_of t state.new ≡ close_empty state.old.stack) }
{
    match state.stack.pop() {
        Some(Frame::Argument(place, name, arguments, _)) => {
            let ty = applied_type(alloc, place, name, arguments)?;
            at(Point::Have(TypeSoFar::Whole(ty)), state)
        }
        Some(frame) => {
            drop(frame);
            Ok(Taken::Wrong)
        }
        None => Ok(Taken::Wrong),
    }
}

/// A token behind `{`.
fn at_first(alloc: Global, lexeme: &Lexeme, state: &mut State) -> Result<Taken, AllocError>
    ensures { IfOk result (λ t. turn_of t state.new ≡ at_first lexeme.now.terminal lexeme.now.at state.old.stack) }
{
    match &lexeme.terminal {
        Terminal::Operator(Operator::CloseBrace) => close_empty(alloc, state),
        _ => at_next(lexeme, state),
    }
}

/// A token that is not of the type before it, inside of this form.
fn end_of_type_in(
    alloc: Global,
    begun: TypeSoFar,
    frame: Frame,
    state: &mut State,
) -> Result<Taken, AllocError>
    ensures { IfOk result (λ t. turn_of t state.new ≡ end_of_type begun (frame ∷ state.old.stack)) }
{
    match frame {
        Frame::Variable(bound, Enclosure::One) => end_of_variable(
            alloc,
            variable(alloc, bound, begun)?,
            state,
        ),
        frame => {
            drop(frame);
            drop(begun);
            Ok(Taken::Wrong)
        }
    }
}

/// A token that is not of the type before it.
fn end_of_type(alloc: Global, begun: TypeSoFar, state: &mut State) -> Result<Taken, AllocError>
    ensures { IfOk result (λ t. turn_of t state.new ≡ end_of_type begun state.old.stack) }
{
    match state.stack.pop() {
        None => Ok(Taken::Type(tree_of(begun))),
        Some(frame) => end_of_type_in(alloc, begun, frame, state),
    }
}

/// `{` behind a type.
fn open_brace(alloc: Global, begun: TypeSoFar, state: &mut State) -> Result<Taken, AllocError>
    ensures { IfOk result (λ t. turn_of t state.new ≡ open_brace begun state.old.stack) }
{
    match begun {
        TypeSoFar::Plain(at, name) => {
            let frame = Frame::Argument(at, name, no_arguments(alloc), Mark::Exact);
            push_frame(Point::First, frame, state)
        }
        TypeSoFar::Whole(ty) => end_of_type(alloc, TypeSoFar::Whole(ty), state),
    }
}

/// `}` behind a type.
fn close_brace(alloc: Global, begun: TypeSoFar, state: &mut State) -> Result<Taken, AllocError>
    ensures { IfOk result (λ t. turn_of t state.new ≡ close_brace begun state.old.stack) }
{
    match state.stack.pop() {
        None => end_of_type(alloc, begun, state),
        Some(Frame::Argument(place, name, arguments, mark)) => {
            let arguments = with_argument(arguments, mark, tree_of(begun))?;
            let ty = applied_type(alloc, place, name, arguments)?;
            at(Point::Have(TypeSoFar::Whole(ty)), state)
        }
        Some(Frame::Variable(bound, listed)) => {
            match variable(alloc, bound, begun) {
                Ok(variable) => close_enclosure(alloc, variable, listed, state),
                Err(error) => {
                    drop(listed);
                    Err(error)
                }
            }
        }
        Some(frame) => end_of_type_in(alloc, begun, frame, state),
    }
}

/// `,` behind a type.
#[inline(always)]
fn after_comma(alloc: Global, begun: TypeSoFar, state: &mut State) -> Result<Taken, AllocError>
    ensures { IfOk result (λ t. turn_of t state.new ≡ after_comma begun state.old.stack) }
{
    match state.stack.pop() {
        None => end_of_type(alloc, begun, state),
        Some(Frame::Argument(at, name, arguments, mark)) => {
            let arguments = with_argument(arguments, mark, tree_of(begun))?;
            let frame = Frame::Argument(at, name, arguments, Mark::Exact);
            push_frame(Point::Next, frame, state)
        }
        Some(Frame::Variable(bound, listed)) => {
            match variable(alloc, bound, begun) {
                Ok(variable) => next_in_enclosure(alloc, variable, listed, state),
                Err(error) => {
                    drop(listed);
                    Err(error)
                }
            }
        }
        Some(frame) => end_of_type_in(alloc, begun, frame, state),
    }
}

/// `)` behind a type.
fn close_paren(alloc: Global, begun: TypeSoFar, state: &mut State) -> Result<Taken, AllocError>
    ensures { IfOk result (λ t. turn_of t state.new ≡ close_paren begun state.old.stack) }
{
    match state.stack.pop() {
        None => end_of_type(alloc, begun, state),
        Some(Frame::Paren(place)) => {
            let ty = paren(alloc, place, tree_of(begun), no_variables(alloc))?;
            at(Point::Have(TypeSoFar::Whole(ty)), state)
        }
        Some(Frame::Variable(bound, Enclosure::One)) => {
            close_where(alloc, variable(alloc, bound, begun)?, state)
        }
        Some(frame) => end_of_type_in(alloc, begun, frame, state),
    }
}

/// `where` behind a type.
fn after_where(alloc: Global, begun: TypeSoFar, state: &mut State) -> Result<Taken, AllocError>
    ensures { IfOk result (λ t. turn_of t state.new ≡ after_where begun state.old.stack) }
{
    match state.stack.pop() {
        None => end_of_type(alloc, begun, state),
        Some(Frame::Paren(place)) => {
            push_frame(Point::Where, Frame::Where(place, tree_of(begun)), state)
        }
        Some(frame) => end_of_type_in(alloc, begun, frame, state),
    }
}

/// `<:` behind what was read as a name, `<:` and a type: where that type is a name, it is the variable's name.
fn second_subtype(
    alloc: Global,
    at: u32,
    name: Bytes,
    begun: TypeSoFar,
    listed: Enclosure,
    state: &mut State,
) -> Result<Taken, AllocError>
    ensures { IfOk result (λ t. turn_of t state.new ≡ second_subtype at name begun listed state.old.stack) }
{
    match begun {
        TypeSoFar::Plain(place, variable) => {
            let bound = Bound::Between(plain_type(at, name), place, variable);
            push_frame(Point::Want, Frame::Variable(bound, listed), state)
        }
        TypeSoFar::Whole(ty) => {
            let frame = Frame::Variable(Bound::Below(at, name), listed);
            end_of_type_in(alloc, TypeSoFar::Whole(ty), frame, state)
        }
    }
}

/// `<:` behind a type of a variable.
fn subtype_in_variable(
    alloc: Global,
    bound: Bound,
    begun: TypeSoFar,
    listed: Enclosure,
    state: &mut State,
) -> Result<Taken, AllocError>
    ensures { IfOk result (λ t. turn_of t state.new ≡ subtype_in_variable bound begun listed state.old.stack) }
{
    match bound {
        Bound::First => first_subtype(begun, listed, state),
        Bound::Below(at, name) => second_subtype(alloc, at, name, begun, listed, state),
        bound => end_of_type_in(alloc, begun, Frame::Variable(bound, listed), state),
    }
}

/// `<:` behind a type.
fn after_subtype(alloc: Global, begun: TypeSoFar, state: &mut State) -> Result<Taken, AllocError>
    ensures { IfOk result (λ t. turn_of t state.new ≡ after_subtype begun state.old.stack) }
{
    match state.stack.pop() {
        None => end_of_type(alloc, begun, state),
        Some(Frame::Variable(bound, listed)) => subtype_in_variable(
            alloc, bound, begun, listed, state,
        ),
        Some(frame) => end_of_type_in(alloc, begun, frame, state),
    }
}

/// `>:` behind the first type of a variable, which must be its name.
fn lower_bound(
    alloc: Global,
    begun: TypeSoFar,
    listed: Enclosure,
    state: &mut State,
) -> Result<Taken, AllocError>
    ensures { IfOk result (λ t. turn_of t state.new ≡ lower_bound begun listed state.old.stack) }
{
    match begun {
        TypeSoFar::Plain(at, name) => {
            let frame = Frame::Variable(Bound::Above(at, name), listed);
            push_frame(Point::Want, frame, state)
        }
        TypeSoFar::Whole(ty) => {
            let frame = Frame::Variable(Bound::First, listed);
            end_of_type_in(alloc, TypeSoFar::Whole(ty), frame, state)
        }
    }
}

/// `>:` behind a type.
fn after_supertype(alloc: Global, begun: TypeSoFar, state: &mut State) -> Result<Taken, AllocError>
    ensures { IfOk result (λ t. turn_of t state.new ≡ after_supertype begun state.old.stack) }
{
    match state.stack.pop() {
        None => end_of_type(alloc, begun, state),
        Some(Frame::Variable(Bound::First, listed)) => lower_bound(alloc, begun, listed, state),
        Some(frame) => end_of_type_in(alloc, begun, frame, state),
    }
}

/// A token behind a type.
fn after_type(
    alloc: Global,
    terminal: &Terminal,
    begun: TypeSoFar,
    state: &mut State,
) -> Result<Taken, AllocError>
    ensures { IfOk result (λ t. turn_of t state.new ≡ after_type terminal.now begun state.old.stack) }
{
    match terminal {
        Terminal::Operator(Operator::OpenBrace) => open_brace(alloc, begun, state),
        Terminal::Operator(Operator::CloseBrace) => close_brace(alloc, begun, state),
        Terminal::Operator(Operator::Comma) => after_comma(alloc, begun, state),
        Terminal::Operator(Operator::CloseParen) => close_paren(alloc, begun, state),
        Terminal::Operator(Operator::Subtype) => after_subtype(alloc, begun, state),
        Terminal::Operator(Operator::Supertype) => after_supertype(alloc, begun, state),
        Terminal::Word(Word::Where) => after_where(alloc, begun, state),
        _ => end_of_type(alloc, begun, state),
    }
}

/// What a token makes of a state, which is changed where it is.
pub fn step(alloc: Global, lexeme: &Lexeme, state: &mut State) -> Result<Taken, AllocError>
    ensures { IfOk result (λ t. turn_of t state.new
        ≡ step_at lexeme.now.terminal lexeme.now.at state.old.point state.old.stack) }
{
    match mem::replace(&mut state.point, Point::Want) {
        Point::Want => begin_type(lexeme, state),
        Point::Variable => begin_type(lexeme, state),
        Point::First => at_first(alloc, lexeme, state),
        Point::Next => at_next(lexeme, state),
        Point::Have(begun) => after_type(alloc, &lexeme.terminal, begun, state),
        Point::Where => at_where(alloc, lexeme, state),
        Point::Low(low) => at_low(lexeme, low, state),
        Point::Named(low, at, name) => at_named(&lexeme.terminal, low, at, name, state),
        Point::Closed(variables) => at_closed(alloc, &lexeme.terminal, variables, state),
    }
}
