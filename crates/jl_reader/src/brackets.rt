//! A token between brackets that may be empty, and behind an operand's dot or square bracket.

ghost use Rattle.std.specs.Prelude.{◌≡◌, IfOk};
ghost use Rattle.jl_grammar.specs.Goes.{state_at};
ghost use Rattle.jl_grammar.specs.Levels.{no_pending};
ghost use Rattle.jl_grammar.specs.Turns.{begin_operand, close_first, push_string, at_first, close_again, at_again, at_piece, close_text, text_comma, at_texted, at_dot, at_index, at_indexed, at_ending};

use crate::blocks::{name_at, push_frame};
use crate::forms::{call_expr, field, no_forms, part, print_expr, tuple, with_text};
use crate::levels::no_pending;
use crate::operands::begin_operand;
use jl_grammar::mark::Marks;
use jl_grammar::owned::Owned;
use jl_grammar::state::{Form, Frame, Pending, Point, Reading};
use jl_grammar::tree::Expr;
use jl_model::ty::Bytes;
use jl_token::token::Operator;
use jl_typeread::terminal::Terminal;
use std::alloc::{AllocError, Global};

/// `)` behind a bracket that may be empty.
#[inline(always)]
fn close_first(alloc: Global, reading: &mut Reading) -> Result<Option<Point>, AllocError>
    ensures { IfOk result (λ p. state_at p reading.new
        ≡ close_first reading.old.stack reading.old.script) }
{
    match reading.stack.pop() {
        Some(Frame::Paren(pending, place)) => {
            let e = tuple(alloc, place, no_forms(alloc))?;
            Ok(Some(Point::Have(pending, e)))
        }
        Some(Frame::Args(pending, place, function, arguments)) => {
            let e = call_expr(alloc, place, function, arguments)?;
            Ok(Some(Point::Have(pending, e)))
        }
        Some(Frame::Print(pending, place, line, pieces)) => {
            let e = print_expr(alloc, place, line, pieces)?;
            Ok(Some(Point::Have(pending, e)))
        }
        Some(frame) => {
            drop(frame);
            Ok(None)
        }
        None => Ok(None),
    }
}

/// A string.
fn push_string(place: u32, text: Bytes, reading: &mut Reading) -> Result<Option<Point>, AllocError>
    ensures { IfOk result (λ p. state_at p reading.new
        ≡ push_string place text reading.old.stack reading.old.script) }
{
    match reading.stack.pop() {
        Some(Frame::Print(pending, start, line, pieces)) => {
            let pieces = with_text(pieces, place, text)?;
            let frame = Frame::Print(pending, start, line, pieces);
            push_frame(Point::Texted, frame, reading)
        }
        Some(frame) => {
            drop(frame);
            Ok(None)
        }
        None => Ok(None),
    }
}

/// An operand begins between brackets, or behind a comma in them.
#[inline(always)]
fn begin_first(
    alloc: Global,
    terminal: &Terminal,
    marks: Marks,
    place: u32,
    returns: bool,
    reading: &mut Reading,
) -> Result<Option<Point>, AllocError>
    ensures { IfOk result (λ p. state_at p reading.new
        ≡ begin_operand terminal.now marks place (no_pending returns)
        reading.old.stack reading.old.script) }
{
    let pending = no_pending(alloc, returns)?;
    begin_operand(alloc, terminal, marks, place, pending, reading)
}

/// A token directly behind a bracket that may be empty.
#[inline(always)]
pub(crate) fn at_first(
    alloc: Global,
    terminal: &Terminal,
    marks: Marks,
    place: u32,
    returns: bool,
    reading: &mut Reading,
) -> Result<Option<Point>, AllocError>
    ensures { IfOk result (λ p. state_at p reading.new
        ≡ at_first terminal.now marks place returns reading.old.stack reading.old.script) }
{
    match terminal {
        Terminal::Operator(operator) => match operator {
            Operator::CloseParen => close_first(alloc, reading),
            _ => begin_first(alloc, terminal, marks, place, returns, reading),
        },
        Terminal::Text(text) => push_string(place, text.copy()?, reading),
        _ => begin_first(alloc, terminal, marks, place, returns, reading),
    }
}

/// `)` behind the comma after a tuple's only part.
fn close_again(alloc: Global, reading: &mut Reading) -> Result<Option<Point>, AllocError>
    ensures { IfOk result (λ p. state_at p reading.new
        ≡ close_again reading.old.stack reading.old.script) }
{
    match reading.stack.pop() {
        Some(Frame::Tuple(pending, place, parts)) => {
            let e = tuple(alloc, place, parts)?;
            Ok(Some(Point::Have(pending, e)))
        }
        Some(frame) => {
            drop(frame);
            Ok(None)
        }
        None => Ok(None),
    }
}

/// A token behind the comma after a tuple's only part.
#[inline(always)]
pub(crate) fn at_again(
    alloc: Global,
    terminal: &Terminal,
    marks: Marks,
    place: u32,
    returns: bool,
    reading: &mut Reading,
) -> Result<Option<Point>, AllocError>
    ensures { IfOk result (λ p. state_at p reading.new
        ≡ at_again terminal.now marks place returns reading.old.stack reading.old.script) }
{
    match terminal {
        Terminal::Operator(operator) => match operator {
            Operator::CloseParen => close_again(alloc, reading),
            _ => begin_first(alloc, terminal, marks, place, returns, reading),
        },
        _ => begin_first(alloc, terminal, marks, place, returns, reading),
    }
}

/// A token where a piece of a `print` must stand.
pub(crate) fn at_piece(
    alloc: Global,
    terminal: &Terminal,
    marks: Marks,
    place: u32,
    returns: bool,
    reading: &mut Reading,
) -> Result<Option<Point>, AllocError>
    ensures { IfOk result (λ p. state_at p reading.new
        ≡ at_piece terminal.now marks place returns reading.old.stack reading.old.script) }
{
    match terminal {
        Terminal::Text(text) => push_string(place, text.copy()?, reading),
        _ => begin_first(alloc, terminal, marks, place, returns, reading),
    }
}

/// `)` behind a string.
fn close_text(alloc: Global, reading: &mut Reading) -> Result<Option<Point>, AllocError>
    ensures { IfOk result (λ p. state_at p reading.new
        ≡ close_text reading.old.stack reading.old.script) }
{
    match reading.stack.pop() {
        Some(Frame::Print(pending, place, line, pieces)) => {
            let e = print_expr(alloc, place, line, pieces)?;
            Ok(Some(Point::Have(pending, e)))
        }
        Some(frame) => {
            drop(frame);
            Ok(None)
        }
        None => Ok(None),
    }
}

/// `,` behind a string.
fn text_comma(reading: &mut Reading) -> Result<Option<Point>, AllocError>
    ensures { IfOk result (λ p. state_at p reading.new
        ≡ text_comma reading.old.stack reading.old.script) }
{
    match reading.stack.pop() {
        Some(Frame::Print(pending, place, line, pieces)) => {
            let point = Point::Piece(pending.get().returns);
            let frame = Frame::Print(pending, place, line, pieces);
            push_frame(point, frame, reading)
        }
        Some(frame) => {
            drop(frame);
            Ok(None)
        }
        None => Ok(None),
    }
}

/// A token directly behind a string.
pub(crate) fn at_texted(
    alloc: Global,
    terminal: &Terminal,
    reading: &mut Reading,
) -> Result<Option<Point>, AllocError>
    ensures { IfOk result (λ p. state_at p reading.new
        ≡ at_texted terminal.now reading.old.stack reading.old.script) }
{
    match terminal {
        Terminal::Operator(Operator::CloseParen) => close_text(alloc, reading),
        Terminal::Operator(Operator::Comma) => text_comma(reading),
        _ => Ok(None),
    }
}

/// A token behind the dot of an operand.
pub(crate) fn at_dot(
    alloc: Global,
    terminal: &Terminal,
    place: u32,
    pending: Owned<Pending>,
    e: Form<Expr>,
    reading: &mut Reading,
) -> Result<Option<Point>, AllocError>
    ensures { IfOk result (λ p. state_at p reading.new
        ≡ at_dot terminal.now place pending e reading.old.stack reading.old.script) }
{
    match terminal {
        Terminal::Name(bytes) => {
            let e = field(alloc, e, name_at(place, bytes.copy()?))?;
            Ok(Some(Point::Have(pending, e)))
        }
        _ => Ok(None),
    }
}

/// A token behind `[`.
pub(crate) fn at_index(
    terminal: &Terminal,
    pending: Owned<Pending>,
    e: Form<Expr>,
    reading: &mut Reading,
) -> Option<Point>
    ensures { state_at result reading.new
        ≡ at_index terminal.now pending e reading.old.stack reading.old.script }
{
    match terminal {
        Terminal::Number(number) if *number >= 1 => { Some(Point::Indexed(pending, e, *number)) }
        _ => None,
    }
}

/// A token behind the number in `[ ]`.
pub(crate) fn at_indexed(
    alloc: Global,
    terminal: &Terminal,
    pending: Owned<Pending>,
    e: Form<Expr>,
    number: i64,
    reading: &mut Reading,
) -> Result<Option<Point>, AllocError>
    ensures { IfOk result (λ p. state_at p reading.new
        ≡ at_indexed terminal.now pending e number reading.old.stack reading.old.script) }
{
    match terminal {
        Terminal::Operator(Operator::CloseBracket) => {
            let e = part(alloc, e, number)?;
            Ok(Some(Point::Have(pending, e)))
        }
        _ => Ok(None),
    }
}

/// The bracket that ends a form which is whole otherwise.
pub(crate) fn at_ending(
    terminal: &Terminal,
    pending: Owned<Pending>,
    e: Form<Expr>,
    reading: &mut Reading,
) -> Option<Point>
    ensures { state_at result reading.new
        ≡ at_ending terminal.now pending e reading.old.stack reading.old.script }
{
    match terminal {
        Terminal::Operator(Operator::CloseParen) => Some(Point::Have(pending, e)),
        _ => None,
    }
}
