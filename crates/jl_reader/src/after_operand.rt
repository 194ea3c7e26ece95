//! A token behind an operand.

ghost use Rattle.std.specs.Prelude.{◌≡◌, ◌∷◌, IfOk};
ghost use Rattle.jl_grammar.specs.Goes.{state_at};
ghost use Rattle.jl_grammar.specs.Levels.{no_levels, no_pending, with_levels, as_comparison, as_or, levels_after_and, levels_after_or, levels_after_comparison};
ghost use Rattle.jl_grammar.specs.Turns.{at, has_no_comparison, operator_after_comparison, token_after_comparison, push_term, push_sum, push_first_comparison, type_start, push_isa, operator_after_operand, word_after_operand, token_after_operand};

use crate::after_expr::{operator_after_expr, token_after_expr, word_after_expr};
use crate::blocks::push_frame;
use crate::levels::{
    end_comparison, expression, has_no_comparison, levels_after_and, levels_after_comparison,
    levels_after_or, levels_after_sum, levels_after_term, no_pending, take_sum, test_of,
};
use jl_grammar::owned::Owned;
use jl_grammar::state::{Form, Frame, Goal, Pending, Point, Reading};
use jl_grammar::tree::{Expr, Infix};
use jl_model::rows::Stack;
use jl_token::token::Operator;
use jl_typeread::state::{Point as TypePoint, State as TypeState};
use jl_typeread::terminal::{Terminal, Word};
use std::alloc::{AllocError, Global};

/// `&&` behind a comparison.
#[inline(always)]
fn push_and(
    alloc: Global,
    pending: Owned<Pending>,
    e: Form<Expr>,
    reading: &mut Reading,
) -> Result<Option<Point>, AllocError>
    ensures { IfOk result (λ p. state_at p reading.new
        ≡ at (Point.Want (with_levels (levels_after_and pending.levels e) pending))
        reading.old.stack reading.old.script) }
{
    let mut pending = pending;
    levels_after_and(alloc, pending.get_mut(), e)?;
    Ok(Some(Point::Want(pending)))
}

/// `||` behind a comparison.
#[inline(always)]
fn push_or(
    alloc: Global,
    pending: Owned<Pending>,
    e: Form<Expr>,
    reading: &mut Reading,
) -> Result<Option<Point>, AllocError>
    ensures { IfOk result (λ p. state_at p reading.new
        ≡ at (Point.Want (with_levels (levels_after_or pending.levels e) pending))
        reading.old.stack reading.old.script) }
{
    let mut pending = pending;
    levels_after_or(alloc, pending.get_mut(), e)?;
    Ok(Some(Point::Want(pending)))
}

/// The `?` of a conditional.
#[inline(always)]
fn push_choose(
    alloc: Global,
    pending: Owned<Pending>,
    e: Form<Expr>,
    reading: &mut Reading,
) -> Result<Option<Point>, AllocError>
    ensures { IfOk result (λ p. state_at p reading.new
        ≡ at (Point.Want (no_pending pending.returns))
        (Frame.Then (with_levels no_levels pending) (as_or pending.levels e)
        ∷ reading.old.stack) reading.old.script) }
{
    let mut pending = pending;
    let test = test_of(alloc, pending.get_mut(), e)?;
    let want = no_pending(alloc, pending.get().returns)?;
    let frame = Frame::Then(pending, Owned::new(alloc, test)?);
    push_frame(Point::Want(want), frame, reading)
}

/// An operator or another mark behind a comparison.
#[inline(always)]
fn operator_after_comparison(
    alloc: Global,
    operator: Operator,
    place: u32,
    pending: Owned<Pending>,
    e: Form<Expr>,
    reading: &mut Reading,
) -> Result<Option<Point>, AllocError>
    ensures { IfOk result (λ p. state_at p reading.new
        ≡ operator_after_comparison operator place pending e reading.old.stack reading.old.script) }
{
    match operator {
        Operator::And => push_and(alloc, pending, e, reading),
        Operator::Or => push_or(alloc, pending, e, reading),
        Operator::Question => push_choose(alloc, pending, e, reading),
        _ => {
            let (lead, e) = expression(alloc, pending, e)?;
            operator_after_expr(alloc, operator, lead, e, reading)
        }
    }
}

/// A token behind a comparison.
pub(crate) fn token_after_comparison(
    alloc: Global,
    terminal: &Terminal,
    place: u32,
    pending: Owned<Pending>,
    e: Form<Expr>,
    reading: &mut Reading,
) -> Result<Option<Point>, AllocError>
    ensures { IfOk result (λ p. state_at p reading.new
        ≡ token_after_comparison terminal.now place pending e
        reading.old.stack reading.old.script) }
{
    match terminal {
        Terminal::Operator(operator) => {
            operator_after_comparison(alloc, *operator, place, pending, e, reading)
        }
        _ => {
            let (lead, e) = expression(alloc, pending, e)?;
            token_after_expr(alloc, terminal, place, lead, e, reading)
        }
    }
}

/// `*`, `÷` or `%` behind an operand.
#[inline(always)]
fn push_term(
    alloc: Global,
    operator: Infix,
    pending: Owned<Pending>,
    e: Form<Expr>,
    reading: &mut Reading,
) -> Result<Option<Point>, AllocError>
    ensures { IfOk result (λ p. state_at p reading.new
        ≡ push_term operator pending e reading.old.stack reading.old.script) }
{
    let mut pending = pending;
    levels_after_term(alloc, operator, pending.get_mut(), e)?;
    Ok(Some(Point::Want(pending)))
}

/// `+` or `-` behind an operand.
#[inline(always)]
fn push_sum(
    alloc: Global,
    operator: Infix,
    pending: Owned<Pending>,
    e: Form<Expr>,
    reading: &mut Reading,
) -> Result<Option<Point>, AllocError>
    ensures { IfOk result (λ p. state_at p reading.new
        ≡ push_sum operator pending e reading.old.stack reading.old.script) }
{
    let mut pending = pending;
    levels_after_sum(alloc, operator, pending.get_mut(), e)?;
    Ok(Some(Point::Want(pending)))
}

/// The operator of a comparison behind its left operand.
#[inline(always)]
fn push_comparison(
    alloc: Global,
    operator: Infix,
    pending: Owned<Pending>,
    e: Form<Expr>,
    reading: &mut Reading,
) -> Result<Option<Point>, AllocError>
    ensures { IfOk result (λ p. state_at p reading.new
        ≡ at (Point.Want (with_levels (levels_after_comparison operator pending.levels e) pending))
        reading.old.stack reading.old.script) }
{
    let mut pending = pending;
    levels_after_comparison(alloc, operator, pending.get_mut(), e)?;
    Ok(Some(Point::Want(pending)))
}

/// The operator of a comparison behind an operand. A comparison has one operator.
fn push_first_comparison(
    alloc: Global,
    operator: Infix,
    pending: Owned<Pending>,
    e: Form<Expr>,
    reading: &mut Reading,
) -> Result<Option<Point>, AllocError>
    ensures { IfOk result (λ p. state_at p reading.new
        ≡ push_first_comparison (has_no_comparison pending.levels) operator pending e
        reading.old.stack reading.old.script) }
{
    if !has_no_comparison(&pending.get().levels) {
        return Ok(None);
    }
    push_comparison(alloc, operator, pending, e, reading)
}

/// The beginning of a type.
pub(crate) fn type_start(alloc: Global) -> TypeState
    ensures { result ≡ type_start }
{
    TypeState {
        point: TypePoint::Want,
        stack: Stack::new(alloc),
    }
}

/// A type must stand next, which is read for this goal.
pub(crate) fn want_type(alloc: Global, goal: Goal) -> Result<Point, AllocError>
    ensures { IfOk result (λ p. p ≡ Point.Type goal type_start) }
{
    let goal = Owned::new(alloc, goal)?;
    let state = Owned::new(alloc, type_start(alloc))?;
    Ok(Point::Type(goal, state))
}

/// `isa` behind an operand.
fn push_isa(
    alloc: Global,
    pending: Owned<Pending>,
    e: Form<Expr>,
    reading: &mut Reading,
) -> Result<Option<Point>, AllocError>
    ensures { IfOk result (λ p. state_at p reading.new
        ≡ push_isa (has_no_comparison pending.levels) pending e
        reading.old.stack reading.old.script) }
{
    if !has_no_comparison(&pending.get().levels) {
        return Ok(None);
    }
    let mut pending = pending;
    let e = take_sum(alloc, pending.get_mut(), e)?;
    Ok(Some(want_type(alloc, Goal::Isa(pending, e))?))
}

/// An operator or another mark that the comparison does not go on with.
#[inline(always)]
fn operator_past_comparison(
    alloc: Global,
    operator: Operator,
    place: u32,
    pending: Owned<Pending>,
    e: Form<Expr>,
    reading: &mut Reading,
) -> Result<Option<Point>, AllocError>
    ensures { IfOk result (λ p. state_at p reading.new
        ≡ operator_after_comparison operator place pending (as_comparison pending.levels e)
        reading.old.stack reading.old.script) }
{
    let mut pending = pending;
    let e = end_comparison(alloc, pending.get_mut(), e)?;
    operator_after_comparison(alloc, operator, place, pending, e, reading)
}

/// An operator or another mark behind an operand.
#[inline(always)]
fn operator_after_operand(
    alloc: Global,
    operator: Operator,
    place: u32,
    pending: Owned<Pending>,
    e: Form<Expr>,
    reading: &mut Reading,
) -> Result<Option<Point>, AllocError>
    ensures { IfOk result (λ p. state_at p reading.new
        ≡ operator_after_operand operator place pending e reading.old.stack reading.old.script) }
{
    match operator {
        Operator::Dot => Ok(Some(Point::Dot(pending, e))),
        Operator::OpenBracket => Ok(Some(Point::Index(pending, e))),
        Operator::Times => push_term(alloc, Infix::Times, pending, e, reading),
        Operator::Divide => push_term(alloc, Infix::Divide, pending, e, reading),
        Operator::Remainder => push_term(alloc, Infix::Remainder, pending, e, reading),
        Operator::Plus => push_sum(alloc, Infix::Plus, pending, e, reading),
        Operator::Minus => push_sum(alloc, Infix::Minus, pending, e, reading),
        Operator::Equal => push_first_comparison(alloc, Infix::Equal, pending, e, reading),
        Operator::NotEqual => push_first_comparison(alloc, Infix::NotEqual, pending, e, reading),
        Operator::Less => push_first_comparison(alloc, Infix::Less, pending, e, reading),
        Operator::LessEqual => push_first_comparison(alloc, Infix::LessEqual, pending, e, reading),
        Operator::Greater => push_first_comparison(alloc, Infix::Greater, pending, e, reading),
        Operator::GreaterEqual => push_first_comparison(
            alloc,
            Infix::GreaterEqual,
            pending,
            e,
            reading,
        ),
        Operator::Identical => push_first_comparison(alloc, Infix::Identical, pending, e, reading),
        Operator::NotIdentical => push_first_comparison(
            alloc,
            Infix::NotIdentical,
            pending,
            e,
            reading,
        ),
        _ => operator_past_comparison(alloc, operator, place, pending, e, reading),
    }
}

/// A reserved word behind an operand.
fn word_after_operand(
    alloc: Global,
    word: Word,
    place: u32,
    pending: Owned<Pending>,
    e: Form<Expr>,
    reading: &mut Reading,
) -> Result<Option<Point>, AllocError>
    ensures { IfOk result (λ p. state_at p reading.new
        ≡ word_after_operand word place pending e reading.old.stack reading.old.script) }
{
    match word {
        Word::Isa => push_isa(alloc, pending, e, reading),
        _ => {
            let mut pending = pending;
            let e = end_comparison(alloc, pending.get_mut(), e)?;
            let (lead, e) = expression(alloc, pending, e)?;
            word_after_expr(alloc, word, place, lead, e, reading)
        }
    }
}

/// A token behind an operand.
#[inline(always)]
pub(crate) fn token_after_operand(
    alloc: Global,
    terminal: &Terminal,
    place: u32,
    pending: Owned<Pending>,
    e: Form<Expr>,
    reading: &mut Reading,
) -> Result<Option<Point>, AllocError>
    ensures { IfOk result (λ p. state_at p reading.new
        ≡ token_after_operand terminal.now place pending e reading.old.stack reading.old.script) }
{
    match terminal {
        Terminal::Operator(operator) => {
            operator_after_operand(alloc, *operator, place, pending, e, reading)
        }
        Terminal::Word(word) => word_after_operand(alloc, *word, place, pending, e, reading),
        _ => {
            let mut pending = pending;
            let e = end_comparison(alloc, pending.get_mut(), e)?;
            let (lead, e) = expression(alloc, pending, e)?;
            token_after_expr(alloc, terminal, place, lead, e, reading)
        }
    }
}
