//! A token behind a whole expression.

ghost use Rattle.std.specs.Prelude.{◌≡◌, ◌∷◌, IfOk, None, []};
ghost use Rattle.jl_grammar.specs.Goes.{state_at};
ghost use Rattle.jl_grammar.specs.Forms.{paren, tuple, call_expr, fetch_expr, print_expr, with_expr, with_show};
ghost use Rattle.jl_grammar.specs.declared.state.Frame.TheVariants.{Paren, Tuple, Args, Print};
ghost use Rattle.jl_grammar.specs.Turns.{at, end_item, end_stmt, end_eval, separator_after_expr, source_end_after_expr, word_after_stmts, word_after_evals, word_after_expr, comma_after_expr, paren_after_expr, colon_after_expr, operator_after_expr, token_after_expr};

use crate::blocks::{block_word, evals_word, item_of, push_frame, with_eval, with_stmt};
use crate::forms::{
    call_expr, fetch_expr, no_forms, paren, print_expr, tuple, with_expr, with_show,
};
use crate::items::with_item;
use crate::levels::{begin_form, no_pending};
use jl_grammar::owned::Owned;
use jl_grammar::state::{
    BlockKind, Called, EvalKind, Form, Forms, Frame, Lead, Outer, Pending, Point, Reading,
};
use jl_grammar::tree::{Eval, Expr, Item, Piece, Stmt};
use jl_token::token::Operator;
use jl_typeread::terminal::{Terminal, Word};
use std::alloc::{AllocError, Global};

/// An item has ended.
fn end_item(item: Option<Form<Item>>, reading: &mut Reading) -> Result<Option<Point>, AllocError>
    requires { reading.old.stack ≡ [] }
    ensures { IfOk result (λ p. state_at p reading.new ≡ end_item item reading.old.script) }
{
    match item {
        None => Ok(None),
        Some(item) => {
            with_item(&mut reading.script, item)?;
            Ok(Some(Point::Entry))
        }
    }
}

/// A statement of a block has ended.
fn end_stmt(
    stmts: Option<Forms<Stmt>>,
    kind: Owned<BlockKind>,
    reading: &mut Reading,
) -> Result<Option<Point>, AllocError>
    ensures { IfOk result (λ p. state_at p reading.new
        ≡ end_stmt stmts kind reading.old.stack reading.old.script) }
{
    match stmts {
        None => Ok(None),
        Some(stmts) => push_frame(Point::Entry, Frame::Block(kind, stmts), reading),
    }
}

/// A statement of an evaluated block has ended.
fn end_eval(
    evals: Option<Forms<Eval>>,
    kind: EvalKind,
    reading: &mut Reading,
) -> Result<Option<Point>, AllocError>
    ensures { IfOk result (λ p. state_at p reading.new
        ≡ end_eval evals kind reading.old.stack reading.old.script) }
{
    match evals {
        None => Ok(None),
        Some(evals) => push_frame(Point::Entry, Frame::Evals(kind, evals), reading),
    }
}

/// Nothing goes on with these.
fn reject(lead: Lead, e: Form<Expr>) -> Result<Option<Point>, AllocError>
    ensures { IfOk result (λ p. p ≡ None) }
{
    drop(lead);
    drop(e);
    Ok(None)
}

/// Nothing goes on with these, in this form.
fn reject_in(frame: Frame, e: Form<Expr>) -> Result<Option<Point>, AllocError>
    ensures { IfOk result (λ p. p ≡ None) }
{
    drop(frame);
    drop(e);
    Ok(None)
}

/// A separator behind an expression.
fn separator_after_expr(
    alloc: Global,
    lead: Lead,
    e: Form<Expr>,
    reading: &mut Reading,
) -> Result<Option<Point>, AllocError>
    ensures { IfOk result (λ p. state_at p reading.new
        ≡ separator_after_expr lead e reading.old.stack reading.old.script) }
{
    match reading.stack.pop() {
        None => {
            let item = item_of(alloc, lead, e)?;
            end_item(item, reading)
        }
        Some(Frame::Test(pending, place, branched, word)) => {
            drop(lead);
            let kind = BlockKind::Branch(pending, place, branched, word, e);
            let frame = Frame::Block(Owned::new(alloc, kind)?, no_forms(alloc));
            push_frame(Point::Entry, frame, reading)
        }
        Some(Frame::Block(kind, stmts)) => {
            let stmts = with_stmt(stmts, lead, e)?;
            end_stmt(stmts, kind, reading)
        }
        Some(Frame::Evals(kind, evals)) => {
            let evals = with_eval(alloc, evals, lead, e)?;
            end_eval(evals, kind, reading)
        }
        Some(frame) => {
            drop(lead);
            reject_in(frame, e)
        }
    }
}

/// The source's end behind an expression.
fn source_end_after_expr(
    alloc: Global,
    lead: Lead,
    e: Form<Expr>,
    reading: &mut Reading,
) -> Result<Option<Point>, AllocError>
    ensures { IfOk result (λ p. state_at p reading.new
        ≡ source_end_after_expr lead e reading.old.stack reading.old.script) }
{
    match reading.stack.pop() {
        None => {
            let item = item_of(alloc, lead, e)?;
            end_item(item, reading)
        }
        Some(frame) => {
            drop(lead);
            reject_in(frame, e)
        }
    }
}

/// A reserved word behind the last statement of a block.
fn word_after_stmts(
    alloc: Global,
    stmts: Option<Forms<Stmt>>,
    word: Word,
    place: u32,
    kind: Owned<BlockKind>,
    reading: &mut Reading,
) -> Result<Option<Point>, AllocError>
    ensures { IfOk result (λ p. state_at p reading.new
        ≡ word_after_stmts stmts word place kind reading.old.stack reading.old.script) }
{
    match stmts {
        None => Ok(None),
        Some(stmts) => block_word(alloc, word, place, kind, stmts, reading),
    }
}

/// A reserved word behind the last statement of an evaluated block.
fn word_after_evals(
    alloc: Global,
    evals: Option<Forms<Eval>>,
    word: Word,
    kind: EvalKind,
    reading: &mut Reading,
) -> Result<Option<Point>, AllocError>
    ensures { IfOk result (λ p. state_at p reading.new
        ≡ word_after_evals evals word kind reading.old.stack reading.old.script) }
{
    match evals {
        None => Ok(None),
        Some(evals) => evals_word(alloc, word, kind, evals, reading),
    }
}

/// A reserved word behind an expression.
pub(crate) fn word_after_expr(
    alloc: Global,
    word: Word,
    place: u32,
    lead: Lead,
    e: Form<Expr>,
    reading: &mut Reading,
) -> Result<Option<Point>, AllocError>
    ensures { IfOk result (λ p. state_at p reading.new
        ≡ word_after_expr word place lead e reading.old.stack reading.old.script) }
{
    match reading.stack.pop() {
        Some(Frame::Block(kind, stmts)) => {
            let stmts = with_stmt(stmts, lead, e)?;
            word_after_stmts(alloc, stmts, word, place, kind, reading)
        }
        Some(Frame::Evals(kind, evals)) => {
            let evals = with_eval(alloc, evals, lead, e)?;
            word_after_evals(alloc, evals, word, kind, reading)
        }
        Some(frame) => {
            drop(lead);
            reject_in(frame, e)
        }
        None => reject(lead, e),
    }
}

/// `,` behind the first part of a tuple.
#[inline(always)]
fn first_part(
    alloc: Global,
    pending: Owned<Pending>,
    place: u32,
    e: Form<Expr>,
    reading: &mut Reading,
) -> Result<Option<Point>, AllocError>
    ensures { IfOk result (λ p. state_at p reading.new
        ≡ comma_after_expr e (Paren pending place ∷ reading.old.stack) reading.old.script) }
{
    let returns = pending.get().returns;
    let parts = with_expr(no_forms(alloc), e)?;
    let frame = Frame::Tuple(pending, place, parts);
    push_frame(Point::Again(returns), frame, reading)
}

/// `,` behind a later part of a tuple.
#[inline(always)]
fn next_part(
    alloc: Global,
    pending: Owned<Pending>,
    place: u32,
    parts: Forms<Expr>,
    e: Form<Expr>,
    reading: &mut Reading,
) -> Result<Option<Point>, AllocError>
    ensures { IfOk result (λ p. state_at p reading.new
        ≡ comma_after_expr e (Tuple pending place parts ∷ reading.old.stack) reading.old.script) }
{
    let want = no_pending(alloc, pending.get().returns)?;
    let parts = with_expr(parts, e)?;
    let frame = Frame::Tuple(pending, place, parts);
    push_frame(Point::Want(want), frame, reading)
}

/// `,` behind an argument.
#[inline(always)]
fn next_argument(
    alloc: Global,
    pending: Owned<Pending>,
    place: u32,
    function: Owned<Called>,
    arguments: Forms<Expr>,
    e: Form<Expr>,
    reading: &mut Reading,
) -> Result<Option<Point>, AllocError>
    ensures { IfOk result (λ p. state_at p reading.new
        ≡ comma_after_expr e
        (Args pending place function arguments ∷ reading.old.stack) reading.old.script) }
{
    let want = no_pending(alloc, pending.get().returns)?;
    let arguments = with_expr(arguments, e)?;
    let frame = Frame::Args(pending, place, function, arguments);
    push_frame(Point::Want(want), frame, reading)
}

/// `,` behind a piece of a `print`.
fn next_piece(
    pending: Owned<Pending>,
    place: u32,
    line: bool,
    pieces: Forms<Piece>,
    e: Form<Expr>,
    reading: &mut Reading,
) -> Result<Option<Point>, AllocError>
    ensures { IfOk result (λ p. state_at p reading.new
        ≡ comma_after_expr e
        (Print pending place line pieces ∷ reading.old.stack) reading.old.script) }
{
    let returns = pending.get().returns;
    let pieces = with_show(pieces, e)?;
    let frame = Frame::Print(pending, place, line, pieces);
    push_frame(Point::Piece(returns), frame, reading)
}

/// `,` behind an expression.
#[inline(always)]
fn comma_after_expr(
    alloc: Global,
    e: Form<Expr>,
    reading: &mut Reading,
) -> Result<Option<Point>, AllocError>
    ensures { IfOk result (λ p. state_at p reading.new
        ≡ comma_after_expr e reading.old.stack reading.old.script) }
{
    match reading.stack.pop() {
        Some(Frame::Paren(pending, place)) => { first_part(alloc, pending, place, e, reading) }
        Some(Frame::Tuple(pending, place, parts)) => {
            next_part(alloc, pending, place, parts, e, reading)
        }
        Some(Frame::Args(pending, place, function, arguments)) => next_argument(
            alloc, pending, place, function, arguments, e, reading,
        ),
        Some(Frame::Print(pending, place, line, pieces)) => {
            next_piece(pending, place, line, pieces, e, reading)
        }
        Some(frame) => reject_in(frame, e),
        None => {
            drop(e);
            Ok(None)
        }
    }
}

/// `)` behind an expression in parentheses.
#[inline(always)]
fn end_paren(
    alloc: Global,
    pending: Owned<Pending>,
    place: u32,
    e: Form<Expr>,
    reading: &mut Reading,
) -> Result<Option<Point>, AllocError>
    ensures { IfOk result (λ p. state_at p reading.new
        ≡ at (Point.Have pending (paren place e)) reading.old.stack reading.old.script) }
{
    let e = paren(alloc, place, e)?;
    Ok(Some(Point::Have(pending, e)))
}

/// `)` behind the last part of a tuple.
#[inline(always)]
fn last_part(
    alloc: Global,
    pending: Owned<Pending>,
    place: u32,
    parts: Forms<Expr>,
    e: Form<Expr>,
    reading: &mut Reading,
) -> Result<Option<Point>, AllocError>
    ensures { IfOk result (λ p. state_at p reading.new
        ≡ at (Point.Have pending (tuple place (with_expr parts e)))
        reading.old.stack reading.old.script) }
{
    let parts = with_expr(parts, e)?;
    let e = tuple(alloc, place, parts)?;
    Ok(Some(Point::Have(pending, e)))
}

/// `)` behind the last argument.
#[inline(always)]
fn last_argument(
    alloc: Global,
    pending: Owned<Pending>,
    place: u32,
    function: Owned<Called>,
    arguments: Forms<Expr>,
    e: Form<Expr>,
    reading: &mut Reading,
) -> Result<Option<Point>, AllocError>
    ensures { IfOk result (λ p. state_at p reading.new
        ≡ at (Point.Have pending (call_expr place function (with_expr arguments e)))
        reading.old.stack reading.old.script) }
{
    let arguments = with_expr(arguments, e)?;
    let e = call_expr(alloc, place, function, arguments)?;
    Ok(Some(Point::Have(pending, e)))
}

/// `)` behind the task of a `fetch`.
fn end_fetch(
    alloc: Global,
    pending: Owned<Pending>,
    place: u32,
    e: Form<Expr>,
    reading: &mut Reading,
) -> Result<Option<Point>, AllocError>
    ensures { IfOk result (λ p. state_at p reading.new
        ≡ at (Point.Have pending (fetch_expr place e)) reading.old.stack reading.old.script) }
{
    let e = fetch_expr(alloc, place, e)?;
    Ok(Some(Point::Have(pending, e)))
}

/// `)` behind the last piece of a `print`.
fn last_piece(
    alloc: Global,
    pending: Owned<Pending>,
    place: u32,
    line: bool,
    pieces: Forms<Piece>,
    e: Form<Expr>,
    reading: &mut Reading,
) -> Result<Option<Point>, AllocError>
    ensures { IfOk result (λ p. state_at p reading.new
        ≡ at (Point.Have pending (print_expr place line (with_show pieces e)))
        reading.old.stack reading.old.script) }
{
    let pieces = with_show(pieces, e)?;
    let e = print_expr(alloc, place, line, pieces)?;
    Ok(Some(Point::Have(pending, e)))
}

/// `)` behind an expression.
#[inline(always)]
fn paren_after_expr(
    alloc: Global,
    e: Form<Expr>,
    reading: &mut Reading,
) -> Result<Option<Point>, AllocError>
    ensures { IfOk result (λ p. state_at p reading.new
        ≡ paren_after_expr e reading.old.stack reading.old.script) }
{
    match reading.stack.pop() {
        Some(Frame::Paren(pending, place)) => end_paren(alloc, pending, place, e, reading),
        Some(Frame::Tuple(pending, place, parts)) => {
            last_part(alloc, pending, place, parts, e, reading)
        }
        Some(Frame::Args(pending, place, function, arguments)) => last_argument(
            alloc, pending, place, function, arguments, e, reading,
        ),
        Some(Frame::Fetch(pending, place)) => end_fetch(alloc, pending, place, e, reading),
        Some(Frame::Print(pending, place, line, pieces)) => {
            last_piece(alloc, pending, place, line, pieces, e, reading)
        }
        Some(frame) => reject_in(frame, e),
        None => {
            drop(e);
            Ok(None)
        }
    }
}

/// The `:` of a conditional.
fn colon_after_expr(
    alloc: Global,
    e: Form<Expr>,
    reading: &mut Reading,
) -> Result<Option<Point>, AllocError>
    ensures { IfOk result (λ p. state_at p reading.new
        ≡ colon_after_expr e reading.old.stack reading.old.script) }
{
    match reading.stack.pop() {
        Some(Frame::Then(pending, test)) => {
            let mut pending = pending;
            let returns = pending.get().returns;
            let form = Outer::Otherwise(test, Owned::new(alloc, e)?);
            begin_form(alloc, form, returns, pending.get_mut())?;
            Ok(Some(Point::Want(pending)))
        }
        Some(frame) => reject_in(frame, e),
        None => {
            drop(e);
            Ok(None)
        }
    }
}

/// An operator or another mark behind an expression.
pub(crate) fn operator_after_expr(
    alloc: Global,
    operator: Operator,
    lead: Lead,
    e: Form<Expr>,
    reading: &mut Reading,
) -> Result<Option<Point>, AllocError>
    ensures { IfOk result (λ p. state_at p reading.new
        ≡ operator_after_expr operator lead e reading.old.stack reading.old.script) }
{
    match operator {
        Operator::Comma => {
            drop(lead);
            comma_after_expr(alloc, e, reading)
        }
        Operator::CloseParen => {
            drop(lead);
            paren_after_expr(alloc, e, reading)
        }
        Operator::Colon => {
            drop(lead);
            colon_after_expr(alloc, e, reading)
        }
        Operator::Semicolon => separator_after_expr(alloc, lead, e, reading),
        _ => reject(lead, e),
    }
}

/// A token behind an expression.
pub(crate) fn token_after_expr(
    alloc: Global,
    terminal: &Terminal,
    place: u32,
    lead: Lead,
    e: Form<Expr>,
    reading: &mut Reading,
) -> Result<Option<Point>, AllocError>
    ensures { IfOk result (λ p. state_at p reading.new
        ≡ token_after_expr terminal.now place lead e reading.old.stack reading.old.script) }
{
    match terminal {
        Terminal::Operator(operator) => operator_after_expr(alloc, *operator, lead, e, reading),
        Terminal::Word(word) => word_after_expr(alloc, *word, place, lead, e, reading),
        Terminal::Newline => separator_after_expr(alloc, lead, e, reading),
        Terminal::End => source_end_after_expr(alloc, lead, e, reading),
        _ => reject(lead, e),
    }
}
