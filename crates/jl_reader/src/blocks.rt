//! Where a reading goes on; statements, and the words that end blocks.

ghost use Rattle.std.specs.Prelude.{◌≡◌, ◌∷◌, IfOk};
ghost use Rattle.jl_grammar.specs.Goes.{state_at};
ghost use Rattle.jl_grammar.specs.Turns.{at, name_at, is_return_allowed, is_return_allowed_in, with_stmt, with_method, with_eval, item_of, end_block, block_elseif, block_else, block_word, end_evals, evals_word};

use crate::forms::{
    begin_expr, eval_block, eval_method, eval_quote, if_else_expr, if_expr, no_forms, with_branch,
    with_form,
};
use crate::items::{binding_item, expr_item, long_method, method_item, short_method};
use crate::levels::no_pending;
use jl_grammar::owned::Owned;
use jl_grammar::state::{BlockKind, EvalKind, Form, Forms, Frame, Lead, Place, Point, Reading};
use jl_grammar::tree::{Eval, Expr, Head, Item, Method, Name, Stmt};
use jl_model::rows::Stack;
use jl_model::ty::Bytes;
use jl_typeread::terminal::Word;
use std::alloc::{AllocError, Global};

/// The reading goes on inside of one more form.
pub(crate) fn push_frame(
    point: Point,
    frame: Frame,
    reading: &mut Reading,
) -> Result<Option<Point>, AllocError>
    ensures { IfOk result (λ p. state_at p reading.new
        ≡ at point (frame ∷ reading.old.stack) reading.old.script) }
{
    match reading.stack.push(frame) {
        Ok(()) => Ok(Some(point)),
        Err(error) => {
            drop(point);
            Err(error)
        }
    }
}

/// A name and its place.
pub(crate) fn name_at(at: u32, bytes: Bytes) -> Name
    ensures { result ≡ name_at at bytes }
{
    Name { at, bytes }
}

/// Whether a `return` may stand in a block.
pub(crate) fn is_return_allowed(kind: &BlockKind) -> bool
    ensures { result ≡ is_return_allowed kind.now }
{
    match kind {
        BlockKind::Begin(pending, _) => pending.get().returns,
        BlockKind::Branch(pending, ..) => pending.get().returns,
        BlockKind::Else(pending, ..) => pending.get().returns,
        BlockKind::Body(..) => true,
    }
}

/// Whether a `return` may stand in the innermost form that is open.
pub(crate) fn is_return_allowed_in(stack: &Stack<Frame>) -> bool
    ensures { result ≡ is_return_allowed_in stack.now }
{
    match stack.top() {
        Some(Frame::Block(kind, _)) => is_return_allowed(kind.get()),
        _ => false,
    }
}

/// An expression as a statement of a block.
pub(crate) fn with_stmt(
    stmts: Forms<Stmt>,
    lead: Lead,
    e: Form<Expr>,
) -> Result<Option<Forms<Stmt>>, AllocError>
    ensures { IfOk result (λ r. r ≡ with_stmt stmts lead e) }
{
    let Form { tree, depth, .. } = e;
    match lead {
        Lead::Plain => Ok(Some(with_form(stmts, Stmt::Do(tree.take()), depth)?)),
        Lead::Bind(name) => Ok(Some(with_form(stmts, Stmt::Bind(name, tree.take()), depth)?)),
        Lead::Return(at) => Ok(Some(with_form(stmts, Stmt::Return(at, tree.take()), depth)?)),
        Lead::Short(head) => {
            drop(head);
            drop(tree);
            Ok(None)
        }
    }
}

/// The evaluated statements and a method.
pub(crate) fn with_method(
    evals: Forms<Eval>,
    method: Form<Method>,
) -> Result<Forms<Eval>, AllocError>
    ensures { IfOk result (λ r. r ≡ with_method evals method) }
{
    with_form(evals, Eval::Method(method.tree.take()), method.depth)
}

/// An expression as an evaluated statement.
pub(crate) fn with_eval(
    alloc: Global,
    evals: Forms<Eval>,
    lead: Lead,
    e: Form<Expr>,
) -> Result<Option<Forms<Eval>>, AllocError>
    ensures { IfOk result (λ r. r ≡ with_eval evals lead e) }
{
    match lead {
        Lead::Plain => Ok(Some(with_form(evals, Eval::Do(e.tree.take()), e.depth)?)),
        Lead::Short(head) => {
            let method = short_method(alloc, head.take(), e)?;
            Ok(Some(with_method(evals, method)?))
        }
        lead => {
            drop(lead);
            drop(e);
            Ok(None)
        }
    }
}

/// An expression as an item.
pub(crate) fn item_of(
    alloc: Global,
    lead: Lead,
    e: Form<Expr>,
) -> Result<Option<Form<Item>>, AllocError>
    ensures { IfOk result (λ r. r ≡ item_of lead e) }
{
    match lead {
        Lead::Plain => Ok(Some(expr_item(alloc, e)?)),
        Lead::Bind(name) => Ok(Some(binding_item(alloc, name, e)?)),
        Lead::Short(head) => {
            let method = short_method(alloc, head.take(), e)?;
            Ok(Some(method_item(alloc, method)?))
        }
        Lead::Return(_) => {
            drop(e);
            Ok(None)
        }
    }
}

/// `end` of the body of a method.
fn end_body(
    alloc: Global,
    place: Place,
    head: Form<Head>,
    stmts: Forms<Stmt>,
    reading: &mut Reading,
) -> Result<Option<Point>, AllocError>
    ensures { IfOk result (λ p. state_at p reading.new
        ≡ end_block (BlockKind.Body place head) stmts reading.old.stack reading.old.script) }
{
    let method = long_method(alloc, head, stmts)?;
    match place {
        Place::Entry => Ok(Some(Point::MadeMethod(method))),
        Place::Evaluated(pending, place) => {
            let e = eval_method(alloc, place, method)?;
            Ok(Some(Point::Have(pending, e)))
        }
    }
}

/// `end` of a block.
pub(crate) fn end_block(
    alloc: Global,
    kind: Owned<BlockKind>,
    stmts: Forms<Stmt>,
    reading: &mut Reading,
) -> Result<Option<Point>, AllocError>
    ensures { IfOk result (λ p. state_at p reading.new
        ≡ end_block kind stmts reading.old.stack reading.old.script) }
{
    match kind.take() {
        BlockKind::Begin(pending, place) => {
            let e = begin_expr(alloc, place, stmts)?;
            Ok(Some(Point::Have(pending, e)))
        }
        BlockKind::Branch(pending, place, branched, word, test) => {
            let branched = with_branch(alloc, branched, word, test, stmts)?;
            let e = if_expr(alloc, place, branched)?;
            Ok(Some(Point::Have(pending, e)))
        }
        BlockKind::Else(pending, place, branched) => {
            let e = if_else_expr(alloc, place, branched, stmts)?;
            Ok(Some(Point::Have(pending, e)))
        }
        BlockKind::Body(place, head) => end_body(alloc, place, head, stmts, reading),
    }
}

/// `elseif` at the end of a branch.
pub(crate) fn block_elseif(
    alloc: Global,
    place: u32,
    kind: Owned<BlockKind>,
    stmts: Forms<Stmt>,
    reading: &mut Reading,
) -> Result<Option<Point>, AllocError>
    ensures { IfOk result (λ p. state_at p reading.new
        ≡ block_elseif place kind stmts reading.old.stack reading.old.script) }
{
    match kind.take() {
        BlockKind::Branch(pending, start, branched, word, test) => {
            let branched = with_branch(alloc, branched, word, test, stmts)?;
            let want = Point::Want(no_pending(alloc, pending.get().returns)?);
            let frame = Frame::Test(pending, start, branched, place);
            push_frame(want, frame, reading)
        }
        kind => {
            drop(kind);
            Ok(None)
        }
    }
}

/// `else` at the end of a branch.
pub(crate) fn block_else(
    alloc: Global,
    kind: Owned<BlockKind>,
    stmts: Forms<Stmt>,
    reading: &mut Reading,
) -> Result<Option<Point>, AllocError>
    ensures { IfOk result (λ p. state_at p reading.new
        ≡ block_else kind stmts reading.old.stack reading.old.script) }
{
    match kind.take() {
        BlockKind::Branch(pending, place, branched, word, test) => {
            let branched = with_branch(alloc, branched, word, test, stmts)?;
            let kind = Owned::new(alloc, BlockKind::Else(pending, place, branched))?;
            push_frame(Point::Entry, Frame::Block(kind, no_forms(alloc)), reading)
        }
        kind => {
            drop(kind);
            Ok(None)
        }
    }
}

/// A reserved word at the end of a block, or of a part of it.
pub(crate) fn block_word(
    alloc: Global,
    word: Word,
    place: u32,
    kind: Owned<BlockKind>,
    stmts: Forms<Stmt>,
    reading: &mut Reading,
) -> Result<Option<Point>, AllocError>
    ensures { IfOk result (λ p. state_at p reading.new
        ≡ block_word word place kind stmts reading.old.stack reading.old.script) }
{
    match word {
        Word::End => end_block(alloc, kind, stmts, reading),
        Word::Elseif => block_elseif(alloc, place, kind, stmts, reading),
        Word::Else => block_else(alloc, kind, stmts, reading),
        _ => {
            drop(kind);
            Ok(None)
        }
    }
}

/// `end` of an evaluated block.
pub(crate) fn end_evals(
    alloc: Global,
    kind: EvalKind,
    evals: Forms<Eval>,
    reading: &mut Reading,
) -> Result<Option<Point>, AllocError>
    ensures { IfOk result (λ p. state_at p reading.new
        ≡ end_evals kind evals reading.old.stack reading.old.script) }
{
    match kind {
        EvalKind::Begin(pending, place) => {
            let e = eval_block(alloc, place, evals)?;
            Ok(Some(Point::Have(pending, e)))
        }
        EvalKind::Quote(pending, place) => {
            let e = eval_quote(alloc, place, evals)?;
            Ok(Some(Point::Ending(pending, e)))
        }
    }
}

/// A reserved word at the end of an evaluated block.
pub(crate) fn evals_word(
    alloc: Global,
    word: Word,
    kind: EvalKind,
    evals: Forms<Eval>,
    reading: &mut Reading,
) -> Result<Option<Point>, AllocError>
    ensures { IfOk result (λ p. state_at p reading.new
        ≡ evals_word word kind evals reading.old.stack reading.old.script) }
{
    match word {
        Word::End => end_evals(alloc, kind, evals, reading),
        _ => {
            drop(kind);
            Ok(None)
        }
    }
}
