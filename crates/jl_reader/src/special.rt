//! Special forms: `@eval`, and the fixed tokens of the others.

ghost use Rattle.std.specs.Prelude.{◌≡◌, IfOk, OnOk, false};
ghost use Rattle.jl_grammar.specs.Goes.{state_at};
ghost use Rattle.jl_grammar.specs.Levels.{push_outer};
ghost use Rattle.jl_grammar.specs.Machine.{pending_of_eval, name_after_eval, word_after_eval, token_after_eval, due_dot, due_open, due_which, due_name, due_macro, due_quote, at_due, at_deleting};

use crate::after_operand::want_type;
use crate::blocks::{name_at, push_frame};
use crate::entries::{begin_long, is_method};
use crate::forms::no_forms;
use crate::levels::{begin_form, no_pending, take_levels};
use crate::operands::{begin_name, begin_operand, begin_word};
use jl_grammar::mark::Marks;
use jl_grammar::owned::Owned;
use jl_grammar::state::{
    Due, EvalKind, Frame, Goal, Outer, Pending, Place, Point, Purpose, Reading, Start,
};
use jl_grammar::tree::Name;
use jl_model::ty::Bytes;
use jl_token::token::Operator;
use jl_typeread::terminal::{Terminal, Word};
use std::alloc::{AllocError, Global};

/// What stands before the expression behind `@eval`.
fn evaluate(alloc: Global, pending: &mut Pending, place: u32) -> Result<(), AllocError>
    ensures { OnOk result (pending.new ≡ pending_of_eval pending.old place) }
{
    let levels = take_levels(alloc, &mut pending.levels);
    begin_form(alloc, Outer::Eval(levels, place), false, pending)
}

/// What stands before the expression behind `Threads.@spawn`.
fn spawn(alloc: Global, pending: &mut Pending, place: u32) -> Result<(), AllocError>
    ensures { OnOk result (pending.new
        ≡ push_outer (Outer.Spawn pending.old.levels place) false pending.old) }
{
    let levels = take_levels(alloc, &mut pending.levels);
    begin_form(alloc, Outer::Spawn(levels, place), false, pending)
}

/// A name behind `@eval`.
fn name_after_eval(
    alloc: Global,
    is_method: bool,
    marks: Marks,
    name: Bytes,
    next: u32,
    pending: Owned<Pending>,
    place: u32,
    reading: &mut Reading,
) -> Result<Option<Point>, AllocError>
    ensures { IfOk result (λ p. state_at p reading.new
        ≡ name_after_eval is_method marks name next pending place
        reading.old.stack reading.old.script) }
{
    if is_method {
        let start = Start {
            place: Place::Evaluated(pending, place),
            long: false,
            at: next,
        };
        let purpose = Purpose::Head(Owned::new(alloc, start)?);
        return Ok(Some(Point::Named(purpose, name_at(next, name))));
    }
    let mut pending = pending;
    evaluate(alloc, pending.get_mut(), place)?;
    begin_name(alloc, marks, name, next, pending, reading)
}

/// A reserved word behind `@eval`.
fn word_after_eval(
    alloc: Global,
    word: Word,
    next: u32,
    pending: Owned<Pending>,
    place: u32,
    reading: &mut Reading,
) -> Result<Option<Point>, AllocError>
    ensures { IfOk result (λ p. state_at p reading.new
        ≡ word_after_eval word next pending place reading.old.stack reading.old.script) }
{
    match word {
        Word::Begin => {
            let frame = Frame::Evals(EvalKind::Begin(pending, place), no_forms(alloc));
            push_frame(Point::Entry, frame, reading)
        }
        Word::Function => begin_long(alloc, Place::Evaluated(pending, place), next, reading),
        word => {
            let mut pending = pending;
            evaluate(alloc, pending.get_mut(), place)?;
            begin_word(alloc, word, next, pending, reading)
        }
    }
}

/// A token behind `@eval`, which stands at the second place.
pub(crate) fn token_after_eval(
    alloc: Global,
    terminal: &Terminal,
    marks: Marks,
    next: u32,
    pending: Owned<Pending>,
    place: u32,
    reading: &mut Reading,
) -> Result<Option<Point>, AllocError>
    ensures { IfOk result (λ p. state_at p reading.new
        ≡ token_after_eval terminal.now marks next pending place
        reading.old.stack reading.old.script) }
{
    match terminal {
        Terminal::Name(name) => {
            let is_method = is_method(marks.ahead);
            let name = name.copy()?;
            name_after_eval(alloc, is_method, marks, name, next, pending, place, reading)
        }
        Terminal::Word(word) => word_after_eval(alloc, *word, next, pending, place, reading),
        _ => {
            let mut pending = pending;
            evaluate(alloc, pending.get_mut(), place)?;
            begin_operand(alloc, terminal, marks, next, pending, reading)
        }
    }
}

/// `.` as a fixed token.
fn due_dot(
    due: Due,
    pending: Owned<Pending>,
    place: u32,
    reading: &mut Reading,
) -> Result<Option<Point>, AllocError>
    ensures { IfOk result (λ p. state_at p reading.new
        ≡ due_dot due pending place reading.old.stack reading.old.script) }
{
    match due {
        Due::SpawnDot => Ok(Some(Point::Due(pending, place, Due::SpawnMacro))),
        Due::LatestDot => Ok(Some(Point::Due(pending, place, Due::LatestName))),
        Due::DeleteDot => Ok(Some(Point::Due(pending, place, Due::DeleteName))),
        _ => Ok(None),
    }
}

/// `(` as a fixed token.
fn due_open(
    alloc: Global,
    due: Due,
    pending: Owned<Pending>,
    place: u32,
    reading: &mut Reading,
) -> Result<Option<Point>, AllocError>
    ensures { IfOk result (λ p. state_at p reading.new
        ≡ due_open due pending place reading.old.stack reading.old.script) }
{
    match due {
        Due::LatestOpen => Ok(Some(Point::Function(Purpose::Latest(pending, place)))),
        Due::DeleteOpen => Ok(Some(Point::Due(pending, place, Due::WhichWord))),
        Due::WhichOpen => Ok(Some(Point::Due(pending, place, Due::WhichName))),
        Due::FetchOpen => {
            let point = Point::Want(no_pending(alloc, pending.get().returns)?);
            push_frame(point, Frame::Fetch(pending, place), reading)
        }
        Due::PrintOpen(line) => {
            let point = Point::First(pending.get().returns);
            let frame = Frame::Print(pending, place, line, no_forms(alloc));
            push_frame(point, frame, reading)
        }
        Due::QuoteOpen => Ok(Some(Point::Due(pending, place, Due::QuoteWord))),
        _ => Ok(None),
    }
}

/// `which` as a fixed token.
fn due_which(
    is_which: bool,
    pending: Owned<Pending>,
    place: u32,
    reading: &mut Reading,
) -> Result<Option<Point>, AllocError>
    ensures { IfOk result (λ p. state_at p reading.new
        ≡ due_which is_which pending place reading.old.stack reading.old.script) }
{
    if is_which {
        return Ok(Some(Point::Due(pending, place, Due::WhichOpen)));
    }
    drop(pending);
    Ok(None)
}

/// A name where a fixed token, or the function of a deletion, must stand; the first place is its own.
fn due_name(
    due: Due,
    name: &Bytes,
    next: u32,
    pending: Owned<Pending>,
    place: u32,
    reading: &mut Reading,
) -> Result<Option<Point>, AllocError>
    ensures { IfOk result (λ p. state_at p reading.new
        ≡ due_name due name.now next pending place reading.old.stack reading.old.script) }
{
    match due {
        Due::LatestName => Ok(Some(Point::Due(pending, place, Due::LatestOpen))),
        Due::DeleteName => Ok(Some(Point::Due(pending, place, Due::DeleteOpen))),
        Due::WhichWord => {
            let is_which = name.as_slice() == b"which".as_slice();
            due_which(is_which, pending, place, reading)
        }
        Due::WhichName => {
            let function = name_at(next, name.copy()?);
            Ok(Some(Point::Deleting(pending, place, function)))
        }
        _ => Ok(None),
    }
}

/// A macro word as a fixed token.
fn due_macro(
    alloc: Global,
    due: Due,
    pending: Owned<Pending>,
    place: u32,
    reading: &mut Reading,
) -> Result<Option<Point>, AllocError>
    ensures { IfOk result (λ p. state_at p reading.new
        ≡ due_macro due pending place reading.old.stack reading.old.script) }
{
    match due {
        Due::SpawnMacro => {
            let mut pending = pending;
            spawn(alloc, pending.get_mut(), place)?;
            Ok(Some(Point::Want(pending)))
        }
        _ => Ok(None),
    }
}

/// `quote` as a fixed token.
fn due_quote(
    alloc: Global,
    due: Due,
    pending: Owned<Pending>,
    place: u32,
    reading: &mut Reading,
) -> Result<Option<Point>, AllocError>
    ensures { IfOk result (λ p. state_at p reading.new
        ≡ due_quote due pending place reading.old.stack reading.old.script) }
{
    match due {
        Due::QuoteWord => {
            let frame = Frame::Evals(EvalKind::Quote(pending, place), no_forms(alloc));
            push_frame(Point::Entry, frame, reading)
        }
        _ => Ok(None),
    }
}

/// A token, which stands at the first place, where a fixed token must stand.
pub(crate) fn at_due(
    alloc: Global,
    terminal: &Terminal,
    next: u32,
    pending: Owned<Pending>,
    place: u32,
    due: Due,
    reading: &mut Reading,
) -> Result<Option<Point>, AllocError>
    ensures { IfOk result (λ p. state_at p reading.new
        ≡ at_due terminal.now next pending place due reading.old.stack reading.old.script) }
{
    match terminal {
        Terminal::Operator(Operator::Dot) => due_dot(due, pending, place, reading),
        Terminal::Operator(Operator::OpenParen) => { due_open(alloc, due, pending, place, reading) }
        Terminal::Name(name) => due_name(due, name, next, pending, place, reading),
        Terminal::Macro(_) => due_macro(alloc, due, pending, place, reading),
        Terminal::Word(Word::Quote) => due_quote(alloc, due, pending, place, reading),
        _ => Ok(None),
    }
}

/// A token behind the name in `Base.delete_method(which(f`.
pub(crate) fn at_deleting(
    alloc: Global,
    terminal: &Terminal,
    pending: Owned<Pending>,
    place: u32,
    function: Name,
    reading: &mut Reading,
) -> Result<Option<Point>, AllocError>
    ensures { IfOk result (λ p. state_at p reading.new
        ≡ at_deleting terminal.now pending place function reading.old.stack reading.old.script) }
{
    match terminal {
        Terminal::Operator(Operator::Comma) => {
            Ok(Some(want_type(alloc, Goal::Delete(pending, place, function))?))
        }
        _ => Ok(None),
    }
}
