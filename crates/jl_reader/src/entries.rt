//! Entries of a script, of a block and of an evaluated block: how they begin, bindings, and `return`.

ghost use Rattle.std.specs.Prelude.{◌≡◌, ◌∷◌, IfOk, false};
ghost use Rattle.jl_grammar.specs.Goes.{state_at};
ghost use Rattle.jl_grammar.specs.declared.state.Frame.TheVariants.{Block};
ghost use Rattle.jl_grammar.specs.declared.state.Place.TheVariants.{Entry};
ghost use Rattle.jl_grammar.specs.declared.state.Point.TheVariants.{Named};
ghost use Rattle.jl_grammar.specs.declared.state.Purpose.TheVariants.{Head};
ghost use Rattle.jl_grammar.specs.Levels.{no_pending};
ghost use Rattle.jl_grammar.specs.Texts.{is_method, is_binding};
ghost use Rattle.jl_grammar.specs.Turns.{at, name_at, is_return_allowed, is_return_allowed_in, begin_operand, begin_word};
ghost use Rattle.jl_grammar.specs.Machine.{begin_item, begin_stmt, begin_eval, entry_name, begin_long, item_word, begin_return, stmt_word, eval_word, entry_word, entry_end, entry_operator, at_entry, at_bound, separator_after_return, end_return, return_word, return_operator, at_returned};

use crate::blocks::{
    block_else, block_elseif, block_word, end_block, end_evals, is_return_allowed,
    is_return_allowed_in, name_at, push_frame,
};
use crate::forms::with_form;
use crate::levels::{no_pending, pending_after};
use crate::operands::{begin_name, begin_operand, begin_operator, begin_word};
use jl_grammar::mark::{Ahead, Marks, Opening};
use jl_grammar::owned::Owned;
use jl_grammar::state::{
    BlockKind, EvalKind, Forms, Frame, Lead, Place, Point, Purpose, Reading, Start,
};
use jl_grammar::tree::{Eval, Name, Stmt};
use jl_model::ty::Bytes;
use jl_token::token::Operator;
use jl_typeread::terminal::{Terminal, Word};
use std::alloc::{AllocError, Global};

/// Whether the head of a method begins with the token.
pub(crate) fn is_method(ahead: Ahead) -> bool
    ensures { result ≡ is_method ahead }
{
    match ahead {
        Ahead::Method => true,
        _ => false,
    }
}

/// Whether `=` follows the name.
fn is_binding(opening: Opening) -> bool
    ensures { result ≡ is_binding opening }
{
    match opening {
        Opening::Binding => true,
        _ => false,
    }
}

/// The name of a method that an entry begins with.
fn begin_head(
    alloc: Global,
    name: Bytes,
    place: u32,
    reading: &mut Reading,
) -> Result<Option<Point>, AllocError>
    ensures { IfOk result (λ p. state_at p reading.new
        ≡ at (Named (Head (record { place = Entry; long = false; at = place }))
        (name_at place name)) reading.old.stack reading.old.script) }
{
    let start = Start {
        place: Place::Entry,
        long: false,
        at: place,
    };
    let purpose = Purpose::Head(Owned::new(alloc, start)?);
    Ok(Some(Point::Named(purpose, name_at(place, name))))
}

/// The name that an item begins with.
fn begin_item(
    alloc: Global,
    is_method: bool,
    is_binding: bool,
    marks: Marks,
    name: Bytes,
    place: u32,
    reading: &mut Reading,
) -> Result<Option<Point>, AllocError>
    ensures { IfOk result (λ p. state_at p reading.new
        ≡ begin_item is_method is_binding marks name place reading.old.stack reading.old.script) }
{
    if is_method {
        return begin_head(alloc, name, place, reading);
    }
    if is_binding {
        return Ok(Some(Point::Bound(name_at(place, name))));
    }
    let pending = no_pending(alloc, false)?;
    begin_name(alloc, marks, name, place, pending, reading)
}

/// The name that a statement begins with.
fn begin_stmt(
    alloc: Global,
    is_binding: bool,
    returns: bool,
    marks: Marks,
    name: Bytes,
    place: u32,
    reading: &mut Reading,
) -> Result<Option<Point>, AllocError>
    ensures { IfOk result (λ p. state_at p reading.new
        ≡ begin_stmt is_binding returns marks name place reading.old.stack reading.old.script) }
{
    if is_binding {
        return Ok(Some(Point::Bound(name_at(place, name))));
    }
    let pending = no_pending(alloc, returns)?;
    begin_name(alloc, marks, name, place, pending, reading)
}

/// The name that an evaluated statement begins with.
fn begin_eval(
    alloc: Global,
    is_method: bool,
    marks: Marks,
    name: Bytes,
    place: u32,
    reading: &mut Reading,
) -> Result<Option<Point>, AllocError>
    ensures { IfOk result (λ p. state_at p reading.new
        ≡ begin_eval is_method marks name place reading.old.stack reading.old.script) }
{
    if is_method {
        return begin_head(alloc, name, place, reading);
    }
    let pending = no_pending(alloc, false)?;
    begin_name(alloc, marks, name, place, pending, reading)
}

/// The name that an entry begins with.
fn entry_name(
    alloc: Global,
    marks: Marks,
    name: Bytes,
    place: u32,
    reading: &mut Reading,
) -> Result<Option<Point>, AllocError>
    ensures { IfOk result (λ p. state_at p reading.new
        ≡ entry_name marks name place reading.old.stack reading.old.script) }
{
    let is_method = is_method(marks.ahead);
    let is_binding = is_binding(marks.opening);
    match reading.stack.top() {
        None => begin_item(alloc, is_method, is_binding, marks, name, place, reading),
        Some(Frame::Block(kind, _)) => {
            let returns = is_return_allowed(kind.get());
            begin_stmt(alloc, is_binding, returns, marks, name, place, reading)
        }
        Some(Frame::Evals(..)) => begin_eval(alloc, is_method, marks, name, place, reading),
        Some(_) => Ok(None),
    }
}

/// `function`
pub(crate) fn begin_long(
    alloc: Global,
    method: Place,
    place: u32,
    reading: &mut Reading,
) -> Result<Option<Point>, AllocError>
    ensures { IfOk result (λ p. state_at p reading.new
        ≡ begin_long method place reading.old.stack reading.old.script) }
{
    let start = Start {
        place: method,
        long: true,
        at: place,
    };
    let purpose = Purpose::Head(Owned::new(alloc, start)?);
    Ok(Some(Point::Function(purpose)))
}

/// The reserved word that an item begins with.
fn item_word(
    alloc: Global,
    word: Word,
    place: u32,
    reading: &mut Reading,
) -> Result<Option<Point>, AllocError>
    ensures { IfOk result (λ p. state_at p reading.new
        ≡ item_word word place reading.old.stack reading.old.script) }
{
    match word {
        Word::Abstract => Ok(Some(Point::AbstractWord(place))),
        Word::Struct => Ok(Some(Point::DeclName(place, true))),
        Word::Function => begin_long(alloc, Place::Entry, place, reading),
        word => begin_word(alloc, word, place, no_pending(alloc, false)?, reading),
    }
}

/// `return`
fn begin_return(
    allowed: bool,
    place: u32,
    reading: &mut Reading,
) -> Result<Option<Point>, AllocError>
    ensures { IfOk result (λ p. state_at p reading.new
        ≡ begin_return allowed place reading.old.stack reading.old.script) }
{
    if allowed {
        return Ok(Some(Point::Returned(place)));
    }
    Ok(None)
}

/// The reserved word that a statement's expression begins with.
fn begin_stmt_word(
    alloc: Global,
    word: Word,
    place: u32,
    kind: Owned<BlockKind>,
    statements: Forms<Stmt>,
    reading: &mut Reading,
) -> Result<Option<Point>, AllocError>
    ensures { IfOk result (λ p. state_at p reading.new
        ≡ begin_word word place (no_pending (is_return_allowed kind))
        (Block kind statements ∷ reading.old.stack) reading.old.script) }
{
    let returns = is_return_allowed(kind.get());
    reading.stack.push(Frame::Block(kind, statements))?;
    begin_word(alloc, word, place, no_pending(alloc, returns)?, reading)
}

/// The reserved word at a statement.
fn stmt_word(
    alloc: Global,
    word: Word,
    place: u32,
    kind: Owned<BlockKind>,
    statements: Forms<Stmt>,
    reading: &mut Reading,
) -> Result<Option<Point>, AllocError>
    ensures { IfOk result (λ p. state_at p reading.new
        ≡ stmt_word word place kind statements reading.old.stack reading.old.script) }
{
    match word {
        Word::End => end_block(alloc, kind, statements, reading),
        Word::Elseif => block_elseif(alloc, place, kind, statements, reading),
        Word::Else => block_else(alloc, kind, statements, reading),
        Word::Return => {
            let allowed = is_return_allowed(kind.get());
            reading.stack.push(Frame::Block(kind, statements))?;
            begin_return(allowed, place, reading)
        }
        word => begin_stmt_word(alloc, word, place, kind, statements, reading),
    }
}

/// The reserved word at an evaluated statement.
fn eval_word(
    alloc: Global,
    word: Word,
    place: u32,
    kind: EvalKind,
    evals: Forms<Eval>,
    reading: &mut Reading,
) -> Result<Option<Point>, AllocError>
    ensures { IfOk result (λ p. state_at p reading.new
        ≡ eval_word word place kind evals reading.old.stack reading.old.script) }
{
    match word {
        Word::End => end_evals(alloc, kind, evals, reading),
        Word::Function => {
            reading.stack.push(Frame::Evals(kind, evals))?;
            begin_long(alloc, Place::Entry, place, reading)
        }
        word => {
            reading.stack.push(Frame::Evals(kind, evals))?;
            begin_word(alloc, word, place, no_pending(alloc, false)?, reading)
        }
    }
}

/// The reserved word at an entry.
fn entry_word(
    alloc: Global,
    word: Word,
    place: u32,
    reading: &mut Reading,
) -> Result<Option<Point>, AllocError>
    ensures { IfOk result (λ p. state_at p reading.new
        ≡ entry_word word place reading.old.stack reading.old.script) }
{
    match reading.stack.pop() {
        None => item_word(alloc, word, place, reading),
        Some(Frame::Block(kind, statements)) => {
            stmt_word(alloc, word, place, kind, statements, reading)
        }
        Some(Frame::Evals(kind, evals)) => { eval_word(alloc, word, place, kind, evals, reading) }
        Some(frame) => {
            drop(frame);
            Ok(None)
        }
    }
}

/// The source's end at an entry.
fn entry_end(reading: &mut Reading) -> Result<Option<Point>, AllocError>
    ensures { IfOk result (λ p. state_at p reading.new
        ≡ entry_end reading.old.stack reading.old.script) }
{
    if reading.stack.is_empty() {
        return Ok(Some(Point::Entry));
    }
    Ok(None)
}

/// An operator or a mark at an entry.
fn entry_operator(
    alloc: Global,
    operator: Operator,
    marks: Marks,
    place: u32,
    reading: &mut Reading,
) -> Result<Option<Point>, AllocError>
    ensures { IfOk result (λ p. state_at p reading.new
        ≡ entry_operator operator marks place reading.old.stack reading.old.script) }
{
    match operator {
        Operator::Semicolon => Ok(Some(Point::Entry)),
        operator => {
            let pending = no_pending(alloc, is_return_allowed_in(&reading.stack))?;
            begin_operator(alloc, operator, marks.ahead, place, pending, reading)
        }
    }
}

/// A token that an entry's expression begins with.
fn begin_entry(
    alloc: Global,
    terminal: &Terminal,
    marks: Marks,
    place: u32,
    reading: &mut Reading,
) -> Result<Option<Point>, AllocError>
    ensures { IfOk result (λ p. state_at p reading.new
        ≡ begin_operand terminal.now marks place
        (no_pending (is_return_allowed_in reading.old.stack))
        reading.old.stack reading.old.script) }
{
    let pending = no_pending(alloc, is_return_allowed_in(&reading.stack))?;
    begin_operand(alloc, terminal, marks, place, pending, reading)
}

/// A token at an entry.
pub(crate) fn at_entry(
    alloc: Global,
    terminal: &Terminal,
    marks: Marks,
    place: u32,
    reading: &mut Reading,
) -> Result<Option<Point>, AllocError>
    ensures { IfOk result (λ p. state_at p reading.new
        ≡ at_entry terminal.now marks place reading.old.stack reading.old.script) }
{
    match terminal {
        Terminal::Newline => Ok(Some(Point::Entry)),
        Terminal::Operator(operator) => entry_operator(alloc, *operator, marks, place, reading),
        Terminal::Word(word) => entry_word(alloc, *word, place, reading),
        Terminal::Name(name) => entry_name(alloc, marks, name.copy()?, place, reading),
        Terminal::End => entry_end(reading),
        Terminal::Number(_) => begin_entry(alloc, terminal, marks, place, reading),
        Terminal::Text(_) => begin_entry(alloc, terminal, marks, place, reading),
        Terminal::Macro(_) => begin_entry(alloc, terminal, marks, place, reading),
    }
}

/// A token behind the name of a binding.
pub(crate) fn at_bound(
    alloc: Global,
    terminal: &Terminal,
    name: Name,
    reading: &mut Reading,
) -> Result<Option<Point>, AllocError>
    ensures { IfOk result (λ p. state_at p reading.new
        ≡ at_bound terminal.now name reading.old.stack reading.old.script) }
{
    match terminal {
        Terminal::Operator(Operator::Assign) => {
            let pending = pending_after(
                alloc,
                Lead::Bind(name),
                is_return_allowed_in(&reading.stack),
            )?;
            Ok(Some(Point::Want(pending)))
        }
        _ => Ok(None),
    }
}

/// A separator behind `return`.
fn separator_after_return(place: u32, reading: &mut Reading) -> Result<Option<Point>, AllocError>
    ensures { IfOk result (λ p. state_at p reading.new
        ≡ separator_after_return place reading.old.stack reading.old.script) }
{
    match reading.stack.pop() {
        Some(Frame::Block(kind, statements)) => {
            let statements = with_form(statements, Stmt::ReturnNothing(place), 0)?;
            push_frame(Point::Entry, Frame::Block(kind, statements), reading)
        }
        Some(frame) => {
            drop(frame);
            Ok(None)
        }
        None => Ok(None),
    }
}

/// The word that ends the block behind `return`.
fn end_return(
    alloc: Global,
    word: Word,
    next: u32,
    place: u32,
    reading: &mut Reading,
) -> Result<Option<Point>, AllocError>
    ensures { IfOk result (λ p. state_at p reading.new
        ≡ end_return word next place reading.old.stack reading.old.script) }
{
    match reading.stack.pop() {
        Some(Frame::Block(kind, statements)) => {
            let statements = with_form(statements, Stmt::ReturnNothing(place), 0)?;
            block_word(alloc, word, next, kind, statements, reading)
        }
        Some(frame) => {
            drop(frame);
            Ok(None)
        }
        None => Ok(None),
    }
}

/// A reserved word behind `return`.
fn return_word(
    alloc: Global,
    word: Word,
    next: u32,
    place: u32,
    reading: &mut Reading,
) -> Result<Option<Point>, AllocError>
    ensures { IfOk result (λ p. state_at p reading.new
        ≡ return_word word next place reading.old.stack reading.old.script) }
{
    match word {
        Word::End => end_return(alloc, Word::End, next, place, reading),
        Word::Elseif => end_return(alloc, Word::Elseif, next, place, reading),
        Word::Else => end_return(alloc, Word::Else, next, place, reading),
        word => {
            let pending = pending_after(alloc, Lead::Return(place), true)?;
            begin_word(alloc, word, next, pending, reading)
        }
    }
}

/// An operator or a mark behind `return`.
fn return_operator(
    alloc: Global,
    operator: Operator,
    marks: Marks,
    next: u32,
    place: u32,
    reading: &mut Reading,
) -> Result<Option<Point>, AllocError>
    ensures { IfOk result (λ p. state_at p reading.new
        ≡ return_operator operator marks next place reading.old.stack reading.old.script) }
{
    match operator {
        Operator::Semicolon => separator_after_return(place, reading),
        operator => {
            let pending = pending_after(alloc, Lead::Return(place), true)?;
            begin_operator(alloc, operator, marks.ahead, next, pending, reading)
        }
    }
}

/// A token behind `return`, which stands at the second place.
pub(crate) fn at_returned(
    alloc: Global,
    terminal: &Terminal,
    marks: Marks,
    next: u32,
    place: u32,
    reading: &mut Reading,
) -> Result<Option<Point>, AllocError>
    ensures { IfOk result (λ p. state_at p reading.new
        ≡ at_returned terminal.now marks next place reading.old.stack reading.old.script) }
{
    match terminal {
        Terminal::Newline => separator_after_return(place, reading),
        Terminal::Operator(operator) => {
            return_operator(alloc, *operator, marks, next, place, reading)
        }
        Terminal::Word(word) => return_word(alloc, *word, next, place, reading),
        _ => {
            let pending = pending_after(alloc, Lead::Return(place), true)?;
            begin_operand(alloc, terminal, marks, next, pending, reading)
        }
    }
}
