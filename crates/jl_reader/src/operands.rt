//! A token where an operand must stand.

ghost use Rattle.std.specs.Prelude.{◌≡◌, IfOk, bytes_eq, codes};
ghost use Rattle.jl_grammar.specs.Goes.{state_at};
ghost use Rattle.jl_grammar.specs.Forms.{name, truth, nothing, number};
ghost use Rattle.jl_grammar.specs.Levels.{is_comparison_start};
ghost use Rattle.jl_grammar.specs.Texts.{is_left_type};
ghost use Rattle.jl_typeread.specs.Machine.{turn_of};
ghost use Rattle.jl_grammar.specs.Turns.{at, type_turn, first_of_type, begin_opening, begin_name, begin_paren, begin_prefix, begin_operator, begin_word, begin_macro, begin_operand};

use crate::after_operand::type_start;
use crate::blocks::{name_at, push_frame};
use crate::forms::{name, no_branches, no_forms, nothing, number, truth};
use crate::levels::{is_comparison_start, levels_after_prefix, no_pending};
use jl_grammar::mark::{Ahead, Marks, Opening};
use jl_grammar::owned::Owned;
use jl_grammar::state::{BlockKind, Due, Frame, Goal, Pending, Point, PrefixAt, Purpose, Reading};
use jl_grammar::tree::Prefix;
use jl_model::ty::Bytes;
use jl_token::token::Operator;
use jl_typeread::state::{State as TypeState, Taken};
use jl_typeread::terminal::{Lexeme, Terminal, Word};
use jl_typeread::turns::step;
use std::alloc::{AllocError, Global};

/// A token of a type, and the state behind it.
#[inline(always)]
fn type_turn(
    taken: Taken,
    goal: Owned<Goal>,
    state: Owned<TypeState>,
    reading: &mut Reading,
) -> Result<Option<Point>, AllocError>
    ensures { IfOk result (λ p. state_at p reading.new
        ≡ type_turn (turn_of taken state) goal reading.old.stack reading.old.script) }
{
    match taken {
        Taken::Goes => Ok(Some(Point::Type(goal, state))),
        taken => {
            drop(taken);
            Ok(None)
        }
    }
}

/// The first token of a type.
#[inline(always)]
fn first_of_type(
    alloc: Global,
    terminal: Terminal,
    place: u32,
    goal: Goal,
    reading: &mut Reading,
) -> Result<Option<Point>, AllocError>
    ensures { IfOk result (λ p. state_at p reading.new
        ≡ first_of_type terminal place goal reading.old.stack reading.old.script) }
{
    let lexeme = Lexeme {
        terminal,
        at: place,
    };
    let goal = Owned::new(alloc, goal)?;
    let mut state = Owned::new(alloc, type_start(alloc))?;
    let taken = step(alloc, &lexeme, state.get_mut())?;
    type_turn(taken, goal, state, reading)
}

/// A form whose fixed tokens follow.
#[inline(always)]
fn push_due(
    pending: Owned<Pending>,
    place: u32,
    due: Due,
    reading: &mut Reading,
) -> Result<Option<Point>, AllocError>
    ensures { IfOk result (λ p. state_at p reading.new
        ≡ at (Point.Due pending place due) reading.old.stack reading.old.script) }
{
    Ok(Some(Point::Due(pending, place, due)))
}

/// A name is an operand.
#[inline(always)]
fn name_alone(
    alloc: Global,
    bytes: Bytes,
    place: u32,
    pending: Owned<Pending>,
    reading: &mut Reading,
) -> Result<Option<Point>, AllocError>
    ensures { IfOk result (λ p. state_at p reading.new
        ≡ at (Point.Have pending (name place bytes)) reading.old.stack reading.old.script) }
{
    let e = name(alloc, place, bytes)?;
    Ok(Some(Point::Have(pending, e)))
}

/// A name begins an operand.
#[inline(always)]
fn begin_opening(
    alloc: Global,
    opening: Opening,
    bytes: Bytes,
    place: u32,
    pending: Owned<Pending>,
    reading: &mut Reading,
) -> Result<Option<Point>, AllocError>
    ensures { IfOk result (λ p. state_at p reading.new
        ≡ begin_opening opening bytes place pending reading.old.stack reading.old.script) }
{
    match opening {
        Opening::Plain => name_alone(alloc, bytes, place, pending, reading),
        Opening::Binding => name_alone(alloc, bytes, place, pending, reading),
        Opening::Call => {
            let purpose = Purpose::Call(pending, place);
            Ok(Some(Point::Named(purpose, name_at(place, bytes))))
        }
        Opening::Make => {
            let goal = Goal::Make(pending, place);
            first_of_type(alloc, Terminal::Name(bytes), place, goal, reading)
        }
        Opening::Latest => push_due(pending, place, Due::LatestDot, reading),
        Opening::Delete => push_due(pending, place, Due::DeleteDot, reading),
        Opening::Spawn => push_due(pending, place, Due::SpawnDot, reading),
        Opening::Quote => push_due(pending, place, Due::QuoteOpen, reading),
        Opening::Fetch => push_due(pending, place, Due::FetchOpen, reading),
        Opening::Print => push_due(pending, place, Due::PrintOpen(false), reading),
        Opening::Println => push_due(pending, place, Due::PrintOpen(true), reading),
    }
}

/// Whether the left type of a comparison begins at the operand.
fn is_left_type(pending: &Pending, ahead: Ahead) -> bool
    ensures { result ≡ is_left_type (is_comparison_start pending.now.levels) ahead }
{
    if !is_comparison_start(&pending.levels) {
        return false;
    }
    match ahead {
        Ahead::Sub => true,
        _ => false,
    }
}

/// A name begins an operand, or the left type of a comparison.
#[inline(always)]
pub(crate) fn begin_name(
    alloc: Global,
    marks: Marks,
    bytes: Bytes,
    place: u32,
    pending: Owned<Pending>,
    reading: &mut Reading,
) -> Result<Option<Point>, AllocError>
    ensures { IfOk result (λ p. state_at p reading.new
        ≡ begin_name (is_left_type (is_comparison_start pending.levels) marks.ahead) marks.opening
        bytes place pending reading.old.stack reading.old.script) }
{
    if is_left_type(pending.get(), marks.ahead) {
        let goal = Goal::Left(pending, place);
        return first_of_type(alloc, Terminal::Name(bytes), place, goal, reading);
    }
    begin_opening(alloc, marks.opening, bytes, place, pending, reading)
}

/// `(` begins an operand, or the left type of a comparison.
#[inline(always)]
fn begin_paren(
    alloc: Global,
    ahead: Ahead,
    place: u32,
    pending: Owned<Pending>,
    reading: &mut Reading,
) -> Result<Option<Point>, AllocError>
    ensures { IfOk result (λ p. state_at p reading.new
        ≡ begin_paren (is_left_type (is_comparison_start pending.levels) ahead) place pending
        reading.old.stack reading.old.script) }
{
    if is_left_type(pending.get(), ahead) {
        let goal = Goal::Left(pending, place);
        let terminal = Terminal::Operator(Operator::OpenParen);
        return first_of_type(alloc, terminal, place, goal, reading);
    }
    let point = Point::First(pending.get().returns);
    push_frame(point, Frame::Paren(pending, place), reading)
}

/// An operator before its operand.
#[inline(always)]
fn begin_prefix(
    place: u32,
    prefix: Prefix,
    pending: Owned<Pending>,
    reading: &mut Reading,
) -> Result<Option<Point>, AllocError>
    ensures { IfOk result (λ p. state_at p reading.new
        ≡ begin_prefix place prefix pending reading.old.stack reading.old.script) }
{
    let mut pending = pending;
    levels_after_prefix(PrefixAt { at: place, prefix }, pending.get_mut())?;
    Ok(Some(Point::Want(pending)))
}

/// An operator or another mark begins an operand.
#[inline(always)]
pub(crate) fn begin_operator(
    alloc: Global,
    operator: Operator,
    ahead: Ahead,
    place: u32,
    pending: Owned<Pending>,
    reading: &mut Reading,
) -> Result<Option<Point>, AllocError>
    ensures { IfOk result (λ p. state_at p reading.new
        ≡ begin_operator operator ahead place pending reading.old.stack reading.old.script) }
{
    match operator {
        Operator::OpenParen => begin_paren(alloc, ahead, place, pending, reading),
        Operator::Minus => begin_prefix(place, Prefix::Minus, pending, reading),
        Operator::Not => begin_prefix(place, Prefix::Not, pending, reading),
        _ => {
            drop(pending);
            Ok(None)
        }
    }
}

/// `if` begins an operand.
fn begin_if(
    alloc: Global,
    place: u32,
    pending: Owned<Pending>,
    reading: &mut Reading,
) -> Result<Option<Point>, AllocError>
    ensures { IfOk result (λ p. state_at p reading.new
        ≡ begin_word Word.If place pending reading.old.stack reading.old.script) }
{
    let point = Point::Want(no_pending(alloc, pending.get().returns)?);
    let frame = Frame::Test(pending, place, no_branches(alloc), place);
    push_frame(point, frame, reading)
}

/// `begin` begins an operand.
fn begin_block(
    alloc: Global,
    place: u32,
    pending: Owned<Pending>,
    reading: &mut Reading,
) -> Result<Option<Point>, AllocError>
    ensures { IfOk result (λ p. state_at p reading.new
        ≡ begin_word Word.Begin place pending reading.old.stack reading.old.script) }
{
    let kind = Owned::new(alloc, BlockKind::Begin(pending, place))?;
    push_frame(Point::Entry, Frame::Block(kind, no_forms(alloc)), reading)
}

/// `true` or `false` is an operand.
fn push_truth(
    alloc: Global,
    value: bool,
    place: u32,
    pending: Owned<Pending>,
    reading: &mut Reading,
) -> Result<Option<Point>, AllocError>
    ensures { IfOk result (λ p. state_at p reading.new
        ≡ at (Point.Have pending (truth place value)) reading.old.stack reading.old.script) }
{
    let e = truth(alloc, place, value)?;
    Ok(Some(Point::Have(pending, e)))
}

/// `nothing` is an operand.
fn push_nothing(
    alloc: Global,
    place: u32,
    pending: Owned<Pending>,
    reading: &mut Reading,
) -> Result<Option<Point>, AllocError>
    ensures { IfOk result (λ p. state_at p reading.new
        ≡ at (Point.Have pending (nothing place)) reading.old.stack reading.old.script) }
{
    let e = nothing(alloc, place)?;
    Ok(Some(Point::Have(pending, e)))
}

/// A reserved word begins an operand.
pub(crate) fn begin_word(
    alloc: Global,
    word: Word,
    place: u32,
    pending: Owned<Pending>,
    reading: &mut Reading,
) -> Result<Option<Point>, AllocError>
    ensures { IfOk result (λ p. state_at p reading.new
        ≡ begin_word word place pending reading.old.stack reading.old.script) }
{
    match word {
        Word::True => push_truth(alloc, true, place, pending, reading),
        Word::False => push_truth(alloc, false, place, pending, reading),
        Word::Nothing => push_nothing(alloc, place, pending, reading),
        Word::If => begin_if(alloc, place, pending, reading),
        Word::Begin => begin_block(alloc, place, pending, reading),
        _ => {
            drop(pending);
            Ok(None)
        }
    }
}

/// A macro word begins an operand.
#[inline(always)]
fn begin_macro(
    bytes: &Bytes,
    place: u32,
    pending: Owned<Pending>,
    reading: &mut Reading,
) -> Result<Option<Point>, AllocError>
    ensures { IfOk result (λ p. state_at p reading.new
        ≡ begin_macro (bytes_eq bytes.now (codes "eval")) place pending
        reading.old.stack reading.old.script) }
{
    if bytes.as_slice() == b"eval".as_slice() {
        return Ok(Some(Point::AfterEval(pending, place)));
    }
    drop(pending);
    Ok(None)
}

/// A number is an operand.
#[inline(always)]
fn push_number(
    alloc: Global,
    value: i64,
    place: u32,
    pending: Owned<Pending>,
    reading: &mut Reading,
) -> Result<Option<Point>, AllocError>
    ensures { IfOk result (λ p. state_at p reading.new
        ≡ at (Point.Have pending (number place value)) reading.old.stack reading.old.script) }
{
    let e = number(alloc, place, value)?;
    Ok(Some(Point::Have(pending, e)))
}

/// An operand begins.
pub(crate) fn begin_operand(
    alloc: Global,
    terminal: &Terminal,
    marks: Marks,
    place: u32,
    pending: Owned<Pending>,
    reading: &mut Reading,
) -> Result<Option<Point>, AllocError>
    ensures { IfOk result (λ p. state_at p reading.new
        ≡ begin_operand terminal.now marks place pending reading.old.stack reading.old.script) }
{
    match terminal {
        Terminal::Name(bytes) => begin_name(alloc, marks, bytes.copy()?, place, pending, reading),
        Terminal::Number(value) => push_number(alloc, *value, place, pending, reading),
        Terminal::Word(word) => begin_word(alloc, *word, place, pending, reading),
        Terminal::Operator(operator) => {
            begin_operator(alloc, *operator, marks.ahead, place, pending, reading)
        }
        Terminal::Macro(bytes) => begin_macro(bytes, place, pending, reading),
        _ => {
            drop(pending);
            Ok(None)
        }
    }
}
