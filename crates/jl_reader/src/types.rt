//! Types in a script: what follows them.

ghost use Rattle.std.specs.Prelude.{◌≡◌, IfOk, Some};
ghost use Rattle.jl_grammar.specs.Goes.{state_at};
ghost use Rattle.jl_grammar.specs.Forms.{typed_param};
ghost use Rattle.jl_typeread.specs.Machine.{turn_of};
ghost use Rattle.jl_grammar.specs.Machine.{token_after_left, open_make, close_which, token_after_type, type_step, token_after_param, with_param, token_after_field, with_field};

use crate::after_operand::{token_after_comparison, want_type};
use crate::declarations::{add_field, end_header, token_after_field};
use crate::forms::{delete_expr, isa_expr, sub_expr, type_form};
use crate::heads::{add_param, open_call, token_after_param};
use crate::items::typed_param;
use jl_grammar::owned::Owned;
use jl_grammar::state::{Called, Fielding, Goal, Heading, Pending, Point, Reading, TypeForm};
use jl_grammar::tree::Name;
use jl_token::token::Operator;
use jl_typeread::state::{State as TypeState, Taken};
use jl_typeread::terminal::Terminal;
use std::alloc::{AllocError, Global};

/// A token behind the left type of a comparison.
fn token_after_left(
    alloc: Global,
    terminal: &Terminal,
    pending: Owned<Pending>,
    place: u32,
    ty: TypeForm,
    reading: &mut Reading,
) -> Result<Option<Point>, AllocError>
    ensures { IfOk result (λ p. state_at p reading.new
        ≡ token_after_left terminal.now pending place ty reading.old.stack reading.old.script) }
{
    match terminal {
        Terminal::Operator(Operator::Subtype) => {
            Ok(Some(want_type(alloc, Goal::Right(pending, place, ty))?))
        }
        _ => Ok(None),
    }
}

/// A token behind a name with its braces.
fn open_make(
    alloc: Global,
    terminal: &Terminal,
    pending: Owned<Pending>,
    place: u32,
    ty: TypeForm,
    reading: &mut Reading,
) -> Result<Option<Point>, AllocError>
    ensures { IfOk result (λ p. state_at p reading.new
        ≡ open_make terminal.now pending place ty reading.old.stack reading.old.script) }
{
    match terminal {
        Terminal::Operator(Operator::OpenParen) => {
            open_call(alloc, pending, place, Called::Type(ty), reading)
        }
        _ => Ok(None),
    }
}

/// A token behind the type of a deletion.
fn close_which(
    alloc: Global,
    terminal: &Terminal,
    pending: Owned<Pending>,
    place: u32,
    function: Name,
    ty: TypeForm,
    reading: &mut Reading,
) -> Result<Option<Point>, AllocError>
    ensures { IfOk result (λ p. state_at p reading.new
        ≡ close_which terminal.now pending place function ty
        reading.old.stack reading.old.script) }
{
    match terminal {
        Terminal::Operator(Operator::CloseParen) => {
            let e = delete_expr(alloc, place, function, ty)?;
            Ok(Some(Point::Ending(pending, e)))
        }
        _ => Ok(None),
    }
}

/// A token behind the type of a parameter.
fn end_typed_param(
    terminal: &Terminal,
    heading: Owned<Heading>,
    name: Option<Name>,
    place: u32,
    ty: TypeForm,
    reading: &mut Reading,
) -> Result<Option<Point>, AllocError>
    ensures { IfOk result (λ p. state_at p reading.new
        ≡ token_after_param terminal.now (with_param heading (typed_param name place ty) ty.depth)
        reading.old.stack reading.old.script) }
{
    let depth = ty.depth;
    let mut heading = heading;
    add_param(heading.get_mut(), typed_param(name, place, ty), depth)?;
    token_after_param(terminal, heading, reading)
}

/// A token behind the type of a field.
fn end_typed_field(
    alloc: Global,
    terminal: &Terminal,
    fielding: Owned<Fielding>,
    name: Name,
    ty: TypeForm,
    reading: &mut Reading,
) -> Result<Option<Point>, AllocError>
    ensures { IfOk result (λ p. state_at p reading.new
        ≡ token_after_field terminal.now (with_field fielding name (Some ty.tree) ty.depth)
        reading.old.stack reading.old.script) }
{
    let TypeForm { tree, depth } = ty;
    let mut fielding = fielding;
    add_field(fielding.get_mut(), name, Some(tree.take()), depth)?;
    token_after_field(alloc, terminal, fielding, reading)
}

/// A token behind a type.
fn token_after_type(
    alloc: Global,
    terminal: &Terminal,
    next: u32,
    goal: Goal,
    ty: TypeForm,
    reading: &mut Reading,
) -> Result<Option<Point>, AllocError>
    ensures { IfOk result (λ p. state_at p reading.new
        ≡ token_after_type terminal.now next goal ty reading.old.stack reading.old.script) }
{
    match goal {
        Goal::Isa(pending, e) => {
            let e = isa_expr(alloc, e, ty)?;
            token_after_comparison(alloc, terminal, next, pending, e, reading)
        }
        Goal::Left(pending, place) => token_after_left(
            alloc, terminal, pending, place, ty, reading,
        ),
        Goal::Right(pending, place, left) => {
            let e = sub_expr(alloc, place, left, ty)?;
            token_after_comparison(alloc, terminal, next, pending, e, reading)
        }
        Goal::Make(pending, place) => open_make(alloc, terminal, pending, place, ty, reading),
        Goal::Delete(pending, place, function) => close_which(
            alloc, terminal, pending, place, function, ty, reading,
        ),
        Goal::Param(heading, name, place) => {
            end_typed_param(terminal, heading, name, place, ty, reading)
        }
        Goal::Parent(declaring) => { end_header(alloc, terminal, declaring, Some(ty), reading) }
        Goal::Field(fielding, name) => {
            end_typed_field(alloc, terminal, fielding, name, ty, reading)
        }
    }
}

/// What a token is to a type, and the state behind it.
pub(crate) fn type_step(
    alloc: Global,
    taken: Taken,
    terminal: &Terminal,
    next: u32,
    goal: Owned<Goal>,
    state: Owned<TypeState>,
    reading: &mut Reading,
) -> Result<Option<Point>, AllocError>
    ensures { IfOk result (λ p. state_at p reading.new
        ≡ type_step (turn_of taken state) terminal.now next goal
        reading.old.stack reading.old.script) }
{
    match taken {
        Taken::Goes => Ok(Some(Point::Type(goal, state))),
        Taken::Type(ty) => {
            let ty = type_form(alloc, ty)?;
            token_after_type(alloc, terminal, next, goal.take(), ty, reading)
        }
        taken => {
            drop(taken);
            drop(goal);
            Ok(None)
        }
    }
}
