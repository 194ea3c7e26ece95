//! What a token makes of a reading. A function clears the places of all its arms when it begins, so the points at which most tokens stand
//! have functions of their own beside the one of all points. Each is a call: inlined into the loop of a reading, or where the point is
//! looked into there, the point is moved piece by piece.

ghost use Rattle.std.specs.Prelude.{◌≡◌, IfOk, Some};
ghost use Rattle.jl_grammar.specs.declared.state.Point.TheVariants.{Entry};
ghost use Rattle.jl_grammar.specs.Goes.{state_at};
ghost use Rattle.jl_grammar.specs.Machine.{start, step, is_type_wanted};

use crate::after_operand::token_after_operand;
use crate::brackets::{
    at_again, at_dot, at_ending, at_first, at_index, at_indexed, at_piece, at_texted,
};
use crate::declarations::{
    at_abstract, at_decl, at_declared, at_field, at_fields, at_made, at_made_method, params_turn,
};
use crate::entries::{at_bound, at_entry, at_returned};
use crate::heads::{
    at_colon, at_dotted, at_function, at_headed, at_known, at_named, at_param, first_param,
    next_param, where_turn,
};
use crate::operands::begin_operand;
use crate::special::{at_deleting, at_due, token_after_eval};
use crate::types::type_step;
use jl_grammar::mark::Marked;
use jl_grammar::owned::Owned;
use jl_grammar::state::{Declaring, Goal, Heading, ItemsRead, Point, Reading};
use jl_model::rows::{Row, Stack};
use jl_typeread::state::State as TypeState;
use jl_typeread::{entries as types, turns};
use std::alloc::{AllocError, Global};

/// The rest of a reading before its first token.
pub(crate) fn start(alloc: Global) -> Reading
    ensures { state_at (Some Entry) result ≡ start }
{
    Reading {
        stack: Stack::new(alloc),
        script: ItemsRead {
            items: Row::new(alloc),
            too_deep: None,
        },
    }
}

/// Whether a type must stand at a point. It is a call, so that the loop of a reading does not look into the point.
#[inline(never)]
pub(crate) fn is_type_wanted(point: &Point) -> bool
    ensures { result ≡ is_type_wanted point.now }
{
    match point {
        Point::Type(_, state) => types::is_type_wanted(&state.get().point),
        Point::Where(_, state) => types::is_type_wanted(&state.get().point),
        Point::Params(_, state) => types::is_type_wanted(&state.get().point),
        _ => false,
    }
}

/// A token in the variables behind `where`.
#[inline(always)]
fn where_token(
    alloc: Global,
    token: &Marked,
    heading: Owned<Heading>,
    state: Owned<TypeState>,
    reading: &mut Reading,
) -> Result<Option<Point>, AllocError>
    ensures { IfOk result (λ p. state_at p reading.new
        ≡ step token.now (state_at (Some (Point.Where heading state)) reading.old)) }
{
    let lexeme = &token.lexeme;
    let mut state = state;
    let taken = turns::step(alloc, lexeme, state.get_mut())?;
    where_turn(
        alloc,
        taken,
        &lexeme.terminal,
        token.marks,
        lexeme.at,
        heading,
        state,
        reading,
    )
}

/// A token in a type.
#[inline(always)]
fn type_token(
    alloc: Global,
    token: &Marked,
    goal: Owned<Goal>,
    state: Owned<TypeState>,
    reading: &mut Reading,
) -> Result<Option<Point>, AllocError>
    ensures { IfOk result (λ p. state_at p reading.new
        ≡ step token.now (state_at (Some (Point.Type goal state)) reading.old)) }
{
    let lexeme = &token.lexeme;
    let mut state = state;
    let taken = turns::step(alloc, lexeme, state.get_mut())?;
    type_step(
        alloc,
        taken,
        &lexeme.terminal,
        lexeme.at,
        goal,
        state,
        reading,
    )
}

/// A token in the parameters of a declaration.
#[inline(always)]
fn params_token(
    alloc: Global,
    token: &Marked,
    declaring: Owned<Declaring>,
    state: Owned<TypeState>,
    reading: &mut Reading,
) -> Result<Option<Point>, AllocError>
    ensures { IfOk result (λ p. state_at p reading.new
        ≡ step token.now (state_at (Some (Point.Params declaring state)) reading.old)) }
{
    let lexeme = &token.lexeme;
    let mut state = state;
    let taken = turns::step(alloc, lexeme, state.get_mut())?;
    params_turn(alloc, taken, &lexeme.terminal, declaring, state, reading)
}

/// What a token makes of a reading; none where it is wrong.
#[inline(never)]
pub(crate) fn step_anywhere(
    alloc: Global,
    token: &Marked,
    point: Point,
    reading: &mut Reading,
) -> Result<Option<Point>, AllocError>
    ensures { IfOk result (λ p. state_at p reading.new
        ≡ step token.now (state_at (Some point) reading.old)) }
{
    let lexeme = &token.lexeme;
    let terminal = &lexeme.terminal;
    let at = lexeme.at;
    let m = token.marks;
    match point {
        Point::Entry => at_entry(alloc, terminal, m, at, reading),
        Point::Bound(name) => at_bound(alloc, terminal, name, reading),
        Point::Returned(place) => at_returned(alloc, terminal, m, at, place, reading),
        Point::Want(pending) => begin_operand(alloc, terminal, m, at, pending, reading),
        Point::First(returns) => at_first(alloc, terminal, m, at, returns, reading),
        Point::Again(returns) => at_again(alloc, terminal, m, at, returns, reading),
        Point::Piece(returns) => at_piece(alloc, terminal, m, at, returns, reading),
        Point::Texted => at_texted(alloc, terminal, reading),
        Point::Have(pending, e) => token_after_operand(alloc, terminal, at, pending, e, reading),
        Point::Dot(pending, e) => at_dot(alloc, terminal, at, pending, e, reading),
        Point::Index(pending, e) => Ok(at_index(terminal, pending, e, reading)),
        Point::Indexed(pending, e, n) => at_indexed(alloc, terminal, pending, e, n, reading),
        Point::Due(pending, place, due) => {
            at_due(alloc, terminal, at, pending, place, due, reading)
        }
        Point::Deleting(pending, place, name) => {
            at_deleting(alloc, terminal, pending, place, name, reading)
        }
        Point::Ending(pending, e) => Ok(at_ending(terminal, pending, e, reading)),
        Point::AfterEval(pending, place) => {
            token_after_eval(alloc, terminal, m, at, pending, place, reading)
        }
        Point::Function(purpose) => at_function(terminal, at, purpose, reading),
        Point::Named(purpose, name) => at_named(alloc, terminal, purpose, name, reading),
        Point::Dotted(purpose, base) => at_dotted(alloc, terminal, at, purpose, base, reading),
        Point::Colon(purpose, base) => at_colon(alloc, terminal, purpose, base, reading),
        Point::Known(purpose, callee) => at_known(alloc, terminal, purpose, callee.take(), reading),
        Point::FirstParam(heading) => first_param(alloc, terminal, at, heading, reading),
        Point::NextParam(heading) => next_param(alloc, terminal, at, heading, reading),
        Point::Param(heading, name) => at_param(alloc, terminal, at, heading, name, reading),
        Point::Headed(heading) => at_headed(alloc, terminal, m, at, heading, reading),
        Point::Where(heading, state) => where_token(alloc, token, heading, state, reading),
        Point::Type(goal, state) => type_token(alloc, token, goal, state, reading),
        Point::AbstractWord(place) => Ok(at_abstract(terminal, place, reading)),
        Point::DeclName(place, is_struct) => at_decl(
            alloc, terminal, at, place, is_struct, reading,
        ),
        Point::Declared(declaring) => at_declared(alloc, terminal, declaring, reading),
        Point::Params(declaring, state) => params_token(alloc, token, declaring, state, reading),
        Point::Fields(fielding) => at_fields(alloc, terminal, at, fielding, reading),
        Point::Field(fielding, name) => at_field(alloc, terminal, fielding, name, reading),
        Point::Made(item) => at_made(terminal, item, reading),
        Point::MadeMethod(method) => at_made_method(alloc, terminal, method, reading),
    }
}

/// Whether a reading is at a point at which most tokens of an expression stand.
pub(crate) fn is_frequent(point: &Point) -> bool {
    match point {
        Point::Entry => true,
        Point::Want(_) => true,
        Point::First(_) => true,
        Point::Have(_, _) => true,
        Point::Named(_, _) => true,
        _ => false,
    }
}

/// Whether a reading is inside a type, the variables of a `where` or of a declaration, or the fields of a struct.
pub(crate) fn is_in_type_or_fields(point: &Point) -> bool {
    match point {
        Point::Where(_, _) => true,
        Point::Type(_, _) => true,
        Point::Params(_, _) => true,
        Point::Fields(_) => true,
        Point::Field(_, _) => true,
        _ => false,
    }
}

/// The same as `step_anywhere`, for a point at which most tokens of an expression stand.
#[inline(never)]
pub(crate) fn step_often(
    alloc: Global,
    token: &Marked,
    point: Point,
    reading: &mut Reading,
) -> Result<Option<Point>, AllocError>
    ensures { IfOk result (λ p. state_at p reading.new
        ≡ step token.now (state_at (Some point) reading.old)) }
{
    let terminal = &token.lexeme.terminal;
    let at = token.lexeme.at;
    let m = token.marks;
    match point {
        Point::Entry => at_entry(alloc, terminal, m, at, reading),
        Point::Want(pending) => begin_operand(alloc, terminal, m, at, pending, reading),
        Point::First(returns) => at_first(alloc, terminal, m, at, returns, reading),
        Point::Have(pending, e) => token_after_operand(alloc, terminal, at, pending, e, reading),
        Point::Named(purpose, name) => at_named(alloc, terminal, purpose, name, reading),
        point => step_anywhere(alloc, token, point, reading),
    }
}

/// The same as `step_anywhere`, inside a type, variables or fields.
#[inline(never)]
pub(crate) fn step_in_type_or_fields(
    alloc: Global,
    token: &Marked,
    point: Point,
    reading: &mut Reading,
) -> Result<Option<Point>, AllocError>
    ensures { IfOk result (λ p. state_at p reading.new
        ≡ step token.now (state_at (Some point) reading.old)) }
{
    let lexeme = &token.lexeme;
    let terminal = &lexeme.terminal;
    match point {
        Point::Where(heading, state) => where_token(alloc, token, heading, state, reading),
        Point::Type(goal, state) => type_token(alloc, token, goal, state, reading),
        Point::Params(declaring, state) => params_token(alloc, token, declaring, state, reading),
        Point::Fields(fielding) => at_fields(alloc, terminal, lexeme.at, fielding, reading),
        Point::Field(fielding, name) => at_field(alloc, terminal, fielding, name, reading),
        point => step_anywhere(alloc, token, point, reading),
    }
}
