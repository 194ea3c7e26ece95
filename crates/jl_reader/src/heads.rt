//! Names of functions, and heads of methods.

ghost use Rattle.std.specs.Prelude.{◌≡◌, ◌∷◌, IfOk, OnOk, true};
ghost use Rattle.jl_grammar.specs.Goes.{state_at};
ghost use Rattle.jl_grammar.specs.Forms.{no_forms};
ghost use Rattle.jl_grammar.specs.Turns.{at, name_at};
ghost use Rattle.jl_grammar.specs.Levels.{push_outer};
ghost use Rattle.jl_typeread.specs.Machine.{turn_of};
ghost use Rattle.jl_grammar.specs.Machine.{at_function, open_known, known_comma, close_known, at_known, dot_after_base, at_named, at_dotted, operator_after_base, at_colon, with_param, next_param, first_param, token_after_param, at_param, begin_body, token_after_short_head, token_after_head, end_head, at_headed, where_turn};

use crate::after_operand::want_type;
use crate::blocks::{name_at, push_frame};
use crate::entries::at_entry;
use crate::forms::{add, call_expr, no_forms, no_vars, vars_form};
use crate::items::head;
use crate::levels::{begin_form, no_pending, pending_after, take_levels};
use jl_grammar::mark::Marks;
use jl_grammar::owned::Owned;
use jl_grammar::state::{
    BlockKind, Called, Form, Frame, Goal, Heading, Lead, Outer, Pending, Place, Point, Purpose,
    Reading, Start, VarsForm,
};
use jl_grammar::tree::{Callee, Head, Name, Param};
use jl_marks::marks::is_function;
use jl_model::ty::Bytes;
use jl_token::token::Operator;
use jl_typeread::entries::where_start;
use jl_typeread::state::{State as TypeState, Taken};
use jl_typeread::terminal::{Terminal, Word};
use std::alloc::{AllocError, Global};

/// A token where the name of a function must stand.
pub(crate) fn at_function(
    terminal: &Terminal,
    place: u32,
    purpose: Purpose,
    reading: &mut Reading,
) -> Result<Option<Point>, AllocError>
    ensures { IfOk result (λ p. state_at p reading.new
        ≡ at_function terminal.now place purpose reading.old.stack reading.old.script) }
{
    match terminal {
        Terminal::Name(name) => {
            match name.copy() {
                Ok(name) => Ok(Some(Point::Named(purpose, name_at(place, name)))),
                Err(error) => {
                    drop(purpose);
                    Err(error)
                }
            }
        }
        _ => {
            drop(purpose);
            Ok(None)
        }
    }
}

/// `(` of a call.
#[inline(always)]
pub(crate) fn open_call(
    alloc: Global,
    pending: Owned<Pending>,
    place: u32,
    called: Called,
    reading: &mut Reading,
) -> Result<Option<Point>, AllocError>
    ensures { IfOk result (λ p. state_at p reading.new
        ≡ at (Point.First pending.returns)
        (Frame.Args pending place called no_forms ∷ reading.old.stack) reading.old.script) }
{
    let called = Owned::new(alloc, called)?;
    let point = Point::First(pending.get().returns);
    let frame = Frame::Args(pending, place, called, no_forms(alloc));
    push_frame(point, frame, reading)
}

/// `(` behind a function.
#[inline(always)]
fn open_known(
    alloc: Global,
    purpose: Purpose,
    callee: Callee,
    reading: &mut Reading,
) -> Result<Option<Point>, AllocError>
    ensures { IfOk result (λ p. state_at p reading.new
        ≡ open_known purpose callee reading.old.stack reading.old.script) }
{
    match purpose {
        Purpose::Call(pending, place) => {
            open_call(alloc, pending, place, Called::Function(callee), reading)
        }
        Purpose::Head(start) => {
            let heading = Heading {
                start: start.take(),
                callee,
                params: no_forms(alloc),
            };
            Ok(Some(Point::FirstParam(Owned::new(alloc, heading)?)))
        }
        Purpose::Latest(pending, _) => {
            drop(pending);
            drop(callee);
            Ok(None)
        }
    }
}

/// `,` behind a function.
fn known_comma(
    alloc: Global,
    purpose: Purpose,
    callee: Callee,
    reading: &mut Reading,
) -> Result<Option<Point>, AllocError>
    ensures { IfOk result (λ p. state_at p reading.new
        ≡ known_comma purpose callee reading.old.stack reading.old.script) }
{
    match purpose {
        Purpose::Latest(pending, place) => {
            let called = Owned::new(alloc, Called::Latest(callee))?;
            let point = Point::Want(no_pending(alloc, pending.get().returns)?);
            let frame = Frame::Args(pending, place, called, no_forms(alloc));
            push_frame(point, frame, reading)
        }
        purpose => {
            drop(purpose);
            drop(callee);
            Ok(None)
        }
    }
}

/// `)` behind a function.
fn close_known(
    alloc: Global,
    purpose: Purpose,
    callee: Callee,
    reading: &mut Reading,
) -> Result<Option<Point>, AllocError>
    ensures { IfOk result (λ p. state_at p reading.new
        ≡ close_known purpose callee reading.old.stack reading.old.script) }
{
    match purpose {
        Purpose::Latest(pending, place) => {
            let called = Owned::new(alloc, Called::Latest(callee))?;
            let call = call_expr(alloc, place, called, no_forms(alloc))?;
            Ok(Some(Point::Have(pending, call)))
        }
        purpose => {
            drop(purpose);
            drop(callee);
            Ok(None)
        }
    }
}

/// A token behind a function.
#[inline(always)]
pub(crate) fn at_known(
    alloc: Global,
    terminal: &Terminal,
    purpose: Purpose,
    callee: Callee,
    reading: &mut Reading,
) -> Result<Option<Point>, AllocError>
    ensures { IfOk result (λ p. state_at p reading.new
        ≡ at_known terminal.now purpose callee reading.old.stack reading.old.script) }
{
    match terminal {
        Terminal::Operator(Operator::OpenParen) => open_known(alloc, purpose, callee, reading),
        Terminal::Operator(Operator::Comma) => known_comma(alloc, purpose, callee, reading),
        Terminal::Operator(Operator::CloseParen) => { close_known(alloc, purpose, callee, reading) }
        _ => {
            drop(purpose);
            drop(callee);
            Ok(None)
        }
    }
}

/// `.` behind the name of a function.
fn dot_after_base(
    is_base: bool,
    purpose: Purpose,
    base: u32,
    reading: &mut Reading,
) -> Result<Option<Point>, AllocError>
    ensures { IfOk result (λ p. state_at p reading.new
        ≡ dot_after_base is_base purpose base reading.old.stack reading.old.script) }
{
    if is_base {
        return Ok(Some(Point::Dotted(purpose, base)));
    }
    drop(purpose);
    Ok(None)
}

/// A token behind the name of a function.
#[inline(always)]
pub(crate) fn at_named(
    alloc: Global,
    terminal: &Terminal,
    purpose: Purpose,
    name: Name,
    reading: &mut Reading,
) -> Result<Option<Point>, AllocError>
    ensures { IfOk result (λ p. state_at p reading.new
        ≡ at_named terminal.now purpose name reading.old.stack reading.old.script) }
{
    match terminal {
        Terminal::Operator(operator) => match operator {
            Operator::Dot => {
                let is_base = name.bytes.as_slice() == b"Base".as_slice();
                dot_after_base(is_base, purpose, name.at, reading)
            }
            _ => at_known(alloc, terminal, purpose, Callee::Plain(name), reading),
        },
        _ => at_known(alloc, terminal, purpose, Callee::Plain(name), reading),
    }
}

/// The function of this name behind `Base.`.
fn base_function(
    alloc: Global,
    name: &Bytes,
    place: u32,
    base: u32,
) -> Result<Owned<Callee>, AllocError>
    ensures { IfOk result (λ f. f ≡ Callee.Base base (name_at place name.now)) }
{
    Owned::new(alloc, Callee::Base(base, name_at(place, name.copy()?)))
}

/// A token behind `Base.`, which stands at the second place.
pub(crate) fn at_dotted(
    alloc: Global,
    terminal: &Terminal,
    place: u32,
    purpose: Purpose,
    base: u32,
    reading: &mut Reading,
) -> Result<Option<Point>, AllocError>
    ensures { IfOk result (λ p. state_at p reading.new
        ≡ at_dotted terminal.now place purpose base reading.old.stack reading.old.script) }
{
    match terminal {
        Terminal::Name(name) => match base_function(alloc, name, place, base) {
            Ok(callee) => Ok(Some(Point::Known(purpose, callee))),
            Err(error) => {
                drop(purpose);
                Err(error)
            }
        },
        Terminal::Operator(Operator::Colon) => Ok(Some(Point::Colon(purpose, base))),
        _ => {
            drop(purpose);
            Ok(None)
        }
    }
}

/// An operator behind `Base.:`.
#[inline(always)]
fn operator_after_base(
    alloc: Global,
    is_function: bool,
    operator: Operator,
    purpose: Purpose,
    base: u32,
    reading: &mut Reading,
) -> Result<Option<Point>, AllocError>
    ensures { IfOk result (λ p. state_at p reading.new
        ≡ operator_after_base is_function operator purpose base
        reading.old.stack reading.old.script) }
{
    if is_function {
        return match Owned::new(alloc, Callee::Operator(base, operator)) {
            Ok(callee) => Ok(Some(Point::Known(purpose, callee))),
            Err(error) => {
                drop(purpose);
                Err(error)
            }
        };
    }
    drop(purpose);
    Ok(None)
}

/// A token behind `Base.:`.
pub(crate) fn at_colon(
    alloc: Global,
    terminal: &Terminal,
    purpose: Purpose,
    base: u32,
    reading: &mut Reading,
) -> Result<Option<Point>, AllocError>
    ensures { IfOk result (λ p. state_at p reading.new
        ≡ at_colon terminal.now purpose base reading.old.stack reading.old.script) }
{
    match terminal {
        Terminal::Operator(operator) => {
            let is_function = is_function(*operator);
            operator_after_base(alloc, is_function, *operator, purpose, base, reading)
        }
        _ => {
            drop(purpose);
            Ok(None)
        }
    }
}

/// One more parameter of a head, of this depth.
pub(crate) fn add_param(heading: &mut Heading, param: Param, depth: u32) -> Result<(), AllocError>
    ensures { OnOk result (heading.new ≡ with_param heading.old param depth) }
{
    add(&mut heading.params, param, depth)
}

/// A token where a parameter must stand.
pub(crate) fn next_param(
    alloc: Global,
    terminal: &Terminal,
    place: u32,
    heading: Owned<Heading>,
    reading: &mut Reading,
) -> Result<Option<Point>, AllocError>
    ensures { IfOk result (λ p. state_at p reading.new
        ≡ next_param terminal.now place heading reading.old.stack reading.old.script) }
{
    match terminal {
        Terminal::Name(name) => {
            let name = name.copy()?;
            Ok(Some(Point::Param(heading, name_at(place, name))))
        }
        Terminal::Operator(Operator::HasType) => {
            Ok(Some(want_type(alloc, Goal::Param(heading, None, place))?))
        }
        _ => Ok(None),
    }
}

/// A token behind the `(` of a head.
pub(crate) fn first_param(
    alloc: Global,
    terminal: &Terminal,
    place: u32,
    heading: Owned<Heading>,
    reading: &mut Reading,
) -> Result<Option<Point>, AllocError>
    ensures { IfOk result (λ p. state_at p reading.new
        ≡ first_param terminal.now place heading reading.old.stack reading.old.script) }
{
    match terminal {
        Terminal::Operator(operator) => match operator {
            Operator::CloseParen => Ok(Some(Point::Headed(heading))),
            _ => next_param(alloc, terminal, place, heading, reading),
        },
        _ => next_param(alloc, terminal, place, heading, reading),
    }
}

/// A token behind a parameter.
pub(crate) fn token_after_param(
    terminal: &Terminal,
    heading: Owned<Heading>,
    reading: &mut Reading,
) -> Result<Option<Point>, AllocError>
    ensures { IfOk result (λ p. state_at p reading.new
        ≡ token_after_param terminal.now heading reading.old.stack reading.old.script) }
{
    match terminal {
        Terminal::Operator(Operator::Comma) => Ok(Some(Point::NextParam(heading))),
        Terminal::Operator(Operator::CloseParen) => Ok(Some(Point::Headed(heading))),
        _ => Ok(None),
    }
}

/// A token behind a parameter that is a name alone.
fn end_bare_param(
    terminal: &Terminal,
    heading: Owned<Heading>,
    name: Name,
    reading: &mut Reading,
) -> Result<Option<Point>, AllocError>
    ensures { IfOk result (λ p. state_at p reading.new
        ≡ token_after_param terminal.now (with_param heading (Param.Name name) 0)
        reading.old.stack reading.old.script) }
{
    let mut heading = heading;
    add_param(heading.get_mut(), Param::Name(name), 0)?;
    token_after_param(terminal, heading, reading)
}

/// A token behind the name of a parameter.
pub(crate) fn at_param(
    alloc: Global,
    terminal: &Terminal,
    place: u32,
    heading: Owned<Heading>,
    name: Name,
    reading: &mut Reading,
) -> Result<Option<Point>, AllocError>
    ensures { IfOk result (λ p. state_at p reading.new
        ≡ at_param terminal.now place heading name reading.old.stack reading.old.script) }
{
    match terminal {
        Terminal::Operator(operator) => match operator {
            Operator::HasType => {
                let goal = Goal::Param(heading, Some(name), place);
                Ok(Some(want_type(alloc, goal)?))
            }
            _ => end_bare_param(terminal, heading, name, reading),
        },
        _ => end_bare_param(terminal, heading, name, reading),
    }
}

/// What stands before the expression of a method behind `@eval`.
fn define(
    alloc: Global,
    pending: &mut Pending,
    place: u32,
    head: Owned<Form<Head>>,
) -> Result<(), AllocError>
    ensures { OnOk result (pending.new
        ≡ push_outer (Outer.Short pending.old.levels place head) true pending.old) }
{
    let levels = take_levels(alloc, &mut pending.levels);
    begin_form(alloc, Outer::Short(levels, place, head), true, pending)
}

/// `=` behind a head.
fn begin_body(
    alloc: Global,
    method: Place,
    head: Owned<Form<Head>>,
    reading: &mut Reading,
) -> Result<Option<Point>, AllocError>
    ensures { IfOk result (λ p. state_at p reading.new
        ≡ begin_body method head reading.old.stack reading.old.script) }
{
    match method {
        Place::Entry => {
            let pending = pending_after(alloc, Lead::Short(head), true)?;
            Ok(Some(Point::Want(pending)))
        }
        Place::Evaluated(pending, place) => {
            let mut pending = pending;
            define(alloc, pending.get_mut(), place, head)?;
            Ok(Some(Point::Want(pending)))
        }
    }
}

/// A token behind the head of a method that `function` has not begun.
fn token_after_short_head(
    alloc: Global,
    terminal: &Terminal,
    method: Place,
    head: Form<Head>,
    reading: &mut Reading,
) -> Result<Option<Point>, AllocError>
    ensures { IfOk result (λ p. state_at p reading.new
        ≡ token_after_short_head terminal.now method head reading.old.stack reading.old.script) }
{
    match terminal {
        Terminal::Operator(Operator::Assign) => {
            let head = Owned::new(alloc, head)?;
            begin_body(alloc, method, head, reading)
        }
        _ => Ok(None),
    }
}

/// A token behind a head with its `where`: the body of a method that `function` has begun begins with it.
fn token_after_head(
    alloc: Global,
    long: bool,
    terminal: &Terminal,
    marks: Marks,
    next: u32,
    method: Place,
    head: Form<Head>,
    reading: &mut Reading,
) -> Result<Option<Point>, AllocError>
    ensures { IfOk result (λ p. state_at p reading.new
        ≡ token_after_head long terminal.now marks next method head
        reading.old.stack reading.old.script) }
{
    if long {
        let kind = Owned::new(alloc, BlockKind::Body(method, head))?;
        reading.stack.push(Frame::Block(kind, no_forms(alloc)))?;
        return at_entry(alloc, terminal, marks, next, reading);
    }
    token_after_short_head(alloc, terminal, method, head, reading)
}

/// A token behind a head with these variables.
fn end_head(
    alloc: Global,
    terminal: &Terminal,
    marks: Marks,
    next: u32,
    heading: Owned<Heading>,
    vars: VarsForm,
    reading: &mut Reading,
) -> Result<Option<Point>, AllocError>
    ensures { IfOk result (λ p. state_at p reading.new
        ≡ end_head terminal.now marks next heading vars reading.old.stack reading.old.script) }
{
    let Heading {
        start,
        callee,
        params,
    } = heading.take();
    let Start {
        place: method,
        long,
        at,
    } = start;
    let head = head(alloc, at, callee, params, vars)?;
    token_after_head(alloc, long, terminal, marks, next, method, head, reading)
}

/// A token behind the `)` of a head.
pub(crate) fn at_headed(
    alloc: Global,
    terminal: &Terminal,
    marks: Marks,
    next: u32,
    heading: Owned<Heading>,
    reading: &mut Reading,
) -> Result<Option<Point>, AllocError>
    ensures { IfOk result (λ p. state_at p reading.new
        ≡ at_headed terminal.now marks next heading reading.old.stack reading.old.script) }
{
    match terminal {
        Terminal::Word(word) => match word {
            Word::Where => {
                let state = Owned::new(alloc, where_start(alloc))?;
                Ok(Some(Point::Where(heading, state)))
            }
            _ => end_head(alloc, terminal, marks, next, heading, no_vars(), reading),
        },
        _ => end_head(alloc, terminal, marks, next, heading, no_vars(), reading),
    }
}

/// What a token is to the variables behind `where`.
pub(crate) fn where_turn(
    alloc: Global,
    taken: Taken,
    terminal: &Terminal,
    marks: Marks,
    next: u32,
    heading: Owned<Heading>,
    state: Owned<TypeState>,
    reading: &mut Reading,
) -> Result<Option<Point>, AllocError>
    ensures { IfOk result (λ p. state_at p reading.new
        ≡ where_turn (turn_of taken state) terminal.now marks next heading
        reading.old.stack reading.old.script) }
{
    match taken {
        Taken::Goes => Ok(Some(Point::Where(heading, state))),
        Taken::Variables(variables) => {
            let vars = vars_form(alloc, variables)?;
            end_head(alloc, terminal, marks, next, heading, vars, reading)
        }
        taken => {
            drop(taken);
            drop(heading);
            Ok(None)
        }
    }
}
