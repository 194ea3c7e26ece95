//! Declarations of types, and what follows an item that a token of its own has ended.

ghost use Rattle.std.specs.Prelude.{◌≡◌, IfOk, None, OnOk, Some};
ghost use Rattle.jl_grammar.specs.Goes.{state_at};
ghost use Rattle.jl_grammar.specs.Forms.{no_forms};
ghost use Rattle.jl_typeread.specs.Machine.{turn_of};
ghost use Rattle.jl_grammar.specs.Machine.{begin_abstract, at_abstract, at_decl, token_after_struct, token_after_abstract, token_after_header, end_header, token_after_params, at_declared, params_turn, token_after_field, at_fields, with_field, at_field, separator_after_item, at_made, separator_after_method, end_after_method, source_end_after_method, at_made_method};

use crate::after_operand::want_type;
use crate::blocks::{end_evals, name_at, push_frame, with_method};
use crate::forms::{add, no_forms, no_vars, vars_form};
use crate::items::{abstract_item, header, method_item, struct_item, with_item};
use jl_grammar::owned::Owned;
use jl_grammar::state::{Declaring, Fielding, Form, Frame, Goal, Point, Reading, TypeForm};
use jl_grammar::tree::{Field, Header, Item, Method, Name};
use jl_token::token::Operator;
use jl_typeread::entries::header_start;
use jl_typeread::state::{State as TypeState, Taken};
use jl_typeread::terminal::{Terminal, Word};
use jl_typeread::tree::TypeText;
use std::alloc::{AllocError, Global};

/// The word behind `abstract`.
fn begin_abstract(is_type: bool, place: u32, reading: &mut Reading) -> Option<Point>
    ensures { state_at result reading.new
        ≡ begin_abstract is_type place reading.old.stack reading.old.script }
{
    if is_type {
        return Some(Point::DeclName(place, false));
    }
    None
}

/// A token behind `abstract`.
pub(crate) fn at_abstract(terminal: &Terminal, place: u32, reading: &mut Reading) -> Option<Point>
    ensures { state_at result reading.new
        ≡ at_abstract terminal.now place reading.old.stack reading.old.script }
{
    match terminal {
        Terminal::Name(name) => {
            let is_type = name.as_slice() == b"type".as_slice();
            begin_abstract(is_type, place, reading)
        }
        _ => None,
    }
}

/// A token where the name of a declaration must stand.
pub(crate) fn at_decl(
    alloc: Global,
    terminal: &Terminal,
    next: u32,
    place: u32,
    is_struct: bool,
    reading: &mut Reading,
) -> Result<Option<Point>, AllocError>
    ensures { IfOk result (λ p. state_at p reading.new
        ≡ at_decl terminal.now next place is_struct reading.old.stack reading.old.script) }
{
    match terminal {
        Terminal::Name(name) => {
            let declaring = Declaring {
                at: place,
                is_struct,
                name: name_at(next, name.copy()?),
                params: no_vars(),
            };
            Ok(Some(Point::Declared(Owned::new(alloc, declaring)?)))
        }
        _ => Ok(None),
    }
}

/// The fields of a struct begin.
fn begin_fields(alloc: Global, header: Form<Header>) -> Result<Option<Point>, AllocError>
    ensures { IfOk result (λ p. p
        ≡ Some (Point.Fields (record { header = header; fields = no_forms }))) }
{
    let fielding = Fielding {
        header,
        fields: no_forms(alloc),
    };
    Ok(Some(Point::Fields(Owned::new(alloc, fielding)?)))
}

/// A token behind the head of a struct.
fn token_after_struct(
    alloc: Global,
    terminal: &Terminal,
    header: Form<Header>,
    reading: &mut Reading,
) -> Result<Option<Point>, AllocError>
    ensures { IfOk result (λ p. state_at p reading.new
        ≡ token_after_struct terminal.now header reading.old.stack reading.old.script) }
{
    match terminal {
        Terminal::Newline => begin_fields(alloc, header),
        Terminal::Operator(Operator::Semicolon) => begin_fields(alloc, header),
        Terminal::Word(Word::End) => {
            let item = struct_item(alloc, header, no_forms(alloc))?;
            Ok(Some(Point::Made(item)))
        }
        _ => Ok(None),
    }
}

/// A token behind the head of an abstract type.
fn token_after_abstract(
    alloc: Global,
    terminal: &Terminal,
    header: Form<Header>,
    reading: &mut Reading,
) -> Result<Option<Point>, AllocError>
    ensures { IfOk result (λ p. state_at p reading.new
        ≡ token_after_abstract terminal.now header reading.old.stack reading.old.script) }
{
    match terminal {
        Terminal::Word(Word::End) => {
            let item = abstract_item(alloc, header)?;
            Ok(Some(Point::Made(item)))
        }
        _ => Ok(None),
    }
}

/// A token behind the head of a declaration.
fn token_after_header(
    alloc: Global,
    is_struct: bool,
    terminal: &Terminal,
    header: Form<Header>,
    reading: &mut Reading,
) -> Result<Option<Point>, AllocError>
    ensures { IfOk result (λ p. state_at p reading.new
        ≡ token_after_header is_struct terminal.now header reading.old.stack reading.old.script) }
{
    if is_struct {
        return token_after_struct(alloc, terminal, header, reading);
    }
    token_after_abstract(alloc, terminal, header, reading)
}

/// A token behind the name, the parameters and the supertype.
pub(crate) fn end_header(
    alloc: Global,
    terminal: &Terminal,
    declaring: Owned<Declaring>,
    parent: Option<TypeForm>,
    reading: &mut Reading,
) -> Result<Option<Point>, AllocError>
    ensures { IfOk result (λ p. state_at p reading.new
        ≡ end_header terminal.now declaring parent reading.old.stack reading.old.script) }
{
    let Declaring {
        at,
        is_struct,
        name,
        params,
    } = declaring.take();
    let header = header(alloc, at, name, params, parent)?;
    token_after_header(alloc, is_struct, terminal, header, reading)
}

/// A token behind the name and the parameters.
fn token_after_params(
    alloc: Global,
    terminal: &Terminal,
    declaring: Owned<Declaring>,
    reading: &mut Reading,
) -> Result<Option<Point>, AllocError>
    ensures { IfOk result (λ p. state_at p reading.new
        ≡ token_after_params terminal.now declaring reading.old.stack reading.old.script) }
{
    match terminal {
        Terminal::Operator(operator) => match operator {
            Operator::Subtype => { Ok(Some(want_type(alloc, Goal::Parent(declaring))?)) }
            _ => end_header(alloc, terminal, declaring, None, reading),
        },
        _ => end_header(alloc, terminal, declaring, None, reading),
    }
}

/// A token behind the name of a declaration.
pub(crate) fn at_declared(
    alloc: Global,
    terminal: &Terminal,
    declaring: Owned<Declaring>,
    reading: &mut Reading,
) -> Result<Option<Point>, AllocError>
    ensures { IfOk result (λ p. state_at p reading.new
        ≡ at_declared terminal.now declaring reading.old.stack reading.old.script) }
{
    match terminal {
        Terminal::Operator(operator) => match operator {
            Operator::OpenBrace => {
                let state = Owned::new(alloc, header_start(alloc)?)?;
                Ok(Some(Point::Params(declaring, state)))
            }
            _ => token_after_params(alloc, terminal, declaring, reading),
        },
        _ => token_after_params(alloc, terminal, declaring, reading),
    }
}

/// What a token is to the parameters of a declaration.
pub(crate) fn params_turn(
    alloc: Global,
    taken: Taken,
    terminal: &Terminal,
    declaring: Owned<Declaring>,
    state: Owned<TypeState>,
    reading: &mut Reading,
) -> Result<Option<Point>, AllocError>
    ensures { IfOk result (λ p. state_at p reading.new
        ≡ params_turn (turn_of taken state) terminal.now declaring
        reading.old.stack reading.old.script) }
{
    match taken {
        Taken::Goes => Ok(Some(Point::Params(declaring, state))),
        Taken::Variables(variables) => {
            let mut declaring = declaring;
            declaring.get_mut().params = vars_form(alloc, variables)?;
            token_after_params(alloc, terminal, declaring, reading)
        }
        taken => {
            drop(taken);
            Ok(None)
        }
    }
}

/// A token behind a field.
pub(crate) fn token_after_field(
    alloc: Global,
    terminal: &Terminal,
    fielding: Owned<Fielding>,
    reading: &mut Reading,
) -> Result<Option<Point>, AllocError>
    ensures { IfOk result (λ p. state_at p reading.new
        ≡ token_after_field terminal.now fielding reading.old.stack reading.old.script) }
{
    match terminal {
        Terminal::Newline => Ok(Some(Point::Fields(fielding))),
        Terminal::Operator(Operator::Semicolon) => Ok(Some(Point::Fields(fielding))),
        Terminal::Word(Word::End) => {
            let Fielding { header, fields } = fielding.take();
            let item = struct_item(alloc, header, fields)?;
            Ok(Some(Point::Made(item)))
        }
        _ => Ok(None),
    }
}

/// A token where a field may stand.
pub(crate) fn at_fields(
    alloc: Global,
    terminal: &Terminal,
    place: u32,
    fielding: Owned<Fielding>,
    reading: &mut Reading,
) -> Result<Option<Point>, AllocError>
    ensures { IfOk result (λ p. state_at p reading.new
        ≡ at_fields terminal.now place fielding reading.old.stack reading.old.script) }
{
    match terminal {
        Terminal::Name(name) => {
            let name = name.copy()?;
            Ok(Some(Point::Field(fielding, name_at(place, name))))
        }
        _ => token_after_field(alloc, terminal, fielding, reading),
    }
}

/// One more field of a struct, of this depth.
pub(crate) fn add_field(
    fielding: &mut Fielding,
    name: Name,
    ty: Option<TypeText>,
    depth: u32,
) -> Result<(), AllocError>
    ensures { OnOk result (fielding.new ≡ with_field fielding.old name ty depth) }
{
    add(&mut fielding.fields, Field { name, ty }, depth)
}

/// A token behind a field that is a name alone.
fn end_bare_field(
    alloc: Global,
    terminal: &Terminal,
    fielding: Owned<Fielding>,
    name: Name,
    reading: &mut Reading,
) -> Result<Option<Point>, AllocError>
    ensures { IfOk result (λ p. state_at p reading.new
        ≡ token_after_field terminal.now (with_field fielding name None 0)
        reading.old.stack reading.old.script) }
{
    let mut fielding = fielding;
    add_field(fielding.get_mut(), name, None, 0)?;
    token_after_field(alloc, terminal, fielding, reading)
}

/// A token behind the name of a field.
pub(crate) fn at_field(
    alloc: Global,
    terminal: &Terminal,
    fielding: Owned<Fielding>,
    name: Name,
    reading: &mut Reading,
) -> Result<Option<Point>, AllocError>
    ensures { IfOk result (λ p. state_at p reading.new
        ≡ at_field terminal.now fielding name reading.old.stack reading.old.script) }
{
    match terminal {
        Terminal::Operator(operator) => match operator {
            Operator::HasType => { Ok(Some(want_type(alloc, Goal::Field(fielding, name))?)) }
            _ => end_bare_field(alloc, terminal, fielding, name, reading),
        },
        _ => end_bare_field(alloc, terminal, fielding, name, reading),
    }
}

/// A separator, or the source's end, behind an item.
fn separator_after_item(
    item: Form<Item>,
    reading: &mut Reading,
) -> Result<Option<Point>, AllocError>
    ensures { IfOk result (λ p. state_at p reading.new
        ≡ separator_after_item item reading.old.stack reading.old.script) }
{
    if reading.stack.is_empty() {
        with_item(&mut reading.script, item)?;
        return Ok(Some(Point::Entry));
    }
    drop(item);
    Ok(None)
}

/// A token behind an item.
pub(crate) fn at_made(
    terminal: &Terminal,
    item: Form<Item>,
    reading: &mut Reading,
) -> Result<Option<Point>, AllocError>
    ensures { IfOk result (λ p. state_at p reading.new
        ≡ at_made terminal.now item reading.old.stack reading.old.script) }
{
    match terminal {
        Terminal::Newline => separator_after_item(item, reading),
        Terminal::Operator(Operator::Semicolon) => separator_after_item(item, reading),
        Terminal::End => separator_after_item(item, reading),
        _ => Ok(None),
    }
}

/// A separator behind the `end` of a method.
fn separator_after_method(
    alloc: Global,
    method: Form<Method>,
    reading: &mut Reading,
) -> Result<Option<Point>, AllocError>
    ensures { IfOk result (λ p. state_at p reading.new
        ≡ separator_after_method method reading.old.stack reading.old.script) }
{
    match reading.stack.pop() {
        None => {
            let item = method_item(alloc, method)?;
            with_item(&mut reading.script, item)?;
            Ok(Some(Point::Entry))
        }
        Some(Frame::Evals(kind, evals)) => {
            let evals = with_method(evals, method)?;
            push_frame(Point::Entry, Frame::Evals(kind, evals), reading)
        }
        Some(frame) => {
            drop(frame);
            drop(method);
            Ok(None)
        }
    }
}

/// The `end` of an evaluated block behind that of a method.
fn end_after_method(
    alloc: Global,
    method: Form<Method>,
    reading: &mut Reading,
) -> Result<Option<Point>, AllocError>
    ensures { IfOk result (λ p. state_at p reading.new
        ≡ end_after_method method reading.old.stack reading.old.script) }
{
    match reading.stack.pop() {
        Some(Frame::Evals(kind, evals)) => {
            let evals = with_method(evals, method)?;
            end_evals(alloc, kind, evals, reading)
        }
        Some(frame) => {
            drop(frame);
            drop(method);
            Ok(None)
        }
        None => {
            drop(method);
            Ok(None)
        }
    }
}

/// The source's end behind the `end` of a method.
fn source_end_after_method(
    alloc: Global,
    method: Form<Method>,
    reading: &mut Reading,
) -> Result<Option<Point>, AllocError>
    ensures { IfOk result (λ p. state_at p reading.new
        ≡ source_end_after_method method reading.old.stack reading.old.script) }
{
    if reading.stack.is_empty() {
        let item = method_item(alloc, method)?;
        with_item(&mut reading.script, item)?;
        return Ok(Some(Point::Entry));
    }
    drop(method);
    Ok(None)
}

/// A token behind the `end` of a method.
pub(crate) fn at_made_method(
    alloc: Global,
    terminal: &Terminal,
    method: Form<Method>,
    reading: &mut Reading,
) -> Result<Option<Point>, AllocError>
    ensures { IfOk result (λ p. state_at p reading.new
        ≡ at_made_method terminal.now method reading.old.stack reading.old.script) }
{
    match terminal {
        Terminal::Newline => separator_after_method(alloc, method, reading),
        Terminal::Operator(Operator::Semicolon) => separator_after_method(alloc, method, reading),
        Terminal::Word(Word::End) => end_after_method(alloc, method, reading),
        Terminal::End => source_end_after_method(alloc, method, reading),
        _ => Ok(None),
    }
}
