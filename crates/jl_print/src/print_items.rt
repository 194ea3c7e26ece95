//! The tokens that the items of a script are printed by.

ghost use Rattle.std.specs.Prelude.{◌≡◌, ◌++◌, ◌∷◌, [], map, codes, OnOk};
ghost use Rattle.jl_typeread.specs.declared.terminal.Terminal.TheVariants as S;
ghost use Rattle.jl_typeread.specs.declared.terminal.Word.TheVariants as w;
ghost use Rattle.jl_print.specs.Printed.{lines, block_step, header_terminals, field_terminals, item_terminals, script_terminals};

use crate::print_forms::{put_binding, put_expr, put_method};
use crate::print_heads::{put_header, put_text};
use crate::print_types::{put_marked_type, put_name, put_word};
use jl_grammar::tree::{Field, Header, Item, Script};
use jl_model::rows::Row;
use jl_token::token::Operator;
use jl_typeread::terminal::{Terminal, Word};
use std::alloc::{AllocError, Global};

/// A field of a struct.
fn put_field(out: &mut Row<Terminal>, field: &Field) -> Result<(), AllocError>
    ensures { OnOk result (out.new ≡ out.old ++ field_terminals field.now) }
{
    put_name(out, &field.name.bytes)?;
    put_marked_type(out, Operator::HasType, &field.ty)
}

/// Fields, each with a newline behind it.
fn put_fields(out: &mut Row<Terminal>, fields: &[Field]) -> Result<(), AllocError>
    ensures { OnOk result (out.new ≡ out.old ++ lines (map field_terminals fields.now)) }
{
    for field in fields {
        put_field(out, field)?;
        out.push(Terminal::Newline)?;
    }
    Ok(())
}

/// The fields of a struct behind its head, up to its `end`.
fn put_body(out: &mut Row<Terminal>, fields: &[Field]) -> Result<(), AllocError>
    ensures { OnOk result (out.new ≡ out.old ++ block_step (map field_terminals fields.now)) }
{
    out.push(Terminal::Newline)?;
    put_fields(out, fields)?;
    put_word(out, Word::End)
}

/// The declaration of an abstract type.
fn put_abstract(out: &mut Row<Terminal>, alloc: Global, header: &Header) -> Result<(), AllocError>
    ensures { OnOk result (out.new
        ≡ out.old
        ++ S.Word w.Abstract ∷ S.Name (codes "type")
        ∷ (header_terminals header.now ++ S.Word w.End ∷ [])) }
{
    put_word(out, Word::Abstract)?;
    put_text(out, alloc, b"type")?;
    put_header(out, header)?;
    put_word(out, Word::End)
}

/// An item.
fn put_item(out: &mut Row<Terminal>, alloc: Global, item: &Item) -> Result<(), AllocError>
    ensures { OnOk result (out.new ≡ out.old ++ item_terminals item.now) }
{
    match item {
        Item::Abstract(declared) => put_abstract(out, alloc, &declared.header),
        Item::Struct(declared) => {
            put_word(out, Word::Struct)?;
            put_header(out, &declared.header)?;
            put_body(out, declared.fields.as_slice())
        }
        Item::Method(method) => put_method(out, alloc, method),
        Item::Bind(name, expr) => put_binding(out, alloc, name, expr),
        Item::Do(expr) => put_expr(out, alloc, expr),
    }
}

/// The items of a script, each with a newline behind it.
pub(crate) fn put_script(
    out: &mut Row<Terminal>,
    alloc: Global,
    script: &Script,
) -> Result<(), AllocError>
    ensures { OnOk result (out.new ≡ out.old ++ script_terminals script.now) }
{
    for item in script.items.as_slice() {
        put_item(out, alloc, item)?;
        out.push(Terminal::Newline)?;
    }
    Ok(())
}
