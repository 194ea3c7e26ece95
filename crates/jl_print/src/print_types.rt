//! The tokens that written types are printed by.

ghost use Rattle.std.specs.Prelude.{◌≡◌, ◌++◌, ◌∷◌, [], map, OnOk};
ghost use Rattle.jl_typeread.specs.declared.terminal.Terminal.TheVariants as S;
ghost use Rattle.jl_print.specs.Printed.{join, in_braces, argument_terminals, type_terminals, variable_terminals, where_terminals, params_terminals, marked_type};

use jl_model::rows::Row;
use jl_model::ty::Bytes;
use jl_token::token::Operator;
use jl_typeread::terminal::{Terminal, Word};
use jl_typeread::tree::{ArgText, TypeText, VarText};
use std::alloc::AllocError;

/// A name.
pub(crate) fn put_name(out: &mut Row<Terminal>, name: &Bytes) -> Result<(), AllocError>
    ensures { OnOk result (out.new ≡ out.old ++ S.Name name.now ∷ []) }
{
    out.push(Terminal::Name(name.copy()?))
}

/// A mark.
pub(crate) fn put_mark(out: &mut Row<Terminal>, operator: Operator) -> Result<(), AllocError>
    ensures { OnOk result (out.new ≡ out.old ++ S.Operator operator ∷ []) }
{
    out.push(Terminal::Operator(operator))
}

/// A reserved word.
pub(crate) fn put_word(out: &mut Row<Terminal>, word: Word) -> Result<(), AllocError>
    ensures { OnOk result (out.new ≡ out.old ++ S.Word word ∷ []) }
{
    out.push(Terminal::Word(word))
}

/// Arguments with `,` between them.
#[cycle(types)]
fn put_arguments(out: &mut Row<Terminal>, arguments: &[ArgText]) -> Result<(), AllocError>
    ensures { OnOk result (out.new ≡ out.old ++ join (map argument_terminals arguments.now)) }
{
    for (i, argument) in arguments.iter().enumerate() {
        if i > 0 {
            put_mark(out, Operator::Comma)?;
        }
        put_argument(out, argument)?;
    }
    Ok(())
}

/// An argument of a type.
#[cycle(types)]
fn put_argument(out: &mut Row<Terminal>, argument: &ArgText) -> Result<(), AllocError>
    ensures { OnOk result (out.new ≡ out.old ++ argument_terminals argument.now) }
{
    match argument {
        ArgText::Exact(ty) => put_type(out, ty),
        ArgText::Below(_, ty) => {
            put_mark(out, Operator::Subtype)?;
            put_type(out, ty)
        }
        ArgText::Above(_, ty) => {
            put_mark(out, Operator::Supertype)?;
            put_type(out, ty)
        }
    }
}

/// A type.
#[cycle(types)]
pub(crate) fn put_type(out: &mut Row<Terminal>, ty: &TypeText) -> Result<(), AllocError>
    ensures { OnOk result (out.new ≡ out.old ++ type_terminals ty.now) }
{
    match ty {
        TypeText::Name(_, name) => put_name(out, name),
        TypeText::Applied(_, name, arguments) => {
            put_name(out, name)?;
            put_mark(out, Operator::OpenBrace)?;
            put_arguments(out, arguments.as_slice())?;
            put_mark(out, Operator::CloseBrace)
        }
        TypeText::Paren(_, inner, variables) => {
            put_mark(out, Operator::OpenParen)?;
            put_type(out, inner.get())?;
            put_where(out, variables.as_slice())?;
            put_mark(out, Operator::CloseParen)
        }
    }
}

/// Variables with `,` between them.
#[cycle(types)]
fn put_variables(out: &mut Row<Terminal>, variables: &[VarText]) -> Result<(), AllocError>
    ensures { OnOk result (out.new ≡ out.old ++ join (map variable_terminals variables.now)) }
{
    for (i, variable) in variables.iter().enumerate() {
        if i > 0 {
            put_mark(out, Operator::Comma)?;
        }
        put_variable(out, variable)?;
    }
    Ok(())
}

/// A variable with its bounds.
#[cycle(types)]
fn put_variable(out: &mut Row<Terminal>, variable: &VarText) -> Result<(), AllocError>
    ensures { OnOk result (out.new ≡ out.old ++ variable_terminals variable.now) }
{
    match variable {
        VarText::Free(_, name) => put_name(out, name),
        VarText::Below(_, name, bound) => {
            put_name(out, name)?;
            put_mark(out, Operator::Subtype)?;
            put_type(out, bound.get())
        }
        VarText::Above(_, name, bound) => {
            put_name(out, name)?;
            put_mark(out, Operator::Supertype)?;
            put_type(out, bound.get())
        }
        VarText::Between(low, _, name, high) => {
            put_type(out, low.get())?;
            put_mark(out, Operator::Subtype)?;
            put_name(out, name)?;
            put_mark(out, Operator::Subtype)?;
            put_type(out, high.get())
        }
    }
}

/// Variables in braces.
#[cycle(types)]
fn put_in_braces(out: &mut Row<Terminal>, variables: &[VarText]) -> Result<(), AllocError>
    ensures { OnOk result (out.new ≡ out.old ++ in_braces (map variable_terminals variables.now)) }
{
    put_mark(out, Operator::OpenBrace)?;
    put_variables(out, variables)?;
    put_mark(out, Operator::CloseBrace)
}

/// The variables of a `where`; nothing where there are none.
#[cycle(types)]
pub(crate) fn put_where(out: &mut Row<Terminal>, variables: &[VarText]) -> Result<(), AllocError>
    ensures { OnOk result (out.new ≡ out.old ++ where_terminals variables.now) }
{
    if variables.is_empty() {
        return Ok(());
    }
    put_word(out, Word::Where)?;
    put_in_braces(out, variables)
}

/// The parameters of a declared type; nothing where there are none.
pub(crate) fn put_parameters(
    out: &mut Row<Terminal>,
    variables: &[VarText],
) -> Result<(), AllocError>
    ensures { OnOk result (out.new ≡ out.old ++ params_terminals variables.now) }
{
    if variables.is_empty() {
        return Ok(());
    }
    put_in_braces(out, variables)
}

/// A type behind a mark, where there is one.
pub(crate) fn put_marked_type(
    out: &mut Row<Terminal>,
    operator: Operator,
    ty: &Option<TypeText>,
) -> Result<(), AllocError>
    ensures { OnOk result (out.new ≡ out.old ++ marked_type operator ty.now) }
{
    match ty {
        None => Ok(()),
        Some(ty) => {
            put_mark(out, operator)?;
            put_type(out, ty)
        }
    }
}
