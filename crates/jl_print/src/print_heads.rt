//! The tokens that the heads of methods and of declarations are printed by.

ghost use Rattle.std.specs.Prelude.{◌≡◌, ◌++◌, ◌∷◌, [], map, codes, OnOk};
ghost use Rattle.jl_typeread.specs.declared.terminal.Terminal.TheVariants as S;
ghost use Rattle.jl_print.specs.Printed.{join, in_parens, callee_terminals, param_terminals, head_terminals, header_terminals};

use crate::print_types::{
    put_mark, put_marked_type, put_name, put_parameters, put_type, put_where,
};
use jl_grammar::tree::{Callee, Head, Header, Param};
use jl_model::rows::Row;
use jl_token::token::Operator;
use jl_typeread::terminal::Terminal;
use std::alloc::{AllocError, Global};

/// A name of these bytes.
pub(crate) fn put_text(
    out: &mut Row<Terminal>,
    alloc: Global,
    name: &[u8],
) -> Result<(), AllocError>
    ensures { OnOk result (out.new ≡ out.old ++ S.Name name.now ∷ []) }
{
    let mut bytes = Row::new(alloc);
    bytes.append(name)?;
    out.push(Terminal::Name(bytes.into_shared(alloc)?))
}

/// The function that is called, or that a method is added to.
pub(crate) fn put_callee(
    out: &mut Row<Terminal>,
    alloc: Global,
    callee: &Callee,
) -> Result<(), AllocError>
    ensures { OnOk result (out.new ≡ out.old ++ callee_terminals callee.now) }
{
    match callee {
        Callee::Plain(name) => put_name(out, &name.bytes),
        Callee::Base(_, name) => {
            put_text(out, alloc, b"Base")?;
            put_mark(out, Operator::Dot)?;
            put_name(out, &name.bytes)
        }
        Callee::Operator(_, operator) => {
            put_text(out, alloc, b"Base")?;
            put_mark(out, Operator::Dot)?;
            put_mark(out, Operator::Colon)?;
            put_mark(out, *operator)
        }
    }
}

/// A parameter of a method.
fn put_param(out: &mut Row<Terminal>, param: &Param) -> Result<(), AllocError>
    ensures { OnOk result (out.new ≡ out.old ++ param_terminals param.now) }
{
    match param {
        Param::Name(name) => put_name(out, &name.bytes),
        Param::Typed(name, ty) => {
            put_name(out, &name.bytes)?;
            put_mark(out, Operator::HasType)?;
            put_type(out, ty)
        }
        Param::Unnamed(_, ty) => {
            put_mark(out, Operator::HasType)?;
            put_type(out, ty)
        }
    }
}

/// Parameters with `,` between them.
fn put_params(out: &mut Row<Terminal>, params: &[Param]) -> Result<(), AllocError>
    ensures { OnOk result (out.new ≡ out.old ++ join (map param_terminals params.now)) }
{
    for (i, param) in params.iter().enumerate() {
        if i > 0 {
            put_mark(out, Operator::Comma)?;
        }
        put_param(out, param)?;
    }
    Ok(())
}

/// The head of a method, with its `where`.
pub(crate) fn put_head(
    out: &mut Row<Terminal>,
    alloc: Global,
    head: &Head,
) -> Result<(), AllocError>
    ensures { OnOk result (out.new ≡ out.old ++ head_terminals head.now) }
{
    put_callee(out, alloc, &head.callee)?;
    put_mark(out, Operator::OpenParen)?;
    put_params(out, head.params.as_slice())?;
    put_mark(out, Operator::CloseParen)?;
    put_where(out, head.vars.as_slice())
}

/// The head of a declaration.
pub(crate) fn put_header(out: &mut Row<Terminal>, header: &Header) -> Result<(), AllocError>
    ensures { OnOk result (out.new ≡ out.old ++ header_terminals header.now) }
{
    put_name(out, &header.name.bytes)?;
    put_parameters(out, header.params.as_slice())?;
    put_marked_type(out, Operator::Subtype, &header.parent)
}
