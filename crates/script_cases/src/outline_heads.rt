//! Functions, heads of methods and heads of declarations in an outline.

use crate::outline_types::{put_name, put_type, put_variables, put_where};
use crate::text::Written;
use jl_grammar::tree::{Callee, Field, Head, Header, Param};
use jl_token::token::Operator;

/// The sign of an operator that a method can be added to.
fn sign(operator: Operator) -> &'static str {
    match operator {
        Operator::Plus => "+",
        Operator::Minus => "-",
        Operator::Times => "*",
        Operator::Divide => "÷",
        Operator::Remainder => "%",
        Operator::Equal => "==",
        Operator::NotEqual => "!=",
        Operator::Less => "<",
        Operator::LessEqual => "<=",
        Operator::Greater => ">",
        Operator::GreaterEqual => ">=",
        Operator::Not => "!",
        _ => "no function",
    }
}

/// The function that is called, or that a method is added to.
pub fn put_callee(out: &mut Written, callee: &Callee) {
    match callee {
        Callee::Plain(name) => put_name(out, name.bytes.as_slice()),
        Callee::Base(_, name) => {
            out.put("Base.");
            put_name(out, name.bytes.as_slice());
        }
        Callee::Operator(_, operator) => {
            out.put("Base.:");
            out.put(sign(*operator));
        }
    }
}

/// A parameter of a method.
fn put_param(out: &mut Written, param: &Param) {
    match param {
        Param::Name(name) => put_name(out, name.bytes.as_slice()),
        Param::Typed(name, ty) => {
            put_name(out, name.bytes.as_slice());
            out.put("::");
            put_type(out, ty);
        }
        Param::Unnamed(_, ty) => {
            out.put("::");
            put_type(out, ty);
        }
    }
}

/// Parameters with commas between them.
fn put_params(out: &mut Written, params: &[Param]) {
    for (i, param) in params.iter().enumerate() {
        if i > 0 {
            out.put(", ");
        }
        put_param(out, param);
    }
}

/// The head of a method.
pub fn put_head(out: &mut Written, head: &Head) {
    put_callee(out, &head.callee);
    out.put("(");
    put_params(out, head.params.as_slice());
    out.put(")");
    put_where(out, head.vars.as_slice());
}

/// The head of a declaration.
pub fn put_header(out: &mut Written, header: &Header) {
    put_name(out, header.name.bytes.as_slice());
    put_variables(out, header.params.as_slice());
    match &header.parent {
        None => {}
        Some(ty) => {
            out.put(" <: ");
            put_type(out, ty);
        }
    }
}

/// A field of a struct.
fn put_field(out: &mut Written, field: &Field) {
    put_name(out, field.name.bytes.as_slice());
    match &field.ty {
        None => {}
        Some(ty) => {
            out.put("::");
            put_type(out, ty);
        }
    }
}

/// The fields of a struct; nothing where there are none.
pub fn put_fields(out: &mut Written, fields: &[Field]) {
    if fields.is_empty() {
        return;
    }
    out.put(": ");
    for (i, field) in fields.iter().enumerate() {
        if i > 0 {
            out.put("; ");
        }
        put_field(out, field);
    }
}
