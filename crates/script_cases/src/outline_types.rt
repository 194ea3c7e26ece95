//! Written types in an outline.

use crate::text::Written;
use jl_typeread::tree::{ArgText, TypeText, VarText};
use std::str;

/// A name.
pub fn put_name(out: &mut Written, name: &[u8]) {
    out.put(str::from_utf8(name).unwrap_or("no text"));
}

/// Arguments with commas between them.
#[cycle(types)]
fn put_arguments(out: &mut Written, arguments: &[ArgText]) {
    for (i, argument) in arguments.iter().enumerate() {
        if i > 0 {
            out.put(", ");
        }
        put_argument(out, argument);
    }
}

/// An argument in braces.
#[cycle(types)]
fn put_argument(out: &mut Written, argument: &ArgText) {
    match argument {
        ArgText::Exact(ty) => put_type(out, ty),
        ArgText::Below(_, ty) => {
            out.put("<:");
            put_type(out, ty);
        }
        ArgText::Above(_, ty) => {
            out.put(">:");
            put_type(out, ty);
        }
    }
}

/// A type.
#[cycle(types)]
pub fn put_type(out: &mut Written, ty: &TypeText) {
    match ty {
        TypeText::Name(_, name) => put_name(out, name.as_slice()),
        TypeText::Applied(_, name, arguments) => {
            put_name(out, name.as_slice());
            out.put("{");
            put_arguments(out, arguments.as_slice());
            out.put("}");
        }
        TypeText::Paren(_, inner, variables) => {
            out.put("(");
            put_type(out, inner.get());
            put_where(out, variables.as_slice());
            out.put(")");
        }
    }
}

/// A variable with its bounds.
#[cycle(types)]
fn put_variable(out: &mut Written, variable: &VarText) {
    match variable {
        VarText::Free(_, name) => put_name(out, name.as_slice()),
        VarText::Below(_, name, bound) => {
            put_name(out, name.as_slice());
            out.put("<:");
            put_type(out, bound.get());
        }
        VarText::Above(_, name, bound) => {
            put_name(out, name.as_slice());
            out.put(">:");
            put_type(out, bound.get());
        }
        VarText::Between(low, _, name, high) => {
            put_type(out, low.get());
            out.put("<:");
            put_name(out, name.as_slice());
            out.put("<:");
            put_type(out, high.get());
        }
    }
}

/// Variables in braces; nothing where there are none.
#[cycle(types)]
pub fn put_variables(out: &mut Written, variables: &[VarText]) {
    if variables.is_empty() {
        return;
    }
    out.put("{");
    for (i, variable) in variables.iter().enumerate() {
        if i > 0 {
            out.put(", ");
        }
        put_variable(out, variable);
    }
    out.put("}");
}

/// The variables of a `where`; nothing where there are none.
#[cycle(types)]
pub fn put_where(out: &mut Written, variables: &[VarText]) {
    if !variables.is_empty() {
        out.put(" where ");
    }
    put_variables(out, variables);
}
