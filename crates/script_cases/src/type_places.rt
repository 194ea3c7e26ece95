//! The places in written types, in the order of their outlines.

use crate::text::Written;
use jl_typeread::tree::{ArgText, TypeText, VarText};

/// A place, with a blank before it.
fn put_place(out: &mut Written, at: u32) {
    out.put(" ");
    out.put_number(at as i64);
}

/// The places in arguments.
#[cycle(places)]
fn put_argument_places(out: &mut Written, arguments: &[ArgText]) {
    for argument in arguments {
        match argument {
            ArgText::Exact(ty) => put_type_places(out, ty),
            ArgText::Below(at, ty) => {
                put_place(out, *at);
                put_type_places(out, ty);
            }
            ArgText::Above(at, ty) => {
                put_place(out, *at);
                put_type_places(out, ty);
            }
        }
    }
}

/// The places in a variable.
#[cycle(places)]
fn put_variable_places(out: &mut Written, variable: &VarText) {
    match variable {
        VarText::Free(at, _) => put_place(out, *at),
        VarText::Below(at, _, bound) => {
            put_place(out, *at);
            put_type_places(out, bound.get());
        }
        VarText::Above(at, _, bound) => {
            put_place(out, *at);
            put_type_places(out, bound.get());
        }
        VarText::Between(low, at, _, high) => {
            put_type_places(out, low.get());
            put_place(out, *at);
            put_type_places(out, high.get());
        }
    }
}

/// The places in a type.
#[cycle(places)]
pub fn put_type_places(out: &mut Written, ty: &TypeText) {
    match ty {
        TypeText::Name(at, _) => put_place(out, *at),
        TypeText::Applied(at, _, arguments) => {
            put_place(out, *at);
            put_argument_places(out, arguments.as_slice());
        }
        TypeText::Paren(at, inner, variables) => {
            put_place(out, *at);
            put_type_places(out, inner.get());
            for variable in variables.as_slice() {
                put_variable_places(out, variable);
            }
        }
    }
}
