//! The outline of a script.

use crate::outline::{put_expr, put_method};
use crate::outline_heads::{put_fields, put_header};
use crate::outline_types::put_name;
use crate::text::Written;
use jl_grammar::tree::{Item, Struct};
use std::alloc::{AllocError, Global};

/// The declaration of a struct.
fn put_struct(out: &mut Written, declared: &Struct) {
    out.put("struct(");
    put_header(out, &declared.header);
    put_fields(out, declared.fields.as_slice());
    out.put(")");
}

/// An item.
fn put_item(out: &mut Written, item: &Item) {
    match item {
        Item::Abstract(declared) => {
            out.put("abstract(");
            put_header(out, &declared.header);
            out.put(")");
        }
        Item::Struct(declared) => put_struct(out, declared),
        Item::Method(method) => put_method(out, method),
        Item::Bind(name, expr) => {
            put_name(out, name.bytes.as_slice());
            out.put(" = ");
            put_expr(out, expr);
        }
        Item::Do(expr) => put_expr(out, expr),
    }
}

/// Items with `; ` between them: all that a tree has but its places.
pub fn outline(alloc: Global, items: &[Item]) -> Result<String, AllocError> {
    let mut out = Written::new(alloc);
    for (i, item) in items.iter().enumerate() {
        if i > 0 {
            out.put("; ");
        }
        put_item(&mut out, item);
    }
    out.finish()
}
