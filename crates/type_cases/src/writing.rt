//! Types, lists of types and rows as text.

use crate::reading::Scope;
use jl_model::ty::{Decl, Ty};
use jl_sig::row::SigRow;
use std::alloc::{AllocError, Global};
use std::str;

/// A name.
fn put_name(out: &mut String, name: &[u8]) -> Result<(), AllocError> {
    out.push_str(str::from_utf8(name).unwrap_or("no text"))
}

/// A variable: its name, or its number where it has none.
fn put_variable(
    alloc: Global,
    out: &mut String,
    scope: Scope,
    number: u32,
) -> Result<(), AllocError> {
    match scope.vars.get(number as usize) {
        Some(variable) => out.push_str(variable.name),
        None => {
            let text = format!(in alloc; "#{number}")?;
            out.push_str(text.as_str())
        }
    }
}

/// The name of a nominal type.
fn put_nominal(out: &mut String, scope: Scope, number: u32) -> Result<(), AllocError> {
    if number < scope.table.count() {
        return put_name(out, scope.table.decl(number).name.as_slice());
    }
    out.push_str("unknown")
}

/// Types with commas between them.
#[cycle(writing)]
fn put_types(
    alloc: Global,
    out: &mut String,
    scope: Scope,
    types: &[Ty],
) -> Result<(), AllocError> {
    for (i, ty) in types.iter().enumerate() {
        if i > 0 {
            out.push_str(", ")?;
        }
        put_type(alloc, out, scope, ty)?;
    }
    Ok(())
}

/// A word before types in braces.
#[cycle(writing)]
fn put_braces(
    alloc: Global,
    out: &mut String,
    scope: Scope,
    word: &str,
    types: &[Ty],
) -> Result<(), AllocError> {
    out.push_str(word)?;
    out.push_str("{")?;
    put_types(alloc, out, scope, types)?;
    out.push_str("}")
}

/// A type.
#[cycle(writing)]
fn put_type(alloc: Global, out: &mut String, scope: Scope, ty: &Ty) -> Result<(), AllocError> {
    match ty {
        Ty::Any => out.push_str("Any"),
        Ty::Union(members) => put_braces(alloc, out, scope, "Union", members.as_slice()),
        Ty::Tuple(parts) => put_braces(alloc, out, scope, "Tuple", parts.as_slice()),
        Ty::Nominal(number, arguments) => {
            put_nominal(out, scope, *number)?;
            if arguments.as_slice().is_empty() {
                return Ok(());
            }
            put_braces(alloc, out, scope, "", arguments.as_slice())
        }
        Ty::Var(number) => put_variable(alloc, out, scope, *number),
    }
}

/// A type as text.
pub fn type_text(alloc: Global, scope: Scope, ty: &Ty) -> Result<String, AllocError> {
    let mut out = String::new(alloc);
    put_type(alloc, &mut out, scope, ty)?;
    Ok(out)
}

/// A list of types as text.
pub fn list_text(alloc: Global, scope: Scope, types: &[Ty]) -> Result<String, AllocError> {
    let mut out = String::new(alloc);
    out.push_str("(")?;
    put_types(alloc, &mut out, scope, types)?;
    out.push_str(")")?;
    Ok(out)
}

/// Rows as text.
pub fn rows_text(alloc: Global, scope: Scope, rows: &[SigRow]) -> Result<String, AllocError> {
    let mut out = format!(in alloc; "{}:", rows.len())?;
    for row in rows {
        out.push_str(" (")?;
        put_types(alloc, &mut out, scope, row.parts.as_slice())?;
        out.push_str(")")?;
    }
    Ok(out)
}

/// The parent and the fields of a declaration as text.
pub fn declaration_text(alloc: Global, scope: Scope, decl: &Decl) -> Result<String, AllocError> {
    let mut out = String::new(alloc);
    put_type(alloc, &mut out, scope, &decl.parent)?;
    for field in decl.fields.as_slice() {
        out.push_str("; ")?;
        put_name(&mut out, field.name.as_slice())?;
        out.push_str("::")?;
        put_type(alloc, &mut out, scope, &field.ty)?;
    }
    Ok(out)
}
