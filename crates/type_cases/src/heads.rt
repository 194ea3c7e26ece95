//! Signatures and declarations as they are written.
//!
//! A signature is `(T, T) where {T<:Integer, S}`, with one variable also `(T, T) where T`. A declaration is
//! `abstract Above{T} <: Any` or `struct Box{T} <: Above{T}; first::T; second`: a parent and a type that are not written are `Any`.

use crate::reading::{Scope, VarText, read_type, read_types};
use jl_model::ty::{Bound, Bounds, Bytes, Decl, DeclKind, Field, Fields, Tys, Written};
use jl_types::Table;
use std::alloc::{AllocError, Global};

/// A variable that is written so.
fn variable_of(text: &str) -> VarText {
    let free = VarText {
        name: text,
        low: "Union{}",
        high: "Any",
    };
    if let Some((name, low)) = text.split_once(">:") {
        return VarText { name, low, ..free };
    }
    let Some((name, high)) = text.split_once("<:") else {
        return free;
    };
    match high.split_once("<:") {
        None => VarText { name, high, ..free },
        Some((middle, high)) => VarText {
            name: middle,
            low: name,
            high,
        },
    }
}

/// How deep in braces what comes after a character is.
fn depth_after(depth: usize, byte: u8) -> usize {
    match byte {
        b'{' => depth.saturating_add(1),
        b'}' => depth.saturating_sub(1),
        _ => depth,
    }
}

/// Variables with commas between them.
pub fn variables_of<'a>(alloc: Global, text: &'a str) -> Result<Vec<VarText<'a>>, AllocError> {
    let mut variables = Vec::new(alloc);
    let mut depth = 0;
    let mut from = 0;
    for (i, byte) in text.as_bytes().iter().enumerate() {
        depth = depth_after(depth, *byte);
        if depth == 0 && *byte == b',' {
            variables.push(variable_of(text.get(from..i).unwrap_or("").trim()))?;
            from = i + 1;
        }
    }
    let last = text.get(from..).unwrap_or("").trim();
    if !last.is_empty() {
        variables.push(variable_of(last))?;
    }
    Ok(variables)
}

/// The bounds of a variable.
fn read_bound(alloc: Global, scope: Scope, variable: &VarText) -> Result<Bound, AllocError> {
    let low = read_type(alloc, scope, variable.low)?;
    match read_type(alloc, scope, variable.high) {
        Ok(high) => Ok(Bound { low, high }),
        Err(error) => {
            drop(low);
            Err(error)
        }
    }
}

/// The bounds of the variables of a scope.
fn read_bounds(alloc: Global, scope: Scope) -> Result<Bounds, AllocError> {
    let mut bounds = Vec::new(alloc);
    for variable in scope.vars {
        bounds.push(read_bound(alloc, scope, variable)?)?;
    }
    Bounds::from_vec(alloc, bounds)
}

/// The variables of a signature that is written so.
pub fn variables_in<'a>(alloc: Global, text: &'a str) -> Result<Vec<VarText<'a>>, AllocError> {
    let (_, vars) = text.split_once(" where ").unwrap_or((text, ""));
    let vars = match vars.strip_prefix("{") {
        Some(inner) => inner.strip_suffix("}").unwrap_or(inner),
        None => vars,
    };
    variables_of(alloc, vars)
}

/// A signature that is written so.
pub fn read_signature(alloc: Global, table: &Table, text: &str) -> Result<Written, AllocError> {
    let vars = variables_in(alloc, text)?;
    let scope = Scope {
        table,
        own: "",
        vars: vars.as_slice(),
    };
    let (parts, _) = text.split_once(" where ").unwrap_or((text, ""));
    let parts = read_types(alloc, scope, parts)?;
    Ok(Written {
        vars: read_bounds(alloc, scope)?,
        parts: Tys::from_vec(alloc, parts)?,
    })
}

/// A field that is written so.
fn read_field(alloc: Global, scope: Scope, text: &str) -> Result<Field, AllocError> {
    let (name, ty) = text.split_once("::").unwrap_or((text, "Any"));
    Ok(Field {
        name: Bytes::from_vec(alloc, Vec::from_slice(alloc, name.as_bytes())?)?,
        ty: read_type(alloc, scope, ty)?,
    })
}

/// Fields with semicolons between them.
fn read_fields(alloc: Global, scope: Scope, text: &str) -> Result<Fields, AllocError> {
    let mut fields = Vec::new(alloc);
    for field in text.split(';') {
        let field = field.trim();
        if !field.is_empty() {
            fields.push(read_field(alloc, scope, field)?)?;
        }
    }
    Fields::from_vec(alloc, fields)
}

/// A declaration that is written so, behind its first word.
pub fn read_declaration(
    alloc: Global,
    table: &Table,
    kind: DeclKind,
    text: &str,
) -> Result<Decl, AllocError> {
    let (head, fields) = text.split_once(';').unwrap_or((text, ""));
    let (head, parent) = head.split_once(" <: ").unwrap_or((head, "Any"));
    let (name, params) = head.split_once('{').unwrap_or((head, ""));
    let vars = variables_of(alloc, params.strip_suffix("}").unwrap_or(params))?;
    let scope = Scope {
        table,
        own: name,
        vars: vars.as_slice(),
    };
    let name = Bytes::from_vec(alloc, Vec::from_slice(alloc, name.as_bytes())?)?;
    let params = read_bounds(alloc, scope)?;
    let fields = read_fields(alloc, scope, fields)?;
    Ok(Decl {
        name,
        kind,
        params,
        parent: read_type(alloc, scope, parent)?,
        fields,
    })
}
