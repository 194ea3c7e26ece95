//! Small values. A push that fails hands its item back: by these functions that is laid out once, and not at each type.

use jl_grammar::tree::Name;
use jl_model::shared::SharedList;
use jl_model::ty::{Bounds, Bytes, Decl, DeclKind, Fields, Ty};
use std::alloc::{AllocError, Global};

/// A list of one.
pub(crate) fn one<T: Drop>(alloc: Global, item: T) -> Result<SharedList<T>, AllocError> {
    let mut items = Vec::new(alloc);
    items.push(item)?;
    SharedList::from_vec(alloc, items)
}

/// The bytes of a text.
pub(crate) fn text(alloc: Global, text: &str) -> Result<Bytes, AllocError> {
    let bytes = Vec::from_slice(alloc, text.as_bytes())?;
    Bytes::from_vec(alloc, bytes)
}

/// A name that stands here.
pub(crate) fn name(alloc: Global, at: u32, name: &str) -> Result<Name, AllocError> {
    let bytes = text(alloc, name)?;
    Ok(Name { at, bytes })
}

/// A struct without fields.
pub(crate) fn plain(alloc: Global, name: &str, params: Bounds) -> Result<Decl, AllocError> {
    let name = text(alloc, name)?;
    Ok(Decl {
        name,
        kind: DeclKind::Struct,
        params,
        parent: Ty::Any,
        fields: Fields::empty(),
    })
}
