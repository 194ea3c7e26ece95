//! Lists of few items. A push that fails hands its item back: by these functions that is laid out once, and not at each type.

ghost use Rattle.std.specs.Prelude.{◌≡◌, ◌++◌, ◌∷◌, [], IfOk};

use jl_model::shared::SharedList;
use jl_model::ty::Bytes;
use std::alloc::{AllocError, Global};

/// One more at the end. It takes the list, so that none is alive where memory is refused.
pub(crate) fn push<T: Drop>(items: Vec<T>, item: T) -> Result<Vec<T>, AllocError>
    ensures { IfOk result (λ all. all.items ≡ items.items ++ item ∷ []) }
{
    let mut items = items;
    items.push(item)?;
    Ok(items)
}

/// A list of one.
pub(crate) fn one<T: Drop>(alloc: Global, item: T) -> Result<SharedList<T>, AllocError>
    ensures { IfOk result (λ one. one ≡ item ∷ []) }
{
    let items = push(Vec::new(alloc), item)?;
    SharedList::from_vec(alloc, items)
}

/// A list of two.
pub(crate) fn pair<T: Drop>(alloc: Global, first: T, second: T) -> Result<SharedList<T>, AllocError>
    ensures { IfOk result (λ pair. pair ≡ first ∷ second ∷ []) }
{
    let mut items = Vec::new(alloc);
    items.push(first)?;
    items.push(second)?;
    SharedList::from_vec(alloc, items)
}

/// The bytes of a text.
pub(crate) fn text(alloc: Global, text: &str) -> Result<Bytes, AllocError>
    ensures { IfOk result (λ bytes. bytes ≡ text.now) }
{
    let bytes = Vec::from_slice(alloc, text.as_bytes())?;
    Bytes::from_vec(alloc, bytes)
}
