//! All lists of a few types, in the order of a dictionary.

ghost use Rattle.std.specs.Prelude.{◌≡◌, ◌++◌, ◌∷◌, [], IfOk, OnOk};
ghost use Rattle.jl_ambig.specs.Probes.{with_each, longer};

use crate::spelling::Spelled;
use jl_model::ty::{Ty, Tys};
use std::alloc::{AllocError, Global};

/// A list with a type at its end.
fn with(alloc: Global, list: &[Ty], ty: &Ty) -> Result<Tys, AllocError>
    ensures { IfOk result (λ more. more ≡ list.now ++ ty.now ∷ []) }
{
    let mut all = Vec::new(alloc);
    for part in list {
        all.push(part.copy()?)?;
    }
    all.push(ty.copy()?)?;
    let more = Tys::from_vec(alloc, all)?;
    Ok(more)
}

/// A list with each of these types at its end.
fn push_with_each(
    alloc: Global,
    out: &mut Vec<Tys>,
    list: &[Ty],
    types: &[Spelled],
) -> Result<(), AllocError>
    ensures { OnOk result (out.new.items ≡ out.old.items ++ with_each list.now types.now) }
{
    for ty in types {
        let more = with(alloc, list, ty.ty())?;
        out.push(more)?;
    }
    Ok(())
}

/// The list without types, alone.
pub(crate) fn no_types(alloc: Global) -> Result<Vec<Tys>, AllocError>
    ensures { IfOk result (λ lists. lists.items ≡ [] ∷ []) }
{
    let mut lists = Vec::new(alloc);
    lists.push(Tys::empty())?;
    Ok(lists)
}

/// Each of these lists with each of these types at its end.
pub(crate) fn longer(
    alloc: Global,
    lists: &[Tys],
    types: &[Spelled],
) -> Result<Vec<Tys>, AllocError>
    ensures { IfOk result (λ out. out.items ≡ longer lists.now types.now) }
{
    let mut out = Vec::new(alloc);
    for list in lists {
        push_with_each(alloc, &mut out, list.as_slice(), types)?;
    }
    Ok(out)
}
