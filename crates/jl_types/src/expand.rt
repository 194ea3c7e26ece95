//! The alternatives of a type.

ghost use Rattle.std.specs.Prelude.{◌≡◌, ◌++◌, ◌∷◌, [], OnOk, IfOk, map};
ghost use Rattle.std.specs.List.{flat_map};
ghost use Rattle.jl_model.specs.Rows.{alts, choices};
ghost use Rattle.jl_model.specs.declared.ty.Ty.TheViews as V;

use jl_model::ty::{Ty, Tys};
use std::alloc::{AllocError, Global};

/// Adds these types.
pub fn push_copies(types: &mut Vec<Ty>, more: &[Ty]) -> Result<(), AllocError>
    ensures { OnOk result (types.new.items ≡ types.old.items ++ more.now) }
{
    for ty in more {
        types.push(ty.copy()?)?;
    }
    Ok(())
}

/// A list with one more type in front.
fn cons(alloc: Global, first: &Ty, rest: &[Ty]) -> Result<Tys, AllocError>
    ensures { IfOk result (λ row. row ≡ first.now ∷ rest.now) }
{
    let mut items = Vec::new(alloc);
    items.push(first.copy()?)?;
    push_copies(&mut items, rest)?;
    Tys::from_vec(alloc, items)
}

/// Adds each row with this type in front.
fn push_rows(
    alloc: Global,
    rows: &mut Vec<Tys>,
    first: &Ty,
    tails: &[Tys],
) -> Result<(), AllocError>
    ensures { OnOk result (rows.new.items ≡ rows.old.items ++ map (λ us. first.now ∷ us) tails.now) }
{
    for tail in tails {
        rows.push(cons(alloc, first, tail.as_slice())?)?;
    }
    Ok(())
}

/// Each row with each of these types in front.
pub fn rows_of(alloc: Global, firsts: &[Ty], tails: &[Tys]) -> Result<Vec<Tys>, AllocError>
    ensures { IfOk result (λ rows. rows.items ≡ flat_map (λ t. map (λ us. t ∷ us) tails.now) firsts.now) }
{
    let mut rows = Vec::new(alloc);
    for first in firsts {
        push_rows(alloc, &mut rows, first, tails)?;
    }
    Ok(rows)
}

/// Adds the tuples of these rows.
pub fn tuples(alloc: Global, rows: &[Tys]) -> Result<Vec<Ty>, AllocError>
    ensures { IfOk result (λ ts. ts.items ≡ map (λ us. V.Tuple us) rows.now) }
{
    let mut types = Vec::new(alloc);
    for row in rows {
        types.push(Ty::Tuple(row.copy()?))?;
    }
    Ok(types)
}

/// Every list that takes an alternative of each part.
#[cycle(expand)]
#[tactic(auto, using(crate::proofs::ExpandLemmas::expands))]
fn rows_over(alloc: Global, parts: &[Ty]) -> Result<Vec<Tys>, AllocError>
    ensures { IfOk result (λ rows. rows.items ≡ choices (map alts parts.now)) }
{
    match parts {
        [] => {
            let mut rows = Vec::new(alloc);
            rows.push(Tys::empty())?;
            Ok(rows)
        }
        [first, rest @ ..] => {
            let firsts = expand(alloc, first)?;
            if firsts.len() == 0 {
                return Ok(Vec::new(alloc));
            }
            let tails = rows_over(alloc, rest)?;
            rows_of(alloc, firsts.as_slice(), tails.as_slice())
        }
    }
}

/// The alternatives of each member, one after another.
#[cycle(expand)]
#[tactic(auto, using(crate::proofs::ExpandLemmas::expands))]
fn expand_all(alloc: Global, members: &[Ty]) -> Result<Vec<Ty>, AllocError>
    ensures { IfOk result (λ ts. ts.items ≡ flat_map alts members.now) }
{
    let mut all = Vec::new(alloc);
    for member in members {
        let more = expand(alloc, member)?;
        push_copies(&mut all, more.as_slice())?;
    }
    Ok(all)
}

/// The alternatives of a type.
#[cycle(expand)]
#[tactic(auto, using(crate::proofs::ExpandLemmas::expands))]
pub fn expand(alloc: Global, ty: &Ty) -> Result<Vec<Ty>, AllocError>
    ensures { IfOk result (λ ts. ts.items ≡ alts ty.now) }
{
    match ty {
        Ty::Union(members) => expand_all(alloc, members.as_slice()),
        Ty::Tuple(parts) => {
            let rows = rows_over(alloc, parts.as_slice())?;
            tuples(alloc, rows.as_slice())
        }
        _ => {
            let mut one = Vec::new(alloc);
            one.push(ty.copy()?)?;
            Ok(one)
        }
    }
}
