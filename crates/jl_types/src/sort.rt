//! Types in the order of terms.

ghost use Rattle.std.specs.Prelude.{◌≡◌, IfOk, map};
ghost use Rattle.std.specs.List.Sorted.{IsPermutation, IsSorted};
ghost use Rattle.jl_model.specs.Order.{spelled, term_cmp};

use crate::spell::spelling;
use jl_model::ty::Ty;
use std::alloc::{AllocError, Global};
use std::cmp::Ordering;

/// A type with its spelling.
#[derive(Drop)]
struct Spelled {
    spelling: Vec<u64>,
    ty: Ty,
    ghost spells: { spelling.items ≡ spelled ty },
}

/// Which of two types comes first, by their spellings.
fn compare(a: &Spelled, b: &Spelled) -> Ordering
    ensures { result ≡ term_cmp a.now.ty b.now.ty }
{
    a.spelling.as_slice().cmp(b.spelling.as_slice())
}

/// Each with its spelling.
fn all_spelled(alloc: Global, types: &[Ty]) -> Result<Vec<Spelled>, AllocError>
    ensures { IfOk result (λ all. map (λ s. s.ty) all.items ≡ types.now) }
{
    let mut all = Vec::new(alloc);
    for ty in types {
        all.push(Spelled {
            spelling: spelling(alloc, ty)?,
            ty: ty.copy()?,
        })?;
    }
    Ok(all)
}

/// These types in the order of terms.
pub fn sorted(alloc: Global, types: &[Ty]) -> Result<Vec<Ty>, AllocError>
    ensures same { IfOk result (λ out. IsPermutation types.now out.items) }
    ensures sorted { IfOk result (λ out. IsSorted term_cmp out.items) }
{
    let mut all = all_spelled(alloc, types)?;
    all.sort_by(|a, b| compare(a, b))?;
    unspelled(alloc, all.as_slice())
}

/// The types alone.
fn unspelled(alloc: Global, all: &[Spelled]) -> Result<Vec<Ty>, AllocError>
    ensures { IfOk result (λ types. types.items ≡ map (λ s. s.ty) all.now) }
{
    let mut types = Vec::new(alloc);
    for spelled in all {
        types.push(spelled.ty.copy()?)?;
    }
    Ok(types)
}
