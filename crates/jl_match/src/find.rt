//! Searches for what stands at the places of a variable. Each goes along a part of a row and a type at once; it never fails
//! and never turns back.

ghost use Rattle.std.specs.Prelude.{◌≡◌, IsTrue, IfOk, map, length};
ghost use Rattle.std.specs.List.{list_all};
ghost use Rattle.jl_model.specs.declared.ty.Ty.{out-Ty};
ghost use Rattle.jl_model.specs.Ancestors.{table_of};
ghost use Rattle.jl_model.specs.Subtype.{opaque};
ghost use Rattle.jl_model.specs.Valid.{is_known};
ghost use Rattle.jl_model.specs.Found.{find_inner, find_outer, first, raised, parts_of, ancestor};

use jl_model::ty::{Ty, Tys};
use jl_search::find::{first_argument, lifted};
use jl_types::Table;
use std::alloc::{AllocError, Global};

/// The arguments of the ancestor `target` of a type, if it has one.
pub(crate) fn ancestor(
    alloc: Global,
    table: &Table,
    target: u32,
    ty: &Ty,
) -> Result<Tys, AllocError>
    requires known { IsTrue (is_known (length table.now) ty.now) }
    ensures { IfOk result (λ found. found ≡ ancestor (table_of table.now) target (raised opaque (out-Ty ty.now))) }
{
    match ty {
        Ty::Any => Ok(Tys::empty()),
        Ty::Union(_) => Ok(Tys::empty()),
        Ty::Tuple(_) => Ok(Tys::empty()),
        Ty::Nominal(name, arguments) => match lifted(alloc, table, *name, arguments, target)? {
            None => Ok(Tys::empty()),
            Some(found) => Ok(found),
        },
        Ty::Var(_) => Ok(Tys::empty()),
    }
}

/// The parts of a tuple type.
fn parts(ty: &Ty) -> &[Ty]
    ensures { result.now ≡ parts_of (raised opaque (out-Ty ty.now)) }
{
    match ty {
        Ty::Any => &[],
        Ty::Union(_) => &[],
        Ty::Tuple(parts) => parts.as_slice(),
        Ty::Nominal(_, _) => &[],
        Ty::Var(_) => &[],
    }
}

/// What stands at the first invariant place of the variable in these parts of a row.
#[cycle(inner)]
#[tactic(auto, using(jl_search::proofs::SearchLemmas::searching))]
pub fn first_inner(
    alloc: Global,
    table: &Table,
    variable: usize,
    patterns: &[Ty],
    types: &[Ty],
) -> Result<Option<Ty>, AllocError>
    requires known { IsTrue (list_all (is_known (length table.now)) types.now) }
    ensures { IfOk result (λ hit. hit ≡ first (map (find_inner (table_of table.now) opaque variable) patterns.now) types.now) }
{
    for (i, pattern) in patterns.iter().enumerate() {
        if i >= types.len() {
            return Ok(None);
        }
        let hit = in_inner(alloc, table, variable, pattern, &types[i])?;
        if hit.is_some() {
            return Ok(hit);
        }
    }
    Ok(None)
}

/// What stands at the first invariant place of the variable in a part of a row.
#[cycle(inner)]
#[tactic(auto, using(jl_search::proofs::SearchLemmas::searching))]
fn in_inner(
    alloc: Global,
    table: &Table,
    variable: usize,
    pattern: &Ty,
    ty: &Ty,
) -> Result<Option<Ty>, AllocError>
    requires known { IsTrue (is_known (length table.now) ty.now) }
    ensures { IfOk result (λ hit. hit ≡ find_inner (table_of table.now) opaque variable pattern.now ty.now) }
{
    match pattern {
        Ty::Any => Ok(None),
        Ty::Union(_) => Ok(None),
        Ty::Tuple(patterns) => first_inner(alloc, table, variable, patterns.as_slice(), parts(ty)),
        Ty::Nominal(target, patterns) => {
            let above = ancestor(alloc, table, *target, ty)?;
            first_argument(variable, patterns.as_slice(), above.as_slice())
        }
        Ty::Var(_) => Ok(None),
    }
}

/// What stands at the first covariant place of the variable in these parts of a row.
#[cycle(outer)]
#[tactic(auto, using(jl_search::proofs::SearchLemmas::searching))]
pub fn first_outer(variable: usize, patterns: &[Ty], types: &[Ty]) -> Result<Option<Ty>, AllocError>
    ensures { IfOk result (λ hit. hit ≡ first (map (find_outer opaque variable) patterns.now) types.now) }
{
    for (i, pattern) in patterns.iter().enumerate() {
        if i >= types.len() {
            return Ok(None);
        }
        let hit = in_outer(variable, pattern, &types[i])?;
        if hit.is_some() {
            return Ok(hit);
        }
    }
    Ok(None)
}

/// What stands at the first covariant place of the variable in a part of a row.
#[cycle(outer)]
#[tactic(auto, using(jl_search::proofs::SearchLemmas::searching))]
fn in_outer(variable: usize, pattern: &Ty, ty: &Ty) -> Result<Option<Ty>, AllocError>
    ensures { IfOk result (λ hit. hit ≡ find_outer opaque variable pattern.now ty.now) }
{
    match pattern {
        Ty::Any => Ok(None),
        Ty::Union(_) => Ok(None),
        Ty::Tuple(patterns) => first_outer(variable, patterns.as_slice(), parts(ty)),
        Ty::Nominal(_, _) => Ok(None),
        Ty::Var(number) => {
            if variable == *number as usize {
                return Ok(Some(ty.copy()?));
            }
            Ok(None)
        }
    }
}
