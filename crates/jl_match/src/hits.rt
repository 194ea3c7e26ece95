//! What is found for the variables of a row where an upper bound mentions variables. Those of the last variables are found first,
//! since a bound mentions only variables before its own: they are found in what is known to be below it.

ghost use Rattle.std.specs.Prelude.{◌≡◌, ◌<◌, ◌+◌, ◌*◌, IfOk, cond, drop, map, length, []};
ghost use Rattle.jl_model.specs.Ancestors.{table_of};
ghost use Rattle.jl_model.specs.Rows.{width, high};
ghost use Rattle.jl_model.specs.Subtype.{opaque};
ghost use Rattle.jl_model.specs.Found.{find_inner, find_outer, first, first_form, rising, ancestor, or_else, hits};
ghost use Rattle.jl_search.specs.Serving.{IsPlain};
ghost use Rattle.jl_search.specs.Walk.{in_above, TellsBound};
ghost use Rattle.jl_match.specs.Hits.{IsPlainHit};
ghost use Rattle.jl_match.specs.KeptRow.{row_of, AreDiagonals, AreConcrete};

use crate::find::{ancestor, first_inner, first_outer};
use jl_model::ty::{Ty, Tys, Written};
use jl_search::bounds::in_bounds;
use jl_types::Table;
use jl_types::closed::are_closed;
use std::alloc::{AllocError, Global};

/// The arguments of the ancestor `target` of the first alternative of a type.
fn first_ancestor(alloc: Global, table: &Table, target: u32, ty: &Ty) -> Result<Tys, AllocError>
    requires plain { IsPlain table.now ty.now }
    ensures { IfOk result (λ found. found ≡ ancestor (table_of table.now) target (first_form (rising opaque ty.now))) }
{
    table.valid();
    match ty {
        Ty::Any => Ok(Tys::empty()),
        Ty::Union(members) => match members.as_slice() {
            [] => Ok(Tys::empty()),
            [first, ..] => ancestor(alloc, table, target, first),
        },
        Ty::Tuple(_) => Ok(Tys::empty()),
        Ty::Nominal(_, _) => ancestor(alloc, table, target, ty),
        Ty::Var(_) => Ok(Tys::empty()),
    }
}

/// What is known to be below the upper bound of a variable: what is found for it, else what stands at its first atom.
fn witness(
    parts: &[Ty],
    types: &[Ty],
    hit: &Option<Ty>,
    atom: usize,
) -> Result<Option<Ty>, AllocError>
    ensures { IfOk result (λ found. found ≡ or_else hit.now (first (map (find_outer opaque atom) parts.now) types.now)) }
{
    match hit {
        Some(ty) => Ok(Some(ty.copy()?)),
        None => first_outer(atom, parts, types),
    }
}

/// The arguments in which the variables of an upper bound are found, where it mentions any. `atom` is the first atom of the variable.
fn above_bound(
    alloc: Global,
    table: &Table,
    signature: &Written,
    parts: &[Ty],
    types: &[Ty],
    hit: &Option<Ty>,
    variable: usize,
    atom: usize,
) -> Result<Tys, AllocError>
    requires types { AreConcrete table.now types.now }
    requires hit { IsPlainHit table.now hit.now }
    requires variable { variable < width signature.now }
    requires atom { atom ≡ variable + width signature.now * (0 + 1) }
    ensures { IfOk result (λ zs. TellsBound (table_of table.now) opaque signature.now (row_of parts.now []) types.now variable (high signature.now variable) hit.now zs) }
{
    table.valid();
    match &signature.vars.as_slice()[variable].high {
        Ty::Any => Ok(Tys::empty()),
        Ty::Union(_) => Ok(Tys::empty()),
        Ty::Tuple(_) => Ok(Tys::empty()),
        Ty::Nominal(target, arguments) => {
            if are_closed(arguments.as_slice()) {
                return Ok(Tys::empty());
            }
            match witness(parts, types, hit, atom)? {
                Some(ty) => first_ancestor(alloc, table, *target, &ty),
                None => Ok(Tys::empty()),
            }
        }
        Ty::Var(_) => Ok(Tys::empty()),
    }
}

/// What is found for a variable: of a diagonal one what stands at its first place, of another one what stands at its first
/// invariant place in the row or in the upper bound of a later variable.
fn hit_of(
    alloc: Global,
    table: &Table,
    signature: &Written,
    is_diagonal: bool,
    parts: &[Ty],
    types: &[Ty],
    above: &[Tys],
    variable: usize,
) -> Result<Option<Ty>, AllocError>
    requires types { AreConcrete table.now types.now }
    requires variable { variable < width signature.now }
    requires long { length above.now ≡ width signature.now }
    ensures { IfOk result (λ hit. hit ≡ cond is_diagonal (first (map (find_outer opaque variable) parts.now) types.now) (or_else (first (map (find_inner (table_of table.now) opaque variable) parts.now) types.now) (in_above variable (drop (variable + 1) signature.now.vars) (drop (variable + 1) above.now)))) }
{
    if is_diagonal {
        return first_outer(variable, parts, types);
    }
    let hit = first_inner(alloc, table, variable, parts, types)?;
    if hit.is_some() {
        return Ok(hit);
    }
    in_bounds(variable, signature.vars.as_slice(), above)
}

/// Nothing is found for any variable.
fn no_hits(alloc: Global, width: usize) -> Result<Vec<Option<Ty>>, AllocError>
    ensures { IfOk result (λ hits. length hits.items ≡ width) }
{
    let mut hits = Vec::new(alloc);
    for _ in 0..width {
        hits.push(None)?;
    }
    Ok(hits)
}

/// No arguments for each variable.
fn no_arguments(alloc: Global, width: usize) -> Result<Vec<Tys>, AllocError>
    ensures { IfOk result (λ above. length above.items ≡ width) }
{
    let mut above = Vec::new(alloc);
    for _ in 0..width {
        above.push(Tys::empty())?;
    }
    Ok(above)
}

/// What is found for the variables of a row. The cost is at most the number of variables times the nodes of the parts and of the
/// upper bounds.
pub fn hits_of(
    alloc: Global,
    table: &Table,
    signature: &Written,
    diagonals: &[bool],
    parts: &[Ty],
    types: &[Ty],
) -> Result<Vec<Option<Ty>>, AllocError>
    requires diagonals { AreDiagonals signature.now diagonals.now }
    requires types { AreConcrete table.now types.now }
    ensures { IfOk result (λ found. found.items ≡ hits (table_of table.now) opaque signature.now (row_of parts.now []) types.now 0 signature.now.vars) }
{
    table.valid();
    let width = diagonals.len();
    let mut hits = no_hits(alloc, width)?;
    let mut above = no_arguments(alloc, width)?;
    for step in 0..width {
        let variable = width - 1 - step;
        let is_diagonal = diagonals[variable];
        let found = above.as_slice();
        let hit = hit_of(
            alloc,
            table,
            signature,
            is_diagonal,
            parts,
            types,
            found,
            variable,
        )?;
        let atom = variable + width;
        let below = above_bound(alloc, table, signature, parts, types, &hit, variable, atom)?;
        above[variable] = below;
        hits[variable] = hit;
    }
    Ok(hits)
}
