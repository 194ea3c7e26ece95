//! Types put in for the static parameters of a written type (Julia manual, Methods: Parametric Methods).

ghost use Rattle.std.specs.Prelude.{◌≡◌, IfOk, map};
ghost use Rattle.jl_model.specs.Subtype.{put};
ghost use Rattle.jl_calculus.specs.Statics.{own_or_bound, put_bound, with_statics};

use jl_model::ty::{Bound, Bounds, Ty, Tys, Written};
use jl_sig::have_variables;
use std::alloc::{AllocError, Global};

/// What stands for a variable of a type with so many variables of its own.
fn own_or_bound(variable: u32, statics: &[Ty], own: usize) -> Result<Ty, AllocError>
    ensures { IfOk result (λ r. r ≡ own_or_bound statics.now own variable) }
{
    let place = variable as usize;
    if place < own {
        return Ok(Ty::Var(variable));
    }
    match statics.get(place - own) {
        Some(ty) => ty.copy(),
        None => Ok(Ty::Any),
    }
}

/// Each with the static parameters put in.
#[cycle(statics)]
#[tactic(auto, using(crate::proofs::StaticLemmas::putting))]
fn put_all(alloc: Global, types: &[Ty], statics: &[Ty], own: usize) -> Result<Tys, AllocError>
    ensures { IfOk result (λ r. r ≡ map (put (own_or_bound statics.now own)) types.now) }
{
    let mut items = Vec::new(alloc);
    for ty in types {
        items.push(put_one(alloc, ty, statics, own)?)?;
    }
    Tys::from_vec(alloc, items)
}

/// A type with the static parameters put in.
#[cycle(statics)]
#[tactic(auto, using(crate::proofs::StaticLemmas::putting))]
fn put_one(alloc: Global, ty: &Ty, statics: &[Ty], own: usize) -> Result<Ty, AllocError>
    ensures { IfOk result (λ r. r ≡ put (own_or_bound statics.now own) ty.now) }
{
    match ty {
        Ty::Any => Ok(Ty::Any),
        Ty::Union(members) => Ok(Ty::Union(put_all(alloc, members.as_slice(), statics, own)?)),
        Ty::Tuple(parts) => Ok(Ty::Tuple(put_all(alloc, parts.as_slice(), statics, own)?)),
        Ty::Nominal(name, arguments) => Ok(Ty::Nominal(
            *name,
            put_all(alloc, arguments.as_slice(), statics, own)?,
        )),
        Ty::Var(variable) => own_or_bound(*variable, statics, own),
    }
}

/// Each bound with the static parameters put in.
fn put_bounds(
    alloc: Global,
    bounds: &[Bound],
    statics: &[Ty],
    own: usize,
) -> Result<Bounds, AllocError>
    ensures { IfOk result (λ r. r ≡ map (put_bound (own_or_bound statics.now own)) bounds.now) }
{
    let mut items = Vec::new(alloc);
    for bound in bounds {
        let low = put_one(alloc, &bound.low, statics, own)?;
        let high = put_one(alloc, &bound.high, statics, own)?;
        items.push(Bound { low, high })?;
    }
    Bounds::from_vec(alloc, items)
}

/// The bounds of a written type with the static parameters put in. Where no variable stands in them they are shared.
fn bounds_with(
    alloc: Global,
    statics: &[Ty],
    bounds: &Bounds,
    own: usize,
) -> Result<Bounds, AllocError>
    ensures { IfOk result (λ r. r ≡ map (put_bound (own_or_bound statics.now own)) bounds.now) }
{
    let items = bounds.as_slice();
    if have_variables(items) {
        return put_bounds(alloc, items, statics, own);
    }
    let copy = bounds.copy()?;
    Ok(copy)
}

/// A written type with the static parameters put in: variable `own + i`, where `own` is the count of the type's own variables, becomes
/// type i of these.
pub fn with_statics(alloc: Global, statics: &[Ty], written: &Written) -> Result<Written, AllocError>
    ensures { IfOk result (λ put. put ≡ with_statics statics.now written.now) }
{
    let own = written.vars.len();
    let vars = bounds_with(alloc, statics, &written.vars, own)?;
    let parts = put_all(alloc, written.parts.as_slice(), statics, own)?;
    Ok(Written { vars, parts })
}
