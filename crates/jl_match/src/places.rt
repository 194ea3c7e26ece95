//! Where the variables of a signature stand.

ghost use Rattle.std.specs.Prelude.{◌≡◌, ◌||◌, not, length, nat_lt};
ghost use Rattle.std.specs.List.{flat_map, list_all};
ghost use Rattle.jl_model.specs.declared.ty.Ty.TheViews.{out-Ty};
ghost use Rattle.jl_model.specs.Rows.{vars_in};
ghost use Rattle.jl_model.specs.SigRefusals.{are_bounds, are_placed, is_argument, is_bottom, is_bound, is_component, named_form};

use jl_model::ty::{Bound, Ty, Written};
use jl_types::closed::{are_closed, is_closed};

/// Whether no variable stands in a union or a tuple in these.
#[cycle(arguments)]
#[tactic(auto, using(crate::proofs::PlaceLemmas::arguing))]
fn are_arguments(types: &[Ty]) -> bool
    ensures { result ≡ list_all is_argument types.now }
{
    for ty in types {
        if !is_argument(ty) {
            return false;
        }
    }
    true
}

/// Whether no variable stands in a union or a tuple in an argument of a nominal type.
#[cycle(arguments)]
#[tactic(auto, using(crate::proofs::PlaceLemmas::arguing))]
fn is_argument(ty: &Ty) -> bool
    ensures { result ≡ is_argument ty.now }
{
    match ty {
        Ty::Any => true,
        Ty::Union(parts) | Ty::Tuple(parts) => are_closed(parts.as_slice()),
        Ty::Nominal(_, parts) => are_arguments(parts.as_slice()),
        Ty::Var(_) => true,
    }
}

/// Whether no variable stands in a union or a tuple below a nominal type in these.
#[cycle(components)]
#[tactic(auto, using(crate::proofs::PlaceLemmas::composing))]
fn are_components(types: &[Ty]) -> bool
    ensures { result ≡ list_all is_component types.now }
{
    for ty in types {
        if !is_component(ty) {
            return false;
        }
    }
    true
}

/// Whether no variable stands in a union or a tuple below a nominal type in a component.
#[cycle(components)]
#[tactic(auto, using(crate::proofs::PlaceLemmas::composing))]
fn is_component(ty: &Ty) -> bool
    ensures { result ≡ is_component ty.now }
{
    match ty {
        Ty::Any => true,
        Ty::Union(parts) | Ty::Tuple(parts) => are_components(parts.as_slice()),
        Ty::Nominal(_, parts) => are_arguments(parts.as_slice()),
        Ty::Var(_) => true,
    }
}

/// Whether each variable in these stands before `variable`, or is none of `count` variables.
#[cycle(before)]
#[tactic(auto, using(crate::proofs::PlaceLemmas::preceding))]
fn are_before(types: &[Ty], variable: u64, count: u64) -> bool
    ensures { result ≡ list_all (λ w. nat_lt w variable || not (nat_lt w count)) (flat_map vars_in types.now) }
{
    for ty in types {
        if !is_before(ty, variable, count) {
            return false;
        }
    }
    true
}

/// Whether each variable in a type stands before `variable`, or is none of `count` variables.
#[cycle(before)]
#[tactic(auto, using(crate::proofs::PlaceLemmas::preceding))]
fn is_before(ty: &Ty, variable: u64, count: u64) -> bool
    ensures { result ≡ list_all (λ w. nat_lt w variable || not (nat_lt w count)) (vars_in ty.now) }
{
    match ty {
        Ty::Any => true,
        Ty::Union(parts) => are_before(parts.as_slice(), variable, count),
        Ty::Tuple(parts) => are_before(parts.as_slice(), variable, count),
        Ty::Nominal(_, arguments) => are_before(arguments.as_slice(), variable, count),
        Ty::Var(other) => u64::from(*other) < variable || u64::from(*other) >= count,
    }
}

/// Whether a type is `Union{}` as it is written.
#[tactic(auto, using(crate::proofs::PlaceLemmas::bottoms))]
fn is_bottom(ty: &Ty) -> bool
    ensures { result ≡ is_bottom ty.now }
{
    match ty {
        Ty::Any => false,
        Ty::Union(parts) => parts.as_slice().is_empty(),
        Ty::Tuple(_) => false,
        Ty::Nominal(_, _) => false,
        Ty::Var(_) => false,
    }
}

/// Whether a type is nominal, and no variable stands in a union or a tuple in it.
#[tactic(auto, using(crate::proofs::PlaceLemmas::bottoms))]
fn is_named(ty: &Ty) -> bool
    ensures { result ≡ named_form (out-Ty ty.now) }
{
    match ty {
        Ty::Any => false,
        Ty::Union(_) => false,
        Ty::Tuple(_) => false,
        Ty::Nominal(_, arguments) => are_arguments(arguments.as_slice()),
        Ty::Var(_) => false,
    }
}

/// Whether the bounds of one of `count` variables have variables only where they may: in an upper bound that is a nominal type over
/// variables before this one, beside the lower bound `Union{}`. A number from `count` on is a static parameter of a method's body,
/// and counts as declared before them all.
fn is_bound(bound: &Bound, variable: u64, count: u64) -> bool
    ensures { result ≡ is_bound count variable bound.now }
{
    if !is_closed(&bound.low) {
        return false;
    }
    if is_closed(&bound.high) {
        return true;
    }
    is_bottom(&bound.low) && is_named(&bound.high) && is_before(&bound.high, variable, count)
}

/// Whether the bounds of variables have variables only where they may.
fn are_bounds(bounds: &[Bound]) -> bool
    ensures { result ≡ are_bounds (length bounds.now) 0 bounds.now }
{
    let count = bounds.len();
    for variable in 0..count {
        if !is_bound(&bounds[variable], variable as u64, count as u64) {
            return false;
        }
    }
    true
}

/// Whether variables stand only where they may: in no union or tuple below a nominal type, and in a bound only in an upper one, as a
/// nominal type over variables before its own.
pub fn are_placed(written: &Written) -> bool
    ensures { result ≡ are_placed written.now }
{
    are_bounds(written.vars.as_slice()) && are_components(written.parts.as_slice())
}
