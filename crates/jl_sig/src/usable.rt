//! Which variables of a signature a method's body may use.

ghost use Rattle.std.specs.Prelude.{◌≡◌};
ghost use Rattle.std.specs.List.{list_all};
ghost use Rattle.jl_model.specs.Rows.{kind, part_places};
ghost use Rattle.jl_model.specs.Usable.{is_outside_unions, is_met, is_usable};

use crate::kind::places_in_all;
use crate::standing::{stands_in_bounds, stands_in_some};
use jl_model::ty::{Ty, Written};

/// Whether no occurrence of a variable in these stands in a union.
#[cycle(outside)]
#[tactic(auto, using(crate::proofs::UsableLemmas::keeping_out))]
fn are_outside_unions(types: &[Ty], variable: u64) -> bool
    ensures { result ≡ list_all (is_outside_unions variable) types.now }
{
    for ty in types {
        if !is_outside_unions(ty, variable) {
            return false;
        }
    }
    true
}

/// Whether no occurrence of a variable in a type stands in a union.
#[cycle(outside)]
#[tactic(auto, using(crate::proofs::UsableLemmas::keeping_out))]
fn is_outside_unions(ty: &Ty, variable: u64) -> bool
    ensures { result ≡ is_outside_unions variable ty.now }
{
    match ty {
        Ty::Any => true,
        Ty::Union(members) => !stands_in_some(members.as_slice(), variable),
        Ty::Tuple(parts) => are_outside_unions(parts.as_slice(), variable),
        Ty::Nominal(_, arguments) => are_outside_unions(arguments.as_slice(), variable),
        Ty::Var(_) => true,
    }
}

/// Whether a match finds a variable in a component: at a covariant place where it has no invariant one, bounds counted, or at an
/// invariant place in a component.
fn is_met(written: &Written, variable: u64) -> bool
    ensures { result ≡ is_met (kind written.now variable) (part_places written.now variable) }
{
    let parts = written.parts.as_slice();
    if !stands_in_some(parts, variable) {
        return false;
    }
    if !stands_in_bounds(written.vars.as_slice(), variable) {
        return true;
    }
    let found = places_in_all(parts, variable);
    found.invariant > 0
}

/// Whether a method's body may use a variable of its signature: a match finds it in a component, and no occurrence stands in a
/// union.
pub fn is_usable(written: &Written, variable: u32) -> bool
    ensures { result ≡ is_usable written.now variable }
{
    let variable = u64::from(variable);
    is_met(written, variable) && are_outside_unions(written.parts.as_slice(), variable)
}
