//! Where variables and the new type itself may stand in a declaration.

ghost use Rattle.std.specs.Prelude.{◌≡◌};
ghost use Rattle.std.specs.List.{list_all};
ghost use Rattle.jl_model.specs.Kept.{field_types};
ghost use Rattle.jl_model.specs.Valid.{is_closed};
ghost use Rattle.jl_model.specs.Refusals.{bound_types, is_free_of, is_placed, is_placed_field, is_placed_decl};

use jl_model::ty::{Bound, Decl, Field, Ty};
use jl_types::Table;
use jl_types::closed::is_closed;

/// Whether neither a variable nor this nominal type stands in these.
#[cycle(free)]
#[tactic(auto, using(crate::proofs::PlaceLemmas::frees))]
fn are_free(types: &[Ty], own: u32) -> bool
    ensures { result ≡ list_all (is_free_of own) types.now }
{
    for ty in types {
        if !is_free(ty, own) {
            return false;
        }
    }
    true
}

/// Whether neither a variable nor this nominal type stands in a type.
#[cycle(free)]
#[tactic(auto, using(crate::proofs::PlaceLemmas::frees))]
pub(crate) fn is_free(ty: &Ty, own: u32) -> bool
    ensures { result ≡ is_free_of own ty.now }
{
    match ty {
        Ty::Any => true,
        Ty::Union(parts) | Ty::Tuple(parts) => are_free(parts.as_slice(), own),
        Ty::Nominal(name, parts) => *name != own && are_free(parts.as_slice(), own),
        Ty::Var(_) => false,
    }
}

/// Whether neither stands in a union or a tuple in these.
#[cycle(placed)]
#[tactic(auto, using(crate::proofs::PlaceLemmas::placings))]
fn are_placed(types: &[Ty], own: u32) -> bool
    ensures { result ≡ list_all (is_placed own) types.now }
{
    for ty in types {
        if !is_placed(ty, own) {
            return false;
        }
    }
    true
}

/// Whether neither stands in a union or a tuple in a type.
#[cycle(placed)]
#[tactic(auto, using(crate::proofs::PlaceLemmas::placings))]
fn is_placed(ty: &Ty, own: u32) -> bool
    ensures { result ≡ is_placed own ty.now }
{
    match ty {
        Ty::Any => true,
        Ty::Union(parts) | Ty::Tuple(parts) => are_free(parts.as_slice(), own),
        Ty::Nominal(_, parts) => are_placed(parts.as_slice(), own),
        Ty::Var(_) => true,
    }
}

/// Whether neither stands in a union or a tuple under an argument in these.
#[cycle(placed_field)]
#[tactic(auto, using(crate::proofs::PlaceLemmas::fillings))]
fn are_field_parts_placed(types: &[Ty], own: u32) -> bool
    ensures { result ≡ list_all (is_placed_field own) types.now }
{
    for ty in types {
        if !is_placed_field(ty, own) {
            return false;
        }
    }
    true
}

/// Whether neither stands in a union or a tuple under an argument in a field's type.
#[cycle(placed_field)]
#[tactic(auto, using(crate::proofs::PlaceLemmas::fillings))]
fn is_placed_field(ty: &Ty, own: u32) -> bool
    ensures { result ≡ is_placed_field own ty.now }
{
    match ty {
        Ty::Any => true,
        Ty::Union(parts) | Ty::Tuple(parts) => are_field_parts_placed(parts.as_slice(), own),
        Ty::Nominal(_, parts) => are_placed(parts.as_slice(), own),
        Ty::Var(_) => true,
    }
}

/// Whether no variable stands in bounds.
#[tactic(auto, using(crate::proofs::ListLemmas::along))]
pub fn are_bounds_closed(bounds: &[Bound]) -> bool
    ensures { result ≡ list_all is_closed (bound_types bounds.now) }
{
    for bound in bounds {
        if !is_closed(&bound.low) || !is_closed(&bound.high) {
            return false;
        }
    }
    true
}

/// Whether the fields have them placed.
#[tactic(auto, using(crate::proofs::ListLemmas::along))]
fn are_fields_placed(fields: &[Field], own: u32) -> bool
    ensures { result ≡ list_all (is_placed_field own) (field_types fields.now) }
{
    for field in fields {
        if !is_placed_field(&field.ty, own) {
            return false;
        }
    }
    true
}

/// Whether no variable stands in a bound or in a union or tuple inside the parent, and neither a variable nor the new type
/// itself in a union or tuple under an argument in a field.
pub(crate) fn is_placed_decl(table: &Table, decl: &Decl) -> bool
    ensures { result ≡ is_placed_decl table.now decl.now }
{
    let own = table.count();
    are_bounds_closed(decl.params.as_slice())
        && is_placed(&decl.parent, own)
        && are_fields_placed(decl.fields.as_slice(), own)
}
