//! Whether a type has variables.

ghost use Rattle.std.specs.Prelude.{◌≡◌};
ghost use Rattle.std.specs.List.{list_all};
ghost use Rattle.jl_model.specs.Valid.{is_closed};

use jl_model::ty::Ty;

/// Whether no variable stands in these.
#[cycle(closed)]
#[tactic(auto, using(crate::proofs::PartsLemmas::closing))]
pub fn are_closed(types: &[Ty]) -> bool
    ensures { result ≡ list_all is_closed types.now }
{
    for ty in types {
        if !is_closed(ty) {
            return false;
        }
    }
    true
}

/// Whether no variable stands in a type.
#[cycle(closed)]
#[tactic(auto, using(crate::proofs::PartsLemmas::closing))]
pub fn is_closed(ty: &Ty) -> bool
    ensures { result ≡ is_closed ty.now }
{
    match ty {
        Ty::Any => true,
        Ty::Union(parts) | Ty::Tuple(parts) | Ty::Nominal(_, parts) => {
            are_closed(parts.as_slice())
        }
        Ty::Var(_) => false,
    }
}
