//! Whether the variables in a declaration are its parameters.

ghost use Rattle.std.specs.Prelude.{◌≡◌, IsTrue, ◌↔◌, IfOk};
ghost use Rattle.std.specs.List.{list_all};
ghost use Rattle.jl_model.specs.Refusals.{HasOwnVariables};
ghost use Rattle.jl_norm.specs.Variables.{has_variables_below};

use crate::types::types_in;
use jl_model::ty::{Decl, Ty};
use std::alloc::{AllocError, Global};

/// Whether each variable in these has a number below `count`.
#[cycle(bound)]
#[tactic(auto, using(crate::proofs::VariableLemmas::belows))]
fn have_variables_below(types: &[Ty], count: u64) -> bool
    ensures { result ≡ list_all (has_variables_below count) types.now }
{
    for ty in types {
        if !has_variables_below(ty, count) {
            return false;
        }
    }
    true
}

/// Whether each variable in a type has a number below `count`.
#[cycle(bound)]
#[tactic(auto, using(crate::proofs::VariableLemmas::belows))]
fn has_variables_below(ty: &Ty, count: u64) -> bool
    ensures { result ≡ has_variables_below count ty.now }
{
    match ty {
        Ty::Any => true,
        Ty::Union(parts) | Ty::Tuple(parts) | Ty::Nominal(_, parts) => {
            have_variables_below(parts.as_slice(), count)
        }
        Ty::Var(variable) => u64::from(*variable) < count,
    }
}

/// Whether each variable in a declaration is one of its parameters, which `declare` asks.
pub fn has_own_variables(alloc: Global, decl: &Decl) -> Result<bool, AllocError>
    ensures { IfOk result (λ b. IsTrue b ↔ HasOwnVariables decl.now) }
{
    let types = types_in(alloc, decl)?;
    Ok(have_variables_below(types.as_slice(), decl.params.len() as u64))
}
