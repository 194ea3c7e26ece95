//! The normal form of a type, within its limits (Julia manual, Types: Type Unions, Tuple Types).

ghost use Rattle.std.specs.Prelude.{◌≡◌, ◌≤◌, ◌↔◌, IsTrue, OnOk, IfOk, Err, List, length};
ghost use Rattle.jl_model.specs.declared.limits.TheConstants.{MOST_TYPE_NODES};
ghost use Rattle.jl_model.specs.declared.ty.Decl.{Decl};
ghost use Rattle.jl_model.specs.Ancestors.{table_of};
ghost use Rattle.jl_model.specs.Counts.{nodes, IsWithinLimits};
ghost use Rattle.jl_model.specs.Normal.{IsNormalForm};
ghost use Rattle.jl_model.specs.Valid.{is_known, is_closed, is_counted};
ghost use Rattle.jl_types.specs.Form.{IsTooLarge};
ghost use Rattle.jl_types.specs.declared.normal_form.NormFault.TheVariants.{Memory};

use crate::form::form;
use crate::raw::alternatives_within;
use crate::reduce::is_small;
use crate::table::Table;
use jl_model::ty::Ty;
use std::alloc::{AllocError, Global};
use thiserror::Error;

/// Why a normal form is not given.
#[derive(Clone, Copy, Debug, Drop, PartialEq, Eq, Error)]
pub enum NormFault {
    /// The type has more than 1,024 nodes, or a part with more than 256 raw alternatives, or its normal form has more
    /// than 1,024 nodes.
    #[error("TypeLimit")]
    TypeLimit,
    /// Memory was refused.
    #[error("out of memory")]
    Memory,
}

impl From<AllocError> for NormFault {
    ghost from_gives = { λ _ fault. fault ≡ Memory };

    fn from(_error: AllocError) -> NormFault {
        NormFault::Memory
    }
}

/// Whether a type has at most 1,024 nodes, and no part with more than 256 raw alternatives.
pub fn is_within_limits(ty: &Ty) -> bool
    ensures { IsTrue result ↔ IsWithinLimits ty.now }
{
    is_small(ty) && alternatives_within(ty).is_some()
}

/// The normal form of a type: equal types, and no others, have the same. `TypeLimit` comes exactly where the type has more
/// than 1,024 nodes, a part of it has more than 256 raw alternatives, or the normal form has more than 1,024 nodes. The first
/// two are seen in the type as written, before any memory is taken.
pub fn normal(alloc: Global, table: &Table, ty: &Ty) -> Result<Ty, NormFault>
    requires { IsTrue (is_known (length table.now) ty.now) }
    ensures form { IfOk result (λ u. IsNormalForm (table_of table.now) ty.now u) }
    ensures small { IfOk result (λ u. nodes u ≤ MOST_TYPE_NODES) }
    ensures fits { IfOk result (λ u. IsWithinLimits u) }
    ensures within { OnOk result (IsWithinLimits ty.now) }
    ensures known { IfOk result (λ u. IsTrue (is_known (length table.now) u)) }
    ensures closed { IfOk result (λ u. IsTrue (is_closed ty.now) → IsTrue (is_closed u)) }
    ensures counted { IfOk result (λ u. (ds : List Decl) → IsTrue (is_counted ds ty.now) → IsTrue (is_counted ds u)) }
    ensures limit { result ≡ Err NormFault.TypeLimit → IsTooLarge table.now ty.now }
    ensures written { (IsWithinLimits ty.now → ⊥) → result ≡ Err NormFault.TypeLimit }
{
    if !is_within_limits(ty) {
        return Err(NormFault::TypeLimit);
    }
    let form = form(alloc, table, ty)?;
    if !is_small(&form) {
        return Err(NormFault::TypeLimit);
    }
    Ok(form)
}
