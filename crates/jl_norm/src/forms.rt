//! Normal forms of types.

ghost use Rattle.std.specs.Prelude.{◌≡◌, ◌≤◌, IsTrue, OnOk, IfOk, Err, List, length};
ghost use Rattle.jl_model.specs.declared.limits.TheConstants.{MOST_TYPE_NODES};
ghost use Rattle.jl_model.specs.declared.ty.Decl.{Decl};
ghost use Rattle.jl_model.specs.Ancestors.{table_of};
ghost use Rattle.jl_model.specs.Counts.{nodes, IsWithinLimits};
ghost use Rattle.jl_model.specs.Normal.{IsNormalForm};
ghost use Rattle.jl_model.specs.Valid.{is_known, is_closed, is_counted};
ghost use Rattle.jl_types.specs.Form.{IsTooLarge};
ghost use Rattle.jl_types.specs.declared.normal_form.NormFault.TheVariants.{TypeLimit};

use jl_model::ty::Ty;
use jl_types::{NormFault, Table, normal};
use std::alloc::Global;

/// The normal form of a type: equal types, and no others, have the same (Julia manual, Types: Type Unions, Tuple Types).
/// `TypeLimit` comes exactly where the type has more than 1,024 nodes, a part of it has more than 256 raw alternatives, or
/// the normal form has more than 1,024 nodes. The first two are seen in the type as written, before any memory is taken.
pub fn norm(alloc: Global, table: &Table, ty: &Ty) -> Result<Ty, NormFault>
    requires { IsTrue (is_known (length table.now) ty.now) }
    ensures form { IfOk result (λ u. IsNormalForm (table_of table.now) ty.now u) }
    ensures small { IfOk result (λ u. nodes u ≤ MOST_TYPE_NODES) }
    ensures fits { IfOk result (λ u. IsWithinLimits u) }
    ensures within { OnOk result (IsWithinLimits ty.now) }
    ensures known { IfOk result (λ u. IsTrue (is_known (length table.now) u)) }
    ensures closed { IfOk result (λ u. IsTrue (is_closed ty.now) → IsTrue (is_closed u)) }
    ensures counted { IfOk result (λ u. (ds : List Decl) → IsTrue (is_counted ds ty.now) → IsTrue (is_counted ds u)) }
    ensures limit { result ≡ Err TypeLimit → IsTooLarge table.now ty.now }
    ensures written { (IsWithinLimits ty.now → ⊥) → result ≡ Err TypeLimit }
{
    normal(alloc, table, ty)
}
