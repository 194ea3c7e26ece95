//! Whether a signature names only types of the table and its own variables, and whether its nominal types have their declared
//! numbers of arguments.

ghost use Rattle.std.specs.Prelude.{◌≡◌, IsTrue, length, nat_lt, slice_get};
ghost use Rattle.std.specs.List.{flat_map, list_all};
ghost use Rattle.jl_model.specs.Rows.{vars_in};
ghost use Rattle.jl_model.specs.Refusals.{bound_types};
ghost use Rattle.jl_model.specs.SigRefusals.{types_in};
ghost use Rattle.jl_sig.specs.Prepared.{HasOwnVariables};
ghost use Rattle.jl_model.specs.Valid.{is_counted, is_known, params_of};

use jl_model::ty::{Bound, Ty, Written};
use jl_norm::known::{are_bounds_known, are_known};
use jl_types::Table;

/// How many parameters a type has.
#[tactic(auto, using(crate::proofs::PlaceLemmas::naming))]
fn param_count(table: &Table, name: u32) -> usize
    ensures { result ≡ length (params_of (slice_get table.now name)) }
{
    if name < table.count() {
        return table.decl(name).params.len();
    }
    0
}

/// Whether each nominal type in these has its declared number of arguments.
#[cycle(counted)]
#[tactic(auto, using(jl_norm::proofs::ListLemmas::counts))]
pub fn are_counted(table: &Table, types: &[Ty]) -> bool
    ensures { result ≡ list_all (is_counted table.now) types.now }
{
    for ty in types {
        if !is_counted(table, ty) {
            return false;
        }
    }
    true
}

/// Whether each nominal type in a type has its declared number of arguments.
#[cycle(counted)]
#[tactic(auto, using(jl_norm::proofs::ListLemmas::counts))]
fn is_counted(table: &Table, ty: &Ty) -> bool
    ensures { result ≡ is_counted table.now ty.now }
{
    match ty {
        Ty::Any => true,
        Ty::Union(parts) | Ty::Tuple(parts) => are_counted(table, parts.as_slice()),
        Ty::Nominal(name, parts) => {
            parts.len() == param_count(table, *name) && are_counted(table, parts.as_slice())
        }
        Ty::Var(_) => true,
    }
}

/// Whether each variable in these is below `count`.
#[cycle(own)]
#[tactic(auto, using(crate::proofs::NameLemmas::owning))]
fn are_own(types: &[Ty], count: u64) -> bool
    ensures { result ≡ list_all (λ v. nat_lt v count) (flat_map vars_in types.now) }
{
    for ty in types {
        if !is_own(ty, count) {
            return false;
        }
    }
    true
}

/// Whether each variable in a type is below `count`.
#[cycle(own)]
#[tactic(auto, using(crate::proofs::NameLemmas::owning))]
fn is_own(ty: &Ty, count: u64) -> bool
    ensures { result ≡ list_all (λ v. nat_lt v count) (vars_in ty.now) }
{
    match ty {
        Ty::Any => true,
        Ty::Union(parts) => are_own(parts.as_slice(), count),
        Ty::Tuple(parts) => are_own(parts.as_slice(), count),
        Ty::Nominal(_, arguments) => are_own(arguments.as_slice(), count),
        Ty::Var(variable) => u64::from(*variable) < count,
    }
}

/// Whether each variable in the bounds is below `count`.
#[tactic(auto, using(crate::proofs::NameLemmas::owning))]
fn are_bounds_own(bounds: &[Bound], count: u64) -> bool
    ensures { result ≡ list_all (λ v. nat_lt v count) (flat_map vars_in (bound_types bounds.now)) }
{
    for bound in bounds {
        if !is_own(&bound.low, count) || !is_own(&bound.high, count) {
            return false;
        }
    }
    true
}

/// Whether a signature names only types of the table and its own variables.
pub fn is_well_named(table: &Table, written: &Written) -> bool
    ensures own { IsTrue result → HasOwnVariables written.now }
    ensures known { IsTrue result → IsTrue (list_all (is_known (length table.now)) (types_in written.now)) }
    ensures all { HasOwnVariables written.now → IsTrue (list_all (is_known (length table.now)) (types_in written.now)) → IsTrue result }
{
    let count = u64::from(table.count());
    let own = written.vars.len() as u64;
    let bounds = written.vars.as_slice();
    let parts = written.parts.as_slice();
    if !are_bounds_own(bounds, own) {
        return false;
    }
    if !are_own(parts, own) {
        return false;
    }
    if !are_bounds_known(bounds, count) {
        return false;
    }
    are_known(parts, count)
}
