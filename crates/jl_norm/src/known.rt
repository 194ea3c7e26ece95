//! Whether types, bounds and a declaration name only types that are declared.

ghost use Rattle.std.specs.Prelude.{◌≡◌, IsTrue, ◌↔◌, length, true};
ghost use Rattle.std.specs.List.{list_all};
ghost use Rattle.jl_model.specs.Kept.{field_types};
ghost use Rattle.jl_model.specs.Valid.{is_known};
ghost use Rattle.jl_model.specs.Refusals.{bound_types, is_known_decl};

use jl_model::ty::{Bound, Decl, DeclKind, Field, Ty};
use jl_types::Table;

/// Whether each nominal type in these has a number below `count`.
#[cycle(known)]
#[tactic(auto, using(jl_types::proofs::PartsLemmas::knowing))]
pub fn are_known(types: &[Ty], count: u64) -> bool
    ensures { result ≡ list_all (is_known count) types.now }
{
    for ty in types {
        if !is_known(ty, count) {
            return false;
        }
    }
    true
}

/// Whether each nominal type in a type has a number below `count`.
#[cycle(known)]
#[tactic(auto, using(jl_types::proofs::PartsLemmas::knowing))]
pub fn is_known(ty: &Ty, count: u64) -> bool
    ensures { result ≡ is_known count ty.now }
{
    match ty {
        Ty::Any => true,
        Ty::Union(parts) | Ty::Tuple(parts) => are_known(parts.as_slice(), count),
        Ty::Nominal(name, parts) => u64::from(*name) < count && are_known(parts.as_slice(), count),
        Ty::Var(_) => true,
    }
}

/// Whether each nominal type in bounds has a number below `count`.
#[tactic(auto, using(crate::proofs::ListLemmas::along))]
pub fn are_bounds_known(bounds: &[Bound], count: u64) -> bool
    ensures { result ≡ list_all (is_known count) (bound_types bounds.now) }
{
    for bound in bounds {
        if !is_known(&bound.low, count) || !is_known(&bound.high, count) {
            return false;
        }
    }
    true
}

/// Whether the types of fields are known.
#[tactic(auto, using(crate::proofs::ListLemmas::along))]
fn are_fields_known(fields: &[Field], count: u64) -> bool
    ensures { result ≡ list_all (is_known count) (field_types fields.now) }
{
    for field in fields {
        if !is_known(&field.ty, count) {
            return false;
        }
    }
    true
}

/// Whether each type in a declaration is declared before it, or is the new struct itself in a field.
pub(crate) fn is_known_decl(table: &Table, decl: &Decl) -> bool
    ensures { result ≡ is_known_decl table.now decl.now }
{
    let count = u64::from(table.count());
    let own = match decl.kind {
        DeclKind::Abstract => 0,
        DeclKind::Struct => 1,
    };
    are_bounds_known(decl.params.as_slice(), count)
        && is_known(&decl.parent, count)
        && are_fields_known(decl.fields.as_slice(), count + own)
}
