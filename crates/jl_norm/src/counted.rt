//! Whether each nominal type in a declaration has its declared number of arguments.

ghost use Rattle.std.specs.Prelude.{◌≡◌, ◌++◌, ◌∷◌, [], slice_get};
ghost use Rattle.std.specs.List.{list_all};
ghost use Rattle.jl_model.specs.Kept.{field_types};
ghost use Rattle.jl_model.specs.Valid.{is_counted, params_of};
ghost use Rattle.jl_model.specs.Refusals.{bound_types, types_of};

use jl_model::ty::{Bound, Decl, Field, Ty};
use jl_types::Table;

/// The bounds of a type's parameters, where the declaration counts as the next type.
#[tactic(auto, using(crate::proofs::ListLemmas::places))]
pub fn bounds_of<'a>(table: &'a Table, decl: &'a Decl, name: u32) -> &'a [Bound]
    ensures { result.now ≡ params_of (slice_get (table.now ++ decl.now ∷ []) name) }
{
    if name < table.count() {
        return table.decl(name).params.as_slice();
    }
    if name == table.count() {
        return decl.params.as_slice();
    }
    &[]
}

/// Whether each nominal type in these has its declared number of arguments.
#[cycle(counted)]
#[tactic(auto, using(crate::proofs::ListLemmas::counts))]
fn are_counted(table: &Table, decl: &Decl, types: &[Ty]) -> bool
    ensures { result ≡ list_all (is_counted (table.now ++ decl.now ∷ [])) types.now }
{
    for ty in types {
        if !is_counted(table, decl, ty) {
            return false;
        }
    }
    true
}

/// Whether each nominal type in a type has its declared number of arguments.
#[cycle(counted)]
#[tactic(auto, using(crate::proofs::ListLemmas::counts))]
fn is_counted(table: &Table, decl: &Decl, ty: &Ty) -> bool
    ensures { result ≡ is_counted (table.now ++ decl.now ∷ []) ty.now }
{
    match ty {
        Ty::Any => true,
        Ty::Union(parts) | Ty::Tuple(parts) => are_counted(table, decl, parts.as_slice()),
        Ty::Nominal(name, parts) => {
            parts.len() == bounds_of(table, decl, *name).len()
                && are_counted(table, decl, parts.as_slice())
        }
        Ty::Var(_) => true,
    }
}

/// Whether the bounds have it so.
#[tactic(auto, using(crate::proofs::ListLemmas::along))]
fn are_bounds_counted(table: &Table, decl: &Decl, bounds: &[Bound]) -> bool
    ensures { result ≡ list_all (is_counted (table.now ++ decl.now ∷ [])) (bound_types bounds.now) }
{
    for bound in bounds {
        if !is_counted(table, decl, &bound.low) || !is_counted(table, decl, &bound.high) {
            return false;
        }
    }
    true
}

/// Whether the types of fields have it so.
#[tactic(auto, using(crate::proofs::ListLemmas::along))]
fn are_fields_counted(table: &Table, decl: &Decl, fields: &[Field]) -> bool
    ensures { result ≡ list_all (is_counted (table.now ++ decl.now ∷ [])) (field_types fields.now) }
{
    for field in fields {
        if !is_counted(table, decl, &field.ty) {
            return false;
        }
    }
    true
}

/// Whether each nominal type in a declaration has its declared number of arguments.
#[tactic(auto, using(crate::proofs::ListLemmas::along))]
pub fn is_counted_decl(table: &Table, decl: &Decl) -> bool
    ensures { result ≡ list_all (is_counted (table.now ++ decl.now ∷ [])) (types_of decl.now) }
{
    are_bounds_counted(table, decl, decl.params.as_slice())
        && is_counted(table, decl, &decl.parent)
        && are_fields_counted(table, decl, decl.fields.as_slice())
}
