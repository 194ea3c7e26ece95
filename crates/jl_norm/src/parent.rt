//! What may be a parent.

ghost use Rattle.std.specs.Prelude.{◌≡◌};
ghost use Rattle.jl_model.specs.declared.ty.Ty.TheViews.{out-Ty};
ghost use Rattle.jl_model.specs.Refusals.{is_abstract_parent};

use jl_model::ty::{Decl, DeclKind, Ty};
use jl_types::Table;

/// Whether the parent is `Any` or an abstract type.
#[tactic(auto, using(crate::proofs::ListLemmas::parents))]
pub fn is_abstract_parent(table: &Table, decl: &Decl) -> bool
    ensures { result ≡ is_abstract_parent table.now (out-Ty decl.now.parent) }
{
    match &decl.parent {
        Ty::Any => true,
        Ty::Nominal(name, _) => {
            *name < table.count() && matches!(table.decl(*name).kind, DeclKind::Abstract)
        }
        _ => false,
    }
}
