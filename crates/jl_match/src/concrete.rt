//! Concrete types (Julia manual, Types: Concrete Types).

ghost use Rattle.std.specs.Prelude.{◌≡◌, IsTrue, length};
ghost use Rattle.std.specs.List.{list_all};
ghost use Rattle.jl_model.specs.Ancestors.{table_of};
ghost use Rattle.jl_model.specs.Subtype.{opaque, is_concrete};
ghost use Rattle.jl_model.specs.Valid.{is_known};

use jl_model::ty::{DeclKind, Ty};
use jl_types::Table;

/// Whether all of these are concrete.
#[cycle(concrete)]
#[tactic(auto, using(crate::proofs::KnownLemmas::knowing))]
fn are_concrete(table: &Table, types: &[Ty]) -> bool
    requires known { IsTrue (list_all (is_known (length table.now)) types.now) }
    ensures { result ≡ list_all (is_concrete (table_of table.now) opaque) types.now }
{
    for ty in types {
        if !is_concrete(table, ty) {
            return false;
        }
    }
    true
}

/// Whether a type is concrete: a struct type, or a tuple of concrete types. A caller whose types come from a text asks this
/// first, since `applies` requires that they are concrete.
#[cycle(concrete)]
#[tactic(auto, using(crate::proofs::KnownLemmas::knowing))]
pub fn is_concrete(table: &Table, ty: &Ty) -> bool
    requires known { IsTrue (is_known (length table.now) ty.now) }
    ensures { result ≡ is_concrete (table_of table.now) opaque ty.now }
{
    match ty {
        Ty::Any => false,
        Ty::Union(_) => false,
        Ty::Tuple(parts) => are_concrete(table, parts.as_slice()),
        Ty::Nominal(name, _) => match table.decl(*name).kind {
            DeclKind::Abstract => false,
            DeclKind::Struct => true,
        },
        Ty::Var(_) => false,
    }
}
