//! Concrete types over the variables of a left row, held fixed: a diagonal variable counts as concrete (Julia manual, Types:
//! Concrete Types, UnionAll Types).

ghost use Rattle.std.specs.Prelude.{◌≡◌, IsTrue, length};
ghost use Rattle.std.specs.List.{list_all};
ghost use Rattle.jl_model.specs.Ancestors.{table_of};
ghost use Rattle.jl_model.specs.Subtype.{is_concrete};
ghost use Rattle.jl_model.specs.Valid.{is_known};
ghost use Rattle.jl_subsig.specs.Side.{held, IsTold};

use jl_model::ty::{DeclKind, Ty};
use jl_sig::Sig;
use jl_sig::row::SigRow;
use jl_types::Table;

/// Whether all of these are concrete.
#[cycle(concrete)]
#[tactic(auto, using(crate::proofs::SureSteps::knowing))]
fn are_concrete(table: &Table, left: &Sig, row: &SigRow, types: &[Ty]) -> bool
    requires told { IsTold left.now row.now }
    requires known { IsTrue (list_all (is_known (length table.now)) types.now) }
    ensures { result ≡ list_all (is_concrete (table_of table.now) (held left.now row.now)) types.now }
{
    for ty in types {
        if !is_concrete(table, left, row, ty) {
            return false;
        }
    }
    true
}

/// Whether a type is concrete: a struct type, a diagonal variable, or a tuple of these.
#[cycle(concrete)]
#[tactic(auto, using(crate::proofs::SureSteps::knowing))]
pub fn is_concrete(table: &Table, left: &Sig, row: &SigRow, ty: &Ty) -> bool
    requires told { IsTold left.now row.now }
    requires known { IsTrue (is_known (length table.now) ty.now) }
    ensures { result ≡ is_concrete (table_of table.now) (held left.now row.now) ty.now }
{
    match ty {
        Ty::Any => false,
        Ty::Union(_) => false,
        Ty::Tuple(parts) => are_concrete(table, left, row, parts.as_slice()),
        Ty::Nominal(name, _) => match table.decl(*name).kind {
            DeclKind::Abstract => false,
            DeclKind::Struct => true,
        },
        Ty::Var(number) => {
            let variable = *number as usize;
            let diagonals = left.diagonals();
            variable < diagonals.len() && diagonals[variable]
        }
    }
}
