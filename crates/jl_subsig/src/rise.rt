//! The alternatives of a type over the variables of a left row, where a fixed variable among them stands for the alternatives of
//! its upper bound.

ghost use Rattle.std.specs.Prelude.{◌≡◌, IsTrue, IfOk, MatchOption, [], ◌∷◌, length};
ghost use Rattle.jl_model.specs.declared.ty.Ty.{out-Ty};
ghost use Rattle.jl_model.specs.declared.ty.Ty.TheVariants as W;
ghost use Rattle.jl_model.specs.Ancestors.{table_of};
ghost use Rattle.jl_model.specs.Found.{ancestor, first_form, rising};
ghost use Rattle.jl_model.specs.Rows.{alts};
ghost use Rattle.jl_model.specs.Valid.{is_known};
ghost use Rattle.jl_subsig.specs.Side.{held, lift_to, IsItem, AreHeld};

use crate::top::top;
use jl_model::ty::{Ty, Tys};
use jl_search::find::lifted;
use jl_sig::Sig;
use jl_sig::row::SigRow;
use jl_types::Table;
use std::alloc::{AllocError, Global};

/// The alternatives of the upper bound of a fixed variable, if that is not `Any`.
fn rise_variable<'a>(
    table: &Table,
    left: &'a Sig,
    row: &'a SigRow,
    number: usize,
) -> Option<&'a [Ty]>
    requires { AreHeld table.now left.now row.now }
    ensures { MatchOption result (alts ((held left.now row.now).high number) ≡ W.Any ∷ []) (λ ts. alts ((held left.now row.now).high number) ≡ ts.now) }
{
    let bounds = left.kept().vars.as_slice();
    if number < bounds.len() && !left.diagonals()[number] {
        return Some(left.alternatives()[number].as_slice());
    }
    match top(bounds, left, row, number) {
        Some(high) => Some(std::slice::from_ref(high)),
        None => None,
    }
}

/// The alternatives of a type, where a fixed variable stands for those of its upper bound, unless this is `Any`.
pub fn rise<'a>(table: &Table, left: &'a Sig, row: &'a SigRow, ty: &'a Ty) -> Option<&'a [Ty]>
    requires held { AreHeld table.now left.now row.now }
    requires ty { IsItem table.now ty.now }
    ensures { MatchOption result (rising (held left.now row.now) ty.now ≡ W.Any ∷ []) (λ ts. rising (held left.now row.now) ty.now ≡ ts.now) }
{
    match ty {
        Ty::Union(members) => Some(members.as_slice()),
        Ty::Var(number) => rise_variable(table, left, row, *number as usize),
        _ => Some(std::slice::from_ref(ty)),
    }
}

/// The arguments of the ancestor `target` of a type, if it has one.
pub fn lift(alloc: Global, table: &Table, target: u32, ty: &Ty) -> Result<Option<Tys>, AllocError>
    requires { IsTrue (is_known (length table.now) ty.now) }
    ensures { IfOk result (λ found. found ≡ lift_to (table_of table.now) target (out-Ty ty.now)) }
{
    match ty {
        Ty::Nominal(name, arguments) => lifted(alloc, table, *name, arguments, target),
        _ => Ok(None),
    }
}

/// The arguments of the ancestor `target` of the first alternative of a type, none where it has no such ancestor.
pub fn lift_first(
    alloc: Global,
    table: &Table,
    left: &Sig,
    row: &SigRow,
    target: u32,
    ty: &Ty,
) -> Result<Tys, AllocError>
    requires held { AreHeld table.now left.now row.now }
    requires ty { IsItem table.now ty.now }
    ensures { IfOk result (λ found. found ≡ ancestor (table_of table.now) target (first_form (rising (held left.now row.now) ty.now))) }
{
    match rise(table, left, row, ty) {
        Some(alternatives) => {
            if alternatives.is_empty() {
                return Ok(Tys::empty());
            }
            match lift(alloc, table, target, &alternatives[0])? {
                Some(above) => Ok(above),
                None => Ok(Tys::empty()),
            }
        }
        None => Ok(Tys::empty()),
    }
}
