//! Below over the variables of a left row, held fixed. A fixed variable is below what its upper bound is below, above what
//! is below its lower bound, and equal to itself alone (Zappa Nardelli et al., OOPSLA 2018). Arguments of nominal types are
//! compared as terms, since they are normal forms in which a variable stands for itself.

ghost use Rattle.std.specs.Prelude.{◌≡◌, ◌↔◌, ◌⊎◌, IsTrue, length};
ghost use Rattle.jl_model.specs.Rows.{width, root};
ghost use Rattle.jl_model.specs.declared.ty.Ty.TheViews as V;
ghost use Rattle.jl_model.specs.declared.ty.Ty.TheVariants as W;
ghost use Rattle.jl_model.specs.Ancestors.{table_of};
ghost use Rattle.jl_model.specs.Signature.{Both};
ghost use Rattle.jl_model.specs.Subtype.{Below};
ghost use Rattle.jl_sig.specs.SigParts.{kept_of, bounded_of};
ghost use Rattle.jl_types.specs.Ground.{AreSingles};
ghost use Rattle.jl_subsig.specs.Side.{held, ArePlain, IsItem, IsRigid, AreHeld, Every, AnyOf};

use crate::top::{low, top};
use jl_model::ty::{Ty, Tys};
use jl_sig::Sig;
use jl_sig::row::SigRow;
use jl_types::{Table, ground_sub};

/// Whether a type without variables at covariant places is below the lower bound of a variable.
fn is_low_above(table: &Table, left: &Sig, row: &SigRow, ty: &Ty, number: u32) -> bool
    requires held { AreHeld table.now left.now row.now }
    requires ty { IsItem table.now ty.now }
    requires rigid { IsRigid ty.now }
    ensures { IsTrue result ↔ Below (table_of table.now) (held left.now row.now) ty.now (W.Var number) }
{
    table.valid();
    match low(left.bounds(), number) {
        Some(low) => ground_sub(table, ty, low),
        None => ground_sub(table, ty, &Ty::Union(Tys::empty())),
    }
}

/// Whether each of these is below a tuple.
#[cycle(rigid)]
fn are_rigid_below(table: &Table, left: &Sig, row: &SigRow, types: &[Ty], upper: &Ty) -> bool
    requires held { AreHeld table.now left.now row.now }
    requires types { ArePlain table.now types.now }
    requires upper { IsItem table.now upper.now }
    ensures { IsTrue result ↔ Every (λ t. Below (table_of table.now) (held left.now row.now) t upper.now) types.now }
{
    for ty in types {
        if !is_rigid_below(table, left, row, ty, upper) {
            return false;
        }
    }
    true
}

/// Whether each of these is below the one in its place.
#[cycle(rigid)]
fn are_rigid_parts_below(
    table: &Table,
    left: &Sig,
    row: &SigRow,
    parts: &[Ty],
    uppers: &[Ty],
) -> bool
    requires held { AreHeld table.now left.now row.now }
    requires parts { ArePlain table.now parts.now }
    requires uppers { AreSingles table.now uppers.now }
    ensures { IsTrue result ↔ Both (Below (table_of table.now) (held left.now row.now)) parts.now uppers.now }
{
    if parts.len() != uppers.len() {
        return false;
    }
    for (i, part) in parts.iter().enumerate() {
        if !is_rigid_below(table, left, row, part, &uppers[i]) {
            return false;
        }
    }
    true
}

/// Whether a type without variables at covariant places is below another.
#[cycle(rigid)]
fn is_rigid_below(table: &Table, left: &Sig, row: &SigRow, ty: &Ty, upper: &Ty) -> bool
    requires held { AreHeld table.now left.now row.now }
    requires ty { IsItem table.now ty.now }
    requires rigid { IsRigid ty.now }
    requires upper { IsItem table.now upper.now }
    ensures { IsTrue result ↔ Below (table_of table.now) (held left.now row.now) ty.now upper.now }
{
    table.valid();
    match upper {
        Ty::Var(number) => is_low_above(table, left, row, ty, *number),
        Ty::Tuple(uppers) => match ty {
            Ty::Union(members) => are_rigid_below(table, left, row, members.as_slice(), upper),
            Ty::Tuple(parts) => {
                are_rigid_parts_below(table, left, row, parts.as_slice(), uppers.as_slice())
            }
            _ => false,
        },
        _ => ground_sub(table, ty, upper),
    }
}

/// Whether a type is a certain fixed variable, or the variable of which this is an atom.
fn is_own(left: &Sig, number: u32, upper: &Ty) -> bool
    requires { length (bounded_of left.now).vars ≡ width (kept_of left.now) }
    ensures { IsTrue result ↔ ((upper.now ≡ W.Var number) ⊎ (upper.now ≡ W.Var (root (kept_of left.now) number))) }
{
    match upper {
        Ty::Var(other) => {
            let width = left.bounds().len();
            *other == number || (0 < width && *other as usize == number as usize % width)
        }
        _ => false,
    }
}

/// Whether a fixed variable is below a type: it is the type's own variable, or its upper bound is below the type.
fn is_variable_below(table: &Table, left: &Sig, row: &SigRow, number: u32, upper: &Ty) -> bool
    requires held { AreHeld table.now left.now row.now }
    requires upper { IsItem table.now upper.now }
    ensures { IsTrue result ↔ Below (table_of table.now) (held left.now row.now) (W.Var number) upper.now }
{
    table.valid();
    if is_own(left, number, upper) {
        return true;
    }
    match top(left.bounds(), left, row, number as usize) {
        Some(high) => is_rigid_below(table, left, row, high, upper),
        None => is_rigid_below(table, left, row, &Ty::Any, upper),
    }
}

/// Whether each of these is below the one in its place.
#[cycle(below)]
fn are_below(table: &Table, left: &Sig, row: &SigRow, parts: &[Ty], uppers: &[Ty]) -> bool
    requires held { AreHeld table.now left.now row.now }
    requires parts { AreSingles table.now parts.now }
    requires uppers { AreSingles table.now uppers.now }
    ensures { IsTrue result ↔ Both (Below (table_of table.now) (held left.now row.now)) parts.now uppers.now }
{
    if parts.len() != uppers.len() {
        return false;
    }
    for (i, part) in parts.iter().enumerate() {
        if !is_below(table, left, row, part, &uppers[i]) {
            return false;
        }
    }
    true
}

/// Whether a tuple is below one of these.
#[cycle(below)]
fn is_tuple_below_some(table: &Table, left: &Sig, row: &SigRow, parts: &[Ty], uppers: &[Ty]) -> bool
    requires held { AreHeld table.now left.now row.now }
    requires parts { AreSingles table.now parts.now }
    requires uppers { ArePlain table.now uppers.now }
    ensures { IsTrue result ↔ AnyOf (λ u. Below (table_of table.now) (held left.now row.now) (V.Tuple parts.now) u) uppers.now }
{
    for upper in uppers {
        if is_tuple_below(table, left, row, parts, upper) {
            return true;
        }
    }
    false
}

/// Whether a tuple is below a type.
#[cycle(below)]
fn is_tuple_below(table: &Table, left: &Sig, row: &SigRow, parts: &[Ty], upper: &Ty) -> bool
    requires held { AreHeld table.now left.now row.now }
    requires parts { AreSingles table.now parts.now }
    requires upper { IsItem table.now upper.now }
    ensures { IsTrue result ↔ Below (table_of table.now) (held left.now row.now) (V.Tuple parts.now) upper.now }
{
    table.valid();
    match upper {
        Ty::Any => true,
        Ty::Union(uppers) => is_tuple_below_some(table, left, row, parts, uppers.as_slice()),
        Ty::Tuple(uppers) => are_below(table, left, row, parts, uppers.as_slice()),
        Ty::Nominal(_, _) => false,
        Ty::Var(number) => match low(left.bounds(), *number) {
            Some(low) => is_tuple_below(table, left, row, parts, low),
            None => false,
        },
    }
}

/// Whether a type over the fixed variables is below another. It takes no memory, and its cost is at most the product of the
/// two types' nodes and those of the variables' bounds.
#[cycle(below)]
pub fn is_below(table: &Table, left: &Sig, row: &SigRow, ty: &Ty, upper: &Ty) -> bool
    requires held { AreHeld table.now left.now row.now }
    requires ty { IsItem table.now ty.now }
    requires upper { IsItem table.now upper.now }
    ensures { IsTrue result ↔ Below (table_of table.now) (held left.now row.now) ty.now upper.now }
{
    table.valid();
    match ty {
        Ty::Var(number) => is_variable_below(table, left, row, *number, upper),
        Ty::Tuple(parts) => is_tuple_below(table, left, row, parts.as_slice(), upper),
        _ => is_rigid_below(table, left, row, ty, upper),
    }
}
