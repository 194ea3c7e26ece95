//! Subtyping of normal forms. No alternatives are made: a union is taken member by member, a tuple part by part, and equal
//! arguments of nominal types are the same terms, since each class of equal types has one normal form (Julia manual,
//! Types: UnionAll Types; Zappa Nardelli et al., OOPSLA 2018).

ghost use Rattle.std.specs.Prelude.{◌≡◌, ◌<◌, IsTrue, ◌↔◌, length, map};
ghost use Rattle.jl_model.specs.declared.ty.Ty.TheViews as V;
ghost use Rattle.jl_model.specs.Ancestors.{table_of};
ghost use Rattle.jl_model.specs.Subtype.{opaque, Below};
ghost use Rattle.jl_model.specs.Signature.{Both};
ghost use Rattle.jl_model.specs.Normal.{AllNormal, is_single};
ghost use Rattle.jl_model.specs.Members.{EachBelow, BelowSome};
ghost use Rattle.jl_model.specs.Counts.{total, nodes};
ghost use Rattle.jl_types.specs.Ground.{IsGround, AreSingles, AllExact, Lower, Lowers};

use crate::same::{same_all, same_all_put};
use crate::table::Table;
use jl_model::ty::Ty;

/// Whether a nominal type is below another: the arguments of its ancestor are those of the other.
fn is_nominal_above(table: &Table, upper: u32, ys: &[Ty], lower: u32, xs: &[Ty]) -> bool
    requires known { lower < length table.now }
    requires uppers_normal { AllNormal (table_of table.now) ys.now }
    requires lowers_exact { AllExact (table_of table.now) (total (map nodes ys.now)) xs.now }
    ensures { IsTrue result ↔ Below (table_of table.now) opaque (V.Nominal lower xs.now) (V.Nominal upper ys.now) }
{
    table.valid();
    if lower == upper {
        return same_all(xs, ys);
    }
    match table.up(lower, upper) {
        None => false,
        Some(args) => same_all_put(args.as_slice(), xs, ys),
    }
}

/// Whether each is below the one in its place.
#[cycle(ground)]
fn are_above(table: &Table, uppers: &[Ty], lowers: &[Ty]) -> bool
    requires uppers_ground { AreSingles table.now uppers.now }
    requires lowers_ground { Lowers table.now (total (map nodes uppers.now)) lowers.now }
    ensures { IsTrue result ↔ Both (Below (table_of table.now) opaque) lowers.now uppers.now }
{
    if uppers.len() != lowers.len() {
        return false;
    }
    for (i, upper) in uppers.iter().enumerate() {
        if !is_above(table, upper, &lowers[i]) {
            return false;
        }
    }
    true
}

/// Whether a type that is no union is below one of these.
#[cycle(ground)]
fn is_some_above(table: &Table, uppers: &[Ty], lower: &Ty) -> bool
    requires uppers_ground { AreSingles table.now uppers.now }
    requires lower_ground { Lower table.now (total (map nodes uppers.now)) lower.now }
    ensures { IsTrue result ↔ BelowSome (table_of table.now) lower.now uppers.now }
{
    for upper in uppers {
        if is_above(table, upper, lower) {
            return true;
        }
    }
    false
}

/// Whether a type that is no union is below another.
#[cycle(ground)]
pub fn is_above(table: &Table, upper: &Ty, lower: &Ty) -> bool
    requires upper_ground { IsGround table.now upper.now }
    requires lower_ground { Lower table.now (nodes upper.now) lower.now }
    ensures { IsTrue result ↔ Below (table_of table.now) opaque lower.now upper.now }
{
    match upper {
        Ty::Any => true,
        Ty::Union(members) => is_some_above(table, members.as_slice(), lower),
        Ty::Tuple(ys) => match lower {
            Ty::Tuple(xs) => are_above(table, ys.as_slice(), xs.as_slice()),
            _ => false,
        },
        Ty::Nominal(name, ys) => match lower {
            Ty::Nominal(of, xs) => is_nominal_above(
                table,
                *name,
                ys.as_slice(),
                *of,
                xs.as_slice(),
            ),
            _ => false,
        },
        Ty::Var(v) => match lower {
            Ty::Var(w) => v == w,
            _ => false,
        },
    }
}

/// Whether each of these is below a type.
fn are_below(table: &Table, lowers: &[Ty], upper: &Ty) -> bool
    requires lowers_ground { Lowers table.now (nodes upper.now) lowers.now }
    requires upper_ground { IsGround table.now upper.now }
    ensures { IsTrue result ↔ EachBelow (table_of table.now) lowers.now upper.now }
{
    for lower in lowers {
        if !is_above(table, upper, lower) {
            return false;
        }
    }
    true
}

/// Whether `a` is below `b`, both normal forms that are valid in the table. A variable is a type of which nothing is known.
/// It takes no memory, and its cost is at most the product of the two types' nodes.
pub fn ground_sub(table: &Table, a: &Ty, b: &Ty) -> bool
    requires a_ground { IsGround table.now a.now }
    requires b_ground { IsGround table.now b.now }
    ensures { IsTrue result ↔ Below (table_of table.now) opaque a.now b.now }
{
    table.valid();
    match a {
        Ty::Union(members) => are_below(table, members.as_slice(), b),
        _ => is_above(table, b, a),
    }
}
