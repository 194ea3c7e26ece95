//! Whether two types are the same term.

ghost use Rattle.std.specs.Prelude.{◌≡◌, IsTrue, ◌↔◌, map};
ghost use Rattle.jl_model.specs.Subtype.{put, at};

use jl_model::ty::Ty;

/// Whether two lists have the same types.
#[cycle(same)]
#[tactic(auto, using(crate::proofs::SameLemmas::alike))]
pub fn same_all(xs: &[Ty], ys: &[Ty]) -> bool
    ensures { IsTrue result ↔ (xs.now ≡ ys.now) }
{
    if xs.len() != ys.len() {
        return false;
    }
    for (i, x) in xs.iter().enumerate() {
        if !same(x, &ys[i]) {
            return false;
        }
    }
    true
}

/// Whether two types are the same.
#[cycle(same)]
pub fn same(a: &Ty, b: &Ty) -> bool
    ensures { IsTrue result ↔ (a.now ≡ b.now) }
{
    match a {
        Ty::Any => match b {
            Ty::Any => true,
            _ => false,
        },
        Ty::Union(xs) => match b {
            Ty::Union(ys) => same_all(xs.as_slice(), ys.as_slice()),
            _ => false,
        },
        Ty::Tuple(xs) => match b {
            Ty::Tuple(ys) => same_all(xs.as_slice(), ys.as_slice()),
            _ => false,
        },
        Ty::Nominal(m, xs) => match b {
            Ty::Nominal(n, ys) => m == n && same_all(xs.as_slice(), ys.as_slice()),
            _ => false,
        },
        Ty::Var(v) => match b {
            Ty::Var(w) => v == w,
            _ => false,
        },
    }
}

/// Whether two lists are the same, with the values put for the variables of the first.
#[cycle(same_put)]
#[tactic(auto, using(crate::proofs::SameLemmas::alike))]
pub fn same_all_put(parts: &[Ty], values: &[Ty], ys: &[Ty]) -> bool
    ensures { IsTrue result ↔ (map (put (at values.now)) parts.now ≡ ys.now) }
{
    if parts.len() != ys.len() {
        return false;
    }
    for (i, part) in parts.iter().enumerate() {
        if !same_put(part, values, &ys[i]) {
            return false;
        }
    }
    true
}

/// Whether a type with the values put for its variables is the same as another. It takes no memory.
#[cycle(same_put)]
pub fn same_put(ty: &Ty, values: &[Ty], b: &Ty) -> bool
    ensures { IsTrue result ↔ (put (at values.now) ty.now ≡ b.now) }
{
    match ty {
        Ty::Any => match b {
            Ty::Any => true,
            _ => false,
        },
        Ty::Union(xs) => match b {
            Ty::Union(ys) => same_all_put(xs.as_slice(), values, ys.as_slice()),
            _ => false,
        },
        Ty::Tuple(xs) => match b {
            Ty::Tuple(ys) => same_all_put(xs.as_slice(), values, ys.as_slice()),
            _ => false,
        },
        Ty::Nominal(m, xs) => match b {
            Ty::Nominal(n, ys) => m == n && same_all_put(xs.as_slice(), values, ys.as_slice()),
            _ => false,
        },
        Ty::Var(v) => match values.get(*v as usize) {
            Some(value) => same(value, b),
            None => match b {
                Ty::Any => true,
                _ => false,
            },
        },
    }
}
