//! The variables of a signature: their kinds, what the diagonal ones may take, and what stands at their covariant places.

ghost use Rattle.std.specs.Prelude.{ℕ, ◌≡◌, ◌<◌, ◌≤◌, false, IfOk, length, get_or};
ghost use Rattle.jl_model.specs.declared.limits.TheConstants.{MOST_TYPE_NODES, MOST_ALTERNATIVES};
ghost use Rattle.jl_model.specs.declared.ty.Ty.{Ty as Term};
ghost use Rattle.jl_model.specs.Ancestors.{table_of};
ghost use Rattle.jl_model.specs.Signature.{Both};
ghost use Rattle.jl_model.specs.Subtype.{Equal};
ghost use Rattle.jl_model.specs.Kinds.{diagonal};
ghost use Rattle.jl_model.specs.SigRefusals.{is_bottom};
ghost use Rattle.jl_model.specs.Rows.{alts, atoms, high, kind, low};
ghost use Rattle.jl_model.specs.AllRows.{Above, each_var};
ghost use Rattle.jl_types.specs.Ground.{IsGround};
ghost use Rattle.jl_sig.specs.KindIn.{kind_in};
ghost use Rattle.jl_sig.specs.Built.{picked, place_by, place_in, AreAligned, AreKinds, ArePicked};
ghost use Rattle.jl_sig.specs.Fit.{IsFit};
ghost use Rattle.jl_sig.specs.Forms.{IsBoundForm, lows};

use crate::keep::keep;
use crate::kind::{Kind, kind_of};
use crate::rows::one;
use jl_model::ty::{Bound, Ty, Tys, Written};
use jl_types::expand::{expand, push_copies};
use jl_types::{Table, ground_sub};
use std::alloc::{AllocError, Global};

/// The kinds of all variables.
pub fn kinds(alloc: Global, written: &Written) -> Result<Vec<Kind>, AllocError>
    ensures { IfOk result (λ ks. AreKinds written.now ks.items) }
{
    let mut kinds = Vec::new(alloc);
    for variable in 0..written.vars.len() {
        kinds.push(kind_of(written, variable as u64))?;
    }
    Ok(kinds)
}

/// Those alternatives that a low bound is below. The low bound stands in normal form, and the alternatives stand as they are
/// written and as they are kept.
fn above(
    alloc: Global,
    table: &Table,
    low: &Ty,
    alternatives: &[Ty],
    kept: &[Ty],
) -> Result<Tys, AllocError>
    requires low { IsGround table.now low.now }
    requires aligned { AreAligned table.now alternatives.now kept.now }
    ensures { IfOk result (λ ps. (t : Term) → Equal (table_of table.now) t low.now → Above (table_of table.now) t alternatives.now ps) }
{
    table.valid();
    let mut picks = Vec::new(alloc);
    for i in 0..alternatives.len() {
        if ground_sub(table, low, &kept[i]) {
            picks.push(alternatives[i].copy()?)?;
        }
    }
    let picks = Tys::from_vec(alloc, picks)?;
    Ok(picks)
}

/// Whether a type is `Union{}`, by its form.
fn is_bottom(ty: &Ty) -> bool
    ensures { result ≡ is_bottom ty.now }
{
    match ty {
        Ty::Union(members) => members.as_slice().is_empty(),
        _ => false,
    }
}

/// The alternatives of an upper bound that the lower bound is below. `Union{}` is below all, those with variables too.
fn picks_of(alloc: Global, table: &Table, bound: &Bound, low: &Ty) -> Result<Tys, AllocError>
    requires high { is_bottom bound.now.low ≡ false → IsFit table.now bound.now.high }
    requires low { IsBoundForm table.now bound.now.low low.now }
    ensures { IfOk result (λ ps. Above (table_of table.now) bound.now.low (alts bound.now.high) ps) }
{
    table.valid();
    let alternatives = expand(alloc, &bound.high)?;
    if is_bottom(&bound.low) {
        let picks = Tys::from_vec(alloc, alternatives)?;
        return Ok(picks);
    }
    let high = keep(alloc, table, &bound.high)?;
    let kept = expand(alloc, &high)?;
    let picks = above(alloc, table, low, alternatives.as_slice(), kept.as_slice())?;
    Ok(picks)
}

/// What a variable of this kind may take, where it is a diagonal one.
fn own_picks(
    alloc: Global,
    table: &Table,
    kind: Kind,
    bound: &Bound,
    low: &Ty,
) -> Result<Tys, AllocError>
    requires high { is_bottom bound.now.low ≡ false → IsFit table.now bound.now.high }
    requires low { IsBoundForm table.now bound.now.low low.now }
    ensures { IfOk result (λ ps. kind_in kind ≡ diagonal → Above (table_of table.now) bound.now.low (alts bound.now.high) ps) }
{
    match kind {
        Kind::Diagonal => {
            let picks = picks_of(alloc, table, bound, low)?;
            Ok(picks)
        }
        Kind::Unused | Kind::Once | Kind::Bound => {
            let picks = one(alloc, Ty::Any)?;
            Ok(picks)
        }
    }
}

/// What each diagonal variable may take, where the bounds stand in normal form.
pub fn picks(
    alloc: Global,
    table: &Table,
    written: &Written,
    kinds: &[Kind],
    bounds: &[Bound],
) -> Result<Vec<Tys>, AllocError>
    requires kinds { AreKinds written.now kinds.now }
    requires fit { (v : ℕ) → is_bottom (low written.now v) ≡ false → IsFit table.now (high written.now v) }
    requires forms { Both (IsBoundForm table.now) (lows written.now.vars) (lows bounds.now) }
    ensures many { IfOk result (λ ps. length ps.items ≡ length written.now.vars) }
    ensures picked { IfOk result (λ ps. ArePicked (table_of table.now) written.now (length written.now.vars) ps.items) }
{
    let vars = written.vars.as_slice();
    let mut picks = Vec::new(alloc);
    for variable in 0..vars.len() {
        picks.push(own_picks(
            alloc,
            table,
            kinds[variable],
            &vars[variable],
            &bounds[variable].low,
        )?)?;
    }
    Ok(picks)
}

/// An atom of a variable for each of these alternatives of its upper bound.
fn atoms(
    alloc: Global,
    written: &Written,
    variable: usize,
    alternatives: &[Ty],
) -> Result<Tys, AllocError>
    requires own { variable < length written.now.vars }
    requires few { length written.now.vars ≤ MOST_TYPE_NODES }
    requires narrow { length alternatives.now ≤ MOST_ALTERNATIVES }
    ensures { IfOk result (λ ps. ps ≡ atoms written.now variable 0 alternatives.now) }
{
    let width = written.vars.len();
    let mut atoms = Vec::new(alloc);
    for i in 0..alternatives.len() {
        atoms.push(Ty::Var((variable + width * (i + 1)) as u32))?;
    }
    let atoms = Tys::from_vec(alloc, atoms)?;
    Ok(atoms)
}

/// What stands at the covariant places of a variable of this kind.
fn place(
    alloc: Global,
    written: &Written,
    kind: Kind,
    variable: usize,
    alternatives: Vec<Ty>,
    picks: &Tys,
) -> Result<Tys, AllocError>
    requires own { variable < length written.now.vars }
    requires few { length written.now.vars ≤ MOST_TYPE_NODES }
    requires narrow { length alternatives.items ≤ MOST_ALTERNATIVES }
    ensures { IfOk result (λ ps. ps ≡ place_by written.now variable (kind_in kind) alternatives.items picks.now) }
{
    match kind {
        Kind::Unused => Ok(Tys::empty()),
        Kind::Once => {
            let place = Tys::from_vec(alloc, alternatives)?;
            Ok(place)
        }
        Kind::Diagonal => {
            if picks.as_slice().is_empty() {
                return Ok(Tys::empty());
            }
            let place = one(alloc, Ty::Var(variable as u32))?;
            Ok(place)
        }
        Kind::Bound => {
            let place = atoms(alloc, written, variable, alternatives.as_slice())?;
            Ok(place)
        }
    }
}

/// What stands at the covariant places of each variable.
pub fn places(
    alloc: Global,
    written: &Written,
    kinds: &[Kind],
    picks: &[Tys],
) -> Result<Vec<Tys>, AllocError>
    requires kinds { AreKinds written.now kinds.now }
    requires picks { length picks.now ≡ length written.now.vars }
    requires few { length written.now.vars ≤ MOST_TYPE_NODES }
    requires narrow { (v : ℕ) → v < length written.now.vars → length (alts (high written.now v)) ≤ MOST_ALTERNATIVES }
    ensures { IfOk result (λ ps. ps.items ≡ each_var (place_in written.now picks.now) 0 written.now.vars) }
{
    let vars = written.vars.as_slice();
    let mut places = Vec::new(alloc);
    for variable in 0..vars.len() {
        let alternatives = expand(alloc, &vars[variable].high)?;
        places.push(place(
            alloc,
            written,
            kinds[variable],
            variable,
            alternatives,
            &picks[variable],
        )?)?;
    }
    Ok(places)
}
