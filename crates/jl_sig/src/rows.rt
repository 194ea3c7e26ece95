//! All rows with given parts, and their choices for the diagonal variables.

ghost use Rattle.std.specs.Prelude.{◌≡◌, ◌<◌, ◌≤◌, ◌%◌, ◌&&◌, ◌++◌, ◌∷◌, [], Some, cond, nat_eq, IfOk, OnOk, MatchOption, length, map};
ghost use Rattle.std.specs.List.{flat_map, list_any};
ghost use Rattle.jl_model.specs.declared.ty.Ty.TheVariants as W;
ghost use Rattle.jl_model.specs.Rows.{vars_in};
ghost use Rattle.jl_model.specs.Signature.{is_diagonal};
ghost use Rattle.jl_model.specs.AllRows.{each_var, slot, rows_with};
ghost use Rattle.jl_sig.specs.KindIn.{kind_in};
ghost use Rattle.jl_sig.specs.Built.{picked, has_root, listed, rows_from, AreKinds};

use crate::expansion::{choose, product_of_lengths};
use crate::kind::Kind;
use crate::row::SigRow;
use jl_model::limits::MOST_SIGNATURE_ROWS;
use jl_model::ty::{Ty, Tys, Written};
use std::alloc::{AllocError, Global};

/// Whether a variable, or an atom of it, stands in one of these.
#[cycle(roots)]
fn some_has_root(types: &[Ty], variable: u64, width: u64) -> bool
    requires { 0 < width }
    ensures { result ≡ list_any (has_root width variable) types.now }
{
    for ty in types {
        if has_root(ty, variable, width) {
            return true;
        }
    }
    false
}

/// Whether a variable, or an atom of it, stands in a type.
#[cycle(roots)]
fn has_root(ty: &Ty, variable: u64, width: u64) -> bool
    requires { 0 < width }
    ensures { result ≡ has_root width variable ty.now }
{
    match ty {
        Ty::Any => false,
        Ty::Union(parts) => some_has_root(parts.as_slice(), variable, width),
        Ty::Tuple(parts) => some_has_root(parts.as_slice(), variable, width),
        Ty::Nominal(_, arguments) => some_has_root(arguments.as_slice(), variable, width),
        Ty::Var(other) => variable == u64::from(*other) % width,
    }
}

/// A list of this type alone.
pub fn one(alloc: Global, ty: Ty) -> Result<Tys, AllocError>
    ensures { IfOk result (λ ts. ts ≡ ty ∷ []) }
{
    let mut types = Vec::new(alloc);
    types.push(ty)?;
    Tys::from_vec(alloc, types)
}

/// What a variable of this kind may take in a row with these parts.
fn slot(
    alloc: Global,
    kind: Kind,
    picks: &Tys,
    row: &[Ty],
    variable: u64,
    width: u64,
) -> Result<Tys, AllocError>
    requires { 0 < width }
    ensures { IfOk result (λ ts. ts ≡ cond (is_diagonal (kind_in kind) && list_any (has_root width variable) row.now) picks.now (W.Any ∷ [])) }
{
    if matches!(kind, Kind::Diagonal) && some_has_root(row, variable, width) {
        return picks.copy();
    }
    one(alloc, Ty::Any)
}

/// What each variable may take in a row with these parts.
fn slots(
    alloc: Global,
    written: &Written,
    kinds: &[Kind],
    picks: &[Tys],
    row: &[Ty],
) -> Result<Vec<Tys>, AllocError>
    requires kinds { AreKinds written.now kinds.now }
    requires picks { length picks.now ≡ length written.now.vars }
    ensures { IfOk result (λ ls. ls.items ≡ each_var (slot written.now (picked picks.now) row.now) 0 written.now.vars) }
{
    let width = written.vars.len();
    let mut lists = Vec::new(alloc);
    for variable in 0..width {
        lists.push(slot(
            alloc,
            kinds[variable],
            &picks[variable],
            row,
            variable as u64,
            width as u64,
        )?)?;
    }
    Ok(lists)
}

/// Adds a row for each of these choices.
fn push_rows(rows: &mut Vec<SigRow>, parts: &Tys, choices: &[Tys]) -> Result<(), AllocError>
    ensures { OnOk result (map listed rows.new.items ≡ map listed rows.old.items ++ map (λ us. record { parts = parts.now; chosen = us }) choices.now) }
{
    for chosen in choices {
        let parts = parts.copy()?;
        let chosen = chosen.copy()?;
        rows.push(SigRow { parts, chosen })?;
    }
    Ok(())
}

/// The rows with these parts; nothing where there are more than 256.
pub fn rows_from(
    alloc: Global,
    written: &Written,
    kinds: &[Kind],
    picks: &[Tys],
    components: &[Tys],
) -> Result<Option<Vec<SigRow>>, AllocError>
    requires kinds { AreKinds written.now kinds.now }
    requires picks { length picks.now ≡ length written.now.vars }
    ensures { IfOk result (λ o. MatchOption o (MOST_SIGNATURE_ROWS < length (rows_from written.now picks.now components.now))
        (λ rows. (map listed rows.items ≡ rows_from written.now picks.now components.now) × (length rows.items ≤ MOST_SIGNATURE_ROWS))) }
{
    let mut rows = Vec::new(alloc);
    for row in components {
        let slots = slots(alloc, written, kinds, picks, row.as_slice())?;
        if rows.len() as u64 + product_of_lengths(slots.as_slice()) > MOST_SIGNATURE_ROWS {
            return Ok(None);
        }
        let choices = choose(alloc, slots.as_slice())?;
        push_rows(&mut rows, row, choices.as_slice())?;
    }
    Ok(Some(rows))
}
