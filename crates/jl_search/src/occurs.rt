//! Which variables stand in a row, and which are variables of it.

ghost use Rattle.std.specs.Prelude.{ℕ, ◌≡◌, ◌<◌, ◌+◌, ◌↔◌, IsTrue, IfOk, false, drop, length, get_or};
ghost use Rattle.std.specs.List.{list_all};
ghost use Rattle.jl_model.specs.declared.ty.Written.{Written};
ghost use Rattle.jl_model.specs.Rows.{width, Occurs};
ghost use Rattle.jl_search.specs.Absent.{lacks};
ghost use Rattle.jl_search.specs.Occurring.{in_flagged, is_flagged, IsInOrder};

use jl_model::ty::{Bound, Ty};
use std::alloc::{AllocError, Global};

/// Whether neither the variable nor an atom of it stands in these.
#[cycle(lacks)]
#[tactic(auto, using(crate::proofs::OccurLemmas::lacking))]
pub fn all_lack(width: usize, variable: usize, types: &[Ty]) -> bool
    requires { 0 < width }
    ensures { result ≡ list_all (lacks width variable) types.now }
{
    for ty in types {
        if !lacks(width, variable, ty) {
            return false;
        }
    }
    true
}

/// Whether neither the variable nor an atom of it stands in a type. There are `width` variables.
#[cycle(lacks)]
#[tactic(auto, using(crate::proofs::OccurLemmas::lacking))]
fn lacks(width: usize, variable: usize, ty: &Ty) -> bool
    requires { 0 < width }
    ensures { result ≡ lacks width variable ty.now }
{
    match ty {
        Ty::Any => true,
        Ty::Union(parts) => all_lack(width, variable, parts.as_slice()),
        Ty::Tuple(parts) => all_lack(width, variable, parts.as_slice()),
        Ty::Nominal(_, parts) => all_lack(width, variable, parts.as_slice()),
        Ty::Var(number) => *number as usize % width != variable,
    }
}

/// Whether the variable stands in the upper bound of a later variable that has its flag.
#[tactic(auto, using(crate::proofs::OccurLemmas::flagging))]
fn in_flagged(width: usize, variable: usize, bounds: &[Bound], flags: &[bool]) -> bool
    requires variable { variable < length bounds.now }
    requires long { length flags.now ≡ length bounds.now }
    requires width { 0 < width }
    ensures { result ≡ in_flagged width variable (drop (variable + 1) bounds.now) (drop (variable + 1) flags.now) }
{
    for later in variable + 1..bounds.len() {
        if !flags[later] {
            continue;
        }
        if !lacks(width, variable, &bounds[later].high) {
            return true;
        }
    }
    false
}

/// Whether the variable is one of the row, where the later ones have their flags.
fn is_flagged(width: usize, variable: usize, bounds: &[Bound], parts: &[Ty], flags: &[bool]) -> bool
    requires variable { variable < length bounds.now }
    requires long { length flags.now ≡ length bounds.now }
    requires width { 0 < width }
    ensures { result ≡ is_flagged width parts.now variable (drop (variable + 1) bounds.now) (drop (variable + 1) flags.now) }
{
    if !all_lack(width, variable, parts) {
        return true;
    }
    in_flagged(width, variable, bounds, flags)
}

/// Of each variable, whether it is one of the row: it stands there, or in the bound of a variable of the row. Where the bounds mention
/// only variables before their own, one way from the last variable to the first tells all.
pub fn occurring(alloc: Global, bounds: &[Bound], parts: &[Ty]) -> Result<Vec<bool>, AllocError>
    ensures long { IfOk result (λ flags. length flags.items ≡ length bounds.now) }
    ensures told { IfOk result (λ flags. (s : Written) → s.vars ≡ bounds.now → IsInOrder s → (v : ℕ) → v < width s → IsTrue (get_or flags.items v false) ↔ Occurs s v parts.now) }
{
    let width = bounds.len();
    let mut flags = Vec::new(alloc);
    for _ in 0..width {
        flags.push(false)?;
    }
    for step in 0..width {
        let variable = width - 1 - step;
        let flag = is_flagged(width, variable, bounds, parts, flags.as_slice());
        flags[variable] = flag;
    }
    Ok(flags)
}
