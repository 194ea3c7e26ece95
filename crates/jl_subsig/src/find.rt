//! Searches for what stands at the places of a variable of a right row. Each goes along a part of that row and a left part
//! at once, where a fixed variable of the left stands for its upper bound; it never fails and never turns back.

ghost use Rattle.std.specs.Prelude.{◌≡◌, IfOk, MatchOption, List, map};
ghost use Rattle.jl_model.specs.declared.ty.Ty.{Ty, out-Ty};
ghost use Rattle.jl_model.specs.declared.ty.Ty.TheOpen.{Any, Tuple};
ghost use Rattle.jl_model.specs.Ancestors.{table_of};
ghost use Rattle.jl_model.specs.Found.{find_inner, find_outer, first, raised};
ghost use Rattle.jl_subsig.specs.Side.{held, lift_to, IsTold, IsLeftPart, AreLeftParts};

use crate::top::top;
use jl_model::ty::{Ty, Tys};
use jl_search::find::{first_argument, lifted};
use jl_sig::Sig;
use jl_sig::row::SigRow;
use jl_types::Table;
use std::alloc::{AllocError, Global};

/// A type, or of a fixed variable its upper bound, if that is not `Any`.
fn raise<'a>(left: &'a Sig, row: &'a SigRow, ty: &'a Ty) -> Option<&'a Ty>
    requires { IsTold left.now row.now }
    ensures { MatchOption result (raised (held left.now row.now) (out-Ty ty.now) ≡ Any) (λ t. raised (held left.now row.now) (out-Ty ty.now) ≡ out-Ty t.now) }
{
    match ty {
        Ty::Var(number) => top(left.kept().vars.as_slice(), left, row, *number as usize),
        _ => Some(ty),
    }
}

/// The parts of a tuple, where a fixed variable stands for its upper bound.
pub fn parts<'a>(left: &'a Sig, row: &'a SigRow, ty: &'a Ty) -> Option<&'a [Ty]>
    requires { IsTold left.now row.now }
    ensures { MatchOption result ((ts : List Ty) → raised (held left.now row.now) (out-Ty ty.now) ≡ Tuple ts → ⊥) (λ ts. raised (held left.now row.now) (out-Ty ty.now) ≡ Tuple ts.now) }
{
    match raise(left, row, ty) {
        Some(Ty::Tuple(parts)) => Some(parts.as_slice()),
        _ => None,
    }
}

/// The arguments of the ancestor `target` of a type, if it has one, where a fixed variable stands for its upper bound.
pub fn ancestor(
    alloc: Global,
    table: &Table,
    left: &Sig,
    row: &SigRow,
    target: u32,
    ty: &Ty,
) -> Result<Option<Tys>, AllocError>
    requires told { IsTold left.now row.now }
    requires ty { IsLeftPart table.now (held left.now row.now) ty.now }
    ensures { IfOk result (λ found. found ≡ lift_to (table_of table.now) target (raised (held left.now row.now) (out-Ty ty.now))) }
{
    table.valid();
    match raise(left, row, ty) {
        Some(high) => match high {
            Ty::Nominal(name, arguments) => lifted(alloc, table, *name, arguments, target),
            _ => Ok(None),
        },
        None => Ok(None),
    }
}

/// What stands at the first invariant place of the variable in these parts of a right row.
#[cycle(inner)]
#[tactic(auto, using(jl_search::proofs::SearchLemmas::searching))]
pub fn first_inner(
    alloc: Global,
    table: &Table,
    left: &Sig,
    row: &SigRow,
    variable: usize,
    patterns: &[Ty],
    types: &[Ty],
) -> Result<Option<Ty>, AllocError>
    requires told { IsTold left.now row.now }
    requires types { AreLeftParts table.now (held left.now row.now) types.now }
    ensures { IfOk result (λ hit. hit ≡ first (map (find_inner (table_of table.now) (held left.now row.now) variable) patterns.now) types.now) }
{
    for (i, pattern) in patterns.iter().enumerate() {
        if i >= types.len() {
            return Ok(None);
        }
        let hit = in_inner(alloc, table, left, row, variable, pattern, &types[i])?;
        if hit.is_some() {
            return Ok(hit);
        }
    }
    Ok(None)
}

/// What stands at the first invariant place of the variable in a part of a right row.
#[cycle(inner)]
#[tactic(auto, using(jl_search::proofs::SearchLemmas::searching))]
fn in_inner(
    alloc: Global,
    table: &Table,
    left: &Sig,
    row: &SigRow,
    variable: usize,
    pattern: &Ty,
    ty: &Ty,
) -> Result<Option<Ty>, AllocError>
    requires told { IsTold left.now row.now }
    requires ty { IsLeftPart table.now (held left.now row.now) ty.now }
    ensures { IfOk result (λ hit. hit ≡ find_inner (table_of table.now) (held left.now row.now) variable pattern.now ty.now) }
{
    match pattern {
        Ty::Any => Ok(None),
        Ty::Union(_) => Ok(None),
        Ty::Tuple(patterns) => match parts(left, row, ty) {
            Some(types) => {
                first_inner(
                    alloc,
                    table,
                    left,
                    row,
                    variable,
                    patterns.as_slice(),
                    types,
                )
            }
            None => Ok(None),
        },
        Ty::Nominal(target, patterns) => match ancestor(alloc, table, left, row, *target, ty)? {
            Some(above) => first_argument(variable, patterns.as_slice(), above.as_slice()),
            None => Ok(None),
        },
        Ty::Var(_) => Ok(None),
    }
}

/// What stands at the first covariant place of the variable in these parts of a right row.
#[cycle(outer)]
#[tactic(auto, using(jl_search::proofs::SearchLemmas::searching))]
pub fn first_outer(
    left: &Sig,
    row: &SigRow,
    variable: usize,
    patterns: &[Ty],
    types: &[Ty],
) -> Result<Option<Ty>, AllocError>
    requires { IsTold left.now row.now }
    ensures { IfOk result (λ hit. hit ≡ first (map (find_outer (held left.now row.now) variable) patterns.now) types.now) }
{
    for (i, pattern) in patterns.iter().enumerate() {
        if i >= types.len() {
            return Ok(None);
        }
        let hit = in_outer(left, row, variable, pattern, &types[i])?;
        if hit.is_some() {
            return Ok(hit);
        }
    }
    Ok(None)
}

/// What stands at the first covariant place of the variable in a part of a right row.
#[cycle(outer)]
#[tactic(auto, using(jl_search::proofs::SearchLemmas::searching))]
fn in_outer(
    left: &Sig,
    row: &SigRow,
    variable: usize,
    pattern: &Ty,
    ty: &Ty,
) -> Result<Option<Ty>, AllocError>
    requires { IsTold left.now row.now }
    ensures { IfOk result (λ hit. hit ≡ find_outer (held left.now row.now) variable pattern.now ty.now) }
{
    match pattern {
        Ty::Any => Ok(None),
        Ty::Union(_) => Ok(None),
        Ty::Tuple(patterns) => match parts(left, row, ty) {
            Some(types) => first_outer(left, row, variable, patterns.as_slice(), types),
            None => Ok(None),
        },
        Ty::Nominal(_, _) => Ok(None),
        Ty::Var(number) => {
            if variable == *number as usize {
                return Ok(Some(ty.copy()?));
            }
            Ok(None)
        }
    }
}
