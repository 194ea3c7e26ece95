//! Which variables of a signature stand in it, and which a method's body may use, of all of them in one walk.

ghost use Rattle.std.specs.Prelude.{◌≡◌, ◌↔◌, nat_eq, not, map, true, false, IsTrue, IfOk};
ghost use Rattle.std.specs.List.{list_all, list_any};
ghost use Rattle.jl_model.specs.AllRows.{each_var};
ghost use Rattle.jl_model.specs.Usable.{stands_in, is_outside_unions, is_usable};
ghost use Rattle.jl_model.specs.SigRefusals.{UnusedVariable};
ghost use Rattle.jl_model.specs.Refusals.{bound_types};
ghost use Rattle.jl_sig.specs.Flags.{with_flag, is_below};

use crate::standing::have_variables;
use jl_model::ty::{Bound, Ty, Written};
use std::alloc::{AllocError, Global};

/// No variable has its flag.
fn no_flags(alloc: Global, vars: &[Bound]) -> Result<Vec<bool>, AllocError>
    ensures { IfOk result (λ flags. flags.items ≡ map (λ _. false) vars.now) }
{
    let mut flags = Vec::new(alloc);
    for _ in vars {
        flags.push(false)?;
    }
    Ok(flags)
}

fn set(variable: u32, value: bool, flags: &mut Vec<bool>)
    ensures { flags.new.items ≡ with_flag (λ v. nat_eq v variable) value 0 flags.old.items }
{
    let variable = variable as usize;
    if variable < flags.len() {
        flags[variable] = value;
    }
}

/// Each variable that stands in one of these has this flag.
#[cycle(set_stands)]
fn set_standing_in(types: &[Ty], value: bool, flags: &mut Vec<bool>)
    ensures { flags.new.items ≡ with_flag (λ v. list_any (stands_in v) types.now) value 0 flags.old.items }
{
    for ty in types {
        set_standing(ty, value, flags);
    }
}

/// Each variable that stands in a type has this flag.
#[cycle(set_stands)]
fn set_standing(ty: &Ty, value: bool, flags: &mut Vec<bool>)
    ensures { flags.new.items ≡ with_flag (λ v. stands_in v ty.now) value 0 flags.old.items }
{
    match ty {
        Ty::Any => {}
        Ty::Union(members) => set_standing_in(members.as_slice(), value, flags),
        Ty::Tuple(parts) => set_standing_in(parts.as_slice(), value, flags),
        Ty::Nominal(_, arguments) => set_standing_in(arguments.as_slice(), value, flags),
        Ty::Var(variable) => set(*variable, value, flags),
    }
}

/// Each variable that stands in one of these bounds has this flag.
fn set_standing_in_bounds(bounds: &[Bound], value: bool, flags: &mut Vec<bool>)
    ensures { flags.new.items ≡ with_flag (λ v. list_any (stands_in v) (bound_types bounds.now)) value 0 flags.old.items }
{
    for bound in bounds {
        set_standing(&bound.low, value, flags);
        set_standing(&bound.high, value, flags);
    }
}

/// Each variable that has an invariant place in one of these has its flag.
#[cycle(set_below)]
fn set_below_in(types: &[Ty], flags: &mut Vec<bool>)
    ensures { flags.new.items ≡ with_flag (λ v. list_any (is_below v) types.now) true 0 flags.old.items }
{
    for ty in types {
        set_below(ty, flags);
    }
}

/// Each variable that has an invariant place in a type has its flag.
#[cycle(set_below)]
fn set_below(ty: &Ty, flags: &mut Vec<bool>)
    ensures { flags.new.items ≡ with_flag (λ v. is_below v ty.now) true 0 flags.old.items }
{
    match ty {
        Ty::Any => {}
        Ty::Union(members) => set_below_in(members.as_slice(), flags),
        Ty::Tuple(parts) => set_below_in(parts.as_slice(), flags),
        Ty::Nominal(_, arguments) => set_standing_in(arguments.as_slice(), true, flags),
        Ty::Var(_) => {}
    }
}

/// No variable that stands in a union in one of these has its flag.
#[cycle(clear_unions)]
fn clear_unions_in(types: &[Ty], flags: &mut Vec<bool>)
    ensures { flags.new.items ≡ with_flag (λ v. not (list_all (is_outside_unions v) types.now)) false 0 flags.old.items }
{
    for ty in types {
        clear_unions(ty, flags);
    }
}

/// No variable that stands in a union in a type has its flag.
#[cycle(clear_unions)]
fn clear_unions(ty: &Ty, flags: &mut Vec<bool>)
    ensures { flags.new.items ≡ with_flag (λ v. not (is_outside_unions v ty.now)) false 0 flags.old.items }
{
    match ty {
        Ty::Any => {}
        Ty::Union(members) => set_standing_in(members.as_slice(), false, flags),
        Ty::Tuple(parts) => clear_unions_in(parts.as_slice(), flags),
        Ty::Nominal(_, arguments) => clear_unions_in(arguments.as_slice(), flags),
        Ty::Var(_) => {}
    }
}

fn has_clear(flags: &[bool]) -> bool
    ensures { result ≡ list_any not flags.now }
{
    for flag in flags {
        if !*flag {
            return true;
        }
    }
    false
}

/// Whether a variable of a signature stands in none of its types, its bounds among them.
pub fn has_unused(alloc: Global, written: &Written) -> Result<bool, AllocError>
    ensures { IfOk result (λ b. IsTrue b ↔ UnusedVariable written.now) }
{
    let mut flags = no_flags(alloc, written.vars.as_slice())?;
    set_standing_in(written.parts.as_slice(), true, &mut flags);
    set_standing_in_bounds(written.vars.as_slice(), true, &mut flags);
    let unused = has_clear(flags.as_slice());
    Ok(unused)
}

/// Which variables of a signature a method's body may use, by their numbers. One that stands in a bound must have an invariant
/// place in a component.
pub fn usable_variables(alloc: Global, written: &Written) -> Result<Vec<bool>, AllocError>
    ensures { IfOk result (λ flags. flags.items ≡ each_var (is_usable written.now) 0 written.now.vars) }
{
    let parts = written.parts.as_slice();
    let vars = written.vars.as_slice();
    let mut flags = no_flags(alloc, vars)?;
    set_standing_in(parts, true, &mut flags);
    if !have_variables(vars) {
        clear_unions_in(parts, &mut flags);
        return Ok(flags);
    }
    set_standing_in_bounds(vars, false, &mut flags);
    set_below_in(parts, &mut flags);
    clear_unions_in(parts, &mut flags);
    Ok(flags)
}
