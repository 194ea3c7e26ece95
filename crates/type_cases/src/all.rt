//! The answers about all that was listed, a line each: all pairs of types, all pairs of signatures, and each signature with each call.

ghost use Rattle.jl_sig.specs.Prepared.{IsSigOf};

use crate::halt::Halt;
use crate::ready::made;
use crate::signatures::applied;
use crate::types::pair_of;
use jl_model::ty::{Ty, Tys, Written};
use jl_sig::Sig;
use jl_subsig::sig_sub;
use jl_types::Table;
use std::alloc::Global;

/// How a type stands to each of these: `=` where both have one normal form, `<` where it is below another one.
fn type_line(
    alloc: Global,
    table: &Table,
    a: &Ty,
    types: &[Ty],
    out: &mut String,
) -> Result<(), Halt> {
    for b in types {
        let pair = pair_of(alloc, table, a, b)?;
        out.push_str(match (pair.is_below, pair.is_same) {
            (true, true) => "=",
            (true, false) => "<",
            (false, true) => "!",
            (false, false) => ".",
        })?;
    }
    out.push_str("\n")?;
    Ok(())
}

/// How each of these types stands to each.
pub fn type_lines(alloc: Global, table: &Table, types: &[Ty]) -> Result<String, Halt> {
    let mut out = String::new(alloc);
    for a in types {
        type_line(alloc, table, a, types, &mut out)?;
    }
    Ok(out)
}

/// Whether a signature is below each of these: `<` or `.`.
fn sig_line(
    alloc: Global,
    table: &Table,
    sig: &Sig,
    rights: &[Written],
    out: &mut String,
) -> Result<(), Halt>
    requires sig { IsSigOf table.now sig.now }
{
    for written in rights {
        let right = made(alloc, table, written)?;
        let is_below = sig_sub(alloc, table, sig, right.get());
        drop(right);
        out.push_str(if is_below? { "<" } else { "." })?;
    }
    out.push_str("\n")?;
    Ok(())
}

/// Whether each of these signatures is below each.
pub fn sig_lines(alloc: Global, table: &Table, sigs: &[Written]) -> Result<String, Halt> {
    let mut out = String::new(alloc);
    for written in sigs {
        let sig = made(alloc, table, written)?;
        let written = sig_line(alloc, table, sig.get(), sigs, &mut out);
        drop(sig);
        written?;
    }
    Ok(out)
}

/// What a body gets for the variables of a signature in each of these calls; `.` where it does not apply.
fn call_line(
    alloc: Global,
    table: &Table,
    sig: &Sig,
    calls: &[Tys],
    out: &mut String,
) -> Result<(), Halt>
    requires sig { IsSigOf table.now sig.now }
{
    for call in calls {
        let answer = applied(alloc, table, sig, call.as_slice(), ".")?;
        out.push_str(answer.as_str())?;
    }
    out.push_str("\n")?;
    Ok(())
}

/// The same for each of these signatures.
pub fn call_lines(
    alloc: Global,
    table: &Table,
    sigs: &[Written],
    calls: &[Tys],
) -> Result<String, Halt> {
    let mut out = String::new(alloc);
    for written in sigs {
        let sig = made(alloc, table, written)?;
        let written = call_line(alloc, table, sig.get(), calls, &mut out);
        drop(sig);
        written?;
    }
    Ok(out)
}
