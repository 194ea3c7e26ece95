//! The answers about signatures, methods and types in bodies.

ghost use Rattle.std.specs.Prelude.{IfOk};
ghost use Rattle.jl_sig.specs.Prepared.{IsSigOf};

use crate::halt::Halt;
use crate::heads::{read_signature, variables_in};
use crate::reading::{Scope, VarText, read_types};
use crate::ready::{arguments, made};
use crate::types::{plain_scope, standing};
use crate::writing::{list_text, rows_text, type_text};
use jl_body::check_type;
use jl_match::applies;
use jl_model::shared::SharedNode;
use jl_model::ty::{Ty, Written};
use jl_norm::known::are_known;
use jl_sig::types::types_in;
use jl_sig::{Sig, is_usable, kind_of, usable_variables};
use jl_subsig::sig_sub;
use jl_types::Table;
use std::alloc::Global;

/// The names of a table and these variables.
fn scope<'a>(table: &'a Table, vars: &'a [VarText<'a>]) -> Scope<'a> {
    Scope {
        table,
        own: "",
        vars,
    }
}

/// How many rows a signature has.
pub fn row_count(alloc: Global, table: &Table, written: &Written) -> Result<String, Halt> {
    let sig = made(alloc, table, written)?;
    let count = sig.get().rows().len();
    drop(sig);
    Ok(format!(in alloc; "{count}")?)
}

/// A signature that is written so, or that of a struct's fields.
fn sig_of(alloc: Global, table: &Table, text: &str) -> Result<SharedNode<Sig>, Halt>
    ensures { IfOk result (λ sig. IsSigOf table.now sig) }
{
    let Some(name) = text.strip_prefix("fields ") else {
        return signature(alloc, table, text);
    };
    let number = plain_scope(table).number(name);
    if number >= table.count() {
        return Err(Halt::Unknown);
    }
    match Sig::of_fields(alloc, table, number) {
        Ok(sig) => Ok(SharedNode::new(alloc, sig)?),
        Err(fault) => Err(Halt::Signature(fault)),
    }
}

/// The rows of a signature.
pub fn rows(alloc: Global, table: &Table, text: &str) -> Result<String, Halt> {
    let vars = variables_in(alloc, text)?;
    let sig = sig_of(alloc, table, text)?;
    let answer = rows_text(alloc, scope(table, vars.as_slice()), sig.get().rows());
    drop(sig);
    Ok(answer?)
}

/// What is kept of a variable of a signature.
fn variable_text(alloc: Global, scope: Scope, sig: &Sig, variable: u32) -> Result<String, Halt> {
    let i = variable as usize;
    let (Some(bound), Some(types)) = (sig.bounds().get(i), sig.alternatives().get(i)) else {
        return Err(Halt::Unknown);
    };
    let name = type_text(alloc, scope, &Ty::Var(variable))?;
    let kind = sig.kind(variable);
    let usable = usable_word(sig.usable(variable));
    let diagonal = match sig.diagonals().get(i) {
        Some(true) => ", diagonal",
        _ => "",
    };
    let low = type_text(alloc, scope, &bound.low)?;
    let high = type_text(alloc, scope, &bound.high)?;
    let types = list_text(alloc, scope, types.as_slice())?;
    Ok(format!(in alloc;
        "; {name} {kind:?}, {usable}{diagonal}, from {low} to {high}, of {types}"
    )?)
}

fn kept_text(alloc: Global, scope: Scope, sig: &Sig) -> Result<String, Halt> {
    let written = list_text(alloc, scope, sig.written().parts.as_slice())?;
    let kept = list_text(alloc, scope, sig.kept().parts.as_slice())?;
    let mut out = format!(in alloc; "{written} as {kept}")?;
    for variable in 0..sig.written().vars.len() {
        let variable = u32::try_from(variable).unwrap_or(u32::MAX);
        let line = variable_text(alloc, scope, sig, variable)?;
        out.push_str(line.as_str())?;
    }
    Ok(out)
}

/// What is kept of a signature: its components as they are written and as they are kept, and its variables.
pub fn keeping(alloc: Global, table: &Table, text: &str) -> Result<String, Halt> {
    let vars = variables_in(alloc, text)?;
    let sig = sig_of(alloc, table, text)?;
    let answer = kept_text(alloc, scope(table, vars.as_slice()), sig.get());
    drop(sig);
    answer
}

/// Whether a body may use a variable.
fn usable_word(is_usable: bool) -> &'static str {
    if is_usable { "usable" } else { "not usable" }
}

/// How each variable of a signature stands in it, and whether a body may use it. The signature may be one that is refused.
pub fn variables(alloc: Global, table: &Table, text: &str) -> Result<String, Halt> {
    let vars = variables_in(alloc, text)?;
    let written = read_signature(alloc, table, text)?;
    let flags = usable_variables(alloc, &written)?;
    let mut out = String::new(alloc);
    for (i, variable) in vars.iter().enumerate() {
        let kind = kind_of(&written, i as u64);
        let is_usable = is_usable(&written, u32::try_from(i).unwrap_or(u32::MAX));
        let word = match flags.get(i) == Some(&is_usable) {
            true => usable_word(is_usable),
            false => "told in two ways",
        };
        let name = variable.name;
        let sign = if i > 0 { "; " } else { "" };
        let line = format!(in alloc; "{sign}{name} {kind:?}, {word}")?;
        out.push_str(line.as_str())?;
    }
    Ok(out)
}

/// What a body gets for the variables of a signature in a call with these types, or none.
pub fn applied(
    alloc: Global,
    table: &Table,
    sig: &Sig,
    types: &[Ty],
    none: &str,
) -> Result<String, Halt>
    requires sig { IsSigOf table.now sig.now }
{
    let forms = arguments(alloc, table, types)?;
    match applies(alloc, table, sig, forms.as_slice())? {
        Some(found) => Ok(list_text(alloc, plain_scope(table), found.as_slice())?),
        None => Ok(format!(in alloc; "{none}")?),
    }
}

/// The same for a signature and types as they are written.
pub fn application(alloc: Global, table: &Table, text: &str) -> Result<String, Halt> {
    let (left, right) = text.split_once(" | ").unwrap_or((text, ""));
    let written = read_signature(alloc, table, left)?;
    let types = read_types(alloc, plain_scope(table), right)?;
    let sig = made(alloc, table, &written)?;
    let answer = applied(alloc, table, sig.get(), types.as_slice(), "none");
    drop(sig);
    answer
}

fn compare(alloc: Global, table: &Table, left: &Sig, right: &Sig) -> Result<&'static str, Halt>
    requires left { IsSigOf table.now left.now }
    requires right { IsSigOf table.now right.now }
{
    let below = sig_sub(alloc, table, left, right)?;
    let above = sig_sub(alloc, table, right, left)?;
    Ok(standing(below, above))
}

/// How two signatures stand to one another, where each may be that of a struct's fields.
pub fn sig_standing(alloc: Global, table: &Table, text: &str) -> Result<&'static str, Halt> {
    let (left, right) = text.split_once(" | ").unwrap_or((text, ""));
    let left = sig_of(alloc, table, left)?;
    let right = match sig_of(alloc, table, right) {
        Ok(right) => right,
        Err(halt) => {
            drop(left);
            return Err(halt);
        }
    };
    let answer = compare(alloc, table, left.get(), right.get());
    drop(left);
    drop(right);
    answer
}

/// A signature that is written so.
pub fn signature(alloc: Global, table: &Table, text: &str) -> Result<SharedNode<Sig>, Halt>
    ensures { IfOk result (λ sig. IsSigOf table.now sig) }
{
    let written = read_signature(alloc, table, text)?;
    let sig = made(alloc, table, &written)?;
    Ok(sig)
}

/// What is said of a type in a body.
pub fn body(alloc: Global, table: &Table, text: &str) -> Result<&'static str, Halt> {
    let written = read_signature(alloc, table, text)?;
    let types = types_in(alloc, &written)?;
    if !are_known(types.as_slice(), u64::from(table.count())) {
        return Err(Halt::Unknown);
    }
    check_type(alloc, table, &written)?;
    Ok("allowed")
}
