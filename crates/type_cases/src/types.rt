//! The answers about types and their declarations.

ghost use Rattle.std.specs.Prelude.{IsTrue, length};
ghost use Rattle.jl_model.specs.Valid.{is_known};
ghost use Rattle.jl_types.specs.Ground.{IsGround};

use crate::halt::Halt;
use crate::heads::read_declaration;
use crate::reading::{Scope, read_type, read_types};
use crate::ready::form_of;
use crate::writing::{declaration_text, list_text, type_text};
use jl_model::ty::{DeclKind, Ty};
use jl_norm::known::is_known;
use jl_norm::{declare, has_own_variables, norm};
use jl_search::find::{first_argument, lifted};
use jl_search::occurs::all_lack;
use jl_types::count::nodes_within;
use jl_types::same::same;
use jl_types::{Table, ground_sub};
use std::alloc::Global;

/// More nodes than any normal form has.
const MOST_NODES: u64 = 5_000;

/// The names of a table, without variables.
pub fn plain_scope<'a>(table: &'a Table) -> Scope<'a> {
    Scope {
        table,
        own: "",
        vars: &[],
    }
}

/// Declares a type, and gives its number.
pub fn declared(
    alloc: Global,
    table: &mut Table,
    kind: DeclKind,
    text: &str,
) -> Result<String, Halt> {
    let decl = read_declaration(alloc, table, kind, text)?;
    if !has_own_variables(alloc, &decl)? {
        return Err(Halt::Unknown);
    }
    match declare(alloc, table, decl) {
        Ok(number) => Ok(format!(in alloc; "{number}")?),
        Err(fault) => Err(Halt::Declaration(fault)),
    }
}

/// What a table keeps of a type: its parent and its fields.
pub fn kept(alloc: Global, table: &Table, name: &str) -> Result<String, Halt> {
    let scope = plain_scope(table);
    let number = scope.number(name);
    if number >= table.count() {
        return Err(Halt::Unknown);
    }
    Ok(declaration_text(alloc, scope, table.decl(number))?)
}

/// All names of a table, in order.
pub fn names(alloc: Global, table: &Table) -> Result<String, Halt> {
    let mut types = Vec::new(alloc);
    for number in 0..table.count() {
        types.push(Ty::Nominal(number, jl_model::ty::Tys::empty()))?;
    }
    Ok(list_text(alloc, plain_scope(table), types.as_slice())?)
}

/// The normal form of a type.
pub fn normal_form(alloc: Global, table: &Table, ty: &Ty) -> Result<String, Halt> {
    let form = form_of(alloc, table, ty)?;
    let text = type_text(alloc, plain_scope(table), &form);
    drop(form);
    Ok(text?)
}

/// How many nodes the normal form of a type has.
pub fn node_count(alloc: Global, table: &Table, text: &str) -> Result<String, Halt> {
    let ty = read_type(alloc, plain_scope(table), text)?;
    let form = form_of(alloc, table, &ty);
    drop(ty);
    let form = form?;
    let count = nodes_within(&form, MOST_NODES);
    drop(form);
    Ok(format!(in alloc; "{count}")?)
}

/// Whether the first type is below the second, and whether both have one normal form.
#[derive(Clone, Copy, Drop)]
pub struct Pair {
    pub is_below: bool,
    pub is_same: bool,
}

/// How a normal form stands to a type.
fn pair_with(alloc: Global, table: &Table, form: &Ty, ty: &Ty) -> Result<Pair, Halt>
    requires form { IsGround table.now form.now }
    requires ty { IsTrue (is_known (length table.now) ty.now) }
{
    let other = norm(alloc, table, ty)?;
    let pair = Pair {
        is_below: ground_sub(table, form, &other),
        is_same: same(form, &other),
    };
    drop(other);
    Ok(pair)
}

/// How a type stands to another.
pub fn pair_of(alloc: Global, table: &Table, a: &Ty, b: &Ty) -> Result<Pair, Halt> {
    let count = u64::from(table.count());
    if !is_known(a, count) || !is_known(b, count) {
        return Err(Halt::Unknown);
    }
    let a = norm(alloc, table, a)?;
    let pair = pair_with(alloc, table, &a, b);
    drop(a);
    pair
}

/// The word for two that are below one another or not.
pub fn standing(is_below: bool, is_above: bool) -> &'static str {
    match (is_below, is_above) {
        (true, true) => "the same",
        (true, false) => "below",
        (false, true) => "above",
        (false, false) => "neither",
    }
}

fn compare(alloc: Global, table: &Table, left: &Ty, right: &Ty) -> Result<&'static str, Halt> {
    let below = pair_of(alloc, table, left, right)?;
    let above = pair_of(alloc, table, right, left)?;
    Ok(standing(below.is_below, above.is_below))
}

/// How a type stands to one that is read.
fn standing_to(alloc: Global, table: &Table, left: &Ty, right: &str) -> Result<&'static str, Halt> {
    let right = read_type(alloc, plain_scope(table), right)?;
    let answer = compare(alloc, table, left, &right);
    drop(right);
    answer
}

/// How two types stand to one another.
pub fn type_standing(alloc: Global, table: &Table, text: &str) -> Result<&'static str, Halt> {
    let (left, right) = text.split_once(" | ").unwrap_or((text, ""));
    let left = read_type(alloc, plain_scope(table), left)?;
    let answer = standing_to(alloc, table, &left, right);
    drop(left);
    answer
}

/// The arguments of a type or of its ancestor, or none.
pub fn above(alloc: Global, table: &Table, text: &str) -> Result<String, Halt> {
    let (left, name) = text.split_once(" | ").unwrap_or((text, ""));
    let ty = read_type(alloc, plain_scope(table), left)?;
    let answer = above_type(alloc, table, &ty, name);
    drop(ty);
    answer
}

/// The arguments of a type or of its ancestor of this name, or none.
fn above_type(alloc: Global, table: &Table, ty: &Ty, name: &str) -> Result<String, Halt> {
    let scope = plain_scope(table);
    let Ty::Nominal(number, arguments) = ty else {
        return Err(Halt::Unknown);
    };
    if *number >= table.count() {
        return Err(Halt::Unknown);
    }
    match lifted(alloc, table, *number, arguments, scope.number(name))? {
        Some(found) => Ok(list_text(alloc, scope, found.as_slice())?),
        None => Ok(format!(in alloc; "none")?),
    }
}

/// What stands at the first place of a variable among arguments, where types stand for patterns; or none.
pub fn found(alloc: Global, table: &Table, text: &str) -> Result<String, Halt> {
    let scope = plain_scope(table);
    let (number, lists) = text.split_once(' ').unwrap_or((text, ""));
    let (patterns, types) = lists.split_once(" | ").unwrap_or((lists, ""));
    let patterns = read_types(alloc, scope, patterns)?;
    let types = read_types(alloc, scope, types)?;
    let variable = number.parse::<usize>().unwrap_or(0);
    match first_argument(variable, patterns.as_slice(), types.as_slice())? {
        Some(ty) => {
            let text = type_text(alloc, scope, &ty);
            drop(ty);
            Ok(text?)
        }
        None => Ok(format!(in alloc; "none")?),
    }
}

/// Of a width and a type with variables and atoms: which of the variables do not stand in it.
pub fn lacking(alloc: Global, table: &Table, text: &str) -> Result<String, Halt> {
    let (number, types) = text.split_once(' ').unwrap_or((text, ""));
    let types = read_types(alloc, plain_scope(table), types)?;
    let width = number.parse::<usize>().unwrap_or(1).clamp(1, 64);
    let mut out = String::new(alloc);
    for variable in 0..width {
        out.push_str(if all_lack(width, variable, types.as_slice()) {
            "1"
        } else {
            "0"
        })?;
    }
    Ok(out)
}
