//! Whether values are of their fields' types. The type of a value is concrete, so that a union is taken member by member and a
//! tuple part by part.

ghost use Rattle.std.specs.Prelude.{◌≡◌, IsTrue, ◌↔◌, IfOk, [], map};
ghost use Rattle.jl_model.specs.declared.ty.Ty.TheViews as V;
ghost use Rattle.jl_model.specs.Ancestors.{table_of};
ghost use Rattle.jl_model.specs.Members.{BelowSome};
ghost use Rattle.jl_model.specs.Normal.{is_single};
ghost use Rattle.jl_model.specs.Signature.{Both};
ghost use Rattle.jl_model.specs.Subtype.{opaque, put, at, Below};
ghost use Rattle.jl_types.specs.Ground.{IsGround, AreSingles};
ghost use Rattle.jl_value.specs.Fields.{IsFieldType, AreFieldTypes, AreArguments};

use jl_model::ty::Ty;
use jl_types::put::put_all;
use jl_types::same::same_all_put;
use jl_types::{Table, ground_sub};
use std::alloc::{AllocError, Global};

/// Whether a nominal type is below one of another name that has no arguments: whether that is among its ancestors.
fn is_of_plain(table: &Table, of: u32, xs: &[Ty], name: u32) -> bool
    requires lower { IsGround table.now (V.Nominal of xs.now) }
    requires upper { IsGround table.now (V.Nominal name []) }
    requires other { of ≡ name → ⊥ }
    ensures { IsTrue result ↔ Below (table_of table.now) opaque (V.Nominal of xs.now) (V.Nominal name []) }
{
    table.valid();
    match table.up(of, name) {
        Some(above) => above.len() == 0,
        None => false,
    }
}

/// Whether a type that is no union is below a nominal type, with the arguments put in. Memory is taken only where the first is
/// another nominal type and the second has arguments: a nominal type is below one of the same name where the arguments are the same.
fn is_of_nominal(
    alloc: Global,
    table: &Table,
    lower: &Ty,
    name: u32,
    parts: &[Ty],
    args: &[Ty],
) -> Result<bool, AllocError>
    requires lower_ground { IsGround table.now lower.now }
    requires lower_single { IsTrue (is_single lower.now) }
    requires field_kept { IsFieldType table.now (V.Nominal name parts.now) }
    requires args_ground { AreArguments table.now args.now }
    ensures { IfOk result (λ r. IsTrue r ↔ Below (table_of table.now) opaque lower.now (V.Nominal name (map (put (at args.now)) parts.now))) }
{
    table.valid();
    match lower {
        Ty::Nominal(of, xs) => {
            if *of == name {
                return Ok(same_all_put(parts, args, xs.as_slice()));
            }
            if parts.is_empty() {
                return Ok(is_of_plain(table, *of, xs.as_slice(), name));
            }
            let upper = Ty::Nominal(name, put_all(alloc, parts, args)?);
            Ok(ground_sub(table, lower, &upper))
        }
        _ => Ok(false),
    }
}

/// Whether a type is below some of these, with the arguments put in.
#[cycle(field)]
fn is_of_some(
    alloc: Global,
    table: &Table,
    lower: &Ty,
    members: &[Ty],
    args: &[Ty],
) -> Result<bool, AllocError>
    requires lower_ground { IsGround table.now lower.now }
    requires lower_single { IsTrue (is_single lower.now) }
    requires members_kept { AreFieldTypes table.now members.now }
    requires args_ground { AreArguments table.now args.now }
    ensures { IfOk result (λ r. IsTrue r ↔ BelowSome (table_of table.now) lower.now (map (put (at args.now)) members.now)) }
{
    for member in members {
        if is_of(alloc, table, lower, member, args)? {
            return Ok(true);
        }
    }
    Ok(false)
}

/// Whether each type is below the one in its place, with the arguments put in.
#[cycle(field)]
fn are_of(
    alloc: Global,
    table: &Table,
    lowers: &[Ty],
    parts: &[Ty],
    args: &[Ty],
) -> Result<bool, AllocError>
    requires lowers_ground { AreSingles table.now lowers.now }
    requires parts_kept { AreFieldTypes table.now parts.now }
    requires args_ground { AreArguments table.now args.now }
    ensures { IfOk result (λ r. IsTrue r ↔ Both (Below (table_of table.now) opaque) lowers.now (map (put (at args.now)) parts.now)) }
{
    if parts.len() != lowers.len() {
        return Ok(false);
    }
    for (i, part) in parts.iter().enumerate() {
        if !is_of(alloc, table, &lowers[i], part, args)? {
            return Ok(false);
        }
    }
    Ok(true)
}

/// Whether a type that is no union is below a field's type, with the arguments put in. Memory is taken only where a nominal
/// type is compared with one of another name that has arguments.
#[cycle(field)]
pub fn is_of(
    alloc: Global,
    table: &Table,
    lower: &Ty,
    field: &Ty,
    args: &[Ty],
) -> Result<bool, AllocError>
    requires lower_ground { IsGround table.now lower.now }
    requires lower_single { IsTrue (is_single lower.now) }
    requires field_kept { IsFieldType table.now field.now }
    requires args_ground { AreArguments table.now args.now }
    ensures { IfOk result (λ r. IsTrue r ↔ Below (table_of table.now) opaque lower.now (put (at args.now) field.now)) }
{
    match field {
        Ty::Any => Ok(true),
        Ty::Union(members) => is_of_some(alloc, table, lower, members.as_slice(), args),
        Ty::Tuple(parts) => match lower {
            Ty::Tuple(lowers) => are_of(alloc, table, lowers.as_slice(), parts.as_slice(), args),
            _ => Ok(false),
        },
        Ty::Nominal(name, parts) => is_of_nominal(
            alloc,
            table,
            lower,
            *name,
            parts.as_slice(),
            args,
        ),
        Ty::Var(variable) => match args.get(*variable as usize) {
            Some(argument) => Ok(ground_sub(table, lower, argument)),
            None => Ok(true),
        },
    }
}
