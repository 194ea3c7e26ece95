//! Whether an argument without variables is outside the bounds that are declared for its place.

ghost use Rattle.std.specs.Prelude.{◌≡◌, ◌<◌, ◌≤◌, ◌↔◌, ◌∷◌, [], IsTrue, IfOk, Err, length, true, false};
ghost use Rattle.std.specs.List.{list_all};
ghost use Rattle.jl_model.specs.declared.ty.Ty.TheViews as V;
ghost use Rattle.jl_model.specs.Rows.{free};
ghost use Rattle.jl_model.specs.Ancestors.{table_of};
ghost use Rattle.jl_model.specs.Members.{BelowSome};
ghost use Rattle.jl_model.specs.Kept.{IsKept};
ghost use Rattle.jl_model.specs.Normal.{AllNormal};
ghost use Rattle.jl_model.specs.Subtype.{opaque, Below};
ghost use Rattle.jl_model.specs.Valid.{is_known, is_closed};
ghost use Rattle.jl_model.specs.Refusals.{table_with, is_free_of, HasLargeForm};
ghost use Rattle.jl_types.specs.declared.normal_form.NormFault.TheVariants.{TypeLimit};
ghost use Rattle.jl_types.specs.Ground.{IsGround};
ghost use Rattle.jl_norm.specs.Judged.{IsArgument, IsJudged, IsGroundBound, Judged, SomeLarge};
ghost use Rattle.jl_norm.specs.Refused.{IsWellWritten};

use crate::counted::bounds_of;
use crate::places::is_free;
use jl_model::ty::{Bound, Decl, Ty, Tys};
use jl_types::closed::is_closed;
use jl_types::put::put_all;
use jl_types::same::{same_all, same_all_put};
use jl_types::{NormFault, Table, ground_sub, normal, settled};
use std::alloc::{AllocError, Global};

/// Whether a type is the empty union.
fn is_bottom(ty: &Ty) -> bool
    ensures { IsTrue result ↔ (ty.now ≡ V.Union []) }
{
    match ty {
        Ty::Union(members) => members.len() == 0,
        _ => false,
    }
}

/// Whether an ancestor of the new type, with these arguments, is this one. Its line is that of the parent that is kept.
fn is_parent_below(
    alloc: Global,
    table: &Table,
    decl: &Decl,
    kept: &Decl,
    arguments: &[Ty],
    upper: u32,
    uppers: &[Ty],
) -> Result<bool, AllocError>
    requires written { IsWellWritten table.now decl.now }
    requires is_kept { IsKept (table_with table.now decl.now) decl.now kept.now }
    requires lowers_normal { AllNormal (table_with table.now decl.now) arguments.now }
    requires uppers_normal { AllNormal (table_of table.now) uppers.now }
    requires uppers_known { IsTrue (list_all (is_known (length table.now)) uppers.now) }
    requires known { upper < length table.now }
    ensures { IfOk result (λ b. IsTrue b ↔ Below (table_with table.now decl.now) opaque (V.Nominal (length table.now) arguments.now) (V.Nominal upper uppers.now)) }
{
    table.valid();
    match &kept.parent {
        Ty::Nominal(parent, given) => match table.up(*parent, upper) {
            None => Ok(false),
            Some(args) => {
                let lifted = put_all(alloc, given.as_slice(), arguments)?;
                Ok(same_all_put(args.as_slice(), lifted.as_slice(), uppers))
            }
        },
        _ => Ok(false),
    }
}

/// Whether a nominal type, which may be the new type, is below one that is declared.
fn is_nominal_below(
    alloc: Global,
    table: &Table,
    decl: &Decl,
    kept: &Decl,
    name: u32,
    arguments: &[Ty],
    upper: u32,
    uppers: &[Ty],
) -> Result<bool, AllocError>
    requires written { IsWellWritten table.now decl.now }
    requires is_kept { IsKept (table_with table.now decl.now) decl.now kept.now }
    requires name_known { name ≤ length table.now }
    requires lowers_normal { AllNormal (table_with table.now decl.now) arguments.now }
    requires uppers_normal { AllNormal (table_of table.now) uppers.now }
    requires uppers_known { IsTrue (list_all (is_known (length table.now)) uppers.now) }
    requires known { upper < length table.now }
    ensures { IfOk result (λ b. IsTrue b ↔ Below (table_with table.now decl.now) opaque (V.Nominal name arguments.now) (V.Nominal upper uppers.now)) }
{
    table.valid();
    if name == upper {
        return Ok(same_all(arguments, uppers));
    }
    if name == table.count() {
        return is_parent_below(alloc, table, decl, kept, arguments, upper, uppers);
    }
    match table.up(name, upper) {
        None => Ok(false),
        Some(args) => Ok(same_all_put(args.as_slice(), arguments, uppers)),
    }
}

/// Whether a nominal type, in which the new type may stand, is below one of these.
#[cycle(next)]
fn is_some_above(
    alloc: Global,
    table: &Table,
    decl: &Decl,
    kept: &Decl,
    name: u32,
    arguments: &[Ty],
    uppers: &[Ty],
) -> Result<bool, AllocError>
    requires written { IsWellWritten table.now decl.now }
    requires is_kept { IsKept (table_with table.now decl.now) decl.now kept.now }
    requires name_known { name ≤ length table.now }
    requires lowers_normal { AllNormal (table_with table.now decl.now) arguments.now }
    requires uppers_normal { AllNormal (table_of table.now) uppers.now }
    requires uppers_known { IsTrue (list_all (is_known (length table.now)) uppers.now) }
    ensures { IfOk result (λ b. IsTrue b ↔ BelowSome (table_with table.now decl.now) (V.Nominal name arguments.now) uppers.now) }
{
    match uppers {
        [] => Ok(false),
        [first, rest @ ..] => {
            if is_above(alloc, table, decl, kept, name, arguments, first)? {
                return Ok(true);
            }
            is_some_above(alloc, table, decl, kept, name, arguments, rest)
        }
    }
}

/// Whether a nominal type, in which the new type may stand, is below a type without it.
#[cycle(next)]
fn is_above(
    alloc: Global,
    table: &Table,
    decl: &Decl,
    kept: &Decl,
    name: u32,
    arguments: &[Ty],
    upper: &Ty,
) -> Result<bool, AllocError>
    requires written { IsWellWritten table.now decl.now }
    requires is_kept { IsKept (table_with table.now decl.now) decl.now kept.now }
    requires name_known { name ≤ length table.now }
    requires lowers_normal { AllNormal (table_with table.now decl.now) arguments.now }
    requires upper_ground { IsGround table.now upper.now }
    ensures { IfOk result (λ b. IsTrue b ↔ Below (table_with table.now decl.now) opaque (V.Nominal name arguments.now) upper.now) }
{
    match upper {
        Ty::Any => Ok(true),
        Ty::Union(members) => is_some_above(
            alloc,
            table,
            decl,
            kept,
            name,
            arguments,
            members.as_slice(),
        ),
        Ty::Nominal(of, uppers) => is_nominal_below(
            alloc,
            table,
            decl,
            kept,
            name,
            arguments,
            *of,
            uppers.as_slice(),
        ),
        _ => Ok(false),
    }
}

/// Whether an argument in which the new type stands is outside these bounds. Of the types without it only the empty union is
/// below such a type.
fn is_own_outside(
    alloc: Global,
    table: &Table,
    decl: &Decl,
    kept: &Decl,
    bound: &Bound,
    ty: &Ty,
) -> Result<bool, NormFault>
    requires written { IsWellWritten table.now decl.now }
    requires is_kept { IsKept (table_with table.now decl.now) decl.now kept.now }
    requires bound_ground { IsGroundBound table.now bound.now }
    requires argument { IsArgument table.now decl.now ty.now }
    requires closed { IsTrue (is_closed ty.now) }
    requires own { is_free_of (length table.now) ty.now ≡ false }
    ensures judged { IfOk result (λ b. IsJudged table.now decl.now bound.now ty.now b) }
    ensures limit { result ≡ Err TypeLimit → HasLargeForm (table_with table.now decl.now) ty.now }
{
    table.valid();
    let form = settled(alloc, table, ty)?;
    match &form {
        Ty::Nominal(name, arguments) => {
            if !is_bottom(&bound.low) {
                return Ok(true);
            }
            let is_below = is_above(
                alloc,
                table,
                decl,
                kept,
                *name,
                arguments.as_slice(),
                &bound.high,
            )?;
            Ok(!is_below)
        }
        _ => Ok(false),
    }
}

/// Whether an argument without the new type is outside these bounds.
fn is_form_outside(
    alloc: Global,
    table: &Table,
    decl: &Decl,
    bound: &Bound,
    ty: &Ty,
) -> Result<bool, NormFault>
    requires written { IsWellWritten table.now decl.now }
    requires bound_ground { IsGroundBound table.now bound.now }
    requires argument { IsArgument table.now decl.now ty.now }
    requires free { is_free_of (length table.now) ty.now ≡ true }
    ensures judged { IfOk result (λ b. IsJudged table.now decl.now bound.now ty.now b) }
    ensures limit { result ≡ Err TypeLimit → HasLargeForm (table_with table.now decl.now) ty.now }
{
    table.valid();
    let form = normal(alloc, table, ty)?;
    if !ground_sub(table, &bound.low, &form) {
        return Ok(true);
    }
    Ok(!ground_sub(table, &form, &bound.high))
}

/// Whether a type without variables is outside these bounds.
fn is_outside(
    alloc: Global,
    table: &Table,
    decl: &Decl,
    kept: &Decl,
    bound: &Bound,
    ty: &Ty,
) -> Result<bool, NormFault>
    requires written { IsWellWritten table.now decl.now }
    requires is_kept { IsKept (table_with table.now decl.now) decl.now kept.now }
    requires bound_ground { IsGroundBound table.now bound.now }
    requires argument { IsArgument table.now decl.now ty.now }
    requires closed { IsTrue (is_closed ty.now) }
    ensures judged { IfOk result (λ b. IsJudged table.now decl.now bound.now ty.now b) }
    ensures limit { result ≡ Err TypeLimit → HasLargeForm (table_with table.now decl.now) ty.now }
{
    if is_free(ty, table.count()) {
        return is_form_outside(alloc, table, decl, bound, ty);
    }
    is_own_outside(alloc, table, decl, kept, bound, ty)
}

/// Whether an argument of a nominal type is one without variables, and outside the bounds of its place.
pub fn is_place_outside(
    alloc: Global,
    table: &Table,
    decl: &Decl,
    kept: &Decl,
    name: u32,
    place: usize,
    ty: &Ty,
) -> Result<bool, NormFault>
    requires written { IsWellWritten table.now decl.now }
    requires is_kept { IsKept (table_with table.now decl.now) decl.now kept.now }
    requires argument { IsArgument table.now decl.now ty.now }
    ensures judged { IfOk result (λ b. Judged table.now decl.now (record { of = name; place = place; ty = ty.now } ∷ []) b) }
    ensures limit { result ≡ Err TypeLimit → SomeLarge table.now decl.now (record { of = name; place = place; ty = ty.now } ∷ []) }
{
    table.valid();
    if !is_closed(ty) {
        return Ok(false);
    }
    let bounds = bounds_of(table, kept, name);
    if place < bounds.len() {
        return is_outside(alloc, table, decl, kept, &bounds[place], ty);
    }
    is_outside(alloc, table, decl, kept, &no_bounds(), ty)
}

/// The bounds of a place that has none.
fn no_bounds() -> Bound
    ensures { result ≡ free }
{
    Bound {
        low: Ty::Union(Tys::empty()),
        high: Ty::Any,
    }
}
