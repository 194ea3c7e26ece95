//! Whether the types of a declaration and its ancestors are within the limits of a type.

ghost use Rattle.std.specs.Prelude.{◌≡◌, ◌∷◌, IsTrue, ◌↔◌, IfOk, OnErr, [], map, get_or};
ghost use Rattle.jl_model.specs.declared.ty.Ty.TheViews as V;
ghost use Rattle.jl_model.specs.Ancestors.{put_under, lines_after};
ghost use Rattle.jl_model.specs.Counts.{IsWithinLimits};
ghost use Rattle.jl_model.specs.Kept.{field_types};
ghost use Rattle.jl_model.specs.Refusals.{bound_types, ancestors, AllWithinLimits, types_of, sized_types};
ghost use Rattle.jl_types.specs.Lines.{line_in};

use jl_model::limits::MOST_TYPE_NODES;
use jl_model::ty::{Bound, Decl, Field, Ty};
use jl_types::Table;
use jl_types::ancestor::Ancestor;
use jl_types::count::nodes_within;
use jl_types::put::put_all;
use jl_types::raw::alternatives_within;
use std::alloc::{AllocError, Global};

/// Whether a type has at most 1,024 nodes, and no part with more than 256 raw alternatives.
pub fn is_within(ty: &Ty) -> bool
    ensures { IsTrue result ↔ IsWithinLimits ty.now }
{
    nodes_within(ty, MOST_TYPE_NODES) <= MOST_TYPE_NODES && alternatives_within(ty).is_some()
}

/// Whether the bounds are.
fn are_bounds_within(bounds: &[Bound]) -> bool
    ensures { IsTrue result ↔ AllWithinLimits (bound_types bounds.now) }
{
    for bound in bounds {
        if !is_within(&bound.low) || !is_within(&bound.high) {
            return false;
        }
    }
    true
}

/// Whether the types of fields are.
fn are_fields_within(fields: &[Field]) -> bool
    ensures { IsTrue result ↔ AllWithinLimits (field_types fields.now) }
{
    for field in fields {
        if !is_within(&field.ty) {
            return false;
        }
    }
    true
}

/// Whether these ancestors are, with the arguments put in.
fn are_ancestors_within(alloc: Global, line: &[Ancestor], args: &[Ty]) -> Result<bool, AllocError>
    ensures { IfOk result (λ b. IsTrue b ↔ AllWithinLimits (map (λ a. V.Nominal a.name a.args) (map (put_under args.now) (line_in line.now)))) }
{
    for ancestor in line {
        let args = put_all(alloc, ancestor.args.as_slice(), args)?;
        if !is_within(&Ty::Nominal(ancestor.name, args)) {
            return Ok(false);
        }
    }
    Ok(true)
}

/// Whether all ancestors of a declaration are.
fn is_line_within(alloc: Global, table: &Table, decl: &Decl) -> Result<bool, AllocError>
    ensures { IfOk result (λ b. IsTrue b ↔ AllWithinLimits (map (λ a. V.Nominal a.name a.args) (ancestors table.now decl.now))) }
{
    match &decl.parent {
        Ty::Nominal(name, args) => {
            if *name < table.count() {
                return are_ancestors_within(alloc, table.line(*name), args.as_slice());
            }
            Ok(true)
        }
        _ => Ok(true),
    }
}

/// Whether the types in a declaration are.
fn are_types_within(decl: &Decl) -> bool
    ensures { IsTrue result ↔ AllWithinLimits (types_of decl.now) }
{
    if !are_bounds_within(decl.params.as_slice()) {
        return false;
    }
    if !is_within(&decl.parent) {
        return false;
    }
    are_fields_within(decl.fields.as_slice())
}

/// Whether the types in a declaration and its ancestors are.
pub fn is_sized(alloc: Global, table: &Table, decl: &Decl) -> Result<bool, AllocError>
    ensures sized { IfOk result (λ b. IsTrue b ↔ AllWithinLimits (sized_types table.now decl.now)) }
    ensures written { OnErr result (AllWithinLimits (types_of decl.now)) }
{
    if !are_types_within(decl) {
        return Ok(false);
    }
    is_line_within(alloc, table, decl)
}
