//! What a declaration is kept as: bounds, and arguments of nominal types without variables, become their normal forms, and
//! all else is as written.

ghost use Rattle.std.specs.Prelude.{◌≡◌, ◌+◌, ◌++◌, ◌∷◌, [], IsTrue, OnOk, IfOk, Err, length, map};
ghost use Rattle.std.specs.List.{list_all};
ghost use Rattle.jl_types.specs.declared.normal_form.NormFault.TheVariants.{TypeLimit};
ghost use Rattle.jl_model.specs.declared.ty.Decl.{Decl};
ghost use Rattle.jl_model.specs.Valid.{is_known};
ghost use Rattle.jl_model.specs.Kept.{field_types, AllSettled, Bounds, IsKept};
ghost use Rattle.jl_model.specs.Refusals.{bound_types, is_placed_field, table_with};
ghost use Rattle.jl_norm.specs.Refused.{IsWellWritten};
ghost use Rattle.jl_norm.specs.Large.{SomeTooLarge, SomeKeptTooLarge, IsKeptLimit};

use jl_model::ty::{Bound, Bounds, Decl, Field, Fields};
use jl_types::{NormFault, Table, normal, settled};
use std::alloc::{AllocError, Global};

/// Adds a bound.
fn push_bound(bounds: &mut Vec<Bound>, bound: Bound) -> Result<(), AllocError>
    ensures { OnOk result (bounds.new.items ≡ bounds.old.items ++ bound ∷ []) }
{
    bounds.push(bound)?;
    Ok(())
}

/// Adds a field.
fn push_field(fields: &mut Vec<Field>, field: Field) -> Result<(), AllocError>
    ensures { OnOk result (fields.new.items ≡ fields.old.items ++ field ∷ []) }
{
    fields.push(field)?;
    Ok(())
}

/// The bounds in normal form.
fn keep_bounds(alloc: Global, table: &Table, bounds: &[Bound]) -> Result<Bounds, NormFault>
    requires { IsTrue (list_all (is_known (length table.now)) (bound_types bounds.now)) }
    ensures kept { IfOk result (λ cs. (d : Decl) → Bounds (table_with table.now d) bounds.now cs) }
    ensures limit { result ≡ Err TypeLimit → SomeTooLarge table.now (bound_types bounds.now) }
{
    table.valid();
    let mut kept = Vec::with_capacity(alloc, bounds.len())?;
    for bound in bounds {
        let low = normal(alloc, table, &bound.low)?;
        let high = normal(alloc, table, &bound.high)?;
        push_bound(&mut kept, Bound { low, high })?;
    }
    Ok(Bounds::from_vec(alloc, kept)?)
}

/// The fields, with their types as they are kept.
fn keep_fields(alloc: Global, table: &Table, fields: &[Field]) -> Result<Fields, NormFault>
    requires types_known { IsTrue (list_all (is_known (length table.now + 1)) (field_types fields.now)) }
    requires types_placed { IsTrue (list_all (is_placed_field (length table.now)) (field_types fields.now)) }
    ensures names { IfOk result (λ gs. map (λ f. f.name) gs ≡ map (λ f. f.name) fields.now) }
    ensures kept { IfOk result (λ gs. (d : Decl) → AllSettled (table_with table.now d) (field_types fields.now) (field_types gs)) }
    ensures limit { result ≡ Err TypeLimit → SomeKeptTooLarge table.now (field_types fields.now) }
{
    let mut kept = Vec::with_capacity(alloc, fields.len())?;
    for field in fields {
        let ty = settled(alloc, table, &field.ty)?;
        let name = field.name.copy()?;
        push_field(&mut kept, Field { name, ty })?;
    }
    Ok(Fields::from_vec(alloc, kept)?)
}

/// What a well written declaration is kept as.
pub fn keep(alloc: Global, table: &Table, decl: &Decl) -> Result<Decl, NormFault>
    requires { IsWellWritten table.now decl.now }
    ensures kept { IfOk result (λ e. IsKept (table_with table.now decl.now) decl.now e) }
    ensures limit { result ≡ Err TypeLimit → IsKeptLimit table.now decl.now }
{
    table.valid();
    let params = keep_bounds(alloc, table, decl.params.as_slice())?;
    let parent = settled(alloc, table, &decl.parent)?;
    let fields = keep_fields(alloc, table, decl.fields.as_slice())?;
    Ok(Decl {
        name: decl.name.copy()?,
        kind: decl.kind,
        params,
        parent,
        fields,
    })
}
