//! The types in a declaration.

ghost use Rattle.std.specs.Prelude.{◌≡◌, ◌++◌, OnOk, IfOk};
ghost use Rattle.jl_model.specs.Kept.{field_types};
ghost use Rattle.jl_model.specs.Refusals.{bound_types, types_of};

use jl_model::ty::{Bound, Decl, Field, Ty};
use std::alloc::{AllocError, Global};

/// Adds the types of these bounds.
#[tactic(auto, using(crate::proofs::SizeLemmas::sizes))]
fn push_bounds(types: &mut Vec<Ty>, bounds: &[Bound]) -> Result<(), AllocError>
    ensures { OnOk result (types.new.items ≡ types.old.items ++ bound_types bounds.now) }
{
    for bound in bounds {
        types.push(bound.low.copy()?)?;
        types.push(bound.high.copy()?)?;
    }
    Ok(())
}

/// Adds the types of these fields.
#[tactic(auto, using(crate::proofs::SizeLemmas::sizes))]
fn push_fields(types: &mut Vec<Ty>, fields: &[Field]) -> Result<(), AllocError>
    ensures { OnOk result (types.new.items ≡ types.old.items ++ field_types fields.now) }
{
    types.reserve(fields.len())?;
    for field in fields {
        types.push(field.ty.copy()?)?;
    }
    Ok(())
}

/// The types in a declaration: its bounds, its parent and the types of its fields.
pub fn types_in(alloc: Global, decl: &Decl) -> Result<Vec<Ty>, AllocError>
    ensures { IfOk result (λ types. types.items ≡ types_of decl.now) }
{
    let mut types = Vec::new(alloc);
    push_bounds(&mut types, decl.params.as_slice())?;
    types.push(decl.parent.copy()?)?;
    push_fields(&mut types, decl.fields.as_slice())?;
    Ok(types)
}
