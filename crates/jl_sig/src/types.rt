//! The types in a signature, one after another.

ghost use Rattle.std.specs.Prelude.{◌≡◌, ◌++◌, OnOk, IfOk};
ghost use Rattle.jl_model.specs.Refusals.{bound_types};
ghost use Rattle.jl_model.specs.SigRefusals.{types_in};

use jl_model::ty::{Bound, Ty, Written};
use jl_types::expand::push_copies;
use std::alloc::{AllocError, Global};

/// Adds both bounds of each variable.
fn push_bounds(types: &mut Vec<Ty>, bounds: &[Bound]) -> Result<(), AllocError>
    ensures { OnOk result (types.new.items ≡ types.old.items ++ bound_types bounds.now) }
{
    for bound in bounds {
        types.push(bound.low.copy()?)?;
        types.push(bound.high.copy()?)?;
    }
    Ok(())
}

/// Both bounds of each variable.
pub fn bound_types(alloc: Global, bounds: &[Bound]) -> Result<Vec<Ty>, AllocError>
    ensures { IfOk result (λ types. types.items ≡ bound_types bounds.now) }
{
    let mut types = Vec::new(alloc);
    push_bounds(&mut types, bounds)?;
    Ok(types)
}

/// Both bounds of each variable, and then the components.
pub fn types_in(alloc: Global, written: &Written) -> Result<Vec<Ty>, AllocError>
    ensures { IfOk result (λ types. types.items ≡ types_in written.now) }
{
    let mut types = Vec::new(alloc);
    push_bounds(&mut types, written.vars.as_slice())?;
    push_copies(&mut types, written.parts.as_slice())?;
    Ok(types)
}
