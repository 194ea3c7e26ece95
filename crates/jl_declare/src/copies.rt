//! Copies of bounds, which share their parts.

ghost use Rattle.std.specs.Prelude.{◌≡◌, IfOk};

use jl_model::shared::SharedList;
use jl_model::ty::{Bound, Bounds};
use std::alloc::{AllocError, Global};

/// An equal bound.
fn copy_bound(bound: &Bound) -> Result<Bound, AllocError>
    ensures { IfOk result (λ b. b ≡ bound.now) }
{
    Ok(Bound {
        low: bound.low.copy()?,
        high: bound.high.copy()?,
    })
}

/// Equal bounds.
pub fn copy_bounds(alloc: Global, bounds: &[Bound]) -> Result<Bounds, AllocError>
    ensures { IfOk result (λ bs. bs ≡ bounds.now) }
{
    let mut out = Vec::new(alloc);
    for bound in bounds {
        out.push(copy_bound(bound)?)?;
    }
    SharedList::from_vec(alloc, out)
}
