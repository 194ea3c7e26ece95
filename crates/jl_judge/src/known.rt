//! Whether a written type names only types of the table.

ghost use Rattle.std.specs.Prelude.{◌≡◌, IfOk};
ghost use Rattle.jl_judge.specs.Tests.{names_declared};

use jl_model::ty::Written;
use jl_norm::known::are_known;
use jl_sig::types::types_in;
use jl_types::Table;
use std::alloc::{AllocError, Global};

/// Whether each nominal type in a written type or signature is one of the table.
pub fn names_declared(alloc: Global, table: &Table, written: &Written) -> Result<bool, AllocError>
    ensures { IfOk result (λ b. b ≡ names_declared table.now written.now) }
{
    let types = types_in(alloc, written)?;
    Ok(are_known(types.as_slice(), u64::from(table.count())))
}
