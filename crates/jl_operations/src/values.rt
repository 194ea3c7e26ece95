//! Lists of values and of their types.

ghost use Rattle.std.specs.Prelude.{◌≡◌, IfOk, map};
ghost use Rattle.jl_program.specs.Meaning.{datum};
ghost use Rattle.jl_program.specs.TypeOf.{type_of};

use jl_model::ty::Ty;
use jl_program::value::{Value, Values};
use jl_types::Table;
use jl_value::type_of;
use std::alloc::{AllocError, Global};

/// The list of these values, which are shared. One or two values take no memory.
pub fn list_of(alloc: Global, values: &[Value]) -> Result<Values, AllocError>
    ensures { IfOk result (λ list. list ≡ map datum values.now) }
{
    Values::from_slice(alloc, values)
}

/// The types of these values.
pub fn types_of(alloc: Global, table: &Table, values: &[Value]) -> Result<Vec<Ty>, AllocError>
    ensures { IfOk result (λ types. types.items ≡ map type_of values.now) }
{
    let mut types = Vec::new(alloc);
    for value in values {
        types.push(type_of(table, value).copy()?)?;
    }
    Ok(types)
}
