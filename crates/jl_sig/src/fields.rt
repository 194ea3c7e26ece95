//! The types of a struct's fields as a signature is written.

ghost use Rattle.std.specs.Prelude.{◌≡◌, ◌<◌, IfOk, length};
ghost use Rattle.jl_model.specs.Kept.{field_types};
ghost use Rattle.jl_program.specs.BodyTypes.{fields_written};
ghost use Rattle.jl_sig.specs.Fields.{fields_of};

use jl_model::ty::{Decl, Field, Tys, Written};
use jl_types::Table;
use std::alloc::{AllocError, Global};

/// The types of fields.
fn field_types(alloc: Global, fields: &[Field]) -> Result<Tys, AllocError>
    ensures { IfOk result (λ ts. ts ≡ field_types fields.now) }
{
    let mut types = Vec::new(alloc);
    for field in fields {
        types.push(field.ty.copy()?)?;
    }
    let types = Tys::from_vec(alloc, types)?;
    Ok(types)
}

/// The types of a declaration's fields, and its parameters as variables.
pub fn fields_written(alloc: Global, decl: &Decl) -> Result<Written, AllocError>
    ensures { IfOk result (λ written. written ≡ fields_written decl.now) }
{
    let vars = decl.params.copy()?;
    let parts = field_types(alloc, decl.fields.as_slice())?;
    Ok(Written { vars, parts })
}

/// The same of the type of this number.
pub fn fields_of(alloc: Global, table: &Table, name: u32) -> Result<Written, AllocError>
    requires { name < length table.now }
    ensures { IfOk result (λ written. written ≡ fields_of table.now name) }
{
    let written = fields_written(alloc, table.decl(name))?;
    Ok(written)
}
