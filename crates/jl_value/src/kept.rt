//! The types of values.

ghost use Rattle.std.specs.Prelude.{◌≡◌};
ghost use Rattle.jl_program.specs.TypeOf.{type_of};

use jl_model::builtin::{BOOL, INT64, NOTHING, TASK};
use jl_model::ty::Ty;
use jl_program::value::Value;
use jl_types::Table;

/// The concrete type of a value. It takes no memory, and costs the same whatever the value: a tuple and a struct keep their
/// type, and the table has the built-in ones.
pub fn type_of<'a>(table: &'a Table, value: &'a Value) -> &'a Ty
    ensures { result.now ≡ type_of value.now }
{
    match value {
        Value::Int(_) => table.builtin(INT64),
        Value::Bool(_) => table.builtin(BOOL),
        Value::Nothing => table.builtin(NOTHING),
        Value::Task(_) => table.builtin(TASK),
        Value::Tuple(made) | Value::Struct(made) => &made.get().ty,
    }
}
