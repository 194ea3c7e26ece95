//! The texts of faults, and the line that tells one.

ghost use Rattle.std.specs.Prelude.{◌≡◌, ◌++◌, codes, decimal, IfOk, OnOk};
ghost use Rattle.jl_program.specs.Text.{function_name, type_text, types_text, fault_text, error_line};

use crate::numbers::append_unsigned;
use crate::types::{append_argument_types, append_type};
use jl_model::limits::{MOST_OPEN_CALLS, MOST_TASKS, MOST_WORLDS};
use jl_model::rows::Row;
use jl_model::ty::{Bytes, Ty};
use jl_program::fault::Fault;
use jl_program::tree::Program;
use std::alloc::{AllocError, Global};

/// The name of a function, and no bytes where there is none of this number.
fn function_name(program: &Program, function: u32) -> &[u8]
    ensures { result.now ≡ function_name program.now function }
{
    match program.functions.as_slice().get(function as usize) {
        Some(name) => name.as_slice(),
        None => &[],
    }
}

/// A function with the types of its arguments, as `f(::Int64, ::Bool)`.
fn append_call(
    out: &mut Row<u8>,
    program: &Program,
    function: u32,
    types: &[Ty],
) -> Result<(), AllocError>
    ensures { OnOk result
        (out.new ≡ out.old ++ (function_name program.now function ++ types_text program.now types.now)) }
{
    out.append(function_name(program, function))?;
    append_argument_types(out, program, types)
}

/// A type between two texts.
fn append_type_between(
    out: &mut Row<u8>,
    program: &Program,
    before: &[u8],
    ty: &Ty,
    after: &[u8],
) -> Result<(), AllocError>
    ensures { OnOk result
        (out.new ≡ out.old ++ (before.now ++ (type_text program.now ty.now ++ after.now))) }
{
    out.append(before)?;
    append_type(out, program, ty)?;
    out.append(after)
}

/// No method applies to a call.
fn append_no_method(
    out: &mut Row<u8>,
    program: &Program,
    function: u32,
    types: &[Ty],
    world: u32,
) -> Result<(), AllocError>
    ensures { OnOk result
        (out.new ≡ out.old ++ fault_text program.now (Fault.NoMethod function types.now world)) }
{
    out.append(b"MethodError: no method matching ")?;
    append_call(out, program, function, types)?;
    out.append(b" in world ")?;
    append_unsigned(out, u64::from(world))
}

/// No method is the most specific one for a call.
fn append_ambiguous(
    out: &mut Row<u8>,
    program: &Program,
    function: u32,
    types: &[Ty],
    first: u32,
    second: u32,
) -> Result<(), AllocError>
    ensures { OnOk result
        (out.new ≡ out.old ++ fault_text program.now (Fault.Ambiguous function types.now first second)) }
{
    out.append(b"MethodError: ")?;
    append_call(out, program, function, types)?;
    out.append(b" is ambiguous between definitions ")?;
    append_unsigned(out, u64::from(first))?;
    out.append(b" and ")?;
    append_unsigned(out, u64::from(second))
}

/// A struct cannot be made of arguments of these types.
fn append_no_constructor(
    out: &mut Row<u8>,
    program: &Program,
    ty: &Ty,
    types: &[Ty],
) -> Result<(), AllocError>
    ensures { OnOk result
        (out.new ≡ out.old ++ fault_text program.now (Fault.NoConstructor ty.now types.now)) }
{
    out.append(b"MethodError: no method matching ")?;
    append_type(out, program, ty)?;
    append_argument_types(out, program, types)
}

/// A field of a struct cannot hold a value of the type `got`.
fn append_field_type(
    out: &mut Row<u8>,
    program: &Program,
    ty: &Ty,
    field: &[u8],
    got: &Ty,
) -> Result<(), AllocError>
    ensures { OnOk result
        (out.new ≡ out.old ++ fault_text program.now (Fault.FieldType ty.now field.now got.now)) }
{
    out.append(b"TypeError: field ")?;
    out.append(field)?;
    append_type_between(out, program, b" of ", ty, b" got ")?;
    append_type(out, program, got)
}

/// A written type has an argument outside its declared bounds.
fn append_bad_parameter(out: &mut Row<u8>, program: &Program, ty: &Ty) -> Result<(), AllocError>
    ensures { OnOk result
        (out.new ≡ out.old ++ fault_text program.now (Fault.BadParameter ty.now)) }
{
    append_type_between(
        out,
        program,
        b"TypeError: ",
        ty,
        b" breaks a declared bound",
    )
}

/// A value of this type has no field of this name.
fn append_no_field(
    out: &mut Row<u8>,
    program: &Program,
    ty: &Ty,
    field: &[u8],
) -> Result<(), AllocError>
    ensures { OnOk result
        (out.new ≡ out.old ++ fault_text program.now (Fault.NoField ty.now field.now)) }
{
    append_type_between(out, program, b"FieldError: ", ty, b" has no field ")?;
    out.append(field)
}

/// A value of this type has no part of this number.
fn append_no_index(
    out: &mut Row<u8>,
    program: &Program,
    ty: &Ty,
    number: u64,
) -> Result<(), AllocError>
    ensures { OnOk result
        (out.new ≡ out.old ++ fault_text program.now (Fault.NoIndex ty.now number)) }
{
    append_type_between(out, program, b"BoundsError: ", ty, b" has no part ")?;
    append_unsigned(out, number)
}

/// A value of this type is no truth value.
fn append_not_bool(out: &mut Row<u8>, program: &Program, ty: &Ty) -> Result<(), AllocError>
    ensures { OnOk result (out.new ≡ out.old ++ fault_text program.now (Fault.NotBool ty.now)) }
{
    let before = b"TypeError: non-boolean (";
    append_type_between(out, program, before, ty, b") used in boolean context")
}

/// A value of this type is no task.
fn append_not_task(out: &mut Row<u8>, program: &Program, ty: &Ty) -> Result<(), AllocError>
    ensures { OnOk result (out.new ≡ out.old ++ fault_text program.now (Fault.NotTask ty.now)) }
{
    out.append(b"NotTask: ")?;
    append_type(out, program, ty)
}

/// The task that was fetched ended with a fault.
fn append_task_failed(out: &mut Row<u8>, task: u32) -> Result<(), AllocError>
    ensures { OnOk result
        (out.new ≡ out.old ++ (codes "TaskFailedException: task " ++ decimal task)) }
{
    out.append(b"TaskFailedException: task ")?;
    append_unsigned(out, u64::from(task))
}

/// No method of the function with the signature of a deletion place stands.
fn append_no_such_method(
    out: &mut Row<u8>,
    program: &Program,
    function: u32,
) -> Result<(), AllocError>
    ensures { OnOk result
        (out.new ≡ out.old ++ (codes "NoSuchMethod: " ++ function_name program.now function)) }
{
    out.append(b"NoSuchMethod: ")?;
    out.append(function_name(program, function))
}

/// A number between two texts.
fn append_limit(
    out: &mut Row<u8>,
    before: &[u8],
    limit: u64,
    after: &[u8],
) -> Result<(), AllocError>
    ensures { OnOk result (out.new ≡ out.old ++ (before.now ++ (decimal limit ++ after.now))) }
{
    out.append(before)?;
    append_unsigned(out, limit)?;
    out.append(after)
}

/// A task made as many calls as its fuel allows.
fn append_fuel_spent(out: &mut Row<u8>, fuel: u64) -> Result<(), AllocError>
    ensures { OnOk result
        (out.new ≡ out.old ++ (codes "FuelSpent: " ++ (decimal fuel ++ codes " calls"))) }
{
    out.append(b"FuelSpent: ")?;
    append_unsigned(out, fuel)?;
    out.append(b" calls")
}

/// Appends the text of a fault, as `MethodError: no method matching f(::Int64) in world 16`. The one error is want of
/// memory.
pub fn append_fault(out: &mut Row<u8>, program: &Program, fault: &Fault) -> Result<(), AllocError>
    ensures { OnOk result (out.new ≡ out.old ++ fault_text program.now fault.now) }
{
    match fault {
        Fault::NoMethod(function, types, world) => {
            append_no_method(out, program, *function, types.as_slice(), *world)
        }
        Fault::Ambiguous(function, types, first, second) => {
            append_ambiguous(out, program, *function, types.as_slice(), *first, *second)
        }
        Fault::NoConstructor(ty, types) => {
            append_no_constructor(out, program, ty, types.as_slice())
        }
        Fault::DivideError => out.append(b"DivideError: integer division error"),
        Fault::FieldType(ty, field, got) => {
            append_field_type(out, program, ty, field.as_slice(), got)
        }
        Fault::BadParameter(ty) => append_bad_parameter(out, program, ty),
        Fault::NoField(ty, field) => append_no_field(out, program, ty, field.as_slice()),
        Fault::NoIndex(ty, number) => append_no_index(out, program, ty, *number),
        Fault::NotBool(ty) => append_not_bool(out, program, ty),
        Fault::NotTask(ty) => append_not_task(out, program, ty),
        Fault::TaskFailed(task) => append_task_failed(out, *task),
        Fault::NoSuchMethod(function) => append_no_such_method(out, program, *function),
        Fault::FuelSpent(fuel) => append_fuel_spent(out, *fuel),
        Fault::StackLimit => append_limit(
            out,
            b"StackOverflowError: ",
            u64::from(MOST_OPEN_CALLS),
            b" open calls",
        ),
        Fault::WorldLimit => append_limit(out, b"WorldLimit: ", MOST_WORLDS as u64, b" worlds"),
        Fault::TaskLimit => append_limit(out, b"TaskLimit: ", MOST_TASKS as u64, b" tasks"),
        Fault::TypeLimit => out.append(b"TypeLimit"),
        Fault::ValueLimit => out.append(b"ValueLimit"),
    }
}

/// Appends the line that tells a fault: `ERROR: `, its text and a newline. The one error is want of memory.
pub fn append_error_line(
    out: &mut Row<u8>,
    program: &Program,
    fault: &Fault,
) -> Result<(), AllocError>
    ensures { OnOk result (out.new ≡ out.old ++ error_line program.now fault.now) }
{
    out.append(b"ERROR: ")?;
    append_fault(out, program, fault)?;
    out.append(b"\n")
}

/// The text of a fault, as [`append_fault`] writes it. The one error is want of memory.
pub fn fault_text(alloc: Global, program: &Program, fault: &Fault) -> Result<Bytes, AllocError>
    ensures { IfOk result (λ t. t ≡ fault_text program.now fault.now) }
{
    let mut out = Row::new(alloc);
    append_fault(&mut out, program, fault)?;
    out.into_shared(alloc)
}
