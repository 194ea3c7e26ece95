//! The answers to the lines.

ghost use Rattle.std.specs.Prelude.{◌≡◌};
ghost use Rattle.jl_value.specs.Samples.{sample_types};

use crate::faults::fault_of;
use crate::sample::named;
use crate::types::{last_type, types_of};
use crate::values::values_of;
use jl_model::rows::Row;
use jl_model::ty::Ty;
use jl_program::fault::Fault;
use jl_program::tree::Program;
use jl_program::value::Value;
use jl_text::{
    append_error_line, append_fault, append_type, append_value, fault_text, type_text, value_text,
};
use jl_types::Table;
use jl_value::{copy, egal, type_of};
use std::alloc::{AllocError, Global};
use std::{fmt, str};

/// The most nodes of a value whose text is shown.
const MOST_SHOWN: u64 = 20;

/// Bytes as a string.
fn string(alloc: Global, bytes: &[u8]) -> Result<String, AllocError> {
    let text = str::from_utf8(bytes).unwrap_or("no text");
    format!(in alloc; "{text}")
}

/// The text of the type that a text asks for.
pub fn type_answer(alloc: Global, program: &Program, text: &str) -> Result<String, AllocError> {
    let mut types = types_of(alloc, text)?;
    let ty = last_type(&mut types);
    let text = type_text(alloc, program, &ty);
    drop(ty);
    string(alloc, text?.as_slice())
}

/// The text of the fault that a text asks for.
pub fn fault_answer(alloc: Global, program: &Program, text: &str) -> Result<String, AllocError> {
    let fault = fault_of(alloc, text)?;
    let text = fault_text(alloc, program, &fault);
    drop(fault);
    string(alloc, text?.as_slice())
}

/// Appends the text of a type, and drops it.
fn put_type(out: &mut Row<u8>, program: &Program, ty: Ty) -> Result<(), AllocError> {
    let put = append_type(out, program, &ty);
    drop(ty);
    put
}

/// The texts of a value and of its type, where they are short.
fn texts(
    alloc: Global,
    table: &Table,
    program: &Program,
    value: &Value,
) -> Result<String, AllocError> {
    let mut out = Row::new(alloc);
    if value.nodes() > MOST_SHOWN {
        out.append(b"large")?;
    } else {
        out.append(value_text(alloc, program, value)?.as_slice())?;
        out.append(b" of ")?;
        append_type(&mut out, program, type_of(table, value))?;
    }
    string(alloc, out.as_slice())
}

/// The counts of a value.
#[derive(Clone, Copy, Drop)]
struct Counts {
    nodes: u64,
    depth: u64,
}

impl fmt::Display for Counts {
    fn fmt<W: fmt::Write>(&self, f: &mut fmt::Formatter<W>) -> fmt::Result {
        write!(f, "{} nodes, {} deep", self.nodes, self.depth)
    }
}

fn measure(value: &Value) -> Counts {
    Counts {
        nodes: value.nodes(),
        depth: value.depth(),
    }
}

/// The counts of the copy of a value, and whether it is the same.
fn measure_copy(value: &Value) -> Result<(Counts, bool), AllocError> {
    let copied = copy(value)?;
    let found = (measure(&copied), egal(value, &copied));
    drop(copied);
    Ok(found)
}

/// A value with its type and counts, and those of its copy.
fn describe(
    alloc: Global,
    table: &Table,
    program: &Program,
    value: &Value,
) -> Result<String, AllocError> {
    let text = texts(alloc, table, program, value)?;
    let counts = measure(value);
    let (copied, is_same) = measure_copy(value)?;
    format!(in alloc; "{text}, {counts}; its copy {copied}, the same {is_same}")
}

/// The value that a text makes, or why it is not made.
pub fn value_answer(
    alloc: Global,
    table: &Table,
    program: &Program,
    text: &str,
) -> Result<String, AllocError>
    requires sample { table.now ≡ sample_types }
{
    match values_of(alloc, table, text) {
        Ok(values) => match values.as_slice().last() {
            Some(value) => describe(alloc, table, program, value),
            None => string(alloc, b"no value"),
        },
        Err(fault) => format!(in alloc; "{fault:?}"),
    }
}

/// Whether the two values that a text makes are the same.
pub fn same_answer(alloc: Global, table: &Table, text: &str) -> Result<String, AllocError>
    requires sample { table.now ≡ sample_types }
{
    match values_of(alloc, table, text) {
        Ok(values) => match values.as_slice() {
            [first, second] => {
                let is_same = egal(first, second);
                format!(in alloc; "{is_same}")
            }
            _ => string(alloc, b"not two values"),
        },
        Err(fault) => format!(in alloc; "{fault:?}"),
    }
}

/// Appends the text of a value, and drops it.
fn put_value(out: &mut Row<u8>, program: &Program, value: Value) -> Result<(), AllocError> {
    let put = append_value(out, program, &value);
    drop(value);
    put
}

/// Appends the text of a fault or its line, and drops it.
fn put_fault(
    out: &mut Row<u8>,
    program: &Program,
    fault: Fault,
    is_line: bool,
) -> Result<(), AllocError> {
    let put = if is_line {
        append_error_line(out, program, &fault)
    } else {
        append_fault(out, program, &fault)
    };
    drop(fault);
    put
}

/// One text of each kind after another.
pub fn appended(alloc: Global, program: &Program) -> Result<String, AllocError> {
    let mut out = Row::new(alloc);
    put_value(&mut out, program, Value::Int(1))?;
    put_type(&mut out, program, named(11))?;
    put_fault(&mut out, program, Fault::TypeLimit, false)?;
    put_fault(&mut out, program, Fault::FuelSpent(3), true)?;
    string(alloc, out.as_slice())
}
