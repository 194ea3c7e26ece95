//! The texts of values.

ghost use Rattle.std.specs.Prelude.{◌≡◌, ◌++◌, map, codes, decimal, IfOk, OnOk};
ghost use Rattle.jl_program.specs.Meaning.{datum};
ghost use Rattle.jl_program.specs.Text.{value_text, bool_text, joined, in_parentheses, tuple_text};

use crate::numbers::{append_signed, append_unsigned};
use crate::types::append_type;
use jl_model::rows::Row;
use jl_model::ty::Bytes;
use jl_program::tree::Program;
use jl_program::value::{Value, parts_of};
use std::alloc::{AllocError, Global};

/// The text of a truth value.
fn truth_text(truth: bool) -> &'static [u8]
    ensures { result.now ≡ bool_text truth }
{
    if truth { b"true" } else { b"false" }
}

/// A task, by its number.
fn append_task(out: &mut Row<u8>, task: u32) -> Result<(), AllocError>
    ensures { OnOk result (out.new ≡ out.old ++ (codes "Task(" ++ (decimal task ++ codes ")"))) }
{
    out.append(b"Task(")?;
    append_unsigned(out, u64::from(task))?;
    out.append(b")")
}

/// Values with ", " between them.
#[cycle(values)]
#[tactic(auto, using(crate::proofs::ValueTexts::value_texts))]
fn append_joined(out: &mut Row<u8>, program: &Program, values: &[Value]) -> Result<(), AllocError>
    ensures { OnOk result (out.new ≡ out.old ++ joined (map (value_text program.now) values.now)) }
{
    for (i, value) in values.iter().enumerate() {
        if i > 0 {
            out.append(b", ")?;
        }
        append_value(out, program, value)?;
    }
    Ok(())
}

/// The parts of a tuple, in parentheses. A single part has a comma after it.
#[cycle(values)]
#[tactic(auto, using(crate::proofs::ValueTexts::value_texts))]
fn append_tuple(out: &mut Row<u8>, program: &Program, parts: &[Value]) -> Result<(), AllocError>
    ensures { OnOk result
        (out.new ≡ out.old ++ tuple_text (map (value_text program.now) parts.now)) }
{
    out.append(b"(")?;
    append_joined(out, program, parts)?;
    if parts.len() == 1 {
        out.append(b",")?;
    }
    out.append(b")")
}

/// The fields of a struct, in parentheses.
#[cycle(values)]
#[tactic(auto, using(crate::proofs::ValueTexts::value_texts))]
fn append_fields(out: &mut Row<u8>, program: &Program, fields: &[Value]) -> Result<(), AllocError>
    ensures { OnOk result
        (out.new ≡ out.old ++ in_parentheses (map (value_text program.now) fields.now)) }
{
    out.append(b"(")?;
    append_joined(out, program, fields)?;
    out.append(b")")
}

/// Appends the text of a value: a number in decimal, `true`, `false`, `nothing`, `()`, `(1,)`, `(1, true)`,
/// `Box{Int64}(3)`, `Wood()`, or `Task(3)` with the task's number. The one error is want of memory.
#[cycle(values)]
#[tactic(auto, using(crate::proofs::ValueTexts::value_texts))]
pub fn append_value(out: &mut Row<u8>, program: &Program, value: &Value) -> Result<(), AllocError>
    ensures { OnOk result (out.new ≡ out.old ++ value_text program.now value.now) }
{
    match value {
        Value::Int(number) => append_signed(out, *number),
        Value::Bool(truth) => out.append(truth_text(*truth)),
        Value::Nothing => out.append(b"nothing"),
        Value::Task(task) => append_task(out, *task),
        Value::Tuple(made) => append_tuple(out, program, parts_of(made)),
        Value::Struct(made) => {
            append_type(out, program, &made.get().ty)?;
            append_fields(out, program, parts_of(made))
        }
    }
}

/// The text of a value, as [`append_value`] writes it. The one error is want of memory.
pub fn value_text(alloc: Global, program: &Program, value: &Value) -> Result<Bytes, AllocError>
    ensures { IfOk result (λ t. t ≡ value_text program.now value.now) }
{
    let mut out = Row::new(alloc);
    append_value(&mut out, program, value)?;
    out.into_shared(alloc)
}
