//! The tasks that values mention.

ghost use Rattle.std.specs.Prelude.{◌≡◌, ◌++◌, map, OnOk, IfOk};
ghost use Rattle.std.specs.List.{flat_map};
ghost use Rattle.jl_program.specs.Meaning.{datum};
ghost use Rattle.jl_calculus.specs.Core.{tasks_in, in_outcome, in_start};

use jl_calculus::history::Outcome;
use jl_program::fault::Fault;
use jl_program::tree::Start;
use jl_program::value::{Value, parts_of};
use std::alloc::{AllocError, Global};

/// Appends the tasks that the parts of a value mention.
#[cycle(values)]
#[tactic(auto, using(crate::proofs::MentionLemmas::mentions))]
fn append_all(out: &mut Vec<u32>, values: &[Value]) -> Result<(), AllocError>
    ensures { OnOk result (out.new.items ≡ out.old.items ++ flat_map tasks_in (map datum values.now)) }
{
    for value in values {
        append_tasks(out, value)?;
    }
    Ok(())
}

/// Appends the tasks that a value mentions, each as often as it does. It recurs as deep as the value is.
#[cycle(values)]
#[tactic(auto, using(crate::proofs::MentionLemmas::mentions))]
fn append_tasks(out: &mut Vec<u32>, value: &Value) -> Result<(), AllocError>
    ensures { OnOk result (out.new.items ≡ out.old.items ++ tasks_in (datum value.now)) }
{
    match value {
        Value::Int(_) => Ok(()),
        Value::Bool(_) => Ok(()),
        Value::Nothing => Ok(()),
        Value::Task(task) => {
            out.push(*task)?;
            Ok(())
        }
        Value::Tuple(made) => append_all(out, parts_of(made)),
        Value::Struct(made) => append_all(out, parts_of(made)),
    }
}

/// The tasks that an outcome mentions.
pub(crate) fn in_outcome(alloc: Global, outcome: &Outcome) -> Result<Vec<u32>, AllocError>
    ensures { IfOk result (λ tasks. tasks.items ≡ in_outcome outcome.now) }
{
    let mut tasks = Vec::new(alloc);
    match outcome {
        Outcome::Value(value) => append_tasks(&mut tasks, value)?,
        Outcome::Error(Fault::TaskFailed(task)) => tasks.push(*task)?,
        Outcome::Error(_) => {}
    }
    Ok(tasks)
}

/// The tasks that the values of a start mention.
pub(crate) fn in_start(alloc: Global, start: &Start) -> Result<Vec<u32>, AllocError>
    ensures { IfOk result (λ tasks. tasks.items ≡ in_start start.now) }
{
    let mut tasks = Vec::new(alloc);
    let (chunks, rest) = start.env.parts();
    for chunk in chunks {
        append_all(&mut tasks, chunk.as_slice())?;
    }
    append_all(&mut tasks, rest)?;
    Ok(tasks)
}
