//! The lines of a trace.

ghost use Rattle.std.specs.Prelude.{◌≡◌, ◌++◌, ◌∷◌, [], OnOk};
ghost use Rattle.jl_report.specs.HistoryText.{number_line, step_of, steps_of, step_line, step_lines};

use crate::lines::append_numbers;
use jl_calculus::history::TraceItem;
use jl_model::rows::Row;
use std::alloc::AllocError;

/// A word and two numbers.
fn append_two(out: &mut Row<u8>, word: &[u8], first: u32, second: u32) -> Result<(), AllocError>
    ensures { OnOk result (out.new ≡ out.old ++ number_line word.now (first ∷ second ∷ [])) }
{
    append_numbers(out, word, &[u64::from(first), u64::from(second)])
}

/// The line of an item.
fn append_step(out: &mut Row<u8>, item: &TraceItem) -> Result<(), AllocError>
    ensures { OnOk result (out.new ≡ out.old ++ step_line (step_of item.now)) }
{
    match item {
        TraceItem::Look { world, at } => append_two(out, b"look", *world, *at),
        TraceItem::Def { site, at } => append_two(out, b"def", *site, *at),
        TraceItem::Spawn { child, at } => append_two(out, b"spawn", *child, *at),
        TraceItem::Fetch { task, at, .. } => append_two(out, b"fetch", *task, *at),
        TraceItem::WorldFull { at } => append_numbers(out, b"worldfull", &[u64::from(*at)]),
        TraceItem::TaskFull { at } => append_numbers(out, b"taskfull", &[u64::from(*at)]),
        TraceItem::Del { place, at } => append_two(out, b"del", *place, *at),
        TraceItem::Absent { place, at } => append_two(out, b"absent", *place, *at),
    }
}

/// The lines of the items of a trace.
pub(crate) fn append_steps(out: &mut Row<u8>, items: &[TraceItem]) -> Result<(), AllocError>
    ensures { OnOk result (out.new ≡ out.old ++ step_lines (steps_of items.now)) }
{
    for item in items {
        append_step(out, item)?;
    }
    Ok(())
}
