//! Whether what a task did is what an entry tells.

ghost use Rattle.std.specs.Prelude.{◌≡◌, ◌↔◌, IfOk, IsTrue};
ghost use Rattle.jl_report.specs.HistoryText.{ending_of};
ghost use Rattle.jl_replay.specs.Following.{IsToldBy};

use jl_calculus::history::{Outcome, Record};
use jl_program::tree::Program;
use jl_report::Ending;
use jl_text::{fault_text, value_text};
use std::alloc::{AllocError, Global};

/// Whether an outcome has this text.
fn ends_so(
    alloc: Global,
    program: &Program,
    outcome: &Outcome,
    ending: &Ending,
) -> Result<bool, AllocError>
    ensures { IfOk result (λ same. IsTrue same ↔ (ending_of program.now outcome.now ≡ ending.now)) }
{
    match outcome {
        Outcome::Value(value) => match ending {
            Ending::Value(due) => {
                let text = value_text(alloc, program, value)?;
                Ok(text.as_slice() == due.as_slice())
            }
            Ending::Error(_) => Ok(false),
        },
        Outcome::Error(fault) => match ending {
            Ending::Error(due) => {
                let text = fault_text(alloc, program, fault)?;
                Ok(text.as_slice() == due.as_slice())
            }
            Ending::Value(_) => Ok(false),
        },
    }
}

/// Whether a task that did this made so many calls, printed this output and ended so.
pub(crate) fn is_told(
    alloc: Global,
    program: &Program,
    ended: &Record,
    calls: u32,
    output: &[u8],
    ending: &Ending,
) -> Result<bool, AllocError>
    ensures { IfOk result (λ same. IsTrue same ↔ IsToldBy program.now ended.now calls output.now ending.now) }
{
    if ended.calls != u64::from(calls) {
        return Ok(false);
    }
    if ended.output.as_slice() != output {
        return Ok(false);
    }
    let same = ends_so(alloc, program, ended.outcome.get(), ending)?;
    Ok(same)
}
