//! The text of a result, and its status.

ghost use Rattle.std.specs.Prelude.{◌≡◌, ◌++◌, IfOk, OnOk, MatchOption, None, Some};
ghost use Rattle.jl_calculus.specs.Legal.{MayStand, outcome_line, root_line, status_of, text_of};
ghost use Rattle.jl_calculus.specs.Past.{done_of};
ghost use Rattle.jl_report.specs.Family.{AreOfTasks};

use crate::family::append_outputs;
use jl_calculus::history::{Event, History, Outcome, Record};
use jl_model::rows::Row;
use jl_model::ty::Bytes;
use jl_program::tree::Program;
use jl_sig::Ready;
use jl_text::append_error_line;
use std::alloc::{AllocError, Global};

/// What the root did.
fn root_record(events: &[Event]) -> Option<&Record>
    ensures { MatchOption result (done_of 0 events.now ≡ None) (λ ended. done_of 0 events.now ≡ Some ended.now) }
{
    for event in events {
        if let Event::Done { task: 0, ended } = event {
            return Some(ended);
        }
    }
    None
}

/// The error line of an outcome, and nothing of a value.
fn append_outcome(out: &mut Row<u8>, program: &Program, outcome: &Outcome) -> Result<(), AllocError>
    ensures { OnOk result (out.new ≡ out.old ++ outcome_line program.now outcome.now) }
{
    match outcome {
        Outcome::Value(_) => Ok(()),
        Outcome::Error(fault) => append_error_line(out, program, fault),
    }
}

/// The error line of the root, where it failed.
fn append_root_line(
    out: &mut Row<u8>,
    program: &Program,
    events: &[Event],
) -> Result<(), AllocError>
    ensures { OnOk result (out.new ≡ out.old ++ root_line program.now (done_of 0 events.now)) }
{
    match root_record(events) {
        Some(ended) => append_outcome(out, program, ended.outcome.get()),
        None => Ok(()),
    }
}

/// The text of the result that events tell.
pub(crate) fn append_text(
    alloc: Global,
    out: &mut Row<u8>,
    program: &Program,
    events: &[Event],
) -> Result<(), AllocError>
    requires { AreOfTasks events.now }
    ensures { OnOk result (out.new ≡ out.old ++ text_of program.now events.now) }
{
    append_outputs(alloc, out, events)?;
    append_root_line(out, program, events)
}

/// Appends the text of a result: what the root printed, then what the other tasks printed, in path order, and then the
/// root's error line where it failed (Julia manual, Asynchronous Programming). The one error is want of memory.
#[tactic(auto, using(crate::proofs::FamilyLemmas::may_stand))]
pub fn append_result(
    alloc: Global,
    out: &mut Row<u8>,
    ready: &Ready,
    history: &History,
) -> Result<(), AllocError>
    requires stand { MayStand ready.now history.now.events }
    ensures text { OnOk result (out.new ≡ out.old ++ text_of ready.now history.now.events) }
{
    append_text(alloc, out, ready.program(), history.events.as_slice())
}

/// The text of a result, as [`append_result`] writes it. The one error is want of memory.
pub fn render(alloc: Global, ready: &Ready, history: &History) -> Result<Bytes, AllocError>
    requires stand { MayStand ready.now history.now.events }
    ensures text { IfOk result (λ text. text ≡ text_of ready.now history.now.events) }
{
    let mut out = Row::new(alloc);
    append_result(alloc, &mut out, ready, history)?;
    out.into_shared(alloc)
}

/// The status of a result: 0 where the root ended with a value, and 1 where it ended with a fault.
pub fn status(history: &History) -> u8
    ensures { result ≡ status_of history.now.events }
{
    match root_record(history.events.as_slice()) {
        Some(ended) => match ended.outcome.get() {
            Outcome::Value(_) => 0,
            Outcome::Error(_) => 1,
        },
        None => 0,
    }
}
