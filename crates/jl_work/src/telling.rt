//! What is told of a run.

ghost use Rattle.std.specs.Prelude.{◌≡◌, ◌++◌, IfOk, OnOk};
ghost use Rattle.jl_calculus.specs.Legal.{MayStand, text_of};
ghost use Rattle.jl_report.specs.HistoryText.{history_text};
ghost use Rattle.jl_calculus.specs.Legal.{IsKeyOf};
ghost use Rattle.jl_model.specs.declared.ty.Key.{Key as K};
ghost use Rattle.jl_reflect.specs.Asked.{MeansKey};
ghost use Rattle.jl_work.specs.Told.{IsTold, TellsPairs, TellsSpans, missing_newline};
ghost use Rattle.jl_work.specs.declared.work.Question.{Question as Q};
ghost use Rattle.jl_work.specs.declared.work.Telling.TheVariants.{Trace, Pairs};

use crate::pair_lines::pairs_text;
use crate::span_lines::spans_text;
use crate::work::Telling;
use jl_ambig::{pairs, unexamined};
use jl_calculus::history::History;
use jl_model::rows::Row;
use jl_model::ty::{Bytes, Key};
use jl_reflect::spans;
use jl_report::{append_history, append_result, render, summary};
use jl_sig::Ready;
use std::alloc::{AllocError, Global};

/// The newline that a text lacks at its end.
fn missing_newline(text: &[u8]) -> &'static [u8]
    ensures { result.now ≡ missing_newline text.now }
{
    match text.last() {
        Some(b'\n') => b"",
        Some(_) => b"\n",
        None => b"",
    }
}

/// Ends the last line of a text, where it is open.
fn end_line(out: &mut Row<u8>) -> Result<(), AllocError>
    ensures { OnOk result (out.new ≡ out.old ++ missing_newline out.old) }
{
    let newline = missing_newline(out.as_slice());
    out.append(newline)
}

/// The text of a result, as lines, and then the text of the history.
fn trace(alloc: Global, ready: &Ready, history: &History) -> Result<Bytes, AllocError>
    requires { MayStand ready.now history.now.events }
    ensures { IfOk result (λ text. IsTold Trace ready.now history.now.events text) }
{
    let mut out = Row::new(alloc);
    append_result(alloc, &mut out, ready, history)?;
    end_line(&mut out)?;
    append_history(&mut out, ready, history)?;
    out.into_shared(alloc)
}

/// The pairs of definitions between which calls are ambiguous, and the definitions that are not examined.
fn ambiguities(alloc: Global, ready: &Ready, history: &History) -> Result<Bytes, AllocError>
    requires { MayStand ready.now history.now.events }
    ensures { IfOk result (λ text. IsTold Pairs ready.now history.now.events text) }
{
    let events = history.events.as_slice();
    let pairs = pairs(alloc, ready, events)?;
    let left = unexamined(alloc, ready, events)?;
    let found = pairs.as_slice();
    let others = left.as_slice();
    let text = pairs_text(alloc, ready, events, found, others)?;
    Ok(text)
}

/// What is chosen for a key in which worlds.
pub(crate) fn tell_choices(
    alloc: Global,
    ready: &Ready,
    history: &History,
    key: &Key,
) -> Result<Bytes, AllocError>
    requires stand { MayStand ready.now history.now.events }
    requires key { IsKeyOf ready.now key.now }
    ensures { IfOk result (λ text. (question : Q) → MeansKey ready.now question.name question.ty key.now
        → TellsSpans ready.now history.now.events question text) }
{
    let events = history.events.as_slice();
    let spans = spans(alloc, ready, events, key)?;
    let found = spans.as_slice();
    let text = spans_text(alloc, found)?;
    Ok(text)
}

/// What is told of a run.
pub(crate) fn tell_run(
    alloc: Global,
    telling: Telling,
    ready: &Ready,
    history: &History,
) -> Result<Bytes, AllocError>
    requires { MayStand ready.now history.now.events }
    ensures { IfOk result (λ text. IsTold telling ready.now history.now.events text) }
{
    match telling {
        Telling::Text => render(alloc, ready, history),
        Telling::Trace => trace(alloc, ready, history),
        Telling::Summary(n) => summary(alloc, n, ready, history),
        Telling::Pairs => ambiguities(alloc, ready, history),
    }
}
