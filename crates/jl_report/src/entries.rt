//! The text of a history.

ghost use Rattle.std.specs.Prelude.{◌≡◌, ◌≤◌, ◌<◌, ◌^◌, ◌+◌, ◌++◌, [], ◌∷◌, codes, length, IfOk, OnOk};
ghost use Rattle.jl_model.specs.declared.ty.Ty.TheVariants.{Tuple};
ghost use Rattle.jl_program.specs.Text.{function_name, type_text, value_text, fault_text};
ghost use Rattle.jl_calculus.specs.declared.history.Event.TheVariants.{Key as KeyEvent, Done as DoneEvent};
ghost use Rattle.jl_report.specs.HistoryText.{number_line, text_line, steps_of, ending_of, ending_line, entry_of, entry_lines, all_lines, entries_of, keys_with, first_line, header, has_places, history_text};

use crate::lines::{append_numbers, append_quoted_line, append_spaced};
use crate::steps::append_steps;
use jl_calculus::history::{Event, History, Outcome, Record};
use jl_model::rows::Row;
use jl_model::ty::{Bytes, Key, Ty, Tys};
use jl_program::fault::Fault;
use jl_program::tree::Program;
use jl_program::value::Value;
use jl_sig::Ready;
use jl_text::{append_fault, append_type, append_value};
use std::alloc::{AllocError, Global};

/// The name of a function, and no bytes where there is none of this number.
fn function_name(program: &Program, function: u32) -> &[u8]
    ensures { result.now ≡ function_name program.now function }
{
    match program.functions.as_slice().get(function as usize) {
        Some(name) => name.as_slice(),
        None => &[],
    }
}

/// The types of a key, as those of a tuple.
fn append_tuple(out: &mut Row<u8>, program: &Program, types: &Tys) -> Result<(), AllocError>
    ensures { OnOk result (out.new ≡ out.old ++ type_text program.now (Tuple types.now)) }
{
    let tuple = Ty::Tuple(types.copy()?);
    append_type(out, program, &tuple)
}

/// The line of a key with this number.
fn append_key(
    out: &mut Row<u8>,
    program: &Program,
    number: u64,
    key: &Key,
) -> Result<(), AllocError>
    ensures { OnOk result (out.new ≡ out.old ++ entry_lines (entry_of program.now number (KeyEvent key.now))) }
{
    out.append(b"key")?;
    append_spaced(out, &[number])?;
    out.append(b" ")?;
    out.append(function_name(program, key.function))?;
    out.append(b" ")?;
    append_tuple(out, program, &key.types)?;
    out.append(b"\n")
}

/// The line of the value that a task ended with.
fn append_value_line(out: &mut Row<u8>, program: &Program, value: &Value) -> Result<(), AllocError>
    ensures { OnOk result (out.new ≡ out.old ++ text_line (codes "outcome value ") (value_text program.now value.now)) }
{
    out.append(b"outcome value ")?;
    append_value(out, program, value)?;
    out.append(b"\n")
}

/// The line of the fault that a task ended with.
fn append_fault_line(out: &mut Row<u8>, program: &Program, fault: &Fault) -> Result<(), AllocError>
    ensures { OnOk result (out.new ≡ out.old ++ text_line (codes "outcome error ") (fault_text program.now fault.now)) }
{
    out.append(b"outcome error ")?;
    append_fault(out, program, fault)?;
    out.append(b"\n")
}

/// The line of how a task ended.
fn append_ending(out: &mut Row<u8>, program: &Program, outcome: &Outcome) -> Result<(), AllocError>
    ensures { OnOk result (out.new ≡ out.old ++ ending_line (ending_of program.now outcome.now)) }
{
    match outcome {
        Outcome::Value(value) => append_value_line(out, program, value),
        Outcome::Error(fault) => append_fault_line(out, program, fault),
    }
}

/// The first line of the end of a task, with the number of the items of its trace.
#[tactic(auto, using(crate::proofs::EntryLemmas::steps_length))]
fn append_done_line(out: &mut Row<u8>, task: u32, ended: &Record) -> Result<(), AllocError>
    ensures { OnOk result (out.new ≡ out.old ++ number_line (codes "done") (task ∷ ended.now.calls ∷ length (steps_of ended.now.trace) ∷ [])) }
{
    let items = ended.trace.len() as u64;
    append_numbers(out, b"done", &[u64::from(task), ended.calls, items])
}

/// The lines of the end of a task.
fn append_done(
    out: &mut Row<u8>,
    program: &Program,
    task: u32,
    ended: &Record,
) -> Result<(), AllocError>
    ensures { OnOk result (out.new ≡ out.old ++ entry_lines (entry_of program.now 0 (DoneEvent task ended.now))) }
{
    append_done_line(out, task, ended)?;
    append_steps(out, ended.trace.as_slice())?;
    append_quoted_line(out, b"output ", ended.output.as_slice())?;
    append_ending(out, program, ended.outcome.get())
}

/// The lines of an event, with so many keys before it.
fn append_entry(
    out: &mut Row<u8>,
    program: &Program,
    keys: u64,
    event: &Event,
) -> Result<(), AllocError>
    ensures { OnOk result (out.new ≡ out.old ++ entry_lines (entry_of program.now keys event.now)) }
{
    match event {
        Event::Begin(fuel) => append_numbers(out, b"begin", &[*fuel]),
        Event::Key(key) => append_key(out, program, keys, key),
        Event::Fill { key, site, first } => {
            let numbers = [u64::from(*key), u64::from(*site), u64::from(*first)];
            append_numbers(out, b"fill", &numbers)
        }
        Event::Def { task, site } => {
            append_numbers(out, b"def", &[u64::from(*task), u64::from(*site)])
        }
        Event::Del { task, place } => {
            append_numbers(out, b"del", &[u64::from(*task), u64::from(*place)])
        }
        Event::Spawn { task, child, start } => {
            let numbers = [u64::from(*task), u64::from(*child), u64::from(start.spawn)];
            append_numbers(out, b"spawn", &numbers)
        }
        Event::Done { task, ended } => append_done(out, program, *task, ended),
    }
}

/// How many keys there are with this event, with so many before it.
fn keys_with(keys: u64, event: &Event) -> u64
    requires { keys < 2 ^ 63 }
    ensures number { result ≡ keys_with keys event.now }
    ensures few { result ≤ keys + 1 }
{
    match event {
        Event::Key(_) => keys + 1,
        _ => keys,
    }
}

/// The lines of events.
fn append_entries(out: &mut Row<u8>, program: &Program, events: &[Event]) -> Result<(), AllocError>
    ensures { OnOk result (out.new ≡ out.old ++ all_lines (entries_of program.now events.now)) }
{
    let mut keys: u64 = 0;
    for event in events {
        append_entry(out, program, keys, event)?;
        keys = keys_with(keys, event);
    }
    Ok(())
}

/// The last line, with the number of the events.
#[tactic(auto, using(crate::proofs::EntryLemmas::entries_length))]
fn append_end(out: &mut Row<u8>, program: &Program, events: &[Event]) -> Result<(), AllocError>
    ensures { OnOk result (out.new ≡ out.old ++ number_line (codes "end") (length (entries_of program.now events.now) ∷ [])) }
{
    append_numbers(out, b"end", &[events.len() as u64])
}

/// Whether a program has a deletion place. The texts of its histories are then of the second version, which can tell of deletions.
pub fn has_places(program: &Program) -> bool
    ensures { result ≡ has_places program.now }
{
    program.deletes.len() > 0
}

/// The first line of the text of a history, without its newline, of a program that has a deletion place or has none.
pub fn first_line(places: bool) -> &'static str
    ensures { result.now ≡ first_line places }
{
    if places { "%%history 2" } else { "%%history 1" }
}

/// The first line of the history of a program.
fn append_header(out: &mut Row<u8>, program: &Program) -> Result<(), AllocError>
    ensures { OnOk result (out.new ≡ out.old ++ header (has_places program.now)) }
{
    out.append(first_line(has_places(program)).as_bytes())?;
    out.append(b"\n")
}

/// The lines of a history, the first and the last among them.
fn append_events(out: &mut Row<u8>, program: &Program, events: &[Event]) -> Result<(), AllocError>
    ensures { OnOk result (out.new ≡ out.old ++ history_text program.now events.now) }
{
    append_header(out, program)?;
    append_entries(out, program, events)?;
    append_end(out, program, events)
}

/// Appends the text of a history of the program, as tools read it: a first line, one line for each event in order, with the
/// trace, the output and the outcome of each task after the line of its end, and a last line with the number of events.
/// The first line is `%%history 2` where the program has a deletion place, else `%%history 1`. The one error is want of memory.
pub fn append_history(out: &mut Row<u8>, ready: &Ready, history: &History) -> Result<(), AllocError>
    ensures text { OnOk result (out.new ≡ out.old ++ history_text ready.now history.now.events) }
{
    append_events(out, ready.program(), history.events.as_slice())
}

/// The text of a history, as [`append_history`] writes it. The one error is want of memory.
pub fn history_text(alloc: Global, ready: &Ready, history: &History) -> Result<Bytes, AllocError>
    ensures text { IfOk result (λ text. text ≡ history_text ready.now history.now.events) }
{
    let mut out = Row::new(alloc);
    append_history(&mut out, ready, history)?;
    out.into_shared(alloc)
}
