//! The answers to the lines.

use jl_history::{HistoryFault, MOST_HISTORY_BYTES, read_history};
use jl_report::{Ending, Entries, Entry, Step};
use std::alloc::{AllocError, Global};
use std::str;

/// The most entries or items that are shown.
const MOST_SHOWN: usize = 8;

/// Bytes as a string.
fn shown(bytes: &[u8]) -> &str {
    str::from_utf8(bytes).unwrap_or("no text")
}

/// What was read of an item of a trace.
fn step_text(alloc: Global, step: Step) -> Result<String, AllocError> {
    match step {
        Step::Look { world, at } => format!(in alloc; "look {world} {at}"),
        Step::Def { site, at } => format!(in alloc; "def {site} {at}"),
        Step::Spawn { child, at } => format!(in alloc; "spawn {child} {at}"),
        Step::Fetch { task, at } => format!(in alloc; "fetch {task} {at}"),
        Step::WorldFull { at } => format!(in alloc; "worldfull {at}"),
        Step::TaskFull { at } => format!(in alloc; "taskfull {at}"),
        Step::Del { place, at } => format!(in alloc; "del {place} {at}"),
        Step::Absent { place, at } => format!(in alloc; "absent {place} {at}"),
    }
}

/// What was read of a trace: its items, or how many there are.
fn trace_text(alloc: Global, trace: &[Step]) -> Result<String, AllocError> {
    if trace.len() > MOST_SHOWN {
        let count = trace.len();
        return format!(in alloc; "{count} items");
    }
    let mut out = String::new(alloc);
    for (i, step) in trace.iter().enumerate() {
        if i > 0 {
            out.push_str(", ")?;
        }
        out.push_str(step_text(alloc, *step)?.as_str())?;
    }
    Ok(out)
}

/// What was read of an outcome.
fn ending_text(alloc: Global, ending: &Ending) -> Result<String, AllocError> {
    match ending {
        Ending::Value(text) => format!(in alloc; "value {}", shown(text.as_slice())),
        Ending::Error(text) => format!(in alloc; "error {}", shown(text.as_slice())),
    }
}

/// What was read of the end of a task.
fn done_text(
    alloc: Global,
    trace: &[Step],
    output: &[u8],
    ending: &Ending,
) -> Result<String, AllocError> {
    let trace = trace_text(alloc, trace)?;
    let ending = ending_text(alloc, ending)?;
    format!(in alloc;
        "[{}] {:?} {}",
        trace.as_str(),
        shown(output),
        ending.as_str()
    )
}

/// What was read of an event.
fn entry_text(alloc: Global, entry: &Entry) -> Result<String, AllocError> {
    match entry {
        Entry::Begin(fuel) => format!(in alloc; "begin {fuel}"),
        Entry::Key {
            number,
            function,
            tuple,
        } => {
            let function = shown(function.as_slice());
            let tuple = shown(tuple.as_slice());
            format!(in alloc; "key {number} of {function} at {tuple}")
        }
        Entry::Fill { key, site, first } => format!(in alloc; "fill {key} {site} {first}"),
        Entry::Def { task, site } => format!(in alloc; "def {task} {site}"),
        Entry::Del { task, place } => format!(in alloc; "del {task} {place}"),
        Entry::Spawn { task, child, place } => { format!(in alloc; "spawn {task} {child} {place}") }
        Entry::Done {
            task,
            calls,
            trace,
            output,
            ending,
        } => {
            let rest = done_text(alloc, trace.as_slice(), output.as_slice(), ending)?;
            format!(in alloc; "done {task} {calls} {}", rest.as_str())
        }
    }
}

/// What was read of events: each, or how many there are.
fn entries_text(alloc: Global, entries: &[Entry]) -> Result<String, AllocError> {
    if entries.len() > MOST_SHOWN {
        let count = entries.len();
        return format!(in alloc; "{count} events");
    }
    let mut out = String::new(alloc);
    for (i, entry) in entries.iter().enumerate() {
        if i > 0 {
            out.push_str("; ")?;
        }
        out.push_str(entry_text(alloc, entry)?.as_str())?;
    }
    Ok(out)
}

/// What reading answered.
fn read_text(alloc: Global, read: Result<Entries, HistoryFault>) -> Result<String, AllocError> {
    match read {
        Ok(entries) => entries_text(alloc, entries.as_slice()),
        Err(HistoryFault::BadText(line)) => format!(in alloc; "line {line}"),
        Err(HistoryFault::Memory) => Err(AllocError),
    }
}

/// What is read of a text, of a program that has a deletion place or has none.
pub fn answer(alloc: Global, places: bool, text: &[u8]) -> Result<String, AllocError> {
    if text.len() > MOST_HISTORY_BYTES {
        return format!(in alloc; "too long");
    }
    read_text(alloc, read_history(alloc, places, text))
}
