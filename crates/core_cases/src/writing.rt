//! Events as text, one a line.

use jl_calculus::history::Event;
use jl_model::ty::{Key, Ty};
use jl_program::tree::Program;
use jl_sig::Ready;
use jl_text::type_text;
use std::alloc::{AllocError, Global};
use std::str;

/// Bytes as a string.
fn shown(bytes: &[u8]) -> &str {
    str::from_utf8(bytes).unwrap_or("no text")
}

/// The name of a function.
fn function_name(program: &Program, function: u32) -> &str {
    match program.functions.as_slice().get(function as usize) {
        Some(name) => shown(name.as_slice()),
        None => "no function",
    }
}

/// A key: its function, and the tuple of its types.
fn key_text(alloc: Global, program: &Program, key: &Key) -> Result<String, AllocError> {
    let tuple = Ty::Tuple(key.types.copy()?);
    let found = type_text(alloc, program, &tuple);
    drop(tuple);
    let types = found?;
    let name = function_name(program, key.function);
    format!(in alloc; "key {name} {}", shown(types.as_slice()))
}

/// An event.
fn event_text(alloc: Global, program: &Program, event: &Event) -> Result<String, AllocError> {
    match event {
        Event::Begin(fuel) => format!(in alloc; "begin {fuel}"),
        Event::Key(key) => key_text(alloc, program, key),
        Event::Fill { key, site, first } => format!(in alloc; "fill {key} {site} {first}"),
        Event::Def { task, site } => format!(in alloc; "def {task} {site}"),
        Event::Del { task, place } => format!(in alloc; "del {task} {place}"),
        Event::Spawn { task, child, .. } => format!(in alloc; "spawn {task} {child}"),
        Event::Done { task, .. } => format!(in alloc; "done {task}"),
    }
}

/// Events, between semicolons.
pub fn events_text(alloc: Global, ready: &Ready, events: &[Event]) -> Result<String, AllocError> {
    let mut out = String::new(alloc);
    for (i, event) in events.iter().enumerate() {
        if i > 0 {
            out.push_str("; ")?;
        }
        let text = event_text(alloc, ready.program(), event)?;
        out.push_str(text.as_str())?;
    }
    Ok(out)
}
