//! The lines of a trace, and that of how a task ended.

ghost use Rattle.std.specs.Prelude.{◌≡◌, IfOk};
ghost use Rattle.jl_history.specs.Fields.{place_step, two_step, step_in, ending_by, ending_in};

use crate::fields::{cut, small, two};
use crate::texts::{is_text, share};
use jl_report::{Ending, Step};
use std::alloc::{AllocError, Global};

/// An item of a deletion place, where it may be told.
fn place_step(places: bool, word: &[u8], place: u32, at: u32) -> Option<Step>
    ensures { result ≡ place_step places word.now place at }
{
    if word == b"del".as_slice() && places {
        Some(Step::Del { place, at })
    } else if word == b"absent".as_slice() && places {
        Some(Step::Absent { place, at })
    } else {
        None
    }
}

/// An item of two numbers.
fn two_step(places: bool, word: &[u8], fields: &[u8]) -> Option<Step>
    ensures { result ≡ two_step places word.now fields.now }
{
    let (first, at) = two(fields)?;
    if word == b"look".as_slice() {
        Some(Step::Look { world: first, at })
    } else if word == b"def".as_slice() {
        Some(Step::Def { site: first, at })
    } else if word == b"spawn".as_slice() {
        Some(Step::Spawn { child: first, at })
    } else if word == b"fetch".as_slice() {
        Some(Step::Fetch { task: first, at })
    } else {
        place_step(places, word, first, at)
    }
}

/// The item of a trace that a line tells, where items of deletion places may be told or not.
pub(crate) fn step(places: bool, line: &[u8]) -> Option<Step>
    ensures { result ≡ step_in places line.now }
{
    let (word, fields) = cut(b' ', line)?;
    if word == b"worldfull".as_slice() {
        let at = small(fields)?;
        Some(Step::WorldFull { at })
    } else if word == b"taskfull".as_slice() {
        let at = small(fields)?;
        Some(Step::TaskFull { at })
    } else {
        two_step(places, word, fields)
    }
}

/// How a task ended, by a word and a text.
fn ending_by(alloc: Global, word: &[u8], text: &[u8]) -> Result<Option<Ending>, AllocError>
    ensures { IfOk result (λ e. e ≡ ending_by word.now text.now) }
{
    if !is_text(text) {
        Ok(None)
    } else if word == b"value".as_slice() {
        let text = share(alloc, text)?;
        Ok(Some(Ending::Value(text)))
    } else if word == b"error".as_slice() {
        let text = share(alloc, text)?;
        Ok(Some(Ending::Error(text)))
    } else {
        Ok(None)
    }
}

/// How a task ended, as a line tells.
pub(crate) fn ending(alloc: Global, line: &[u8]) -> Result<Option<Ending>, AllocError>
    ensures { IfOk result (λ e. e ≡ ending_in line.now) }
{
    let Some((word, rest)) = cut(b' ', line) else {
        return Ok(None);
    };
    if word != b"outcome".as_slice() {
        return Ok(None);
    }
    match cut(b' ', rest) {
        Some((kind, text)) => ending_by(alloc, kind, text),
        None => Ok(None),
    }
}
