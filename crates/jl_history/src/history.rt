//! Histories.

ghost use Rattle.std.specs.Prelude.{◌≡◌, ◌≤◌, ℕ, List, length, Ok, Err};
ghost use Rattle.jl_report.specs.declared.entry.Entry.{Entry};
ghost use Rattle.jl_report.specs.HistoryText.{entries_text};
ghost use Rattle.jl_history.specs.declared.fault.HistoryFault.TheVariants.{BadText};
ghost use Rattle.jl_history.specs.declared.history.TheConstants.{MOST_HISTORY_BYTES};
ghost use Rattle.jl_history.specs.Form.{AreEntries, IsFirstBad, Tells, UnlessMemory};

use crate::fault::HistoryFault;
use crate::fields::cut;
use crate::reader::Reader;
use jl_report::Entries;
use std::alloc::Global;

/// The bytes of the text of a history.
pub const MOST_HISTORY_BYTES: usize = 67_108_864;

/// What a text tells, line by line.
fn read_lines(alloc: Global, places: bool, text: &[u8]) -> Result<Entries, HistoryFault>
    requires { length text.now ≤ MOST_HISTORY_BYTES }
    ensures { Tells places text.now result }
{
    let mut reader = Reader::new(alloc, places);
    let mut rest = text;
    let mut number: u32 = 1;
    while let Some((line, after)) = cut(b'\n', rest) {
        let taken = reader.take(alloc, line)?;
        if !taken {
            return Err(HistoryFault::BadText(number));
        }
        number += 1;
        rest = after;
    }
    let finished = reader.is_finished(rest);
    if !finished {
        return Err(HistoryFault::BadText(number));
    }
    Ok(reader.into_entries(alloc)?)
}

/// The entries of a history of at most 67,108,864 bytes, of a program that has a deletion place or has none: deletions are told
/// only where it has one.
///
/// # Errors
///
/// `BadText` with the first line that is not of the form, is cut or is missing; the first line is 1. Besides, `Memory`.
pub fn read_history(alloc: Global, places: bool, text: &[u8]) -> Result<Entries, HistoryFault>
    requires short { length text.now ≤ MOST_HISTORY_BYTES }
    ensures tells { Tells places text.now result }
    ensures reads { (es : List Entry) → AreEntries places es → text.now ≡ entries_text places es → UnlessMemory result (Ok es) }
    ensures refuses { (n : ℕ) → IsFirstBad places n text.now → UnlessMemory result (Err (BadText n)) }
{
    read_lines(alloc, places, text)
}
