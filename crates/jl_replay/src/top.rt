//! The judgement of a text.

ghost use Rattle.std.specs.Prelude.{◌≡◌, ◌≤◌, ◌↔◌, ℕ, List, length, IfOk, IsTrue};
ghost use Rattle.jl_calculus.specs.declared.history.Event.{Event};
ghost use Rattle.jl_calculus.specs.Legal.{IsLegal};
ghost use Rattle.jl_report.specs.HistoryText.{has_places, history_text};
ghost use Rattle.jl_history.specs.declared.fields.TheConstants.{MOST_NUMBER};
ghost use Rattle.jl_history.specs.declared.history.TheConstants.{MOST_HISTORY_BYTES};
ghost use Rattle.jl_history.specs.Form.{AreEntries};
ghost use Rattle.jl_replay.specs.declared.verdict.Verdict.TheVariants.{Legal};
ghost use Rattle.jl_replay.specs.Verdict.{AreRead, IsVerdict, AreJudgedSo};

use crate::difference::first_difference;
use crate::verdict::Verdict;
use jl_causes::{Cause, first_cause, law_keys_apart};
use jl_history::{HistoryFault, MOST_NUMBER, read_history};
use jl_host::HostOps;
use jl_program::tree::Program;
use jl_report::{Entry, has_places};
use jl_sig::Ready;
use std::alloc::{AllocError, Global};

/// The verdict on entries.
fn judge(
    alloc: Global,
    ready: &Ready,
    ops: &HostOps,
    entries: &[Entry],
) -> Result<Verdict, AllocError>
    requires form { AreEntries (has_places ready.now) entries.now }
    ensures { IfOk result (λ verdict. AreJudgedSo ready.now entries.now verdict) }
{
    law_keys_apart();
    ready.valid();
    if let Some((n, cause)) = first_cause(alloc, ready, entries)? {
        return Ok(Verdict::Illegal(n, cause));
    }
    match first_difference(alloc, ready, ops, entries)? {
        Some(n) => Ok(Verdict::Illegal(n, Cause::RunDiffers)),
        None => Ok(Verdict::Legal(entries.len() as u32)),
    }
}

/// Whether each definition site, each spawn place and each deletion place of a program has a number that may stand in a text.
fn is_numbered(program: &Program) -> bool
    ensures { IsTrue result ↔ ((length program.now.sites ≤ MOST_NUMBER) × (length program.now.spawns ≤ MOST_NUMBER) × (length program.now.deletes ≤ MOST_NUMBER)) }
{
    let sites = program.sites.len() as u64;
    let spawns = program.spawns.len() as u64;
    let deletes = program.deletes.len() as u64;
    sites <= MOST_NUMBER && spawns <= MOST_NUMBER && deletes <= MOST_NUMBER
}

/// The verdict on a text.
fn judge_text(
    alloc: Global,
    ready: &Ready,
    text: &[u8],
    ops: &HostOps,
) -> Result<Verdict, AllocError>
    requires short { length text.now ≤ MOST_HISTORY_BYTES }
    requires read { AreRead ready.now text.now }
    ensures verdict { IfOk result (λ verdict. IsVerdict ready.now text.now verdict) }
    ensures legal { (es : List Event) → IsLegal ready.now es → text.now ≡ history_text ready.now es → IfOk result (λ verdict. verdict ≡ Legal (length es)) }
{
    let places = has_places(ready.program());
    match read_history(alloc, places, text) {
        Ok(entries) => {
            let verdict = judge(alloc, ready, ops, entries.as_slice());
            drop(entries);
            let verdict = verdict?;
            Ok(verdict)
        }
        Err(HistoryFault::BadText(line)) => Ok(Verdict::BadText(line)),
        Err(HistoryFault::Memory) => Err(AllocError),
    }
}

/// Judges the text of a history of a program, of at most 67,108,864 bytes: whether it is that of a legal history, and else why not.
/// `BadText` has the first line that is not of the form. `Illegal` has the least event with a cause, and the first of its causes; the
/// runs of the tasks are asked only where no other cause holds anywhere. The only error is want of memory. `ops` has the
/// operations of the prelude. A text tells of deletions where the program has a deletion place, and its first line says so.
///
/// The numbers of a text have 32 bits. A program with more definition sites, spawn places or deletion places than that would need a
/// hundred times the memory of a machine, and is answered as if memory ran out. No script is such a program: it has at most 4,110
/// sites, and fewer spawn and deletion places than bytes.
pub fn replay(
    alloc: Global,
    ready: &Ready,
    text: &[u8],
    ops: &HostOps,
) -> Result<Verdict, AllocError>
    requires short { length text.now ≤ MOST_HISTORY_BYTES }
    ensures verdict { IfOk result (λ verdict. IsVerdict ready.now text.now verdict) }
    ensures legal { (es : List Event) → IsLegal ready.now es → text.now ≡ history_text ready.now es → IfOk result (λ verdict. verdict ≡ Legal (length es)) }
{
    ready.valid();
    let numbered = is_numbered(ready.program());
    if !numbered {
        return Err(AllocError);
    }
    let verdict = judge_text(alloc, ready, text, ops)?;
    Ok(verdict)
}
