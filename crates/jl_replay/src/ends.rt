//! Where the entries tell the end of each task.

ghost use Rattle.std.specs.Prelude.{◌≡◌, ◌<◌, ◌^◌, ℕ, IfOk, length, get_or};
ghost use Rattle.jl_model.specs.declared.limits.TheConstants.{MOST_TASKS};
ghost use Rattle.jl_causes.specs.Causes.{StartWell};
ghost use Rattle.jl_replay.specs.Following.{AreEnds};
ghost use Rattle.jl_replay.specs.Told.{trace_told, with_end};

use jl_model::limits::MOST_TASKS;
use jl_report::{Entry, Step};
use std::alloc::{AllocError, Global};

/// No task has an end.
fn no_ends(alloc: Global) -> Result<Vec<u32>, AllocError>
    ensures many { IfOk result (λ ends. length ends.items ≡ MOST_TASKS) }
    ensures zeros { IfOk result (λ ends. (task : ℕ) → get_or ends.items task 0 ≡ 0) }
{
    let mut ends = Vec::new(alloc);
    for _ in 0..MOST_TASKS {
        ends.push(0)?;
    }
    Ok(ends)
}

/// Notes an entry that is the end of a task, at its place.
fn note_end(ends: &mut Vec<u32>, entry: &Entry, place: u32)
    ensures { ends.new.items ≡ with_end entry.now place ends.old.items }
{
    if let Entry::Done { task, .. } = entry {
        if (*task as usize) < ends.len() {
            ends[*task as usize] = place;
        }
    }
}

/// For each task that there may be the place of its end, and 0 where it has none.
pub(crate) fn find_ends(alloc: Global, entries: &[Entry]) -> Result<Vec<u32>, AllocError>
    requires begun { StartWell entries.now }
    requires few { length entries.now < 2 ^ 32 }
    ensures { IfOk result (λ ends. AreEnds entries.now ends.items) }
{
    let mut ends = no_ends(alloc)?;
    // From the last entry to the first, so that of several ends of a task the first is kept.
    let mut n = entries.len();
    while n > 0 {
        n -= 1;
        note_end(&mut ends, &entries[n], n as u32);
    }
    Ok(ends)
}

/// The steps that are told of a task at its end.
pub(crate) fn trace_of<'a>(entries: &'a [Entry], ends: &[u32], task: u32) -> &'a [Step]
    requires ends { AreEnds entries.now ends.now }
    requires there { task < MOST_TASKS }
    ensures { result.now ≡ trace_told task entries.now }
{
    match entries.get(ends[task as usize] as usize) {
        Some(Entry::Done { trace, .. }) => trace.as_slice(),
        _ => &[],
    }
}
