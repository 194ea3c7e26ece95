//! Which tasks end somewhere in a text.

ghost use Rattle.std.specs.Prelude.{◌≡◌, ◌<◌, ℕ, false, IfOk, length, get_or};
ghost use Rattle.jl_model.specs.declared.limits.TheConstants.{MOST_TASKS};
ghost use Rattle.jl_causes.specs.Causes.{has_end};

use jl_model::limits::MOST_TASKS;
use jl_report::Entry;
use std::alloc::{AllocError, Global};

/// A flag for each task that there may be.
fn no_flags(alloc: Global) -> Result<Vec<bool>, AllocError>
    ensures many { IfOk result (λ flags. length flags.items ≡ MOST_TASKS) }
    ensures each { IfOk result (λ flags. (task : ℕ) → get_or flags.items task false ≡ false) }
{
    let mut flags = Vec::new(alloc);
    for _ in 0..MOST_TASKS {
        flags.push(false)?;
    }
    Ok(flags)
}

/// Whether some entry is the end of a task, for each task that there may be.
pub(crate) fn find_finished(alloc: Global, entries: &[Entry]) -> Result<Vec<bool>, AllocError>
    ensures many { IfOk result (λ flags. length flags.items ≡ MOST_TASKS) }
    ensures each { IfOk result (λ flags. (task : ℕ) → task < MOST_TASKS → get_or flags.items task false ≡ has_end entries.now task) }
{
    let mut flags = no_flags(alloc)?;
    for entry in entries {
        if let Entry::Done { task, .. } = entry {
            if (*task as usize) < MOST_TASKS {
                flags[*task as usize] = true;
            }
        }
    }
    Ok(flags)
}
