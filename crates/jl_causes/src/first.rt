//! The first cause of a text.

ghost use Rattle.std.specs.Prelude.{◌<◌, ◌^◌, length, IfOk, MatchOption};
ghost use Rattle.jl_causes.specs.Causes.{StartWell, HasNoCause, IsFirstCause};

use crate::cause::Cause;
use crate::judge::Judge;
use crate::key::read_named;
use jl_report::Entry;
use jl_sig::Ready;
use std::alloc::{AllocError, Global};

/// The first entry of which a cause holds that can be told without a run, and the first such cause in the table; none where there
/// is no such entry. The cost is in the length of the text, in the number of keys for each key, in the rows of its key for
/// each fill that begins before the newest of these, in that of the choices of the fills, and for each deletion, and each step that
/// found none to delete, in the sites of its function and signature, which are found once for each place.
pub fn first_cause(
    alloc: Global,
    ready: &Ready,
    entries: &[Entry],
) -> Result<Option<(u32, Cause)>, AllocError>
    requires begun { StartWell entries.now }
    requires few { length entries.now < 2 ^ 32 }
    ensures { IfOk result (λ found. MatchOption found (HasNoCause ready.now entries.now) (λ (n, cause). IsFirstCause ready.now entries.now n cause)) }
{
    let mut judge = Judge::new(alloc, ready, entries)?;
    if !judge.is_finished(0) {
        return Ok(Some((0, Cause::Unfinished)));
    }
    for n in 1..entries.len() as u32 {
        let entry = &entries[n as usize];
        let key = read_named(alloc, ready, entry)?;
        if let Some(cause) = judge.find_cause(alloc, ready, entries, entry, &key)? {
            return Ok(Some((n, cause)));
        }
        judge.note(alloc, ready, n, entry, key)?;
    }
    Ok(None)
}
