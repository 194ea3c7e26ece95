//! The second round of a judgement: the first entry that a run differs from.

ghost use Rattle.std.specs.Prelude.{◌≡◌, ◌<◌, ◌^◌, length, slice_get, Some, IfOk, MatchOption};
ghost use Rattle.jl_report.specs.declared.entry.Entry.TheVariants as E;
ghost use Rattle.jl_causes.specs.Causes.{StartWell, HasNoCause};
ghost use Rattle.jl_replay.specs.Differs.{AreLegalEntries};
ghost use Rattle.jl_replay.specs.Following.{IsDifference};

use crate::ends::find_ends;
use crate::runs::Runs;
use jl_causes::law_keys_apart;
use jl_host::HostOps;
use jl_report::Entry;
use jl_sig::Ready;
use std::alloc::{AllocError, Global};

/// The fuel of the beginning.
fn fuel_of(entries: &[Entry]) -> u64
    requires { StartWell entries.now }
    ensures { slice_get entries.now 0 ≡ Some (E.Begin result) }
{
    match entries {
        [Entry::Begin(fuel), ..] => *fuel,
        _ => unreachable!(),
    }
}

/// The first entry that the run of its task differs from, led by what the entries tell; none where the entries are those of a legal
/// history. No cause holds of the entries that needs no run.
pub(crate) fn first_difference(
    alloc: Global,
    ready: &Ready,
    ops: &HostOps,
    entries: &[Entry],
) -> Result<Option<u32>, AllocError>
    requires begun { StartWell entries.now }
    requires few { length entries.now < 2 ^ 32 }
    requires clean { HasNoCause ready.now entries.now }
    ensures { IfOk result (λ found. MatchOption found (AreLegalEntries ready.now entries.now) (λ n. IsDifference ready.now entries.now n)) }
{
    law_keys_apart();
    ready.valid();
    let ends = find_ends(alloc, entries)?;
    let mut runs = Runs::begin(alloc, ready, fuel_of(entries), entries)?;
    for n in 1..entries.len() as u32 {
        let same = runs.follow(alloc, ready, ops, entries, ends.as_slice(), n)?;
        if !same {
            return Ok(Some(n));
        }
    }
    Ok(None)
}
