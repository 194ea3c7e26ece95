//! The definitions and the deletions among changes, by flags.

ghost use Rattle.std.specs.Prelude.{◌≡◌, ◌≤◌, ◌++◌, IfOk, OnOk, length};
ghost use Rattle.jl_model.specs.declared.limits.TheConstants.{MOST_WORLDS};
ghost use Rattle.jl_core.specs.Flags.{def_in, del_in, picked};

use jl_calculus::history::{Change, Def, Del};
use std::alloc::{AllocError, Global};

/// Appends a change that makes a world, where it is a definition.
fn add_def(defs: &mut Vec<Def>, world: u32, change: Change) -> Result<(), AllocError>
    ensures { OnOk result (defs.new.items ≡ defs.old.items ++ def_in world change) }
{
    match change {
        Change::Def(site) => defs.push(Def { world, site })?,
        Change::Del(_) => {}
    }
    Ok(())
}

/// Appends a change that makes a world, where it is a deletion.
fn add_del(dels: &mut Vec<Del>, world: u32, change: Change) -> Result<(), AllocError>
    ensures { OnOk result (dels.new.items ≡ dels.old.items ++ del_in world change) }
{
    match change {
        Change::Def(_) => {}
        Change::Del(place) => dels.push(Del { world, place })?,
    }
    Ok(())
}

/// The definitions among the flagged ones of these changes, of which the first makes world 1.
pub(crate) fn defs_of(
    alloc: Global,
    made: &[Change],
    flags: &[bool],
) -> Result<Vec<Def>, AllocError>
    requires long { length flags.now ≡ length made.now }
    requires few { length made.now ≤ MOST_WORLDS }
    ensures { IfOk result (λ defs. defs.items ≡ picked def_in 1 made.now flags.now) }
{
    let mut defs = Vec::new(alloc);
    for (i, change) in made.iter().enumerate() {
        if !flags[i] {
            continue;
        }
        add_def(&mut defs, i as u32 + 1, *change)?;
    }
    Ok(defs)
}

/// The deletions among them.
pub(crate) fn dels_of(
    alloc: Global,
    made: &[Change],
    flags: &[bool],
) -> Result<Vec<Del>, AllocError>
    requires long { length flags.now ≡ length made.now }
    requires few { length made.now ≤ MOST_WORLDS }
    ensures { IfOk result (λ dels. dels.items ≡ picked del_in 1 made.now flags.now) }
{
    let mut dels = Vec::new(alloc);
    for (i, change) in made.iter().enumerate() {
        if !flags[i] {
            continue;
        }
        add_del(&mut dels, i as u32 + 1, *change)?;
    }
    Ok(dels)
}
