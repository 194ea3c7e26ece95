//! All changes of a history, by their functions.

ghost use Rattle.std.specs.Prelude.{◌≡◌, ◌<◌, ◌≤◌, IfOk, length};
ghost use Rattle.jl_model.specs.declared.limits.TheConstants.{MOST_WORLDS};
ghost use Rattle.jl_calculus.specs.Legal.{MayStand};
ghost use Rattle.jl_calculus.specs.World.{changes};
ghost use Rattle.jl_ambig.specs.Asked.{change_in, components_at};

use jl_calculus::history::{Change, Event};
use jl_choosing::{Changes, prelude_changes};
use jl_sig::Ready;
use std::alloc::{AllocError, Global};

/// The change of the methods that an event makes.
fn change_of(event: &Event) -> Option<Change>
    ensures { result ≡ change_in event.now }
{
    match event {
        Event::Def { site, .. } => Some(Change::Def(*site)),
        Event::Del { place, .. } => Some(Change::Del(*place)),
        Event::Begin(_)
        | Event::Key(_)
        | Event::Fill { .. }
        | Event::Spawn { .. }
        | Event::Done { .. } => None,
    }
}

/// The changes of a history, the prelude's first.
pub fn changes_of<'p>(
    alloc: Global,
    ready: &'p Ready,
    events: &[Event],
) -> Result<Changes<'p>, AllocError>
    requires { MayStand ready.now events.now }
    ensures all { IfOk result (λ made. made ≡ (ready.now, changes events.now)) }
    ensures few { IfOk result (λ made. length made.1 ≤ MOST_WORLDS) }
{
    let mut made = prelude_changes(alloc, ready)?;
    for event in events {
        let Some(change) = change_of(event) else {
            continue;
        };
        made.push(change)?;
    }
    Ok(made)
}

/// The number of components of the definitions of a site.
pub(crate) fn components(ready: &Ready, site: u32) -> usize
    requires { site < length ready.now.sites }
    ensures { result ≡ components_at ready.now site }
{
    ready.program().sites.as_slice()[site as usize]
        .sig
        .parts
        .len()
}
