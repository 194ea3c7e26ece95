//! The shortest list of ranges of worlds with one choice each.

ghost use Rattle.std.specs.Prelude.{◌≡◌, ◌↔◌, ◌∷◌, IsTrue, IfOk, List};
ghost use Rattle.jl_model.specs.declared.ty.Key.{Key as K};
ghost use Rattle.jl_program.specs.declared.tree.Program.{Program};
ghost use Rattle.jl_calculus.specs.declared.history.Event.{Event as E};
ghost use Rattle.jl_calculus.specs.Legal.{IsKeyOf, MayStand};
ghost use Rattle.jl_program.specs.Valid.{IsValid};
ghost use Rattle.jl_reflect.specs.Chosen.{AreChosen};
ghost use Rattle.jl_reflect.specs.Spans.{AreSpans};

use crate::choices::{Chosen, choices};
use jl_calculus::history::Event;
use jl_model::ty::Key;
use jl_program::choice::Choice;
use jl_sig::Ready;
use std::alloc::{AllocError, Global};

/// Worlds from a first one to a last one, or without an end, in which one thing is chosen.
#[derive(Clone, Copy)]
pub struct Span {
    pub first: u32,
    pub last: Option<u32>,
    pub choice: Choice,
}

/// Whether two choices are one.
fn is_same(a: Choice, b: Choice) -> bool
    ensures { IsTrue result ↔ (a ≡ b) }
{
    a == b
}

/// The ranges of some choices, of which the first begins in the world in which a script does: neighbours with one choice are one range, and
/// the last has no end.
fn join(alloc: Global, start: Chosen, later: &[Chosen]) -> Result<Vec<Span>, AllocError>
    ensures { IfOk result (λ spans. (P : Program) (es : List E) (key : K) → IsValid P → IsKeyOf P key → AreChosen P es key (start ∷ later.now) → AreSpans P es key spans.items) }
{
    let mut spans = Vec::new(alloc);
    let mut first = start.world;
    let mut choice = start.choice;
    for next in later {
        if is_same(next.choice, choice) {
            continue;
        }
        let last = Some(next.world.saturating_sub(1));
        spans.push(Span {
            first,
            last,
            choice,
        })?;
        first = next.world;
        choice = next.choice;
    }
    let last = None;
    spans.push(Span {
        first,
        last,
        choice,
    })?;
    Ok(spans)
}

/// The ranges of worlds of a history in which one thing is chosen for a key: the shortest list of them that covers the worlds from that in
/// which a script begins to the newest once each, in order. The last has no end. A call of the key's function with arguments of
/// its types in a world runs what is chosen there. The cost is in the events, and for each change that touches the key in the sites of its
/// function.
pub fn spans(
    alloc: Global,
    ready: &Ready,
    events: &[Event],
    key: &Key,
) -> Result<Vec<Span>, AllocError>
    requires stand { MayStand ready.now events.now }
    requires key { IsKeyOf ready.now key.now }
    ensures { IfOk result (λ spans. AreSpans ready.now events.now key.now spans.items) }
{
    ready.valid();
    let all = choices(alloc, ready, events, key)?;
    match all.as_slice() {
        [start, later @ ..] => {
            let spans = join(alloc, *start, later)?;
            Ok(spans)
        }
        [] => unreachable!(),
    }
}
