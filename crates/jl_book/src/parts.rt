//! The parts of a book that grow with an event, and what they answer.

ghost use Rattle.std.specs.Prelude.{◌≡◌, ◌++◌, ◌∷◌, [], List, OnOk, MatchOption, None, Some};
ghost use Rattle.jl_calculus.specs.declared.history.Event.{Event};
ghost use Rattle.jl_calculus.specs.Legal.{MayCome};
ghost use Rattle.jl_calculus.specs.Past.{done_of};
ghost use Rattle.jl_methods.specs.Indexed.{noted_in, IsIndexOf, MayBeNoted, HasRoomFor};
ghost use Rattle.jl_methods.specs.Room.{IsRoomy};
ghost use Rattle.jl_book.specs.Tasks.{HasEnds};

use jl_calculus::history::{Event, Record};
use jl_methods::Index;
use jl_sig::Ready;
use std::alloc::AllocError;

/// Takes all the memory that an event needs, in the index and among the events.
pub(crate) fn reserve(
    ready: &Ready,
    index: &mut Index,
    events: &mut Vec<Event>,
    event: &Event,
) -> Result<(), AllocError>
    requires { MayBeNoted ready.now index.old event.now }
    ensures room { OnOk result (HasRoomFor ready.now event.now index.new) }
    ensures place { OnOk result (IsRoomy events.new) }
    ensures noted { noted_in index.new ≡ noted_in index.old }
    ensures events { events.new.items ≡ events.old.items }
{
    events.reserve(1)?;
    index.reserve(ready, event)
}

/// Adds the event for which the memory was taken.
pub(crate) fn add(ready: &Ready, index: &mut Index, events: &mut Vec<Event>, event: Event)
    requires room { HasRoomFor ready.now event index.old }
    requires place { IsRoomy events.old }
    ensures index { (es : List Event) → IsIndexOf ready.now es index.old → MayCome ready.now es event → IsIndexOf ready.now (es ++ event ∷ []) index.new }
    ensures events { events.new.items ≡ events.old.items ++ event ∷ [] }
{
    index.note(ready, &event);
    events.push_reserved(event);
}

/// What a task did, where it has ended.
pub(crate) fn record_of<'a>(
    events: &'a [Event],
    ends: &[Option<u32>],
    task: u32,
) -> Option<&'a Record>
    requires { HasEnds events.now ends.now }
    ensures { MatchOption result (done_of task events.now ≡ None) (λ ended. done_of task events.now ≡ Some ended.now) }
{
    if task as usize >= ends.len() {
        return None;
    }
    let Some(place) = ends[task as usize] else {
        return None;
    };
    match &events[place as usize] {
        Event::Done { ended, .. } => Some(ended),
        _ => unreachable!(),
    }
}
