//! How the book's seat adds what a task makes: it takes the seat of the task's pass in, stores the event, and gives the seat back.

ghost use Rattle.std.specs.Prelude.{◌≡◌, ◌<◌, ◌++◌, ◌∷◌, [], Some, length};
ghost use Rattle.jl_model.specs.declared.limits.TheConstants.{MOST_WORLDS, MOST_TASKS};
ghost use Rattle.jl_calculus.specs.declared.history.Event.TheVariants.{Spawn, Done};
ghost use Rattle.jl_calculus.specs.Legal.{MayBeMade};
ghost use Rattle.jl_calculus.specs.Past.{tasks_of};
ghost use Rattle.jl_calculus.specs.Words.{AreAllCut};
ghost use Rattle.jl_calculus.specs.World.{change_event, world_of};
ghost use Rattle.jl_world.specs.Rule.{IsHistory};
ghost use Rattle.jl_world.specs.Views.{Fits, begun, met, noted, taken};
ghost use Rattle.jl_book.specs.Books.{at_rest};

use jl_calculus::history::{Change, Event, Record};
use jl_program::tree::Start;
use jl_world::{BookSeat, Naming, TaskSeat, World};
use std::mem;

/// The book's seat takes in the seat of a pass, which is then an idle one.
fn take_in<N: Naming>(world: &World<N>, book: &mut BookSeat<N>, seat: &mut TaskSeat<N>)
    ensures book { book.new ≡ taken seat.old book.old }
    ensures fits { Fits N.about.program.value book.old.events seat.old }
    ensures history { IsHistory N.about book.old.events }
{
    let idle = world.child(seat);
    let whole = mem::replace(seat, idle);
    world.end(book, whole);
}

/// Publishes a change by the task of a seat, for which all rows were cut.
pub(crate) fn publish<N: Naming>(
    world: &World<N>,
    book: &mut BookSeat<N>,
    seat: &mut TaskSeat<N>,
    task: u32,
    change: Change,
)
    requires task { seat.old.task ≡ Some task }
    requires rest { (book.old.held ≡ []) × (book.old.stored ≡ []) }
    requires change { MayBeMade N.about.program.value book.old.events change }
    requires cut { AreAllCut N.about.program.value book.old.events change book.old.cut }
    requires world { world_of book.old.events < MOST_WORLDS }
    ensures book { book.new ≡ at_rest (book.old.events ++ change_event task change ∷ []) }
    ensures seat { seat.new ≡ met (book.old.events ++ change_event task change ∷ []) (noted (length book.old.events) (change_event task change) seat.old) }
    ensures fits { Fits N.about.program.value book.old.events seat.old }
    ensures history { IsHistory N.about book.old.events }
{
    take_in(world, book, seat);
    world.publish(book, task, change);
    *seat = world.give(book, task);
}

/// Notes that the task of a seat spawns another, and gives the event and the child's seat.
pub(crate) fn spawn<N: Naming>(
    world: &World<N>,
    book: &mut BookSeat<N>,
    seat: &mut TaskSeat<N>,
    task: u32,
    child: u32,
    start: Start,
) -> (Event, TaskSeat<N>)
    requires task { seat.old.task ≡ Some task }
    requires rest { book.old ≡ at_rest book.old.events }
    requires place { start.spawn < length N.about.program.value.spawns }
    requires child { child ≡ tasks_of book.old.events }
    requires room { tasks_of book.old.events < MOST_TASKS }
    ensures event { result.0 ≡ Spawn task child start }
    ensures book { book.new ≡ at_rest (book.old.events ++ Spawn task child start ∷ []) }
    ensures seat { seat.new ≡ met (book.old.events ++ Spawn task child start ∷ []) (noted (length book.old.events) (Spawn task child start) seat.old) }
    ensures child { result.1 ≡ begun child (Some start) (book.old.events ++ Spawn task child start ∷ []) }
    ensures fits { Fits N.about.program.value book.old.events seat.old }
    ensures history { IsHistory N.about book.old.events }
{
    let event = Event::Spawn { task, child, start };
    take_in(world, book, seat);
    world.note(book, &event);
    let first = world.give(book, child);
    *seat = world.give(book, task);
    (event, first)
}

/// Notes that the task of a seat has ended, and gives the event.
pub(crate) fn end<N: Naming>(
    world: &World<N>,
    book: &mut BookSeat<N>,
    seat: TaskSeat<N>,
    task: u32,
    ended: Record,
) -> Event
    requires task { seat.task ≡ Some task }
    requires rest { book.old ≡ at_rest book.old.events }
    ensures event { result ≡ Done task ended }
    ensures book { book.new ≡ at_rest (book.old.events ++ Done task ended ∷ []) }
    ensures fits { Fits N.about.program.value book.old.events seat }
    ensures history { IsHistory N.about book.old.events }
{
    let event = Event::Done { task, ended };
    world.end(book, seat);
    world.note(book, &event);
    event
}
