//! The seats from which the words are read and written. A contract sees a seat as what it knows.

ghost use Rattle.std.specs.Prelude.{◌≡◌, length};

use crate::name::Naming;
use crate::view::{BookView, TaskView, View};
use atomic_table::Seat;
use std::marker::{Model, PhantomData};

/// The seat that stores. Who has it knows all events.
#[derive(Drop)]
pub struct BookSeat<N: Naming> {
    pub(crate) seat: Seat<(), View>,
    pub(crate) world: u32,
    pub(crate) count: u32,
    pub(crate) linked: u32,
    pub(crate) of: PhantomData<N>,
}

impl<N: Naming> Model for BookSeat<N> {
    ghost use Rattle.std.specs.Prelude.{◌≡◌, [], length};
    ghost use Rattle.jl_calculus.specs.Ranges.{rows_of};
    ghost use Rattle.jl_calculus.specs.World.{world_of};
    ghost use Rattle.jl_world.specs.declared.view.BookView.{BookView};
    ghost use Rattle.jl_world.specs.declared.view.View.TheVariants.{Book};
    ghost use Rattle.jl_world.specs.Places.{AreFew};
    ghost use Rattle.jl_world.specs.Views.{book_of};
    ghost use Rattle.jl_world.specs.contracts.view.BookView as e;

    ghost Value = { BookView };

    ghost coded = { e.the_row.coded };

    ghost view = { λ s. book_of s.seat.me.0 };

    ghost invariant = { λ s. (s.seat.table_id ≡ N.table) × (s.seat.me ≡ (Book (book_of s.seat.me.0), [])) × (s.world ≡ world_of (book_of s.seat.me.0).events) × (s.count ≡ length (book_of s.seat.me.0).events) × (s.linked ≡ length (rows_of (book_of s.seat.me.0).events)) × AreFew N.about (book_of s.seat.me.0).events };
}

/// The seat of a task, or one that only looks.
#[derive(Drop)]
pub struct TaskSeat<N: Naming> {
    pub(crate) seat: Seat<(), View>,
    pub(crate) seen: u32,
    pub(crate) of: PhantomData<N>,
}

impl<N: Naming> Model for TaskSeat<N> {
    ghost use Rattle.std.specs.Prelude.{◌≡◌, [], length};
    ghost use Rattle.jl_world.specs.declared.view.TaskView.{TaskView};
    ghost use Rattle.jl_world.specs.declared.view.View.TheVariants.{Task};
    ghost use Rattle.jl_world.specs.Places.{AreFew};
    ghost use Rattle.jl_world.specs.Views.{task_of};
    ghost use Rattle.jl_world.specs.contracts.view.TaskView as e;

    ghost Value = { TaskView };

    ghost coded = { e.the_row.coded };

    ghost view = { λ s. task_of s.seat.me.0 };

    ghost invariant = { λ s. (s.seat.table_id ≡ N.table) × (s.seat.me ≡ (Task (task_of s.seat.me.0), [])) × (s.seen ≡ length (task_of s.seat.me.0).seen) × AreFew N.about (task_of s.seat.me.0).seen };
}

impl<N: Naming> TaskSeat<N> {
    /// How many events were seen.
    pub fn seen(&self) -> u32
        ensures { result ≡ length self.now.seen }
    {
        self.seen
    }
}
