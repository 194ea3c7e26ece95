//! What the steps on the words tell.

use crate::name::Naming;
use crate::view::View;
use atomic_table::{Join, Play, Split};
use std::marker::{Brand, PhantomData};

/// A load of the world word.
pub struct Looks<N: Naming> {
    of: PhantomData<N>,
}

impl<N: Naming> Play<(), View> for Looks<N> {
    ghost use Rattle.std.specs.Prelude.{◌≡◌};
    ghost use Rattle.jl_world.specs.Tells.{HasLooked};
    ghost use Rattle.jl_world.specs.Views.{task_of};
    ghost use Rattle.jl_world.specs.declared.view.View.TheVariants.{Task};

    ghost then = { λ step me n after. (after ≡ (Task (task_of after.0), me.1)) × HasLooked N.about (task_of me.0) n (task_of after.0) };
}

/// The event of a step, which the words do not tell.
pub trait Told {
    ghost use Rattle.jl_calculus.specs.declared.history.Event.{Event};

    ghost event: { Event };
}

impl Told for Brand {
    ghost use Rattle.jl_calculus.specs.declared.history.Event.TheVariants.{Begin};

    ghost event = { Begin 0 };
}

/// A store of the book's seat that adds an event.
pub struct Grows<N: Naming, E: Told> {
    of: PhantomData<(N, E)>,
}

impl<N: Naming, E: Told> Play<(), View> for Grows<N, E> {
    ghost use Rattle.std.specs.Prelude.{◌≡◌};
    ghost use Rattle.jl_world.specs.Places.{AreFew};
    ghost use Rattle.jl_world.specs.Views.{grown, book_of};
    ghost use Rattle.jl_world.specs.declared.view.View.TheVariants.{Book};

    ghost then = { λ step me n after. (after ≡ (Book (grown E.event (book_of me.0)), me.1)) × AreFew N.about (grown E.event (book_of me.0)).events };
}

/// A load of the book's seat, which tells what the rule says of it.
pub struct Checks<N: Naming> {
    of: PhantomData<N>,
}

impl<N: Naming> Play<(), View> for Checks<N> {
    ghost use Rattle.std.specs.Prelude.{◌≡◌};
    ghost use Rattle.jl_world.specs.Rule.{IsHistory};
    ghost use Rattle.jl_world.specs.Views.{Each, Fits, book_of};

    ghost then = { λ step me n after. (after ≡ me) × IsHistory N.about (book_of me.0).events × Each (Fits N.about.program.value (book_of me.0).events) (book_of me.0).held };
}

/// A new seat has seen as much.
pub struct Copies;

impl Split<View> for Copies {
    ghost use Rattle.jl_world.specs.Views.{idle, task_of};
    ghost use Rattle.jl_world.specs.declared.view.View.TheVariants.{Task};

    ghost left = { λ v. v };

    ghost right = { λ v. Task (idle (task_of v).seen) };
}

/// A new seat has all that this one has, which keeps what it has seen.
pub struct HandsOver;

impl Split<View> for HandsOver {
    ghost use Rattle.jl_world.specs.Views.{idle, task_of};
    ghost use Rattle.jl_world.specs.declared.view.View.TheVariants.{Task};

    ghost left = { λ v. Task (idle (task_of v).seen) };

    ghost right = { λ v. v };
}

/// The book's seat takes in that of a task.
pub struct TakesIn;

impl Join<View> for TakesIn {
    ghost use Rattle.jl_world.specs.Views.{taken, task_of, book_of};
    ghost use Rattle.jl_world.specs.declared.view.View.TheVariants.{Nobody, Book};

    ghost both = { λ v w. Book (taken (task_of w) (book_of v)) };

    ghost spent = { Nobody };
}

/// A new seat has the view that the book's seat took in last, and has seen all that it has.
pub struct Returns;

impl Split<View> for Returns {
    ghost use Rattle.jl_world.specs.Views.{returned, front, met, book_of};
    ghost use Rattle.jl_world.specs.declared.view.View.TheVariants.{Task, Book};

    ghost left = { λ v. Book (returned (book_of v)) };

    ghost right = { λ v. Task (met (book_of v).events (front (book_of v).held)) };
}

/// The task whose seat is asked for.
pub trait Asked {
    ghost use Rattle.std.specs.Prelude.{ℕ};

    ghost task: { ℕ };
}

impl Asked for Brand {
    ghost task = { 0 };
}

/// A new seat has the view of a task that the book's seat holds, and has seen all that it has.
pub struct Gives<T: Asked> {
    of: PhantomData<T>,
}

impl<T: Asked> Split<View> for Gives<T> {
    ghost use Rattle.jl_world.specs.Views.{given, view_of, met, book_of};
    ghost use Rattle.jl_world.specs.declared.view.View.TheVariants.{Task, Book};

    ghost left = { λ v. Book (given T.task (book_of v)) };

    ghost right = { λ v. Task (met (book_of v).events (view_of T.task (book_of v).held)) };
}

/// The book's seat cuts a row at the present world, ahead of a definition.
pub struct Cuts;

impl Play<(), View> for Cuts {
    ghost use Rattle.std.specs.Prelude.{◌≡◌, ℕ};
    ghost use Rattle.jl_world.specs.Places.{row_place};
    ghost use Rattle.jl_world.specs.Views.{cut_at, book_of};
    ghost use Rattle.jl_world.specs.declared.row_word.RowWord.TheVariants.{Last};
    ghost use Rattle.jl_world.specs.declared.view.View.TheVariants.{Book};

    ghost then = { λ step me n after. (r : ℕ) → step.word ≡ row_place r Last → after ≡ (Book (cut_at r (book_of me.0)), me.1) };
}

/// The book's seat stores a word of a row that is not linked.
pub struct Loosens;

impl Play<(), View> for Loosens {
    ghost use Rattle.std.specs.Prelude.{◌≡◌};
    ghost use Rattle.jl_world.specs.Views.{stored_at, book_of};
    ghost use Rattle.jl_world.specs.declared.view.View.TheVariants.{Book};

    ghost then = { λ step me n after. after ≡ (Book (stored_at step.word step.first (book_of me.0)), me.1) };
}

/// A load of the head of a key.
pub struct Heads<N: Naming> {
    of: PhantomData<N>,
}

impl<N: Naming> Play<(), View> for Heads<N> {
    ghost use Rattle.std.specs.Prelude.{◌≡◌};
    ghost use Rattle.jl_world.specs.Tells.{HasHead};
    ghost use Rattle.jl_world.specs.Views.{task_of};
    ghost use Rattle.jl_world.specs.declared.view.View.TheVariants.{Task};

    ghost then = { λ step me n after. (after ≡ (Task (task_of after.0), me.1)) × HasHead N.about step.word (task_of me.0) n (task_of after.0) };
}

/// A load of a word of a row whose fill was seen.
pub struct Rows<N: Naming> {
    of: PhantomData<N>,
}

impl<N: Naming> Play<(), View> for Rows<N> {
    ghost use Rattle.std.specs.Prelude.{◌≡◌, ℕ, ◌<◌, length};
    ghost use Rattle.jl_calculus.specs.Ranges.{rows_of};
    ghost use Rattle.jl_world.specs.declared.row_word.RowWord.{RowWord};
    ghost use Rattle.jl_world.specs.Places.{row_place};
    ghost use Rattle.jl_world.specs.Tells.{IsRowWord};
    ghost use Rattle.jl_world.specs.Views.{task_of};

    ghost then = { λ step me n after. (after ≡ me) × ((r : ℕ) (w : RowWord) → step.word ≡ row_place r w → r < length (rows_of (task_of me.0).seen) → IsRowWord N.about.program.value (task_of me.0).seen r w n) };
}

/// A load of the book's seat, which tells the word.
pub struct Reads<N: Naming> {
    of: PhantomData<N>,
}

impl<N: Naming> Play<(), View> for Reads<N> {
    ghost use Rattle.std.specs.Prelude.{◌≡◌};
    ghost use Rattle.jl_world.specs.declared.row_word.Place.{Place};
    ghost use Rattle.jl_world.specs.Places.{index_of};
    ghost use Rattle.jl_world.specs.Tells.{HasWord, IsPlace};
    ghost use Rattle.jl_world.specs.Views.{book_of};

    ghost then = { λ step me n after. (after ≡ me) × ((p : Place) → step.word ≡ index_of p → IsPlace N.about (book_of me.0).events p → HasWord N.about.program.value (book_of me.0).events (book_of me.0).cut p n) };
}
