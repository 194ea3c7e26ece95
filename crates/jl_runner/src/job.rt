//! What a worker may turn to: a task that has not begun, or one that goes on.

use crate::known::Known;
use jl_book::Pass;
use jl_machine::Machine;
use jl_program::tree::Start;
use jl_world::Naming;
use std::marker::Model;

/// A task that has not begun. Contracts see what its pass knows, and its start.
#[derive(Drop)]
pub struct New<N: Naming> {
    pass: Pass<N>,
    start: Option<Start>,
}

impl<N: Naming> Model for New<N> {
    ghost use Rattle.std.specs.Prelude.{Option};
    ghost use Rattle.std.specs.Coded.{coded×, coded_option};
    ghost use Rattle.jl_program.specs.declared.tree.Start.{Start};
    ghost use Rattle.jl_program.specs.contracts.tree.Start as s;
    ghost use Rattle.jl_world.specs.declared.view.TaskView.{TaskView};
    ghost use Rattle.jl_world.specs.contracts.view.TaskView as v;
    ghost use Rattle.jl_runner.specs.Knowing.{IsNew};

    ghost Value = { TaskView × Option Start };

    ghost coded = { coded× v.the_row.coded (coded_option s.the_row.coded) };

    ghost view = { λ n. (n.pass, n.start) };

    ghost invariant = { λ n. IsNew N.about n.pass n.start };
}

impl<N: Naming> New<N> {
    ghost use Rattle.std.specs.Prelude.{◌≡◌};
    ghost use Rattle.jl_runner.specs.Knowing.{IsNew};

    /// A task with this start; the root has none.
    pub(crate) fn of(pass: Pass<N>, start: Option<Start>) -> New<N>
        requires { IsNew N.about pass start }
        ensures { result ≡ (pass, start) }
    {
        New { pass, start }
    }

    /// Its pass and its start.
    pub(crate) fn into_parts(self) -> (Pass<N>, Option<Start>)
        ensures parts { result ≡ self }
        ensures new { IsNew N.about result.0 result.1 }
    {
        let New { pass, start } = self;
        (pass, start)
    }
}

/// A task that has begun, and was left where it waits for another one, or has spawned one. Contracts see what it knows.
#[derive(Drop)]
pub struct Waiting<'p, N: Naming> {
    machine: Machine<'p>,
    known: Known<N>,
}

impl<'p, N: Naming> Model for Waiting<'p, N> {
    ghost use Rattle.jl_runner.specs.declared.known.Knowing.{Knowing};
    ghost use Rattle.jl_runner.specs.contracts.known.Knowing as k;
    ghost use Rattle.jl_runner.specs.Working.{WorksFor};

    ghost Value = { Knowing };

    ghost coded = { k.the_row.coded };

    ghost view = { λ w. w.known };

    ghost invariant = { λ w. WorksFor N.about w.machine w.known };
}

impl<'p, N: Naming> Waiting<'p, N> {
    ghost use Rattle.std.specs.Prelude.{◌≡◌};
    ghost use Rattle.jl_runner.specs.Working.{WorksFor};

    /// A task that was left.
    pub(crate) fn of(machine: Machine<'p>, known: Known<N>) -> Waiting<'p, N>
        requires { WorksFor N.about machine known }
        ensures { result ≡ known }
    {
        Waiting { machine, known }
    }

    /// Its machine, and what it knows.
    pub(crate) fn into_parts(self) -> (Machine<'p>, Known<N>)
        ensures { WorksFor N.about result.0 result.1 }
    {
        let Waiting { machine, known } = self;
        (machine, known)
    }
}

/// What a worker may turn to.
#[derive(Drop)]
pub enum Job<'p, N: Naming> {
    New(New<N>),
    Waiting(Waiting<'p, N>),
}
