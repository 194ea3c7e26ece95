//! What a running machine asks: its own task's knowledge first, and the book of the run where that does not do.

ghost use Rattle.std.specs.Prelude.{◌≡◌, IfOk};
ghost use Rattle.jl_calculus.specs.Learnt.{IsNamed};
ghost use Rattle.jl_calculus.specs.Legal.{IsKeyOf};
ghost use Rattle.jl_calculus.specs.World.{world_of};
ghost use Rattle.jl_task.specs.Knows.{Asked, IsRight};
ghost use Rattle.jl_task.specs.Worlds.{IsWorld};
ghost use Rattle.jl_runner.specs.Knowing.{knows_of};

use crate::job::{Job, New};
use crate::known::Known;
use crate::shared::Shared;
use crate::turns::Spawns;
use jl_calculus::history::{DefineFault, DeleteFault, FetchFault, Outcome, Seen, SpawnFault};
use jl_model::shared::SharedNode;
use jl_model::ty::Key;
use jl_program::choice::Choice;
use jl_program::tree::Start;
use jl_task::{Cached, Dispatcher};
use jl_world::Naming;
use std::alloc::AllocError;
use std::mem;
use std::sync::Wait;

/// A task while a worker runs it: what it knows, beside all that the workers share. No lock is held between two calls.
#[derive(Drop)]
pub(crate) struct Live<'s, 'p, 'r, N: Naming, R: Wait> {
    pub(crate) rt: &'r R,
    pub(crate) shared: &'s Shared<'p, N>,
    pub(crate) known: Known<N>,
    /// The task that it has spawned, until the worker has it. A turn spawns one at most.
    pub(crate) child: Option<Job<'p, N>>,
}

impl<'s, 'p, 'r, N: Naming, R: Wait> Live<'s, 'p, 'r, N, R> {
    /// The choice for a key by its rows. Only where none covers the world it takes the lock.
    fn search(&mut self, key: &Key, number: u32, world: u32) -> Result<Choice, AllocError>
        requires named { IsNamed self.old.known.view.seen number key.now }
        requires world { IsWorld world (world_of self.old.known.view.seen) }
        ensures asked { Asked (knows_of N.about self.old.known) (knows_of N.about self.new.known) }
        ensures right { IfOk result (λ choice. IsRight (knows_of N.about self.new.known) key.now.function key.now.types world choice) }
    {
        let shared = self.shared;
        match self.known.find(&shared.cache, key, number, world) {
            None => Ok(Choice::Method(world)),
            Some(miss) => {
                let mut book = shared.book.lock(self.rt);
                self.known.resolve(
                    shared.alloc,
                    shared.ready,
                    &shared.cache,
                    &mut book,
                    key,
                    miss,
                )
            }
        }
    }

    /// The choice for a key that the task has not met. It takes the lock once.
    fn ask(&mut self, key: &Key, world: u32) -> Result<Choice, AllocError>
        requires key { IsKeyOf N.about.program.value key.now }
        requires world { IsWorld world (world_of self.old.known.view.seen) }
        ensures asked { Asked (knows_of N.about self.old.known) (knows_of N.about self.new.known) }
        ensures right { IfOk result (λ choice. IsRight (knows_of N.about self.new.known) key.now.function key.now.types world choice) }
    {
        let shared = self.shared;
        let mut book = shared.book.lock(self.rt);
        self.known.ask(
            shared.alloc,
            shared.ready,
            &shared.cache,
            &mut book,
            key,
            world,
        )
    }
}

impl<'s, 'p, 'r, N: Naming, R: Wait> Dispatcher for Live<'s, 'p, 'r, N, R> {
    ghost use Rattle.jl_runner.specs.Knowing.{knows_of};

    ghost knows = { λ l. knows_of N.about l.known };

    fn newest(&mut self) -> Seen {
        self.known.look(&self.shared.cache)
    }

    fn select(&mut self, key: Key, world: u32) -> Result<Choice, AllocError> {
        match self.known.number_of(&key) {
            Some(number) => self.search(&key, number, world),
            None => self.ask(&key, world),
        }
    }

    fn site(&self, definition: u32) -> u32 {
        self.known.site()
    }

    fn define(&mut self, site: u32) -> Result<u32, DefineFault> {
        let shared = self.shared;
        let mut book = shared.book.lock(self.rt);
        self.known
            .define(shared.alloc, shared.ready, &shared.cache, &mut book, site)
    }

    fn delete(&mut self, place: u32) -> Result<u32, DeleteFault> {
        let shared = self.shared;
        let mut book = shared.book.lock(self.rt);
        self.known.delete(shared.alloc, shared.ready, &shared.cache, &mut book, place)
    }

    fn spawn(&mut self, start: Start) -> Result<u32, SpawnFault> {
        let shared = self.shared;
        let mut book = shared.book.lock(self.rt);
        let spawned = self
            .known
            .spawn(shared.alloc, &shared.cache, &mut book, &start);
        drop(book);
        match spawned {
            Ok((child, pass)) => {
                let job = Job::New(New::of(pass, Some(start)));
                drop(mem::replace(&mut self.child, Some(job)));
                Ok(child)
            }
            Err(fault) => {
                drop(start);
                Err(fault)
            }
        }
    }

    fn fetched(&mut self, task: u32) -> Result<SharedNode<Outcome>, FetchFault> {
        let shared = self.shared;
        let mut book = shared.book.lock(self.rt);
        self.known.fetch(&shared.cache, &mut book, task)
    }

    fn seen(&self) -> u32 {
        self.known.seen()
    }
}

impl<'s, 'p, 'r, N: Naming, R: Wait> Spawns for Cached<Live<'s, 'p, 'r, N, R>> {
    fn has_spawned(&self) -> bool {
        self.inner().child.is_some()
    }
}
