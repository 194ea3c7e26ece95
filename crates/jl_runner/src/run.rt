//! The workers, and the run of a program's tasks.

ghost use Rattle.std.specs.Prelude.{◌≡◌, IfOk, None, Some};
ghost use Rattle.jl_calculus.specs.Legal.{IsLegal, IsCached, fuel_of};
ghost use Rattle.jl_calculus.specs.ValidHistory.{AreValidEvents};
ghost use Rattle.jl_machine.specs.Steps.{IsEnded};
ghost use Rattle.jl_queue.specs.Setups.{IsSetup};
ghost use Rattle.jl_book.specs.Passes.{IsRunOver};
ghost use Rattle.jl_world.specs.Names.{table_of, about_of};
ghost use Rattle.jl_rows.specs.Plans.{places_of};
ghost use Rattle.jl_runner.specs.Working.{WorksFor, IsNewFor, IsPlaceOf, places_with};

use crate::at_board::{AtBoard, SharedBoard};
use crate::job::{Job, New, Waiting};
use crate::jobs::Jobs;
use crate::known::Known;
use crate::live::Live;
use crate::shared::Shared;
use crate::turns::{Rest, run_turns};
use crate::worker::{Ran, work};
use jl_book::{Book, Pass};
use jl_calculus::history::{History, Record};
use jl_host::HostOps;
use jl_machine::Machine;
use jl_machine::laws::{law_ended_machine, law_new_machine};
use jl_program::tree::Start;
use jl_queue::{Gate, Setup};
use jl_sig::Ready;
use jl_task::Cached;
use jl_world::{Blank, Naming};
use std::alloc::{AllocError, Global};
use std::marker::Brand;
use std::sync::{Mutex, Wait};
use std::thread;
use std::thread::Threads;

/// A machine that has done nothing yet, for the root or for a task with a start.
fn new_machine<'p>(
    alloc: Global,
    ready: &'p Ready,
    start: &Option<Start>,
    fuel: u64,
) -> Result<Machine<'p>, AllocError>
    requires { IsPlaceOf ready.now start.now }
    ensures { IfOk result (λ machine. IsNewFor ready.now start.now fuel machine) }
{
    match start {
        None => Machine::root(alloc, ready, fuel),
        Some(start) => Machine::start(alloc, ready, start, fuel),
    }
}

impl<'p, N: Naming> Shared<'p, N> {
    /// A task beside all that is shared.
    fn live<'s, 'r, R: Wait>(&'s self, rt: &'r R, known: Known<N>) -> Live<'s, 'p, 'r, N, R>
        ensures { result.known ≡ known }
    {
        Live {
            rt,
            shared: self,
            known,
            child: None,
        }
    }

    /// Begins a task.
    fn begin<'s, 'r, R: Wait, G: Gate>(
        &'s self,
        rt: &'r R,
        gate: &G,
        new: New<N>,
    ) -> Result<(Machine<'p>, Live<'s, 'p, 'r, N, R>), AllocError>
        ensures { IfOk result (λ r. WorksFor N.about r.0 r.1.known) }
    {
        let (pass, start) = new.into_parts();
        gate.enter(pass.task());
        let made = new_machine(self.alloc, self.ready, &start, self.fuel);
        drop(start);
        match made {
            Ok(machine) => {
                let live = self.live(rt, Known::begin(self.alloc, pass));
                self.ready.valid();
                law_new_machine(&live);
                Ok((machine, live))
            }
            Err(error) => {
                drop(pass);
                Err(error)
            }
        }
    }

    /// Goes on with a task, or begins it.
    fn take_up<'s, 'r, R: Wait, G: Gate>(
        &'s self,
        rt: &'r R,
        gate: &G,
        job: Job<'p, N>,
    ) -> Result<(Machine<'p>, Live<'s, 'p, 'r, N, R>), AllocError>
        ensures { IfOk result (λ r. WorksFor N.about r.0 r.1.known) }
    {
        match job {
            Job::New(new) => self.begin(rt, gate, new),
            Job::Waiting(waiting) => {
                let (machine, known) = waiting.into_parts();
                Ok((machine, self.live(rt, known)))
            }
        }
    }

    /// Enters the end of a task into the book, and answers how many tasks are unfinished.
    fn enter_end<R: Wait, G: Gate>(
        &self,
        rt: &R,
        gate: &G,
        pass: Pass<N>,
        ended: Record,
    ) -> Result<u32, AllocError>
        requires { IsRunOver N.about pass ended }
    {
        let task = pass.task();
        let mut book = self.book.lock(rt);
        let done = book.done(&self.cache, pass, ended);
        let unfinished = book.unfinished();
        drop(book);
        match done {
            Ok(()) => {
                gate.leave(task);
                Ok(unfinished)
            }
            Err(back) => {
                drop(back);
                Err(AllocError)
            }
        }
    }

    /// Ends a task whose machine has ended.
    fn finish<R: Wait, G: Gate>(
        &self,
        rt: &R,
        gate: &G,
        machine: Machine<'p>,
        live: Live<'_, 'p, '_, N, R>,
    ) -> Result<Ran<Job<'p, N>>, AllocError>
        requires works { WorksFor N.about machine live.known }
        requires ended { IsEnded machine }
    {
        match machine.record() {
            Ok(ended) => {
                law_ended_machine(&live);
                let Live { known, child, .. } = live;
                drop(child);
                let pass = known.into_pass();
                pass.facts();
                let task = pass.task();
                let unfinished = self.enter_end(rt, gate, pass, ended)?;
                Ok(Ran::Ended { task, unfinished })
            }
            Err(error) => {
                drop(live);
                Err(error)
            }
        }
    }

    /// Leaves a task that waits for the end of another one.
    fn set_aside<R: Wait>(
        &self,
        of: u32,
        machine: Machine<'p>,
        live: Live<'_, 'p, '_, N, R>,
    ) -> Ran<Job<'p, N>>
        requires { WorksFor N.about machine live.known }
    {
        let Live { known, child, .. } = live;
        drop(child);
        let job = Job::Waiting(Waiting::of(machine, known));
        Ran::Waits { of, job }
    }

    /// Leaves a task that has spawned another one, with the job of that.
    fn hand_out<R: Wait>(
        &self,
        machine: Machine<'p>,
        live: Live<'_, 'p, '_, N, R>,
    ) -> Ran<Job<'p, N>>
        requires { WorksFor N.about machine live.known }
    {
        let Live { known, child, .. } = live;
        let job = Job::Waiting(Waiting::of(machine, known));
        Ran::Spawned { child, job }
    }

    /// Runs a task until it ends, waits or has spawned another one.
    fn run_task<R: Wait, G: Gate>(
        &self,
        rt: &R,
        gate: &G,
        ops: &HostOps,
        mut machine: Machine<'p>,
        mut with: Cached<Live<'_, 'p, '_, N, R>>,
    ) -> Result<Ran<Job<'p, N>>, AllocError>
        requires { WorksFor N.about machine with.known }
    {
        match run_turns(self.ready, self.fuel, ops, &mut machine, &mut with) {
            Ok(Rest::Ended) => self.finish(rt, gate, machine, with.into_inner()),
            Ok(Rest::Waits(of)) => Ok(self.set_aside(of, machine, with.into_inner())),
            Ok(Rest::Spawned) => Ok(self.hand_out(machine, with.into_inner())),
            Err(error) => {
                drop(machine);
                drop(with);
                Err(error)
            }
        }
    }

    /// Runs a job until its task ends, waits or has spawned another one.
    pub fn run_job<R: Wait, G: Gate>(
        &self,
        rt: &R,
        gate: &G,
        ops: &HostOps,
        job: Job<'p, N>,
    ) -> Result<Ran<Job<'p, N>>, AllocError> {
        match self.take_up(rt, gate, job) {
            Ok((machine, live)) => match Cached::new(self.alloc, live) {
                Ok(with) => self.run_task(rt, gate, ops, machine, with),
                Err(error) => {
                    drop(machine);
                    Err(error)
                }
            },
            Err(error) => Err(error),
        }
    }

    /// Opens the book of a run, with all that its workers share, and answers its root.
    pub fn open(
        alloc: Global,
        ready: &'p Ready,
        blank: Blank,
        fuel: u64,
    ) -> Result<(Shared<'p, N>, New<N>), AllocError>
        requires program { ready.now ≡ N.about.program.value }
        requires fuel { fuel ≡ N.about.fuel }
        requires name { (table_of blank ≡ N.table) × (about_of blank ≡ N.about) }
    {
        let (book, cache, pass) = Book::<N>::open(alloc, ready, blank)?;
        let shared = Shared {
            alloc,
            ready,
            fuel,
            cache,
            book: Mutex::new(book),
        };
        Ok((shared, New::of(pass, None)))
    }

    /// Hands out the history, once all workers have ended. Where tasks are unfinished, memory was refused.
    pub fn close(self, alloc: Global) -> Result<History, AllocError>
        ensures legal { IfOk result (λ history. IsLegal N.about.program.value history.events) }
        ensures cached { IfOk result (λ history. IsCached N.about.program.value (places_of N.about) history.events) }
        ensures begun { IfOk result (λ history. fuel_of history.events ≡ Some N.about.fuel) }
        ensures valid { IfOk result (λ history. AreValidEvents N.about.program.value history.events) }
    {
        let Shared { book, cache, .. } = self;
        drop(cache);
        let book = book.into_inner();
        if book.unfinished() != 0 {
            drop(book);
            return Err(AllocError);
        }
        book.close(alloc)
    }

    /// Runs jobs of a board until it is closed.
    fn work_at<R: Wait, G: Gate>(
        &self,
        rt: &R,
        gate: &G,
        ops: &HostOps,
        board: &SharedBoard<Job<'p, N>>,
    ) {
        let mut jobs = AtBoard { shared: board };
        work(rt, &mut jobs, &|job| self.run_job(rt, gate, ops, job));
        drop(jobs);
    }
}

/// Puts the root onto the board. Where there is no memory for it, the board is closed.
fn admit<R: Wait, T: Drop>(rt: &R, board: &SharedBoard<T>, root: T) {
    let mut jobs = AtBoard { shared: board };
    let left = jobs.push(rt, root);
    if left.is_some() {
        jobs.close(rt);
    }
    drop(left);
}

/// Runs the tasks of a program, over words that have a name. Where a worker found no memory, tasks are left unfinished.
fn run_named<'p, N: Naming + Send + Sync, R: Threads + Wait + Sync, G: Gate>(
    rt: &R,
    alloc: Global,
    ready: &'p Ready,
    blank: Blank,
    setup: &Setup,
    gate: &G,
    ops: &HostOps,
) -> Result<History, AllocError>
    requires program { ready.now ≡ N.about.program.value }
    requires fuel { setup.now.fuel ≡ N.about.fuel }
    requires name { (table_of blank ≡ N.table) × (about_of blank ≡ N.about) }
    ensures legal { IfOk result (λ history. IsLegal ready.now history.events) }
    ensures cached { IfOk result (λ history. IsCached ready.now (places_of N.about) history.events) }
    ensures begun { IfOk result (λ history. fuel_of history.events ≡ Some N.about.fuel) }
    ensures valid { IfOk result (λ history. AreValidEvents ready.now history.events) }
{
    let (shared, root) = Shared::<N>::open(alloc, ready, blank, setup.fuel)?;
    let board = SharedBoard::new(alloc)?;
    admit(rt, &board, Job::New(root));
    drop(thread::map_indices(
        rt,
        alloc,
        setup.threads as usize,
        &|_| shared.work_at(rt, gate, ops, &board),
    ));
    drop(board);
    shared.close(alloc)
}

/// Runs a program's tasks on so many threads, and answers the history: on every schedule it is legal, and cached for the places of the
/// setup (Julia manual, Multi-Threading; Belyakova et al., OOPSLA 2020). Where no thread can be made the caller runs all tasks. The gate is
/// told of each task before its first turn and after its end. The one error is out of memory: then no task more is begun, and all
/// threads are joined.
pub fn run_tasks<'p, R: Threads + Wait + Sync, G: Gate>(
    rt: &R,
    alloc: Global,
    ready: &'p Ready,
    setup: &Setup,
    gate: &G,
    ops: &HostOps,
) -> Result<History, AllocError>
    requires { IsSetup setup.now }
    ensures legal { IfOk result (λ history. IsLegal ready.now history.events) }
    ensures cached { IfOk result (λ history. IsCached ready.now (places_with setup.now) history.events) }
    ensures begun { IfOk result (λ history. fuel_of history.events ≡ Some setup.now.fuel) }
    ensures valid { IfOk result (λ history. AreValidEvents ready.now history.events) }
{
    let blank = Blank::make(alloc, ready.program(), setup.fuel, setup.keys, setup.rows)?;
    run_named::<Brand, R, G>(rt, alloc, ready, blank, setup, gate, ops)
}
