//! What the workers of a run take turns at: the jobs that are ready, and those that wait for the end of a task.

ghost use Rattle.std.specs.Prelude.{◌≡◌, ◌↔◌, ◌<◌, ◌∷◌, ◌++◌, [], true, false, Err, OnOk, OnErr, IfOk, IfErr, List, None, Some, length, slice_set, replicate};
ghost use Rattle.std.specs.List.Sorted.{IsPermutation};
ghost use Rattle.jl_queue.specs.declared.line.PutFault.TheVariants as Put;
ghost use Rattle.jl_queue.specs.declared.line.Popped.TheVariants as Pop;
ghost use Rattle.jl_queue.specs.Boards.{BoardOf, waiting_for, jobs_of};

use crate::line::{Line, Popped, PutFault};
use std::alloc::{AllocError, AllocFailed, Global};
use std::collections::VecDeque;
use std::marker::Model;
use std::mem;

/// The jobs of a run, each in one place: in the line of those that are ready, or beside the task for whose end it waits. So a
/// worker turns to no job in vain, however many wait for one task. Once the board is closed it takes and hands out no job; those
/// that are left go with it. It stands behind a lock, and none of its calls walks over jobs but `end`, over those that it frees.
#[derive(Drop)]
pub struct Board<T> {
    line: Line<T>,
    waiting: Vec<Option<VecDeque<T>>>,
}

impl<T> Model for Board<T> {
    ghost use Rattle.jl_queue.specs.Boards.{BoardOf, queued};
    ghost use Rattle.std.specs.Prelude.{map};

    ghost Value = { BoardOf T };

    ghost view = { λ board. record { ready = board.line.0; closed = board.line.1; waiting = map queued board.waiting.items } };
}

impl<T> Board<T> {
    /// Whether a worker has to wait for a job: none is ready, and the board is open.
    pub fn is_idle(&self) -> bool
        ensures { result ≡ true ↔ (self.now.ready ≡ []) × (self.now.closed ≡ false) }
    {
        self.line.is_empty() && !self.line.is_closed()
    }

    /// How many jobs are ready.
    pub fn count_ready(&self) -> usize
        ensures { result ≡ length self.now.ready }
    {
        self.line.len()
    }

    /// Closes the board for good.
    pub fn close(&mut self)
        ensures { self.new ≡ record { ready = self.old.ready; closed = true; waiting = self.old.waiting } }
    {
        self.line.close();
    }

    /// Puts a job last among those that are ready. A closed board hands it back, and so does an open one that has no memory for it.
    pub fn push(&mut self, job: T) -> Result<(), PutFault<T>>
        ensures put { OnOk result (self.new ≡ record { ready = self.old.ready ++ job ∷ []; closed = self.old.closed; waiting = self.old.waiting }) }
        ensures closed { result ≡ Err (Put.Closed job) ↔ self.old.closed ≡ true }
        ensures open { self.old.closed ≡ false → IfErr result (λ fault. fault ≡ Put.Memory job) }
        ensures kept { OnErr result (self.new ≡ self.old) }
        ensures whole { OnOk result (IsPermutation (jobs_of self.new) (job ∷ jobs_of self.old)) }
    {
        self.line.push(job)
    }

    /// Takes the first job that is ready. Of a closed board it takes none.
    pub fn take(&mut self) -> Popped<T>
        ensures item { (first : T) (rest : List T) → self.old.closed ≡ false → self.old.ready ≡ first ∷ rest → (result ≡ Pop.Item first) × (self.new ≡ record { ready = rest; closed = false; waiting = self.old.waiting }) }
        ensures empty { self.old.closed ≡ false → self.old.ready ≡ [] → (result ≡ Pop.Empty) × (self.new ≡ self.old) }
        ensures closed { self.old.closed ≡ true → (result ≡ Pop.Closed) × (self.new ≡ self.old) }
        ensures whole { (job : T) → result ≡ Pop.Item job → jobs_of self.old ≡ job ∷ jobs_of self.new }
    {
        if self.line.is_closed() {
            return Popped::Closed;
        }
        self.line.pop()
    }

    /// Lets a job wait for the end of a task. Where the task has ended, or is none of the board's, the job is ready.
    pub fn park(&mut self, of: u32, job: T) -> Result<(), PutFault<T>>
        ensures waits { (jobs : List T) → waiting_for self.old of ≡ Some jobs → OnOk result (self.new ≡ record { ready = self.old.ready; closed = self.old.closed; waiting = slice_set self.old.waiting of (Some (jobs ++ job ∷ [])) }) }
        ensures ended { waiting_for self.old of ≡ None → OnOk result (self.new ≡ record { ready = self.old.ready ++ job ∷ []; closed = self.old.closed; waiting = self.old.waiting }) }
        ensures closed { result ≡ Err (Put.Closed job) ↔ self.old.closed ≡ true }
        ensures open { self.old.closed ≡ false → IfErr result (λ fault. fault ≡ Put.Memory job) }
        ensures kept { OnErr result (self.new ≡ self.old) }
        ensures whole { OnOk result (IsPermutation (jobs_of self.new) (job ∷ jobs_of self.old)) }
    {
        if self.line.is_closed() {
            return Err(PutFault::Closed(job));
        }
        if of as usize >= self.waiting.len() {
            return self.line.push(job);
        }
        let Some(jobs) = &mut self.waiting[of as usize] else {
            return self.line.push(job);
        };
        match jobs.push_back(job) {
            Ok(()) => Ok(()),
            Err(AllocFailed { value }) => Err(PutFault::Memory(value)),
        }
    }
}

impl<T: Drop> Board<T> {
    /// The open board of so many tasks, none of which has ended. It has no job.
    pub fn new(alloc: Global, tasks: usize) -> Result<Board<T>, AllocError>
        ensures { IfOk result (λ board. board ≡ record { ready = []; closed = false; waiting = replicate tasks (Some []) }) }
    {
        let mut waiting = Vec::with_capacity(alloc, tasks)?;
        for _ in 0..tasks {
            waiting.push(Some(VecDeque::new(alloc)))?;
        }
        Ok(Board {
            line: Line::new(alloc),
            waiting,
        })
    }

    /// A task has ended: what waited for it is ready, behind what was. Where it had ended before, or is none of the board's,
    /// nothing changes.
    pub fn end(&mut self, task: u32) -> Result<(), AllocError>
        ensures freed { (jobs : List T) → waiting_for self.old task ≡ Some jobs → OnOk result (self.new ≡ record { ready = self.old.ready ++ jobs; closed = self.old.closed; waiting = slice_set self.old.waiting task None }) }
        ensures again { waiting_for self.old task ≡ None → OnOk result (self.new ≡ self.old) }
        ensures kept { OnErr result (self.new ≡ self.old) }
        ensures whole { IsPermutation (jobs_of self.new) (jobs_of self.old) }
    {
        if task as usize >= self.waiting.len() {
            return Ok(());
        }
        let Some(jobs) = &mut self.waiting[task as usize] else {
            return Ok(());
        };
        self.line.append(jobs)?;
        self.mark_ended(task);
        Ok(())
    }

    fn mark_ended(&mut self, task: u32)
        requires { task < length self.old.waiting }
        ensures { self.new ≡ record { ready = self.old.ready; closed = self.old.closed; waiting = slice_set self.old.waiting task None } }
    {
        drop(mem::replace(&mut self.waiting[task as usize], None));
    }
}
