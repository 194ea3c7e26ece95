//! What a worker does, whatever its jobs are, and wherever it takes them.

use crate::jobs::Jobs;
use std::alloc::AllocError;
use std::mem;
use std::sync::Wait;

/// How far a job came.
#[derive(Drop)]
pub enum Ran<T> {
    /// Its task has ended, and so many are unfinished.
    Ended { task: u32, unfinished: u32 },
    /// Its task waits for the end of another one.
    Waits { of: u32, job: T },
    /// Its task goes on, and has spawned another one.
    Spawned { child: Option<T>, job: T },
}

/// The jobs that a worker has in hand.
#[derive(Drop)]
struct Hands<T> {
    /// The job that it goes on with.
    next: Option<T>,
    /// A job that came back, as there was no memory to leave it: this worker runs it when the task that it runs has ended or waits.
    left: Option<T>,
}

impl<T: Drop> Hands<T> {
    /// Leaves the job of a task that was spawned. Of two that come back, this worker can keep one alone, so the run ends.
    fn hand_out<R: Wait, J: Jobs<T>>(&mut self, rt: &R, jobs: &mut J, job: T) {
        match jobs.push(rt, job) {
            None => {}
            Some(job) => {
                let before = mem::replace(&mut self.left, Some(job));
                if before.is_some() {
                    jobs.close(rt);
                }
                drop(before);
            }
        }
    }

    /// Takes note of how far a job came. Out of memory ends the run.
    fn settle<R: Wait, J: Jobs<T>>(
        &mut self,
        rt: &R,
        jobs: &mut J,
        ran: Result<Ran<T>, AllocError>,
    ) -> Result<(), AllocError> {
        match ran? {
            Ran::Ended { task, unfinished } => jobs.end(rt, task, unfinished),
            Ran::Waits { of, job } => jobs.park(rt, of, job),
            Ran::Spawned { child, job } => {
                drop(mem::replace(&mut self.next, Some(job)));
                if let Some(child) = child {
                    self.hand_out(rt, jobs, child);
                }
                Ok(())
            }
        }
    }

    /// The job that this worker runs next, or none once the run is over.
    fn choose<R: Wait, J: Jobs<T>>(&mut self, rt: &R, jobs: &mut J) -> Option<T> {
        if let Some(job) = mem::replace(&mut self.next, None) {
            return Some(job);
        }
        let back = match mem::replace(&mut self.left, None) {
            Some(left) => jobs.push(rt, left),
            None => None,
        };
        match back {
            Some(job) => Some(job),
            None => jobs.take(rt),
        }
    }
}

/// Runs jobs until the run is over: takes each from the source of jobs, and runs it until its task ends, waits or has spawned another
/// one.
pub fn work<T: Drop, R: Wait, J: Jobs<T>, F: Fn(T) -> Result<Ran<T>, AllocError>>(
    rt: &R,
    jobs: &mut J,
    run: &F,
)
    requires { F.IsAlwaysCallable run.now }
{
    let mut hands = Hands {
        next: None,
        left: None,
    };
    for _ in rt.forever() {
        match hands.choose(rt, jobs) {
            Some(job) => {
                if hands.settle(rt, jobs, run(job)).is_err() {
                    jobs.close(rt);
                }
            }
            None => break,
        }
    }
    drop(hands);
}
