//! Where a worker takes its jobs.

use std::alloc::AllocError;
use std::sync::Wait;

/// Where one worker takes its jobs, and leaves those that it does not run now. No clause says which job comes: what a run promises rests
/// on what each job is, and on the end of the book, which asks that no task is unfinished.
pub trait Jobs<T> {
    /// The next job, or none once the run is over.
    fn take<R: Wait>(&mut self, rt: &R) -> Option<T>;

    /// Leaves a job that may run. It comes back where there is no memory for it; once the run is over it is dropped.
    fn push<R: Wait>(&mut self, rt: &R, job: T) -> Option<T>;

    /// Leaves a job that waits for the end of a task. Where that has come meanwhile, the job may run.
    fn park<R: Wait>(&mut self, rt: &R, of: u32, job: T) -> Result<(), AllocError>;

    /// A task has ended, and so many are unfinished: those jobs that wait for it may run. Where no task is left, the run is over.
    fn end<R: Wait>(&mut self, rt: &R, task: u32, unfinished: u32) -> Result<(), AllocError>;

    /// Ends the run: nothing that is left is run.
    fn close<R: Wait>(&mut self, rt: &R);
}
