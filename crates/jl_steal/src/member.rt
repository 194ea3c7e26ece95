//! One worker: its own deque, and the thieves that it sends to the others.

use crate::camp::Camp;
use crate::deque::{Local, Thief};
use crossbeam_deque::Steal;
use jl_runner::Jobs;
use std::alloc::{AllocError, Global};
use std::mem;
use std::sync::Wait;

/// How often a worker tries one other worker, before it looks at the next one.
const MOST_TRIES: usize = 4096;

/// What a deque holds: a job, and the task for whose end it waits.
#[derive(Drop)]
pub(crate) struct Parcel<T> {
    job: T,
    awaits: Option<u32>,
}

/// A worker.
#[derive(Drop)]
pub(crate) struct Member<'c, T> {
    camp: &'c Camp<T>,
    local: Local<Parcel<T>>,
    others: Vec<Thief<Parcel<T>>>,
    /// A job that its deque had no memory for: this worker runs it.
    back: Option<T>,
}

impl<'c, T: Drop> Member<'c, T> {
    /// A worker with this deque, which knows no other one.
    pub(crate) fn new(alloc: Global, camp: &'c Camp<T>, local: Local<Parcel<T>>) -> Member<'c, T> {
        Member {
            camp,
            local,
            others: Vec::new(alloc),
            back: None,
        }
    }

    /// A thief of what this worker has.
    pub(crate) fn thief(&self) -> Result<Thief<Parcel<T>>, AllocError> {
        self.local.thief()
    }

    /// Has one more worker to steal from.
    pub(crate) fn meet(&mut self, thief: Thief<Parcel<T>>) -> Result<(), AllocError> {
        self.others.push(thief)?;
        Ok(())
    }

    /// A job that may run. One whose task still waits is kept beside the task that it waits for.
    fn sift<R: Wait>(&self, rt: &R, parcel: Parcel<T>) -> Option<T> {
        let Parcel { job, awaits } = parcel;
        match awaits {
            Some(of) => self.camp.keep(rt, of, job),
            None => Some(job),
        }
    }

    /// A job of its own that may run. It looks at each once.
    fn pop_ready<R: Wait>(&mut self, rt: &R) -> Option<T> {
        for _ in 0..self.local.len() {
            let parcel = self.local.pop()?;
            if let Some(job) = self.sift(rt, parcel) {
                return Some(job);
            }
        }
        None
    }

    /// A job of another worker that may run.
    fn steal_ready<R: Wait>(&mut self, rt: &R, other: usize) -> Option<T> {
        for _ in 0..MOST_TRIES {
            match self.others.get_mut(other)?.steal() {
                Steal::Success(parcel) => {
                    if let Some(job) = self.sift(rt, parcel) {
                        return Some(job);
                    }
                }
                Steal::Retry => {}
                Steal::Empty => return None,
            }
        }
        None
    }

    /// A job that may run: its own first, and then another's.
    fn find<R: Wait>(&mut self, rt: &R) -> Option<T> {
        if let Some(job) = mem::replace(&mut self.back, None) {
            return Some(job);
        }
        if let Some(job) = self.pop_ready(rt) {
            return Some(job);
        }
        for other in 0..self.others.len() {
            if let Some(job) = self.steal_ready(rt, other) {
                return Some(job);
            }
        }
        None
    }

    /// Takes in a job that need not wait any more. Of two that its deque has no memory for this worker can keep one alone.
    fn take_in(&mut self, job: T) -> Result<(), AllocError> {
        match self.local.push(Parcel { job, awaits: None }) {
            Ok(()) => Ok(()),
            Err(Parcel { job, .. }) => {
                let before = mem::replace(&mut self.back, Some(job));
                let is_lost = before.is_some();
                drop(before);
                if is_lost { Err(AllocError) } else { Ok(()) }
            }
        }
    }
}

impl<'c, T: Drop> Jobs<T> for Member<'c, T> {
    fn take<R: Wait>(&mut self, rt: &R) -> Option<T> {
        for _ in rt.forever() {
            if self.camp.is_over() {
                return None;
            }
            let seen = self.camp.news();
            if let Some(job) = self.find(rt) {
                return Some(job);
            }
            self.camp.sleep(rt, seen);
        }
        None
    }

    fn push<R: Wait>(&mut self, rt: &R, job: T) -> Option<T> {
        if self.camp.is_over() {
            drop(job);
            return None;
        }
        match self.local.push(Parcel { job, awaits: None }) {
            Ok(()) => {
                self.camp.wake_one(rt);
                None
            }
            Err(Parcel { job, .. }) => Some(job),
        }
    }

    /// Nobody is woken for it: this worker looks for a job next, and finds it.
    fn park<R: Wait>(&mut self, rt: &R, of: u32, job: T) -> Result<(), AllocError> {
        let awaits = Some(of);
        match self.local.push(Parcel { job, awaits }) {
            Ok(()) => Ok(()),
            Err(parcel) => {
                drop(parcel);
                Err(AllocError)
            }
        }
    }

    /// One of the jobs that may run then needs nobody to be woken, since this worker takes a job next.
    fn end<R: Wait>(&mut self, rt: &R, task: u32, unfinished: u32) -> Result<(), AllocError> {
        if unfinished == 0 {
            self.camp.close(rt);
            return Ok(());
        }
        let mut freed = self.camp.free(rt, task);
        let count = freed.len();
        for _ in 0..count {
            if let Some(job) = freed.pop_front() {
                self.take_in(job)?;
            }
        }
        drop(freed);
        for _ in 1..count {
            self.camp.wake_one(rt);
        }
        Ok(())
    }

    fn close<R: Wait>(&mut self, rt: &R) {
        self.camp.close(rt);
    }
}
