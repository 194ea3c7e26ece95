//! What the workers share beside their deques: the jobs that wait for the end of a task, and where a worker sleeps that finds no job.

use std::alloc::{AllocError, AllocFailed, Global};
use std::collections::VecDeque;
use std::mem;
use std::sync::atomic::{AtomicBool, AtomicU64, Ordering};
use std::sync::{Condvar, Mutex, Wait};

/// Where the workers of a run meet. Each task has a lock of its own, and nobody holds two locks.
#[derive(Drop)]
pub(crate) struct Camp<T> {
    alloc: Global,
    /// For each task the jobs that wait for its end; none once it has ended.
    waiting: Vec<Mutex<Option<VecDeque<T>>>>,
    /// How often workers were told to look for a job.
    news: AtomicU64,
    sleepers: AtomicU64,
    over: AtomicBool,
    bed: Mutex<()>,
    woken: Condvar,
}

impl<T: Drop> Camp<T> {
    /// For so many tasks, none of which has ended.
    pub(crate) fn new(alloc: Global, tasks: usize) -> Result<Camp<T>, AllocError> {
        let mut waiting = Vec::with_capacity(alloc, tasks)?;
        for _ in 0..tasks {
            waiting.push(Mutex::new(Some(VecDeque::new(alloc))))?;
        }
        Ok(Camp {
            alloc,
            waiting,
            news: AtomicU64::new(0),
            sleepers: AtomicU64::new(0),
            over: AtomicBool::new(false),
            bed: Mutex::new(()),
            woken: Condvar::new(),
        })
    }

    /// Keeps a job beside the task for whose end it waits. It comes back where that has ended, or where there is no memory for it.
    pub(crate) fn keep<R: Wait>(&self, rt: &R, of: u32, job: T) -> Option<T> {
        let Some(slot) = self.waiting.get(of as usize) else {
            return Some(job);
        };
        let mut guard = slot.lock(rt);
        match &mut *guard {
            None => Some(job),
            Some(jobs) => match jobs.push_back(job) {
                Ok(()) => None,
                Err(AllocFailed { value }) => Some(value),
            },
        }
    }

    /// A task has ended: answers the jobs that are kept beside it. From now on none is.
    pub(crate) fn free<R: Wait>(&self, rt: &R, task: u32) -> VecDeque<T> {
        let Some(slot) = self.waiting.get(task as usize) else {
            return VecDeque::new(self.alloc);
        };
        let mut guard = slot.lock(rt);
        match mem::replace(&mut *guard, None) {
            Some(jobs) => jobs,
            None => VecDeque::new(self.alloc),
        }
    }

    /// Whether the run is over.
    pub(crate) fn is_over(&self) -> bool {
        self.over.load(Ordering::SeqCst)
    }

    /// How often workers were told to look for a job.
    pub(crate) fn news(&self) -> u64 {
        self.news.load(Ordering::SeqCst)
    }

    /// Tells one worker to look for a job. It takes the lock where one sleeps alone.
    pub(crate) fn wake_one<R: Wait>(&self, rt: &R) {
        self.news.fetch_add(1, Ordering::SeqCst);
        if self.sleepers.load(Ordering::SeqCst) != 0 {
            drop(self.bed.lock(rt));
            self.woken.notify_one();
        }
    }

    /// Ends the run, and tells all workers.
    pub(crate) fn close<R: Wait>(&self, rt: &R) {
        self.over.store(true, Ordering::SeqCst);
        self.news.fetch_add(1, Ordering::SeqCst);
        drop(self.bed.lock(rt));
        self.woken.notify_all();
    }

    /// Sleeps until there is news after that which the worker has seen. A worker that looked after it read them misses no job: who pushes
    /// one counts it as news before it looks for sleepers, and a sleeper counts itself before it looks for news.
    pub(crate) fn sleep<R: Wait>(&self, rt: &R, seen: u64) {
        let bed = self.bed.lock(rt);
        self.sleepers.fetch_add(1, Ordering::SeqCst);
        let bed = self
            .woken
            .wait_while(rt, bed, |_| { self.news.load(Ordering::SeqCst) == seen });
        self.sleepers.fetch_sub(1, Ordering::SeqCst);
        drop(bed);
    }
}
