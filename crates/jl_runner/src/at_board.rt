//! Workers that share one board.

use crate::jobs::Jobs;
use jl_model::limits::MOST_TASKS;
use jl_queue::{Board, Popped, PutFault};
use std::alloc::{AllocError, Global};
use std::sync::{Condvar, Mutex, Wait};

/// A board behind a lock.
#[derive(Drop)]
pub(crate) struct SharedBoard<T> {
    board: Mutex<Board<T>>,
    /// Something came onto the board, or the board was closed.
    moved: Condvar,
}

impl<T: Drop> SharedBoard<T> {
    /// A board with nothing on it, for the most tasks that a run may have.
    pub(crate) fn new(alloc: Global) -> Result<SharedBoard<T>, AllocError> {
        let board = Board::new(alloc, MOST_TASKS)?;
        Ok(SharedBoard {
            board: Mutex::new(board),
            moved: Condvar::new(),
        })
    }
}

/// A worker at a board. Of those that it makes ready itself one needs nobody to be woken, since it takes a job next.
#[derive(Drop)]
pub(crate) struct AtBoard<'s, T> {
    pub(crate) shared: &'s SharedBoard<T>,
}

impl<'s, T: Drop> Jobs<T> for AtBoard<'s, T> {
    fn take<R: Wait>(&mut self, rt: &R) -> Option<T> {
        let shared = self.shared;
        let mut board = shared
            .moved
            .wait_while(rt, shared.board.lock(rt), |board| board.is_idle());
        match board.take() {
            Popped::Item(job) => Some(job),
            Popped::Empty => None,
            Popped::Closed => None,
        }
    }

    fn push<R: Wait>(&mut self, rt: &R, job: T) -> Option<T> {
        let put = self.shared.board.lock(rt).push(job);
        match put {
            Ok(()) => {
                self.shared.moved.notify_one();
                None
            }
            Err(PutFault::Closed(job)) => {
                drop(job);
                None
            }
            Err(PutFault::Memory(job)) => Some(job),
        }
    }

    fn park<R: Wait>(&mut self, rt: &R, of: u32, job: T) -> Result<(), AllocError> {
        let parked = self.shared.board.lock(rt).park(of, job);
        match parked {
            Ok(()) => Ok(()),
            Err(PutFault::Closed(job)) => {
                drop(job);
                Ok(())
            }
            Err(PutFault::Memory(job)) => {
                drop(job);
                Err(AllocError)
            }
        }
    }

    fn end<R: Wait>(&mut self, rt: &R, task: u32, unfinished: u32) -> Result<(), AllocError> {
        if unfinished == 0 {
            self.close(rt);
            return Ok(());
        }
        let mut board = self.shared.board.lock(rt);
        let before = board.count_ready();
        board.end(task)?;
        let freed = board.count_ready().saturating_sub(before);
        drop(board);
        for _ in 1..freed {
            self.shared.moved.notify_one();
        }
        Ok(())
    }

    fn close<R: Wait>(&mut self, rt: &R) {
        self.shared.board.lock(rt).close();
        self.shared.moved.notify_all();
    }
}
