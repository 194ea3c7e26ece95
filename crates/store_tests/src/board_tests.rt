//! Jobs that are ready and jobs that wait.

use crate::holds;
use jl_queue::{Board, Popped};
use std::alloc::{AllocError, Global};

/// The job that is handed out, 0 where there is none yet, and 1 where there will be none.
fn take(board: &mut Board<u32>) -> u32 {
    match board.take() {
        Popped::Item(job) => job,
        Popped::Empty => 0,
        Popped::Closed => 1,
    }
}

/// A board of three tasks, on which job 6 is ready, and 7 and 8 wait for task 2.
fn board(alloc: Global) -> Result<Board<u32>, AllocError> {
    let mut board = Board::new(alloc, 3)?;
    if board.push(6).is_err() || board.park(2, 7).is_err() || board.park(2, 8).is_err() {
        return Err(AllocError);
    }
    Ok(board)
}

/// Whether the jobs that wait come when their task ends, and then no sooner than what was ready.
fn waiters_come_behind(alloc: Global) -> Result<bool, AllocError> {
    let mut board = board(alloc)?;
    board.end(1)?;
    let before = take(&mut board) == 6 && take(&mut board) == 0 && board.is_idle();
    board.end(2)?;
    let after = take(&mut board) == 7 && take(&mut board) == 8 && take(&mut board) == 0;
    Ok(before && after)
}

#[test]
fn a_job_that_waits_comes_when_its_task_ends(rt: HostRuntime) {
    assert!(rt; holds(waiters_come_behind(rt.alloc())));
}
