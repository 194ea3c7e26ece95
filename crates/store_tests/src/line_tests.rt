//! A line hands out what it was given.

use jl_queue::{Line, Popped, PutFault, Setup};
use std::alloc::Global;

/// The value that is handed out, 0 where there is none yet, and 1 where there will be none.
fn pop(line: &mut Line<u32>) -> u32 {
    match line.pop() {
        Popped::Item(value) => value,
        Popped::Empty => 0,
        Popped::Closed => 1,
    }
}

/// Whether the line is closed to a value, which comes back.
fn is_closed_to(line: &mut Line<u32>, value: u32) -> bool {
    match line.push(value) {
        Ok(()) => false,
        Err(PutFault::Closed(back)) => back == value,
        Err(PutFault::Memory(_)) => false,
    }
}

fn line_is_right(alloc: Global) -> bool {
    let mut line = Line::new(alloc);
    let is_empty = pop(&mut line) == 0;
    let is_open = !is_closed_to(&mut line, 7) && !is_closed_to(&mut line, 8);
    line.close();
    let is_closed = is_closed_to(&mut line, 9);
    let are_all = pop(&mut line) == 7 && pop(&mut line) == 8 && pop(&mut line) == 1;
    is_empty && is_open && is_closed && are_all
}

#[test]
fn values_come_in_their_order_and_a_closed_line_takes_none(rt: HostRuntime) {
    assert!(rt; line_is_right(rt.alloc()));
}

#[test]
fn a_setup_has_the_whole_cache(rt: HostRuntime) {
    let setup = Setup::with_whole_cache(4, 10);
    assert!(rt; setup.keys == 8192 && setup.rows == 16384);
}
