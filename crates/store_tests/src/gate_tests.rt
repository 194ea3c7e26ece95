//! Whether two tasks met.

use crate::holds;
use jl_queue::{Gate, OpenGate, PairGate};
use std::alloc::{AllocError, Global};
use std::thread::{self, Threads};

/// Both tasks pass a gate, one after the other.
fn pass_in_turn<G: Gate>(gate: &G) {
    gate.enter(1);
    gate.leave(1);
    gate.enter(2);
    gate.leave(2);
}

/// Whether two threads that enter a gate meet there.
fn two_meet<R: Threads + Sync>(rt: &R, alloc: Global) -> Result<bool, AllocError> {
    let gate = PairGate::new(1_000_000);
    thread::map_indices(rt, alloc, 2, &|place| gate.enter(place as u32 + 1))?;
    Ok(gate.met())
}

#[test]
fn two_threads_meet(rt: HostRuntime) {
    assert!(rt; holds(two_meet(&rt, rt.alloc())));
}

#[test]
fn one_thread_does_not_meet_itself(rt: HostRuntime) {
    let gate = PairGate::new(0);
    pass_in_turn(&OpenGate);
    pass_in_turn(&gate);
    assert!(rt; !gate.met());
}
