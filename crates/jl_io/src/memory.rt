//! A source and a sink in memory that fail at chosen calls.

ghost use Rattle.std.specs.Prelude.{◌≡◌, ◌<◌, ◌≤◌, [], ◌++◌, length, take, min};
ghost use Rattle.std.specs.Prelude.{true, false, not, Some, IfOk, OnErr, IfErr, is_ok};
ghost use Rattle.jl_io.specs.Faults.{Rose, IsWriteCause};
ghost use Rattle.jl_io.specs.Moved.{EndsExactly};
ghost use Rattle.jl_io.specs.Memory.{Device, call_fails, after_call};

use crate::clean::{CleanSink, CleanSource};
use crate::faults::FaultPlan;
use crate::reading::{Failed, Source};
use crate::writing::{Sink, SinkFault};
use std::alloc::Global;
use std::marker::Model;

/// A source that gives the bytes of a `Vec`, and fails at chosen calls. Contracts see its device.
#[derive(Drop)]
pub struct MemSource {
    bytes: CleanSource,
    piece: usize,
    plan: FaultPlan,
}

impl Model for MemSource {
    ghost Value = { Device };

    ghost view = { λ source. record {
      bytes = source.bytes;
      piece = source.piece;
      plan = source.plan;
    } };

    ghost invariant = { λ source. 0 < source.piece };
}

impl MemSource {
    /// A source of these bytes that gives at most `piece` of them a call. It fails at the calls
    /// whose numbers, counted from 1, are in `fail_at`.
    pub fn new(bytes: Vec<u8>, piece: usize, fail_at: Vec<u64>) -> MemSource
        requires { 0 < piece }
        ensures bytes { result.bytes ≡ bytes.items }
        ensures piece { result.piece ≡ piece }
        ensures plan { result.plan ≡ record { fail_at = fail_at.items; calls = 0; faults = 0 } }
    {
        MemSource {
            bytes: CleanSource::new(bytes),
            piece,
            plan: FaultPlan::new(fail_at),
        }
    }
}

impl Source for MemSource {
    ghost faults = { λ source. source.plan.faults };

    ghost left = { λ source. Some source.bytes };

    fn read(&mut self, into: &mut [u8]) -> Result<usize, Failed>
        requires { 0 < length into.old }
        ensures fails { is_ok result ≡ not (call_fails self.old.plan) }
        ensures amount { IfOk result (λ count.
            count ≡ min self.old.piece (min (length into.old) (length self.old.bytes))) }
        ensures within { IfOk result (λ count. count ≤ length into.new) }
        ensures ended { IfOk result (λ count. EndsExactly (Some self.old.bytes) count) }
        ensures gives { IfOk result (λ count.
            self.old.bytes ≡ take count into.new ++ self.new.bytes) }
        ensures kept { OnErr result (self.new.bytes ≡ self.old.bytes) }
        ensures plan { self.new.plan ≡ after_call self.old.plan }
        ensures piece { self.new.piece ≡ self.old.piece }
        ensures counted { self.old.plan.faults ≤ self.new.plan.faults }
        ensures rose { OnErr result (Rose self.old.plan.faults self.new.plan.faults) }
    {
        if self.plan.next_call_fails() {
            return Err(Failed);
        }
        let room = self.piece.min(into.len());
        self.bytes.read(&mut into[..room])
    }
}

/// A sink that keeps what is written in a `Vec`, and fails at chosen calls. Contracts see its device.
#[derive(Drop)]
pub struct MemSink {
    bytes: CleanSink,
    piece: usize,
    plan: FaultPlan,
}

impl Model for MemSink {
    ghost Value = { Device };

    ghost view = { λ sink. record {
      bytes = sink.bytes;
      piece = sink.piece;
      plan = sink.plan;
    } };

    ghost invariant = { λ sink. 0 < sink.piece };
}

impl MemSink {
    /// A sink that holds nothing yet and takes at most `piece` bytes a call. It fails at the calls
    /// whose numbers, counted from 1, are in `fail_at`.
    pub fn new(alloc: Global, piece: usize, fail_at: Vec<u64>) -> MemSink
        requires { 0 < piece }
        ensures bytes { result.bytes ≡ [] }
        ensures piece { result.piece ≡ piece }
        ensures plan { result.plan ≡ record { fail_at = fail_at.items; calls = 0; faults = 0 } }
    {
        MemSink {
            bytes: CleanSink::new(alloc),
            piece,
            plan: FaultPlan::new(fail_at),
        }
    }

    /// What was written.
    pub fn bytes(&self) -> &[u8]
        ensures { result.now ≡ self.now.bytes }
    {
        self.bytes.bytes()
    }
}

impl Sink for MemSink {
    ghost faults = { λ sink. sink.plan.faults };

    ghost written = { λ sink. Some sink.bytes };

    fn write(&mut self, bytes: &[u8]) -> Result<usize, SinkFault>
        requires { 0 < length bytes.now }
        ensures fails { call_fails self.old.plan ≡ true → result ≡ Err SinkFault.Failed }
        ensures memory { call_fails self.old.plan ≡ false →
            IfErr result (λ fault. fault ≡ SinkFault.Memory) }
        ensures amount { IfOk result (λ count. count ≡ min self.old.piece (length bytes.now)) }
        ensures within { IfOk result (λ count. 1 ≤ count) }
        ensures takes { IfOk result (λ count.
            self.new.bytes ≡ self.old.bytes ++ take count bytes.now) }
        ensures kept { OnErr result (self.new.bytes ≡ self.old.bytes) }
        ensures plan { self.new.plan ≡ after_call self.old.plan }
        ensures piece { self.new.piece ≡ self.old.piece }
        ensures counted { self.old.plan.faults ≤ self.new.plan.faults }
        ensures rose { IfErr result (λ fault.
            IsWriteCause fault self.old.plan.faults self.new.plan.faults) }
    {
        if self.plan.next_call_fails() {
            return Err(SinkFault::Failed);
        }
        let room = self.piece.min(bytes.len());
        self.bytes.write(&bytes[..room])
    }
}
