//! A source and a sink in memory that never fail.

ghost use Rattle.std.specs.Prelude.{◌≡◌, ℕ, ◌<◌, ◌≤◌, List, [], ◌++◌, length, take, drop, min};
ghost use Rattle.std.specs.Prelude.{Some, IfOk, OnOk, OnErr, IfErr, IsOk};

use crate::reading::{Failed, Source};
use crate::writing::{Sink, SinkFault};
use std::alloc::Global;
use std::marker::Model;

/// A source that gives the bytes of a `Vec`. Contracts see it as what it has left.
#[derive(Drop)]
pub struct CleanSource {
    bytes: Vec<u8>,
    at: usize,
}

impl Model for CleanSource {
    ghost Value = { List ℕ };

    ghost view = { λ source. drop source.at source.bytes.items };

    ghost invariant = { λ source. source.at ≤ length source.bytes.items };
}

impl CleanSource {
    /// A source of all these bytes.
    pub fn new(bytes: Vec<u8>) -> CleanSource
        ensures { result ≡ bytes.items }
    {
        CleanSource { bytes, at: 0 }
    }
}

impl Source for CleanSource {
    ghost faults = { λ _. 0 };

    ghost left = { λ source. Some source };

    fn read(&mut self, into: &mut [u8]) -> Result<usize, Failed>
        requires { 0 < length into.old }
        ensures never_fails { IsOk result }
        ensures amount { IfOk result (λ count. count ≡ min (length into.old) (length self.old)) }
        ensures within { IfOk result (λ count. count ≤ length into.new) }
        ensures gives { IfOk result (λ count. self.old ≡ take count into.new ++ self.new) }
    {
        let rest = &self.bytes[self.at..];
        let count = rest.len().min(into.len());
        into[..count].copy_from_slice(&rest[..count]);
        self.at += count;
        Ok(count)
    }
}

/// A sink that keeps what is written in a `Vec`. Contracts see it as what was written.
#[derive(Drop)]
pub struct CleanSink {
    bytes: Vec<u8>,
}

impl Model for CleanSink {
    ghost Value = { List ℕ };

    ghost view = { λ sink. sink.bytes.items };
}

impl CleanSink {
    /// A sink that holds nothing yet.
    pub fn new(alloc: Global) -> CleanSink
        ensures { result ≡ [] }
    {
        CleanSink {
            bytes: Vec::new(alloc),
        }
    }

    /// What was written.
    pub fn bytes(&self) -> &[u8]
        ensures { result.now ≡ self.now }
    {
        self.bytes.as_slice()
    }
}

impl Sink for CleanSink {
    ghost faults = { λ _. 0 };

    ghost written = { λ sink. Some sink };

    fn write(&mut self, bytes: &[u8]) -> Result<usize, SinkFault>
        requires { 0 < length bytes.now }
        ensures memory { IfErr result (λ fault. fault ≡ SinkFault.Memory) }
        ensures amount { IfOk result (λ count. count ≡ length bytes.now) }
        ensures takes { OnOk result (self.new ≡ self.old ++ bytes.now) }
        ensures kept { OnErr result (self.new ≡ self.old) }
    {
        match self.bytes.extend_from_slice(bytes) {
            Ok(()) => Ok(bytes.len()),
            Err(_) => Err(SinkFault::Memory),
        }
    }
}
