//! A source and a sink over the standard streams.
//!
//! Each call makes one call of the standard library's `read` or `write`, and each error raises a
//! count. They tell nothing of the bytes, since no contract can say what a stream holds.

ghost use Rattle.std.specs.Prelude.{◌≡◌, ℕ, ◌<◌, ◌≤◌, length, None, IfOk, OnOk, OnErr, IfErr};
ghost use Rattle.jl_io.specs.Faults.{Rose, raised};

use crate::faults::raise;
use crate::reading::{Failed, Source};
use crate::writing::{Sink, SinkFault};
use std::io::{Read, Stdin, Stdout, Write};
use std::marker::Model;

/// Standard input as a source. Contracts see it as its count of faults.
#[derive(Drop)]
pub struct StdSource {
    input: Stdin,
    faults: u64,
}

impl Model for StdSource {
    ghost Value = { ℕ };

    ghost view = { λ source. source.faults };
}

impl StdSource {
    /// A source over standard input, without a fault so far.
    pub fn new(input: Stdin) -> StdSource
        ensures { result ≡ 0 }
    {
        StdSource { input, faults: 0 }
    }
}

impl Source for StdSource {
    ghost faults = { λ source. source };

    ghost left = { λ _. None };

    fn read(&mut self, into: &mut [u8]) -> Result<usize, Failed>
        requires { 0 < length into.old }
        ensures within { IfOk result (λ count. count ≤ length into.new) }
        ensures quiet { OnOk result (self.new ≡ self.old) }
        ensures raised { OnErr result (self.new ≡ raised self.old) }
        ensures counted { self.old ≤ self.new }
        ensures rose { OnErr result (Rose self.old self.new) }
    {
        match self.input.read(into) {
            Ok(count) => Ok(count),
            Err(_) => {
                self.faults = raise(self.faults);
                Err(Failed)
            }
        }
    }
}

/// Standard output as a sink. Contracts see it as its count of faults.
#[derive(Drop)]
pub struct StdSink {
    output: Stdout,
    faults: u64,
}

impl Model for StdSink {
    ghost Value = { ℕ };

    ghost view = { λ sink. sink.faults };
}

impl StdSink {
    /// A sink over standard output, without a fault so far.
    pub fn new(output: Stdout) -> StdSink
        ensures { result ≡ 0 }
    {
        StdSink { output, faults: 0 }
    }
}

/// What a write took is flushed at once. A write that takes nothing is an error.
impl Sink for StdSink {
    ghost faults = { λ sink. sink };

    ghost written = { λ _. None };

    fn write(&mut self, bytes: &[u8]) -> Result<usize, SinkFault>
        requires { 0 < length bytes.now }
        ensures within { IfOk result (λ count. (1 ≤ count) × (count ≤ length bytes.now)) }
        ensures quiet { OnOk result (self.new ≡ self.old) }
        ensures raised { OnErr result (self.new ≡ raised self.old) }
        ensures counted { self.old ≤ self.new }
        ensures device { IfErr result (λ fault. fault ≡ SinkFault.Failed) }
        ensures rose { OnErr result (Rose self.old self.new) }
    {
        match self.output.write(bytes) {
            Ok(count) if count > 0 && self.output.flush().is_ok() => Ok(count),
            _ => {
                self.faults = raise(self.faults);
                Err(SinkFault::Failed)
            }
        }
    }
}
