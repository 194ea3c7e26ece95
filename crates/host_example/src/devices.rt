//! A source and a sink of the program's own. They tell contracts nothing of the bytes, and never fail.

ghost use Rattle.std.specs.Prelude.{◌≡◌, ◌<◌, ◌≤◌, length, None, IfOk, IfErr, IsOk};

use jl_io::{Failed, Sink, SinkFault, Source};
use std::alloc::{AllocError, Global};

/// A script, and what is asked of it.
#[derive(Drop)]
pub struct Orders {
    text: Vec<u8>,
    at: usize,
}

impl Orders {
    /// A script without requests so far.
    pub fn new(alloc: Global, script: &str) -> Result<Orders, AllocError> {
        let mut text = Vec::from_slice(alloc, script.as_bytes())?;
        text.extend_from_slice(b"%%session\n")?;
        Ok(Orders { text, at: 0 })
    }

    /// Adds a request.
    pub fn ask(&mut self, request: &str) -> Result<(), AllocError> {
        self.text.extend_from_slice(request.as_bytes())?;
        self.text.push(b'\n')?;
        Ok(())
    }
}

impl Source for Orders {
    ghost faults = { λ _. 0 };

    ghost left = { λ _. None };

    fn read(&mut self, into: &mut [u8]) -> Result<usize, Failed>
        requires { 0 < length into.old }
        ensures never_fails { IsOk result }
        ensures within { IfOk result (λ count. count ≤ length into.new) }
    {
        let rest = &self.text[self.at.min(self.text.len())..];
        let count = rest.len().min(into.len());
        into[..count].copy_from_slice(&rest[..count]);
        self.at = self.at.saturating_add(count);
        Ok(count)
    }
}

/// What was replied.
#[derive(Drop)]
pub struct Replies {
    bytes: Vec<u8>,
}

impl Replies {
    /// None so far.
    pub fn new(alloc: Global) -> Replies {
        Replies {
            bytes: Vec::new(alloc),
        }
    }

    /// All that was written.
    pub fn bytes(&self) -> &[u8] {
        self.bytes.as_slice()
    }
}

impl Sink for Replies {
    ghost faults = { λ _. 0 };

    ghost written = { λ _. None };

    fn write(&mut self, bytes: &[u8]) -> Result<usize, SinkFault>
        requires { 0 < length bytes.now }
        ensures memory { IfErr result (λ fault. fault ≡ SinkFault.Memory) }
        ensures amount { IfOk result (λ count. count ≡ length bytes.now) }
    {
        match self.bytes.extend_from_slice(bytes) {
            Ok(()) => Ok(bytes.len()),
            Err(_) => Err(SinkFault::Memory),
        }
    }
}
