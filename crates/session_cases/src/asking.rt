//! A session over devices in memory.

use jl_embed::{Between, Closed, lesser, session};
use jl_host::{HostMethod, HostOp, HostOps, Hosts, operations};
use jl_io::{MemSink, MemSource};
use jl_queue::OpenGate;
use std::alloc::{AllocError, Global};
use std::sync::Wait;
use std::thread::Threads;

/// Which call of the source fails, and which of the sink, from 1: with 0 none does.
#[derive(Clone, Copy)]
pub struct Asked {
    pub read: u64,
    pub write: u64,
}

/// What a session came to.
#[derive(Drop)]
pub struct Held {
    pub written: Vec<u8>,
    pub status: u8,
    pub answers: Vec<i64>,
    pub histories: usize,
}

/// Holds a session with words over these devices.
fn hold_over<R: Threads + Wait + Sync>(
    rt: &R,
    alloc: Global,
    words: &[&str],
    source: &mut MemSource,
    sink: &mut MemSink,
) -> Result<Closed, AllocError> {
    let mut list = Vec::new(alloc);
    list.push(HostOp::new(0, operations::add))?;
    list.push(HostOp::new(1, operations::subtract))?;
    list.push(HostOp::new(2, operations::multiply))?;
    list.push(HostOp::new(3, operations::divide))?;
    list.push(HostOp::new(4, operations::remainder))?;
    list.push(HostOp::new(5, operations::negate))?;
    list.push(HostOp::new(6, operations::equal))?;
    list.push(HostOp::new(7, operations::not_equal))?;
    list.push(HostOp::new(8, operations::less))?;
    list.push(HostOp::new(9, operations::less_equal))?;
    list.push(HostOp::new(10, operations::greater))?;
    list.push(HostOp::new(11, operations::greater_equal))?;
    list.push(HostOp::new(12, operations::not))?;
    list.push(HostOp::new(13, operations::equal_truths))?;
    let ops = HostOps::new(list);
    let mut methods = Vec::new(alloc);
    methods.push(HostMethod::<Between>::new(0, lesser))?;
    let hosts = Hosts::<Between>::new(methods);
    let closed = session(rt, alloc, words, source, sink, &OpenGate, &ops, &hosts);
    Ok(closed)
}

/// Holds a session with words over a source.
pub fn hold<R: Threads + Wait + Sync>(
    rt: &R,
    alloc: Global,
    words: &[&str],
    source: &[u8],
    asked: Asked,
) -> Result<Held, AllocError> {
    let reads = Vec::from_slice(alloc, &[asked.read])?;
    let mut source = MemSource::new(Vec::from_slice(alloc, source)?, 16, reads);
    let mut sink = MemSink::new(alloc, 1, Vec::from_slice(alloc, &[asked.write])?);
    let closed = hold_over(rt, alloc, words, &mut source, &mut sink)?;
    let written = Vec::from_slice(alloc, sink.bytes())?;
    Ok(Held {
        written,
        status: closed.status,
        histories: closed.histories.len(),
        answers: closed.answers,
    })
}
