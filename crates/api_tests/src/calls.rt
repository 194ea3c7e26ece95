//! The top call over devices in memory, each of which reads or writes one byte a call and fails at one of them.

use jl_calculus::history::{Event, History};
use jl_cli::{Ended, run};
use jl_host::{HostOp, HostOps, operations};
use jl_io::{MemSink, MemSource};
use jl_queue::{Gate, OpenGate};
use std::alloc::{AllocError, Global};
use std::sync::Wait;
use std::thread::Threads;

/// The operations of the prelude, in the order of their codes.
pub(crate) fn all_operations(alloc: Global) -> Result<HostOps, AllocError> {
    let mut list = Vec::new(alloc);
    list.push(HostOp::new(0, operations::add))?;
    list.push(HostOp::new(1, operations::subtract))?;
    list.push(HostOp::new(2, operations::multiply))?;
    list.push(HostOp::new(3, operations::divide))?;
    list.push(HostOp::new(4, operations::remainder))?;
    list.push(HostOp::new(5, operations::negate))?;
    list.push(HostOp::new(6, operations::equal))?;
    list.push(HostOp::new(7, operations::not_equal))?;
    list.push(HostOp::new(8, operations::less))?;
    list.push(HostOp::new(9, operations::less_equal))?;
    list.push(HostOp::new(10, operations::greater))?;
    list.push(HostOp::new(11, operations::greater_equal))?;
    list.push(HostOp::new(12, operations::not))?;
    list.push(HostOp::new(13, operations::equal_truths))?;
    Ok(HostOps::new(list))
}

/// Stands for the number of a call of a device that fails, where none fails.
pub(crate) const NONE: u64 = 0;

/// What a call is asked: the words, the input, and which read and which write fail.
#[derive(Clone, Copy)]
pub(crate) struct Ask<'a> {
    pub(crate) words: &'a [&'a str],
    pub(crate) input: &'a [u8],
    pub(crate) read: u64,
    pub(crate) write: u64,
}

/// How a call ended: its status, whether it handed out a history, and the site of the last definition in it, 0 where there is none.
#[derive(Clone, Copy)]
pub(crate) struct End {
    pub(crate) status: u8,
    pub(crate) has_history: bool,
    pub(crate) last_site: u32,
}

/// The site of the last definition; 0 where there is none.
fn last_site(history: &History) -> u32 {
    let mut last = 0;
    for event in history.events.as_slice() {
        if let Event::Def { site, .. } = event {
            last = *site;
        }
    }
    last
}

/// What is kept of an end. The history is let go here alone.
fn end_of(ended: Ended) -> End {
    let status = ended.status;
    let has_history = ended.history.is_some();
    let last_site = match &ended.history {
        Some(history) => last_site(history),
        None => 0,
    };
    drop(ended);
    End {
        status,
        has_history,
        last_site,
    }
}

fn source_of(alloc: Global, ask: &Ask) -> Result<MemSource, AllocError> {
    let fails = Vec::from_slice(alloc, &[ask.read])?;
    let input = Vec::from_slice(alloc, ask.input)?;
    Ok(MemSource::new(input, 1, fails))
}

fn sink_of(alloc: Global, ask: &Ask) -> Result<MemSink, AllocError> {
    let fails = Vec::from_slice(alloc, &[ask.write])?;
    Ok(MemSink::new(alloc, 1, fails))
}

/// Makes the call over these devices.
fn call_over<R: Threads + Wait + Sync, G: Gate>(
    rt: &R,
    alloc: Global,
    words: &[&str],
    source: &mut MemSource,
    sink: &mut MemSink,
    gate: &G,
) -> Result<End, AllocError> {
    let ops = all_operations(alloc)?;
    Ok(end_of(run(rt, alloc, words, source, sink, gate, ops)))
}

/// How a call ends, and what it writes.
pub(crate) fn call<R: Threads + Wait + Sync, G: Gate>(
    rt: &R,
    alloc: Global,
    ask: &Ask,
    gate: &G,
) -> Result<(End, Vec<u8>), AllocError> {
    let mut source = source_of(alloc, ask)?;
    let mut sink = sink_of(alloc, ask)?;
    let end = call_over(rt, alloc, ask.words, &mut source, &mut sink, gate)?;
    let written = Vec::from_slice(alloc, sink.bytes())?;
    Ok((end, written))
}

/// Whether a call ends with this status, writes this text, and hands out a history or none.
pub(crate) fn answers<R: Threads + Wait + Sync>(
    rt: &R,
    alloc: Global,
    ask: &Ask,
    due: (u8, &[u8], bool),
) -> bool {
    match call(rt, alloc, ask, &OpenGate) {
        Ok((end, written)) => {
            end.status == due.0 && written.as_slice() == due.1 && end.has_history == due.2
        }
        Err(_) => false,
    }
}
