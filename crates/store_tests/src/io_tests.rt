//! Sources and sinks in memory, with ample memory and with faults in mid-stream.

ghost use Rattle.std.specs.Prelude.{◌<◌};

use crate::holds;
use jl_io::{
    CleanSink, CleanSource, Failed, MemSink, MemSource, ReadFault, Sink, SinkFault, Source,
    read_up_to, write_all,
};
use std::alloc::{AllocError, Global};

/// Whether a source gives these bytes, where so many may be read at most.
fn gives<S: Source>(alloc: Global, source: &mut S, most: usize, due: &[u8]) -> bool {
    match read_up_to(alloc, source, most) {
        Ok(bytes) => bytes.as_slice() == due,
        Err(_) => false,
    }
}

fn clean_source_gives_all(alloc: Global) -> Result<bool, AllocError> {
    let text = vec![in alloc; b'a'; 20000]?;
    let mut source = CleanSource::new(Vec::from_slice(alloc, text.as_slice())?);
    Ok(gives(alloc, &mut source, 1048577, text.as_slice()))
}

#[test]
fn clean_source_gives_all_it_has_over_several_pieces(rt: HostRuntime) {
    assert!(rt; holds(clean_source_gives_all(rt.alloc())));
}

/// A source of a text that gives so many bytes a call, and fails at these calls.
fn hello(alloc: Global, piece: usize, fails: &[u64]) -> Result<MemSource, AllocError>
    requires { 0 < piece }
{
    let fail_at = Vec::from_slice(alloc, fails)?;
    let text = Vec::from_slice(alloc, b"hello")?;
    Ok(MemSource::new(text, piece, fail_at))
}

fn stops_at(alloc: Global, most: usize, due: &str) -> Result<bool, AllocError> {
    let mut source = hello(alloc, 3, &[])?;
    Ok(gives(alloc, &mut source, most, due.as_bytes()))
}

/// The most bytes to read, and what is read of five.
static LIMITS: [(usize, &str); 5] = [(0, ""), (1, "h"), (4, "hell"), (5, "hello"), (6, "hello")];

#[test]
fn reading_stops_at_the_limit(rt: HostRuntime) {
    for (most, due) in &LIMITS {
        assert!(rt; holds(stops_at(rt.alloc(), *most, due)), "at most {most}");
    }
}

/// What reads of two bytes at most answer, where the second, the third and the fifth fail.
static READS: [Result<usize, Failed>; 7] = [
    Ok(2),
    Err(Failed),
    Err(Failed),
    Ok(2),
    Err(Failed),
    Ok(1),
    Ok(0),
];

/// Reads once more into a list. The answer is whether the read answers what is due.
fn read_more(
    source: &mut MemSource,
    all: &mut Vec<u8>,
    due: &Result<usize, Failed>,
) -> Result<bool, AllocError> {
    let mut into = [0u8; 4];
    let got = source.read(&mut into);
    if let Ok(count) = got {
        all.extend_from_slice(&into[..count])?;
    }
    Ok(got == *due)
}

/// Whether each read answers what is due, and all together give the text.
fn all_reads_answer(source: &mut MemSource, all: &mut Vec<u8>) -> Result<bool, AllocError> {
    for due in &READS {
        if !read_more(source, all, due)? {
            return Ok(false);
        }
    }
    Ok(all.as_slice() == b"hello".as_slice())
}

fn nothing_is_lost(alloc: Global) -> Result<bool, AllocError> {
    let mut source = hello(alloc, 2, &[2, 3, 5])?;
    let mut all = Vec::new(alloc);
    all_reads_answer(&mut source, &mut all)
}

#[test]
fn failed_reads_lose_nothing(rt: HostRuntime) {
    assert!(rt; holds(nothing_is_lost(rt.alloc())));
}

/// Whether a failing read of this number is answered, where it is one of the six, and all is read where it is not.
fn is_answered(alloc: Global, number: u64) -> Result<bool, AllocError> {
    let mut source = hello(alloc, 1, &[number])?;
    match read_up_to(alloc, &mut source, 100) {
        Ok(bytes) => Ok(number == 7 && bytes.as_slice() == b"hello".as_slice()),
        Err(fault) => Ok(number < 7 && fault == ReadFault::Failed),
    }
}

#[test]
fn each_failing_read_is_answered(rt: HostRuntime) {
    for number in 1..=7u64 {
        assert!(rt;
            holds(is_answered(rt.alloc(), number)),
            "read {number} fails"
        );
    }
}

static PARTS: [&str; 4] = ["hello", "", " ", "world"];

fn sink_holds_all(alloc: Global) -> bool {
    let mut sink = CleanSink::new(alloc);
    for part in &PARTS {
        if write_all(&mut sink, part.as_bytes()).is_err() {
            return false;
        }
    }
    sink.bytes() == b"hello world".as_slice()
}

#[test]
fn clean_sink_holds_all_that_was_written(rt: HostRuntime) {
    assert!(rt; sink_holds_all(rt.alloc()));
}

/// A sink that takes so many bytes a call, and fails at these calls.
fn failing_sink(alloc: Global, piece: usize, fails: &[u64]) -> Result<MemSink, AllocError>
    requires { 0 < piece }
{
    let fail_at = Vec::from_slice(alloc, fails)?;
    Ok(MemSink::new(alloc, piece, fail_at))
}

/// What writes of two bytes at most answer, where the first and the third fail.
static WRITES: [Result<usize, SinkFault>; 5] = [
    Err(SinkFault::Failed),
    Ok(2),
    Err(SinkFault::Failed),
    Ok(2),
    Ok(1),
];

/// Whether each write of what is left of a text answers what is due, and the sink then has the text.
fn all_writes_answer(sink: &mut MemSink) -> bool {
    let text = b"hello";
    let mut done = 0;
    for due in &WRITES {
        if text.len() <= done {
            return false;
        }
        let got = sink.write(&text[done..]);
        if got != *due {
            return false;
        }
        if let Ok(count) = got {
            done += count;
        }
    }
    sink.bytes() == text.as_slice()
}

fn refused_take_nothing(alloc: Global) -> Result<bool, AllocError> {
    let mut sink = failing_sink(alloc, 2, &[1, 3])?;
    Ok(all_writes_answer(&mut sink))
}

#[test]
fn refused_writes_take_nothing(rt: HostRuntime) {
    assert!(rt; holds(refused_take_nothing(rt.alloc())));
}

/// Whether a failing write of this number leaves the bytes before it, where it is one of the three, and all are there where it is not.
fn leaves_first_part(alloc: Global, number: u64) -> Result<bool, AllocError> {
    let mut sink = failing_sink(alloc, 1, &[number])?;
    let answer = write_all(&mut sink, b"34\n");
    let due = if number < 4 {
        Err(SinkFault::Failed)
    } else {
        Ok(())
    };
    let is_first = b"34\n".starts_with(sink.bytes());
    Ok(answer == due && is_first && sink.bytes().len() as u64 == number.saturating_sub(1))
}

#[test]
fn each_failing_write_leaves_the_bytes_before_it(rt: HostRuntime) {
    for number in 1..=4u64 {
        assert!(rt;
            holds(leaves_first_part(rt.alloc(), number)),
            "write {number} fails"
        );
    }
}
