//! What sessions write, as standard input asks.
//!
//! A line `| TEXT` is the next line of a source, which has no newline at its end. A line `$ WORDS` holds a session with these words over the
//! source: the answer is what it wrote, and a line with its status, how many bytes it wrote, what the host answered and how many
//! histories there are. `write N` and `read N` answer that line alone, for a session over a sink that fails at its call N and takes a byte at each,
//! and over a source that fails at its call N and gives 16. Any other line is a heading, and the next source begins after it.
#![tactic(auto)]

mod asking;

use crate::asking::{Asked, Held, hold};
use std::alloc::{AllocError, Global};
use std::io::{self, BufRead, BufReader, Print};
use std::str;
use std::sync::Wait;
use std::thread::Threads;

/// Tells what a session came to.
fn tell<P: Print>(rt: &P, held: &Held) -> io::Result<()> {
    print!(rt; "=> {}, {} bytes, answers", held.status, held.written.len())?;
    for answer in held.answers.as_slice() {
        print!(rt; " {answer}")?;
    }
    print!(rt; ", histories {}\n", held.histories)
}

/// Holds a session with words, and tells what it wrote and what it came to.
fn answer<R: Threads + Wait + Sync + Print>(
    rt: &R,
    alloc: Global,
    words: &str,
    source: &[u8],
) -> io::Result<()> {
    let mut list = Vec::new(alloc);
    for word in words.split_whitespace() {
        list.push(word)?;
    }
    let asked = Asked { read: 0, write: 0 };
    let held = hold(rt, alloc, list.as_slice(), source, asked)?;
    let lines = str::from_utf8(held.written.as_slice()).unwrap_or("no text\n");
    print!(rt; "{lines}")?;
    tell(rt, &held)
}

/// Holds a session over a device that fails, and tells what it came to.
fn answer_failing<R: Threads + Wait + Sync + Print>(
    rt: &R,
    alloc: Global,
    source: &[u8],
    asked: Asked,
) -> io::Result<()> {
    let held = hold(rt, alloc, &[], source, asked)?;
    tell(rt, &held)
}

/// Puts a line behind the others of a source.
fn add_line(source: &mut Vec<u8>, line: &str) -> Result<(), AllocError> {
    if !source.is_empty() {
        source.push(b'\n')?;
    }
    source.extend_from_slice(line.as_bytes())
}

/// Takes a line. The source so far stands in `source`.
fn take<R: Threads + Wait + Sync + Print>(
    rt: &R,
    alloc: Global,
    source: &mut Vec<u8>,
    line: &str,
) -> io::Result<()> {
    println!(rt; "{line}")?;
    if let Some(text) = line.strip_prefix("| ") {
        add_line(source, text)?;
        return Ok(());
    }
    if let Some(words) = line.strip_prefix("$") {
        return answer(rt, alloc, words, source.as_slice());
    }
    if let Some(number) = line.strip_prefix("write ") {
        let write = number.parse::<u64>().unwrap_or(0);
        return answer_failing(rt, alloc, source.as_slice(), Asked { read: 0, write });
    }
    if let Some(number) = line.strip_prefix("read ") {
        let read = number.parse::<u64>().unwrap_or(0);
        return answer_failing(rt, alloc, source.as_slice(), Asked { read, write: 0 });
    }
    source.clear();
    Ok(())
}

fn main(rt: HostRuntime) -> io::Result<()> {
    let alloc = rt.alloc();
    let mut source = Vec::new(alloc);
    for line in BufReader::new(alloc, rt.reader())?.lines(alloc) {
        take(&rt, alloc, &mut source, line?.as_str())?;
    }
    Ok(())
}
