//! What the top call answers to scripts, as standard input asks.
//!
//! A line `| TEXT` is the next line of a script, and `N| TEXT` is N lines like it; a script has no newline behind its last line.
//! `N* TEXT` is the text N times more at the end of the last line. A line `$ WORDS` makes the call with these words over the script so
//! far, and the next script begins behind it: the answer is what the call wrote, and a line `=> STATUS`, or `=> STATUS, history` where a
//! history was handed out. `N$ WORDS` makes it N times, over the script without its last byte, its last two, and so on. A line of
//! another form is a heading.
#![tactic(auto)]

mod script;

use crate::script::ScriptText;
use jl_cli::run;
use jl_host::{HostOp, HostOps, operations};
use jl_io::{CleanSink, CleanSource};
use jl_queue::OpenGate;
use std::alloc::{AllocError, Global};
use std::io::{self, BufRead, BufReader, Print};
use std::str;
use std::sync::Wait;
use std::thread::Threads;

/// Makes the call, and gives what it wrote, its status and whether it handed out a history.
fn called<R: Threads + Wait + Sync>(
    rt: &R,
    alloc: Global,
    words: &[&str],
    text: &[u8],
) -> Result<(Vec<u8>, u8, bool), AllocError> {
    let mut list = Vec::new(alloc);
    list.push(HostOp::new(0, operations::add))?;
    list.push(HostOp::new(1, operations::subtract))?;
    list.push(HostOp::new(2, operations::multiply))?;
    list.push(HostOp::new(3, operations::divide))?;
    list.push(HostOp::new(4, operations::remainder))?;
    list.push(HostOp::new(5, operations::negate))?;
    list.push(HostOp::new(6, operations::equal))?;
    list.push(HostOp::new(7, operations::not_equal))?;
    list.push(HostOp::new(8, operations::less))?;
    list.push(HostOp::new(9, operations::less_equal))?;
    list.push(HostOp::new(10, operations::greater))?;
    list.push(HostOp::new(11, operations::greater_equal))?;
    list.push(HostOp::new(12, operations::not))?;
    list.push(HostOp::new(13, operations::equal_truths))?;
    let ops = HostOps::new(list);
    let mut source = CleanSource::new(Vec::from_slice(alloc, text)?);
    let mut sink = CleanSink::new(alloc);
    let ended = run(rt, alloc, words, &mut source, &mut sink, &OpenGate, ops);
    let status = ended.status;
    let has_history = ended.history.is_some();
    drop(ended);
    Ok((Vec::from_slice(alloc, sink.bytes())?, status, has_history))
}

/// Answers a script.
fn answer<R: Threads + Wait + Sync + Print>(
    rt: &R,
    alloc: Global,
    words: &str,
    text: &[u8],
) -> io::Result<()> {
    let mut list = Vec::new(alloc);
    for word in words.split_whitespace() {
        list.push(word)?;
    }
    let (written, status, has_history) = called(rt, alloc, list.as_slice(), text)?;
    let lines = str::from_utf8(written.as_slice()).unwrap_or("no text\n");
    let history = if has_history { ", history" } else { "" };
    print!(rt; "{lines}=> {status}{history}\n")
}

/// Answers a script where no count is given, and else the script cut at each of so many places before its end.
fn answer_each<R: Threads + Wait + Sync + Print>(
    rt: &R,
    alloc: Global,
    count: &str,
    words: &str,
    text: &[u8],
) -> io::Result<()> {
    if count.is_empty() {
        return answer(rt, alloc, words, text);
    }
    let most = count.parse::<usize>().unwrap_or(0).min(text.len());
    for less in 1..=most {
        answer(rt, alloc, words, &text[..text.len() - less])?;
    }
    Ok(())
}

/// What stands before a mark and behind it, where a line has a number or nothing before it.
fn split_at_mark<'a>(line: &'a str, mark: char) -> Option<(&'a str, &'a str)> {
    let (count, rest) = line.split_once(mark)?;
    if count.is_empty() || count.parse::<usize>().is_ok() {
        return Some((count, rest));
    }
    None
}

/// Takes a line. The script so far stands in `script`.
fn take<R: Threads + Wait + Sync + Print>(
    rt: &R,
    alloc: Global,
    script: &mut ScriptText,
    line: &str,
) -> io::Result<()> {
    println!(rt; "{line}")?;
    if let Some((count, words)) = split_at_mark(line, '$') {
        answer_each(rt, alloc, count, words, script.text())?;
        script.clear();
        return Ok(());
    }
    if let Some((count, text)) = split_at_mark(line, '|') {
        script.add(count, text)?;
    } else if let Some((count, text)) = split_at_mark(line, '*') {
        script.extend(count, text)?;
    }
    Ok(())
}

fn main(rt: HostRuntime) -> io::Result<()> {
    let alloc = rt.alloc();
    let mut script = ScriptText::new(alloc);
    for line in BufReader::new(alloc, rt.reader())?.lines(alloc) {
        take(&rt, alloc, &mut script, line?.as_str())?;
    }
    Ok(())
}
