//! The program: the standard streams, the words of the command line, the operations of the prelude and one method of a host, handed to
//! `session`.
#![tactic(auto)]

use jl_embed::{Between, lesser, session};
use jl_host::{HostMethod, HostOp, HostOps, Hosts, operations};
use jl_io::{StdSink, StdSource};
use jl_queue::OpenGate;
use std::alloc::{AllocError, Global};
use std::env::args;
use std::io::{ErrorKind, Stdin, Stdout};
use std::process::ExitCode;
use std::sync::Wait;
use std::thread::Threads;

/// The status where memory is refused.
const NO_MEMORY: u8 = 6;

/// The words of the command line after the program's name. Where one of them is not text there is one word, which is one too many.
fn words(rt: &HostRuntime) -> Result<Vec<String>, AllocError> {
    let alloc = rt.alloc();
    let mut words = Vec::new(alloc);
    match args(rt) {
        Ok(all) => {
            for word in all.skip(1) {
                words.push(word)?;
            }
        }
        Err(error) => {
            if error.kind() == ErrorKind::OutOfMemory {
                return Err(AllocError);
            }
            words.push(String::new(alloc))?;
        }
    }
    Ok(words)
}

/// Holds the session over these streams, and answers its status. The operations of the prelude and the method are made here, since a function
/// that hands out what it made of a function has no proof that the gate takes.
fn closed<R: Threads + Wait + Sync>(
    rt: &R,
    alloc: Global,
    words: &[&str],
    input: Stdin,
    output: Stdout,
) -> Result<u8, AllocError> {
    let mut list = Vec::new(alloc);
    list.push(HostOp::new(0, operations::add))?;
    list.push(HostOp::new(1, operations::subtract))?;
    list.push(HostOp::new(2, operations::multiply))?;
    list.push(HostOp::new(3, operations::divide))?;
    list.push(HostOp::new(4, operations::remainder))?;
    list.push(HostOp::new(5, operations::negate))?;
    list.push(HostOp::new(6, operations::equal))?;
    list.push(HostOp::new(7, operations::not_equal))?;
    list.push(HostOp::new(8, operations::less))?;
    list.push(HostOp::new(9, operations::less_equal))?;
    list.push(HostOp::new(10, operations::greater))?;
    list.push(HostOp::new(11, operations::greater_equal))?;
    list.push(HostOp::new(12, operations::not))?;
    list.push(HostOp::new(13, operations::equal_truths))?;
    let ops = HostOps::new(list);
    let mut methods = Vec::new(alloc);
    methods.push(HostMethod::<Between>::new(0, lesser))?;
    let hosts = Hosts::<Between>::new(methods);
    let mut source = StdSource::new(input);
    let mut sink = StdSink::new(output);
    let closed = session(
        rt,
        alloc,
        words,
        &mut source,
        &mut sink,
        &OpenGate,
        &ops,
        &hosts,
    );
    Ok(closed.status)
}

/// Holds the session over these streams, and answers its status.
fn status<R: Threads + Wait + Sync>(
    rt: &R,
    alloc: Global,
    owned: &[String],
    input: Stdin,
    output: Stdout,
) -> Result<u8, AllocError> {
    let mut words = Vec::new(alloc);
    for word in owned {
        words.push(word.as_str())?;
    }
    closed(rt, alloc, words.as_slice(), input, output)
}

fn main(rt: HostRuntime) -> ExitCode {
    let Ok(words) = words(&rt) else {
        return ExitCode::from(NO_MEMORY);
    };
    let status = status(&rt, rt.alloc(), words.as_slice(), rt.stdin(), rt.stdout());
    ExitCode::from(status.unwrap_or(NO_MEMORY))
}
