//! The definition sites, spawn places and deletion places of the script on standard input, each with its number and its place.
//!
//! `site NUMBER FUNCTION LINE COLUMN`, `spawn NUMBER LINE COLUMN` and `delete NUMBER FUNCTION LINE COLUMN`, in the order of the text and
//! with the numbers that programs and histories give them. A text that is no script gives nothing, and status 3. Besides, status 4: the input failed, 5: the output
//! failed, 6: out of memory.
#![tactic(auto)]

mod answer;
mod gather;
mod place;
mod spot;
mod table;

use crate::answer::sites;
use jl_io::{ReadFault, SinkFault, StdSink, StdSource, read_up_to, write_all};
use jl_model::limits::MOST_SOURCE_BYTES;
use std::alloc::Global;
use std::io::{Stdin, Stdout};
use std::process::ExitCode;

/// Writes the table of the script that these bytes are, and answers the status.
fn tell(alloc: Global, bytes: &[u8], output: Stdout) -> u8 {
    match sites(alloc, bytes) {
        Ok(Some(table)) => {
            let mut sink = StdSink::new(output);
            match write_all(&mut sink, table.as_slice()) {
                Ok(()) => 0,
                Err(SinkFault::Failed) => 5,
                Err(SinkFault::Memory) => 6,
            }
        }
        Ok(None) => 3,
        Err(_) => 6,
    }
}

/// Reads a script, writes its table, and answers the status.
fn status(alloc: Global, input: Stdin, output: Stdout) -> u8 {
    let mut source = StdSource::new(input);
    match read_up_to(alloc, &mut source, MOST_SOURCE_BYTES + 1) {
        Ok(bytes) => tell(alloc, bytes.as_slice(), output),
        Err(ReadFault::Failed) => 4,
        Err(ReadFault::Memory) => 6,
    }
}

fn main(rt: HostRuntime) -> ExitCode {
    ExitCode::from(status(rt.alloc(), rt.stdin(), rt.stdout()))
}
