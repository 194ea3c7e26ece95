//! What is read of texts of histories, a text a line of standard input.
//!
//! A `|` is a newline, and `^` with two hexadecimal digits is the byte of this number. Pieces stand between `&`, and `N*PIECE` is N times a piece. The
//! answer is the first bad line, or what was read of each event. After `@` comes the text for a program that has a deletion place. A line `# TEXT`
//! is a heading.
#![tactic(auto)]

mod answers;
mod spelling;

use crate::answers::answer;
use crate::spelling::bytes_of;
use std::alloc::{AllocError, Global};
use std::io::{self, BufRead, BufReader};

/// What is read of the text that a line spells.
fn read(alloc: Global, line: &str) -> Result<String, AllocError> {
    let (places, spelled) = match line.strip_prefix('@') {
        Some(rest) => (true, rest),
        None => (false, line),
    };
    let text = bytes_of(alloc, spelled)?;
    answer(alloc, places, text.as_slice())
}

/// Takes a line.
fn take(rt: &HostRuntime, line: &str) -> io::Result<()> {
    if line.starts_with('#') {
        return println!(rt; "{line}");
    }
    let text = read(rt.alloc(), line)?;
    println!(rt; "{line} => {text}")
}

fn main(rt: HostRuntime) -> io::Result<()> {
    let alloc = rt.alloc();
    for line in BufReader::new(alloc, rt.reader())?.lines(alloc) {
        take(&rt, line?.as_str())?;
    }
    Ok(())
}
