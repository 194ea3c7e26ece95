//! What the model of a run answers to steps, as standard input asks.
//!
//! A line `| TEXT` is the next line of a script. The lines after it, up to an empty line, are a case. The first is
//! `start FUEL KEYS ROWS`. All others ask. A line with a step (`reading.rt` has their words) is answered with whether the step is enabled,
//! and then it is made. `found T` asks what a task's last search has found, `history` for the events, `world` for the newest world.
//! `walk` makes all interleavings of what lines `task T: define SITE, delete PLACE, call KEY` say, each after the steps of the case so far.
//! `random SEED COUNT` tries random steps, with the keys of lines `pool FUNCTION TYPES`: the answer has how many of each kind were
//! made. Both compare each hit with the choice. A line `# TEXT` is a heading.
#![tactic(auto)]

mod cases;
mod model;
mod random;
mod reading;
mod script;
mod walk;
mod worker;
mod writing;

use crate::cases::Case;
use std::io::{self, BufRead, BufReader};

/// Writes the answers of a case.
fn show(rt: &HostRuntime, case: &mut Case) -> io::Result<()> {
    if case.is_empty() {
        return Ok(());
    }
    let told = case.answer(rt.alloc())?;
    case.clear();
    print!(rt; "{told}")
}

/// Takes a line.
fn take(rt: &HostRuntime, case: &mut Case, line: &str) -> io::Result<()> {
    if line.is_empty() {
        show(rt, case)?;
        return println!(rt; "");
    }
    if line.starts_with("#") {
        return println!(rt; "{line}");
    }
    if let Some(text) = line.strip_prefix("| ") {
        case.add_text(text)?;
        return println!(rt; "{line}");
    }
    case.add_line(rt.alloc(), line)?;
    Ok(())
}

fn main(rt: HostRuntime) -> io::Result<()> {
    let alloc = rt.alloc();
    let mut case = Case::new(alloc);
    for line in BufReader::new(alloc, rt.reader())?.lines(alloc) {
        take(&rt, &mut case, line?.as_str())?;
    }
    show(&rt, &mut case)
}
