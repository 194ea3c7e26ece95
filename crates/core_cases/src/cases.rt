//! A case: a script, and the lines that ask something of the model of its runs.

ghost use Rattle.std.specs.Prelude.{◌≡◌};

use crate::model::{sizes_of, try_step};
use crate::random::random;
use crate::reading::{number_at, read_step, words_of};
use crate::script::program_of;
use crate::walk::{start, walk};
use crate::writing::events_text;
use jl_core::Core;
use jl_sig::Ready;
use std::alloc::{AllocError, Global};

/// The lines of a case so far.
#[derive(Drop)]
pub struct Case {
    text: Vec<u8>,
    lines: Vec<String>,
}

impl Case {
    /// No line.
    pub fn new(alloc: Global) -> Case {
        Case {
            text: Vec::new(alloc),
            lines: Vec::new(alloc),
        }
    }

    /// One more line of its script.
    pub fn add_text(&mut self, line: &str) -> Result<(), AllocError> {
        self.text.extend_from_slice(line.as_bytes())?;
        self.text.push(b'\n')?;
        Ok(())
    }

    /// One more line that asks.
    pub fn add_line(&mut self, alloc: Global, line: &str) -> Result<(), AllocError> {
        self.lines.push(String::from_str(alloc, line)?)?;
        Ok(())
    }

    /// Whether it asks nothing.
    pub fn is_empty(&self) -> bool {
        self.lines.is_empty()
    }

    /// Forgets all lines.
    pub fn clear(&mut self) {
        self.text.clear();
        self.lines.clear();
    }

    /// The lines with their answers.
    pub fn answer(&self, alloc: Global) -> Result<String, AllocError> {
        let ready = program_of(alloc, self.text.as_slice())?;
        let told = answer_all(alloc, &ready, self.lines.as_slice());
        drop(ready);
        told
    }
}

/// The site that a task's last search has found.
fn found_text(alloc: Global, core: &Core, task: u32) -> Result<String, AllocError> {
    match core.found(task) {
        Some(site) => format!(in alloc; "{site}"),
        None => format!(in alloc; "none"),
    }
}

/// Whether a step is enabled, which is made then.
fn step_text(
    alloc: Global,
    ready: &Ready,
    core: &mut Core,
    line: &str,
) -> Result<String, AllocError>
    requires { ready.now ≡ core.old.program }
    ensures { core.new.program ≡ core.old.program }
{
    let Some(step) = read_step(alloc, ready, line)? else {
        return String::from_str(alloc, "");
    };
    let made = try_step(alloc, ready, core, step)?;
    format!(in alloc; "{}", if made { "yes" } else { "no" })
}

/// The answer to a line, among those before it.
fn answer_line(
    alloc: Global,
    ready: &Ready,
    core: &mut Core,
    lines: &[String],
    line: &str,
) -> Result<String, AllocError>
    requires { ready.now ≡ core.old.program }
    ensures { core.new.program ≡ core.old.program }
{
    let words = words_of(alloc, line)?;
    let word = match words.as_slice().first() {
        Some(word) => *word,
        None => "",
    };
    match word {
        "found" => found_text(alloc, core, number_at(words.as_slice(), 1)),
        "history" => events_text(alloc, ready, core.history()),
        "walk" => walk(alloc, ready, lines),
        "random" => random(alloc, ready, core, lines, line),
        "world" => {
            let world = sizes_of(core.history()).world;
            format!(in alloc; "{world}")
        }
        _ => step_text(alloc, ready, core, line),
    }
}

/// Puts a line with its answer behind others.
fn add_answer(out: &mut String, line: &str, answer: &str) -> Result<(), AllocError> {
    out.push_str(line)?;
    if !answer.is_empty() {
        out.push_str(" => ")?;
        out.push_str(answer)?;
    }
    out.push_str("\n")
}

/// The lines with their answers, from a start.
fn answer_from(
    alloc: Global,
    ready: &Ready,
    core: &mut Core,
    lines: &[String],
) -> Result<String, AllocError>
    requires { ready.now ≡ core.old.program }
{
    let mut out = String::new(alloc);
    for (i, line) in lines.iter().enumerate() {
        let answer = answer_line(alloc, ready, core, &lines[..i], line.as_str())?;
        add_answer(&mut out, line.as_str(), answer.as_str())?;
    }
    Ok(out)
}

/// The lines with their answers. The first one is the start.
fn answer_all(alloc: Global, ready: &Ready, lines: &[String]) -> Result<String, AllocError> {
    let first = match lines.first() {
        Some(line) => line.as_str(),
        None => "",
    };
    let mut core = start(alloc, ready, first)?;
    let told = answer_from(alloc, ready, &mut core, lines);
    drop(core);
    told
}
