//! The summary of the run of a generated script.

ghost use Rattle.std.specs.Prelude.{◌≡◌, ◌+◌, ◌++◌, length, drop, IfOk, OnOk};
ghost use Rattle.jl_program.specs.Prelude.{prelude_count};
ghost use Rattle.jl_calculus.specs.Legal.{MayStand, text_of};
ghost use Rattle.jl_calculus.specs.World.{world_of};
ghost use Rattle.jl_report.specs.Family.{AreOfTasks};
ghost use Rattle.jl_report.specs.Summary.{count_line, spawned, program_lines, run_lines, summary_text};

use crate::lines::append_number;
use crate::result::{append_text, status};
use jl_calculus::history::{Event, History};
use jl_model::rows::Row;
use jl_model::ty::Bytes;
use jl_program::prelude::PRELUDE_SITES;
use jl_program::tree::Program;
use jl_sig::Ready;
use std::alloc::{AllocError, Global};

/// A line of a number between two texts.
fn append_count(
    out: &mut Row<u8>,
    before: &[u8],
    number: u64,
    after: &[u8],
) -> Result<(), AllocError>
    ensures { OnOk result (out.new ≡ out.old ++ count_line before.now number after.now) }
{
    out.append(before)?;
    append_number(out, number)?;
    out.append(after)
}

/// How many definition sites a program has beyond those of the prelude.
fn own_sites(program: &Program) -> u64
    ensures { result ≡ length (drop prelude_count program.now.sites) }
{
    program.sites.len().saturating_sub(PRELUDE_SITES as usize) as u64
}

/// How many tasks were spawned.
fn count_spawns(events: &[Event]) -> u64
    ensures { result ≡ spawned events.now }
{
    let mut count: u64 = 0;
    for event in events {
        if let Event::Spawn { .. } = event {
            count += 1;
        }
    }
    count
}

/// The newest world.
fn newest_world(events: &[Event]) -> u64
    ensures { result ≡ world_of events.now }
{
    let mut world = u64::from(PRELUDE_SITES);
    for event in events {
        match event {
            Event::Def { .. } | Event::Del { .. } => world += 1,
            _ => {}
        }
    }
    world
}

/// The length of the text of the result that events tell.
fn text_length(alloc: Global, program: &Program, events: &[Event]) -> Result<u64, AllocError>
    requires { AreOfTasks events.now }
    ensures { IfOk result (λ n. n ≡ length (text_of program.now events.now)) }
{
    let mut text = Row::new(alloc);
    append_text(alloc, &mut text, program, events)?;
    Ok(text.len() as u64)
}

/// What the program of the script has.
fn append_program(out: &mut Row<u8>, n: u32, program: &Program) -> Result<(), AllocError>
    ensures { OnOk result (out.new ≡ out.old ++ program_lines n program.now) }
{
    append_count(out, b"generated ", u64::from(n), b"\n")?;
    append_count(out, b"types ", program.decls.len() as u64, b"\n")?;
    append_count(out, b"definitions ", own_sites(program), b"\n")
}

/// What its run did.
fn append_run(
    out: &mut Row<u8>,
    events: &[Event],
    length: u64,
    status: u8,
) -> Result<(), AllocError>
    ensures { OnOk result (out.new ≡ out.old ++ run_lines events.now length status) }
{
    append_count(out, b"tasks ", count_spawns(events), b"\n")?;
    append_count(out, b"world ", newest_world(events), b"\n")?;
    append_count(out, b"output ", length, b" bytes\n")?;
    append_count(out, b"status ", u64::from(status), b"\n")
}

/// Appends the summary of the run of the generated script of this number: the types that the script declares, its definition
/// sites, the tasks spawned, the world at the end, the length of the text of the result, and the status, a line each. The
/// one error is want of memory.
#[tactic(auto, using(crate::proofs::FamilyLemmas::may_stand))]
pub fn append_summary(
    alloc: Global,
    out: &mut Row<u8>,
    n: u32,
    ready: &Ready,
    history: &History,
) -> Result<(), AllocError>
    requires stand { MayStand ready.now history.now.events }
    ensures text { OnOk result (out.new ≡ out.old ++ summary_text n ready.now history.now.events) }
{
    let events = history.events.as_slice();
    let length = text_length(alloc, ready.program(), events)?;
    append_program(out, n, ready.program())?;
    append_run(out, events, length, status(history))
}

/// The summary, as [`append_summary`] writes it. The one error is want of memory.
pub fn summary(alloc: Global, n: u32, ready: &Ready, history: &History) -> Result<Bytes, AllocError>
    requires stand { MayStand ready.now history.now.events }
    ensures text { IfOk result (λ text. text ≡ summary_text n ready.now history.now.events) }
{
    let mut out = Row::new(alloc);
    append_summary(alloc, &mut out, n, ready, history)?;
    out.into_shared(alloc)
}
