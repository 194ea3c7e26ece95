//! What work on a program comes to: a status, a history and a text.

ghost use Rattle.std.specs.Prelude.{◌≡◌, None, Some, IfOk, ℕ, List, drop, length};
ghost use Rattle.jl_program.specs.Prelude.{prelude_count};
ghost use Rattle.jl_queue.specs.Setups.{IsSetup};
ghost use Rattle.jl_calculus.specs.Legal.{IsKeyOf, status_of};
ghost use Rattle.jl_reflect.specs.Asked.{MeansKey};
ghost use Rattle.jl_work.specs.declared.work.Question.{Question as Q};
ghost use Rattle.jl_work.specs.declared.work.Work.TheVariants as W;
ghost use Rattle.jl_work.specs.Owed.{IsOwed, IsResult, IsHistoryIn, AreProgram, ok_line, unknown_line};
ghost use Rattle.jl_work.specs.Work.{IsSetUp};

use crate::faults::line;
use crate::place::append_number;
use crate::telling::{tell_choices, tell_run};
use crate::work::{Question, Telling, Work};
use jl_calculus::history::History;
use jl_host::HostOps;
use jl_model::rows::Row;
use jl_model::ty::{Bytes, Key};
use jl_program::prelude::PRELUDE_SITES;
use jl_program::tree::Program;
use jl_queue::{Gate, Setup};
use jl_reflect::{QueryFault, key_of};
use jl_report::status;
use jl_runner::run_tasks;
use jl_sig::Ready;
use std::alloc::{AllocError, Global};
use std::sync::Wait;
use std::thread::Threads;

/// The line of a question about no function or no types of the program.
const UNKNOWN: &str = "ERROR: QueryUnknown\n";

/// What is due: a status, a history and a text.
#[derive(Drop)]
pub struct Due {
    pub status: u8,
    pub history: Option<History>,
    pub text: Bytes,
}

/// What is due where nothing is done, with the line that tells why.
pub fn refusal(text: Bytes) -> Due
    ensures { (result.status ≡ 3) × (result.history ≡ None) × (result.text ≡ text) }
{
    Due {
        status: 3,
        history: None,
        text,
    }
}

/// The history of a run of a program.
fn history_of<R: Threads + Wait + Sync, G: Gate>(
    rt: &R,
    alloc: Global,
    ready: &Ready,
    setup: Setup,
    gate: &G,
    ops: &HostOps,
) -> Result<History, AllocError>
    requires { IsSetup setup }
    ensures { IfOk result (λ history. IsHistoryIn ready.now setup history) }
{
    let history = run_tasks(rt, alloc, ready, &setup, gate, ops)?;
    Ok(history)
}

/// What is due with a history: the status is by the root's outcome.
fn with_history(history: History, text: Bytes) -> Due
    ensures { (result.status ≡ status_of history.events) × (result.history ≡ Some history) × (result.text ≡ text) }
{
    let status = status(&history);
    Due {
        status,
        history: Some(history),
        text,
    }
}

/// What a run of a program in a setup comes to: a history that the run may have, what is told of it, and the status by the root's outcome.
pub fn run_source<R: Threads + Wait + Sync, G: Gate>(
    rt: &R,
    alloc: Global,
    ready: &Ready,
    setup: Setup,
    telling: Telling,
    gate: &G,
    ops: &HostOps,
) -> Result<Due, AllocError>
    requires { IsSetup setup }
    ensures { IfOk result
        (λ due. IsResult (W.Run setup telling) ready.now due.status due.history due.text) }
{
    let history = history_of(rt, alloc, ready, setup, gate, ops)?;
    let text = tell_run(alloc, telling, ready, &history)?;
    Ok(with_history(history, text))
}

/// What a run of a program comes to, where a question means this key.
fn run_for_key<R: Threads + Wait + Sync, G: Gate>(
    rt: &R,
    alloc: Global,
    ready: &Ready,
    setup: Setup,
    key: &Key,
    gate: &G,
    ops: &HostOps,
) -> Result<Due, AllocError>
    requires setup { IsSetup setup }
    requires key { IsKeyOf ready.now key.now }
    ensures { IfOk result (λ due. (question : Q) → MeansKey ready.now question.name question.ty key.now
        → IsResult (W.Which setup question) ready.now due.status due.history due.text) }
{
    let history = history_of(rt, alloc, ready, setup, gate, ops)?;
    let text = tell_choices(alloc, ready, &history, key)?;
    Ok(with_history(history, text))
}

/// What a question about no function or no types of the program comes to.
fn unanswered(alloc: Global) -> Result<Due, AllocError>
    ensures { IfOk result (λ due. (due.status ≡ 8) × (due.history ≡ None) × (due.text ≡ unknown_line)) }
{
    let text = line(alloc, UNKNOWN.as_bytes())?;
    Ok(Due {
        status: 8,
        history: None,
        text,
    })
}

/// What a question about the run of a program comes to.
fn ask<R: Threads + Wait + Sync, G: Gate>(
    rt: &R,
    alloc: Global,
    ready: &Ready,
    setup: Setup,
    question: &Question,
    gate: &G,
    ops: &HostOps,
) -> Result<Due, AllocError>
    requires { IsSetup setup }
    ensures { IfOk result (λ due. (bytes : List ℕ) → AreProgram bytes ready.now
        → IsOwed (W.Which setup question.now) bytes due.status due.history due.text) }
{
    match key_of(
        alloc,
        ready,
        question.name.as_slice(),
        question.ty.as_slice(),
    ) {
        Ok(key) => {
            let due = run_for_key(rt, alloc, ready, setup, &key, gate, ops)?;
            Ok(due)
        }
        Err(QueryFault::Unknown) => {
            let due = unanswered(alloc)?;
            Ok(due)
        }
        Err(QueryFault::Memory) => Err(AllocError),
    }
}

/// How many definition sites a program has beyond those of the prelude.
fn own_sites(program: &Program) -> u64
    ensures { result ≡ length (drop prelude_count program.now.sites) }
{
    program.sites.len().saturating_sub(PRELUDE_SITES as usize) as u64
}

/// The line that tells how many types a program declares, and how many definition sites it has.
fn ok_line(alloc: Global, program: &Program) -> Result<Bytes, AllocError>
    ensures { IfOk result (λ line. line ≡ ok_line program.now) }
{
    let mut out = Row::new(alloc);
    out.append(b"ok: ")?;
    append_number(&mut out, program.decls.len() as u64)?;
    out.append(b" types, ")?;
    append_number(&mut out, own_sites(program))?;
    out.append(b" definitions\n")?;
    out.into_shared(alloc)
}

/// What a check of a program comes to: how many types it declares, and how many definition sites it has.
pub fn count(alloc: Global, program: &Program) -> Result<Due, AllocError>
    ensures { IfOk result (λ due. IsResult W.Check program.now due.status due.history due.text) }
{
    let text = ok_line(alloc, program)?;
    Ok(Due {
        status: 0,
        history: None,
        text,
    })
}

/// What work on a program comes to. Where a question is not about it, it is not run.
pub fn work_on<R: Threads + Wait + Sync, G: Gate>(
    rt: &R,
    alloc: Global,
    ready: &Ready,
    work: &Work,
    gate: &G,
    ops: &HostOps,
) -> Result<Due, AllocError>
    requires { IsSetUp work.now }
    ensures { IfOk result (λ due. (bytes : List ℕ) → AreProgram bytes ready.now
        → IsOwed work.now bytes due.status due.history due.text) }
{
    match work {
        Work::Check => {
            let due = count(alloc, ready.program())?;
            Ok(due)
        }
        Work::Run(setup, telling) => {
            let due = run_source(rt, alloc, ready, *setup, *telling, gate, ops)?;
            Ok(due)
        }
        Work::Which(setup, question) => {
            let due = ask(rt, alloc, ready, *setup, question, gate, ops)?;
            Ok(due)
        }
    }
}
