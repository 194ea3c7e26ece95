//! What is due for the bytes of a source.
//!
//! What a script was read and resolved to is left where it is, not taken apart: the process ends next, and its memory
//! with it. To free each node of the trees took up to a fifth of a check.

ghost use Rattle.std.specs.Prelude.{◌≡◌, ◌≤◌, Some, IfOk, length};
ghost use Rattle.jl_queue.specs.Setups.{IsSetup};
ghost use Rattle.jl_gen.specs.declared.numbers.TheConstants.{MOST_NUMBER};
ghost use Rattle.jl_gen.specs.Script.{script_text};
ghost use Rattle.jl_command.specs.Rule.{IsInRange};
ghost use Rattle.jl_work.specs.declared.work.Telling.TheVariants as T;
ghost use Rattle.jl_work.specs.declared.work.Work.TheVariants as W;
ghost use Rattle.jl_work.specs.Owed.{IsOwed, AreScript};
ghost use Rattle.jl_work.specs.Work.{IsSetUp};
ghost use Rattle.jl_cli.specs.Due.{IsDue};
ghost use Rattle.jl_cli.specs.Work.{most_taken};

use crate::judging::replayed;
use jl_command::Command;
use jl_gen::script_of;
use jl_grammar::tree::Script;
use jl_host::HostOps;
use jl_model::ty::Bytes;
use jl_queue::{Gate, Setup};
use jl_work::{Due, Question, Telling, Work, check, count, refusal, resolve, script, work_on};
use std::alloc::{AllocError, Global};
use std::mem::forget;
use std::sync::Wait;
use std::thread::Threads;

/// What a check of the script that these bytes are comes to. The program is not made ready to be run.
fn owed_for_check(alloc: Global, bytes: &[u8], script: &Script) -> Result<Due, AllocError>
    requires { AreScript bytes.now script.now }
    ensures { IfOk result (λ due. IsOwed W.Check bytes.now due.status due.history due.text) }
{
    match check(alloc, bytes, script)? {
        Ok(program) => {
            let due = count(alloc, &program);
            forget(program);
            let due = due?;
            Ok(due)
        }
        Err(line) => Ok(refusal(line)),
    }
}

/// What work on the script that these bytes are comes to, where its program is made ready to be run.
fn owed_for_run<R: Threads + Wait + Sync, G: Gate>(
    rt: &R,
    alloc: Global,
    work: &Work,
    bytes: &[u8],
    script: &Script,
    gate: &G,
    ops: &HostOps,
) -> Result<Due, AllocError>
    requires script { AreScript bytes.now script.now }
    requires setup { IsSetUp work.now }
    ensures { IfOk result (λ due. IsOwed work.now bytes.now due.status due.history due.text) }
{
    match resolve(alloc, bytes, script)? {
        Ok(ready) => {
            let due = work_on(rt, alloc, &ready, work, gate, ops);
            forget(ready);
            let due = due?;
            Ok(due)
        }
        Err(line) => Ok(refusal(line)),
    }
}

/// What work on the script that these bytes are comes to.
fn owed_for<R: Threads + Wait + Sync, G: Gate>(
    rt: &R,
    alloc: Global,
    work: &Work,
    bytes: &[u8],
    script: &Script,
    gate: &G,
    ops: &HostOps,
) -> Result<Due, AllocError>
    requires script { AreScript bytes.now script.now }
    requires setup { IsSetUp work.now }
    ensures { IfOk result (λ due. IsOwed work.now bytes.now due.status due.history due.text) }
{
    match work {
        Work::Check => owed_for_check(alloc, bytes, script),
        Work::Run(_, _) | Work::Which(_, _) => {
            owed_for_run(rt, alloc, work, bytes, script, gate, ops)
        }
    }
}

/// What work on these bytes comes to.
fn owe<R: Threads + Wait + Sync, G: Gate>(
    rt: &R,
    alloc: Global,
    work: &Work,
    bytes: &[u8],
    gate: &G,
    ops: &HostOps,
) -> Result<Due, AllocError>
    requires { IsSetUp work.now }
    ensures { IfOk result (λ due. IsOwed work.now bytes.now due.status due.history due.text) }
{
    let script = match script(alloc, bytes)? {
        Ok(script) => script,
        Err(line) => return Ok(refusal(line)),
    };
    let due = owed_for(rt, alloc, work, bytes, &script, gate, ops);
    forget(script);
    let due = due?;
    Ok(due)
}

/// What a run of the generated script of a number owes.
fn generated<R: Threads + Wait + Sync, G: Gate>(
    rt: &R,
    alloc: Global,
    n: u32,
    setup: Setup,
    gate: &G,
    ops: &HostOps,
) -> Result<Due, AllocError>
    requires number { n ≤ MOST_NUMBER }
    requires setup { IsSetup setup }
    ensures { IfOk result (λ due. IsOwed (W.Run setup (T.Summary n)) (script_text n)
        due.status due.history due.text) }
{
    let text = script_of(alloc, n)?;
    let work = Work::Run(setup, Telling::Summary(n));
    owe(rt, alloc, &work, text.as_slice(), gate, ops)
}

/// What a run of the script that these bytes are owes.
fn owed_run<R: Threads + Wait + Sync, G: Gate>(
    rt: &R,
    alloc: Global,
    setup: Setup,
    telling: Telling,
    bytes: &[u8],
    gate: &G,
    ops: &HostOps,
) -> Result<Due, AllocError>
    requires { IsSetup setup }
    ensures { IfOk result (λ due. IsOwed (W.Run setup telling) bytes.now due.status due.history due.text) }
{
    let work = Work::Run(setup, telling);
    owe(rt, alloc, &work, bytes, gate, ops)
}

/// What a question about the run of the script that these bytes are owes.
fn owed_answer<R: Threads + Wait + Sync, G: Gate>(
    rt: &R,
    alloc: Global,
    setup: Setup,
    name: &Bytes,
    ty: &Bytes,
    bytes: &[u8],
    gate: &G,
    ops: &HostOps,
) -> Result<Due, AllocError>
    requires { IsSetup setup }
    ensures { IfOk result (λ due. IsOwed (W.Which setup (record { name = name.now; ty = ty.now })) bytes.now due.status due.history due.text) }
{
    let name = name.copy()?;
    let ty = ty.copy()?;
    let work = Work::Which(setup, Question { name, ty });
    let due = owe(rt, alloc, &work, bytes, gate, ops)?;
    Ok(due)
}

/// What a command owes, where these bytes were read.
pub(crate) fn answer<R: Threads + Wait + Sync, G: Gate>(
    rt: &R,
    alloc: Global,
    command: &Command,
    bytes: &[u8],
    gate: &G,
    ops: &HostOps,
) -> Result<Due, AllocError>
    requires ranges { IsInRange command.now }
    requires limited { length bytes.now ≤ most_taken (Some command.now) }
    ensures { IfOk result (λ due. IsDue (Some command.now) bytes.now due.status due.history due.text) }
{
    match command {
        Command::Run(threads, fuel) => {
            let setup = Setup::with_whole_cache(*threads, *fuel);
            owed_run(rt, alloc, setup, Telling::Text, bytes, gate, ops)
        }
        Command::Trace(threads, fuel) => {
            let setup = Setup::with_whole_cache(*threads, *fuel);
            owed_run(rt, alloc, setup, Telling::Trace, bytes, gate, ops)
        }
        Command::Check => owe(rt, alloc, &Work::Check, bytes, gate, ops),
        Command::Replay => replayed(alloc, bytes, ops),
        Command::Gen(n, threads, fuel) => {
            let setup = Setup::with_whole_cache(*threads, *fuel);
            generated(rt, alloc, *n, setup, gate, ops)
        }
        Command::Which(name, ty, threads, fuel) => {
            let setup = Setup::with_whole_cache(*threads, *fuel);
            owed_answer(rt, alloc, setup, name, ty, bytes, gate, ops)
        }
        Command::Ambiguous(threads, fuel) => {
            let setup = Setup::with_whole_cache(*threads, *fuel);
            owed_run(rt, alloc, setup, Telling::Pairs, bytes, gate, ops)
        }
    }
}
