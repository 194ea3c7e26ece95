//! What a text comes to: a program or none, and what a run of it tells. What it was read to is freed here, since a session reads many texts.

ghost use Rattle.std.specs.Prelude.{IfOk, MatchResult};
ghost use Rattle.jl_work.specs.Owed.{AreScript, AreProgram, IsProgram, IsFaultLine};
ghost use Rattle.jl_embed.specs.Texts.{RunsTo};

use jl_grammar::tree::Script;
use jl_host::HostOps;
use jl_model::limits::{DEFAULT_FUEL, DEFAULT_THREADS};
use jl_model::ty::Bytes;
use jl_queue::{Gate, Setup};
use jl_sig::Ready;
use jl_work::{Due, Telling, check, resolve, run_source, script};
use std::alloc::{AllocError, Global};
use std::sync::Wait;
use std::thread::Threads;

/// Whether the script that a text is means a program, or the line that tells why it means none.
fn check_read(alloc: Global, text: &[u8], script: &Script) -> Result<Result<(), Bytes>, AllocError>
    requires { AreScript text.now script.now }
    ensures { IfOk result (λ r. MatchResult r (λ _. IsProgram text.now) (IsFaultLine text.now)) }
{
    match check(alloc, text, script)? {
        Ok(program) => {
            drop(program);
            Ok(Ok(()))
        }
        Err(line) => Ok(Err(line)),
    }
}

/// Whether a text is a program, or the line that tells why it is none.
pub(crate) fn check_text(alloc: Global, text: &[u8]) -> Result<Result<(), Bytes>, AllocError>
    ensures { IfOk result (λ r. MatchResult r (λ _. IsProgram text.now) (IsFaultLine text.now)) }
{
    match script(alloc, text)? {
        Ok(script) => {
            let checked = check_read(alloc, text, &script);
            drop(script);
            checked
        }
        Err(line) => Ok(Err(line)),
    }
}

/// The program of a text, ready to be run, or the line that tells why it is none.
pub(crate) fn prepare(alloc: Global, text: &[u8]) -> Result<Result<Ready, Bytes>, AllocError>
    ensures { IfOk result (λ r. MatchResult r (AreProgram text.now) (IsFaultLine text.now)) }
{
    match script(alloc, text)? {
        Ok(script) => {
            let prepared = resolve(alloc, text, &script);
            drop(script);
            prepared
        }
        Err(line) => Ok(Err(line)),
    }
}

/// What a run of the program of a text comes to.
pub(crate) fn run_ready<R: Threads + Wait + Sync, G: Gate>(
    rt: &R,
    alloc: Global,
    text: &[u8],
    ready: &Ready,
    gate: &G,
    ops: &HostOps,
) -> Result<Due, AllocError>
    requires { AreProgram text.now ready.now }
    ensures { IfOk result (λ due. RunsTo text.now due.history due.text) }
{
    let setup = Setup::with_whole_cache(DEFAULT_THREADS, DEFAULT_FUEL);
    let due = run_source(rt, alloc, ready, setup, Telling::Text, gate, ops)?;
    Ok(due)
}
