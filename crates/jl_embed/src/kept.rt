//! The program of the last text that was run, kept beside that text, so that the same text is not read again.

ghost use Rattle.std.specs.Prelude.{◌≡◌, true, IfOk, MatchResult};
ghost use Rattle.jl_work.specs.Owed.{AreProgram, IsFaultLine};
ghost use Rattle.jl_embed.specs.Texts.{RunsTo};

use crate::texts::{prepare, run_ready};
use jl_host::HostOps;
use jl_model::rows::Row;
use jl_model::ty::Bytes;
use jl_queue::Gate;
use jl_sig::Ready;
use jl_work::{Due, refusal};
use std::alloc::{AllocError, Global};
use std::marker::Model;
use std::sync::Wait;
use std::thread::Threads;

/// A text and its program, ready to be run. Contracts see it as the text.
#[derive(Drop)]
pub(crate) struct Kept {
    text: Row<u8>,
    ready: Ready,
}

impl Model for Kept {
    ghost use Rattle.std.specs.Prelude.{ℕ, List};
    ghost use Rattle.jl_work.specs.Owed.{AreProgram};

    ghost Value = { List ℕ };

    ghost view = { λ kept. kept.text };

    ghost invariant = { λ kept. AreProgram kept.text kept.ready };
}

impl Kept {
    /// Keeps a program beside the text that it is of.
    fn new(text: Row<u8>, ready: Ready) -> Kept
        requires { AreProgram text ready }
        ensures { result ≡ text }
    {
        Kept { text, ready }
    }

    /// Whether it is of this text.
    fn is_of(&self, text: &[u8]) -> bool
        ensures { result ≡ true → self.now ≡ text.now }
    {
        self.text.as_slice() == text
    }

    /// What a run of its program comes to.
    fn run<R: Threads + Wait + Sync, G: Gate>(
        &self,
        rt: &R,
        alloc: Global,
        gate: &G,
        ops: &HostOps,
    ) -> Result<Due, AllocError>
        ensures { IfOk result (λ due. RunsTo self.now due.history due.text) }
    {
        run_ready(rt, alloc, self.text.as_slice(), &self.ready, gate, ops)
    }
}

/// The program of a text, which is the last one where that is of this text, or the line that tells why it is no program.
fn renew(
    alloc: Global,
    last: Option<Kept>,
    text: Row<u8>,
) -> Result<Result<Kept, Bytes>, AllocError>
    ensures { IfOk result (λ r. MatchResult r (λ kept. kept ≡ text) (IsFaultLine text)) }
{
    if let Some(last) = last {
        if last.is_of(text.as_slice()) {
            return Ok(Ok(last));
        }
        drop(last);
    }
    match prepare(alloc, text.as_slice())? {
        Ok(ready) => Ok(Ok(Kept::new(text, ready))),
        Err(line) => Ok(Err(line)),
    }
}

/// What a run of a text comes to. Its program is kept in the place of the last one.
pub(crate) fn run_text<R: Threads + Wait + Sync, G: Gate>(
    rt: &R,
    alloc: Global,
    last: &mut Option<Kept>,
    text: Row<u8>,
    gate: &G,
    ops: &HostOps,
) -> Result<Due, AllocError>
    ensures { IfOk result (λ due. RunsTo text due.history due.text) }
{
    match renew(alloc, last.take(), text)? {
        Ok(kept) => {
            let due = kept.run(rt, alloc, gate, ops);
            *last = Some(kept);
            let due = due?;
            Ok(due)
        }
        Err(line) => Ok(refusal(line)),
    }
}
