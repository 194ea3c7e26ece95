//! What `replay` owes: a verdict on the history that is the second part of its input.

ghost use Rattle.std.specs.Prelude.{◌≡◌, ◌≤◌, None, IfOk, length};
ghost use Rattle.jl_history.specs.declared.history.TheConstants.{MOST_HISTORY_BYTES};
ghost use Rattle.jl_work.specs.Owed.{AreScript};
ghost use Rattle.jl_cli.specs.Due.{IsVerdictTold, IsJudged, IsReplayed};

use crate::split::separator_at;
use crate::verdicts::{verdict_line, verdict_status};
use jl_grammar::tree::Script;
use jl_host::HostOps;
use jl_replay::replay;
use jl_sig::Ready;
use jl_work::{Due, line, refusal, resolve, script};
use std::alloc::{AllocError, Global};

/// The line of an input without a history.
const NO_HISTORY: &str = "ERROR: NoHistory\n";

/// What the judgement of a history over a program comes to.
fn judged(alloc: Global, ready: &Ready, history: &[u8], ops: &HostOps) -> Result<Due, AllocError>
    requires { length history.now ≤ MOST_HISTORY_BYTES }
    ensures { IfOk result (λ due. IsVerdictTold ready.now history.now due.status due.text
        × (due.history ≡ None)) }
{
    let verdict = replay(alloc, ready, history, ops)?;
    let text = verdict_line(alloc, verdict)?;
    Ok(Due {
        status: verdict_status(verdict),
        history: None,
        text,
    })
}

/// What the judgement of a history comes to, where these bytes are this script.
fn judged_for(
    alloc: Global,
    bytes: &[u8],
    script: &Script,
    history: &[u8],
    ops: &HostOps,
) -> Result<Due, AllocError>
    requires script { AreScript bytes.now script.now }
    requires short { length history.now ≤ MOST_HISTORY_BYTES }
    ensures { IfOk result (λ due. IsJudged bytes.now history.now due.status due.text
        × (due.history ≡ None)) }
{
    match resolve(alloc, bytes, script)? {
        Ok(ready) => {
            let due = judged(alloc, &ready, history, ops);
            drop(ready);
            let due = due?;
            Ok(due)
        }
        Err(line) => Ok(refusal(line)),
    }
}

/// What the judgement of a history of the script that these bytes are comes to.
fn judge(alloc: Global, bytes: &[u8], history: &[u8], ops: &HostOps) -> Result<Due, AllocError>
    requires { length history.now ≤ MOST_HISTORY_BYTES }
    ensures { IfOk result (λ due. IsJudged bytes.now history.now due.status due.text
        × (due.history ≡ None)) }
{
    let script = match script(alloc, bytes)? {
        Ok(script) => script,
        Err(line) => return Ok(refusal(line)),
    };
    let due = judged_for(alloc, bytes, &script, history, ops);
    drop(script);
    let due = due?;
    Ok(due)
}

/// What `replay` owes, where these bytes were read.
pub(crate) fn replayed(alloc: Global, bytes: &[u8], ops: &HostOps) -> Result<Due, AllocError>
    requires { length bytes.now ≤ MOST_HISTORY_BYTES }
    ensures { IfOk result (λ due. IsReplayed bytes.now due.status due.text × (due.history ≡ None)) }
{
    match separator_at(bytes) {
        Some(place) => {
            let (script, history) = bytes.split_at(place);
            judge(alloc, script, history, ops)
        }
        None => {
            let line = line(alloc, NO_HISTORY.as_bytes())?;
            Ok(refusal(line))
        }
    }
}
