//! The top call.

ghost use Rattle.std.specs.Prelude.{◌≡◌, ◌≤◌, Some};
ghost use Rattle.jl_io.specs.Faults.{Rose};
ghost use Rattle.jl_command.specs.Texts.{texts};
ghost use Rattle.jl_command.specs.Rule.{command_of, IsInRange};
ghost use Rattle.jl_cli.specs.Due.{HasRun};
ghost use Rattle.jl_cli.specs.Delivered.{IsDelivered};

use crate::answering::answer;
use crate::work::{most_read, most_taken};
use jl_calculus::history::History;
use jl_command::{Command, WordsFault, command};
use jl_host::HostOps;
use jl_io::{ReadFault, Sink, SinkFault, Source, read_up_to, write_all};
use jl_queue::Gate;
use jl_work::{Due, TOO_LONG};
use std::alloc::Global;
use std::sync::Wait;
use std::thread::Threads;

/// The line that tells the commands.
const USAGE: &str =
    "usage: jl run|trace|ambiguous [--threads N] [--fuel N] | jl check|replay | jl gen N [--threads N] [--fuel N] | jl which NAME TYPE [--threads N] [--fuel N]\n";

/// How a call ended: its status, and the history of the run where there was one.
#[derive(Drop)]
pub struct Ended {
    pub status: u8,
    pub history: Option<History>,
}

/// An end without a history.
fn without_history(status: u8) -> Ended
    ensures { (result.status ≡ status) × (result.history ≡ None) }
{
    Ended {
        status,
        history: None,
    }
}

/// Writes a text, and answers with this status and history where all of it was taken.
fn deliver<K: Sink>(sink: &mut K, status: u8, history: Option<History>, text: &[u8]) -> Ended
    ensures counted { K.faults sink.old ≤ K.faults sink.new }
    ensures quiet { (result.status ≡ 5 → ⊥) → K.faults sink.new ≡ K.faults sink.old }
    ensures delivered { IsDelivered (K.written sink.old) (K.written sink.new)
        (Rose (K.faults sink.old) (K.faults sink.new))
        status history text.now result.status result.history }
{
    match write_all(sink, text) {
        Ok(()) => Ended { status, history },
        Err(SinkFault::Failed) => Ended { status: 5, history },
        Err(SinkFault::Memory) => Ended { status: 6, history },
    }
}

/// Does what a command asks for.
fn obey<R: Threads + Wait + Sync, S: Source, K: Sink, G: Gate>(
    rt: &R,
    alloc: Global,
    command: &Command,
    source: &mut S,
    sink: &mut K,
    gate: &G,
    ops: &HostOps,
) -> Ended
    requires { IsInRange command.now }
    ensures reads_counted { S.faults source.old ≤ S.faults source.new }
    ensures writes_counted { K.faults sink.old ≤ K.faults sink.new }
    ensures reads_quiet { (result.status ≡ 4 → ⊥) → S.faults source.new ≡ S.faults source.old }
    ensures writes_quiet { (result.status ≡ 5 → ⊥) → K.faults sink.new ≡ K.faults sink.old }
    ensures ran { HasRun (Some command.now)
        (S.left source.old) (S.left source.new)
        (K.written sink.old) (K.written sink.new)
        (Rose (S.faults source.old) (S.faults source.new))
        (Rose (K.faults sink.old) (K.faults sink.new))
        result.status result.history }
{
    let bytes = match read_up_to(alloc, source, most_read(command)) {
        Ok(bytes) => bytes,
        Err(ReadFault::Failed) => return without_history(4),
        Err(ReadFault::Memory) => return without_history(6),
    };
    if bytes.len() > most_taken(command) {
        return deliver(sink, 3, None, TOO_LONG.as_bytes());
    }
    match answer(rt, alloc, command, bytes.as_slice(), gate, ops) {
        Ok(due) => {
            let Due {
                status,
                history,
                text,
            } = due;
            deliver(sink, status, history, text.as_slice())
        }
        Err(_) => without_history(6),
    }
}

/// Does what the words ask for, with what a source gives, and writes the answer to a sink. `run` runs the script and
/// writes the text of its result. `trace` writes the text of its history too. `check` writes how many types and definitions
/// the script has. `gen N` runs the generated script of number N, and writes a summary. `replay` reads a script and, from the
/// first line that is exactly `%%history 1` or `%%history 2` on, a history, and writes whether the history is a legal one of
/// the script. `which NAME TYPE` runs the script, and writes in which worlds which definition is chosen for a call of this function
/// with arguments of these types. `ambiguous` runs it, and writes between which definitions calls are ambiguous at the end.
///
/// The words are those of the command line after the program's name. A run has as many workers as they say, which start and end
/// in this call. The gate is told of its tasks. `ops` has the operations of the prelude.
///
/// Status 0: the run ended with a value, the script that was checked is a program, or the history is legal. 1: the run ended with
/// a fault. 2: the words are no command. 3: the script is no program, or there is no history. 4: the source failed. 5: the sink
/// failed. 6: memory was refused. 7: the history is not legal. 8: `which` asks about no function or no types of the program. Each fault of the source ends in status 4, and each of the sink
/// in status 5.
pub fn run<R: Threads + Wait + Sync, S: Source, K: Sink, G: Gate>(
    rt: &R,
    alloc: Global,
    words: &[&str],
    source: &mut S,
    sink: &mut K,
    gate: &G,
    ops: HostOps,
) -> Ended
    ensures reads_counted { S.faults source.old ≤ S.faults source.new }
    ensures writes_counted { K.faults sink.old ≤ K.faults sink.new }
    ensures reads_quiet { (result.status ≡ 4 → ⊥) → S.faults source.new ≡ S.faults source.old }
    ensures writes_quiet { (result.status ≡ 5 → ⊥) → K.faults sink.new ≡ K.faults sink.old }
    ensures ran { HasRun (command_of (texts words.now))
        (S.left source.old) (S.left source.new)
        (K.written sink.old) (K.written sink.new)
        (Rose (S.faults source.old) (S.faults source.new))
        (Rose (K.faults sink.old) (K.faults sink.new))
        result.status result.history }
{
    match command(alloc, words) {
        Ok(command) => obey(rt, alloc, &command, source, sink, gate, &ops),
        Err(WordsFault::NoCommand) => deliver(sink, 2, None, USAGE.as_bytes()),
        Err(WordsFault::Memory) => without_history(6),
    }
}
