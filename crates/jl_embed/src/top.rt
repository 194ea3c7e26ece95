//! The top call.

ghost use Rattle.std.specs.Prelude.{◌≡◌, ◌≤◌, ℤ, IsTrue, length, MatchOption, None, Some};
ghost use Rattle.std.specs.List.{All};
ghost use Rattle.jl_io.specs.Faults.{Rose};
ghost use Rattle.jl_work.specs.Owed.{IsProgram};
ghost use Rattle.jl_embed.specs.Replies.{seen, opened, HasServed};
ghost use Rattle.jl_embed.specs.Sessions.{parts_of, ending, unopened, ended, HasHeld, HasParted, IsSession};

use crate::serving::{serve, tell};
use crate::state::{State, Stored};
use crate::texts::check_text;
use jl_calculus::history::History;
use jl_host::{HostOps, Hosts, Relation};
use jl_io::{ReadFault, Sink, Source, read_up_to};
use jl_model::limits::MOST_SOURCE_BYTES;
use jl_queue::Gate;
use jl_work::{TOO_LONG, separator_among};
use std::alloc::Global;
use std::sync::Wait;
use std::thread::Threads;

/// The line that tells the words of the program: it has none.
const USAGE: &str = "usage: jl_session\n";

/// The line between the script and the requests.
const SEPARATOR: &str = "%%session";

/// The line of a source without that separator.
const NO_SESSION: &str = "ERROR: NoSession\n";

/// How a session ended: its status, what the host answered for each `call`, and the history of each run, in the order of the requests.
#[derive(Drop)]
pub struct Closed {
    pub status: u8,
    pub answers: Vec<i64>,
    pub histories: Vec<History>,
}

/// An end before the first request.
fn unopened(alloc: Global, status: u8) -> Closed
    ensures { ending result ≡ unopened status }
{
    Closed {
        status,
        answers: Vec::new(alloc),
        histories: Vec::new(alloc),
    }
}

/// An end with what the session then has.
fn ended(state: State, status: u8) -> Closed
    ensures { ending result ≡ ended (seen state) status }
{
    let State {
        text,
        answers,
        histories,
        last,
    } = state;
    drop(text);
    drop(last);
    Closed {
        status,
        answers,
        histories,
    }
}

/// The script before the first line that is exactly the separator, and the requests after it.
fn parts(bytes: &[u8]) -> Option<(&[u8], &[u8])>
    ensures { MatchOption result (parts_of bytes.now ≡ None) (λ p. parts_of bytes.now ≡ Some (p.0.now, p.1.now)) }
{
    let lines = [SEPARATOR.as_bytes()];
    let place = separator_among(&lines, bytes)?;
    let (script, rest) = bytes.split_at(place);
    let requests = &rest[rest.len().min(SEPARATOR.len() + 1)..];
    Some((script, requests))
}

/// Answers the requests over a script that is a program.
fn begin<R: Threads + Wait + Sync, K: Sink, G: Gate, H: Relation>(
    rt: &R,
    alloc: Global,
    script: &[u8],
    requests: &[u8],
    sink: &mut K,
    gate: &G,
    ops: &HostOps,
    hosts: &Hosts<H>,
) -> Closed
    requires program { IsProgram script.now }
    requires related { All (λ m. (a b c : ℤ) → Stored.post m.run a b c → IsTrue (H.allows m.number a b c)) hosts.now.list.items }
    ensures counted { K.faults sink.old ≤ K.faults sink.new }
    ensures quiet { (result.status ≡ 5 → ⊥) → K.faults sink.new ≡ K.faults sink.old }
    ensures held { HasHeld (length hosts.now.list.items) H.allows (K.written sink.old) (K.written sink.new)
        (Rose (K.faults sink.old) (K.faults sink.new)) script.now requests.now (ending result) }
{
    let Ok(mut state) = State::new(alloc, script) else {
        return unopened(alloc, 6);
    };
    let status = serve(rt, alloc, &mut state, requests, sink, gate, ops, hosts);
    ended(state, status)
}

/// Answers the requests over a script.
fn hold<R: Threads + Wait + Sync, K: Sink, G: Gate, H: Relation>(
    rt: &R,
    alloc: Global,
    script: &[u8],
    requests: &[u8],
    sink: &mut K,
    gate: &G,
    ops: &HostOps,
    hosts: &Hosts<H>,
) -> Closed
    requires { All (λ m. (a b c : ℤ) → Stored.post m.run a b c → IsTrue (H.allows m.number a b c)) hosts.now.list.items }
    ensures counted { K.faults sink.old ≤ K.faults sink.new }
    ensures quiet { (result.status ≡ 5 → ⊥) → K.faults sink.new ≡ K.faults sink.old }
    ensures held { HasHeld (length hosts.now.list.items) H.allows (K.written sink.old) (K.written sink.new)
        (Rose (K.faults sink.old) (K.faults sink.new)) script.now requests.now (ending result) }
{
    match check_text(alloc, script) {
        Ok(Ok(())) => begin(rt, alloc, script, requests, sink, gate, ops, hosts),
        Ok(Err(line)) => unopened(alloc, tell(sink, 3, line.as_slice())),
        Err(_) => unopened(alloc, 6),
    }
}

/// Answers the requests of a source.
fn answer<R: Threads + Wait + Sync, K: Sink, G: Gate, H: Relation>(
    rt: &R,
    alloc: Global,
    bytes: &[u8],
    sink: &mut K,
    gate: &G,
    ops: &HostOps,
    hosts: &Hosts<H>,
) -> Closed
    requires { All (λ m. (a b c : ℤ) → Stored.post m.run a b c → IsTrue (H.allows m.number a b c)) hosts.now.list.items }
    ensures counted { K.faults sink.old ≤ K.faults sink.new }
    ensures quiet { (result.status ≡ 5 → ⊥) → K.faults sink.new ≡ K.faults sink.old }
    ensures parted { HasParted (length hosts.now.list.items) H.allows (K.written sink.old) (K.written sink.new)
        (Rose (K.faults sink.old) (K.faults sink.new)) bytes.now (ending result) }
{
    match parts(bytes) {
        Some((script, requests)) => hold(rt, alloc, script, requests, sink, gate, ops, hosts),
        None => unopened(alloc, tell(sink, 3, NO_SESSION.as_bytes())),
    }
}

/// Holds a session: reads a script and requests from a source, answers each request with what the host's methods and the script's
/// functions say, and writes the replies to a sink, one after another.
///
/// The source has a script, a line that is exactly `%%session`, and request lines. `add TEXT` adds a line to the script, where it then
/// still is a program; the reply is `added`, or the line of the fault. `call NAME H A B` asks method H of the host for A and B, and runs the
/// script with a line more that prints NAME of the answer; the reply is `reply N` and the N bytes of the text of the run, or the line of the fault.
/// Any other line is answered `ERROR: BadRequest`. A run has four workers, who start and end in this call, and the default fuel.
///
/// Status 0: all requests were answered. 2: there are words. 3: the source is too long, has no separator, or its script is no program. 4: the
/// source failed. 5: the sink failed. 6: memory was refused. With 5 and 6 the answers and histories are those of the requests whose replies were
/// begun. Each fault of the source ends in status 4, and each of the sink in status 5.
pub fn session<R: Threads + Wait + Sync, S: Source, K: Sink, G: Gate, H: Relation>(
    rt: &R,
    alloc: Global,
    words: &[&str],
    source: &mut S,
    sink: &mut K,
    gate: &G,
    ops: &HostOps,
    hosts: &Hosts<H>,
) -> Closed
    requires related { All (λ m. (a b c : ℤ) → Stored.post m.run a b c → IsTrue (H.allows m.number a b c)) hosts.now.list.items }
    ensures reads_counted { S.faults source.old ≤ S.faults source.new }
    ensures writes_counted { K.faults sink.old ≤ K.faults sink.new }
    ensures reads_quiet { (result.status ≡ 4 → ⊥) → S.faults source.new ≡ S.faults source.old }
    ensures writes_quiet { (result.status ≡ 5 → ⊥) → K.faults sink.new ≡ K.faults sink.old }
    ensures held { IsSession (length words.now) (length hosts.now.list.items) H.allows
        (S.left source.old) (S.left source.new)
        (K.written sink.old) (K.written sink.new)
        (Rose (S.faults source.old) (S.faults source.new))
        (Rose (K.faults sink.old) (K.faults sink.new))
        (ending result) }
{
    if !words.is_empty() {
        return unopened(alloc, tell(sink, 2, USAGE.as_bytes()));
    }
    let bytes = match read_up_to(alloc, source, MOST_SOURCE_BYTES + 1) {
        Ok(bytes) => bytes,
        Err(ReadFault::Failed) => return unopened(alloc, 4),
        Err(ReadFault::Memory) => return unopened(alloc, 6),
    };
    if bytes.len() > MOST_SOURCE_BYTES {
        return unopened(alloc, tell(sink, 3, TOO_LONG.as_bytes()));
    }
    answer(rt, alloc, bytes.as_slice(), sink, gate, ops, hosts)
}
