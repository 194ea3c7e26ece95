//! All requests of a session, one after another.

ghost use Rattle.std.specs.Prelude.{◌≡◌, ◌≤◌, ◌∷◌, [], ℤ, IsTrue, length};
ghost use Rattle.std.specs.List.{All};
ghost use Rattle.jl_io.specs.Faults.{Rose};
ghost use Rattle.jl_embed.specs.Replies.{seen, IsWritten, HasServed};
ghost use Rattle.jl_embed.specs.Requests.{lines_of};

use crate::cuts::first_line;
use crate::state::{State, Stored};
use jl_host::{HostOps, Hosts, Relation};
use jl_io::{Sink, SinkFault, write_all};
use jl_queue::Gate;
use std::alloc::Global;
use std::sync::Wait;
use std::thread::Threads;

/// Writes a text, and answers this status where all of it was taken.
pub(crate) fn tell<K: Sink>(sink: &mut K, status: u8, text: &[u8]) -> u8
    ensures counted { K.faults sink.old ≤ K.faults sink.new }
    ensures quiet { (result ≡ 5 → ⊥) → K.faults sink.new ≡ K.faults sink.old }
    ensures written { IsWritten status text.now (K.written sink.old) (K.written sink.new)
        (Rose (K.faults sink.old) (K.faults sink.new)) result }
{
    match write_all(sink, text) {
        Ok(()) => status,
        Err(SinkFault::Failed) => 5,
        Err(SinkFault::Memory) => 6,
    }
}

/// Does what a line asks for, and writes the reply: the status is 0, or tells why not all of it was done.
fn serve_line<R: Threads + Wait + Sync, K: Sink, G: Gate, H: Relation>(
    rt: &R,
    alloc: Global,
    state: &mut State,
    line: &[u8],
    sink: &mut K,
    gate: &G,
    ops: &HostOps,
    hosts: &Hosts<H>,
) -> u8
    requires { All (λ m. (a b c : ℤ) → Stored.post m.run a b c → IsTrue (H.allows m.number a b c)) hosts.now.list.items }
    ensures counted { K.faults sink.old ≤ K.faults sink.new }
    ensures quiet { (result ≡ 5 → ⊥) → K.faults sink.new ≡ K.faults sink.old }
    ensures served { HasServed (length hosts.now.list.items) H.allows (seen state.old) (line.now ∷ [])
        (K.written sink.old) (K.written sink.new)
        (Rose (K.faults sink.old) (K.faults sink.new)) result (seen state.new) }
{
    match state.reply(rt, alloc, line, gate, ops, hosts) {
        Ok(reply) => tell(sink, 0, reply.as_slice()),
        Err(_) => 6,
    }
}

/// Does what the lines of a text ask for, one after another, and writes the replies. It stops after the first that is not written.
pub(crate) fn serve<R: Threads + Wait + Sync, K: Sink, G: Gate, H: Relation>(
    rt: &R,
    alloc: Global,
    state: &mut State,
    requests: &[u8],
    sink: &mut K,
    gate: &G,
    ops: &HostOps,
    hosts: &Hosts<H>,
) -> u8
    requires { All (λ m. (a b c : ℤ) → Stored.post m.run a b c → IsTrue (H.allows m.number a b c)) hosts.now.list.items }
    ensures counted { K.faults sink.old ≤ K.faults sink.new }
    ensures quiet { (result ≡ 5 → ⊥) → K.faults sink.new ≡ K.faults sink.old }
    ensures served { HasServed (length hosts.now.list.items) H.allows (seen state.old) (lines_of requests.now)
        (K.written sink.old) (K.written sink.new)
        (Rose (K.faults sink.old) (K.faults sink.new)) result (seen state.new) }
{
    let mut rest = requests;
    while !rest.is_empty() {
        let (line, after) = first_line(rest);
        let status = serve_line(rt, alloc, state, line, sink, gate, ops, hosts);
        if status != 0 {
            return status;
        }
        rest = after;
    }
    0
}
