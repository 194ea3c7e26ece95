//! One request, and what a session then has.

ghost use Rattle.std.specs.Prelude.{◌≡◌, ◌<◌, ℤ, List, IsTrue, length, IfOk, OnErr, vec_len, vec_capacity};
ghost use Rattle.std.specs.Fmt.{signed_decimal};
ghost use Rattle.std.specs.List.{All};
ghost use Rattle.jl_embed.specs.Replies.{seen, opened, noted, with_line, called_line, called_text, run_reply, reply_of, IsAdded, IsCalled, IsReply};

use crate::kept::{Kept, run_text};
use crate::requests::{Question, Request, read_request};
use crate::texts::check_text;
use itoa::Buffer;
use jl_calculus::history::History;
use jl_host::{HostOps, Hosts, Relation};
use jl_model::rows::Row;
use jl_model::ty::Bytes;
use jl_queue::Gate;
use jl_work::{Due, append_number, line};
use std::alloc::{AllocError, Global};
use std::sync::Wait;
use std::thread::Threads;

/// A function of a host. Clauses name it, since a host has functions of another type too.
pub type Stored = fn(i64, i64) -> i64;

/// What a session has: its text, the answers of its host so far, the histories of the runs so far, and the last program that was run.
#[derive(Drop)]
pub(crate) struct State {
    pub(crate) text: Row<u8>,
    pub(crate) answers: Vec<i64>,
    pub(crate) histories: Vec<History>,
    pub(crate) last: Option<Kept>,
}

/// A text and one line more.
fn with_line(alloc: Global, text: &[u8], line: &[u8]) -> Result<Row<u8>, AllocError>
    ensures { IfOk result (λ longer. longer ≡ with_line text.now line.now) }
{
    let mut longer = Row::new(alloc);
    longer.append(text)?;
    longer.append(line)?;
    longer.append(b"\n")?;
    Ok(longer)
}

/// The line that calls the function of a name with a number.
fn called_line(alloc: Global, name: &[u8], number: &[u8]) -> Result<Row<u8>, AllocError>
    ensures { IfOk result (λ line. line ≡ called_line name.now number.now) }
{
    let mut line = Row::new(alloc);
    line.append(b"println(")?;
    line.append(name)?;
    line.append(b"(")?;
    line.append(number)?;
    line.append(b"))")?;
    Ok(line)
}

/// A text and the line that calls the function of a name with a number.
fn called_text(alloc: Global, text: &[u8], name: &[u8], c: i64) -> Result<Row<u8>, AllocError>
    ensures { IfOk result (λ longer. longer ≡ called_text text.now name.now c) }
{
    let mut buffer = Buffer::new();
    let line = called_line(alloc, name, buffer.format(c).as_bytes())?;
    let longer = with_line(alloc, text, line.as_slice())?;
    Ok(longer)
}

/// The reply of a run: how long its text is, and its text.
fn run_reply(alloc: Global, told: &[u8]) -> Result<Bytes, AllocError>
    ensures { IfOk result (λ reply. reply ≡ run_reply told.now) }
{
    let mut reply = Row::new(alloc);
    reply.append(b"reply ")?;
    append_number(&mut reply, told.len() as u64)?;
    reply.append(b"\n")?;
    reply.append(told)?;
    reply.into_shared(alloc)
}

/// The reply of a text that came to this: what was told of its run, or the line of a fault.
fn reply_of(alloc: Global, history: &Option<History>, told: Bytes) -> Result<Bytes, AllocError>
    ensures { IfOk result (λ reply. reply ≡ reply_of history.now told) }
{
    match history {
        Some(_) => {
            let reply = run_reply(alloc, told.as_slice())?;
            Ok(reply)
        }
        None => Ok(told),
    }
}

/// What a method of the host answers.
fn ask<H: Relation>(hosts: &Hosts<H>, question: &Question) -> i64
    requires number { question.now.method < length hosts.now.list.items }
    requires related { All (λ m. (a b c : ℤ) → Stored.post m.run a b c → IsTrue (H.allows m.number a b c)) hosts.now.list.items }
    ensures { IsTrue (H.allows question.now.method question.now.a question.now.b result) }
{
    hosts.call(question.method, question.a, question.b)
}

impl State {
    /// What a session has before its first request.
    pub(crate) fn new(alloc: Global, script: &[u8]) -> Result<State, AllocError>
        ensures { IfOk result (λ state. seen state ≡ opened script.now) }
    {
        let mut text = Row::new(alloc);
        text.append(script)?;
        Ok(State {
            text,
            answers: Vec::new(alloc),
            histories: Vec::new(alloc),
            last: None,
        })
    }

    /// Notes an answer of the host, and a history where there is one. Room was made for both.
    fn note(&mut self, c: i64, history: Option<History>)
        requires answers { vec_len self.old.answers < vec_capacity self.old.answers }
        requires histories { vec_len self.old.histories < vec_capacity self.old.histories }
        ensures { seen self.new ≡ noted (seen self.old) c history }
    {
        self.answers.push_reserved(c);
        if let Some(history) = history {
            self.histories.push_reserved(history);
        }
    }

    /// Adds a line to the text, where the longer text is a program.
    fn add(&mut self, alloc: Global, more: &[u8]) -> Result<Bytes, AllocError>
        ensures done { IfOk result (λ reply. IsAdded (seen self.old) more.now (seen self.new) reply) }
        ensures kept { OnErr result (seen self.new ≡ seen self.old) }
    {
        let longer = with_line(alloc, self.text.as_slice(), more)?;
        let checked = check_text(alloc, longer.as_slice())?;
        match checked {
            Ok(()) => {
                let reply = line(alloc, b"added\n")?;
                self.text = longer;
                Ok(reply)
            }
            Err(fault) => Ok(fault),
        }
    }

    /// Calls the function of a name with a number.
    fn call<R: Threads + Wait + Sync, G: Gate>(
        &mut self,
        rt: &R,
        alloc: Global,
        name: &[u8],
        c: i64,
        gate: &G,
        ops: &HostOps,
    ) -> Result<Bytes, AllocError>
        ensures done { IfOk result (λ reply. IsCalled (seen self.old) name.now c (seen self.new) reply) }
        ensures kept { OnErr result (seen self.new ≡ seen self.old) }
    {
        let longer = called_text(alloc, self.text.as_slice(), name, c)?;
        self.answers.reserve(1)?;
        self.histories.reserve(1)?;
        let due = run_text(rt, alloc, &mut self.last, longer, gate, ops)?;
        let Due {
            status: _,
            history,
            text,
        } = due;
        let reply = reply_of(alloc, &history, text)?;
        self.note(c, history);
        Ok(reply)
    }

    /// Does what a line asks for, and answers the reply.
    pub(crate) fn reply<R: Threads + Wait + Sync, G: Gate, H: Relation>(
        &mut self,
        rt: &R,
        alloc: Global,
        asked: &[u8],
        gate: &G,
        ops: &HostOps,
        hosts: &Hosts<H>,
    ) -> Result<Bytes, AllocError>
        requires { All (λ m. (a b c : ℤ) → Stored.post m.run a b c → IsTrue (H.allows m.number a b c)) hosts.now.list.items }
        ensures done { IfOk result (λ reply. IsReply (length hosts.now.list.items) H.allows (seen self.old) asked.now (seen self.new) reply) }
        ensures kept { OnErr result (seen self.new ≡ seen self.old) }
    {
        match read_request(hosts.count(), asked) {
            Request::Bad => {
                let reply = line(alloc, b"ERROR: BadRequest\n")?;
                Ok(reply)
            }
            Request::Add(more) => {
                let reply = self.add(alloc, more)?;
                Ok(reply)
            }
            Request::Call(name, question) => {
                let c = ask(hosts, &question);
                let reply = self.call(rt, alloc, name, c, gate, ops)?;
                Ok(reply)
            }
        }
    }
}
