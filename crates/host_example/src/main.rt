//! A program that embeds the language: a shop whose prices a script may change while it is open. `docs/EMBEDDING.md` goes through it.
#![tactic(auto)]

mod devices;
mod shop;

use crate::devices::{Orders, Replies};
use crate::shop::{Shop, price};
use jl_embed::session;
use jl_host::{HostMethod, HostOp, HostOps, Hosts, operations};
use jl_queue::OpenGate;
use std::alloc::{AllocError, Global};
use std::io::{self, Print};
use std::str;
use std::sync::Wait;
use std::thread::Threads;

/// What the script makes of a price.
const SCRIPT: &str = "bill(cents) = cents\n";

/// The requests of a day: three pieces of the first item, a rise of a tenth for bills above ten euros, three pieces of the first and of the second
/// item, and a definition that is refused.
fn orders(alloc: Global) -> Result<Orders, AllocError> {
    let mut orders = Orders::new(alloc, SCRIPT)?;
    orders.ask("call bill 0 0 3")?;
    orders.ask(
        "add bill(cents::Int64) = if cents > 1000; cents + div(cents, 10); else; cents; end",
    )?;
    orders.ask("call bill 0 0 3")?;
    orders.ask("call bill 0 1 3")?;
    orders.ask("add bill(cents) = euros(cents)")?;
    Ok(orders)
}

/// Holds the session, and answers its status with what was replied. A function that hands out what it made of a function has no proof that the
/// gate takes, so the operations and the method are made here.
fn day<R: Threads + Wait + Sync>(rt: &R, alloc: Global) -> Result<(u8, Replies), AllocError> {
    let mut list = Vec::new(alloc);
    list.push(HostOp::new(0, operations::add))?;
    list.push(HostOp::new(1, operations::subtract))?;
    list.push(HostOp::new(2, operations::multiply))?;
    list.push(HostOp::new(3, operations::divide))?;
    list.push(HostOp::new(4, operations::remainder))?;
    list.push(HostOp::new(5, operations::negate))?;
    list.push(HostOp::new(6, operations::equal))?;
    list.push(HostOp::new(7, operations::not_equal))?;
    list.push(HostOp::new(8, operations::less))?;
    list.push(HostOp::new(9, operations::less_equal))?;
    list.push(HostOp::new(10, operations::greater))?;
    list.push(HostOp::new(11, operations::greater_equal))?;
    list.push(HostOp::new(12, operations::not))?;
    list.push(HostOp::new(13, operations::equal_truths))?;
    let ops = HostOps::new(list);
    let mut methods = Vec::new(alloc);
    methods.push(HostMethod::<Shop>::new(0, price))?;
    let hosts = Hosts::<Shop>::new(methods);
    let mut source = orders(alloc)?;
    let mut sink = Replies::new(alloc);
    let closed = session(
        rt,
        alloc,
        &[],
        &mut source,
        &mut sink,
        &OpenGate,
        &ops,
        &hosts,
    );
    Ok((closed.status, sink))
}

/// Holds the session, and prints what was replied.
fn open<R: Threads + Wait + Sync + Print>(rt: &R, alloc: Global) -> io::Result<()> {
    let (status, replies) = day(rt, alloc)?;
    let text = str::from_utf8(replies.bytes()).unwrap_or("no text\n");
    print!(rt; "{text}status {status}\n")
}

fn main(rt: HostRuntime) -> io::Result<()> {
    let alloc = rt.alloc();
    open(&rt, alloc)
}
