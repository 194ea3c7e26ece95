//! The top call over devices that fail in mid-stream.

use crate::calls::{Ask, NONE, answers};
use std::alloc::Global;
use std::sync::Wait;
use std::thread::Threads;

const FIRST: &[u8] = b"f(x) = x + 1\nprintln(f(2))";

/// Whether a call whose read of this number fails answers so.
fn reads_so<R: Threads + Wait + Sync>(
    rt: &R,
    alloc: Global,
    words: &[&str],
    script: &[u8],
    read: u64,
    due: (u8, &str, bool),
) -> bool {
    let ask = Ask {
        words,
        input: script,
        read,
        write: NONE,
    };
    answers(rt, alloc, &ask, (due.0, due.1.as_bytes(), due.2))
}

#[test]
fn each_failing_read_answers_four(rt: HostRuntime) {
    for call in 1..30u64 {
        let due = if call <= FIRST.len() as u64 + 1 {
            (4, "", false)
        } else {
            (0, "3\n", true)
        };
        assert!(rt;
            reads_so(&rt, rt.alloc(), &["run"], FIRST, call, due),
            "read {call} fails"
        );
    }
}

/// What `gen 0` writes.
const SUMMARY: &str =
    "generated 0\ntypes 2\ndefinitions 7\ntasks 1\nworld 20\noutput 2 bytes\nstatus 0\n";

#[test]
fn a_command_that_reads_nothing_has_no_failing_read(rt: HostRuntime) {
    assert!(rt; reads_so(&rt, rt.alloc(), &["gen", "0"], FIRST, 1, (0, SUMMARY, true)));
}

#[test]
fn bytes_that_are_no_text_are_told_with_their_place(rt: HostRuntime) {
    let due = (3, "ERROR: line 2, column 1: BadUtf8\n", false);
    assert!(rt; reads_so(&rt, rt.alloc(), &["run"], b"x = 1\n\xff", 9, due));
}

/// Each function makes two calls of the one before it.
const DOUBLING: &[u8] = b"a(x) = x + 1
b(x) = a(x) + a(x)
c(x) = b(x) + b(x)
d(x) = c(x) + c(x)
e(x) = d(x) + d(x)
f(x) = e(x) + e(x)
g(x) = f(x) + f(x)
h(x) = g(x) + g(x)
i(x) = h(x) + h(x)
j(x) = i(x) + i(x)
k(x) = j(x) + j(x)
l(x) = k(x) + k(x)
m(x) = l(x) + l(x)
n(x) = m(x) + m(x)
o(x) = n(x) + n(x)
p(x) = o(x) + o(x)
q(x) = p(x) + p(x)
r(x) = q(x) + q(x)
s(x) = r(x) + r(x)
t(x) = s(x) + s(x)
u(x) = t(x) + t(x)
v(x) = u(x) + u(x)
w(x) = v(x) + v(x)
println(w(1))";

#[test]
fn fuel_is_spent_by_doubling_calls(rt: HostRuntime) {
    let due = (1, "ERROR: FuelSpent: 10000000 calls\n", true);
    assert!(rt; reads_so(&rt, rt.alloc(), &["run"], DOUBLING, 1_000, due));
}

/// Whether `println(34)` answers so where the write of this number fails.
fn writes_so<R: Threads + Wait + Sync>(
    rt: &R,
    alloc: Global,
    write: u64,
    status: u8,
    text: &str,
) -> bool {
    let ask = Ask {
        words: &["run"],
        input: b"println(34)",
        read: NONE,
        write,
    };
    answers(rt, alloc, &ask, (status, text.as_bytes(), true))
}

/// The number of the write that fails, the status, and what is written.
static WRITES: [(u64, u8, &str); 4] = [(1, 5, ""), (2, 5, "3"), (3, 5, "34"), (4, 0, "34\n")];

#[test]
fn each_failing_write_leaves_a_first_part(rt: HostRuntime) {
    for (call, status, text) in &WRITES {
        assert!(rt;
            writes_so(&rt, rt.alloc(), *call, *status, text),
            "write {call} fails"
        );
    }
}
