//! Whole scripts on one thread and on many, with their texts and histories.

use crate::calls::{Ask, NONE, answers, call};
use crate::holds;
use crate::texts::{MANY, MORE, PAIR, RACE, SCRIPTS, SHAPES, SHAPES_TEXT};
use jl_queue::{Gate, OpenGate, PairGate};
use std::alloc::{AllocError, Global};
use std::sync::Wait;
use std::thread::Threads;

/// On how many threads each script is run.
const THREADS: [&str; 5] = [
    "--threads=1",
    "--threads=2",
    "--threads=4",
    "--threads=8",
    "--threads=64",
];
/// How often a race is run on each number of threads.
const ROUNDS: u32 = 20;
/// The site of the definition of `f` by the first task; that by the second comes after it.
const FIRST_SITE: u32 = 16;

/// What a run of a script writes, and the site of the last definition in its history. The last word of the command says on how many
/// threads, as `--threads=4`.
fn answer<R: Threads + Wait + Sync, G: Gate>(
    rt: &R,
    alloc: Global,
    text: &str,
    threads: &str,
    gate: &G,
) -> Result<(Vec<u8>, u32), AllocError> {
    let ask = Ask {
        words: &["run", threads],
        input: text.as_bytes(),
        read: NONE,
        write: NONE,
    };
    let (end, written) = call(rt, alloc, &ask, gate)?;
    Ok((written, end.last_site))
}

/// Whether a run of a script writes this text.
fn writes<R: Threads + Wait + Sync, G: Gate>(
    rt: &R,
    alloc: Global,
    text: &str,
    threads: &str,
    gate: &G,
    due: &str,
) -> Result<bool, AllocError> {
    let (written, _) = answer(rt, alloc, text, threads, gate)?;
    Ok(written.as_slice() == due.as_bytes())
}

/// Whether all scripts write what is due.
fn all_write<R: Threads + Wait + Sync>(
    rt: &R,
    alloc: Global,
    threads: &str,
) -> Result<bool, AllocError> {
    let scripts: [(&str, &str); 8] = SCRIPTS;
    for (text, due) in scripts.as_slice() {
        if !writes(rt, alloc, text, threads, &OpenGate, due)? {
            return Ok(false);
        }
    }
    Ok(true)
}

#[test]
fn scripts_write_the_same_on_each_number_of_threads(rt: HostRuntime) {
    let numbers: [&str; 5] = THREADS;
    for threads in numbers.as_slice() {
        assert!(rt;
            holds(all_write(&rt, rt.alloc(), threads)),
            "with {threads}"
        );
    }
}

/// Whether the result is that of the definition that stands later in the history.
fn later_one_wins<R: Threads + Wait + Sync>(
    rt: &R,
    alloc: Global,
    threads: &str,
) -> Result<bool, AllocError> {
    let (written, last) = answer(rt, alloc, RACE, threads, &OpenGate)?;
    let due: &[u8] = if last == FIRST_SITE { b"1\n" } else { b"2\n" };
    Ok(written.as_slice() == due)
}

/// Whether that is so in each round.
fn later_ones_win<R: Threads + Wait + Sync>(
    rt: &R,
    alloc: Global,
    threads: &str,
) -> Result<bool, AllocError> {
    for _ in 0..ROUNDS {
        if !later_one_wins(rt, alloc, threads)? {
            return Ok(false);
        }
    }
    Ok(true)
}

/// Whether two tasks meet at a gate, and their script writes what is due.
fn two_meet<R: Threads + Wait + Sync>(rt: &R, alloc: Global) -> Result<bool, AllocError> {
    let gate = PairGate::new(1_000_000);
    let is_due = writes(rt, alloc, PAIR, "--threads=3", &gate, "3\n")?;
    Ok(is_due && gate.met())
}

#[test]
fn two_tasks_run_side_by_side_and_the_later_definition_wins(rt: HostRuntime) {
    assert!(rt; holds(two_meet(&rt, rt.alloc())));
    let numbers: [&str; 5] = THREADS;
    for threads in numbers.as_slice() {
        assert!(rt;
            holds(later_ones_win(&rt, rt.alloc(), threads)),
            "with {threads}"
        );
    }
}

fn limits_are_reported<R: Threads + Wait + Sync>(
    rt: &R,
    alloc: Global,
) -> Result<bool, AllocError> {
    let worlds = "0\nERROR: WorldLimit: 65535 worlds\n";
    let tasks = "0\nERROR: TaskLimit: 4096 tasks\n";
    Ok(
        writes(rt, alloc, MORE, "--threads=4", &OpenGate, worlds)?
            && writes(rt, alloc, MANY, "--threads=4", &OpenGate, tasks)?,
    )
}

#[test]
fn worlds_and_tasks_come_to_their_limits(rt: HostRuntime) {
    assert!(rt; holds(limits_are_reported(&rt, rt.alloc())));
}

/// The history that stands at the end of what `trace` wrote: it begins with the last line that is exactly its first.
fn history_in(traced: &[u8]) -> &[u8] {
    let mut at = 0;
    let mut begins_line = true;
    for (place, byte) in traced.iter().enumerate() {
        if begins_line && traced[place..].starts_with(b"%%history 1\n") {
            at = place;
        }
        begins_line = *byte == b'\n';
    }
    traced.get(at..).unwrap_or(b"")
}

/// A script, and the history that `trace` writes of it.
fn traced<R: Threads + Wait + Sync>(
    rt: &R,
    alloc: Global,
    text: &str,
    threads: &str,
) -> Result<Vec<u8>, AllocError> {
    let ask = Ask {
        words: &["trace", threads],
        input: text.as_bytes(),
        read: NONE,
        write: NONE,
    };
    let (_, written) = call(rt, alloc, &ask, &OpenGate)?;
    let mut both = Vec::from_slice(alloc, text.as_bytes())?;
    both.extend_from_slice(history_in(written.as_slice()))?;
    Ok(both)
}

/// Whether `replay` says of the history that `trace` writes of a script that it is legal.
fn is_legal<R: Threads + Wait + Sync>(
    rt: &R,
    alloc: Global,
    text: &str,
    threads: &str,
) -> Result<bool, AllocError> {
    let both = traced(rt, alloc, text, threads)?;
    let ask = Ask {
        words: &["replay"],
        input: both.as_slice(),
        read: NONE,
        write: NONE,
    };
    let (_, told) = call(rt, alloc, &ask, &OpenGate)?;
    Ok(told.starts_with(b"legal: "))
}

/// Whether the histories of all scripts are judged legal.
fn all_are_legal<R: Threads + Wait + Sync>(
    rt: &R,
    alloc: Global,
    threads: &str,
) -> Result<bool, AllocError> {
    let scripts: [(&str, &str); 8] = SCRIPTS;
    for (text, _) in scripts.as_slice() {
        if !is_legal(rt, alloc, text, threads)? {
            return Ok(false);
        }
    }
    is_legal(rt, alloc, RACE, threads)
}

#[test]
fn what_trace_writes_is_judged_legal(rt: HostRuntime) {
    let numbers: [&str; 5] = THREADS;
    for threads in numbers.as_slice() {
        assert!(rt;
            holds(all_are_legal(&rt, rt.alloc(), threads)),
            "with {threads}"
        );
    }
}

/// Whether a run whose write of this number fails writes the bytes before it, and all where there is no such write.
fn leaves_first_part<R: Threads + Wait + Sync>(rt: &R, alloc: Global, write: u64) -> bool {
    let due = SHAPES_TEXT.as_bytes();
    let fails = write <= due.len() as u64;
    let (status, first) = if fails {
        (5, write.saturating_sub(1) as usize)
    } else {
        (0, due.len())
    };
    let ask = Ask {
        words: &["run", "--threads=4"],
        input: SHAPES.as_bytes(),
        read: NONE,
        write,
    };
    match due.get(..first) {
        Some(due) => answers(rt, alloc, &ask, (status, due, true)),
        None => false,
    }
}

#[test]
fn each_failing_write_of_a_script_with_tasks_leaves_the_bytes_before_it(rt: HostRuntime) {
    assert!(rt; SHAPES_TEXT.len() == 67);
    for call in 1..=68u64 {
        assert!(rt;
            leaves_first_part(&rt, rt.alloc(), call),
            "write {call} fails"
        );
    }
}
