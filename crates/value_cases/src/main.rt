//! What is made of values, and the texts of types, values and faults, as standard input asks, a case a line.
//!
//! Values are made word by word on a stack. A word is a number, `true`, `false` or `nothing`; `task/N` is the task of that
//! number, `copy/N` a copy of the N-th value from the end, counted from 0, and `tuple/N`, `P/N`, `Box{Int64}/N` and so on are
//! made of the last N values. `N* WORDS` is N times these words, and `;` stands between such pieces.
//!
//! `value WORDS` asks for the last value with its type, its nodes and its depth, and for those of its copy, or for the fault;
//! `same WORDS` whether two values are the same. `type WORDS` asks for the text of a type: a number is a type without arguments,
//! `N/M` one of the last M types, and so are `Union/M` and `Tuple/M`; `Any` and `_`, a variable, have no parts.
//! `fault KIND NUMBERS : TYPES` asks for the text of a fault, `count` for the number of types, and `texts` for one text of each
//! kind after another. A line `# TEXT` is a heading.
#![tactic(auto)]

ghost use Rattle.std.specs.Prelude.{◌≡◌};
ghost use Rattle.jl_value.specs.Samples.{sample_types};

mod answers;
mod faults;
mod sample;
mod types;
mod values;

use crate::answers::{appended, fault_answer, same_answer, type_answer, value_answer};
use crate::sample::{sample_program, sample_table};
use jl_program::tree::Program;
use jl_types::Table;
use std::alloc::{AllocError, Global};
use std::io::{self, BufRead, BufReader};

/// The answer to a line with this word and this rest.
fn answer(
    alloc: Global,
    table: &Table,
    program: &Program,
    word: &str,
    rest: &str,
) -> Result<String, AllocError>
    requires sample { table.now ≡ sample_types }
{
    match word {
        "value" => value_answer(alloc, table, program, rest),
        "same" => same_answer(alloc, table, rest),
        "type" => type_answer(alloc, program, rest),
        "fault" => fault_answer(alloc, program, rest),
        "count" => {
            let count = table.count();
            format!(in alloc; "{count}")
        }
        _ => appended(alloc, program),
    }
}

/// Takes a line.
fn take(rt: &HostRuntime, table: &Table, program: &Program, line: &str) -> io::Result<()>
    requires sample { table.now ≡ sample_types }
{
    let (word, rest) = line.split_once(' ').unwrap_or((line, ""));
    if word == "#" {
        return println!(rt; "{line}");
    }
    let text = answer(rt.alloc(), table, program, word, rest)?;
    println!(rt; "{line} => {text}")
}

/// Takes all lines.
fn take_all(rt: &HostRuntime, table: &Table, program: &Program) -> io::Result<()>
    requires sample { table.now ≡ sample_types }
{
    let alloc = rt.alloc();
    for line in BufReader::new(alloc, rt.reader())?.lines(alloc) {
        take(rt, table, program, line?.as_str())?;
    }
    Ok(())
}

/// Takes all lines with a table that is made already.
fn take_with(rt: &HostRuntime, table: &Table) -> io::Result<()>
    requires sample { table.now ≡ sample_types }
{
    let program = sample_program(rt.alloc())?;
    let taken = take_all(rt, table, &program);
    drop(program);
    taken
}

fn main(rt: HostRuntime) -> io::Result<()> {
    let table = sample_table(rt.alloc())?;
    let taken = take_with(&rt, &table);
    drop(table);
    taken
}
