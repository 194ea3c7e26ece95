//! Steps, word by word.
//!
//! `key T FUNCTION TYPES` has the types made word by word on a stack: a name is the type of this name without arguments, and `NAME/N`
//! takes the last N types as its arguments; `Union/N` and `Tuple/N` do so too, `Any` and `_`, a variable, have no parts, and a number is
//! the type of this number. `spawn T PLACE WORLD TASKS` starts a task with these tasks as values. `done T OUTCOME: ITEMS` has its items
//! between commas. `open T SITE` opens a definition and `delete T PLACE` a deletion. An outcome is `task N`, `int N`, `failed N` (the fault of a fetched task), `stack` or `nothing`.

use jl_calculus::history::{Change, Outcome, Record, TraceItem, TraceItems};
use jl_calculus::step::Step;
use jl_model::shared::SharedNode;
use jl_model::ty::{Bytes, Key, Ty, Tys};
use jl_program::env::Env;
use jl_program::fault::Fault;
use jl_program::tree::{Program, Start};
use jl_program::value::Value;
use jl_sig::Ready;
use jl_types::Table;
use std::alloc::{AllocError, Global};

/// The number that a word is; the greatest where it is none.
pub fn number(word: &str) -> u32 {
    word.parse::<u32>().unwrap_or(u32::MAX)
}

/// The words of a text.
pub fn words_of(alloc: Global, text: &str) -> Result<Vec<&str>, AllocError> {
    let mut words = Vec::new(alloc);
    for word in text.split_whitespace() {
        words.push(word)?;
    }
    Ok(words)
}

/// The number at a place; the greatest where there is none.
pub fn number_at(words: &[&str], place: usize) -> u32 {
    match words.get(place) {
        Some(word) => number(*word),
        None => u32::MAX,
    }
}

/// The words from a place on.
fn words_from<'a>(words: &'a [&'a str], place: usize) -> &'a [&'a str] {
    if place < words.len() {
        return &words[place..];
    }
    &[]
}

/// The number of the type of a name, or the number that a word is.
fn find_type(table: &Table, name: &str) -> u32 {
    for number in 0..table.count() {
        if table.decl(number).name.as_slice() == name.as_bytes() {
            return number;
        }
    }
    number(name)
}

/// The type with this head and these parts.
fn make_type(table: &Table, head: &str, parts: Tys) -> Ty {
    match head {
        "Any" => Ty::Any,
        "_" => Ty::Var(0),
        "Union" => Ty::Union(parts),
        "Tuple" => Ty::Tuple(parts),
        _ => Ty::Nominal(find_type(table, head), parts),
    }
}

/// Puts the type of a word on the stack.
fn take_type(
    alloc: Global,
    table: &Table,
    stack: &mut Vec<Ty>,
    word: &str,
) -> Result<(), AllocError> {
    let (head, count) = word.split_once('/').unwrap_or((word, "0"));
    let at = stack.len().saturating_sub(number(count) as usize);
    let parts = Tys::from_vec(alloc, stack.split_off(at)?)?;
    stack.push(make_type(table, head, parts))?;
    Ok(())
}

/// The types of words.
fn read_types(alloc: Global, table: &Table, words: &[&str]) -> Result<Tys, AllocError> {
    let mut stack = Vec::new(alloc);
    for word in words {
        take_type(alloc, table, &mut stack, *word)?;
    }
    Tys::from_vec(alloc, stack)
}

/// The number of the function of a name, or the number that a word is.
fn find_function(program: &Program, name: &str) -> u32 {
    for (place, function) in program.functions.as_slice().iter().enumerate() {
        if function.as_slice() == name.as_bytes() {
            return u32::try_from(place).unwrap_or(u32::MAX);
        }
    }
    number(name)
}

/// The key of words: a function, and types.
pub fn read_key(alloc: Global, ready: &Ready, words: &[&str]) -> Result<Key, AllocError> {
    let name = match words.first() {
        Some(word) => *word,
        None => "",
    };
    Ok(Key {
        function: find_function(ready.program(), name),
        types: read_types(alloc, ready.table(), words_from(words, 1))?,
    })
}

/// Where a task starts that has the tasks of these words as values.
fn read_start(alloc: Global, place: u32, world: u32, tasks: &[&str]) -> Result<Start, AllocError> {
    let mut env = Vec::new(alloc);
    for task in tasks {
        env.push(Value::Task(number(*task)))?;
    }
    Ok(Start {
        spawn: place,
        env: Env::from_vec(alloc, env)?,
        bindings: Tys::empty(),
        world,
    })
}

/// The outcome of words.
fn read_outcome(words: &[&str]) -> Outcome {
    let word = match words.first() {
        Some(word) => *word,
        None => "",
    };
    match word {
        "task" => Outcome::Value(Value::Task(number_at(words, 1))),
        "int" => Outcome::Value(Value::Int(i64::from(number_at(words, 1)))),
        "failed" => Outcome::Error(Fault::TaskFailed(number_at(words, 1))),
        "stack" => Outcome::Error(Fault::StackLimit),
        _ => Outcome::Value(Value::Nothing),
    }
}

/// The outcome of words, in a node.
fn read_ending(alloc: Global, words: &[&str]) -> Result<SharedNode<Outcome>, AllocError> {
    SharedNode::new(alloc, read_outcome(words))
}

/// The item of words.
fn read_item(alloc: Global, words: &[&str]) -> Result<TraceItem, AllocError> {
    let word = match words.first() {
        Some(word) => *word,
        None => "",
    };
    let one = number_at(words, 1);
    let two = number_at(words, 2);
    match word {
        "look" => Ok(TraceItem::Look {
            world: one,
            at: two,
        }),
        "def" => Ok(TraceItem::Def { site: one, at: two }),
        "del" => Ok(TraceItem::Del {
            place: one,
            at: two,
        }),
        "absent" => Ok(TraceItem::Absent {
            place: one,
            at: two,
        }),
        "spawn" => Ok(TraceItem::Spawn {
            child: one,
            at: two,
        }),
        "fetch" => Ok(TraceItem::Fetch {
            task: one,
            outcome: read_ending(alloc, words_from(words, 3))?,
            at: two,
        }),
        "worldfull" => Ok(TraceItem::WorldFull { at: one }),
        _ => Ok(TraceItem::TaskFull { at: one }),
    }
}

/// The items between commas.
fn read_trace(alloc: Global, text: &str) -> Result<TraceItems, AllocError> {
    let mut items = Vec::new(alloc);
    for piece in text.split(',') {
        let words = words_of(alloc, piece)?;
        if words.is_empty() {
            continue;
        }
        items.push(read_item(alloc, words.as_slice())?)?;
    }
    TraceItems::from_vec(alloc, items)
}

/// What a task did that ends with this outcome and these items.
fn read_record(alloc: Global, words: &[&str], items: &str) -> Result<Record, AllocError> {
    let trace = read_trace(alloc, items)?;
    Ok(Record {
        trace,
        outcome: read_ending(alloc, words_from(words, 2))?,
        output: Bytes::empty(),
        calls: 0,
    })
}

/// The step of a line; none where its first word names none.
pub fn read_step(alloc: Global, ready: &Ready, line: &str) -> Result<Option<Step>, AllocError> {
    let (front, items) = line.split_once(':').unwrap_or((line, ""));
    let words = words_of(alloc, front)?;
    let words = words.as_slice();
    let word = match words.first() {
        Some(word) => *word,
        None => "",
    };
    let task = number_at(words, 1);
    let two = number_at(words, 2);
    let three = number_at(words, 3);
    match word {
        "look" => Ok(Some(Step::Look { task })),
        "key" => {
            let key = read_key(alloc, ready, words_from(words, 2))?;
            Ok(Some(Step::Key { task, key }))
        }
        "head" => Ok(Some(Step::Head {
            task,
            key: two,
            world: three,
        })),
        "row" => Ok(Some(Step::Row { task })),
        "fill" => Ok(Some(Step::Fill {
            task,
            key: two,
            world: three,
        })),
        "open" => Ok(Some(Step::Open {
            task,
            change: Change::Def(two),
        })),
        "delete" => Ok(Some(Step::Open {
            task,
            change: Change::Del(two),
        })),
        "cut" => Ok(Some(Step::Cut { row: task })),
        "publish" => Ok(Some(Step::Publish)),
        "spawn" => {
            let start = read_start(alloc, two, three, words_from(words, 4))?;
            Ok(Some(Step::Spawn { task, start }))
        }
        "done" => {
            let ended = read_record(alloc, words, items)?;
            Ok(Some(Step::Done { task, ended }))
        }
        "fetch" => Ok(Some(Step::Fetch { task, of: two })),
        _ => Ok(None),
    }
}
