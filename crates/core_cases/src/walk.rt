//! All interleavings of what some tasks do, one after another: each is made from the start, along the moves that were chosen so far,
//! and with the first move of all wherever none was chosen yet.

ghost use Rattle.std.specs.Prelude.{◌≡◌, IfOk};

use crate::model::{Hits, Search, compare, sizes_of, try_step};
use crate::reading::{number_at, read_step, words_of};
use crate::worker::{Move, Work, Worker};
use jl_calculus::history::Change;
use jl_calculus::step::Step;
use jl_core::Core;
use jl_model::limits::{MOST_CACHE_KEYS, MOST_CACHE_ROWS, MOST_FUEL};
use jl_program::prelude::FIRST_WORLD;
use jl_sig::Ready;
use std::alloc::{AllocError, Global};

/// The most interleavings of a walk, and the most moves of one.
const MOST_WAYS: u32 = 1_000_000;

const MOST_MOVES: usize = 1_000;
/// The most rows that a search reads.
const MOST_READ: u32 = 1_000;

/// What a walk has counted: the interleavings, the moves by which they differ, those that stopped before all was done, the hits of the
/// tasks, and those of searches of all keys in all worlds at the end of each.
#[derive(Clone, Copy)]
struct Counts {
    ways: u32,
    moves: u32,
    stuck: u32,
    hits: Hits,
    sweep: Hits,
}

/// A move of one of the workers.
#[derive(Clone, Copy)]
struct Turn {
    worker: usize,
    made: Move,
}

/// The start that a line asks for.
pub fn start(alloc: Global, ready: &Ready, line: &str) -> Result<Core, AllocError>
    ensures { IfOk result (λ core. core.program ≡ ready.now) }
{
    let words = words_of(alloc, line)?;
    let fuel = u64::from(number_at(words.as_slice(), 1)).min(MOST_FUEL);
    let keys = number_at(words.as_slice(), 2).min(MOST_CACHE_KEYS as u32);
    let rows = number_at(words.as_slice(), 3).min(MOST_CACHE_ROWS as u32);
    let core = Core::start(alloc, ready, fuel, keys, rows)?;
    Ok(core)
}

/// What a word and a number ask of a task.
fn read_work(word: &str, number: u32) -> Work {
    match word {
        "define" => Work::Make(Change::Def(number)),
        "delete" => Work::Make(Change::Del(number)),
        _ => Work::Call(number),
    }
}

/// The works of a line `task N: define SITE, delete PLACE, call KEY`.
fn read_worker(alloc: Global, line: &str) -> Result<Option<Worker>, AllocError> {
    let Some(rest) = line.strip_prefix("task ") else {
        return Ok(None);
    };
    let (task, text) = rest.split_once(':').unwrap_or((rest, ""));
    let mut works = Vec::new(alloc);
    for piece in text.split(',') {
        let words = words_of(alloc, piece)?;
        let number = number_at(words.as_slice(), 1);
        match words.as_slice().first() {
            Some(word) => works.push(read_work(*word, number))?,
            None => {}
        }
    }
    let number = task.parse::<u32>().unwrap_or(0);
    Ok(Some(Worker::new(number, works)))
}

/// The workers of the lines of a case.
fn read_workers(alloc: Global, lines: &[String]) -> Result<Vec<Worker>, AllocError> {
    let mut workers = Vec::new(alloc);
    for line in lines {
        if let Some(worker) = read_worker(alloc, line.as_str())? {
            workers.push(worker)?;
        }
    }
    Ok(workers)
}

/// Makes the steps of the lines of a case.
fn make_all(
    alloc: Global,
    ready: &Ready,
    core: &mut Core,
    lines: &[String],
) -> Result<(), AllocError>
    requires { ready.now ≡ core.old.program }
    ensures { core.new.program ≡ core.old.program }
{
    for line in lines {
        if let Some(step) = read_step(alloc, ready, line.as_str())? {
            try_step(alloc, ready, core, step)?;
        }
    }
    Ok(())
}

/// The state after the steps of the lines of a case.
fn begin(alloc: Global, ready: &Ready, lines: &[String]) -> Result<Core, AllocError>
    ensures { IfOk result (λ core. core.program ≡ ready.now) }
{
    let first = match lines.first() {
        Some(line) => line.as_str(),
        None => "",
    };
    let mut core = start(alloc, ready, first)?;
    match make_all(alloc, ready, &mut core, lines) {
        Ok(()) => Ok(core),
        Err(error) => {
            drop(core);
            Err(error)
        }
    }
}

/// The moves of all workers.
fn turns_of(
    alloc: Global,
    ready: &Ready,
    core: &Core,
    workers: &[Worker],
) -> Result<Vec<Turn>, AllocError>
    requires { ready.now ≡ core.now.program }
{
    let is_open = workers.iter().any(|worker| worker.has_opened());
    let mut turns = Vec::new(alloc);
    for (i, worker) in workers.iter().enumerate() {
        let moves = worker.moves(alloc, ready, core, is_open)?;
        for made in moves.as_slice() {
            turns.push(Turn {
                worker: i,
                made: *made,
            })?;
        }
    }
    Ok(turns)
}

/// Makes a move.
fn take_turn(
    alloc: Global,
    ready: &Ready,
    core: &mut Core,
    worker: &mut Worker,
    made: Move,
) -> Result<(), AllocError>
    requires { ready.now ≡ core.old.program }
    ensures { core.new.program ≡ core.old.program }
{
    let step = worker.step_of(made);
    try_step(alloc, ready, core, step)?;
    worker.note(alloc, ready, core, made)
}

/// Compares what the last searches of all workers have found.
fn compare_all(
    alloc: Global,
    ready: &Ready,
    core: &Core,
    workers: &[Worker],
    hits: &mut Hits,
) -> Result<(), AllocError>
    requires { ready.now ≡ core.now.program }
{
    for worker in workers {
        if let Some(search) = worker.searched() {
            compare(alloc, ready, core, worker.task(), search, hits)?;
        }
    }
    Ok(())
}

/// The root searches a key in a world.
fn search(
    alloc: Global,
    ready: &Ready,
    core: &mut Core,
    key: u32,
    world: u32,
    hits: &mut Hits,
) -> Result<(), AllocError>
    requires { ready.now ≡ core.old.program }
    ensures { core.new.program ≡ core.old.program }
{
    try_step(
        alloc,
        ready,
        core,
        Step::Head {
            task: 0,
            key,
            world,
        },
    )?;
    for _ in 0..MOST_READ {
        if !try_step(alloc, ready, core, Step::Row { task: 0 })? {
            break;
        }
    }
    compare(alloc, ready, core, 0, Search { key, world }, hits)
}

/// The root searches all keys in all worlds.
fn sweep(alloc: Global, ready: &Ready, core: &mut Core, hits: &mut Hits) -> Result<(), AllocError>
    requires { ready.now ≡ core.old.program }
    ensures { core.new.program ≡ core.old.program }
{
    try_step(alloc, ready, core, Step::Look { task: 0 })?;
    let sizes = sizes_of(core.history());
    for key in 0..sizes.keys {
        for world in FIRST_WORLD..sizes.world.saturating_add(1) {
            search(alloc, ready, core, key, world, hits)?;
        }
    }
    Ok(())
}

/// Follows a path of chosen moves, and makes it longer to the end. Gives the number of moves that there were at each place.
fn follow(
    alloc: Global,
    ready: &Ready,
    core: &mut Core,
    workers: &mut Vec<Worker>,
    path: &mut Vec<usize>,
    counts: &mut Counts,
) -> Result<Vec<usize>, AllocError>
    requires { ready.now ≡ core.old.program }
    ensures { core.new.program ≡ core.old.program }
{
    let old = path.len().saturating_sub(1);
    let mut widths = Vec::new(alloc);
    for place in 0..MOST_MOVES {
        let turns = turns_of(alloc, ready, core, workers.as_slice())?;
        if place == path.len() && !turns.is_empty() {
            path.push(0)?;
        }
        let Some(chosen) = path.as_slice().get(place).copied() else {
            break;
        };
        let Some(turn) = turns.as_slice().get(chosen).copied() else {
            break;
        };
        widths.push(turns.len())?;
        let Some(worker) = workers.as_mut_slice().get_mut(turn.worker) else {
            break;
        };
        take_turn(alloc, ready, core, worker, turn.made)?;
        if place >= old {
            counts.moves = counts.moves.saturating_add(1);
            compare_all(alloc, ready, core, workers.as_slice(), &mut counts.hits)?;
        }
    }
    Ok(widths)
}

/// One interleaving along a path of chosen moves, from its start to searches of all keys in all worlds at its end.
fn take_way(
    alloc: Global,
    ready: &Ready,
    core: &mut Core,
    workers: &mut Vec<Worker>,
    path: &mut Vec<usize>,
    counts: &mut Counts,
) -> Result<Vec<usize>, AllocError>
    requires { ready.now ≡ core.old.program }
{
    for worker in workers.as_mut_slice() {
        worker.restart();
    }
    let widths = follow(alloc, ready, core, workers, path, counts)?;
    counts.ways = counts.ways.saturating_add(1);
    if workers
        .as_slice()
        .iter()
        .any(|worker| worker.work().is_some())
    {
        counts.stuck = counts.stuck.saturating_add(1);
    }
    sweep(alloc, ready, core, &mut counts.sweep)?;
    Ok(widths)
}

/// Makes a path the next one: at its last place where there is another move, that is taken. Tells whether there is a next one.
fn go_on(path: &mut Vec<usize>, widths: &[usize]) -> Result<bool, AllocError> {
    for _ in 0..MOST_MOVES {
        let Some(last) = path.pop() else {
            return Ok(false);
        };
        let width = widths.get(path.len()).copied().unwrap_or(0);
        let next = last.saturating_add(1);
        if next < width {
            path.push(next)?;
            return Ok(true);
        }
    }
    Ok(false)
}

/// All interleavings of the works of a case after its steps.
pub fn walk(alloc: Global, ready: &Ready, lines: &[String]) -> Result<String, AllocError> {
    let mut workers = read_workers(alloc, lines)?;
    let mut path = Vec::new(alloc);
    let mut counts = Counts {
        ways: 0,
        moves: 0,
        stuck: 0,
        hits: Hits::new(),
        sweep: Hits::new(),
    };
    for _ in 0..MOST_WAYS {
        let mut core = begin(alloc, ready, lines)?;
        let taken = take_way(
            alloc,
            ready,
            &mut core,
            &mut workers,
            &mut path,
            &mut counts,
        );
        drop(core);
        let widths = taken?;
        if !go_on(&mut path, widths.as_slice())? {
            break;
        }
    }
    let Counts {
        ways,
        moves,
        stuck,
        hits,
        sweep,
    } = counts;
    let wrong = hits.wrong.saturating_add(sweep.wrong);
    format!(in alloc;
        "{ways} interleavings, {moves} moves, {stuck} stuck, {} hits, {} at the ends, {wrong} differences",
        hits.all, sweep.all
    )
}
