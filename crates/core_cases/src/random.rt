//! Random steps of many tasks, by a seed.

ghost use Rattle.std.specs.Prelude.{◌≡◌};

use crate::model::{Hits, Search, Sizes, compare, sizes_of, try_step};
use crate::reading::{number_at, read_key, words_of};
use jl_calculus::history::{Change, Event, Outcome, Record, TraceItem, TraceItems};
use jl_calculus::step::Step;
use jl_core::Core;
use jl_model::shared::SharedNode;
use jl_model::ty::{Bytes, Key, Tys};
use jl_program::env::Env;
use jl_program::prelude::{FIRST_WORLD, PRELUDE_SITES};
use jl_program::tree::Start;
use jl_program::value::Value;
use jl_sig::Ready;
use std::alloc::{AllocError, Global};

/// The kinds of steps, in the order in which they are counted.
const KINDS: usize = 11;

/// A generator of numbers: each state is the one before times a constant and one more, in 64 bits (Knuth's constants).
#[derive(Clone, Copy)]
struct Dice {
    state: u64,
}

impl Dice {
    /// A number below this one; 0 where it is 0.
    fn below(&mut self, count: u32) -> u32 {
        self.state = self
            .state
            .wrapping_mul(6_364_136_223_846_793_005)
            .wrapping_add(1_442_695_040_888_963_407);
        let number = u32::try_from(self.state >> 33).unwrap_or(0);
        if count == 0 {
            return 0;
        }
        number % count
    }
}

/// The definitions, deletions and spawns of a task, as its trace has them.
fn own_items(alloc: Global, events: &[Event], by: u32) -> Result<TraceItems, AllocError> {
    let mut items = Vec::new(alloc);
    for (i, event) in events.iter().enumerate() {
        let at = u32::try_from(i).unwrap_or(u32::MAX);
        match event {
            Event::Def { task, site } => {
                if *task == by {
                    items.push(TraceItem::Def { site: *site, at })?;
                }
            }
            Event::Del { task, place } => {
                if *task == by {
                    items.push(TraceItem::Del { place: *place, at })?;
                }
            }
            Event::Spawn { task, child, .. } => {
                if *task == by {
                    items.push(TraceItem::Spawn { child: *child, at })?;
                }
            }
            _ => {}
        }
    }
    TraceItems::from_vec(alloc, items)
}

/// A value that is a task, or nothing.
fn random_value(dice: &mut Dice, tasks: u32) -> Value {
    let task = dice.below(tasks.saturating_mul(2));
    if task < tasks {
        return Value::Task(task);
    }
    Value::Nothing
}

/// A start at the first spawn place, with one value.
fn random_start(
    alloc: Global,
    dice: &mut Dice,
    sizes: Sizes,
    world: u32,
) -> Result<Start, AllocError> {
    let mut env = Vec::new(alloc);
    env.push(random_value(dice, sizes.tasks))?;
    Ok(Start {
        spawn: 0,
        env: Env::from_vec(alloc, env)?,
        bindings: Tys::empty(),
        world,
    })
}

/// What a task did, by its own events.
fn random_record(
    alloc: Global,
    dice: &mut Dice,
    events: &[Event],
    sizes: Sizes,
    task: u32,
) -> Result<Record, AllocError> {
    let outcome = SharedNode::new(alloc, Outcome::Value(random_value(dice, sizes.tasks)))?;
    let trace = own_items(alloc, events, task)?;
    Ok(Record {
        trace,
        outcome,
        output: Bytes::empty(),
        calls: 0,
    })
}

/// One of some keys.
fn random_key(dice: &mut Dice, keys: &[Key]) -> Result<Key, AllocError> {
    let count = u32::try_from(keys.len()).unwrap_or(0);
    match keys.get(dice.below(count) as usize) {
        Some(key) => key.copy(),
        None => Err(AllocError),
    }
}

/// How many sites and deletion places a program has.
#[derive(Clone, Copy)]
struct Parts {
    sites: u32,
    places: u32,
}

/// A definition of a site of the script, or of one beside them, or a deletion at a place.
fn random_change(dice: &mut Dice, parts: Parts) -> Change {
    let sites = parts.sites.saturating_sub(PRELUDE_SITES).saturating_add(2);
    let number = dice.below(sites.saturating_add(parts.places));
    if number < sites {
        return Change::Def(number.saturating_add(PRELUDE_SITES - 1));
    }
    Change::Del(number.saturating_sub(sites))
}

/// The steps with a task, by a number below 11.
fn task_step(
    alloc: Global,
    dice: &mut Dice,
    core: &Core,
    keys: &[Key],
    sizes: Sizes,
    parts: Parts,
    kind: u32,
) -> Result<Step, AllocError> {
    let task = dice.below(sizes.tasks.saturating_add(1));
    let key = dice.below(sizes.keys.saturating_add(1));
    let world = dice
        .below(sizes.world.saturating_sub(FIRST_WORLD).saturating_add(2))
        .saturating_add(FIRST_WORLD);
    match kind {
        0 => Ok(Step::Look { task }),
        1 => {
            let key = random_key(dice, keys)?;
            Ok(Step::Key { task, key })
        }
        2 => Ok(Step::Head { task, key, world }),
        3 => Ok(Step::Row { task }),
        4 => Ok(Step::Fill { task, key, world }),
        5 => {
            let change = random_change(dice, parts);
            Ok(Step::Open { task, change })
        }
        8 => {
            let start = random_start(alloc, dice, sizes, world)?;
            Ok(Step::Spawn { task, start })
        }
        9 => {
            let task = dice.below(sizes.tasks).saturating_add(1);
            let ended = random_record(alloc, dice, core.history(), sizes, task)?;
            Ok(Step::Done { task, ended })
        }
        _ => Ok(Step::Fetch {
            task,
            of: dice.below(sizes.tasks.saturating_add(1)),
        }),
    }
}

/// How often each kind of step is tried, of the sum of all.
static WEIGHTS: [u32; KINDS] = [3, 2, 6, 8, 5, 2, 6, 5, 1, 1, 2];

/// A kind of step.
fn random_kind(dice: &mut Dice) -> u32 {
    let mut rest = dice.below(41);
    for (kind, weight) in WEIGHTS.iter().enumerate() {
        if rest < *weight {
            return u32::try_from(kind).unwrap_or(0);
        }
        rest = rest.saturating_sub(*weight);
    }
    0
}

/// A step.
fn random_step(
    alloc: Global,
    dice: &mut Dice,
    core: &Core,
    keys: &[Key],
    parts: Parts,
) -> Result<(u32, Step), AllocError> {
    let sizes = sizes_of(core.history());
    let kind = random_kind(dice);
    match kind {
        6 => {
            let row = dice.below(sizes.rows.saturating_add(1));
            Ok((kind, Step::Cut { row }))
        }
        7 => Ok((kind, Step::Publish)),
        _ => {
            let step = task_step(alloc, dice, core, keys, sizes, parts, kind)?;
            Ok((kind, step))
        }
    }
}

/// What a walk keeps: its dice, the last search that each task has begun in it, how many steps of each kind were made, and the hits.
#[derive(Drop)]
struct Walk {
    dice: Dice,
    searches: Vec<Option<Search>>,
    made: Vec<u32>,
    hits: Hits,
}

impl Walk {
    /// One more step of a kind was made.
    fn count(&mut self, kind: u32) {
        if let Some(made) = self.made.as_mut_slice().get_mut(kind as usize) {
            *made = made.saturating_add(1);
        }
    }

    /// A task has begun this search.
    fn note(&mut self, task: u32, search: Search) -> Result<(), AllocError> {
        for _ in self.searches.len()..(task as usize).saturating_add(1) {
            self.searches.push(None)?;
        }
        if let Some(last) = self.searches.as_mut_slice().get_mut(task as usize) {
            *last = Some(search);
        }
        Ok(())
    }

    /// Compares what each task's last search has found with the choice.
    fn compare_all(&mut self, alloc: Global, ready: &Ready, core: &Core) -> Result<(), AllocError>
        requires { ready.now ≡ core.now.program }
    {
        for (task, search) in self.searches.as_slice().iter().enumerate() {
            if let Some(search) = search {
                let task = u32::try_from(task).unwrap_or(u32::MAX);
                compare(alloc, ready, core, task, *search, &mut self.hits)?;
            }
        }
        Ok(())
    }

    /// Tries one step.
    fn take(
        &mut self,
        alloc: Global,
        ready: &Ready,
        core: &mut Core,
        keys: &[Key],
        parts: Parts,
    ) -> Result<(), AllocError>
        requires { ready.now ≡ core.old.program }
        ensures { core.new.program ≡ core.old.program }
    {
        let (kind, step) = random_step(alloc, &mut self.dice, core, keys, parts)?;
        let begun = match &step {
            Step::Head { task, key, world } => Some((
                *task,
                Search {
                    key: *key,
                    world: *world,
                },
            )),
            _ => None,
        };
        if !try_step(alloc, ready, core, step)? {
            return Ok(());
        }
        self.count(kind);
        if let Some((task, search)) = begun {
            self.note(task, search)?;
        }
        self.compare_all(alloc, ready, core)
    }
}

/// The keys of the lines `pool FUNCTION TYPES` of a case.
fn read_pool(alloc: Global, ready: &Ready, lines: &[String]) -> Result<Vec<Key>, AllocError> {
    let mut keys = Vec::new(alloc);
    for line in lines {
        if let Some(rest) = line.as_str().strip_prefix("pool ") {
            let words = words_of(alloc, rest)?;
            keys.push(read_key(alloc, ready, words.as_slice())?)?;
        }
    }
    Ok(keys)
}

/// Numbers, with blanks between them.
fn numbers_text(alloc: Global, numbers: &[u32]) -> Result<String, AllocError> {
    let mut out = String::new(alloc);
    for (i, number) in numbers.iter().enumerate() {
        if i > 0 {
            out.push_str(" ")?;
        }
        out.push_str(format!(in alloc; "{number}")?.as_str())?;
    }
    Ok(out)
}

/// Tries random steps as a line `random SEED COUNT` asks.
pub fn random(
    alloc: Global,
    ready: &Ready,
    core: &mut Core,
    lines: &[String],
    line: &str,
) -> Result<String, AllocError>
    requires { ready.now ≡ core.old.program }
    ensures { core.new.program ≡ core.old.program }
{
    let words = words_of(alloc, line)?;
    let keys = read_pool(alloc, ready, lines)?;
    let program = ready.program();
    let parts = Parts {
        sites: u32::try_from(program.sites.len()).unwrap_or(0),
        places: u32::try_from(program.deletes.len()).unwrap_or(0),
    };
    let mut made = Vec::new(alloc);
    for _ in 0..KINDS {
        made.push(0)?;
    }
    let mut walk = Walk {
        dice: Dice {
            state: u64::from(number_at(words.as_slice(), 1)),
        },
        searches: Vec::new(alloc),
        made,
        hits: Hits::new(),
    };
    for _ in 0..number_at(words.as_slice(), 2) {
        walk.take(alloc, ready, core, keys.as_slice(), parts)?;
    }
    let numbers = numbers_text(alloc, walk.made.as_slice())?;
    format!(in alloc;
        "{} made, {} hits, {} differences",
        numbers.as_str(),
        walk.hits.all,
        walk.hits.wrong
    )
}
