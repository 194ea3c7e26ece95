//! A state of the model, and what its searches have found beside the choice.

ghost use Rattle.std.specs.Prelude.{◌≡◌};

use jl_calculus::history::Event;
use jl_calculus::step::Step;
use jl_core::Core;
use jl_program::choice::Choice;
use jl_program::prelude::{FIRST_WORLD, PRELUDE_SITES};
use jl_sig::Ready;
use std::alloc::{AllocError, Global};

/// The key and the world of a task's last search.
#[derive(Clone, Copy)]
pub struct Search {
    pub key: u32,
    pub world: u32,
}

/// How many hits were compared with the choice, and how many of them were another site than the choice's.
#[derive(Clone, Copy)]
pub struct Hits {
    pub all: u32,
    pub wrong: u32,
}

impl Hits {
    /// None yet.
    pub fn new() -> Hits {
        Hits { all: 0, wrong: 0 }
    }

    /// One more.
    fn count(&mut self, is_right: bool) {
        self.all = self.all.saturating_add(1);
        if !is_right {
            self.wrong = self.wrong.saturating_add(1);
        }
    }
}

/// Makes a step where it is enabled, and tells whether it was.
pub fn try_step(
    alloc: Global,
    ready: &Ready,
    core: &mut Core,
    step: Step,
) -> Result<bool, AllocError>
    requires { ready.now ≡ core.old.program }
    ensures { core.new.program ≡ core.old.program }
{
    let enabled = match core.enabled(alloc, ready, &step) {
        Ok(enabled) => enabled,
        Err(error) => {
            drop(step);
            return Err(error);
        }
    };
    if !enabled {
        drop(step);
        return Ok(false);
    }
    core.step(alloc, ready, step)?;
    Ok(true)
}

/// How many events there are of the kinds that are counted, one after another.
#[derive(Clone, Copy)]
pub struct Sizes {
    pub tasks: u32,
    pub keys: u32,
    pub rows: u32,
    pub world: u32,
}

/// How many tasks, keys and rows there are, and the newest world.
pub fn sizes_of(events: &[Event]) -> Sizes {
    let mut sizes = Sizes {
        tasks: 1,
        keys: 0,
        rows: 0,
        world: FIRST_WORLD,
    };
    for event in events {
        match event {
            Event::Spawn { .. } => sizes.tasks = sizes.tasks.saturating_add(1),
            Event::Key(_) => sizes.keys = sizes.keys.saturating_add(1),
            Event::Fill { .. } => sizes.rows = sizes.rows.saturating_add(1),
            Event::Def { .. } | Event::Del { .. } => sizes.world = sizes.world.saturating_add(1),
            Event::Begin(_) => {}
            Event::Done { .. } => {}
        }
    }
    sizes
}

/// The site of the definition that made a world.
fn site_of(events: &[Event], world: u32) -> Option<u32> {
    if world == 0 {
        return None;
    }
    if world <= PRELUDE_SITES {
        return Some(world - 1);
    }
    let mut made = PRELUDE_SITES;
    for event in events {
        let site = match event {
            Event::Def { site, .. } => Some(*site),
            Event::Del { .. } => None,
            _ => continue,
        };
        made = made.saturating_add(1);
        if made == world {
            return site;
        }
    }
    None
}

/// The site of the method that is chosen for a key in a world; none where no method is.
pub fn chosen_site(
    alloc: Global,
    ready: &Ready,
    core: &Core,
    key: u32,
    world: u32,
) -> Result<Option<u32>, AllocError>
    requires { ready.now ≡ core.now.program }
{
    match core.choice(alloc, ready, key, world)? {
        Some(Choice::Method(made)) => Ok(site_of(core.history(), made)),
        Some(Choice::None) => Ok(None),
        Some(Choice::Ambiguous(_, _)) => Ok(None),
        None => Ok(None),
    }
}

/// Compares what a task's last search has found, where it has hit, with the choice.
pub fn compare(
    alloc: Global,
    ready: &Ready,
    core: &Core,
    task: u32,
    search: Search,
    hits: &mut Hits,
) -> Result<(), AllocError>
    requires { ready.now ≡ core.now.program }
{
    let Some(found) = core.found(task) else {
        return Ok(());
    };
    let chosen = chosen_site(alloc, ready, core, search.key, search.world)?;
    hits.count(chosen == Some(found));
    Ok(())
}
