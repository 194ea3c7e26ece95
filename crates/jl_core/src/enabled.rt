//! When steps are enabled.

ghost use Rattle.std.specs.Prelude.{◌≡◌, ◌<◌, ◌≤◌, ◌↔◌, ℕ, IsTrue, IfOk};
ghost use Rattle.std.specs.List.{Contains};
ghost use Rattle.jl_model.specs.declared.limits.TheConstants.{MOST_WORLDS};
ghost use Rattle.jl_program.specs.declared.prelude.TheConstants.{FIRST_WORLD};
ghost use Rattle.jl_calculus.specs.Core.{IsFree, Knows, CanName, CanSearch, CanRead, CanFill, CanOpen, CanCut, CanPublish, CanSpawn, CanEnd, CanFetch};
ghost use Rattle.jl_calculus.specs.Legal.{IsRunning, MayBeMade};
ghost use Rattle.jl_calculus.specs.World.{world_of};
ghost use Rattle.jl_core.specs.Asked.{HasMethod, IsChoiceOrNone};
ghost use Rattle.jl_core.specs.Reached.{KnowsOne};
ghost use Rattle.jl_core.specs.State.{MayMake};

use crate::events::{count_keys, done_of, has_key, key_at, world_of};
use crate::keys::is_key_of;
use crate::mention::{in_outcome, in_start};
use crate::range::{range_of, select, touches};
use crate::standing::has_method_for;
use crate::state::Core;
use crate::task::last_search;
use crate::trace::{has_own_events, has_true_trace};
use crate::words::is_covered;
use jl_calculus::history::{Change, Record};
use jl_calculus::step::Step;
use jl_model::limits::{MOST_TASKS, MOST_WORLDS};
use jl_model::ty::Key;
use jl_program::choice::Choice;
use jl_program::prelude::PRELUDE_SITES;
use jl_program::tree::Start;
use jl_sig::Ready;
use std::alloc::{AllocError, Global};

/// Whether a number is one of these.
fn is_among(numbers: &[u32], sought: u32) -> bool
    ensures { IsTrue result ↔ Contains numbers.now sought }
{
    for number in numbers {
        if *number == sought {
            return true;
        }
    }
    false
}

/// Whether all of some numbers are among these.
fn are_among(numbers: &[u32], sought: &[u32]) -> bool
    ensures { IsTrue result ↔ ((other : ℕ) → Contains sought.now other → Contains numbers.now other) }
{
    for number in sought {
        if !is_among(numbers, *number) {
            return false;
        }
    }
    true
}

impl Core {
    /// The choice for the key of a number in a world, by all changes up to it; none exactly where there is no such key or no
    /// such world yet.
    pub fn choice(
        &self,
        alloc: Global,
        ready: &Ready,
        key: u32,
        world: u32,
    ) -> Result<Option<Choice>, AllocError>
        requires { ready.now ≡ self.now.program }
        ensures { IfOk result (IsChoiceOrNone self.now.program self.now.core.events key world) }
    {
        let events = self.events.as_slice();
        let Some(named) = key_at(events, key) else {
            return Ok(None);
        };
        if world as usize > world_of(events) {
            return Ok(None);
        }
        let choice = select(alloc, ready, events, named, world)?;
        Ok(Some(choice))
    }

    /// Whether a task was started and has not ended.
    fn is_running(&self, task: u32) -> bool
        ensures { IsTrue result ↔ IsRunning self.now.core.events task }
    {
        if task as usize >= self.tasks.len() {
            return false;
        }
        match done_of(self.events.as_slice(), task) {
            Some(_) => false,
            None => true,
        }
    }

    /// Whether a task is running while no change is open.
    fn is_free(&self, task: u32) -> bool
        ensures { IsTrue result ↔ IsFree self.now.program self.now.room self.now.core task }
    {
        match self.opened {
            Some(_) => false,
            None => self.is_running(task),
        }
    }

    /// Whether a task may name a key: it is running while no change is open, the key is one of the program and is new, and there
    /// is a place for it.
    fn may_name(
        &self,
        alloc: Global,
        ready: &Ready,
        task: u32,
        key: &Key,
    ) -> Result<bool, AllocError>
        requires { ready.now ≡ self.now.program }
        ensures { IfOk result (λ yes. IsTrue yes ↔ CanName self.now.program self.now.room self.now.core task key.now) }
    {
        if !self.is_free(task) {
            return Ok(false);
        }
        if count_keys(self.events.as_slice()) >= self.keys as usize {
            return Ok(false);
        }
        if has_key(self.events.as_slice(), key) {
            return Ok(false);
        }
        let proper = is_key_of(alloc, ready, key)?;
        Ok(proper)
    }

    /// Whether a task may begin the search of a key in a world: it is running, and has seen both.
    fn may_search(&self, task: u32, key: u32, world: u32) -> bool
        ensures { IsTrue result ↔ CanSearch self.now.program self.now.room self.now.core task key world }
    {
        if !self.has_seen(task, key, world) {
            return false;
        }
        self.is_running(task)
    }

    /// Whether a task may read a row: its last search is at one.
    fn may_read(&self, task: u32) -> bool
        ensures { IsTrue result ↔ CanRead self.now.program self.now.room self.now.core task }
    {
        let Some(last) = last_search(self.tasks.as_slice(), task) else {
            return false;
        };
        match last.row() {
            Some(_) => true,
            None => false,
        }
    }

    /// Whether a method is chosen for the key of a number in a world.
    fn has_method(
        &self,
        alloc: Global,
        ready: &Ready,
        key: u32,
        world: u32,
    ) -> Result<bool, AllocError>
        requires program { ready.now ≡ self.now.program }
        requires low { FIRST_WORLD ≤ world }
        requires high { world ≤ world_of self.now.core.events }
        ensures { IfOk result (λ yes. IsTrue yes ↔ HasMethod self.now.program self.now.core.events key world) }
    {
        let events = self.events.as_slice();
        let Some(named) = key_at(events, key) else {
            return Ok(false);
        };
        let found = range_of(alloc, ready, events, named, world)?;
        match found {
            Some(_) => Ok(true),
            None => Ok(false),
        }
    }

    /// Whether a task may make a row of a key that covers a world: it is running while no change is open, and has seen both; a
    /// method is chosen, no row covers the world yet, and there is a place for one.
    fn may_fill(
        &self,
        alloc: Global,
        ready: &Ready,
        task: u32,
        key: u32,
        world: u32,
    ) -> Result<bool, AllocError>
        requires { ready.now ≡ self.now.program }
        ensures { IfOk result (λ yes. IsTrue yes ↔ CanFill self.now.program self.now.room self.now.core task key world) }
    {
        if !self.is_free(task) {
            return Ok(false);
        }
        if !self.has_seen(task, key, world) {
            return Ok(false);
        }
        if self.words.len() >= self.rows as usize {
            return Ok(false);
        }
        if is_covered(self.words.as_slice(), key, world) {
            return Ok(false);
        }
        let chosen = self.has_method(alloc, ready, key, world)?;
        Ok(chosen)
    }

    /// Whether a change may be made in the newest world, which is not the last: the site of a definition is one of the script, and a
    /// deletion finds a method to take away.
    fn may_be_made(&self, alloc: Global, ready: &Ready, change: Change) -> Result<bool, AllocError>
        requires program { ready.now ≡ self.now.program }
        requires place { world_of self.now.core.events < MOST_WORLDS }
        ensures { IfOk result (λ yes. IsTrue yes ↔ MayBeMade self.now.program self.now.core.events change) }
    {
        match change {
            Change::Def(site) => {
                Ok(PRELUDE_SITES <= site && (site as usize) < self.program.sites.len())
            }
            Change::Del(place) => {
                let found = has_method_for(alloc, ready, self.events.as_slice(), place)?;
                Ok(found)
            }
        }
    }

    /// Whether a task may open a change: it is running while none is open, the change may be made, and there is a world for it.
    fn may_open(
        &self,
        alloc: Global,
        ready: &Ready,
        task: u32,
        change: Change,
    ) -> Result<bool, AllocError>
        requires { ready.now ≡ self.now.program }
        ensures { IfOk result (λ yes. IsTrue yes ↔ CanOpen self.now.program self.now.room self.now.core task change) }
    {
        if !self.is_free(task) {
            return Ok(false);
        }
        if world_of(self.events.as_slice()) >= MOST_WORLDS {
            return Ok(false);
        }
        let may = self.may_be_made(alloc, ready, change)?;
        Ok(may)
    }

    /// Whether a row may be cut: the open change will end it, and it was not cut yet.
    fn may_cut(&self, alloc: Global, ready: &Ready, row: u32) -> Result<bool, AllocError>
        requires { ready.now ≡ self.now.program }
        ensures { IfOk result (λ yes. IsTrue yes ↔ CanCut self.now.program self.now.room self.now.core row) }
    {
        let Some(opening) = self.opened else {
            return Ok(false);
        };
        if row as usize >= self.words.len() {
            return Ok(false);
        }
        let words = self.words[row as usize];
        if words.last != 0 {
            return Ok(false);
        }
        let Some(key) = key_at(self.events.as_slice(), words.key) else {
            return Ok(false);
        };
        let yes = touches(alloc, ready, opening.change, key)?;
        Ok(yes)
    }

    /// Whether the open change may make its world: no row is left that it will end and that was not cut yet.
    fn may_publish(&self, alloc: Global, ready: &Ready) -> Result<bool, AllocError>
        requires { ready.now ≡ self.now.program }
        ensures { IfOk result (λ yes. IsTrue yes ↔ CanPublish self.now.program self.now.room self.now.core) }
    {
        let Some(_) = self.opened else {
            return Ok(false);
        };
        let count = self.words.len() as u32;
        for row in 0..count {
            let left = self.may_cut(alloc, ready, row)?;
            if left {
                return Ok(false);
            }
        }
        Ok(true)
    }

    /// Whether a task knows another.
    fn knows(&self, task: u32, other: u32) -> bool
        ensures { IsTrue result ↔ KnowsOne self.now.core task other }
    {
        match self.tasks.as_slice().get(task as usize) {
            Some(state) => is_among(state.known.as_slice(), other),
            None => false,
        }
    }

    /// Whether a task knows all of these.
    fn knows_all(&self, task: u32, others: &[u32]) -> bool
        ensures { IsTrue result ↔ Knows self.now.program self.now.room self.now.core task others.now }
    {
        match self.tasks.as_slice().get(task as usize) {
            Some(state) => are_among(state.known.as_slice(), others),
            None => false,
        }
    }

    /// Whether a task may start another: it is running while no change is open, there is a number for the new task, the place is
    /// one of the program, and it has seen the world and knows the tasks of the start.
    fn may_spawn(&self, alloc: Global, task: u32, start: &Start) -> Result<bool, AllocError>
        ensures { IfOk result (λ yes. IsTrue yes ↔ CanSpawn self.now.program self.now.room self.now.core task start.now) }
    {
        if !self.is_free(task) {
            return Ok(false);
        }
        if self.tasks.len() >= MOST_TASKS {
            return Ok(false);
        }
        if start.spawn as usize >= self.program.spawns.len() {
            return Ok(false);
        }
        if !self.has_seen_world(task, start.world) {
            return Ok(false);
        }
        let others = in_start(alloc, start)?;
        Ok(self.knows_all(task, others.as_slice()))
    }

    /// Whether a task may end so: it is running while no change is open, its trace is true and in order and has its own events,
    /// and it knows the tasks of its outcome.
    fn may_end(
        &self,
        alloc: Global,
        ready: &Ready,
        task: u32,
        ended: &Record,
    ) -> Result<bool, AllocError>
        requires { ready.now ≡ self.now.program }
        ensures { IfOk result (λ yes. IsTrue yes ↔ CanEnd self.now.program self.now.room self.now.core task ended.now) }
    {
        if !self.is_free(task) {
            return Ok(false);
        }
        let events = self.events.as_slice();
        let trace = ended.trace.as_slice();
        let holds = has_true_trace(alloc, ready, events, task, trace)?;
        if !holds {
            return Ok(false);
        }
        if !has_own_events(events, task, trace) {
            return Ok(false);
        }
        let others = in_outcome(alloc, ended.outcome.get())?;
        Ok(self.knows_all(task, others.as_slice()))
    }

    /// Whether a task may fetch another: it is running, knows the other, which has ended, and no change is open.
    fn may_fetch(&self, task: u32, of: u32) -> bool
        ensures { IsTrue result ↔ CanFetch self.now.program self.now.room self.now.core task of }
    {
        if !self.knows(task, of) {
            return false;
        }
        match done_of(self.events.as_slice(), of) {
            Some(_) => self.is_free(task),
            None => false,
        }
    }

    /// Whether a step is enabled, whichever it is.
    pub fn enabled(&self, alloc: Global, ready: &Ready, step: &Step) -> Result<bool, AllocError>
        requires { ready.now ≡ self.now.program }
        ensures { IfOk result (λ yes. IsTrue yes ↔ MayMake self.now step.now) }
    {
        match step {
            Step::Look { task } => Ok(self.is_running(*task)),
            Step::Key { task, key } => {
                let yes = self.may_name(alloc, ready, *task, key)?;
                Ok(yes)
            }
            Step::Head { task, key, world } => Ok(self.may_search(*task, *key, *world)),
            Step::Row { task } => Ok(self.may_read(*task)),
            Step::Fill { task, key, world } => {
                let yes = self.may_fill(alloc, ready, *task, *key, *world)?;
                Ok(yes)
            }
            Step::Open { task, change } => {
                let yes = self.may_open(alloc, ready, *task, *change)?;
                Ok(yes)
            }
            Step::Cut { row } => {
                let yes = self.may_cut(alloc, ready, *row)?;
                Ok(yes)
            }
            Step::Publish => {
                let yes = self.may_publish(alloc, ready)?;
                Ok(yes)
            }
            Step::Spawn { task, start } => {
                let yes = self.may_spawn(alloc, *task, start)?;
                Ok(yes)
            }
            Step::Done { task, ended } => {
                let yes = self.may_end(alloc, ready, *task, ended)?;
                Ok(yes)
            }
            Step::Fetch { task, of } => Ok(self.may_fetch(*task, *of)),
        }
    }
}
