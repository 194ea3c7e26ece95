//! What the first round knows of the entries that it has looked at, and the first cause that holds of the next one.

ghost use Rattle.std.specs.Prelude.{◌≡◌, ◌<◌, ◌↔◌, ◌∷◌, [], ℕ, List, IsTrue, IfOk, length, false, take};
ghost use Rattle.jl_program.specs.declared.tree.Program.{Program};
ghost use Rattle.jl_calculus.specs.declared.history.Event.{Event};
ghost use Rattle.jl_calculus.specs.declared.history.Event.TheVariants.{Begin};
ghost use Rattle.jl_report.specs.declared.entry.Ending.{Ending};
ghost use Rattle.jl_report.specs.declared.entry.Entry.{Entry};
ghost use Rattle.jl_report.specs.declared.entry.Entry.TheVariants as E;
ghost use Rattle.jl_causes.specs.Causes.{has_end, is_begin, IsScriptSite};
ghost use Rattle.jl_causes.specs.Sketch.{AllTell};
ghost use Rattle.jl_causes.specs.State.{IsJudgeOf};
ghost use Rattle.jl_causes.specs.Judged.{IsJudged, IsReadAs, IsKeyIn};

use crate::cause::Cause;
use crate::finished::find_finished;
use crate::places::Places;
use crate::rows::Rows;
use crate::tasks::Tasks;
use crate::trace::{has_own_events, has_true_trace};
use jl_model::limits::{MOST_CACHE_KEYS, MOST_TASKS, MOST_WORLDS};
use jl_model::ty::Key;
use jl_program::prelude::PRELUDE_SITES;
use jl_report::{Entry, Step};
use jl_sig::Ready;
use std::alloc::{AllocError, Global};

/// The tables of the entries so far, and which tasks end somewhere in the text.
#[derive(Drop)]
pub(crate) struct Judge {
    pub(crate) rows: Rows,
    pub(crate) tasks: Tasks,
    pub(crate) places: Places,
    finished: Vec<bool>,
}

/// Whether a site is one of the script.
fn is_script_site(ready: &Ready, site: u32) -> bool
    ensures { IsTrue result ↔ IsScriptSite ready.now site }
{
    site >= PRELUDE_SITES && (site as usize) < ready.program().sites.len()
}

impl Judge {
    /// What is known after the beginning.
    pub(crate) fn new(alloc: Global, ready: &Ready, entries: &[Entry]) -> Result<Judge, AllocError>
        ensures { IfOk result (λ judge. (fuel : ℕ) → IsJudgeOf ready.now entries.now (Begin fuel ∷ []) judge) }
    {
        Ok(Judge {
            rows: Rows::new(alloc, ready, entries)?,
            tasks: Tasks::new(alloc)?,
            places: Places::new(alloc)?,
            finished: find_finished(alloc, entries)?,
        })
    }

    /// Whether a task ends somewhere in the text.
    pub(crate) fn is_finished(&self, task: u32) -> bool
        requires { task < length self.now.finished.items }
        ensures { (P : Program) (all : List Entry) (es : List Event) → IsJudgeOf P all es self.now → result ≡ has_end all task }
    {
        self.finished[task as usize]
    }

    /// The first cause that holds of a key, where this is the key that its texts name.
    fn judge_key(&self, number: u32, key: &Option<Key>) -> Option<Cause>
        requires { (P : Program) × (all : List Entry) × (es : List Event) × IsJudgeOf P all es self.now }
        ensures { (P : Program) (all : List Entry) (es : List Event) (function tuple : List ℕ) → IsJudgeOf P all es self.now → IsReadAs P function tuple key.now → IsJudged P all es (E.Key number function tuple) result }
    {
        let keys = self.rows.keys();
        if number != keys {
            return Some(Cause::KeyOrder);
        }
        if keys as usize >= MOST_CACHE_KEYS {
            return Some(Cause::KeyOrder);
        }
        match key {
            None => Some(Cause::KeyUnknown),
            Some(key) => {
                if self.rows.has_key(key) {
                    return Some(Cause::KeyOrder);
                }
                None
            }
        }
    }

    /// The first cause that holds of a fill.
    fn judge_fill(
        &self,
        alloc: Global,
        ready: &Ready,
        key: u32,
        site: u32,
        first: u32,
    ) -> Result<Option<Cause>, AllocError>
        requires { (all : List Entry) × (es : List Event) × IsJudgeOf ready.now all es self.now }
        ensures { IfOk result (λ found. (all : List Entry) (es : List Event) → IsJudgeOf ready.now all es self.now → IsJudged ready.now all es (E.Fill key site first) found) }
    {
        if !self.rows.is_next_fill(key, first) {
            return Ok(Some(Cause::FillKey));
        }
        if !self.rows.begins_right(key, first) {
            return Ok(Some(Cause::FillWorld));
        }
        if !self.rows.chooses_right(alloc, ready, key, site, first)? {
            return Ok(Some(Cause::FillChoice));
        }
        Ok(None)
    }

    /// The first cause that holds of a definition.
    fn judge_def(&self, ready: &Ready, task: u32, site: u32) -> Option<Cause>
        ensures { (all : List Entry) (es : List Event) → IsJudgeOf ready.now all es self.now → IsJudged ready.now all es (E.Def task site) result }
    {
        if !self.tasks.is_running(task) {
            return Some(Cause::NotRunning);
        }
        if !is_script_site(ready, site) {
            return Some(Cause::Site);
        }
        let world = self.places.newest().world;
        if world as usize >= MOST_WORLDS {
            return Some(Cause::Limit);
        }
        None
    }

    /// The first cause that holds of a deletion.
    fn judge_del(
        &self,
        alloc: Global,
        ready: &Ready,
        task: u32,
        place: u32,
    ) -> Result<Option<Cause>, AllocError>
        ensures { IfOk result (λ found. (all : List Entry) (es : List Event) → IsJudgeOf ready.now all es self.now → IsJudged ready.now all es (E.Del task place) found) }
    {
        if !self.tasks.is_running(task) {
            return Ok(Some(Cause::NotRunning));
        }
        let count = ready.program().deletes.len();
        if place as usize >= count {
            return Ok(Some(Cause::Site));
        }
        let world = self.places.newest().world;
        let has_method = self.rows.has_method_in(alloc, ready, place, world)?;
        if !has_method {
            return Ok(Some(Cause::NoDefinition));
        }
        if world as usize >= MOST_WORLDS {
            return Ok(Some(Cause::Limit));
        }
        Ok(None)
    }

    /// The first cause that holds of a spawn.
    fn judge_spawn(&self, ready: &Ready, task: u32, child: u32, place: u32) -> Option<Cause>
        requires { (all : List Entry) × (es : List Event) × IsJudgeOf ready.now all es self.now }
        ensures { (all : List Entry) (es : List Event) → IsJudgeOf ready.now all es self.now → IsJudged ready.now all es (E.Spawn task child place) result }
    {
        if !self.tasks.is_running(task) {
            return Some(Cause::NotRunning);
        }
        let count = ready.program().spawns.len();
        if place as usize >= count {
            return Some(Cause::Site);
        }
        let tasks = self.places.newest().tasks;
        if child != tasks {
            return Some(Cause::ChildOrder);
        }
        if tasks as usize >= MOST_TASKS {
            return Some(Cause::Limit);
        }
        if !self.is_finished(child) {
            return Some(Cause::Unfinished);
        }
        None
    }

    /// The first cause that holds of the end of a task.
    fn judge_done(
        &self,
        alloc: Global,
        ready: &Ready,
        entries: &[Entry],
        task: u32,
        trace: &[Step],
    ) -> Result<Option<Cause>, AllocError>
        requires { (es : List Event) × IsJudgeOf ready.now entries.now es self.now }
        ensures { IfOk result (λ found. (es : List Event) (calls : ℕ) (output : List ℕ) (ending : Ending) → IsJudgeOf ready.now entries.now es self.now → AllTell ready.now (take (length es) entries.now) es → IsJudged ready.now entries.now es (E.Done task calls trace.now output ending) found) }
    {
        if !self.tasks.is_running(task) {
            return Ok(Some(Cause::NotRunning));
        }
        let has_true_trace = has_true_trace(alloc, ready, self, entries, task, trace)?;
        if !has_true_trace {
            return Ok(Some(Cause::ItemFalse));
        }
        if !has_own_events(&self.tasks, task, trace) {
            return Ok(Some(Cause::EventMissing));
        }
        Ok(None)
    }

    /// The first cause that holds of an entry past the beginning; where it is one of a key, this is the key that its texts name.
    pub(crate) fn find_cause(
        &self,
        alloc: Global,
        ready: &Ready,
        entries: &[Entry],
        entry: &Entry,
        key: &Option<Key>,
    ) -> Result<Option<Cause>, AllocError>
        requires { (es : List Event) × IsJudgeOf ready.now entries.now es self.now }
        ensures { IfOk result (λ found. (es : List Event) → IsJudgeOf ready.now entries.now es self.now → AllTell ready.now (take (length es) entries.now) es → is_begin entry.now ≡ false → IsKeyIn ready.now entry.now key.now → IsJudged ready.now entries.now es entry.now found) }
    {
        match entry {
            Entry::Begin(_) => Ok(None),
            Entry::Key { number, .. } => Ok(self.judge_key(*number, key)),
            Entry::Fill { key, site, first } => {
                let found = self.judge_fill(alloc, ready, *key, *site, *first)?;
                Ok(found)
            }
            Entry::Def { task, site } => Ok(self.judge_def(ready, *task, *site)),
            Entry::Del { task, place } => {
                let found = self.judge_del(alloc, ready, *task, *place)?;
                Ok(found)
            }
            Entry::Spawn { task, child, place } => {
                Ok(self.judge_spawn(ready, *task, *child, *place))
            }
            Entry::Done { task, trace, .. } => {
                let found = self.judge_done(alloc, ready, entries, *task, trace.as_slice())?;
                Ok(found)
            }
        }
    }
}
