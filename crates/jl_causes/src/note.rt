//! Noting one more entry, of which no cause holds.

ghost use Rattle.std.specs.Prelude.{◌≡◌, ◌++◌, ◌∷◌, [], List, OnOk, length};
ghost use Rattle.jl_calculus.specs.declared.history.Event.{Event};
ghost use Rattle.jl_calculus.specs.declared.history.Event.TheVariants as Ev;
ghost use Rattle.jl_calculus.specs.declared.history.Record.{Record};
ghost use Rattle.jl_calculus.specs.Legal.{MayCome};
ghost use Rattle.jl_program.specs.declared.tree.Program.{Program};
ghost use Rattle.jl_program.specs.declared.tree.Start.{Start};
ghost use Rattle.jl_report.specs.declared.entry.Entry.{Entry};
ghost use Rattle.jl_causes.specs.Sketch.{Tells};
ghost use Rattle.jl_causes.specs.State.{IsJudgeOf};
ghost use Rattle.jl_causes.specs.Judged.{MayNote};

use crate::judge::Judge;
use crate::places::Counts;
use jl_model::ty::Key;
use jl_report::Entry;
use jl_sig::Ready;
use std::alloc::{AllocError, Global};

impl Judge {
    fn note_key(&mut self, alloc: Global, ready: &Ready, key: Key) -> Result<(), AllocError>
        requires { (all : List Entry) × (es : List Event) × IsJudgeOf ready.now all es self.old × MayCome ready.now es (Ev.Key key) }
        ensures { OnOk result ((all : List Entry) (es : List Event) → IsJudgeOf ready.now all es self.old → MayCome ready.now es (Ev.Key key) → IsJudgeOf ready.now all (es ++ Ev.Key key ∷ []) self.new) }
    {
        self.rows.note_key(alloc, ready, key)?;
        let counts = self.places.newest();
        self.places.note(counts)?;
        Ok(())
    }

    fn note_fill(
        &mut self,
        ready: &Ready,
        key: u32,
        site: u32,
        first: u32,
    ) -> Result<(), AllocError>
        requires { (all : List Entry) × (es : List Event) × IsJudgeOf ready.now all es self.old × MayCome ready.now es (Ev.Fill key site first) }
        ensures { OnOk result ((all : List Entry) (es : List Event) → IsJudgeOf ready.now all es self.old → MayCome ready.now es (Ev.Fill key site first) → IsJudgeOf ready.now all (es ++ Ev.Fill key site first ∷ []) self.new) }
    {
        self.rows.note_fill(ready, key, site, first)?;
        let counts = self.places.newest();
        self.places.note(counts)?;
        Ok(())
    }

    fn note_def(&mut self, ready: &Ready, task: u32, site: u32, at: u32) -> Result<(), AllocError>
        requires { (all : List Entry) × (es : List Event) × IsJudgeOf ready.now all es self.old × MayCome ready.now es (Ev.Def task site) }
        ensures { OnOk result ((all : List Entry) (es : List Event) → IsJudgeOf ready.now all es self.old → MayCome ready.now es (Ev.Def task site) → at ≡ length es → IsJudgeOf ready.now all (es ++ Ev.Def task site ∷ []) self.new) }
    {
        let old = self.places.newest();
        let world = old.world + 1;
        self.rows.note_def(ready, task, site, world)?;
        self.tasks.define(task, site, at)?;
        self.places.note(Counts {
            world,
            tasks: old.tasks,
        })?;
        Ok(())
    }

    fn note_del(
        &mut self,
        alloc: Global,
        ready: &Ready,
        task: u32,
        place: u32,
        at: u32,
    ) -> Result<(), AllocError>
        requires { (all : List Entry) × (es : List Event) × IsJudgeOf ready.now all es self.old × MayCome ready.now es (Ev.Del task place) }
        ensures { OnOk result ((all : List Entry) (es : List Event) → IsJudgeOf ready.now all es self.old → MayCome ready.now es (Ev.Del task place) → at ≡ length es → IsJudgeOf ready.now all (es ++ Ev.Del task place ∷ []) self.new) }
    {
        let old = self.places.newest();
        let world = old.world + 1;
        self.rows.note_del(alloc, ready, task, place, world)?;
        self.tasks.delete(task, place, at)?;
        self.places.note(Counts {
            world,
            tasks: old.tasks,
        })?;
        Ok(())
    }

    fn note_spawn(
        &mut self,
        alloc: Global,
        ready: &Ready,
        task: u32,
        child: u32,
        at: u32,
    ) -> Result<(), AllocError>
        requires { (all : List Entry) × (es : List Event) × (start : Start) × IsJudgeOf ready.now all es self.old × MayCome ready.now es (Ev.Spawn task child start) }
        ensures { OnOk result ((all : List Entry) (es : List Event) (start : Start) → IsJudgeOf ready.now all es self.old → MayCome ready.now es (Ev.Spawn task child start) → at ≡ length es → IsJudgeOf ready.now all (es ++ Ev.Spawn task child start ∷ []) self.new) }
    {
        ready.valid();
        self.tasks.spawn(alloc, task, child, at)?;
        let old = self.places.newest();
        self.places.note(Counts {
            world: old.world,
            tasks: old.tasks + 1,
        })?;
        Ok(())
    }

    fn note_done(&mut self, ready: &Ready, task: u32, at: u32) -> Result<(), AllocError>
        requires { (all : List Entry) × (es : List Event) × (ended : Record) × IsJudgeOf ready.now all es self.old × MayCome ready.now es (Ev.Done task ended) }
        ensures { OnOk result ((all : List Entry) (es : List Event) (ended : Record) → IsJudgeOf ready.now all es self.old → MayCome ready.now es (Ev.Done task ended) → at ≡ length es → IsJudgeOf ready.now all (es ++ Ev.Done task ended ∷ []) self.new) }
    {
        ready.valid();
        self.tasks.end(task, at);
        let counts = self.places.newest();
        self.places.note(counts)?;
        Ok(())
    }

    /// One more entry, of which no cause holds; where it is one of a key, this is the key that its texts name.
    pub(crate) fn note(
        &mut self,
        alloc: Global,
        ready: &Ready,
        at: u32,
        entry: &Entry,
        key: Option<Key>,
    ) -> Result<(), AllocError>
        requires { (all : List Entry) × (es : List Event) × MayNote ready.now all es self.old entry.now key }
        ensures { OnOk result ((all : List Entry) (es : List Event) → MayNote ready.now all es self.old entry.now key → at ≡ length es → (e : Event) × Tells ready.now entry.now e × IsJudgeOf ready.now all (es ++ e ∷ []) self.new) }
    {
        match entry {
            Entry::Begin(_) => Ok(()),
            Entry::Key { .. } => match key {
                Some(key) => {
                    self.note_key(alloc, ready, key)?;
                    Ok(())
                }
                None => Ok(()),
            },
            Entry::Fill { key, site, first } => {
                self.note_fill(ready, *key, *site, *first)?;
                Ok(())
            }
            Entry::Def { task, site } => {
                self.note_def(ready, *task, *site, at)?;
                Ok(())
            }
            Entry::Del { task, place } => {
                self.note_del(alloc, ready, *task, *place, at)?;
                Ok(())
            }
            Entry::Spawn { task, child, .. } => {
                self.note_spawn(alloc, ready, *task, *child, at)?;
                Ok(())
            }
            Entry::Done { task, .. } => {
                self.note_done(ready, *task, at)?;
                Ok(())
            }
        }
    }
}
