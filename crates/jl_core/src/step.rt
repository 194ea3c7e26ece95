//! The steps of the model. Each takes its memory first, so that without memory the state stays as it was.

ghost use Rattle.std.specs.Prelude.{◌≡◌, OnOk, OnErr};
ghost use Rattle.jl_calculus.specs.declared.step.Step.TheVariants as St;
ghost use Rattle.jl_core.specs.Reached.{IsReached};
ghost use Rattle.jl_core.specs.State.{MayMake, Makes};

use crate::events::{done_of, fill_length, key_at, world_length, world_of};
use crate::mention::{in_outcome, in_start};
use crate::range::range_of;
use crate::state::{Core, Opening};
use crate::task::{Search, Task, add_event, begin_search, last_search, learn, see};
use crate::words::{Words, after_row, go_to, link_of};
use jl_calculus::history::{Change, Event, Record};
use jl_calculus::step::Step;
use jl_model::ty::Key;
use jl_program::tree::Start;
use jl_sig::Ready;
use std::alloc::{AllocError, Global};

impl Core {
    /// A task looks at the newest world.
    fn look(&mut self, task: u32)
        requires { MayMake self.old (St.Look task) }
        ensures { Makes self.old (St.Look task) self.new }
    {
        let count = world_length(self.events.as_slice());
        see(&mut self.tasks, task, count);
    }

    /// A task names a key.
    fn name(&mut self, task: u32, key: Key) -> Result<(), AllocError>
        requires { MayMake self.old (St.Key task key) }
        ensures made { OnOk result (Makes self.old (St.Key task key) self.new) }
        ensures kept { OnErr result (self.new ≡ self.old) }
    {
        add_event(&mut self.events, &mut self.tasks, task, Event::Key(key))
    }

    /// A task begins the search of a key in a world.
    fn search(&mut self, task: u32, key: u32, world: u32)
        requires { MayMake self.old (St.Head task key world) }
        ensures { Makes self.old (St.Head task key world) self.new }
    {
        let count = fill_length(key, self.events.as_slice());
        let stand = go_to(link_of(self.words.as_slice(), key));
        see(&mut self.tasks, task, count);
        begin_search(&mut self.tasks, task, Search { key, world, stand });
    }

    /// A task reads the row at which its search is.
    fn read(&mut self, task: u32)
        requires { MayMake self.old (St.Row task) }
        ensures { Makes self.old (St.Row task) self.new }
    {
        let Some(last) = last_search(self.tasks.as_slice(), task) else {
            return;
        };
        let Some(row) = last.row() else {
            return;
        };
        let words = self.words[row as usize];
        begin_search(&mut self.tasks, task, after_row(last, words));
    }

    /// Opens a change.
    fn open(&mut self, task: u32, change: Change)
        requires { MayMake self.old (St.Open task change) }
        ensures { Makes self.old (St.Open task change) self.new }
    {
        self.cut.clear();
        self.opened = Some(Opening { task, change });
    }

    /// Cuts a row for the open change, at the present world.
    fn cut(&mut self, row: u32) -> Result<(), AllocError>
        requires { MayMake self.old (St.Cut row) }
        ensures made { OnOk result (Makes self.old (St.Cut row) self.new) }
        ensures kept { OnErr result (self.new ≡ self.old) }
    {
        let world = world_of(self.events.as_slice()) as u32;
        self.cut.push(row)?;
        let words = &mut self.words[row as usize];
        words.last = world;
        Ok(())
    }

    /// The open change makes its world.
    fn publish(&mut self) -> Result<(), AllocError>
        requires { MayMake self.old St.Publish }
        ensures made { OnOk result (Makes self.old St.Publish self.new) }
        ensures kept { OnErr result (self.new ≡ self.old) }
    {
        let Some(opening) = self.opened else {
            return Ok(());
        };
        let event = opening.change.event(opening.task);
        add_event(&mut self.events, &mut self.tasks, opening.task, event)?;
        self.opened = None;
        Ok(())
    }

    /// A task starts another, which knows the tasks that its start mentions.
    fn spawn(&mut self, alloc: Global, task: u32, start: Start) -> Result<(), AllocError>
        requires { MayMake self.old (St.Spawn task start) }
        ensures made { OnOk result (Makes self.old (St.Spawn task start) self.new) }
        ensures kept { OnErr result (self.new ≡ self.old) }
    {
        let known = in_start(alloc, &start)?;
        self.tasks.reserve(1)?;
        self.events.reserve(1)?;
        let child = self.tasks.len() as u32;
        learn(&mut self.tasks, task, &[child])?;
        self.events
            .push_reserved(Event::Spawn { task, child, start });
        let seen = self.events.len();
        see(&mut self.tasks, task, seen);
        self.tasks.push_reserved(Task {
            seen,
            known,
            search: None,
        });
        Ok(())
    }

    /// A task fetches the outcome of another, and knows the tasks that it mentions.
    fn fetch(&mut self, alloc: Global, task: u32, of: u32) -> Result<(), AllocError>
        requires { MayMake self.old (St.Fetch task of) }
        ensures made { OnOk result (Makes self.old (St.Fetch task of) self.new) }
        ensures kept { OnErr result (self.new ≡ self.old) }
    {
        let Some(ended) = done_of(self.events.as_slice(), of) else {
            return Ok(());
        };
        let others = in_outcome(alloc, ended.outcome.get())?;
        learn(&mut self.tasks, task, others.as_slice())?;
        see(&mut self.tasks, task, self.events.len());
        Ok(())
    }

    /// A task makes a row of a key that covers a world.
    fn fill(
        &mut self,
        alloc: Global,
        ready: &Ready,
        task: u32,
        key: u32,
        world: u32,
    ) -> Result<(), AllocError>
        requires program { ready.now ≡ self.old.program }
        requires enabled { MayMake self.old (St.Fill task key world) }
        ensures made { OnOk result (Makes self.old (St.Fill task key world) self.new) }
        ensures kept { OnErr result (self.new ≡ self.old) }
    {
        let Some(named) = key_at(self.events.as_slice(), key) else {
            return Ok(());
        };
        let found = range_of(alloc, ready, self.events.as_slice(), named, world)?;
        let Some(range) = found else {
            return Ok(());
        };
        self.words.reserve(1)?;
        let next = link_of(self.words.as_slice(), key);
        add_event(
            &mut self.events,
            &mut self.tasks,
            task,
            Event::Fill {
                key,
                site: range.site,
                first: range.first,
            },
        )?;
        self.words.push_reserved(Words {
            key,
            site: range.site,
            first: range.first,
            last: range.last,
            next,
        });
        Ok(())
    }

    /// A task ends.
    fn end(&mut self, task: u32, ended: Record) -> Result<(), AllocError>
        requires { MayMake self.old (St.Done task ended) }
        ensures made { OnOk result (Makes self.old (St.Done task ended) self.new) }
        ensures kept { OnErr result (self.new ≡ self.old) }
    {
        add_event(
            &mut self.events,
            &mut self.tasks,
            task,
            Event::Done { task, ended },
        )
    }

    /// Makes a step that is enabled, whichever it is.
    fn make(&mut self, alloc: Global, ready: &Ready, step: Step) -> Result<(), AllocError>
        requires program { ready.now ≡ self.old.program }
        requires enabled { MayMake self.old step }
        ensures made { OnOk result (Makes self.old step self.new) }
        ensures kept { OnErr result (self.new ≡ self.old) }
    {
        match step {
            Step::Look { task } => {
                self.look(task);
                Ok(())
            }
            Step::Key { task, key } => self.name(task, key),
            Step::Head { task, key, world } => {
                self.search(task, key, world);
                Ok(())
            }
            Step::Row { task } => {
                self.read(task);
                Ok(())
            }
            Step::Fill { task, key, world } => self.fill(alloc, ready, task, key, world),
            Step::Open { task, change } => {
                self.open(task, change);
                Ok(())
            }
            Step::Cut { row } => self.cut(row),
            Step::Publish => self.publish(),
            Step::Spawn { task, start } => self.spawn(alloc, task, start),
            Step::Done { task, ended } => self.end(task, ended),
            Step::Fetch { task, of } => self.fetch(alloc, task, of),
        }
    }

    /// Makes a step that is enabled. The one error is want of memory, and then all is as it was. The state that it leaves is one that
    /// enabled steps reach, so the laws of such states hold of it.
    pub fn step(&mut self, alloc: Global, ready: &Ready, step: Step) -> Result<(), AllocError>
        requires program { ready.now ≡ self.old.program }
        requires enabled { MayMake self.old step }
        ensures made { OnOk result (Makes self.old step self.new) }
        ensures kept { OnErr result (self.new ≡ self.old) }
        ensures reached { IsReached self.new.program self.new.room self.new.core }
    {
        let made = self.make(alloc, ready, step);
        self.reached();
        made
    }
}
