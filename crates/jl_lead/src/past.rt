//! The events of a run so far, and what a task asks of them.

ghost use Rattle.std.specs.Prelude.{ℕ, ◌≡◌, ◌+◌, ◌<◌, ◌≤◌, ◌++◌, [], ◌∷◌, IfOk, OnOk, OnErr, MatchOption, None, get_or, length, slice_get};
ghost use Rattle.jl_model.specs.declared.limits.TheConstants.{MOST_WORLDS, MOST_TASKS};
ghost use Rattle.jl_calculus.specs.Legal.{IsKeyOf};
ghost use Rattle.jl_calculus.specs.Past.{EndedSo, done_of, tasks_of};
ghost use Rattle.jl_calculus.specs.ValidHistory.{IsValidOutcome};
ghost use Rattle.jl_calculus.specs.World.{Selects, change_event, site_of, world_of};
ghost use Rattle.jl_methods.specs.Filters.{IsOfProgram};
ghost use Rattle.jl_lead.specs.Known.{AreEnds, AreSound, IsNoted, IsStartAmong, IsPlain, IsSpawnOf, IsNoSpawn};

use jl_calculus::history::{Change, Event, Outcome, Record};
use jl_choosing::{Changes, prelude_changes};
use jl_model::shared::SharedNode;
use jl_model::ty::Key;
use jl_program::choice::Choice;
use jl_program::tree::Start;
use jl_sig::Ready;
use std::alloc::{AllocError, Global};
use std::marker::Model;

/// No list of so many events is kept.
const MOST_EVENTS: usize = 4_294_967_294;

/// The events of a run so far, with the definitions and the deletions found by their functions and the ends by their tasks, so that
/// neither a choice nor a fetch walks over the events. Contracts see the program and the events.
///
/// There is room for one world more than a run may have: a task that departs from the trace that leads it may make it.
#[derive(Drop)]
pub struct Past<'p> {
    alloc: Global,
    changes: Changes<'p>,
    events: Vec<Event>,
    tasks: u32,
    ends: Vec<Option<u32>>,
}

impl<'p> Model for Past<'p> {
    ghost use Rattle.std.specs.Prelude.{List};
    ghost use Rattle.std.specs.Coded.{coded×, coded_list};
    ghost use Rattle.jl_program.specs.declared.tree.Program.{Program};
    ghost use Rattle.jl_program.specs.contracts.tree.Program as p;
    ghost use Rattle.jl_calculus.specs.declared.history.Event.{Event};
    ghost use Rattle.jl_calculus.specs.contracts.history.Event as e;
    ghost use Rattle.jl_lead.specs.Known.{IsKnownSo};

    ghost Value = { Program × List Event };

    ghost coded = { coded× p.the_row.coded (coded_list e.the_row.coded) };

    ghost view = { λ d. (d.changes.0, d.events.items) };

    ghost invariant = { λ d. IsKnownSo d.changes.0 d.changes.1 d.events.items d.tasks d.ends.items };
}

/// Keeps a place for the end of a task.
fn keep_place(ends: &mut Vec<Option<u32>>, task: u32) -> Result<(), AllocError>
    ensures place { OnOk result (task < length ends.new.items) }
    ensures same { (t : ℕ) → get_or ends.new.items t None ≡ get_or ends.old.items t None }
{
    let at = task as usize;
    if at < ends.len() {
        return Ok(());
    }
    ends.resize(at + 1, None)?;
    Ok(())
}

/// The end of a task stands at this place, unless it has ended before.
fn note_end(ends: &mut Vec<Option<u32>>, task: u32, place: u32) -> Result<(), AllocError>
    ensures noted { OnOk result (IsNoted task place ends.old.items ends.new.items) }
    ensures refused { OnErr result ((t : ℕ) → get_or ends.new.items t None ≡ get_or ends.old.items t None) }
{
    keep_place(ends, task)?;
    let at = task as usize;
    match ends[at] {
        Some(_) => Ok(()),
        None => {
            ends[at] = Some(place);
            Ok(())
        }
    }
}

/// What a task did, where it has ended.
fn record_of<'a>(events: &'a [Event], ends: &[Option<u32>], task: u32) -> Option<&'a Record>
    requires { AreEnds events.now ends.now }
    ensures { MatchOption result (done_of task events.now ≡ None) (λ ended. done_of task events.now ≡ Some ended.now) }
{
    if task as usize >= ends.len() {
        return None;
    }
    let Some(place) = ends[task as usize] else {
        return None;
    };
    match &events[place as usize] {
        Event::Done { ended, .. } => Some(ended),
        _ => unreachable!(),
    }
}

impl<'p> Past<'p> {
    /// No event yet.
    pub fn new(alloc: Global, ready: &'p Ready) -> Result<Past<'p>, AllocError>
        ensures { IfOk result (λ past. past ≡ (ready.now, [])) }
    {
        let changes = prelude_changes(alloc, ready)?;
        Ok(Past {
            alloc,
            changes,
            events: Vec::new(alloc),
            tasks: 1,
            ends: Vec::new(alloc),
        })
    }

    /// Where it takes its memory.
    pub(crate) fn alloc(&self) -> Global {
        self.alloc
    }

    /// How many events there are.
    pub fn len(&self) -> u32
        ensures { result ≡ length self.now.1 }
    {
        self.events.len() as u32
    }

    /// The newest world.
    pub fn world(&self) -> u32
        ensures exact { result ≡ world_of self.now.1 }
        ensures most { result ≤ MOST_WORLDS + 1 }
    {
        self.changes.all().len() as u32
    }

    /// How many tasks were started, the root among them.
    pub fn tasks(&self) -> u32
        ensures exact { result ≡ tasks_of self.now.1 }
        ensures most { result ≤ MOST_TASKS }
    {
        self.tasks
    }

    /// The events, in order.
    pub fn events(&self) -> &[Event]
        ensures { result.now ≡ self.now.1 }
    {
        self.events.as_slice()
    }

    /// That the outcomes and the starts of the events are valid, for proofs that rest on it. It does nothing.
    pub fn sound(&self)
        ensures { AreSound self.now.0 self.now.1 }
    {
        let _ = &self.events;
    }

    /// The start of the task that is spawned at a place.
    pub fn spawned(&self, place: u32) -> Option<&Start>
        ensures there { MatchOption result (IsNoSpawn (slice_get self.now.1 place)) (λ start. IsSpawnOf start.now (slice_get self.now.1 place)) }
        ensures among { MatchOption result (Unit {0}) (λ start. IsStartAmong self.now.0 self.now.1 start.now) }
    {
        match self.events.get(place as usize) {
            Some(Event::Spawn { start, .. }) => Some(start),
            _ => None,
        }
    }

    /// The site of a definition, and 0 for a deletion.
    pub fn site(&self, definition: u32) -> u32
        requires { (1 ≤ definition) × (definition ≤ world_of self.now.1) }
        ensures { result ≡ site_of self.now.1 definition }
    {
        match self.changes.all()[definition as usize - 1] {
            Change::Def(site) => site,
            Change::Del(_) => 0,
        }
    }

    /// The choice for a call in a world. In the newest, and again in an older one, the cost is in the sites of the function, and for those
    /// that apply in its deletion places, however often they were reached.
    pub fn choose(&mut self, key: &Key, world: u32) -> Result<Choice, AllocError>
        requires key { IsKeyOf self.old.0 key.now }
        requires world { world ≤ world_of self.old.1 }
        ensures choice { IfOk result (λ c. Selects self.old.0 self.old.1 key.now.function key.now.types world c) }
        ensures same { self.new ≡ self.old }
    {
        let choice = self.changes.choose(self.alloc, key, world)?;
        Ok(choice)
    }

    /// How a task ended, if it has.
    pub fn outcome(&self, task: u32) -> Result<Option<SharedNode<Outcome>>, AllocError>
        ensures ended { IfOk result (λ found. MatchOption found (done_of task self.now.1 ≡ None) (EndedSo (done_of task self.now.1))) }
        ensures valid { IfOk result (λ found. MatchOption found (Unit {0}) (IsValidOutcome self.now.0)) }
    {
        let events = self.events.as_slice();
        let ends = self.ends.as_slice();
        match record_of(events, ends, task) {
            Some(ended) => {
                let outcome = ended.outcome.copy()?;
                Ok(Some(outcome))
            }
            None => Ok(None),
        }
    }

    /// A definition or a deletion, by a task.
    pub fn make(&mut self, task: u32, change: Change) -> Result<(), AllocError>
        requires change { IsOfProgram self.old.0 change }
        requires room { world_of self.old.1 ≤ MOST_WORLDS }
        ensures added { OnOk result (self.new ≡ (self.old.0, self.old.1 ++ change_event task change ∷ [])) }
        ensures refused { OnErr result (self.new ≡ self.old) }
    {
        if self.events.len() >= MOST_EVENTS {
            return Err(AllocError);
        }
        self.events.reserve(1)?;
        self.changes.push(change)?;
        self.events.push_reserved(change.event(task));
        Ok(())
    }

    /// The next task, from a start, by a task.
    pub fn spawn(&mut self, task: u32, start: Start) -> Result<(), AllocError>
        requires start { IsStartAmong self.old.0 self.old.1 start }
        requires room { tasks_of self.old.1 < MOST_TASKS }
        ensures added { OnOk result (self.new ≡ (self.old.0, self.old.1 ++ Event.Spawn task (tasks_of self.old.1) start ∷ [])) }
        ensures refused { OnErr result (self.new ≡ self.old) }
    {
        if self.events.len() >= MOST_EVENTS {
            drop(start);
            return Err(AllocError);
        }
        let child = self.tasks;
        self.events.push(Event::Spawn { task, child, start })?;
        self.tasks = child + 1;
        Ok(())
    }

    /// The end of a task.
    pub fn end(&mut self, task: u32, ended: Record) -> Result<(), AllocError>
        requires { IsValidOutcome self.old.0 ended.outcome }
        ensures added { OnOk result (self.new ≡ (self.old.0, self.old.1 ++ Event.Done task ended ∷ [])) }
        ensures refused { OnErr result (self.new ≡ self.old) }
    {
        if self.events.len() >= MOST_EVENTS {
            drop(ended);
            return Err(AllocError);
        }
        let before = self.events.len();
        self.events.push(Event::Done { task, ended })?;
        match note_end(&mut self.ends, task, before as u32) {
            Ok(()) => Ok(()),
            Err(error) => {
                self.events.truncate(before);
                Err(error)
            }
        }
    }

    /// An event that makes nothing.
    pub fn note(&mut self, event: Event) -> Result<(), AllocError>
        requires { IsPlain event }
        ensures added { OnOk result (self.new ≡ (self.old.0, self.old.1 ++ event ∷ [])) }
        ensures refused { OnErr result (self.new ≡ self.old) }
    {
        if self.events.len() >= MOST_EVENTS {
            drop(event);
            return Err(AllocError);
        }
        self.events.push(event)?;
        Ok(())
    }
}
