//! A dispatcher that leads a task along a trace.

ghost use Rattle.std.specs.Prelude.{◌≡◌, ◌<◌, ◌≤◌, ◌↔◌, ◌++◌, [], ◌∷◌, IsTrue, OnOk, OnErr, None, drop, length, true, false};
ghost use Rattle.jl_model.specs.declared.limits.TheConstants.{MOST_WORLDS};
ghost use Rattle.jl_program.specs.declared.value.Value.TheVariants.{Nothing};
ghost use Rattle.jl_calculus.specs.declared.history.Outcome.TheVariants as O;
ghost use Rattle.jl_calculus.specs.Past.{done_of};
ghost use Rattle.jl_calculus.specs.ValidHistory.{IsValidOutcome};
ghost use Rattle.jl_calculus.specs.World.{world_of};
ghost use Rattle.jl_lead.specs.Items.{next_item, world_full_of, task_full_of, absent_of, is_absence, IsNoFetch};
ghost use Rattle.jl_lead.specs.Known.{IsPlain, IsStartAmong};
ghost use Rattle.jl_lead.specs.Leads.{IsPlaced};
ghost use Rattle.jl_lead.specs.Stretch.{IsLeft, IsLeft-prop, IsStretch};

use crate::next::{
    Fetched, is_absence_next, next_absent, next_fetch, next_look, next_task_full, next_world_full,
    nothing_done,
};
use crate::past::Past;
use jl_calculus::history::{
    Change, DefineFault, DeleteFault, Event, FetchFault, Outcome, Record, Seen, SpawnFault,
    TraceItem,
};
use jl_model::limits::{MOST_TASKS, MOST_WORLDS};
use jl_model::shared::SharedNode;
use jl_model::ty::{Key, Tys};
use jl_program::choice::Choice;
use jl_program::tree::Start;
use jl_program::value::Value;
use jl_task::{Dispatcher, Recall, Recalled};
use std::alloc::{AllocError, Global};

/// A task that is led over the events so far. As long as what it asks is answered by the item that stands next, it is told this item. It
/// goes on alone from where it asks something else, or more: what it makes then is added to the events, and its looks see all of them.
#[derive(Drop)]
pub struct Led<'p> {
    pub past: Past<'p>,
    pub task: u32,
    pub items: Vec<TraceItem>,
    pub told: usize,
    pub seen: u32,
    pub looks: u64,
    pub alone: bool,
    ghost placed: { IsPlaced past.1 task seen },
    ghost left: { IsLeft past.0 alone past.1 seen (drop told items.items) } by { IsLeft-prop past.0 alone past.1 seen (drop told items.items) },
}

impl<'p> Led<'p> {
    /// Nobody is led yet.
    pub fn new(alloc: Global, past: Past<'p>) -> Led<'p>
        ensures past { result.past ≡ past.entry }
        ensures alone { result.alone ≡ true }
    {
        let seen = past.len();
        Led {
            past,
            task: 0,
            items: Vec::new(alloc),
            told: 0,
            seen,
            looks: 0,
            alone: true,
        }
    }

    /// Leads a task on that has seen so many events and looked so often: these items stand next.
    pub fn turn_to(&mut self, task: u32, seen: u32, looks: u64, items: Vec<TraceItem>)
        requires placed { IsPlaced self.old.past.1 task seen }
        requires stretch { IsStretch self.old.past.0 self.old.past.1 seen items.items }
        ensures past { self.new.past ≡ self.old.past }
        ensures task { self.new.task ≡ task }
        ensures seen { self.new.seen ≡ seen }
        ensures looks { self.new.looks ≡ looks }
        ensures left { drop self.new.told self.new.items.items ≡ items.items }
        ensures here { self.new.alone ≡ false }
    {
        self.task = task;
        self.seen = seen;
        self.looks = looks;
        self.items = items;
        self.told = 0;
        self.alone = false;
    }

    /// Whether some of the items are left.
    pub fn has_items(&self) -> bool
        ensures { IsTrue result ↔ (self.now.told < length self.now.items.items) }
    {
        let items = self.items.as_slice();
        self.told < items.len()
    }

    /// An event that makes nothing. Nobody is led after it.
    pub fn note(&mut self, event: Event) -> Result<(), AllocError>
        requires { IsPlain event }
        ensures added { OnOk result (self.new.past ≡ (self.old.past.0, self.old.past.1 ++ event ∷ [])) }
        ensures refused { OnErr result (self.new.past ≡ self.old.past) }
    {
        self.alone = true;
        let noted = self.past.note(event);
        self.seen = self.past.len();
        noted
    }

    /// The end of a task. Nobody is led after it.
    pub fn end(&mut self, task: u32, ended: Record) -> Result<(), AllocError>
        requires { IsValidOutcome self.old.past.0 ended.outcome }
        ensures added { OnOk result (self.new.past ≡ (self.old.past.0, self.old.past.1 ++ Event.Done task ended ∷ [])) }
        ensures refused { OnErr result (self.new.past ≡ self.old.past) }
    {
        self.alone = true;
        let noted = self.past.end(task, ended);
        self.seen = self.past.len();
        noted
    }
}

impl Led<'_> {
    ghost use Rattle.jl_lead.specs.Led.{knows_of};
    ghost use Rattle.jl_lead.specs.Answers.{AnswersDefinition, AnswersDeletion, AnswersSpawn, AnswersFetch};

    /// Whether a definition or a deletion that does not stand next is refused, since the world is full. It is made, as one too many, where it
    /// stands next that there is nothing to delete: a full world could be told there in the place of that, and so it would not be seen
    /// what was asked.
    fn is_full(&self) -> bool
        ensures full { IsTrue result → (world_of self.now.past.1 ≡ MOST_WORLDS) × (is_absence (next_item self.now.alone self.now.items.items self.now.told) ≡ false) }
        ensures room { result ≡ false → world_of self.now.past.1 ≡ MOST_WORLDS → is_absence (next_item self.now.alone self.now.items.items self.now.told) ≡ true }
    {
        let world = self.past.world();
        if world as usize != MOST_WORLDS {
            return false;
        }
        let is_absence = is_absence_next(self.alone, self.items.as_slice(), self.told);
        !is_absence
    }

    /// A definition that does not stand next as one that is refused: it is made, unless the world is full or another event was made.
    fn make_definition(&mut self, site: u32) -> Result<u32, DefineFault>
        requires site { site < length self.old.past.0.sites }
        requires next { world_full_of (next_item self.old.alone self.old.items.items self.old.told) ≡ None }
        ensures { AnswersDefinition (knows_of self.old) (knows_of self.new) site result }
    {
        if self.is_full() {
            self.alone = true;
            self.seen = self.past.len();
            return Err(DefineFault::WorldLimit);
        }
        if self.alone {
            return Err(DefineFault::Memory);
        }
        match self.past.make(self.task, Change::Def(site)) {
            Ok(()) => {
                self.alone = true;
                self.seen = self.past.len();
                Ok(self.past.world())
            }
            Err(_) => Err(DefineFault::Memory),
        }
    }

    /// A definition: it stands next as one that is refused, or is made.
    fn answer_definition(&mut self, site: u32) -> Result<u32, DefineFault>
        requires { site < length self.old.past.0.sites }
        ensures { AnswersDefinition (knows_of self.old) (knows_of self.new) site result }
    {
        match next_world_full(self.alone, self.items.as_slice(), self.told) {
            Some(at) => {
                self.told += 1;
                self.seen = at;
                Err(DefineFault::WorldLimit)
            }
            None => self.make_definition(site),
        }
    }

    /// A deletion that does not stand next as one that is refused or finds nothing: it is made, unless the world is full or another event
    /// was made. Whether there is something to delete is not asked: a task that is answered so has departed from its trace.
    fn make_deletion(&mut self, place: u32) -> Result<u32, DeleteFault>
        requires place { place < length self.old.past.0.deletes }
        requires next { world_full_of (next_item self.old.alone self.old.items.items self.old.told) ≡ None }
        requires there { absent_of place (next_item self.old.alone self.old.items.items self.old.told) ≡ None }
        ensures { AnswersDeletion (knows_of self.old) (knows_of self.new) place result }
    {
        if self.is_full() {
            self.alone = true;
            self.seen = self.past.len();
            return Err(DeleteFault::WorldLimit);
        }
        if self.alone {
            return Err(DeleteFault::Memory);
        }
        match self.past.make(self.task, Change::Del(place)) {
            Ok(()) => {
                self.alone = true;
                self.seen = self.past.len();
                Ok(self.past.world())
            }
            Err(_) => Err(DeleteFault::Memory),
        }
    }

    /// A deletion that does not stand next as one that is refused: it stands next as one that finds nothing, or is made.
    fn find_deletion(&mut self, place: u32) -> Result<u32, DeleteFault>
        requires place { place < length self.old.past.0.deletes }
        requires next { world_full_of (next_item self.old.alone self.old.items.items self.old.told) ≡ None }
        ensures { AnswersDeletion (knows_of self.old) (knows_of self.new) place result }
    {
        match next_absent(self.alone, self.items.as_slice(), self.told, place) {
            Some(at) => {
                self.told += 1;
                self.seen = at;
                Err(DeleteFault::NoSuchMethod)
            }
            None => self.make_deletion(place),
        }
    }

    /// A deletion: it stands next as one that is refused, or not.
    fn answer_deletion(&mut self, place: u32) -> Result<u32, DeleteFault>
        requires { place < length self.old.past.0.deletes }
        ensures { AnswersDeletion (knows_of self.old) (knows_of self.new) place result }
    {
        match next_world_full(self.alone, self.items.as_slice(), self.told) {
            Some(at) => {
                self.told += 1;
                self.seen = at;
                Err(DeleteFault::WorldLimit)
            }
            None => self.find_deletion(place),
        }
    }

    /// A spawn that does not stand next as one that is refused: the task is started, unless there is no room or another event was made.
    fn make_task(&mut self, start: Start) -> Result<u32, SpawnFault>
        requires start { IsStartAmong self.old.past.0 self.old.past.1 start }
        requires next { task_full_of (next_item self.old.alone self.old.items.items self.old.told) ≡ None }
        ensures { AnswersSpawn (knows_of self.old) (knows_of self.new) start result }
    {
        let child = self.past.tasks();
        if child as usize >= MOST_TASKS {
            drop(start);
            self.alone = true;
            self.seen = self.past.len();
            return Err(SpawnFault::TaskLimit);
        }
        if self.alone {
            drop(start);
            return Err(SpawnFault::Memory);
        }
        match self.past.spawn(self.task, start) {
            Ok(()) => {
                self.alone = true;
                self.seen = self.past.len();
                Ok(child)
            }
            Err(_) => Err(SpawnFault::Memory),
        }
    }

    /// A spawn: it stands next as one that is refused, or the task is started.
    fn answer_spawn(&mut self, start: Start) -> Result<u32, SpawnFault>
        requires { IsStartAmong self.old.past.0 self.old.past.1 start }
        ensures { AnswersSpawn (knows_of self.old) (knows_of self.new) start result }
    {
        match next_task_full(self.alone, self.items.as_slice(), self.told) {
            Some(at) => {
                drop(start);
                self.told += 1;
                self.seen = at;
                Err(SpawnFault::TaskLimit)
            }
            None => self.make_task(start),
        }
    }

    /// A task that has not ended ends so, and its outcome is answered.
    fn end_with(
        &mut self,
        task: u32,
        ended: Record,
        outcome: SharedNode<Outcome>,
    ) -> Result<SharedNode<Outcome>, FetchFault>
        requires here { self.old.alone ≡ false }
        requires running { done_of task self.old.past.1 ≡ None }
        requires next { IsNoFetch (next_item self.old.alone self.old.items.items self.old.told) task }
        requires nothing { ended.outcome ≡ O.Value Nothing }
        requires same { outcome ≡ ended.outcome }
        ensures { AnswersFetch (knows_of self.old) (knows_of self.new) task result }
    {
        match self.past.end(task, ended) {
            Ok(()) => {
                self.alone = true;
                self.seen = self.past.len();
                Ok(outcome)
            }
            Err(_) => Err(FetchFault::Memory),
        }
    }

    /// A fetch of a task that has not ended and does not stand next: the task ends with `nothing`, unless another event was made.
    fn make_end(&mut self, task: u32) -> Result<SharedNode<Outcome>, FetchFault>
        requires running { done_of task self.old.past.1 ≡ None }
        requires next { IsNoFetch (next_item self.old.alone self.old.items.items self.old.told) task }
        ensures { AnswersFetch (knows_of self.old) (knows_of self.new) task result }
    {
        if self.alone {
            return Err(FetchFault::Memory);
        }
        let Ok((ended, outcome)) = nothing_done(self.past.alloc()) else {
            return Err(FetchFault::Memory);
        };
        self.end_with(task, ended, outcome)
    }

    /// A fetch that does not stand next.
    fn fetch_alone(&mut self, task: u32) -> Result<SharedNode<Outcome>, FetchFault>
        requires { IsNoFetch (next_item self.old.alone self.old.items.items self.old.told) task }
        ensures { AnswersFetch (knows_of self.old) (knows_of self.new) task result }
    {
        match self.past.outcome(task) {
            Ok(found) => match found {
                Some(outcome) => {
                    self.alone = true;
                    self.seen = self.past.len();
                    Ok(outcome)
                }
                None => self.make_end(task),
            },
            Err(_) => Err(FetchFault::Memory),
        }
    }

    /// A fetch: it stands next, or not.
    fn answer_fetch(&mut self, task: u32) -> Result<SharedNode<Outcome>, FetchFault>
        ensures { AnswersFetch (knows_of self.old) (knows_of self.new) task result }
    {
        self.past.sound();
        match next_fetch(self.alone, self.items.as_slice(), self.told, task) {
            Ok(found) => match found {
                Some(fetched) => {
                    let Fetched { outcome, at } = fetched;
                    self.told += 1;
                    self.seen = at;
                    Ok(outcome)
                }
                None => self.fetch_alone(task),
            },
            Err(_) => Err(FetchFault::Memory),
        }
    }
}

impl Dispatcher for Led<'_> {
    ghost use Rattle.jl_lead.specs.Led.{knows_of};

    ghost knows = { knows_of };

    fn newest(&mut self) -> Seen {
        self.looks += 1;
        match next_look(self.alone, self.items.as_slice(), self.told) {
            Some(seen) => {
                self.told += 1;
                self.seen = seen.length;
                seen
            }
            None => {
                let world = self.past.world();
                let length = self.past.len();
                self.alone = true;
                self.seen = length;
                Seen { world, length }
            }
        }
    }

    fn select(&mut self, key: Key, world: u32) -> Result<Choice, AllocError> {
        self.past.choose(&key, world)
    }

    fn site(&self, definition: u32) -> u32 {
        self.past.site(definition)
    }

    fn define(&mut self, site: u32) -> Result<u32, DefineFault> {
        self.answer_definition(site)
    }

    fn delete(&mut self, place: u32) -> Result<u32, DeleteFault> {
        self.answer_deletion(place)
    }

    fn spawn(&mut self, start: Start) -> Result<u32, SpawnFault> {
        self.answer_spawn(start)
    }

    /// Where it goes on alone and the task has not ended, it is told that the task ends then, with `nothing`.
    fn fetched(&mut self, task: u32) -> Result<SharedNode<Outcome>, FetchFault> {
        self.answer_fetch(task)
    }

    fn seen(&self) -> u32 {
        self.seen
    }
}

impl Recall for Led<'_> {
    fn recall(&self, function: u32, values: &[Value], world: u32) -> Option<Recalled<'_>> {
        None
    }

    fn recall_numbers(&self, function: u32, world: u32) -> Option<u32> {
        None
    }

    fn keep(&mut self, key: Key, world: u32, site: u32, statics: Tys) {
        drop(key);
        drop(statics);
    }
}
