//! What the events tell of each task.

ghost use Rattle.std.specs.Prelude.{◌≡◌, ◌≤◌, ◌<◌, ◌+◌, ◌↔◌, ◌++◌, ◌∷◌, [], ℕ, List, IsTrue, IsSome, IfOk, OnOk, length, take};
ghost use Rattle.jl_calculus.specs.declared.history.Event.{Event};
ghost use Rattle.jl_calculus.specs.declared.history.Event.TheVariants.{Begin, Def as DefEvent, Del as DelEvent, Spawn as SpawnEvent, Done as DoneEvent};
ghost use Rattle.jl_calculus.specs.declared.history.Record.{Record};
ghost use Rattle.jl_calculus.specs.Legal.{IsRunning, first_place};
ghost use Rattle.jl_calculus.specs.Past.{done_of, own_events, tasks_of};
ghost use Rattle.jl_program.specs.declared.tree.Start.{Start};
ghost use Rattle.jl_causes.specs.Sketch.{items_of};
ghost use Rattle.jl_causes.specs.Tables.{AreTasks};

use jl_model::rows::Row;
use jl_report::Step;
use std::alloc::{AllocError, Global};

/// For each task the least place of its first item, the place after its end, which is 0 where it has none, and its definitions,
/// deletions and spawns.
#[derive(Drop)]
pub(crate) struct Tasks {
    firsts: Vec<usize>,
    ends: Vec<usize>,
    own: Vec<Row<Step>>,
}

impl Tasks {
    /// The root alone.
    pub(crate) fn new(alloc: Global) -> Result<Tasks, AllocError>
        ensures { IfOk result (λ tasks. (fuel : ℕ) → AreTasks (Begin fuel ∷ []) tasks) }
    {
        let mut firsts = Vec::new(alloc);
        firsts.push(1)?;
        let mut ends = Vec::new(alloc);
        ends.push(0)?;
        let mut own = Vec::new(alloc);
        own.push(Row::new(alloc))?;
        Ok(Tasks { firsts, ends, own })
    }

    /// Whether a task was started and has not ended.
    pub(crate) fn is_running(&self, task: u32) -> bool
        ensures { (es : List Event) → AreTasks es self.now → IsTrue result ↔ IsRunning es task }
    {
        match self.ends.as_slice().get(task as usize) {
            Some(end) => *end == 0,
            None => false,
        }
    }

    /// The least place of the first item of a task's trace.
    pub(crate) fn first(&self, task: u32) -> usize
        ensures { (es : List Event) → AreTasks es self.now → result ≡ first_place task 0 es }
    {
        match self.firsts.as_slice().get(task as usize) {
            Some(first) => *first,
            None => 1,
        }
    }

    /// Whether a task has ended among the first events, of which there are so many at least.
    pub(crate) fn has_ended(&self, task: u32, at: u32) -> bool
        ensures { (es : List Event) → AreTasks es self.now → at ≤ length es → IsTrue result ↔ IsSome (done_of task (take at es)) }
    {
        match self.ends.as_slice().get(task as usize) {
            Some(end) => *end != 0 && *end <= at as usize,
            None => false,
        }
    }

    /// The definitions, deletions and spawns of a task, in order.
    pub(crate) fn own(&self, task: u32) -> &[Step]
        ensures { (es : List Event) → AreTasks es self.now → items_of result.now ≡ own_events task 0 es }
    {
        match self.own.as_slice().get(task as usize) {
            Some(steps) => steps.as_slice(),
            None => &[],
        }
    }

    /// A task has made a definition of this site, at this place.
    pub(crate) fn define(&mut self, task: u32, site: u32, at: u32) -> Result<(), AllocError>
        requires { (es : List Event) × AreTasks es self.old × (task < tasks_of es) }
        ensures { OnOk result ((es : List Event) → AreTasks es self.old → at ≡ length es → AreTasks (es ++ DefEvent task site ∷ []) self.new) }
    {
        self.own[task as usize].push(Step::Def { site, at })?;
        Ok(())
    }

    /// A task has made a deletion at this place of the program, at this place of the events.
    pub(crate) fn delete(&mut self, task: u32, place: u32, at: u32) -> Result<(), AllocError>
        requires { (es : List Event) × AreTasks es self.old × (task < tasks_of es) }
        ensures { OnOk result ((es : List Event) → AreTasks es self.old → at ≡ length es → AreTasks (es ++ DelEvent task place ∷ []) self.new) }
    {
        self.own[task as usize].push(Step::Del { place, at })?;
        Ok(())
    }

    /// A task has started another, at this place.
    pub(crate) fn spawn(
        &mut self,
        alloc: Global,
        task: u32,
        child: u32,
        at: u32,
    ) -> Result<(), AllocError>
        requires { (es : List Event) × AreTasks es self.old × (task < tasks_of es) }
        ensures { OnOk result ((es : List Event) (start : Start) → AreTasks es self.old → at ≡ length es → child ≡ tasks_of es → AreTasks (es ++ SpawnEvent task child start ∷ []) self.new) }
    {
        self.own[task as usize].push(Step::Spawn { child, at })?;
        self.own.push(Row::new(alloc))?;
        self.firsts.push(at as usize + 1)?;
        self.ends.push(0)?;
        Ok(())
    }

    /// A running task has ended, at this place.
    pub(crate) fn end(&mut self, task: u32, at: u32)
        requires { (es : List Event) × AreTasks es self.old × (task < tasks_of es) }
        ensures { (es : List Event) (ended : Record) → AreTasks es self.old → at ≡ length es → IsRunning es task → AreTasks (es ++ DoneEvent task ended ∷ []) self.new }
    {
        self.ends[task as usize] = at as usize + 1;
    }
}
