//! Machines: a task and what comes next, step by step.

ghost use Rattle.std.specs.Prelude.{◌≡◌, ◌<◌, ◌≤◌, ◌+◌, ◌*◌, ◌++◌, IfOk, OnOk, OnErr, IsErr, length};
ghost use Rattle.jl_frames.specs.Held.{with_open};
ghost use Rattle.jl_machine.specs.Opened.{Opened};
ghost use Rattle.jl_task.specs.Asks.{Tells, Follows};
ghost use Rattle.jl_task.specs.Size.{program_size};
ghost use Rattle.jl_machine.specs.Steps.{fuel_of, trace_of, turns_of, job_with, MachineFits, TurnSays, WaitsRightly, KnowsTasks, IsLost, IsEnded, IsNewRoot, IsNewTask, HasEnded, IsRecordOf, IsFirst};

use crate::now::{LentNow, LentWork};
use crate::task::{Machine, Next, Task, Turn};
use jl_calculus::history::{Outcome, Record};
use jl_frames::Frames;
use jl_host::HostOps;
use jl_model::limits::MOST_OPEN_CALLS;
use jl_model::rows::Row;
use jl_model::shared::SharedNode;
use jl_operations::Memo;
use jl_program::env::Env;
use jl_program::prelude::FIRST_WORLD;
use jl_program::tree::Start;
use jl_program::value::Value;
use jl_sig::Ready;
use jl_task::Recall;
use std::alloc::{AllocError, Global};

impl<'p> Task<'p> {
    /// What the task did.
    fn into_record(self) -> Result<Record, AllocError>
        ensures { IfOk result (λ r. IsRecordOf r self.entry) }
    {
        let Task {
            alloc,
            trace,
            calls,
            now,
            ..
        } = self;
        let LentNow { out, outcome, .. } = now;
        let outcome = SharedNode::new(alloc, outcome)?;
        let output = out.into_shared(alloc)?;
        let trace = trace.into_shared(alloc)?;
        Ok(Record {
            trace,
            outcome,
            output,
            calls,
        })
    }
}

/// A task that has done nothing yet, in a world.
fn first_task<'p>(alloc: Global, fuel: u64, world: u32, frames: Frames<'p>) -> Task<'p>
    ensures { IsFirst fuel world frames.entry result }
{
    let now = LentNow {
        world,
        room: MOST_OPEN_CALLS,
        frames,
        out: Row::new(alloc),
        outcome: Outcome::Value(Value::Nothing),
    };
    Task {
        alloc,
        fuel,
        trace: Row::new(alloc),
        calls: 0,
        now,
    }
}

/// Opens these values, above those that are open.
fn push_all(frames: &mut Frames<'_>, values: &[Value]) -> Result<(), AllocError>
    ensures { OnOk result (frames.new ≡ with_open frames.old (frames.old.open_values ++ values.now)) }
{
    for value in values {
        frames.push(value.copy()?)?;
    }
    Ok(())
}

/// Opens what a task sees where it starts, above the values that are open.
fn open_env(frames: &mut Frames<'_>, env: &Env) -> Result<(), AllocError>
    ensures { OnOk result (Opened env.now frames.old frames.new) }
{
    let (chunks, rest) = env.parts();
    for chunk in chunks {
        push_all(frames, chunk.as_slice())?;
    }
    push_all(frames, rest)?;
    frames.see(env.copy()?);
    Ok(())
}

/// The root of a program, which has done nothing yet.
fn new_root<'p>(alloc: Global, ready: &'p Ready, fuel: u64) -> Result<Machine<'p>, AllocError>
    ensures { IfOk result (λ m. IsNewRoot ready.now fuel m) }
{
    let mut frames = Frames::new(alloc);
    frames.push(Value::Nothing)?;
    let task = first_task(alloc, fuel, FIRST_WORLD, frames);
    let work = LentWork::Items(false, ready.program().top.as_slice());
    let memo = Memo::new(alloc, ready.table());
    Ok(Machine { task, work, memo })
}

/// A task from a start, which has done nothing yet.
fn new_task<'p>(
    alloc: Global,
    ready: &'p Ready,
    start: &Start,
    fuel: u64,
) -> Result<Machine<'p>, AllocError>
    requires { start.now.spawn < length ready.now.spawns }
    ensures { IfOk result (λ m. IsNewTask ready.now start.now fuel m) }
{
    let mut frames = Frames::new(alloc);
    open_env(&mut frames, &start.env)?;
    frames.start(start.bindings.as_slice())?;
    let task = first_task(alloc, fuel, start.world, frames);
    let expr = &ready.program().spawns.as_slice()[start.spawn as usize];
    let work = LentWork::Eval(expr);
    let memo = Memo::new(alloc, ready.table());
    Ok(Machine { task, work, memo })
}

impl<'p> Machine<'p> {
    /// The root of a program, which has done nothing yet and may make so many calls. The bound of its turns is in
    /// proportion to the size of the program, for each of the calls and once besides.
    pub fn root(alloc: Global, ready: &'p Ready, fuel: u64) -> Result<Machine<'p>, AllocError>
        ensures begun { IfOk result (λ m. IsNewRoot ready.now fuel m) }
        ensures turns { IfOk result (λ m. turns_of ready.now m ≤ 4 * (fuel + 1) * (program_size ready.now + 1)) }
    {
        let machine = new_root(alloc, ready, fuel)?;
        Ok(machine)
    }

    /// A task from a start, which has done nothing yet and may make so many calls. Its turns are bounded as the root's.
    pub fn start(
        alloc: Global,
        ready: &'p Ready,
        start: &Start,
        fuel: u64,
    ) -> Result<Machine<'p>, AllocError>
        requires place { start.now.spawn < length ready.now.spawns }
        ensures begun { IfOk result (λ m. IsNewTask ready.now start.now fuel m) }
        ensures turns { IfOk result (λ m. turns_of ready.now m ≤ 4 * (fuel + 1) * (program_size ready.now + 1)) }
    {
        let machine = new_task(alloc, ready, start, fuel)?;
        Ok(machine)
    }

    /// One turn, and those after it that ask nobody. It keeps that the machine fits its dispatcher, leaves fewer turns, and adds at most one
    /// item to the trace, which answers what the task asked there. It fetches and waits for tasks alone that it knows: those that its start mentions, that it
    /// spawned, or that an outcome mentions that it fetched before. `NeedFetch` comes exactly where the dispatcher answered that a task
    /// has not ended yet (`waits`), and the machine is then as it was. After out of memory the machine is lost: it answers so at each
    /// later turn.
    #[inline(always)]
    pub fn step<D: Recall>(
        &mut self,
        ready: &'p Ready,
        ops: &HostOps,
        with: &mut D,
    ) -> Result<Turn, AllocError>
        requires { MachineFits ready.now (fuel_of self.old) (D.knows with.old) self.old }
        ensures fits { MachineFits ready.now (fuel_of self.new) (D.knows with.new) self.new }
        ensures turn { IfOk result (λ turn. TurnSays ready.now self.old self.new turn) }
        ensures waits { IfOk result (λ turn. WaitsRightly (D.knows with.new) turn) }
        ensures fuel { IfOk result (λ _. fuel_of self.new ≡ fuel_of self.old) }
        ensures tells { IfOk result (λ _. Tells (job_with ready.now (fuel_of self.old) (D.knows with.old)) (D.knows with.old) (trace_of self.old) (D.knows with.new) (trace_of self.new)) }
        ensures knows { IfOk result (λ turn. KnowsTasks (D.knows with.old).start (trace_of self.old) (trace_of self.new) turn) }
        ensures follows { IfOk result (λ _. Follows (D.knows with.old) (trace_of self.old) (D.knows with.new) (trace_of self.new)) }
        ensures lost { OnErr result (IsLost self.new) }
        ensures kept { OnOk result (IsLost self.new → ⊥) }
        ensures still { IsLost self.old → IsErr result }
    {
        match self.work {
            LentWork::Lost => Err(AllocError),
            LentWork::Ended => Ok(Turn::Done),
            work => {
                self.work = LentWork::Lost;
                match self.task.turn(ready, &mut self.memo, ops, with, work)? {
                    Next::Go(next) => {
                        let last = self.task.go_on(ready, &mut self.memo, ops, with, next)?;
                        self.work = last;
                        Ok(Turn::Again)
                    }
                    Next::Wait(task) => {
                        self.work = work;
                        Ok(Turn::NeedFetch(task))
                    }
                }
            }
        }
    }

    /// What the task did, after its last turn.
    pub fn record(self) -> Result<Record, AllocError>
        requires { IsEnded self }
        ensures { IfOk result (λ r. HasEnded r self.entry) }
    {
        let Machine { task, .. } = self;
        task.into_record()
    }
}
