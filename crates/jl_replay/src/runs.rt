//! The tasks of a history, each led as far as the entries so far tell.

ghost use Rattle.std.specs.Prelude.{◌≡◌, ◌-◌, ◌<◌, ◌≤◌, IfOk, length, set, slice_get, Some};
ghost use Rattle.jl_calculus.specs.Legal.{IsRunning, fuel_of};
ghost use Rattle.jl_lead.specs.Known.{IsNoSpawn};
ghost use Rattle.jl_report.specs.declared.entry.Entry.TheVariants as E;
ghost use Rattle.jl_replay.specs.declared.runs.Stage.TheVariants as T;
ghost use Rattle.jl_replay.specs.Following.{AreEnds, AreFollowed, AreJudged, AreOnTheirWay, HasComeToSpawn, HasFollowed, IsKeyAt, IsOnItsWay};
ghost use Rattle.jl_replay.specs.Moves.{HasBegun};

use crate::ends::trace_of;
use crate::running::{Running, follow_definition, follow_deletion, follow_end, follow_spawn};
use crate::told::is_told;
use jl_calculus::history::Event;
use jl_causes::read_key;
use jl_host::HostOps;
use jl_lead::led::Led;
use jl_lead::past::Past;
use jl_machine::Machine;
use jl_report::{Ending, Entry, Step};
use jl_sig::Ready;
use std::alloc::{AllocError, Global};
use std::mem::replace;

/// What is kept of a task.
#[derive(Drop)]
pub(crate) enum Stage<'p> {
    /// It was spawned by the last of so many events, and no entry of it has come yet. A machine copies all values that its task sees,
    /// so it is made when the first one comes.
    Spawned(u32),
    Running(Running<'p>),
    Ended,
}

/// The tasks of a history, by their numbers, with the events so far.
#[derive(Drop)]
pub(crate) struct Runs<'p> {
    pub(crate) led: Led<'p>,
    pub(crate) tasks: Vec<Stage<'p>>,
    pub(crate) fuel: u64,
}

/// A task that has done nothing yet, and has seen so many events.
fn begin_at<'p>(machine: Machine<'p>, seen: u32) -> Running<'p>
    ensures { result ≡ record { machine = machine.entry; told = 0; seen = seen; looks = 0 } }
{
    Running {
        machine,
        told: 0,
        seen,
        looks: 0,
    }
}

/// Takes what is kept of a task out of its place, as if it had ended.
fn take_stage<'p>(tasks: &mut Vec<Stage<'p>>, task: u32) -> Stage<'p>
    requires { task < length tasks.old.items }
    ensures was { slice_get tasks.old.items task ≡ Some result }
    ensures gone { tasks.new.items ≡ set tasks.old.items task T.Ended }
{
    replace(&mut tasks[task as usize], Stage::Ended)
}

/// Puts a task back into its place.
fn put_task<'p>(tasks: &mut Vec<Stage<'p>>, task: u32, running: Running<'p>)
    requires { task < length tasks.old.items }
    ensures { tasks.new.items ≡ set tasks.old.items task (T.Running running.entry) }
{
    drop(replace(&mut tasks[task as usize], Stage::Running(running)));
}

/// The task that the last of so many events spawned.
fn begin_spawned<'p>(
    alloc: Global,
    ready: &'p Ready,
    led: &Led<'p>,
    seen: u32,
    fuel: u64,
) -> Result<Running<'p>, AllocError>
    requires program { led.now.past.0 ≡ ready.now }
    requires some { 1 ≤ seen }
    requires there { IsNoSpawn (slice_get led.now.past.1 (seen - 1)) → ⊥ }
    ensures { IfOk result (λ r. HasBegun ready.now led.now.past.1 seen fuel r) }
{
    match led.past.spawned(seen - 1) {
        Some(start) => {
            let machine = Machine::start(alloc, ready, start, fuel)?;
            Ok(begin_at(machine, seen))
        }
        None => unreachable!(),
    }
}

/// Takes a task that has not ended out of its place. One that was only spawned begins.
fn take_task<'p>(
    alloc: Global,
    ready: &'p Ready,
    led: &Led<'p>,
    tasks: &mut Vec<Stage<'p>>,
    entries: &[Entry],
    task: u32,
    fuel: u64,
) -> Result<Running<'p>, AllocError>
    requires program { led.now.past.0 ≡ ready.now }
    requires fuel { fuel_of led.now.past.1 ≡ Some fuel }
    requires on_way { AreOnTheirWay ready.now entries.now led.now.past.1 tasks.old.items }
    requires running { IsRunning led.now.past.1 task }
    ensures way { IfOk result (λ r. IsOnItsWay ready.now entries.now led.now.past.1 task r) }
    ensures gone { tasks.new.items ≡ set tasks.old.items task T.Ended }
{
    match take_stage(tasks, task) {
        Stage::Spawned(seen) => {
            let running = begin_spawned(alloc, ready, led, seen, fuel)?;
            Ok(running)
        }
        Stage::Running(running) => Ok(running),
        Stage::Ended => unreachable!(),
    }
}

impl<'p> Runs<'p> {
    /// The root, which has done nothing yet.
    pub(crate) fn begin(
        alloc: Global,
        ready: &'p Ready,
        fuel: u64,
        entries: &[Entry],
    ) -> Result<Runs<'p>, AllocError>
        requires judged { AreJudged ready.now entries.now }
        requires first { slice_get entries.now 0 ≡ Some (E.Begin fuel) }
        ensures followed { IfOk result (λ runs. AreFollowed ready.now entries.now runs) }
        ensures many { IfOk result (λ runs. length runs.led.past.1 ≡ 1) }
    {
        ready.valid();
        let past = Past::new(alloc, ready)?;
        let mut led = Led::new(alloc, past);
        led.note(Event::Begin(fuel))?;
        let mut tasks = Vec::new(alloc);
        let machine = Machine::root(alloc, ready, fuel)?;
        tasks.push(Stage::Running(begin_at(machine, 1)))?;
        Ok(Runs { led, tasks, fuel })
    }

    /// A key.
    fn follow_key(
        &mut self,
        alloc: Global,
        ready: &'p Ready,
        entries: &[Entry],
        n: u32,
        function: &[u8],
        tuple: &[u8],
    ) -> Result<bool, AllocError>
        requires judged { AreJudged ready.now entries.now }
        requires here { length self.old.led.past.1 ≡ n }
        requires entry { IsKeyAt (slice_get entries.now n) function.now tuple.now }
        requires followed { AreFollowed ready.now entries.now self.old }
        ensures { IfOk result (λ same. HasFollowed ready.now entries.now n same self.new) }
    {
        match read_key(alloc, ready, function, tuple)? {
            Some(key) => {
                self.led.note(Event::Key(key))?;
                Ok(true)
            }
            None => unreachable!(),
        }
    }

    /// A fill.
    fn follow_fill(
        &mut self,
        ready: &'p Ready,
        entries: &[Entry],
        n: u32,
        key: u32,
        site: u32,
        first: u32,
    ) -> Result<bool, AllocError>
        requires judged { AreJudged ready.now entries.now }
        requires here { length self.old.led.past.1 ≡ n }
        requires entry { slice_get entries.now n ≡ Some (E.Fill key site first) }
        requires followed { AreFollowed ready.now entries.now self.old }
        ensures { IfOk result (λ same. HasFollowed ready.now entries.now n same self.new) }
    {
        self.led.note(Event::Fill { key, site, first })?;
        Ok(true)
    }

    /// A definition.
    fn follow_definition(
        &mut self,
        alloc: Global,
        ready: &'p Ready,
        ops: &HostOps,
        entries: &[Entry],
        ends: &[u32],
        n: u32,
        task: u32,
        site: u32,
    ) -> Result<bool, AllocError>
        requires judged { AreJudged ready.now entries.now }
        requires ends { AreEnds entries.now ends.now }
        requires here { length self.old.led.past.1 ≡ n }
        requires entry { slice_get entries.now n ≡ Some (E.Def task site) }
        requires followed { AreFollowed ready.now entries.now self.old }
        ensures { IfOk result (λ same. HasFollowed ready.now entries.now n same self.new) }
    {
        let trace = trace_of(entries, ends, task);
        let mut running = take_task(
            alloc,
            ready,
            &self.led,
            &mut self.tasks,
            entries,
            task,
            self.fuel,
        )?;
        match follow_definition(
            alloc,
            ready,
            ops,
            &mut self.led,
            &mut running,
            trace,
            task,
            site,
        ) {
            Ok(came) => {
                put_task(&mut self.tasks, task, running);
                Ok(came)
            }
            Err(error) => {
                drop(running);
                Err(error)
            }
        }
    }

    /// A deletion.
    fn follow_deletion(
        &mut self,
        alloc: Global,
        ready: &'p Ready,
        ops: &HostOps,
        entries: &[Entry],
        ends: &[u32],
        n: u32,
        task: u32,
        place: u32,
    ) -> Result<bool, AllocError>
        requires judged { AreJudged ready.now entries.now }
        requires ends { AreEnds entries.now ends.now }
        requires here { length self.old.led.past.1 ≡ n }
        requires entry { slice_get entries.now n ≡ Some (E.Del task place) }
        requires followed { AreFollowed ready.now entries.now self.old }
        ensures { IfOk result (λ same. HasFollowed ready.now entries.now n same self.new) }
    {
        let trace = trace_of(entries, ends, task);
        let mut running = take_task(
            alloc,
            ready,
            &self.led,
            &mut self.tasks,
            entries,
            task,
            self.fuel,
        )?;
        match follow_deletion(
            alloc,
            ready,
            ops,
            &mut self.led,
            &mut running,
            trace,
            task,
            place,
        ) {
            Ok(came) => {
                put_task(&mut self.tasks, task, running);
                Ok(came)
            }
            Err(error) => {
                drop(running);
                Err(error)
            }
        }
    }

    /// Whether the run of a task comes to a spawn. Where it does, the next task is started, and not among the tasks yet.
    fn come_to_spawn(
        &mut self,
        alloc: Global,
        ready: &'p Ready,
        ops: &HostOps,
        entries: &[Entry],
        ends: &[u32],
        n: u32,
        task: u32,
        child: u32,
        place: u32,
    ) -> Result<bool, AllocError>
        requires judged { AreJudged ready.now entries.now }
        requires ends { AreEnds entries.now ends.now }
        requires here { length self.old.led.past.1 ≡ n }
        requires entry { slice_get entries.now n ≡ Some (E.Spawn task child place) }
        requires followed { AreFollowed ready.now entries.now self.old }
        ensures { IfOk result (λ came. HasComeToSpawn ready.now entries.now self.old task child place came self.new) }
    {
        let trace = trace_of(entries, ends, task);
        let mut running = take_task(
            alloc,
            ready,
            &self.led,
            &mut self.tasks,
            entries,
            task,
            self.fuel,
        )?;
        match follow_spawn(
            alloc,
            ready,
            ops,
            &mut self.led,
            &mut running,
            trace,
            task,
            place,
        ) {
            Ok(came) => {
                put_task(&mut self.tasks, task, running);
                Ok(came)
            }
            Err(error) => {
                drop(running);
                Err(error)
            }
        }
    }

    /// A spawn.
    fn follow_spawn(
        &mut self,
        alloc: Global,
        ready: &'p Ready,
        ops: &HostOps,
        entries: &[Entry],
        ends: &[u32],
        n: u32,
        task: u32,
        child: u32,
        place: u32,
    ) -> Result<bool, AllocError>
        requires judged { AreJudged ready.now entries.now }
        requires ends { AreEnds entries.now ends.now }
        requires here { length self.old.led.past.1 ≡ n }
        requires entry { slice_get entries.now n ≡ Some (E.Spawn task child place) }
        requires followed { AreFollowed ready.now entries.now self.old }
        ensures { IfOk result (λ same. HasFollowed ready.now entries.now n same self.new) }
    {
        let came = self.come_to_spawn(alloc, ready, ops, entries, ends, n, task, child, place)?;
        if !came {
            return Ok(false);
        }
        ready.valid();
        self.led.past.sound();
        let seen = self.led.past.len();
        self.tasks.push(Stage::Spawned(seen))?;
        Ok(true)
    }

    /// The end of a task.
    fn follow_end(
        &mut self,
        alloc: Global,
        ready: &'p Ready,
        ops: &HostOps,
        entries: &[Entry],
        n: u32,
        task: u32,
        calls: u32,
        trace: &[Step],
        output: &[u8],
        ending: &Ending,
    ) -> Result<bool, AllocError>
        requires judged { AreJudged ready.now entries.now }
        requires here { length self.old.led.past.1 ≡ n }
        requires entry { slice_get entries.now n ≡ Some (E.Done task calls trace.now output.now ending.now) }
        requires followed { AreFollowed ready.now entries.now self.old }
        ensures { IfOk result (λ same. HasFollowed ready.now entries.now n same self.new) }
    {
        let running = take_task(
            alloc,
            ready,
            &self.led,
            &mut self.tasks,
            entries,
            task,
            self.fuel,
        )?;
        match follow_end(alloc, ready, ops, &mut self.led, running, trace, task)? {
            Some(record) => {
                match is_told(alloc, ready.program(), &record, calls, output, ending) {
                    Ok(true) => {
                        self.led.end(task, record)?;
                        Ok(true)
                    }
                    Ok(false) => {
                        drop(record);
                        Ok(false)
                    }
                    Err(error) => {
                        drop(record);
                        Err(error)
                    }
                }
            }
            None => Ok(false),
        }
    }

    /// One more entry: whether the tasks follow it.
    pub(crate) fn follow(
        &mut self,
        alloc: Global,
        ready: &'p Ready,
        ops: &HostOps,
        entries: &[Entry],
        ends: &[u32],
        n: u32,
    ) -> Result<bool, AllocError>
        requires judged { AreJudged ready.now entries.now }
        requires ends { AreEnds entries.now ends.now }
        requires later { 1 ≤ n }
        requires there { n < length entries.now }
        requires here { length self.old.led.past.1 ≡ n }
        requires followed { AreFollowed ready.now entries.now self.old }
        ensures { IfOk result (λ same. HasFollowed ready.now entries.now n same self.new) }
    {
        match &entries[n as usize] {
            Entry::Begin(_) => unreachable!(),
            Entry::Key {
                function,
                tuple,
                ..
            } => self.follow_key(
                alloc,
                ready,
                entries,
                n,
                function.as_slice(),
                tuple.as_slice(),
            ),
            Entry::Fill { key, site, first } => {
                self.follow_fill(ready, entries, n, *key, *site, *first)
            }
            Entry::Def { task, site } => {
                self.follow_definition(alloc, ready, ops, entries, ends, n, *task, *site)
            }
            Entry::Del { task, place } => {
                self.follow_deletion(alloc, ready, ops, entries, ends, n, *task, *place)
            }
            Entry::Spawn { task, child, place } => {
                self.follow_spawn(alloc, ready, ops, entries, ends, n, *task, *child, *place)
            }
            Entry::Done {
                task,
                calls,
                trace,
                output,
                ending,
            } => self.follow_end(
                alloc,
                ready,
                ops,
                entries,
                n,
                *task,
                *calls,
                trace.as_slice(),
                output.as_slice(),
                ending,
            ),
        }
    }
}
