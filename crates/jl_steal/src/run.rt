//! The run of a program's tasks by workers that steal.

ghost use Rattle.std.specs.Prelude.{◌≡◌, ◌<◌, IfOk, Some};
ghost use Rattle.jl_calculus.specs.Legal.{IsLegal, IsCached, fuel_of};
ghost use Rattle.jl_calculus.specs.ValidHistory.{AreValidEvents};
ghost use Rattle.jl_queue.specs.Setups.{IsSetup};
ghost use Rattle.jl_world.specs.Names.{table_of, about_of};
ghost use Rattle.jl_rows.specs.Plans.{places_of};
ghost use Rattle.jl_runner.specs.Working.{places_with};

use crate::camp::Camp;
use crate::deque::Local;
use crate::member::Member;
use jl_calculus::history::History;
use jl_host::HostOps;
use jl_model::limits::MOST_TASKS;
use jl_queue::{Gate, Setup};
use jl_runner::{Job, Jobs, New, Shared, work};
use jl_sig::Ready;
use jl_world::{Blank, Naming};
use std::alloc::{AllocError, Global};
use std::marker::Brand;
use std::sync::Wait;
use std::thread;
use std::thread::Threads;

/// How many jobs a deque has room for before it grows.
const FIRST_ROOM: usize = 64;

/// Has each of the workers so far and one more steal from each other.
fn join<'c, T: Drop>(
    members: &mut Vec<Member<'c, T>>,
    mut member: Member<'c, T>,
) -> Result<(), AllocError> {
    for other in members.iter_mut() {
        member.meet(other.thief()?)?;
        other.meet(member.thief()?)?;
    }
    members.push(member)?;
    Ok(())
}

/// So many workers, each with a deque of its own.
fn muster<'c, T: Drop>(
    alloc: Global,
    camp: &'c Camp<T>,
    threads: u32,
) -> Result<Vec<Member<'c, T>>, AllocError> {
    let mut members = Vec::new(alloc);
    for _ in 0..threads {
        let local = Local::new(alloc, FIRST_ROOM)?;
        join(&mut members, Member::new(alloc, camp, local))?;
    }
    Ok(members)
}

/// Gives the root to the first worker, and answers whether there was memory for it.
fn admit<'c, R: Wait, T: Drop>(rt: &R, members: &mut Vec<Member<'c, T>>, root: T) -> bool {
    match members.get_mut(0) {
        Some(first) => first.push(rt, root).is_none(),
        None => {
            drop(root);
            false
        }
    }
}

/// Runs jobs of a worker until the run is over.
fn work_as<'p, N: Naming, R: Wait, G: Gate>(
    shared: &Shared<'p, N>,
    rt: &R,
    gate: &G,
    ops: &HostOps,
    member: &mut Member<'_, Job<'p, N>>,
) {
    work(rt, member, &|job| shared.run_job(rt, gate, ops, job));
}

/// Runs all jobs, beginning with the root.
fn run_all<'p, N: Naming + Send + Sync, R: Threads + Wait + Sync, G: Gate>(
    shared: &Shared<'p, N>,
    rt: &R,
    alloc: Global,
    threads: u32,
    gate: &G,
    ops: &HostOps,
    root: New<N>,
) -> Result<(), AllocError>
    requires { 0 < threads }
{
    let camp = Camp::new(alloc, MOST_TASKS)?;
    let mut members = muster(alloc, &camp, threads)?;
    if admit(rt, &mut members, Job::New(root)) {
        thread::for_each_mut(
            rt,
            members.as_mut_slice(),
            threads as usize,
            &|_, member| work_as(shared, rt, gate, ops, member),
        );
    }
    Ok(())
}

/// Runs the tasks of a program, over words that have a name. Where a worker found no memory, tasks are left unfinished.
fn steal_named<'p, N: Naming + Send + Sync, R: Threads + Wait + Sync, G: Gate>(
    rt: &R,
    alloc: Global,
    ready: &'p Ready,
    blank: Blank,
    setup: &Setup,
    gate: &G,
    ops: &HostOps,
) -> Result<History, AllocError>
    requires setup { IsSetup setup.now }
    requires program { ready.now ≡ N.about.program.value }
    requires fuel { setup.now.fuel ≡ N.about.fuel }
    requires name { (table_of blank ≡ N.table) × (about_of blank ≡ N.about) }
    ensures legal { IfOk result (λ history. IsLegal ready.now history.events) }
    ensures cached { IfOk result (λ history. IsCached ready.now (places_of N.about) history.events) }
    ensures begun { IfOk result (λ history. fuel_of history.events ≡ Some N.about.fuel) }
    ensures valid { IfOk result (λ history. AreValidEvents ready.now history.events) }
{
    let (shared, root) = Shared::<N>::open(alloc, ready, blank, setup.fuel)?;
    run_all(&shared, rt, alloc, setup.threads, gate, ops, root)?;
    shared.close(alloc)
}

/// Runs a program's tasks on so many threads, each with a deque of its own, and answers the history: on every schedule it is legal, and
/// cached for the places of the setup (Blumofe and Leiserson, JACM 1999; Belyakova et al., OOPSLA 2020). A worker takes from its own
/// deque first, and steals from the others where that is empty. Where no thread can be made the caller runs all tasks. The gate is told
/// of each task before its first turn and after its end. The one error is out of memory: then no task more is begun, and all threads are
/// joined.
pub fn steal_tasks<'p, R: Threads + Wait + Sync, G: Gate>(
    rt: &R,
    alloc: Global,
    ready: &'p Ready,
    setup: &Setup,
    gate: &G,
    ops: &HostOps,
) -> Result<History, AllocError>
    requires { IsSetup setup.now }
    ensures legal { IfOk result (λ history. IsLegal ready.now history.events) }
    ensures cached { IfOk result (λ history. IsCached ready.now (places_with setup.now) history.events) }
    ensures begun { IfOk result (λ history. fuel_of history.events ≡ Some setup.now.fuel) }
    ensures valid { IfOk result (λ history. AreValidEvents ready.now history.events) }
{
    let blank = Blank::make(alloc, ready.program(), setup.fuel, setup.keys, setup.rows)?;
    steal_named::<Brand, R, G>(rt, alloc, ready, blank, setup, gate, ops)
}
