//! The state of the model.

ghost use Rattle.std.specs.Prelude.{◌≡◌, ◌≤◌, IfOk, IfSome};
ghost use Rattle.jl_model.specs.declared.limits.TheConstants.{MOST_FUEL, MOST_CACHE_KEYS, MOST_CACHE_ROWS};
ghost use Rattle.jl_calculus.specs.Legal.{MayStand, IsTraced};
ghost use Rattle.jl_core.specs.Reached.{IsReached, found_by, IsRightHit};
ghost use Rattle.jl_core.specs.State.{first_state};

use crate::task::Task;
use crate::words::Words;
use jl_calculus::history::{Change, Event};
use jl_program::tree::Program;
use jl_sig::Ready;
use std::alloc::{AllocError, Global};
use std::marker::Model;

/// Who makes the open change, and which it is.
#[derive(Clone, Copy)]
pub(crate) struct Opening {
    pub(crate) task: u32,
    pub(crate) change: Change,
}

/// A state of the model: the events so far, the tasks, the open change and the words of the rows. Contracts see it with its program
/// and the places that it has for keys and rows. Whatever enabled steps it has made, each of its searches that has hit tells the choice in
/// its own world (Belyakova et al., OOPSLA 2020).
#[derive(Drop)]
pub struct Core {
    pub(crate) program: Program,
    pub(crate) keys: u32,
    pub(crate) rows: u32,
    pub(crate) events: Vec<Event>,
    pub(crate) tasks: Vec<Task>,
    pub(crate) opened: Option<Opening>,
    pub(crate) cut: Vec<u32>,
    pub(crate) words: Vec<Words>,
}

impl Model for Core {
    ghost use Rattle.std.specs.Coded.{codes};
    ghost use Rattle.jl_program.specs.contracts.tree.Program as p;
    ghost use Rattle.jl_calculus.specs.contracts.history.Event as e;
    ghost use Rattle.jl_core.specs.State.{State};

    ghost Value = { State };

    ghost coded = { Prim.hlevel (codes, p.the_row.coded, e.the_row.coded) };

    ghost use Rattle.jl_core.specs.Kept.{state_of, IsKept};

    ghost view = { state_of };

    ghost invariant = { IsKept };
}

/// An equal program, whose parts are shared.
fn copy_program(program: &Program) -> Result<Program, AllocError>
    ensures { IfOk result (λ copy. copy ≡ program.now) }
{
    Ok(Program {
        decls: program.decls.copy()?,
        functions: program.functions.copy()?,
        sites: program.sites.copy()?,
        spawns: program.spawns.copy()?,
        deletes: program.deletes.copy()?,
        top: program.top.copy()?,
    })
}

impl Core {
    /// The start of a run with so many calls for each task and so many places for keys and rows: the root has seen the beginning.
    pub fn start(
        alloc: Global,
        ready: &Ready,
        fuel: u64,
        keys: u32,
        rows: u32,
    ) -> Result<Core, AllocError>
        requires fuel { fuel ≤ MOST_FUEL }
        requires keys { keys ≤ MOST_CACHE_KEYS }
        requires rows { rows ≤ MOST_CACHE_ROWS }
        ensures { IfOk result (λ core. core ≡ first_state ready.now fuel keys rows) }
    {
        ready.valid();
        let program = copy_program(ready.program())?;
        let mut events = Vec::new(alloc);
        events.push(Event::Begin(fuel))?;
        let mut tasks = Vec::new(alloc);
        tasks.push(Task {
            seen: 1,
            known: Vec::new(alloc),
            search: None,
        })?;
        Ok(Core {
            program,
            keys,
            rows,
            events,
            tasks,
            opened: None,
            cut: Vec::new(alloc),
            words: Vec::new(alloc),
        })
    }

    /// The site at which the last search of a task has ended; none exactly where it has not hit, or where there is no such task. It is that of
    /// the choice in the world of that search.
    pub fn found(&self, task: u32) -> Option<u32>
        ensures found { result ≡ found_by self.now.core task }
        ensures right { IfSome result (λ site. IsRightHit self.now.program self.now.core task site) }
    {
        match self.tasks.as_slice().get(task as usize) {
            Some(state) => state.found(),
            None => None,
        }
    }

    /// The events so far. They are legal so far, except that nothing is said of the runs of the tasks.
    pub fn history(&self) -> &[Event]
        ensures events { result.now ≡ self.now.core.events }
        ensures stand { MayStand self.now.program result.now }
        ensures traced { IsTraced self.now.program result.now }
    {
        self.events.as_slice()
    }

    /// That enabled steps lead to this state, for proofs that rest on it. It does nothing.
    pub fn reached(&self)
        ensures { IsReached self.now.program self.now.room self.now.core }
    {
        let _ = &self.events;
    }
}
