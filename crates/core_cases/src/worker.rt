//! A task of a walk: what it has to do, and how far it is with it.

ghost use Rattle.std.specs.Prelude.{◌≡◌};

use crate::model::{Search, chosen_site, sizes_of};
use jl_calculus::history::Change;
use jl_calculus::step::Step;
use jl_core::Core;
use jl_sig::Ready;
use std::alloc::{AllocError, Global};

/// Make a change, or search the method of a key in the newest world, and where there is no row for it make one and search again.
#[derive(Clone, Copy)]
pub enum Work {
    Make(Change),
    Call(u32),
}

/// How far a task is: it has not begun its work, has looked, is searching, or has opened its change.
#[derive(Clone, Copy, PartialEq, Eq)]
enum Stage {
    Begun,
    Looked,
    Searching,
    Opened,
}

/// What a task may do next.
#[derive(Clone, Copy)]
pub enum Move {
    Look,
    Head,
    Row,
    Fill,
    Open(Change),
    Cut(u32),
    Publish,
}

/// A task of a walk.
#[derive(Drop)]
pub struct Worker {
    task: u32,
    works: Vec<Work>,
    next: usize,
    stage: Stage,
    asked: Search,
    searched: Option<Search>,
}

impl Worker {
    /// A task that has to do all this, in order.
    pub fn new(task: u32, works: Vec<Work>) -> Worker {
        Worker {
            task,
            works,
            next: 0,
            stage: Stage::Begun,
            asked: Search { key: 0, world: 0 },
            searched: None,
        }
    }

    /// It has done nothing yet.
    pub fn restart(&mut self) {
        self.next = 0;
        self.stage = Stage::Begun;
        self.searched = None;
    }

    /// Its number.
    pub fn task(&self) -> u32 {
        self.task
    }

    /// Its last search.
    pub fn searched(&self) -> Option<Search> {
        self.searched
    }

    /// What it is doing; none where all is done.
    pub fn work(&self) -> Option<Work> {
        match self.works.as_slice().get(self.next) {
            Some(work) => Some(*work),
            None => None,
        }
    }

    /// Whether its change is open.
    pub fn has_opened(&self) -> bool {
        self.stage == Stage::Opened
    }

    /// The step of one of its moves.
    pub fn step_of(&self, made: Move) -> Step {
        let task = self.task;
        let Search { key, world } = self.asked;
        match made {
            Move::Look => Step::Look { task },
            Move::Head => Step::Head { task, key, world },
            Move::Row => Step::Row { task },
            Move::Fill => Step::Fill { task, key, world },
            Move::Open(change) => Step::Open { task, change },
            Move::Cut(row) => Step::Cut { row },
            Move::Publish => Step::Publish,
        }
    }

    /// Whether it may make a move.
    fn may(&self, alloc: Global, ready: &Ready, core: &Core, made: Move) -> Result<bool, AllocError>
        requires { ready.now ≡ core.now.program }
    {
        let step = self.step_of(made);
        let enabled = core.enabled(alloc, ready, &step);
        drop(step);
        enabled
    }

    /// Its move in a call, where it has one now.
    fn call_move(
        &self,
        alloc: Global,
        ready: &Ready,
        core: &Core,
        is_open: bool,
    ) -> Result<Option<Move>, AllocError>
        requires { ready.now ≡ core.now.program }
    {
        match self.stage {
            Stage::Begun => Ok(Some(Move::Look)),
            Stage::Looked => Ok(Some(Move::Head)),
            Stage::Opened => Ok(None),
            Stage::Searching => {
                if self.may(alloc, ready, core, Move::Row)? {
                    return Ok(Some(Move::Row));
                }
                if self.may(alloc, ready, core, Move::Fill)? {
                    return Ok(Some(Move::Fill));
                }
                Ok(if is_open { None } else { Some(Move::Head) })
            }
        }
    }

    /// Adds its moves in a change: opening it, each cut that is left, or the new world.
    fn add_change_moves(
        &self,
        alloc: Global,
        ready: &Ready,
        core: &Core,
        change: Change,
        out: &mut Vec<Move>,
    ) -> Result<(), AllocError>
        requires { ready.now ≡ core.now.program }
    {
        if self.stage == Stage::Begun {
            if self.may(alloc, ready, core, Move::Open(change))? {
                out.push(Move::Open(change))?;
            }
            return Ok(());
        }
        let rows = sizes_of(core.history()).rows;
        for row in 0..rows {
            if self.may(alloc, ready, core, Move::Cut(row))? {
                out.push(Move::Cut(row))?;
            }
        }
        if self.may(alloc, ready, core, Move::Publish)? {
            out.push(Move::Publish)?;
        }
        Ok(())
    }

    /// What it may do now.
    pub fn moves(
        &self,
        alloc: Global,
        ready: &Ready,
        core: &Core,
        is_open: bool,
    ) -> Result<Vec<Move>, AllocError>
        requires { ready.now ≡ core.now.program }
    {
        let mut out = Vec::new(alloc);
        match self.work() {
            None => {}
            Some(Work::Make(change)) => {
                self.add_change_moves(alloc, ready, core, change, &mut out)?;
            }
            Some(Work::Call(_)) => {
                if let Some(made) = self.call_move(alloc, ready, core, is_open)? {
                    out.push(made)?;
                }
            }
        }
        Ok(out)
    }

    /// It goes on to its next work.
    fn go_on(&mut self) {
        self.next = self.next.saturating_add(1);
        self.stage = Stage::Begun;
    }

    /// Ends its call where its search has hit, or has missed a key for which no method is chosen.
    fn settle(&mut self, alloc: Global, ready: &Ready, core: &Core) -> Result<(), AllocError>
        requires { ready.now ≡ core.now.program }
    {
        if core.found(self.task).is_some() {
            self.go_on();
            return Ok(());
        }
        if self.may(alloc, ready, core, Move::Row)? {
            return Ok(());
        }
        let Search { key, world } = self.asked;
        if chosen_site(alloc, ready, core, key, world)?.is_none() {
            self.go_on();
        }
        Ok(())
    }

    /// It has made this move.
    pub fn note(
        &mut self,
        alloc: Global,
        ready: &Ready,
        core: &Core,
        made: Move,
    ) -> Result<(), AllocError>
        requires { ready.now ≡ core.now.program }
    {
        match made {
            Move::Look => {
                let key = match self.work() {
                    Some(Work::Call(key)) => key,
                    _ => 0,
                };
                let world = sizes_of(core.history()).world;
                self.asked = Search { key, world };
                self.stage = Stage::Looked;
                Ok(())
            }
            Move::Head => {
                self.searched = Some(self.asked);
                self.stage = Stage::Searching;
                self.settle(alloc, ready, core)
            }
            Move::Row => self.settle(alloc, ready, core),
            Move::Open(_) => {
                self.stage = Stage::Opened;
                Ok(())
            }
            Move::Cut(_) => Ok(()),
            Move::Fill => {
                self.stage = Stage::Looked;
                Ok(())
            }
            Move::Publish => {
                self.go_on();
                Ok(())
            }
        }
    }
}
