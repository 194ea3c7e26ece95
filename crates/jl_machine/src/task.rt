//! One task over a lent program, and its turns.

ghost use Rattle.std.specs.Prelude.{◌≡◌, ◌<◌, ◌+◌, ◌*◌, [], IfOk, map, length, slice_get};
ghost use Rattle.jl_model.specs.Bindings.{bindings};
ghost use Rattle.jl_model.specs.declared.ty.Ty.{Ty};
ghost use Rattle.jl_program.specs.declared.tree.Expr.{out-Expr};
ghost use Rattle.jl_program.specs.declared.tree.Expr.TheOpen as F;
ghost use Rattle.jl_program.specs.Scope.{all_types};
ghost use Rattle.jl_match.specs.KeptRow.{AreConcrete};
ghost use Rattle.jl_program.specs.Meaning.{datum};
ghost use Rattle.jl_program.specs.TypeOf.{type_of};
ghost use Rattle.jl_frames.specs.Held.{IsOne, first_value};
ghost use Rattle.jl_calculus.specs.Run.{deleted_function};
ghost use Rattle.jl_task.specs.declared.point.Work.TheVariants as W;
ghost use Rattle.jl_task.specs.Fits.{looks_of, Fitting};
ghost use Rattle.jl_machine.specs.Lent.{now_of, work_of, given_value, IsClosed, IsGiven, IsSettled, Reaches, after_answer};
ghost use Rattle.jl_machine.specs.Acting.{IsOperation};
ghost use Rattle.jl_machine.specs.Fetched.{task_of};
ghost use Rattle.jl_task.specs.Fits.{fetched_outcome};
ghost use Rattle.jl_machine.specs.Steps.{progress_of, LentSteps, Goes, HasLooked, IsWorking, variables_at, AppliesAt};

use crate::now::{LentNow, LentWork};
use crate::{acts, turns};
use jl_calculus::history::{DefineFault, DeleteFault, FetchFault, Outcome, SpawnFault, TraceItem};
use jl_host::HostOps;
use jl_match::applies;
use jl_model::rows::Row;
use jl_model::shared::SharedList;
use jl_model::ty::{Key, Ty, Tys};
use jl_operations::Memo;
use jl_program::choice::Choice;
use jl_program::env::Env;
use jl_program::fault::Fault;
use jl_program::tree::{Expr, Item, Start};
use jl_program::value::Value;
use jl_sig::Ready;
use jl_task::{Dispatcher, Recall};
use jl_value::type_of;
use std::alloc::{AllocError, Global};

/// One task, as far as it has come, but for what comes next.
#[derive(Drop)]
pub struct Task<'p> {
    pub(crate) alloc: Global,
    pub(crate) fuel: u64,
    pub(crate) trace: Row<TraceItem>,
    pub(crate) calls: u64,
    pub(crate) now: LentNow<'p>,
}

/// One task, as far as it has come: what it does next, what it has prepared of written types, and all else.
#[derive(Drop)]
pub struct Machine<'p> {
    pub(crate) task: Task<'p>,
    pub(crate) work: LentWork<'p>,
    pub(crate) memo: Memo,
}

/// What a turn leads to.
#[derive(Clone, Copy, PartialEq, Eq, Debug)]
pub enum Turn {
    /// There is more to do.
    Again,
    /// The task waits for the end of another one, and is as it was.
    NeedFetch(u32),
    /// The task has ended.
    Done,
}

/// What comes after a turn.
#[derive(Clone, Copy)]
pub(crate) enum Next<'p> {
    Go(LentWork<'p>),
    /// The task waits for another one.
    Wait(u32),
}

/// The types of the arguments of a call.
fn types_of(alloc: Global, ready: &Ready, values: &[Value]) -> Result<Tys, AllocError>
    ensures { IfOk result (λ types. types ≡ map type_of values.now) }
{
    let mut types = Row::new(alloc);
    for value in values {
        types.push(type_of(ready.table(), value).copy()?)?;
    }
    types.into_shared(alloc)
}

/// Equal types, whose parts are shared.
fn copy_types(alloc: Global, types: &[Ty]) -> Result<Tys, AllocError>
    ensures { IfOk result (λ copies. copies ≡ types.now) }
{
    let mut copies = Row::new(alloc);
    for ty in types {
        copies.push(ty.copy()?)?;
    }
    copies.into_shared(alloc)
}

/// The start of a task that sees these values and these types, at a place.
fn start_at(
    alloc: Global,
    place: u32,
    seen: Env,
    bindings: &[Ty],
    world: u32,
) -> Result<Start, AllocError>
    ensures { IfOk result (λ start. start ≡ record { spawn = place; env = seen; bindings = bindings.now; world = world }) }
{
    let bindings = copy_types(alloc, bindings)?;
    Ok(Start {
        spawn: place,
        env: seen,
        bindings,
        world,
    })
}

/// The function of which a deletion place deletes methods.
fn deleted_function(ready: &Ready, place: u32) -> u32
    requires { place < length ready.now.deletes }
    ensures { result ≡ deleted_function ready.now place }
{
    ready.program().deletes.as_slice()[place as usize].function
}

/// The task that the first of these values is.
fn task_of(values: &[Value]) -> Option<u32>
    ensures { result ≡ task_of (first_value values.now) }
{
    match values {
        [Value::Task(task), ..] => Some(*task),
        _ => None,
    }
}

/// What the task that fetches another goes on with.
fn fetched_outcome(task: u32, outcome: Outcome) -> Outcome
    ensures { result ≡ fetched_outcome task outcome }
{
    match outcome {
        Outcome::Value(value) => Outcome::Value(value),
        Outcome::Error(fault) => {
            drop(fault);
            Outcome::Error(Fault::TaskFailed(task))
        }
    }
}

impl<'p> Task<'p> {
    /// A look, which the trace keeps.
    #[inline(always)]
    fn look<D: Dispatcher>(&mut self, with: &mut D) -> Result<u32, AllocError>
        requires { looks_of self.old.trace ≡ (D.knows with.old).looks }
        ensures { IfOk result (λ w. HasLooked (D.knows with.old) (D.knows with.new) w self.old self.new) }
    {
        // No list of so many items fits in memory.
        if self.trace.len() >= 1 << 62 {
            return Err(AllocError);
        }
        let seen = with.newest();
        self.trace.push(TraceItem::Look {
            world: seen.world,
            at: seen.length,
        })?;
        Ok(seen.world)
    }

    /// A call whose arguments are the open values: the fuel, then the open calls, then the choice of a method.
    #[inline(always)]
    fn call<D: Recall>(
        &mut self,
        ready: &'p Ready,
        ops: &HostOps,
        with: &mut D,
        function: u32,
        world: u32,
    ) -> Result<LentWork<'p>, AllocError>
        requires fits { Fitting (D.knows with.old) (W.Calling function world self.old.now.frames.open_values) (progress_of self.old) }
        requires program { ready.now ≡ (D.knows with.old).program }
        requires settled { self.old.now.frames.open_text ≡ [] }
        ensures { IfOk result (λ work. LentSteps (D.knows with.old) (W.Calling function world self.old.now.frames.open_values) self.old (D.knows with.new) work self.new) }
    {
        if self.calls >= self.fuel {
            return Ok(turns::end_spent(&mut self.now, self.fuel));
        }
        if self.now.room == 0 {
            self.calls += 1;
            return Ok(turns::end_deep(&mut self.now));
        }
        match with.recall(function, self.now.frames.open_values(), world) {
            Some(found) => {
                self.calls += 1;
                turns::perform(&mut self.now, ready, ops, found.site, world, found.statics)
            }
            None => self.choose(ready, ops, with, function, world),
        }
    }

    /// The types of the variables of a site's signature, for arguments of these types.
    fn statics_of(&self, ready: &Ready, site: u32, types: &Tys) -> Result<Tys, AllocError>
        requires there { site < length ready.now.sites }
        requires concrete { AreConcrete (all_types ready.now) types.now }
        requires applies { AppliesAt ready.now types.now (slice_get ready.now.sites site) }
        ensures { IfOk result (λ statics. variables_at ready.now types.now (slice_get ready.now.sites site) ≡ statics) }
    {
        let sig = ready.sig(site);
        if sig.written().vars.len() == 0 {
            return Ok(SharedList::empty());
        }
        match applies(self.alloc, ready.table(), sig, types.as_slice())? {
            Some(statics) => Ok(statics),
            None => unreachable!(),
        }
    }

    /// A call that is not recalled: a key is made, and a method chosen and remembered.
    #[inline(never)]
    fn choose<D: Recall>(
        &mut self,
        ready: &'p Ready,
        ops: &HostOps,
        with: &mut D,
        function: u32,
        world: u32,
    ) -> Result<LentWork<'p>, AllocError>
        requires fits { Fitting (D.knows with.old) (W.Calling function world self.old.now.frames.open_values) (progress_of self.old) }
        requires program { ready.now ≡ (D.knows with.old).program }
        requires settled { self.old.now.frames.open_text ≡ [] }
        requires fuel { self.old.calls < self.old.fuel }
        requires room { 0 < self.old.now.room }
        ensures { IfOk result (λ work. LentSteps (D.knows with.old) (W.Calling function world self.old.now.frames.open_values) self.old (D.knows with.new) work self.new) }
    {
        self.calls += 1;
        let types = types_of(self.alloc, ready, self.now.frames.open_values())?;
        let key = Key {
            function,
            types: types.copy()?,
        };
        match with.select(key, world)? {
            Choice::None => Ok(turns::end(
                &mut self.now,
                Outcome::Error(Fault::NoMethod(function, types, world)),
            )),
            Choice::Ambiguous(first, second) => Ok(turns::end(
                &mut self.now,
                Outcome::Error(Fault::Ambiguous(function, types, first, second)),
            )),
            Choice::Method(definition) => {
                let site = with.site(definition);
                let statics = self.statics_of(ready, site, &types)?;
                let work = turns::perform(
                    &mut self.now,
                    ready,
                    ops,
                    site,
                    world,
                    statics.as_slice(),
                )?;
                with.keep(Key { function, types }, world, site, statics);
                Ok(work)
            }
        }
    }

    /// The next statement at the top or of an evaluated block, which looks first. The value of the one before is open.
    #[inline(always)]
    fn go_items<D: Dispatcher>(
        &mut self,
        with: &mut D,
        fresh: bool,
        items: &'p [Item],
    ) -> Result<LentWork<'p>, AllocError>
        requires fits { Fitting (D.knows with.old) (W.Items fresh items.now (given_value self.old.now)) (progress_of self.old) }
        requires settled { IsGiven self.old.now.frames }
        ensures { IfOk result (λ work. LentSteps (D.knows with.old) (W.Items fresh items.now (given_value self.old.now)) self.old (D.knows with.new) work self.new) }
    {
        match items {
            [] => Ok(LentWork::Give),
            [item, rest @ ..] => {
                let world = self.look(with)?;
                turns::begin_item(&mut self.now, item, fresh, rest, world)
            }
        }
    }

    /// A definition that has looked is made.
    #[inline(always)]
    fn define<D: Dispatcher>(
        &mut self,
        with: &mut D,
        fresh: bool,
        site: u32,
        rest: &'p [Item],
    ) -> Result<LentWork<'p>, AllocError>
        requires fits { Fitting (D.knows with.old) (W.Defining site fresh rest.now) (progress_of self.old) }
        requires settled { IsClosed self.old.now.frames }
        ensures { IfOk result (λ work. LentSteps (D.knows with.old) (W.Defining site fresh rest.now) self.old (D.knows with.new) work self.new) }
    {
        match with.define(site) {
            Ok(_) => {
                let at = with.seen() - 1;
                self.trace.push(TraceItem::Def { site, at })?;
                self.now.frames.push(Value::Nothing)?;
                Ok(LentWork::Items(fresh, rest))
            }
            Err(DefineFault::WorldLimit) => {
                self.trace.push(TraceItem::WorldFull { at: with.seen() })?;
                Ok(turns::end(&mut self.now, Outcome::Error(Fault::WorldLimit)))
            }
            Err(DefineFault::Memory) => Err(AllocError),
        }
    }

    /// A deletion at a place is made, or it finds no method to delete.
    #[inline(always)]
    fn delete<D: Dispatcher>(
        &mut self,
        ready: &Ready,
        with: &mut D,
        expr: &'p Expr,
        place: u32,
    ) -> Result<LentWork<'p>, AllocError>
        requires fits { Fitting (D.knows with.old) (W.Acting expr.now self.old.now.frames.open_values) (progress_of self.old) }
        requires program { ready.now ≡ (D.knows with.old).program }
        requires form { out-Expr expr.now ≡ F.Delete place }
        requires settled { IsClosed self.old.now.frames }
        ensures { IfOk result (λ work. LentSteps (D.knows with.old) (W.Acting expr.now self.old.now.frames.open_values) self.old (D.knows with.new) work self.new) }
    {
        match with.delete(place) {
            Ok(_) => {
                let at = with.seen() - 1;
                self.trace.push(TraceItem::Del { place, at })?;
                self.now.frames.push(Value::Nothing)?;
                Ok(LentWork::Give)
            }
            Err(DeleteFault::NoSuchMethod) => {
                let at = with.seen();
                self.trace.push(TraceItem::Absent { place, at })?;
                let function = deleted_function(ready, place);
                Ok(turns::end(&mut self.now, Outcome::Error(Fault::NoSuchMethod(function))))
            }
            Err(DeleteFault::WorldLimit) => {
                let at = with.seen();
                self.trace.push(TraceItem::WorldFull { at })?;
                Ok(turns::end(&mut self.now, Outcome::Error(Fault::WorldLimit)))
            }
            Err(DeleteFault::Memory) => Err(AllocError),
        }
    }

    /// A task is spawned at a place.
    #[inline(always)]
    fn spawn<D: Dispatcher>(
        &mut self,
        with: &mut D,
        expr: &'p Expr,
        place: u32,
    ) -> Result<LentWork<'p>, AllocError>
        requires fits { Fitting (D.knows with.old) (W.Acting expr.now self.old.now.frames.open_values) (progress_of self.old) }
        requires form { out-Expr expr.now ≡ F.Spawn place }
        requires settled { IsClosed self.old.now.frames }
        ensures { IfOk result (λ work. LentSteps (D.knows with.old) (W.Acting expr.now self.old.now.frames.open_values) self.old (D.knows with.new) work self.new) }
    {
        let seen = self.now.frames.share_env(self.alloc)?;
        let start = start_at(
            self.alloc,
            place,
            seen,
            self.now.frames.bindings(),
            self.now.world,
        )?;
        match with.spawn(start) {
            Ok(child) => {
                let at = with.seen() - 1;
                self.trace.push(TraceItem::Spawn { child, at })?;
                self.now.frames.push(Value::Task(child))?;
                Ok(LentWork::Give)
            }
            Err(SpawnFault::TaskLimit) => {
                self.trace.push(TraceItem::TaskFull { at: with.seen() })?;
                Ok(turns::end(&mut self.now, Outcome::Error(Fault::TaskLimit)))
            }
            Err(SpawnFault::Memory) => Err(AllocError),
        }
    }

    /// A value that is no task is fetched. It is the one open value.
    #[inline(always)]
    fn refuse_fetch(&mut self, ready: &Ready) -> Result<LentWork<'p>, AllocError>
        requires { IsOne self.old.now.frames }
        ensures reaches { IfOk result (λ work. Reaches work self.new.now (W.Ended (Outcome.Error (Fault.NotTask (type_of (given_value self.old.now)))), now_of self.old.now)) }
        ensures same { self.new ≡ record self.old { now = self.new.now } }
    {
        let value = self.now.frames.take_one();
        let ty = type_of(ready.table(), &value).copy()?;
        drop(value);
        Ok(turns::end(&mut self.now, Outcome::Error(Fault::NotTask(ty))))
    }

    /// A task is fetched: the value that is fetched is the one open value.
    #[inline(always)]
    fn fetch<D: Dispatcher>(
        &mut self,
        ready: &Ready,
        with: &mut D,
        expr: &'p Expr,
    ) -> Result<Next<'p>, AllocError>
        requires fits { Fitting (D.knows with.old) (W.Acting expr.now self.old.now.frames.open_values) (progress_of self.old) }
        requires form { (a : _) × (out-Expr expr.now ≡ F.Fetch a) }
        requires settled { IsGiven self.old.now.frames }
        ensures { IfOk result (λ next. Goes (D.knows with.old) (W.Acting expr.now self.old.now.frames.open_values) self.old (D.knows with.new) next self.new) }
    {
        match task_of(self.now.frames.open_values()) {
            None => Ok(Next::Go(self.refuse_fetch(ready)?)),
            Some(task) => match with.fetched(task) {
                Ok(outcome) => {
                    let answer = fetched_outcome(task, outcome.get().copy()?);
                    let at = with.seen();
                    self.trace.push(TraceItem::Fetch { task, outcome, at })?;
                    self.now.frames.clear();
                    let goes = turns::answer(&mut self.now, answer)?;
                    Ok(Next::Go(turns::after_answer(goes)))
                }
                Err(FetchFault::NotYet) => Ok(Next::Wait(task)),
                Err(FetchFault::Memory) => Err(AllocError),
            },
        }
    }

    /// A form that asks nobody has its answer.
    #[inline(never)]
    pub(crate) fn operate<D: Recall>(
        &mut self,
        ready: &Ready,
        memo: &mut Memo,
        with: &D,
        expr: &'p Expr,
    ) -> Result<bool, AllocError>
        requires types { memo.old ≡ all_types ready.now }
        requires fits { Fitting (D.knows with.now) (W.Acting expr.now self.old.now.frames.open_values) (progress_of self.old) }
        requires program { ready.now ≡ (D.knows with.now).program }
        requires form { IsOperation (out-Expr expr.now) }
        requires settled { self.old.now.frames.open_text ≡ [] }
        ensures steps { IfOk result (λ goes. LentSteps (D.knows with.now) (W.Acting expr.now self.old.now.frames.open_values) self.old (D.knows with.now) (after_answer goes) self.new) }
        ensures trace { self.new.trace ≡ self.old.trace }
        ensures types { memo.new ≡ memo.old }
    {
        let outcome = acts::operate(self.alloc, ready, memo, &self.now.frames, expr)?;
        self.now.frames.clear();
        turns::answer(&mut self.now, outcome)
    }

    /// An expression acts, whose parts are the open values.
    #[inline(always)]
    fn act<D: Recall>(
        &mut self,
        ready: &'p Ready,
        memo: &mut Memo,
        ops: &HostOps,
        with: &mut D,
        expr: &'p Expr,
    ) -> Result<Next<'p>, AllocError>
        requires types { memo.old ≡ all_types ready.now }
        requires fits { Fitting (D.knows with.old) (W.Acting expr.now self.old.now.frames.open_values) (progress_of self.old) }
        requires program { ready.now ≡ (D.knows with.old).program }
        requires settled { self.old.now.frames.open_text ≡ [] }
        ensures goes { IfOk result (λ next. Goes (D.knows with.old) (W.Acting expr.now self.old.now.frames.open_values) self.old (D.knows with.new) next self.new) }
        ensures types { memo.new ≡ memo.old }
    {
        match expr {
            Expr::Call(function, _) => {
                let world = self.now.world;
                Ok(Next::Go(self.call(ready, ops, with, *function, world)?))
            }
            Expr::Latest(function, _) => {
                let world = self.look(with)?;
                Ok(Next::Go(LentWork::Calling(*function, world)))
            }
            Expr::Delete(place) => Ok(Next::Go(self.delete(ready, with, expr, *place)?)),
            Expr::Spawn(place) => Ok(Next::Go(self.spawn(with, expr, *place)?)),
            Expr::Fetch(_) => self.fetch(ready, with, expr),
            Expr::Make(_, _) | Expr::Infer(_, _) | Expr::Parts(_) | Expr::Field(_, _) => {
                let goes = self.operate(ready, memo, with, expr)?;
                Ok(Next::Go(turns::after_answer(goes)))
            }
            Expr::Part(_, _) | Expr::Egal(_, _, _) | Expr::Isa(_, _) | Expr::Sub(_, _) => {
                let goes = self.operate(ready, memo, with, expr)?;
                Ok(Next::Go(turns::after_answer(goes)))
            }
            Expr::Int(_) | Expr::Bool(_) | Expr::Nothing | Expr::Local(_) => unreachable!(),
            Expr::If(_, _, _) | Expr::And(_, _) | Expr::Or(_, _) => unreachable!(),
            Expr::Block(_) | Expr::Eval(_) | Expr::Print(_, _) => unreachable!(),
        }
    }

    /// One turn: what comes next, and what comes after it. It is out of line, so that the turns that ask nobody are a loop of their own.
    #[inline(never)]
    pub(crate) fn turn<D: Recall>(
        &mut self,
        ready: &'p Ready,
        memo: &mut Memo,
        ops: &HostOps,
        with: &mut D,
        work: LentWork<'p>,
    ) -> Result<Next<'p>, AllocError>
        requires fits { Fitting (D.knows with.old) (work_of work self.old.now) (progress_of self.old) }
        requires settled { IsSettled work self.old.now }
        requires program { ready.now ≡ (D.knows with.old).program }
        requires working { IsWorking work }
        requires types { memo.old ≡ all_types ready.now }
        ensures goes { IfOk result (λ next. Goes (D.knows with.old) (work_of work.entry self.old.now) self.old (D.knows with.new) next self.new) }
        ensures types { memo.new ≡ memo.old }
    {
        match work {
            LentWork::Eval(expr) => Ok(Next::Go(turns::begin(&mut self.now, expr)?)),
            LentWork::Give => Ok(Next::Go(turns::give(ready, &mut self.now)?)),
            LentWork::Leave => Ok(Next::Go(turns::leave(&mut self.now))),
            LentWork::Acting(expr) => self.act(ready, memo, ops, with, expr),
            LentWork::Calling(function, world) => {
                Ok(Next::Go(self.call(ready, ops, with, function, world)?))
            }
            LentWork::Items(fresh, items) => Ok(Next::Go(self.go_items(with, fresh, items)?)),
            LentWork::Defining(fresh, site, rest) => {
                Ok(Next::Go(self.define(with, fresh, site, rest)?))
            }
            LentWork::Pieces(line, pieces) => {
                Ok(Next::Go(turns::go_pieces(&mut self.now, pieces, line)?))
            }
            LentWork::Ended => unreachable!(),
            LentWork::Lost => unreachable!(),
        }
    }
}
