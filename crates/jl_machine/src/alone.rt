//! The turns of a task that ask nobody, in loops. What comes next is kept in registers between them, where a turn of its own writes it into
//! the machine and reads it again.

ghost use Rattle.std.specs.Prelude.{◌≡◌, [], IfOk};
ghost use Rattle.jl_program.specs.declared.tree.Expr.{out-Expr};
ghost use Rattle.jl_program.specs.declared.tree.Expr.TheOpen as F;
ghost use Rattle.jl_program.specs.Scope.{all_types};
ghost use Rattle.jl_task.specs.declared.point.Work.TheVariants as W;
ghost use Rattle.jl_task.specs.Fits.{Fitting};
ghost use Rattle.jl_machine.specs.Lent.{work_of, given_value, IsClosed, IsGiven, IsSettled};
ghost use Rattle.jl_machine.specs.Steps.{progress_of, Moves, MayMove, GoesOn};

use crate::now::LentWork;
use crate::task::Task;
use crate::turns;
use jl_host::HostOps;
use jl_operations::Memo;
use jl_program::tree::Expr;
use jl_sig::Ready;
use jl_task::Recall;
use std::alloc::AllocError;

impl<'p> Task<'p> {
    /// A call whose arguments are the open values, where its method is remembered for their types. Nothing is answered where it is not, or
    /// where no call is left or too many are open.
    #[inline(always)]
    fn recall_types<D: Recall>(
        &mut self,
        ready: &'p Ready,
        ops: &HostOps,
        with: &D,
        function: u32,
        world: u32,
    ) -> Result<Option<LentWork<'p>>, AllocError>
        requires fits { Fitting (D.knows with.now) (W.Calling function world self.old.now.frames.open_values) (progress_of self.old) }
        requires program { ready.now ≡ (D.knows with.now).program }
        requires settled { self.old.now.frames.open_text ≡ [] }
        ensures { IfOk result (λ next. MayMove (D.knows with.now) (W.Calling function world self.old.now.frames.open_values) self.old next self.new) }
    {
        if self.calls >= self.fuel {
            return Ok(None);
        }
        if self.now.room == 0 {
            return Ok(None);
        }
        match with.recall(function, self.now.frames.open_values(), world) {
            Some(found) => {
                self.calls += 1;
                let work = turns::perform(
                    &mut self.now,
                    ready,
                    ops,
                    found.site,
                    world,
                    found.statics,
                )?;
                Ok(Some(work))
            }
            None => Ok(None),
        }
    }

    /// A call whose arguments are the open values, where its method is remembered: for two numbers apart, and for other values by their types.
    #[inline(always)]
    fn recall<D: Recall>(
        &mut self,
        ready: &'p Ready,
        ops: &HostOps,
        with: &D,
        function: u32,
        world: u32,
    ) -> Result<Option<LentWork<'p>>, AllocError>
        requires fits { Fitting (D.knows with.now) (W.Calling function world self.old.now.frames.open_values) (progress_of self.old) }
        requires program { ready.now ≡ (D.knows with.now).program }
        requires settled { self.old.now.frames.open_text ≡ [] }
        ensures { IfOk result (λ next. MayMove (D.knows with.now) (W.Calling function world self.old.now.frames.open_values) self.old next self.new) }
    {
        match self.reply_to_open(ops, with, function, world) {
            Some(reply) => {
                self.calls += 1;
                self.now.frames.clear();
                let work = turns::take_reply(&mut self.now, reply)?;
                Ok(Some(work))
            }
            None => {
                let next = self.recall_types(ready, ops, with, function, world)?;
                Ok(next)
            }
        }
    }

    /// An expression acts, whose parts are the open values, where it asks nobody.
    #[inline(always)]
    fn act_alone<D: Recall>(
        &mut self,
        ready: &'p Ready,
        memo: &mut Memo,
        ops: &HostOps,
        with: &D,
        expr: &'p Expr,
    ) -> Result<Option<LentWork<'p>>, AllocError>
        requires types { memo.old ≡ all_types ready.now }
        requires fits { Fitting (D.knows with.now) (W.Acting expr.now self.old.now.frames.open_values) (progress_of self.old) }
        requires program { ready.now ≡ (D.knows with.now).program }
        requires settled { self.old.now.frames.open_text ≡ [] }
        ensures moves { IfOk result (λ next. MayMove (D.knows with.now) (W.Acting expr.now self.old.now.frames.open_values) self.old next self.new) }
        ensures types { memo.new ≡ memo.old }
    {
        match expr {
            Expr::Call(function, _) => {
                let world = self.now.world;
                let next = self.recall(ready, ops, with, *function, world)?;
                Ok(next)
            }
            Expr::Make(_, _) | Expr::Infer(_, _) | Expr::Parts(_) | Expr::Field(_, _) => {
                let goes = self.operate(ready, memo, with, expr)?;
                Ok(Some(turns::after_answer(goes)))
            }
            Expr::Part(_, _) | Expr::Egal(_, _, _) | Expr::Isa(_, _) | Expr::Sub(_, _) => {
                let goes = self.operate(ready, memo, with, expr)?;
                Ok(Some(turns::after_answer(goes)))
            }
            _ => Ok(None),
        }
    }

    /// A call is begun: it is answered at once, or its parts are, as far as they can be.
    #[inline(always)]
    fn begin_call<D: Recall>(
        &mut self,
        ready: &Ready,
        ops: &HostOps,
        with: &D,
        expr: &'p Expr,
        parts: &'p [Expr],
    ) -> Result<LentWork<'p>, AllocError>
        requires form { (f : _) × (out-Expr expr.now ≡ F.Call f parts.now) }
        requires program { ready.now ≡ (D.knows with.now).program }
        requires fits { Fitting (D.knows with.now) (W.Eval expr.now) (progress_of self.old) }
        requires settled { IsClosed self.old.now.frames }
        ensures { IfOk result (λ work. Moves (D.knows with.now) (W.Eval expr.now) self.old work self.new) }
    {
        if self.push_call(ops, with, expr)? {
            return Ok(LentWork::Give);
        }
        let work = self.go_parts(ready, ops, with, expr, parts)?;
        Ok(work)
    }

    /// An `if` is begun: it takes its branch, where its condition is answered at once, or its condition is begun.
    #[inline(always)]
    fn begin_if<D: Recall>(
        &mut self,
        ops: &HostOps,
        with: &D,
        expr: &'p Expr,
        test: &'p Expr,
        yes: &'p Expr,
        no: &'p Expr,
    ) -> Result<LentWork<'p>, AllocError>
        requires form { out-Expr expr.now ≡ F.If test.now yes.now no.now }
        requires fits { Fitting (D.knows with.now) (W.Eval expr.now) (progress_of self.old) }
        requires settled { IsClosed self.old.now.frames }
        ensures { IfOk result (λ work. Moves (D.knows with.now) (W.Eval expr.now) self.old work self.new) }
    {
        match self.test_at(ops, with, test) {
            Some(truth) => {
                self.calls += 1;
                if truth {
                    return Ok(LentWork::Eval(yes));
                }
                Ok(LentWork::Eval(no))
            }
            None => {
                self.now.frames.wait_test(expr)?;
                Ok(LentWork::Eval(test))
            }
        }
    }

    /// An expression is begun.
    #[inline(always)]
    fn begin_often<D: Recall>(
        &mut self,
        ready: &Ready,
        ops: &HostOps,
        with: &D,
        expr: &'p Expr,
    ) -> Result<LentWork<'p>, AllocError>
        requires program { ready.now ≡ (D.knows with.now).program }
        requires fits { Fitting (D.knows with.now) (W.Eval expr.now) (progress_of self.old) }
        requires settled { IsClosed self.old.now.frames }
        ensures { IfOk result (λ work. Moves (D.knows with.now) (W.Eval expr.now) self.old work self.new) }
    {
        match expr {
            Expr::Call(_, parts) => {
                let work = self.begin_call(ready, ops, with, expr, parts.as_slice())?;
                Ok(work)
            }
            Expr::If(test, yes, no) => {
                let work = self.begin_if(ops, with, expr, test.get(), yes.get(), no.get())?;
                Ok(work)
            }
            _ => {
                let work = turns::begin(&mut self.now, expr)?;
                Ok(work)
            }
        }
    }

    /// The one open value is given to the topmost frame.
    #[inline(always)]
    fn give_often<D: Recall>(
        &mut self,
        ready: &'p Ready,
        ops: &HostOps,
        with: &D,
    ) -> Result<LentWork<'p>, AllocError>
        requires fits { Fitting (D.knows with.now) (W.Give (given_value self.old.now)) (progress_of self.old) }
        requires program { ready.now ≡ (D.knows with.now).program }
        requires settled { IsGiven self.old.now.frames }
        ensures { IfOk result (λ work. Moves (D.knows with.now) (W.Give (given_value self.old.now)) self.old work self.new) }
    {
        match self.now.frames.take_args() {
            Some((expr, rest)) => {
                let work = self.go_parts(ready, ops, with, expr, rest)?;
                Ok(work)
            }
            None => {
                let work = turns::give(ready, &mut self.now)?;
                Ok(work)
            }
        }
    }

    /// A turn of those that come most often, which asks nobody. Nothing is answered where what comes next is none of them, or asks.
    #[inline(always)]
    fn turn_often<D: Recall>(
        &mut self,
        ready: &'p Ready,
        memo: &mut Memo,
        ops: &HostOps,
        with: &D,
        work: LentWork<'p>,
    ) -> Result<Option<LentWork<'p>>, AllocError>
        requires types { memo.old ≡ all_types ready.now }
        requires fits { Fitting (D.knows with.now) (work_of work self.old.now) (progress_of self.old) }
        requires program { ready.now ≡ (D.knows with.now).program }
        requires settled { IsSettled work self.old.now }
        ensures moves { IfOk result (λ next. MayMove (D.knows with.now) (work_of work.entry self.old.now) self.old next self.new) }
        ensures types { memo.new ≡ memo.old }
    {
        match work {
            LentWork::Eval(expr) => {
                let next = self.begin_often(ready, ops, with, expr)?;
                Ok(Some(next))
            }
            LentWork::Give => {
                let next = self.give_often(ready, ops, with)?;
                Ok(Some(next))
            }
            LentWork::Acting(expr) => {
                let next = self.act_alone(ready, memo, ops, with, expr)?;
                Ok(next)
            }
            _ => Ok(None),
        }
    }

    /// Turns that come most often, as many as there are.
    #[inline(always)]
    fn go_often<D: Recall>(
        &mut self,
        ready: &'p Ready,
        memo: &mut Memo,
        ops: &HostOps,
        with: &D,
        first: LentWork<'p>,
    ) -> Result<LentWork<'p>, AllocError>
        requires types { memo.old ≡ all_types ready.now }
        requires fits { Fitting (D.knows with.now) (work_of first self.old.now) (progress_of self.old) }
        requires program { ready.now ≡ (D.knows with.now).program }
        requires settled { IsSettled first self.old.now }
        ensures on { IfOk result (λ last. GoesOn (D.knows with.now) first.entry self.old last self.new) }
        ensures types { memo.new ≡ memo.old }
    {
        let Some(mut work) = first.often() else {
            return Ok(first);
        };
        'often: loop {
            match self.turn_often(ready, memo, ops, with, work)? {
                Some(next) => match next.often() {
                    Some(same) => work = same,
                    None => return Ok(next),
                },
                None => return Ok(work),
            }
        }
    }

    /// A turn of the others that ask nobody. Nothing is answered where what comes next is none of them.
    #[inline(always)]
    fn turn_seldom<D: Recall>(
        &mut self,
        with: &D,
        work: LentWork<'p>,
    ) -> Result<Option<LentWork<'p>>, AllocError>
        requires fits { Fitting (D.knows with.now) (work_of work self.old.now) (progress_of self.old) }
        requires settled { IsSettled work self.old.now }
        ensures { IfOk result (λ next. MayMove (D.knows with.now) (work_of work.entry self.old.now) self.old next self.new) }
    {
        match work {
            LentWork::Leave => Ok(Some(turns::leave(&mut self.now))),
            LentWork::Pieces(line, pieces) => {
                let next = turns::go_pieces(&mut self.now, pieces, line)?;
                Ok(Some(next))
            }
            _ => Ok(None),
        }
    }

    /// Turns that ask nobody, as many as there are. What comes next is kept in registers between them, where a turn of its own writes it
    /// into the machine and reads it again.
    #[inline(always)]
    pub(crate) fn go_on<D: Recall>(
        &mut self,
        ready: &'p Ready,
        memo: &mut Memo,
        ops: &HostOps,
        with: &D,
        first: LentWork<'p>,
    ) -> Result<LentWork<'p>, AllocError>
        requires types { memo.old ≡ all_types ready.now }
        requires fits { Fitting (D.knows with.now) (work_of first self.old.now) (progress_of self.old) }
        requires program { ready.now ≡ (D.knows with.now).program }
        requires settled { IsSettled first self.old.now }
        ensures on { IfOk result (λ last. GoesOn (D.knows with.now) first.entry self.old last self.new) }
        ensures types { memo.new ≡ memo.old }
    {
        let mut work = first;
        'alone: loop {
            let last = self.go_often(ready, memo, ops, with, work)?;
            match self.turn_seldom(with, last)? {
                Some(next) => work = next,
                None => return Ok(last),
            }
        }
    }
}
