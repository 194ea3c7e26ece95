//! What is answered at once, with no frame, no turn and no comparison of types: operations of the prelude on two numbers, where their method is
//! remembered, and fields of slots. Most calls are such operations. Where anything else is due, a fault too, nothing is counted or changed, and the
//! turns do it.

ghost use Rattle.std.specs.Prelude.{◌≡◌, ◌<◌, ◌∷◌, [], Some, IfOk, MatchOption};
ghost use Rattle.jl_program.specs.declared.tree.Expr.{out-Expr};
ghost use Rattle.jl_program.specs.declared.value.Value.TheVariants as V;
ghost use Rattle.jl_program.specs.Valid.{IsValid};
ghost use Rattle.jl_calculus.specs.declared.history.Outcome.TheVariants as O;
ghost use Rattle.jl_host.specs.Replies.{outcome_of};
ghost use Rattle.jl_task.specs.Skip.{leaf, skip_args};
ghost use Rattle.jl_machine.specs.Lent.{now_of};
ghost use Rattle.jl_machine.specs.Numbers.{Replies, RepliesTo, RepliesToLeaves, RepliesAt, IsFieldOf, Pushed, Called, Fielded, Found, Simple, LeadsOn};
ghost use Rattle.jl_machine.specs.Steps.{progress_of};

use crate::host::operate_numbers;
use crate::now::LentWork;
use crate::task::Task;
use crate::turns;
use jl_frames::Frames;
use jl_host::{HostOps, OpReply};
use jl_model::ty::Bytes;
use jl_operations::find_field;
use jl_program::tree::Expr;
use jl_program::value::Value;
use jl_sig::Ready;
use jl_task::Recall;
use std::alloc::AllocError;

/// The number that a leaf is.
#[inline(always)]
fn number_of(frames: &Frames<'_>, expr: &Expr) -> Option<i64>
    ensures { MatchOption result (Unit {0}) (λ n. leaf frames.now.env (out-Expr expr.now) ≡ Some (V.Int n)) }
{
    match expr {
        Expr::Int(number) => Some(*number),
        Expr::Local(slot) => match frames.env().get(*slot as usize) {
            Some(Value::Int(number)) => Some(*number),
            _ => None,
        },
        _ => None,
    }
}

/// The two numbers that values are.
#[inline(always)]
fn two_numbers(values: &[Value]) -> Option<(i64, i64)>
    ensures { MatchOption result (Unit {0}) (λ pair. values.now ≡ V.Int pair.0 ∷ V.Int pair.1 ∷ []) }
{
    match values {
        [Value::Int(first), Value::Int(second)] => Some((*first, *second)),
        _ => None,
    }
}

/// The part of a slot's value at a field.
#[inline(always)]
fn field_in<'a>(
    ready: &Ready,
    frames: &'a Frames<'_>,
    from: &Expr,
    name: &Bytes,
) -> Option<&'a Value>
    ensures { MatchOption result (Unit {0}) (λ part. IsFieldOf ready.now frames.now.env from.now name.now part.now) }
{
    match from {
        Expr::Local(slot) => match frames.env().get(*slot as usize) {
            Some(whole) => find_field(ready, whole, name),
            None => None,
        },
        _ => None,
    }
}

impl<'p> Task<'p> {
    /// What an operation of the prelude replies for two numbers, where it is remembered and one more call may be made, which is not counted yet.
    #[inline(always)]
    fn reply<D: Recall>(
        &self,
        ops: &HostOps,
        with: &D,
        function: u32,
        world: u32,
        first: i64,
        second: i64,
    ) -> Option<OpReply>
        requires { IsValid (D.knows with.now).program }
        ensures { MatchOption result (Unit {0}) (λ reply. Replies (D.knows with.now) (progress_of self.entry.now) function world first second (outcome_of reply)) }
    {
        if self.calls >= self.fuel {
            return None;
        }
        if self.now.room == 0 {
            return None;
        }
        match with.recall_numbers(function, world) {
            Some(site) => Some(operate_numbers(ops, site, first, second)),
            None => None,
        }
    }

    /// What such an operation replies for the open values, where they are two numbers.
    #[inline(always)]
    pub(crate) fn reply_to_open<D: Recall>(
        &self,
        ops: &HostOps,
        with: &D,
        function: u32,
        world: u32,
    ) -> Option<OpReply>
        requires { IsValid (D.knows with.now).program }
        ensures { MatchOption result (Unit {0}) (λ reply. RepliesTo (D.knows with.now) (progress_of self.entry.now) function world self.entry.now.now.frames.open_values (outcome_of reply)) }
    {
        match two_numbers(self.now.frames.open_values()) {
            Some((first, second)) => self.reply(ops, with, function, world, first, second),
            None => None,
        }
    }

    /// What such an operation replies for two parts of a call, where they are leaves and numbers.
    #[inline(always)]
    fn reply_to_leaves<D: Recall>(
        &self,
        ops: &HostOps,
        with: &D,
        function: u32,
        left: &Expr,
        right: &Expr,
    ) -> Option<OpReply>
        requires { IsValid (D.knows with.now).program }
        ensures { MatchOption result (Unit {0}) (λ reply. RepliesToLeaves (D.knows with.now) (progress_of self.entry.now) function left.now right.now (outcome_of reply)) }
    {
        match number_of(&self.now.frames, left) {
            Some(first) => match number_of(&self.now.frames, right) {
                Some(second) => self.reply(ops, with, function, self.now.world, first, second),
                None => None,
            },
            None => None,
        }
    }

    /// What such an operation replies, where the expression is a call of it with two leaves that are numbers.
    #[inline(always)]
    fn reply_at<D: Recall>(&self, ops: &HostOps, with: &D, expr: &Expr) -> Option<OpReply>
        requires { IsValid (D.knows with.now).program }
        ensures { MatchOption result (Unit {0}) (λ reply. RepliesAt (D.knows with.now) (progress_of self.entry.now) expr.now (outcome_of reply)) }
    {
        match expr {
            Expr::Call(function, parts) => match parts.as_slice() {
                [left, right] => self.reply_to_leaves(ops, with, *function, left, right),
                _ => None,
            },
            _ => None,
        }
    }

    /// The truth value of an expression, where it is such a call and has one.
    #[inline(always)]
    pub(crate) fn test_at<D: Recall>(&self, ops: &HostOps, with: &D, expr: &Expr) -> Option<bool>
        requires { IsValid (D.knows with.now).program }
        ensures { MatchOption result (Unit {0}) (λ truth. RepliesAt (D.knows with.now) (progress_of self.entry.now) expr.now (O.Value (V.Bool truth))) }
    {
        match self.reply_at(ops, with, expr) {
            Some(reply) => match reply {
                OpReply::Int(_) => None,
                OpReply::Bool(truth) => Some(truth),
                OpReply::DivideError => None,
            },
            None => None,
        }
    }

    /// Opens what was replied to a call, which is counted then, and tells whether it is a value. Nothing is counted or opened otherwise.
    #[inline(always)]
    fn push_reply(&mut self, reply: OpReply) -> Result<bool, AllocError>
        requires { self.old.calls < self.old.fuel }
        ensures { IfOk result (λ is. Pushed is (outcome_of reply) self.old self.new) }
    {
        match reply {
            OpReply::Int(number) => {
                self.calls += 1;
                self.now.frames.push(Value::Int(number))?;
                Ok(true)
            }
            OpReply::Bool(truth) => {
                self.calls += 1;
                self.now.frames.push(Value::Bool(truth))?;
                Ok(true)
            }
            OpReply::DivideError => Ok(false),
        }
    }

    /// Opens the value of an expression that is such a call, and tells whether it was one.
    #[inline(always)]
    pub(crate) fn push_call<D: Recall>(
        &mut self,
        ops: &HostOps,
        with: &D,
        expr: &Expr,
    ) -> Result<bool, AllocError>
        requires { IsValid (D.knows with.now).program }
        ensures { IfOk result (λ is. Called is (D.knows with.now) expr.now self.old self.new) }
    {
        match self.reply_at(ops, with, expr) {
            Some(reply) => {
                let found = self.push_reply(reply)?;
                Ok(found)
            }
            None => Ok(false),
        }
    }

    /// Opens the part of a slot's value at a field, and tells whether there is one.
    #[inline(always)]
    fn push_field(&mut self, ready: &Ready, from: &Expr, name: &Bytes) -> Result<bool, AllocError>
        ensures { IfOk result (λ is. Fielded is ready.now from.now name.now self.old self.new) }
    {
        match field_in(ready, &self.now.frames, from, name) {
            Some(part) => {
                let copy = part.copy()?;
                self.now.frames.push(copy)?;
                Ok(true)
            }
            None => Ok(false),
        }
    }

    /// Opens the value of an expression that is such a field or such a call, and tells whether it was one.
    #[inline(always)]
    fn push_found<D: Recall>(
        &mut self,
        ready: &Ready,
        ops: &HostOps,
        with: &D,
        expr: &Expr,
    ) -> Result<bool, AllocError>
        requires valid { IsValid (D.knows with.now).program }
        requires program { ready.now ≡ (D.knows with.now).program }
        ensures { IfOk result (λ is. Found is (D.knows with.now) expr.now self.old self.new) }
    {
        match expr {
            Expr::Field(from, name) => {
                let found = self.push_field(ready, from.get(), name)?;
                Ok(found)
            }
            _ => {
                let found = self.push_call(ops, with, expr)?;
                Ok(found)
            }
        }
    }

    /// Opens the value of an expression that is a leaf, such a field or such a call, and tells whether it was one.
    #[inline(always)]
    fn push_simple<D: Recall>(
        &mut self,
        ready: &Ready,
        ops: &HostOps,
        with: &D,
        expr: &Expr,
    ) -> Result<bool, AllocError>
        requires valid { IsValid (D.knows with.now).program }
        requires program { ready.now ≡ (D.knows with.now).program }
        ensures { IfOk result (λ is. Simple is (D.knows with.now) expr.now self.old self.new) }
    {
        if turns::push_leaf(&mut self.now.frames, expr)? {
            return Ok(true);
        }
        let found = self.push_found(ready, ops, with, expr)?;
        Ok(found)
    }

    /// The parts of an expression that are leaves, such fields or such calls, up to the first that is none of these, or the expression acts.
    #[inline(always)]
    pub(crate) fn go_parts<D: Recall>(
        &mut self,
        ready: &Ready,
        ops: &HostOps,
        with: &D,
        expr: &'p Expr,
        parts: &'p [Expr],
    ) -> Result<LentWork<'p>, AllocError>
        requires valid { IsValid (D.knows with.now).program }
        requires program { ready.now ≡ (D.knows with.now).program }
        requires settled { self.old.now.frames.open_text ≡ [] }
        ensures { IfOk result (λ work. LeadsOn (D.knows with.now) (skip_args expr.now self.old.now.frames.open_values parts.now (now_of self.old.now)) self.old work self.new) }
    {
        for (i, first) in parts.iter().enumerate() {
            if !self.push_simple(ready, ops, with, first)? {
                self.now.frames.wait_args(expr, &parts[i + 1..])?;
                return Ok(LentWork::Eval(first));
            }
        }
        Ok(LentWork::Acting(expr))
    }
}
