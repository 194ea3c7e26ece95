//! The topmost frame is taken off.

ghost use Rattle.std.specs.Prelude.{◌≡◌, ◌≤◌, ◌++◌, MatchOption, take, drop, length};
ghost use Rattle.jl_frames.specs.Popped.{OffArgs, OffBody, Popped, Passed};

use crate::flat::Flat;
use crate::frames::Frames;
use crate::scopes::drop_own;
use jl_program::tree::Expr;
use jl_program::value::Value;

/// The values between two places are dropped.
fn remove_between(values: &mut Vec<Value>, from: u32, to: u32)
    requires order { from ≤ to }
    requires within { to ≤ length values.old.items }
    ensures { values.new.items ≡ take from values.old.items ++ drop to values.old.items }
{
    drop(values.drain(from as usize..to as usize));
}

impl<'p> Frames<'p> {
    /// An expression that waits for a part, where it is the topmost frame, takes back its values, below those that are open. It answers the
    /// expression, and the parts that are left.
    #[inline(always)]
    pub fn take_args(&mut self) -> Option<(&'p Expr, &'p [Expr])>
        ensures { MatchOption result (self.new ≡ self.old) (λ pair. OffArgs pair.0.now pair.1.now self.old self.new) }
    {
        match self.flat.last() {
            Some(Flat::Args(from, expr, rest)) => {
                let taken = (*expr, *rest);
                self.from = *from;
                drop(self.flat.pop());
                Some(taken)
            }
            _ => None,
        }
    }

    /// A body, where it is the topmost frame, puts back the scope around it. It answers the caller's world, and the calls that could still be open
    /// there.
    #[inline(always)]
    pub fn take_body(&mut self) -> Option<(u32, u32)>
        ensures { MatchOption result (self.new ≡ self.old) (λ pair. OffBody pair.0 pair.1 self.old self.new) }
    {
        match self.flat.last() {
            Some(Flat::Body(world, scope, room)) => {
                let taken = (*world, *room);
                let around = *scope;
                drop(self.flat.pop());
                drop_own(&mut self.slots, &mut self.types, self.scope);
                self.scope = around;
                Some(taken)
            }
            _ => None,
        }
    }

    /// The topmost frame takes back what was kept for it: an expression its values, below those that are open, a `print` its text, a block its
    /// slots, and an evaluated block and a body the static parameters too.
    #[inline(always)]
    pub fn take(&mut self) -> Option<Flat<'p>>
        ensures { Popped result self.old self.new }
    {
        match self.flat.pop() {
            None => None,
            Some(flat) => match flat {
                Flat::Args(from, expr, rest) => {
                    self.from = from;
                    Some(Flat::Args(from, expr, rest))
                }
                Flat::Second(from, expr, second) => {
                    self.from = from;
                    Some(Flat::Second(from, expr, second))
                }
                Flat::Testing(expr) => Some(Flat::Testing(expr)),
                Flat::AfterStmt(stmt, rest) => Some(Flat::AfterStmt(stmt, rest)),
                Flat::Block(base, kept) => {
                    let around = self.scope.kept as usize;
                    self.slots.truncate(around);
                    self.scope.base = base;
                    self.scope.kept = kept;
                    Some(Flat::Block(base, kept))
                }
                Flat::AfterItem(fresh, world, item, rest) => Some(Flat::AfterItem(
                    fresh, world, item, rest,
                )),
                Flat::Evaluated(scope) => {
                    drop_own(&mut self.slots, &mut self.types, self.scope);
                    self.scope = scope;
                    Some(Flat::Evaluated(scope))
                }
                Flat::Showing(line, begin, rest) => {
                    self.text_from = begin;
                    Some(Flat::Showing(line, begin, rest))
                }
                Flat::Body(world, scope, room) => {
                    drop_own(&mut self.slots, &mut self.types, self.scope);
                    self.scope = scope;
                    Some(Flat::Body(world, scope, room))
                }
            },
        }
    }

    /// The topmost frame lets a `return` pass. What was kept for it is dropped, except the scope that a body puts back.
    #[inline(always)]
    pub fn pass(&mut self) -> Option<Flat<'p>>
        ensures { Passed result self.old self.new }
    {
        match self.flat.pop() {
            None => None,
            Some(flat) => match flat {
                Flat::Args(from, _, _) => {
                    remove_between(&mut self.values, from, self.from);
                    self.from = from;
                    Some(flat)
                }
                Flat::Second(from, _, _) => {
                    remove_between(&mut self.values, from, self.from);
                    self.from = from;
                    Some(flat)
                }
                Flat::Testing(_) => Some(flat),
                Flat::AfterStmt(_, _) => Some(flat),
                Flat::Block(_, kept) => {
                    self.scope.kept = kept;
                    Some(flat)
                }
                Flat::AfterItem(_, _, _, _) => Some(flat),
                Flat::Evaluated(scope) => {
                    self.scope.kept = scope.kept;
                    self.scope.types_kept = scope.types_kept;
                    Some(flat)
                }
                Flat::Showing(_, begin, _) => {
                    self.text.truncate(begin as usize);
                    self.text_from = begin;
                    Some(flat)
                }
                Flat::Body(_, scope, _) => {
                    drop_own(&mut self.slots, &mut self.types, self.scope);
                    self.scope = scope;
                    Some(flat)
                }
            },
        }
    }
}
