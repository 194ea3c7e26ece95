//! Frames that wait.

ghost use Rattle.std.specs.Prelude.{◌≡◌, ◌∷◌, [], OnOk};
ghost use Rattle.jl_task.specs.declared.point.Frame.TheVariants as Fr;
ghost use Rattle.jl_frames.specs.Held.{waits, waits_args, waits_text, evaluates};

use crate::flat::{Flat, Scope};
use crate::frames::Frames;
use crate::place::{place, put_on_top};
use jl_program::tree::{Expr, Item, Piece, Stmt};
use std::alloc::AllocError;

impl<'p> Frames<'p> {
    /// An expression waits for a part, and keeps the values that are open.
    #[inline(always)]
    pub fn wait_args(&mut self, expr: &'p Expr, rest: &'p [Expr]) -> Result<(), AllocError>
        ensures { OnOk result (self.new ≡ waits_args self.old expr.now rest.now) }
    {
        let from = place(self.values.len())?;
        put_on_top(&mut self.flat, Flat::Args(self.from, expr, rest))?;
        self.from = from;
        Ok(())
    }

    /// A comparison waits for its left side, after which its right side is left.
    #[inline(always)]
    pub fn wait_second(&mut self, expr: &'p Expr, second: &'p Expr) -> Result<(), AllocError>
        ensures { OnOk result (self.new ≡ waits_args self.old expr.now (second.now ∷ [])) }
    {
        let from = place(self.values.len())?;
        put_on_top(&mut self.flat, Flat::Second(self.from, expr, second))?;
        self.from = from;
        Ok(())
    }

    /// An `if`, an `&&` or an `||` waits for its condition.
    #[inline(always)]
    pub fn wait_test(&mut self, expr: &'p Expr) -> Result<(), AllocError>
        ensures { OnOk result (self.new ≡ waits self.old (Fr.Testing expr.now)) }
    {
        put_on_top(&mut self.flat, Flat::Testing(expr))?;
        Ok(())
    }

    /// A statement of a block waits.
    #[inline(always)]
    pub fn wait_stmt(&mut self, stmt: &'p Stmt, rest: &'p [Stmt]) -> Result<(), AllocError>
        ensures { OnOk result (self.new ≡ waits self.old (Fr.AfterStmt stmt.now rest.now)) }
    {
        put_on_top(&mut self.flat, Flat::AfterStmt(stmt, rest))?;
        Ok(())
    }

    /// A block waits, and keeps the slots around it, which it sees too.
    #[inline(always)]
    pub fn wait_block(&mut self) -> Result<(), AllocError>
        ensures { OnOk result (self.new ≡ waits self.old (Fr.Block self.old.env)) }
    {
        let kept = place(self.slots.len())?;
        put_on_top(
            &mut self.flat,
            Flat::Block(self.scope.base, self.scope.kept),
        )?;
        self.scope.kept = kept;
        Ok(())
    }

    /// A statement at the top or of an evaluated block waits.
    #[inline(always)]
    pub fn wait_item(
        &mut self,
        item: &'p Item,
        fresh: bool,
        world: u32,
        rest: &'p [Item],
    ) -> Result<(), AllocError>
        ensures { OnOk result (self.new ≡ waits self.old (Fr.AfterItem item.now fresh world rest.now)) }
    {
        put_on_top(&mut self.flat, Flat::AfterItem(fresh, world, item, rest))?;
        Ok(())
    }

    /// An evaluated block waits, and keeps the slots and the static parameters around it, which it does not see.
    pub fn wait_eval(&mut self) -> Result<(), AllocError>
        ensures { OnOk result (self.new ≡ evaluates self.old) }
    {
        let above = Scope::above(self.slots.len(), self.types.len())?;
        put_on_top(&mut self.flat, Flat::Evaluated(self.scope))?;
        self.scope = above;
        Ok(())
    }

    /// A `print` waits for a value, and keeps the text that is open.
    pub fn wait_text(&mut self, rest: &'p [Piece], newline: bool) -> Result<(), AllocError>
        ensures { OnOk result (self.new ≡ waits_text self.old rest.now newline) }
    {
        let text_from = place(self.text.len())?;
        put_on_top(&mut self.flat, Flat::Showing(newline, self.text_from, rest))?;
        self.text_from = text_from;
        Ok(())
    }
}
