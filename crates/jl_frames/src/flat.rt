//! Frames that wait, whose lists lie on the stacks.

ghost use Rattle.std.specs.Prelude.{◌≡◌, IfOk};
ghost use Rattle.jl_frames.specs.Split.{scope_above};

use crate::place::place;
use jl_program::tree::{Expr, Item, Piece, Stmt};
use std::alloc::AllocError;

/// Where the slots and the types of the static parameters of a body begin on their stacks, and where those end that the frames keep which
/// wait for it.
#[derive(Clone, Copy)]
pub struct Scope {
    pub(crate) base: u32,
    pub(crate) kept: u32,
    pub(crate) types_base: u32,
    pub(crate) types_kept: u32,
}

impl Scope {
    /// The scope of what begins above so many slots and so many types.
    pub(crate) fn above(slots: usize, types: usize) -> Result<Scope, AllocError>
        ensures { IfOk result (λ s. s ≡ scope_above slots types) }
    {
        let base = place(slots)?;
        let types_base = place(types)?;
        Ok(Scope {
            base,
            kept: base,
            types_base,
            types_kept: types_base,
        })
    }
}

/// A frame that waits for a value. Numbers that the contracts do not tell are places on the stacks.
#[derive(Clone, Copy)]
pub enum Flat<'p> {
    /// An expression whose parts are evaluated from left to right: where their values begin, the expression, and the parts after this one.
    Args(u32, &'p Expr, &'p [Expr]),
    /// A comparison whose left side is evaluated: where its value is to stand, the expression, and its right side.
    Second(u32, &'p Expr, &'p Expr),
    /// An `if`, an `&&` or an `||` whose condition is evaluated.
    Testing(&'p Expr),
    /// A statement of a block, and the statements after it.
    AfterStmt(&'p Stmt, &'p [Stmt]),
    /// A block: where the slots around it begin, and how many of all slots the frames below it keep.
    Block(u32, u32),
    /// A statement at the top or of an evaluated block: whether each such statement sees no names, the world around it, the statement, and the
    /// statements after it.
    AfterItem(bool, u32, &'p Item, &'p [Item]),
    /// An evaluated block: the scope around it.
    Evaluated(Scope),
    /// A `print`: whether a newline follows its pieces, where its text begins, and the pieces that are left.
    Showing(bool, u32, &'p [Piece]),
    /// A method's body: the caller's world, its scope, and the calls that could still be open there. In this order the places of all frames
    /// begin at the same bytes, and a frame is moved by words.
    Body(u32, Scope, u32),
}
