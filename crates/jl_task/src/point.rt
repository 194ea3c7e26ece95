//! Where a run is: what a task still has to do, as data. No value of these types is ever made: contracts and proofs speak of them.

use jl_calculus::history::Outcome;
use jl_model::rows::{Rest, Row, Stack};
use jl_model::ty::Tys;
use jl_program::tree::{Expr, Item, Piece, Stmt};
use jl_program::value::Value;

/// What waits for a value. A form that waits stands in its frame as it is, with what is still to be done of it.
pub enum Frame {
    /// An expression whose parts are evaluated from left to right: the values so far, and the parts after this one.
    Args(Expr, Row<Value>, Rest<Expr>),
    /// An `if`, an `&&` or an `||` whose condition is evaluated.
    Testing(Expr),
    /// A statement of a block, and the statements after it.
    AfterStmt(Stmt, Rest<Stmt>),
    /// A block: the slots around it.
    Block(Row<Value>),
    /// A statement at the top or of an evaluated block: whether each such statement sees no names, the world around it, and the statements
    /// after it.
    AfterItem(Item, bool, u32, Rest<Item>),
    /// An evaluated block: the slots and the static parameters around it.
    Evaluated(Row<Value>, Tys),
    /// A `print`: the text so far, the pieces that are left, and whether a newline follows them.
    Showing(Row<u8>, Rest<Piece>, bool),
    /// A method's body: the caller's world, the calls that could still be open there, its slots and its static parameters.
    Body(u32, u32, Row<Value>, Tys),
}

/// What comes next.
pub enum Work {
    Eval(Expr),
    Give(Value),
    /// A `return` with this value.
    Leave(Value),
    /// An expression all of whose parts have values.
    Acting(Expr, Row<Value>),
    /// A call of a function in a world.
    Calling(u32, u32, Row<Value>),
    /// The statements of a block that are left, and the value of the one before.
    Stmts(Rest<Stmt>, Value),
    /// The statements at the top or of an evaluated block that are left, whether each sees no names, and the value of the one before.
    Items(bool, Rest<Item>, Value),
    /// A definition that has looked, and the statements after it.
    Defining(u32, bool, Rest<Item>),
    /// The text so far of a `print`, the pieces that are left, and whether a newline follows them.
    Pieces(Row<u8>, Rest<Piece>, bool),
    Ended(Outcome),
    /// After want of memory.
    Lost,
}

/// What a turn of the machine's own may change, but for what comes next: the world, the number of calls that may
/// still be open, the slots, the static parameters, the frames that wait and the output.
pub struct Now {
    pub world: u32,
    pub room: u32,
    pub env: Row<Value>,
    pub bindings: Tys,
    pub stack: Stack<Frame>,
    pub out: Row<u8>,
}
