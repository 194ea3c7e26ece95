//! A program's tree. Its parts are shared, so that a copy of an expression or a list takes no memory.

ghost use Rattle.std.specs.Prelude.{◌≡◌, IfOk};

use crate::env::Env;
use jl_model::rows::Share;
use jl_model::shared::{SharedList, SharedNode};
use jl_model::ty::{Bytes, Decls, Tys, Written};
use std::alloc::AllocError;

/// A list of names.
pub type Names = SharedList<Bytes>;
/// A list of expressions.
pub type Exprs = SharedList<Expr>;
/// The statements of a block.
pub type Stmts = SharedList<Stmt>;
/// The items of a script, or the statements of an evaluated block.
pub type Items = SharedList<Item>;
/// What a `print` writes, from left to right.
pub type Pieces = SharedList<Piece>;
/// Definition sites.
pub type Sites = SharedList<Site>;
/// Deletion places.
pub type Deletes = SharedList<Delete>;

/// An expression. A function, a site, a struct, a spawn place and a deletion place stand by their numbers, a local name by
/// its slot.
#[derive(Drop)]
#[cycle(tree)]
pub enum Expr {
    Int(i64),
    Bool(bool),
    Nothing,
    Local(u32),
    /// A call of a function.
    Call(u32, Exprs),
    /// A call of a function in the newest world: `Base.invokelatest`.
    Latest(u32, Exprs),
    /// A constructor with its type arguments written.
    Make(Written, Exprs),
    /// A constructor whose type arguments are inferred.
    Infer(u32, Exprs),
    /// A tuple.
    Parts(Exprs),
    Field(SharedNode<Expr>, Bytes),
    Part(SharedNode<Expr>, u64),
    /// `===`, or `!==` where the flag is true.
    Egal(SharedNode<Expr>, SharedNode<Expr>, bool),
    Isa(SharedNode<Expr>, Written),
    Sub(Written, Written),
    If(SharedNode<Expr>, SharedNode<Expr>, SharedNode<Expr>),
    And(SharedNode<Expr>, SharedNode<Expr>),
    Or(SharedNode<Expr>, SharedNode<Expr>),
    Block(Stmts),
    Eval(Items),
    /// A task, whose expression stands at this spawn place.
    Spawn(u32),
    /// Deletes the methods of the function and the signature at this deletion place.
    Delete(u32),
    Fetch(SharedNode<Expr>),
    /// Writes its pieces, and a newline where the flag is true.
    Print(Pieces, bool),
}

/// A statement of a block. A binding has the number of its slot.
#[derive(Drop)]
#[cycle(tree)]
pub enum Stmt {
    Bind(u32, Expr),
    Do(Expr),
    Return(Expr),
}

/// A top-level statement, or a statement of an evaluated block. A definition has the number of its site.
#[derive(Drop)]
#[cycle(tree)]
pub enum Item {
    Define(u32),
    Bind(u32, Expr),
    Do(Expr),
}

/// What a `print` writes: a text as it stands, or the text of a value.
#[derive(Drop)]
#[cycle(tree)]
pub enum Piece {
    Text(Bytes),
    Show(Expr),
}

impl Share for Expr {
    /// An equal expression, whose parts are shared. It takes no memory.
    fn share(&self) -> Result<Expr, AllocError> {
        match self {
            Expr::Int(number) => Ok(Expr::Int(*number)),
            Expr::Bool(truth) => Ok(Expr::Bool(*truth)),
            Expr::Nothing => Ok(Expr::Nothing),
            Expr::Local(slot) => Ok(Expr::Local(*slot)),
            Expr::Call(function, arguments) => Ok(Expr::Call(*function, arguments.copy()?)),
            Expr::Latest(function, arguments) => Ok(Expr::Latest(*function, arguments.copy()?)),
            Expr::Make(ty, arguments) => Ok(Expr::Make(ty.copy()?, arguments.copy()?)),
            Expr::Infer(name, arguments) => Ok(Expr::Infer(*name, arguments.copy()?)),
            Expr::Parts(parts) => Ok(Expr::Parts(parts.copy()?)),
            Expr::Field(of, name) => Ok(Expr::Field(of.copy()?, name.copy()?)),
            Expr::Part(of, number) => Ok(Expr::Part(of.copy()?, *number)),
            Expr::Egal(left, right, negated) => Ok(Expr::Egal(
                left.copy()?,
                right.copy()?,
                *negated,
            )),
            Expr::Isa(of, ty) => Ok(Expr::Isa(of.copy()?, ty.copy()?)),
            Expr::Sub(left, right) => Ok(Expr::Sub(left.copy()?, right.copy()?)),
            Expr::If(test, then, or_else) => Ok(Expr::If(
                test.copy()?,
                then.copy()?,
                or_else.copy()?,
            )),
            Expr::And(left, right) => Ok(Expr::And(left.copy()?, right.copy()?)),
            Expr::Or(left, right) => Ok(Expr::Or(left.copy()?, right.copy()?)),
            Expr::Block(statements) => Ok(Expr::Block(statements.copy()?)),
            Expr::Eval(items) => Ok(Expr::Eval(items.copy()?)),
            Expr::Spawn(place) => Ok(Expr::Spawn(*place)),
            Expr::Delete(place) => Ok(Expr::Delete(*place)),
            Expr::Fetch(of) => Ok(Expr::Fetch(of.copy()?)),
            Expr::Print(pieces, newline) => Ok(Expr::Print(pieces.copy()?, *newline)),
        }
    }
}

impl Share for Stmt {
    fn share(&self) -> Result<Stmt, AllocError> {
        match self {
            Stmt::Bind(slot, expr) => Ok(Stmt::Bind(*slot, expr.share()?)),
            Stmt::Do(expr) => Ok(Stmt::Do(expr.share()?)),
            Stmt::Return(expr) => Ok(Stmt::Return(expr.share()?)),
        }
    }
}

impl Share for Item {
    fn share(&self) -> Result<Item, AllocError> {
        match self {
            Item::Define(site) => Ok(Item::Define(*site)),
            Item::Bind(slot, expr) => Ok(Item::Bind(*slot, expr.share()?)),
            Item::Do(expr) => Ok(Item::Do(expr.share()?)),
        }
    }
}

impl Share for Piece {
    fn share(&self) -> Result<Piece, AllocError> {
        match self {
            Piece::Text(bytes) => Ok(Piece::Text(bytes.copy()?)),
            Piece::Show(expr) => Ok(Piece::Show(expr.share()?)),
        }
    }
}

/// A definition site: the function that it adds a method to, the method's signature and its body. Sites 0 to 13 are
/// the prelude's, whose bodies are built in.
#[derive(Drop)]
pub struct Site {
    pub function: u32,
    pub sig: Written,
    pub body: Expr,
}

/// A deletion place: the function and the signature whose methods it takes away.
#[derive(Drop)]
pub struct Delete {
    pub function: u32,
    pub sig: Written,
}

/// Where a task starts: its spawn place, the values and the types that it sees, and its world.
#[derive(Drop)]
pub struct Start {
    pub spawn: u32,
    pub env: Env,
    pub bindings: Tys,
    pub world: u32,
}

impl Start {
    /// An equal start, whose values and types are shared. It takes no memory.
    pub fn copy(&self) -> Result<Start, AllocError>
        ensures { IfOk result (λ c. c ≡ self.now) }
    {
        Ok(Start {
            spawn: self.spawn,
            env: self.env.copy()?,
            bindings: self.bindings.copy()?,
            world: self.world,
        })
    }
}

/// A program: the types that its script declares, its functions (the prelude's 12 first), its definition sites (the
/// prelude's 14 first), the expressions of its spawn places, its deletion places and its top-level statements.
#[derive(Drop)]
pub struct Program {
    pub decls: Decls,
    pub functions: Names,
    pub sites: Sites,
    pub spawns: Exprs,
    pub deletes: Deletes,
    pub top: Items,
}
