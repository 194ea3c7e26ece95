//! Scripts: a tree with one type for each rule of the grammar. Each node keeps the offset in bytes of its first token.

use jl_model::shared::{SharedList, SharedNode};
use jl_model::ty::Bytes;
use jl_token::token::Operator;
use jl_typeread::tree::{TypeText, VarTexts};

/// The items of a script, in order.
pub type Items = SharedList<Item>;
/// The fields of a struct, in order.
pub type Fields = SharedList<Field>;
/// The parameters of a method, in order.
pub type Params = SharedList<Param>;
/// The statements of a block.
pub type Stmts = SharedList<Stmt>;
/// The statements of an evaluated block.
pub type Evals = SharedList<Eval>;
/// Expressions, in order.
pub type Exprs = SharedList<Expr>;
/// The tests of an `if` with their blocks: the first, and one for each `elseif`.
pub type Branches = SharedList<Branch>;
/// What a `print` writes, from left to right.
pub type Pieces = SharedList<Piece>;

/// A script. Its drop is written by hand: so it is proved here alone, and is one call in every other crate.
pub struct Script {
    pub items: Items,
}

impl Drop for Script {
    fn drop(self) {
        let Script { items } = self;
        drop(items);
    }
}

/// A name, and where it stands.
#[derive(Drop)]
pub struct Name {
    pub at: u32,
    pub bytes: Bytes,
}

/// An item of a script.
#[derive(Drop)]
pub enum Item {
    Abstract(Abstract),
    Struct(Struct),
    Method(Method),
    /// `name = e`
    Bind(Name, Expr),
    Do(Expr),
}

/// The head of a declaration: the name, its parameters and what it is declared below (Julia manual, Types).
#[derive(Drop)]
pub struct Header {
    pub at: u32,
    pub name: Name,
    /// None where no braces are written.
    pub params: VarTexts,
    pub parent: Option<TypeText>,
}

/// The declaration of an abstract type.
#[derive(Drop)]
pub struct Abstract {
    pub header: Header,
}

/// The declaration of a struct.
#[derive(Drop)]
pub struct Struct {
    pub header: Header,
    pub fields: Fields,
}

/// A field of a struct.
#[derive(Drop)]
pub struct Field {
    pub name: Name,
    pub ty: Option<TypeText>,
}

/// The function that is called, or that a method is added to (Julia manual, Methods).
#[derive(Drop)]
pub enum Callee {
    /// `f`
    Plain(Name),
    /// `Base.f`, by the place of `Base`
    Base(u32, Name),
    /// `Base.:+`, by the place of `Base`
    Operator(u32, Operator),
}

/// A parameter of a method.
#[derive(Drop)]
pub enum Param {
    /// `x`
    Name(Name),
    /// `x::T`
    Typed(Name, TypeText),
    /// `::T`
    Unnamed(u32, TypeText),
}

/// The head of a method, with the variables of its `where`: none where none is written.
#[derive(Drop)]
pub struct Head {
    pub callee: Callee,
    pub params: Params,
    pub vars: VarTexts,
}

/// A method (Julia manual, Functions).
#[derive(Drop)]
#[cycle(tree)]
pub enum Method {
    /// `function f(..) .. end`
    Long(u32, Head, Stmts),
    /// `f(..) = e`
    Short(u32, Head, SharedNode<Expr>),
}

/// A statement of a block.
#[derive(Drop)]
#[cycle(tree)]
pub enum Stmt {
    /// `name = e`
    Bind(Name, Expr),
    /// `return e`
    Return(u32, Expr),
    /// `return` alone
    ReturnNothing(u32),
    Do(Expr),
}

/// A statement of an evaluated block.
#[derive(Drop)]
#[cycle(tree)]
pub enum Eval {
    Method(Method),
    Do(Expr),
}

/// A test with its block.
#[derive(Drop)]
#[cycle(tree)]
pub struct Branch {
    pub at: u32,
    pub test: Expr,
    pub block: Stmts,
}

/// What a `print` writes: a text as it stands, or the text of a value.
#[derive(Drop)]
#[cycle(tree)]
pub enum Piece {
    Text(u32, Bytes),
    Show(Expr),
}

/// The operators with one operand.
#[derive(Clone, Copy)]
pub enum Prefix {
    Minus,
    Not,
}

/// The operators with two operands.
#[derive(Clone, Copy)]
pub enum Infix {
    Or,
    And,
    Equal,
    NotEqual,
    Less,
    LessEqual,
    Greater,
    GreaterEqual,
    Identical,
    NotIdentical,
    Plus,
    Minus,
    Times,
    Divide,
    Remainder,
}

/// An expression.
#[derive(Drop)]
#[cycle(tree)]
pub enum Expr {
    Number(u32, i64),
    Bool(u32, bool),
    Nothing(u32),
    Name(u32, Bytes),
    /// `(e)`
    Paren(u32, SharedNode<Expr>),
    /// `()`, `(e,)`, `(e, e)`
    Tuple(u32, Exprs),
    /// `f(e, e)`
    Call(u32, Callee, Exprs),
    /// `P{T}(e, e)`, by the written type
    Make(u32, TypeText, Exprs),
    /// `e.name`
    Field(u32, SharedNode<Expr>, Name),
    /// `e[1]`
    Part(u32, SharedNode<Expr>, i64),
    Prefix(u32, Prefix, SharedNode<Expr>),
    Infix(u32, Infix, SharedNode<Expr>, SharedNode<Expr>),
    /// `e isa T`
    Isa(u32, SharedNode<Expr>, TypeText),
    /// `S <: T`
    Sub(u32, TypeText, TypeText),
    /// `c ? a : b`
    Choose(u32, SharedNode<Expr>, SharedNode<Expr>, SharedNode<Expr>),
    /// `if .. elseif .. end`
    If(u32, Branches),
    /// `if .. elseif .. else .. end`
    IfElse(u32, Branches, Stmts),
    /// `begin .. end`
    Begin(u32, Stmts),
    /// `Base.invokelatest(f, e, e)`
    Latest(u32, Callee, Exprs),
    /// `Base.delete_method(which(f, T))`, by the place of `Base`
    Delete(u32, Name, TypeText),
    /// `Threads.@spawn e`
    Spawn(u32, SharedNode<Expr>),
    /// `@eval` and a method
    EvalMethod(u32, SharedNode<Method>),
    /// `@eval begin .. end`
    EvalBlock(u32, Evals),
    /// `@eval e`
    EvalExpr(u32, SharedNode<Expr>),
    /// `eval(quote .. end)`
    EvalQuote(u32, Evals),
    /// `fetch(e)`
    Fetch(u32, SharedNode<Expr>),
    /// `println(..)`, or `print(..)` where the flag is false
    Print(u32, bool, Pieces),
}
