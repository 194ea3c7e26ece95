//! Where a reading is: what stands before an operand, the forms that are open, and the point between two tokens.

ghost use Rattle.std.specs.Prelude.{◌≡◌};

use crate::held::Held;
use crate::owned::Owned;
use crate::tree::{
    Branch, Callee, Eval, Expr, Field, Head, Header, Infix, Item, Method, Name, Param, Piece,
    Prefix, Stmt,
};
use jl_model::rows::{Row, Stack};
use jl_typeread::state::State as TypeState;
use jl_typeread::tree::{TypeText, VarTexts};

/// What was read, the place of its first token, and its depth. What is deeper than a script may be has its depth at one
/// past the limit, and its tree is not kept.
#[derive(Drop)]
pub struct Form<T> {
    pub tree: Owned<T>,
    pub at: u32,
    pub depth: u32,
}

/// Trees in a row, with their greatest depth.
#[derive(Drop)]
pub struct Forms<T> {
    pub trees: Row<T>,
    pub depth: u32,
}

/// A written type with its depth.
#[derive(Drop)]
pub struct TypeForm {
    pub tree: Owned<TypeText>,
    pub depth: u32,
}

/// Variables with the greatest depth of their bounds.
#[derive(Drop)]
pub struct VarsForm {
    pub vars: VarTexts,
    pub depth: u32,
}

/// A left operand with its operator.
#[derive(Drop)]
pub struct Left {
    pub left: Form<Expr>,
    pub operator: Infix,
}

/// An operator before its operand.
#[derive(Clone, Copy)]
pub struct PrefixAt {
    pub at: u32,
    pub prefix: Prefix,
}

/// What stands before an operand in its chain, level by level.
#[derive(Drop)]
pub struct Levels {
    pub or: Held<Option<Owned<Form<Expr>>>>,
    pub and: Held<Option<Owned<Form<Expr>>>>,
    pub comparison: Held<Option<Owned<Left>>>,
    pub sum: Held<Option<Owned<Left>>>,
    pub term: Held<Option<Owned<Left>>>,
    pub prefixes: Stack<PrefixAt>,
}

/// A form that ends where the expression in it ends, with what stands before it in its chain.
#[derive(Drop)]
pub enum Outer {
    /// `Threads.@spawn`
    Spawn(Levels, u32),
    /// `@eval` before an expression
    Eval(Levels, u32),
    /// `@eval` before a method, up to the `=` of the method
    Short(Levels, u32, Owned<Form<Head>>),
    /// `c ? a :`
    Otherwise(Owned<Form<Expr>>, Owned<Form<Expr>>),
}

/// How a statement begins, before its expression.
#[derive(Drop)]
pub enum Lead {
    Plain,
    /// `name =`
    Bind(Name),
    /// `return`
    Return(u32),
    /// the head of a method, and `=`
    Short(Owned<Form<Head>>),
}

/// All that stands before an operand, up to the innermost form that a token of its own will end. It is in a block of its own,
/// in which the operators of its chain change it.
pub struct Pending {
    pub lead: Lead,
    /// the innermost first
    pub outer: Stack<Outer>,
    pub levels: Levels,
    /// whether a `return` may stand in the operand
    pub returns: bool,
}

impl Drop for Pending {
    fn drop(self) {
        let Pending {
            lead,
            outer,
            levels,
            returns: _,
        } = self;
        drop(lead);
        drop(outer);
        drop(levels);
    }
}

/// The branches of an `if` so far. The next one would be `lowered` deeper than the `if` itself.
#[derive(Drop)]
pub struct Branched {
    pub branches: Row<Branch>,
    pub lowered: u32,
    pub depth: u32,
}

/// Where a method is written.
#[derive(Drop)]
pub enum Place {
    /// as an item, or as a statement of an evaluated block
    Entry,
    /// behind `@eval`
    Evaluated(Owned<Pending>, u32),
}

/// Whose head a function's name begins: the place of the method, and whether it was begun by `function`.
#[derive(Drop)]
pub struct Start {
    pub place: Place,
    pub long: bool,
    pub at: u32,
}

/// The head of a method up to its parameters.
#[derive(Drop)]
pub struct Heading {
    pub start: Start,
    pub callee: Callee,
    pub params: Forms<Param>,
}

/// What a function's name is read for.
#[derive(Drop)]
pub enum Purpose {
    Call(Owned<Pending>, u32),
    Latest(Owned<Pending>, u32),
    Head(Owned<Start>),
}

/// What arguments are given to.
#[derive(Drop)]
pub enum Called {
    Function(Callee),
    Type(TypeForm),
    Latest(Callee),
}

/// Which block is open.
#[derive(Drop)]
pub enum BlockKind {
    Begin(Owned<Pending>, u32),
    /// behind a test; the second place is that of the word before it
    Branch(Owned<Pending>, u32, Branched, u32, Form<Expr>),
    Else(Owned<Pending>, u32, Branched),
    Body(Place, Form<Head>),
}

/// Which evaluated block is open.
#[derive(Drop)]
pub enum EvalKind {
    Begin(Owned<Pending>, u32),
    Quote(Owned<Pending>, u32),
}

/// A form that is open.
#[derive(Drop)]
pub enum Frame {
    /// `(` before the first comma
    Paren(Owned<Pending>, u32),
    /// `(` and the parts before the last comma
    Tuple(Owned<Pending>, u32, Forms<Expr>),
    Args(Owned<Pending>, u32, Owned<Called>, Forms<Expr>),
    Fetch(Owned<Pending>, u32),
    Print(Owned<Pending>, u32, bool, Forms<Piece>),
    /// `c ?`
    Then(Owned<Pending>, Owned<Form<Expr>>),
    /// `if` or `elseif`, by its place
    Test(Owned<Pending>, u32, Branched, u32),
    Block(Owned<BlockKind>, Forms<Stmt>),
    Evals(EvalKind, Forms<Eval>),
}

/// A declaration up to its parameters.
#[derive(Drop)]
pub struct Declaring {
    pub at: u32,
    pub is_struct: bool,
    pub name: Name,
    pub params: VarsForm,
}

/// A struct up to its fields.
#[derive(Drop)]
pub struct Fielding {
    pub header: Form<Header>,
    pub fields: Forms<Field>,
}

/// What a type is read for.
#[derive(Drop)]
pub enum Goal {
    /// behind `isa`
    Isa(Owned<Pending>, Form<Expr>),
    /// before `<:`
    Left(Owned<Pending>, u32),
    /// behind `<:`
    Right(Owned<Pending>, u32, TypeForm),
    /// a name with braces, before `(`
    Make(Owned<Pending>, u32),
    /// behind `Base.delete_method(which(f,`
    Delete(Owned<Pending>, u32, Name),
    Param(Owned<Heading>, Option<Name>, u32),
    Parent(Owned<Declaring>),
    Field(Owned<Fielding>, Name),
}

/// The fixed tokens behind the first word of a special form.
#[derive(Clone, Copy)]
pub enum Due {
    SpawnDot,
    SpawnMacro,
    LatestDot,
    LatestName,
    LatestOpen,
    DeleteDot,
    DeleteName,
    DeleteOpen,
    WhichWord,
    WhichOpen,
    WhichName,
    FetchOpen,
    PrintOpen(bool),
    QuoteOpen,
    QuoteWord,
}

/// The place between two tokens.
#[derive(Drop)]
pub enum Point {
    /// an entry, a separator or the end of the block may stand here
    Entry,
    /// directly behind the name of a binding
    Bound(Name),
    /// directly behind `return`
    Returned(u32),
    /// an operand must stand here
    Want(Owned<Pending>),
    /// directly behind a bracket that may be empty
    First(bool),
    /// behind the comma after a tuple's only part
    Again(bool),
    /// a piece of a `print` must stand here
    Piece(bool),
    /// directly behind a string
    Texted,
    /// directly behind an operand
    Have(Owned<Pending>, Form<Expr>),
    Dot(Owned<Pending>, Form<Expr>),
    Index(Owned<Pending>, Form<Expr>),
    Indexed(Owned<Pending>, Form<Expr>, i64),
    Due(Owned<Pending>, u32, Due),
    /// directly behind the name in `Base.delete_method(which(f`
    Deleting(Owned<Pending>, u32, Name),
    /// before the bracket that ends `eval(quote .. end` or `Base.delete_method(which(f, T)`
    Ending(Owned<Pending>, Form<Expr>),
    AfterEval(Owned<Pending>, u32),
    /// the name of a function must stand here
    Function(Purpose),
    Named(Purpose, Name),
    Dotted(Purpose, u32),
    Colon(Purpose, u32),
    Known(Purpose, Owned<Callee>),
    FirstParam(Owned<Heading>),
    NextParam(Owned<Heading>),
    Param(Owned<Heading>, Name),
    /// directly behind the bracket that ends a head
    Headed(Owned<Heading>),
    Where(Owned<Heading>, Owned<TypeState>),
    Type(Owned<Goal>, Owned<TypeState>),
    /// directly behind `abstract`
    AbstractWord(u32),
    /// the name of a declaration must stand here
    DeclName(u32, bool),
    Declared(Owned<Declaring>),
    Params(Owned<Declaring>, Owned<TypeState>),
    Fields(Owned<Fielding>),
    Field(Owned<Fielding>, Name),
    /// directly behind an item that a token of its own has ended
    Made(Form<Item>),
    MadeMethod(Form<Method>),
}

/// The items so far, and the place of the first one that is too deep.
#[derive(Drop)]
pub struct ItemsRead {
    pub items: Row<Item>,
    pub too_deep: Option<u32>,
}

/// What of a reading is not the point: the forms that are open, and the items before them.
#[derive(Drop)]
pub struct Reading {
    pub stack: Stack<Frame>,
    pub script: ItemsRead,
}

/// A reading between two tokens.
#[derive(Drop)]
pub struct State {
    pub point: Point,
    pub stack: Stack<Frame>,
    pub script: ItemsRead,
}
