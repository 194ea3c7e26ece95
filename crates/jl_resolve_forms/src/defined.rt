//! The functions and types of a script: their names where they stand, in text order.

ghost use Rattle.std.specs.Prelude.{◌≡◌, ◌++◌, ◌∷◌, [], map, OnOk, IfOk};
ghost use Rattle.jl_program.specs.Names.{is_among};
ghost use Rattle.jl_resolve_forms.specs.Defined.{own_name, join_names, in_expr, in_method, in_stmt, in_eval, in_piece, in_branch, in_item, type_name, methods_of, types_of, with_names, functions_of};

use jl_grammar::tree::{Branch, Callee, Eval, Expr, Item, Method, Name, Piece, Stmt};
use jl_names::list::NameList;
use jl_names::marked::MarkedNames;
use std::alloc::{AllocError, Global};

/// A name where it stands.
fn put_name(out: &mut MarkedNames, name: &Name) -> Result<(), AllocError>
    ensures { OnOk result (out.new ≡ out.old ++ name.now ∷ []) }
{
    out.push(Name {
        at: name.at,
        bytes: name.bytes.copy()?,
    })
}

/// A method without `Base.` gives its name to a function.
fn put_own(out: &mut MarkedNames, callee: &Callee) -> Result<(), AllocError>
    ensures { OnOk result (out.new ≡ out.old ++ own_name callee.now) }
{
    match callee {
        Callee::Plain(name) => put_name(out, name),
        Callee::Base(_, _) => Ok(()),
        Callee::Operator(_, _) => Ok(()),
    }
}

#[cycle(names)]
fn put_exprs(out: &mut MarkedNames, texts: &[Expr]) -> Result<(), AllocError>
    ensures { OnOk result (out.new ≡ out.old ++ join_names (map in_expr texts.now)) }
{
    for text in texts {
        put_expr(out, text)?;
    }
    Ok(())
}

#[cycle(names)]
fn put_stmts(out: &mut MarkedNames, texts: &[Stmt]) -> Result<(), AllocError>
    ensures { OnOk result (out.new ≡ out.old ++ join_names (map in_stmt texts.now)) }
{
    for text in texts {
        put_stmt(out, text)?;
    }
    Ok(())
}

#[cycle(names)]
fn put_evals(out: &mut MarkedNames, texts: &[Eval]) -> Result<(), AllocError>
    ensures { OnOk result (out.new ≡ out.old ++ join_names (map in_eval texts.now)) }
{
    for text in texts {
        put_eval(out, text)?;
    }
    Ok(())
}

#[cycle(names)]
fn put_pieces(out: &mut MarkedNames, texts: &[Piece]) -> Result<(), AllocError>
    ensures { OnOk result (out.new ≡ out.old ++ join_names (map in_piece texts.now)) }
{
    for text in texts {
        put_piece(out, text)?;
    }
    Ok(())
}

#[cycle(names)]
fn put_branches(out: &mut MarkedNames, texts: &[Branch]) -> Result<(), AllocError>
    ensures { OnOk result (out.new ≡ out.old ++ join_names (map in_branch texts.now)) }
{
    for text in texts {
        put_branch(out, text)?;
    }
    Ok(())
}

/// The names in a statement.
#[cycle(names)]
fn put_stmt(out: &mut MarkedNames, text: &Stmt) -> Result<(), AllocError>
    ensures { OnOk result (out.new ≡ out.old ++ in_stmt text.now) }
{
    match text {
        Stmt::Bind(_, value) => put_expr(out, value),
        Stmt::Return(_, value) => put_expr(out, value),
        Stmt::ReturnNothing(_) => Ok(()),
        Stmt::Do(value) => put_expr(out, value),
    }
}

/// The names in a statement of an evaluated block.
#[cycle(names)]
fn put_eval(out: &mut MarkedNames, text: &Eval) -> Result<(), AllocError>
    ensures { OnOk result (out.new ≡ out.old ++ in_eval text.now) }
{
    match text {
        Eval::Method(method) => put_method(out, method),
        Eval::Do(value) => put_expr(out, value),
    }
}

/// The names in a piece of a print.
#[cycle(names)]
fn put_piece(out: &mut MarkedNames, text: &Piece) -> Result<(), AllocError>
    ensures { OnOk result (out.new ≡ out.old ++ in_piece text.now) }
{
    match text {
        Piece::Text(_, _) => Ok(()),
        Piece::Show(value) => put_expr(out, value),
    }
}

/// The names in a branch.
#[cycle(names)]
fn put_branch(out: &mut MarkedNames, text: &Branch) -> Result<(), AllocError>
    ensures { OnOk result (out.new ≡ out.old ++ in_branch text.now) }
{
    put_expr(out, &text.test)?;
    put_stmts(out, text.block.as_slice())
}

/// The name of a method, and those in its body.
#[cycle(names)]
fn put_method(out: &mut MarkedNames, text: &Method) -> Result<(), AllocError>
    ensures { OnOk result (out.new ≡ out.old ++ in_method text.now) }
{
    match text {
        Method::Long(_, head, body) => {
            put_own(out, &head.callee)?;
            put_stmts(out, body.as_slice())
        }
        Method::Short(_, head, body) => {
            put_own(out, &head.callee)?;
            put_expr(out, body.get())
        }
    }
}

/// The names that the methods in an expression give to functions, evaluated ones included.
#[cycle(names)]
fn put_expr(out: &mut MarkedNames, text: &Expr) -> Result<(), AllocError>
    ensures { OnOk result (out.new ≡ out.old ++ in_expr text.now) }
{
    match text {
        Expr::Number(_, _) => Ok(()),
        Expr::Bool(_, _) => Ok(()),
        Expr::Nothing(_) => Ok(()),
        Expr::Name(_, _) => Ok(()),
        Expr::Paren(_, inner) => put_expr(out, inner.get()),
        Expr::Tuple(_, texts) => put_exprs(out, texts.as_slice()),
        Expr::Call(_, _, texts) => put_exprs(out, texts.as_slice()),
        Expr::Make(_, _, texts) => put_exprs(out, texts.as_slice()),
        Expr::Field(_, inner, _) => put_expr(out, inner.get()),
        Expr::Part(_, inner, _) => put_expr(out, inner.get()),
        Expr::Prefix(_, _, inner) => put_expr(out, inner.get()),
        Expr::Infix(_, _, left, right) => {
            put_expr(out, left.get())?;
            put_expr(out, right.get())
        }
        Expr::Isa(_, inner, _) => put_expr(out, inner.get()),
        Expr::Sub(_, _, _) => Ok(()),
        Expr::Choose(_, test, then, or_else) => {
            put_expr(out, test.get())?;
            put_expr(out, then.get())?;
            put_expr(out, or_else.get())
        }
        Expr::If(_, branches) => put_branches(out, branches.as_slice()),
        Expr::IfElse(_, branches, texts) => {
            put_branches(out, branches.as_slice())?;
            put_stmts(out, texts.as_slice())
        }
        Expr::Begin(_, texts) => put_stmts(out, texts.as_slice()),
        Expr::Latest(_, _, texts) => put_exprs(out, texts.as_slice()),
        Expr::Delete(_, _, _) => Ok(()),
        Expr::Spawn(_, inner) => put_expr(out, inner.get()),
        Expr::EvalMethod(_, method) => put_method(out, method.get()),
        Expr::EvalBlock(_, texts) => put_evals(out, texts.as_slice()),
        Expr::EvalExpr(_, inner) => put_expr(out, inner.get()),
        Expr::EvalQuote(_, texts) => put_evals(out, texts.as_slice()),
        Expr::Fetch(_, inner) => put_expr(out, inner.get()),
        Expr::Print(_, _, pieces) => put_pieces(out, pieces.as_slice()),
    }
}

fn put_item(out: &mut MarkedNames, item: &Item) -> Result<(), AllocError>
    ensures { OnOk result (out.new ≡ out.old ++ in_item item.now) }
{
    match item {
        Item::Abstract(_) => Ok(()),
        Item::Struct(_) => Ok(()),
        Item::Method(method) => put_method(out, method),
        Item::Bind(_, value) => put_expr(out, value),
        Item::Do(value) => put_expr(out, value),
    }
}

/// The names of the functions of a script.
pub fn methods_of(alloc: Global, items: &[Item]) -> Result<MarkedNames, AllocError>
    ensures { IfOk result (λ ns. ns ≡ methods_of items.now) }
{
    let mut out = MarkedNames::new(alloc);
    for item in items {
        put_item(&mut out, item)?;
    }
    Ok(out)
}

fn put_type(out: &mut MarkedNames, item: &Item) -> Result<(), AllocError>
    ensures { OnOk result (out.new ≡ out.old ++ type_name item.now) }
{
    match item {
        Item::Abstract(text) => put_name(out, &text.header.name),
        Item::Struct(text) => put_name(out, &text.header.name),
        Item::Method(_) => Ok(()),
        Item::Bind(_, _) => Ok(()),
        Item::Do(_) => Ok(()),
    }
}

/// The names of the types of a script.
pub fn types_of(alloc: Global, items: &[Item]) -> Result<MarkedNames, AllocError>
    ensures { IfOk result (λ ns. ns ≡ types_of items.now) }
{
    let mut out = MarkedNames::new(alloc);
    for item in items {
        put_type(&mut out, item)?;
    }
    Ok(out)
}

#[tactic(auto, using(crate::proofs::TableLemmas::among_is))]
fn is_among(names: &NameList, name: &[u8]) -> bool
    ensures { result ≡ is_among name.now names.now }
{
    names.find(name).is_some()
}

/// Names, and then each further one that is not among those before it.
pub fn with_names(known: NameList, names: &[Name]) -> Result<NameList, AllocError>
    ensures { IfOk result (λ ns. ns ≡ with_names known names.now) }
{
    let mut out = known;
    for name in names {
        if !is_among(&out, name.bytes.as_slice()) {
            out.push(name.bytes.copy()?)?;
        }
    }
    Ok(out)
}
