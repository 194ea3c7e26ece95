//! The definition sites, spawns and deletions of a script, in the order in which programs number them: that of the text, where each comes
//! before those inside it. The depth of calls is that of the tree.

ghost use Rattle.std.specs.Prelude.{◌≡◌, ◌++◌, map, OnOk};
ghost use Rattle.jl_sites.specs.Places.{joined, expr_places, method_places, stmt_places, eval_places, branch_places, piece_places, item_places, script_places};

use crate::place::{Place, deletion, site};
use jl_grammar::tree::{Branch, Eval, Expr, Item, Method, Piece, Script, Stmt};
use jl_model::rows::Row;
use std::alloc::AllocError;

/// Expressions from left to right.
#[cycle(forms)]
fn put_exprs(out: &mut Row<Place>, exprs: &[Expr]) -> Result<(), AllocError>
    ensures { OnOk result (out.new ≡ out.old ++ joined (map expr_places exprs.now)) }
{
    for expr in exprs {
        put_expr(out, expr)?;
    }
    Ok(())
}

/// The statements of a block.
#[cycle(forms)]
fn put_stmts(out: &mut Row<Place>, stmts: &[Stmt]) -> Result<(), AllocError>
    ensures { OnOk result (out.new ≡ out.old ++ joined (map stmt_places stmts.now)) }
{
    for stmt in stmts {
        put_stmt(out, stmt)?;
    }
    Ok(())
}

/// The statements of an evaluated block.
#[cycle(forms)]
fn put_evals(out: &mut Row<Place>, evals: &[Eval]) -> Result<(), AllocError>
    ensures { OnOk result (out.new ≡ out.old ++ joined (map eval_places evals.now)) }
{
    for eval in evals {
        put_eval(out, eval)?;
    }
    Ok(())
}

/// The tests of an `if` with their blocks.
#[cycle(forms)]
fn put_branches(out: &mut Row<Place>, branches: &[Branch]) -> Result<(), AllocError>
    ensures { OnOk result (out.new ≡ out.old ++ joined (map branch_places branches.now)) }
{
    for branch in branches {
        put_branch(out, branch)?;
    }
    Ok(())
}

/// What a `print` writes.
#[cycle(forms)]
fn put_pieces(out: &mut Row<Place>, pieces: &[Piece]) -> Result<(), AllocError>
    ensures { OnOk result (out.new ≡ out.old ++ joined (map piece_places pieces.now)) }
{
    for piece in pieces {
        put_piece(out, piece)?;
    }
    Ok(())
}

/// A test with its block.
#[cycle(forms)]
fn put_branch(out: &mut Row<Place>, branch: &Branch) -> Result<(), AllocError>
    ensures { OnOk result (out.new ≡ out.old ++ branch_places branch.now) }
{
    put_expr(out, &branch.test)?;
    put_stmts(out, branch.block.as_slice())
}

/// A piece of a `print`.
#[cycle(forms)]
fn put_piece(out: &mut Row<Place>, piece: &Piece) -> Result<(), AllocError>
    ensures { OnOk result (out.new ≡ out.old ++ piece_places piece.now) }
{
    match piece {
        Piece::Text(_, _) => Ok(()),
        Piece::Show(expr) => put_expr(out, expr),
    }
}

/// An evaluated statement.
#[cycle(forms)]
fn put_eval(out: &mut Row<Place>, eval: &Eval) -> Result<(), AllocError>
    ensures { OnOk result (out.new ≡ out.old ++ eval_places eval.now) }
{
    match eval {
        Eval::Method(method) => put_method(out, method),
        Eval::Do(expr) => put_expr(out, expr),
    }
}

/// A statement.
#[cycle(forms)]
fn put_stmt(out: &mut Row<Place>, stmt: &Stmt) -> Result<(), AllocError>
    ensures { OnOk result (out.new ≡ out.old ++ stmt_places stmt.now) }
{
    match stmt {
        Stmt::Bind(_, expr) => put_expr(out, expr),
        Stmt::Return(_, expr) => put_expr(out, expr),
        Stmt::ReturnNothing(_) => Ok(()),
        Stmt::Do(expr) => put_expr(out, expr),
    }
}

/// A method: its site, and what is in its body.
#[cycle(forms)]
fn put_method(out: &mut Row<Place>, method: &Method) -> Result<(), AllocError>
    ensures { OnOk result (out.new ≡ out.old ++ method_places method.now) }
{
    match method {
        Method::Long(_, head, stmts) => {
            out.push(site(head)?)?;
            put_stmts(out, stmts.as_slice())
        }
        Method::Short(_, head, expr) => {
            out.push(site(head)?)?;
            put_expr(out, expr.get())
        }
    }
}

/// An expression.
#[cycle(forms)]
fn put_expr(out: &mut Row<Place>, expr: &Expr) -> Result<(), AllocError>
    ensures { OnOk result (out.new ≡ out.old ++ expr_places expr.now) }
{
    match expr {
        Expr::Number(_, _) => Ok(()),
        Expr::Bool(_, _) => Ok(()),
        Expr::Nothing(_) => Ok(()),
        Expr::Name(_, _) => Ok(()),
        Expr::Paren(_, inner) => put_expr(out, inner.get()),
        Expr::Tuple(_, parts) => put_exprs(out, parts.as_slice()),
        Expr::Call(_, _, arguments) => put_exprs(out, arguments.as_slice()),
        Expr::Make(_, _, arguments) => put_exprs(out, arguments.as_slice()),
        Expr::Field(_, object, _) => put_expr(out, object.get()),
        Expr::Part(_, tuple, _) => put_expr(out, tuple.get()),
        Expr::Prefix(_, _, operand) => put_expr(out, operand.get()),
        Expr::Infix(_, _, left, right) => {
            put_expr(out, left.get())?;
            put_expr(out, right.get())
        }
        Expr::Isa(_, value, _) => put_expr(out, value.get()),
        Expr::Sub(_, _, _) => Ok(()),
        Expr::Choose(_, test, yes, other) => {
            put_expr(out, test.get())?;
            put_expr(out, yes.get())?;
            put_expr(out, other.get())
        }
        Expr::If(_, branches) => put_branches(out, branches.as_slice()),
        Expr::IfElse(_, branches, stmts) => {
            put_branches(out, branches.as_slice())?;
            put_stmts(out, stmts.as_slice())
        }
        Expr::Begin(_, stmts) => put_stmts(out, stmts.as_slice()),
        Expr::Latest(_, _, arguments) => put_exprs(out, arguments.as_slice()),
        Expr::Delete(at, function, _) => out.push(deletion(*at, function)?),
        Expr::Spawn(at, task) => {
            out.push(Place::Spawn(*at))?;
            put_expr(out, task.get())
        }
        Expr::EvalMethod(_, method) => put_method(out, method.get()),
        Expr::EvalBlock(_, evals) => put_evals(out, evals.as_slice()),
        Expr::EvalExpr(_, evaluated) => put_expr(out, evaluated.get()),
        Expr::EvalQuote(_, evals) => put_evals(out, evals.as_slice()),
        Expr::Fetch(_, task) => put_expr(out, task.get()),
        Expr::Print(_, _, pieces) => put_pieces(out, pieces.as_slice()),
    }
}

/// An item.
fn put_item(out: &mut Row<Place>, item: &Item) -> Result<(), AllocError>
    ensures { OnOk result (out.new ≡ out.old ++ item_places item.now) }
{
    match item {
        Item::Abstract(_) => Ok(()),
        Item::Struct(_) => Ok(()),
        Item::Method(method) => put_method(out, method),
        Item::Bind(_, expr) => put_expr(out, expr),
        Item::Do(expr) => put_expr(out, expr),
    }
}

/// The items of a script.
pub(crate) fn put_script(out: &mut Row<Place>, script: &Script) -> Result<(), AllocError>
    ensures { OnOk result (out.new ≡ out.old ++ script_places script.now) }
{
    for item in script.items.as_slice() {
        put_item(out, item)?;
    }
    Ok(())
}
