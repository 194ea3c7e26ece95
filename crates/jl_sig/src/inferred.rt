//! The structs whose inferred constructors a program calls.

ghost use Rattle.std.specs.Prelude.{◌≡◌, ◌++◌, IfOk, OnOk};
ghost use Rattle.std.specs.List.{flat_map};
ghost use Rattle.jl_program.specs.Gathered.{of_expr, of_stmt, of_item, of_piece, own_struct, inferred_structs};
ghost use Rattle.jl_sig.specs.Inferred.{in_bodies};

use jl_program::tree::{Expr, Item, Piece, Program, Site, Stmt};
use std::alloc::{AllocError, Global};

/// Adds those in expressions.
#[cycle(inferred)]
#[tactic(auto, using(crate::proofs::InferredLemmas::structs))]
fn add_exprs(found: &mut Vec<u32>, exprs: &[Expr]) -> Result<(), AllocError>
    ensures { OnOk result (found.new.items ≡ found.old.items ++ flat_map (of_expr own_struct) exprs.now) }
{
    for expr in exprs {
        add_expr(found, expr)?;
    }
    Ok(())
}

/// Adds those in the statements of a block.
#[cycle(inferred)]
#[tactic(auto, using(crate::proofs::InferredLemmas::structs))]
fn add_stmts(found: &mut Vec<u32>, stmts: &[Stmt]) -> Result<(), AllocError>
    ensures { OnOk result (found.new.items ≡ found.old.items ++ flat_map (of_stmt own_struct) stmts.now) }
{
    for stmt in stmts {
        add_stmt(found, stmt)?;
    }
    Ok(())
}

/// Adds those in items.
#[cycle(inferred)]
#[tactic(auto, using(crate::proofs::InferredLemmas::structs))]
fn add_items(found: &mut Vec<u32>, items: &[Item]) -> Result<(), AllocError>
    ensures { OnOk result (found.new.items ≡ found.old.items ++ flat_map (of_item own_struct) items.now) }
{
    for item in items {
        add_item(found, item)?;
    }
    Ok(())
}

/// Adds those in printed pieces.
#[cycle(inferred)]
#[tactic(auto, using(crate::proofs::InferredLemmas::structs))]
fn add_pieces(found: &mut Vec<u32>, pieces: &[Piece]) -> Result<(), AllocError>
    ensures { OnOk result (found.new.items ≡ found.old.items ++ flat_map (of_piece own_struct) pieces.now) }
{
    for piece in pieces {
        add_piece(found, piece)?;
    }
    Ok(())
}

/// Adds those in a statement.
#[cycle(inferred)]
#[tactic(auto, using(crate::proofs::InferredLemmas::structs))]
fn add_stmt(found: &mut Vec<u32>, stmt: &Stmt) -> Result<(), AllocError>
    ensures { OnOk result (found.new.items ≡ found.old.items ++ of_stmt own_struct stmt.now) }
{
    match stmt {
        Stmt::Bind(_, expr) => add_expr(found, expr),
        Stmt::Do(expr) => add_expr(found, expr),
        Stmt::Return(expr) => add_expr(found, expr),
    }
}

/// Adds those in an item.
#[cycle(inferred)]
#[tactic(auto, using(crate::proofs::InferredLemmas::structs))]
fn add_item(found: &mut Vec<u32>, item: &Item) -> Result<(), AllocError>
    ensures { OnOk result (found.new.items ≡ found.old.items ++ of_item own_struct item.now) }
{
    match item {
        Item::Define(_) => Ok(()),
        Item::Bind(_, expr) => add_expr(found, expr),
        Item::Do(expr) => add_expr(found, expr),
    }
}

/// Adds those in a printed piece.
#[cycle(inferred)]
#[tactic(auto, using(crate::proofs::InferredLemmas::structs))]
fn add_piece(found: &mut Vec<u32>, piece: &Piece) -> Result<(), AllocError>
    ensures { OnOk result (found.new.items ≡ found.old.items ++ of_piece own_struct piece.now) }
{
    match piece {
        Piece::Text(_) => Ok(()),
        Piece::Show(expr) => add_expr(found, expr),
    }
}

/// Adds those in an expression.
#[cycle(inferred)]
#[tactic(auto, using(crate::proofs::InferredLemmas::structs))]
fn add_expr(found: &mut Vec<u32>, expr: &Expr) -> Result<(), AllocError>
    ensures { OnOk result (found.new.items ≡ found.old.items ++ of_expr own_struct expr.now) }
{
    match expr {
        Expr::Int(_) => Ok(()),
        Expr::Bool(_) => Ok(()),
        Expr::Nothing => Ok(()),
        Expr::Local(_) => Ok(()),
        Expr::Call(_, arguments) => add_exprs(found, arguments.as_slice()),
        Expr::Latest(_, arguments) => add_exprs(found, arguments.as_slice()),
        Expr::Make(_, arguments) => add_exprs(found, arguments.as_slice()),
        Expr::Infer(name, arguments) => {
            found.push(*name)?;
            add_exprs(found, arguments.as_slice())
        }
        Expr::Parts(parts) => add_exprs(found, parts.as_slice()),
        Expr::Field(of, _) => add_expr(found, of.get()),
        Expr::Part(of, _) => add_expr(found, of.get()),
        Expr::Egal(left, right, _) => {
            add_expr(found, left.get())?;
            add_expr(found, right.get())
        }
        Expr::Isa(of, _) => add_expr(found, of.get()),
        Expr::Sub(_, _) => Ok(()),
        Expr::If(test, then, or_else) => {
            add_expr(found, test.get())?;
            add_expr(found, then.get())?;
            add_expr(found, or_else.get())
        }
        Expr::And(left, right) => {
            add_expr(found, left.get())?;
            add_expr(found, right.get())
        }
        Expr::Or(left, right) => {
            add_expr(found, left.get())?;
            add_expr(found, right.get())
        }
        Expr::Block(statements) => add_stmts(found, statements.as_slice()),
        Expr::Eval(items) => add_items(found, items.as_slice()),
        Expr::Spawn(_) | Expr::Delete(_) => Ok(()),
        Expr::Fetch(of) => add_expr(found, of.get()),
        Expr::Print(pieces, _) => add_pieces(found, pieces.as_slice()),
    }
}

/// Adds those in the bodies of sites.
#[tactic(auto, using(crate::proofs::InferredLemmas::structs))]
fn add_bodies(found: &mut Vec<u32>, sites: &[Site]) -> Result<(), AllocError>
    ensures { OnOk result (found.new.items ≡ found.old.items ++ in_bodies sites.now) }
{
    for site in sites {
        add_expr(found, &site.body)?;
    }
    Ok(())
}

/// The structs whose inferred constructors stand in a program, as often as they stand there.
#[tactic(auto, using(crate::proofs::InferredLemmas::structs))]
pub fn inferred_structs(alloc: Global, program: &Program) -> Result<Vec<u32>, AllocError>
    ensures { IfOk result (λ found. found.items ≡ inferred_structs program.now) }
{
    let mut found = Vec::new(alloc);
    add_bodies(&mut found, program.sites.as_slice())?;
    add_exprs(&mut found, program.spawns.as_slice())?;
    add_items(&mut found, program.top.as_slice())?;
    Ok(found)
}
