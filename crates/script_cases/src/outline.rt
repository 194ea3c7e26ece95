//! Expressions and methods as their trees are: the operands of each operator in parentheses, and a word before each other form.

use crate::outline_heads::{put_callee, put_head};
use crate::outline_types::{put_name, put_type};
use crate::text::Written;
use jl_grammar::tree::{Branch, Callee, Eval, Expr, Infix, Method, Name, Piece, Prefix, Stmt};
use jl_typeread::tree::TypeText;
use std::str;

/// The sign of an operator with one operand.
fn prefix_sign(prefix: Prefix) -> &'static str {
    match prefix {
        Prefix::Minus => "-",
        Prefix::Not => "!",
    }
}

/// The sign of an operator with two operands.
fn infix_sign(operator: Infix) -> &'static str {
    match operator {
        Infix::Or => "||",
        Infix::And => "&&",
        Infix::Equal => "==",
        Infix::NotEqual => "!=",
        Infix::Less => "<",
        Infix::LessEqual => "<=",
        Infix::Greater => ">",
        Infix::GreaterEqual => ">=",
        Infix::Identical => "===",
        Infix::NotIdentical => "!==",
        Infix::Plus => "+",
        Infix::Minus => "-",
        Infix::Times => "*",
        Infix::Divide => "÷",
        Infix::Remainder => "%",
    }
}

/// A text with its escapes.
fn put_text(out: &mut Written, text: &[u8]) {
    out.put_quoted(str::from_utf8(text).unwrap_or("no text"));
}

/// Two types of which the one is asked to be below the other.
fn put_sub(out: &mut Written, low: &TypeText, high: &TypeText) {
    out.put("(");
    put_type(out, low);
    out.put(" <: ");
    put_type(out, high);
    out.put(")");
}

/// A deletion of a function's methods with the signature that a type is.
fn put_delete(out: &mut Written, function: &Name, ty: &TypeText) {
    out.put("delete(");
    put_name(out, function.bytes.as_slice());
    out.put(", ");
    put_type(out, ty);
    out.put(")");
}

/// A word before a list of expressions.
#[cycle(forms)]
fn put_exprs(out: &mut Written, word: &str, exprs: &[Expr]) {
    out.put(word);
    out.put("(");
    for (i, expr) in exprs.iter().enumerate() {
        if i > 0 {
            out.put(", ");
        }
        put_expr(out, expr);
    }
    out.put(")");
}

/// A word, a function and the arguments.
#[cycle(forms)]
fn put_given(out: &mut Written, word: &str, callee: &Callee, arguments: &[Expr]) {
    out.put(word);
    put_callee(out, callee);
    put_exprs(out, "", arguments);
}

/// A word before an expression.
#[cycle(forms)]
fn put_around(out: &mut Written, word: &str, expr: &Expr) {
    out.put(word);
    out.put("(");
    put_expr(out, expr);
    out.put(")");
}

/// Statements.
#[cycle(forms)]
fn put_stmts(out: &mut Written, stmts: &[Stmt]) {
    for (i, stmt) in stmts.iter().enumerate() {
        if i > 0 {
            out.put("; ");
        }
        put_stmt(out, stmt);
    }
}

/// A word before evaluated statements.
#[cycle(forms)]
fn put_evals(out: &mut Written, word: &str, evals: &[Eval]) {
    out.put(word);
    out.put("(");
    for (i, eval) in evals.iter().enumerate() {
        if i > 0 {
            out.put("; ");
        }
        put_eval(out, eval);
    }
    out.put(")");
}

/// A test with its block.
#[cycle(forms)]
fn put_branch(out: &mut Written, branch: &Branch) {
    put_expr(out, &branch.test);
    out.put(": ");
    put_stmts(out, branch.block.as_slice());
}

/// The tests of an `if` with their blocks.
#[cycle(forms)]
fn put_branches(out: &mut Written, branches: &[Branch]) {
    out.put("if(");
    for (i, branch) in branches.iter().enumerate() {
        if i > 0 {
            out.put(", elseif ");
        }
        put_branch(out, branch);
    }
}

/// What a `print` writes.
#[cycle(forms)]
fn put_piece(out: &mut Written, piece: &Piece) {
    match piece {
        Piece::Text(_, text) => put_text(out, text.as_slice()),
        Piece::Show(expr) => put_expr(out, expr),
    }
}

/// A `print` with its pieces.
#[cycle(forms)]
fn put_print(out: &mut Written, line: bool, pieces: &[Piece]) {
    out.put(if line { "println(" } else { "print(" });
    for (i, piece) in pieces.iter().enumerate() {
        if i > 0 {
            out.put(", ");
        }
        put_piece(out, piece);
    }
    out.put(")");
}

/// An evaluated statement.
#[cycle(forms)]
fn put_eval(out: &mut Written, eval: &Eval) {
    match eval {
        Eval::Method(method) => put_method(out, method),
        Eval::Do(expr) => put_expr(out, expr),
    }
}

/// A statement.
#[cycle(forms)]
fn put_stmt(out: &mut Written, stmt: &Stmt) {
    match stmt {
        Stmt::Bind(name, expr) => {
            put_name(out, name.bytes.as_slice());
            out.put(" = ");
            put_expr(out, expr);
        }
        Stmt::Return(_, expr) => {
            out.put("return ");
            put_expr(out, expr);
        }
        Stmt::ReturnNothing(_) => out.put("return"),
        Stmt::Do(expr) => put_expr(out, expr),
    }
}

/// A method.
#[cycle(forms)]
pub fn put_method(out: &mut Written, method: &Method) {
    match method {
        Method::Long(_, head, stmts) => {
            out.put("function(");
            put_head(out, head);
            out.put(": ");
            put_stmts(out, stmts.as_slice());
            out.put(")");
        }
        Method::Short(_, head, expr) => {
            out.put("method(");
            put_head(out, head);
            out.put(": ");
            put_expr(out, expr.get());
            out.put(")");
        }
    }
}

/// An expression.
#[cycle(forms)]
pub fn put_expr(out: &mut Written, expr: &Expr) {
    match expr {
        Expr::Number(_, number) => out.put_number(*number),
        Expr::Bool(_, truth) => out.put(if *truth { "true" } else { "false" }),
        Expr::Nothing(_) => out.put("nothing"),
        Expr::Name(_, name) => put_name(out, name.as_slice()),
        Expr::Paren(_, inner) => put_around(out, "paren", inner.get()),
        Expr::Tuple(_, parts) => put_exprs(out, "tuple", parts.as_slice()),
        Expr::Call(_, callee, arguments) => {
            put_given(out, "call ", callee, arguments.as_slice());
        }
        Expr::Make(_, ty, arguments) => {
            out.put("make ");
            put_type(out, ty);
            put_exprs(out, "", arguments.as_slice());
        }
        Expr::Field(_, object, name) => {
            out.put("(");
            put_expr(out, object.get());
            out.put(".");
            put_name(out, name.bytes.as_slice());
            out.put(")");
        }
        Expr::Part(_, tuple, number) => {
            out.put("(");
            put_expr(out, tuple.get());
            out.put("[");
            out.put_number(*number);
            out.put("])");
        }
        Expr::Prefix(_, prefix, operand) => {
            out.put("(");
            out.put(prefix_sign(*prefix));
            put_expr(out, operand.get());
            out.put(")");
        }
        Expr::Infix(_, operator, left, right) => {
            out.put("(");
            put_expr(out, left.get());
            out.put(infix_sign(*operator));
            put_expr(out, right.get());
            out.put(")");
        }
        Expr::Isa(_, value, ty) => {
            out.put("(");
            put_expr(out, value.get());
            out.put(" isa ");
            put_type(out, ty);
            out.put(")");
        }
        Expr::Sub(_, low, high) => put_sub(out, low, high),
        Expr::Choose(_, test, yes, other) => {
            out.put("(");
            put_expr(out, test.get());
            out.put("?");
            put_expr(out, yes.get());
            out.put(":");
            put_expr(out, other.get());
            out.put(")");
        }
        Expr::If(_, branches) => {
            put_branches(out, branches.as_slice());
            out.put(")");
        }
        Expr::IfElse(_, branches, stmts) => {
            put_branches(out, branches.as_slice());
            out.put(", else: ");
            put_stmts(out, stmts.as_slice());
            out.put(")");
        }
        Expr::Begin(_, stmts) => {
            out.put("begin(");
            put_stmts(out, stmts.as_slice());
            out.put(")");
        }
        Expr::Latest(_, callee, arguments) => {
            put_given(out, "latest ", callee, arguments.as_slice());
        }
        Expr::Delete(_, function, ty) => put_delete(out, function, ty),
        Expr::Spawn(_, task) => put_around(out, "spawn", task.get()),
        Expr::EvalMethod(_, method) => {
            out.put("eval ");
            put_method(out, method.get());
        }
        Expr::EvalBlock(_, evals) => put_evals(out, "evals", evals.as_slice()),
        Expr::EvalExpr(_, evaluated) => put_around(out, "eval", evaluated.get()),
        Expr::EvalQuote(_, evals) => put_evals(out, "quote", evals.as_slice()),
        Expr::Fetch(_, task) => put_around(out, "fetch", task.get()),
        Expr::Print(_, line, pieces) => put_print(out, *line, pieces.as_slice()),
    }
}
