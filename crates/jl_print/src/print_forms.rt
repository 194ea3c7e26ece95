//! The tokens that expressions, statements and methods are printed by. The depth of calls is that of the tree.

ghost use Rattle.std.specs.Prelude.{◌≡◌, ◌++◌, ◌∷◌, [], map, codes, OnOk};
ghost use Rattle.jl_typeread.specs.declared.terminal.Terminal.TheVariants as S;
ghost use Rattle.jl_typeread.specs.declared.terminal.Word.TheVariants as w;
ghost use Rattle.jl_token.specs.declared.token.Operator.TheVariants as o;
ghost use Rattle.jl_print.specs.Printed.{join, join_more, lines, in_parens, tuple_step, block_step, branches_step, branches_more, branch_word, print_name, which_terminals, prefix_terminal, infix_terminal, truth_terminal, callee_terminals, type_terminals, expr_terminals, method_terminals, stmt_terminals, eval_terminals, branch_terminals, piece_terminals};

use crate::print_heads::{put_callee, put_head, put_text};
use crate::print_types::{put_mark, put_name, put_type, put_word};
use jl_grammar::tree::{Branch, Callee, Eval, Expr, Infix, Method, Name, Piece, Prefix, Stmt};
use jl_model::rows::Row;
use jl_token::token::Operator;
use jl_typeread::terminal::{Terminal, Word};
use jl_typeread::tree::TypeText;
use std::alloc::{AllocError, Global};

/// The operator with one operand.
fn prefix_mark(prefix: Prefix) -> Terminal
    ensures { result ≡ prefix_terminal prefix }
{
    match prefix {
        Prefix::Minus => Terminal::Operator(Operator::Minus),
        Prefix::Not => Terminal::Operator(Operator::Not),
    }
}

/// The operator with two operands.
fn infix_mark(operator: Infix) -> Terminal
    ensures { result ≡ infix_terminal operator }
{
    Terminal::Operator(match operator {
        Infix::Or => Operator::Or,
        Infix::And => Operator::And,
        Infix::Equal => Operator::Equal,
        Infix::NotEqual => Operator::NotEqual,
        Infix::Less => Operator::Less,
        Infix::LessEqual => Operator::LessEqual,
        Infix::Greater => Operator::Greater,
        Infix::GreaterEqual => Operator::GreaterEqual,
        Infix::Identical => Operator::Identical,
        Infix::NotIdentical => Operator::NotIdentical,
        Infix::Plus => Operator::Plus,
        Infix::Minus => Operator::Minus,
        Infix::Times => Operator::Times,
        Infix::Divide => Operator::Divide,
        Infix::Remainder => Operator::Remainder,
    })
}

/// A truth value.
fn truth_word(truth: bool) -> Terminal
    ensures { result ≡ truth_terminal truth }
{
    if truth {
        return Terminal::Word(Word::True);
    }
    Terminal::Word(Word::False)
}

/// The name of the function that prints, with a newline or without.
fn print_name(line: bool) -> &'static [u8]
    ensures { result.now ≡ print_name line }
{
    if line { b"println" } else { b"print" }
}

/// A name, `.` and a macro word.
fn put_spawn(out: &mut Row<Terminal>, alloc: Global) -> Result<(), AllocError>
    ensures { OnOk result (out.new
        ≡ out.old ++ S.Name (codes "Threads") ∷ S.Operator o.Dot ∷ S.Macro (codes "spawn") ∷ []) }
{
    put_text(out, alloc, b"Threads")?;
    put_mark(out, Operator::Dot)?;
    put_macro(out, alloc, b"spawn")
}

/// A macro word of these bytes.
fn put_macro(out: &mut Row<Terminal>, alloc: Global, name: &[u8]) -> Result<(), AllocError>
    ensures { OnOk result (out.new ≡ out.old ++ S.Macro name.now ∷ []) }
{
    let mut bytes = Row::new(alloc);
    bytes.append(name)?;
    out.push(Terminal::Macro(bytes.into_shared(alloc)?))
}

/// Two names with `.` between them.
fn put_dotted(
    out: &mut Row<Terminal>,
    alloc: Global,
    first: &[u8],
    second: &[u8],
) -> Result<(), AllocError>
    ensures { OnOk result (out.new
        ≡ out.old ++ S.Name first.now ∷ S.Operator o.Dot ∷ S.Name second.now ∷ []) }
{
    put_text(out, alloc, first)?;
    put_mark(out, Operator::Dot)?;
    put_text(out, alloc, second)
}

/// A field of an expression.
fn put_field(out: &mut Row<Terminal>, name: &Name) -> Result<(), AllocError>
    ensures { OnOk result (out.new ≡ out.old ++ S.Operator o.Dot ∷ S.Name name.now.bytes ∷ []) }
{
    put_mark(out, Operator::Dot)?;
    put_name(out, &name.bytes)
}

/// A part of an expression.
fn put_part(out: &mut Row<Terminal>, number: i64) -> Result<(), AllocError>
    ensures { OnOk result (out.new
        ≡ out.old ++ S.Operator o.OpenBracket ∷ S.Number number ∷ S.Operator o.CloseBracket ∷ []) }
{
    put_mark(out, Operator::OpenBracket)?;
    out.push(Terminal::Number(number))?;
    put_mark(out, Operator::CloseBracket)
}

/// Two types with `<:` between them.
fn put_sub(out: &mut Row<Terminal>, low: &TypeText, high: &TypeText) -> Result<(), AllocError>
    ensures { OnOk result (out.new
        ≡ out.old ++ (type_terminals low.now ++ S.Operator o.Subtype ∷ type_terminals high.now)) }
{
    put_type(out, low)?;
    put_mark(out, Operator::Subtype)?;
    put_type(out, high)
}

/// `which` with a function and a type in parentheses.
fn put_which(
    out: &mut Row<Terminal>,
    alloc: Global,
    function: &Name,
    ty: &TypeText,
) -> Result<(), AllocError>
    ensures { OnOk result (out.new
        ≡ out.old ++ which_terminals function.now.bytes (type_terminals ty.now)) }
{
    put_text(out, alloc, b"which")?;
    put_mark(out, Operator::OpenParen)?;
    put_name(out, &function.bytes)?;
    put_mark(out, Operator::Comma)?;
    put_type(out, ty)?;
    put_mark(out, Operator::CloseParen)
}

/// `Base.delete_method` with what `which` is given in it.
fn put_delete(
    out: &mut Row<Terminal>,
    alloc: Global,
    function: &Name,
    ty: &TypeText,
) -> Result<(), AllocError>
    ensures { OnOk result (out.new
        ≡ out.old
        ++ S.Name (codes "Base") ∷ S.Operator o.Dot ∷ S.Name (codes "delete_method")
        ∷ S.Operator o.OpenParen
        ∷ (which_terminals function.now.bytes (type_terminals ty.now)
        ++ S.Operator o.CloseParen ∷ [])) }
{
    put_dotted(out, alloc, b"Base", b"delete_method")?;
    put_mark(out, Operator::OpenParen)?;
    put_which(out, alloc, function, ty)?;
    put_mark(out, Operator::CloseParen)
}

/// Expressions with `,` between them.
#[cycle(forms)]
fn put_exprs(out: &mut Row<Terminal>, alloc: Global, exprs: &[Expr]) -> Result<(), AllocError>
    ensures { OnOk result (out.new ≡ out.old ++ join (map expr_terminals exprs.now)) }
{
    for (i, expr) in exprs.iter().enumerate() {
        if i > 0 {
            put_mark(out, Operator::Comma)?;
        }
        put_expr(out, alloc, expr)?;
    }
    Ok(())
}

/// Expressions, each behind a `,`.
#[cycle(forms)]
fn put_more_exprs(out: &mut Row<Terminal>, alloc: Global, exprs: &[Expr]) -> Result<(), AllocError>
    ensures { OnOk result (out.new ≡ out.old ++ join_more (map expr_terminals exprs.now)) }
{
    for expr in exprs {
        put_mark(out, Operator::Comma)?;
        put_expr(out, alloc, expr)?;
    }
    Ok(())
}

/// Expressions in parentheses.
#[cycle(forms)]
fn put_in_parens(out: &mut Row<Terminal>, alloc: Global, exprs: &[Expr]) -> Result<(), AllocError>
    ensures { OnOk result (out.new ≡ out.old ++ in_parens (map expr_terminals exprs.now)) }
{
    put_mark(out, Operator::OpenParen)?;
    put_exprs(out, alloc, exprs)?;
    put_mark(out, Operator::CloseParen)
}

/// A tuple; a single part has a `,` behind it.
#[cycle(forms)]
fn put_tuple(out: &mut Row<Terminal>, alloc: Global, parts: &[Expr]) -> Result<(), AllocError>
    ensures { OnOk result (out.new ≡ out.old ++ tuple_step (map expr_terminals parts.now)) }
{
    put_mark(out, Operator::OpenParen)?;
    put_exprs(out, alloc, parts)?;
    if parts.len() == 1 {
        put_mark(out, Operator::Comma)?;
    }
    put_mark(out, Operator::CloseParen)
}

/// What is called and the arguments, with `,` between them.
#[cycle(forms)]
fn put_given(
    out: &mut Row<Terminal>,
    alloc: Global,
    callee: &Callee,
    arguments: &[Expr],
) -> Result<(), AllocError>
    ensures { OnOk result (out.new
        ≡ out.old ++ join (callee_terminals callee.now ∷ map expr_terminals arguments.now)) }
{
    put_callee(out, alloc, callee)?;
    put_more_exprs(out, alloc, arguments)
}

/// What is called and the arguments, in parentheses.
#[cycle(forms)]
fn put_given_in_parens(
    out: &mut Row<Terminal>,
    alloc: Global,
    callee: &Callee,
    arguments: &[Expr],
) -> Result<(), AllocError>
    ensures { OnOk result (out.new
        ≡ out.old ++ in_parens (callee_terminals callee.now ∷ map expr_terminals arguments.now)) }
{
    put_mark(out, Operator::OpenParen)?;
    put_given(out, alloc, callee, arguments)?;
    put_mark(out, Operator::CloseParen)
}

/// `Base.invokelatest`, what it calls and the arguments.
#[cycle(forms)]
fn put_latest_call(
    out: &mut Row<Terminal>,
    alloc: Global,
    callee: &Callee,
    arguments: &[Expr],
) -> Result<(), AllocError>
    ensures { OnOk result (out.new
        ≡ out.old
        ++ S.Name (codes "Base") ∷ S.Operator o.Dot ∷ S.Name (codes "invokelatest")
        ∷ in_parens (callee_terminals callee.now ∷ map expr_terminals arguments.now)) }
{
    put_dotted(out, alloc, b"Base", b"invokelatest")?;
    put_given_in_parens(out, alloc, callee, arguments)
}

/// An expression in parentheses.
#[cycle(forms)]
fn put_paren(out: &mut Row<Terminal>, alloc: Global, expr: &Expr) -> Result<(), AllocError>
    ensures { OnOk result (out.new
        ≡ out.old
        ++ S.Operator o.OpenParen ∷ (expr_terminals expr.now ++ S.Operator o.CloseParen ∷ [])) }
{
    put_mark(out, Operator::OpenParen)?;
    put_expr(out, alloc, expr)?;
    put_mark(out, Operator::CloseParen)
}

/// Statements, each with a newline behind it.
#[cycle(forms)]
fn put_stmts(out: &mut Row<Terminal>, alloc: Global, stmts: &[Stmt]) -> Result<(), AllocError>
    ensures { OnOk result (out.new ≡ out.old ++ lines (map stmt_terminals stmts.now)) }
{
    for stmt in stmts {
        put_stmt(out, alloc, stmt)?;
        out.push(Terminal::Newline)?;
    }
    Ok(())
}

/// A block behind the word that opens it, up to its `end`.
#[cycle(forms)]
fn put_block(out: &mut Row<Terminal>, alloc: Global, stmts: &[Stmt]) -> Result<(), AllocError>
    ensures { OnOk result (out.new ≡ out.old ++ block_step (map stmt_terminals stmts.now)) }
{
    out.push(Terminal::Newline)?;
    put_stmts(out, alloc, stmts)?;
    put_word(out, Word::End)
}

/// Evaluated statements, each with a newline behind it.
#[cycle(forms)]
fn put_evals(out: &mut Row<Terminal>, alloc: Global, evals: &[Eval]) -> Result<(), AllocError>
    ensures { OnOk result (out.new ≡ out.old ++ lines (map eval_terminals evals.now)) }
{
    for eval in evals {
        put_eval(out, alloc, eval)?;
        out.push(Terminal::Newline)?;
    }
    Ok(())
}

/// An evaluated block behind the word that opens it, up to its `end`.
#[cycle(forms)]
fn put_eval_block(out: &mut Row<Terminal>, alloc: Global, evals: &[Eval]) -> Result<(), AllocError>
    ensures { OnOk result (out.new ≡ out.old ++ block_step (map eval_terminals evals.now)) }
{
    out.push(Terminal::Newline)?;
    put_evals(out, alloc, evals)?;
    put_word(out, Word::End)
}

/// `eval(quote .. end)`
#[cycle(forms)]
fn put_quote(out: &mut Row<Terminal>, alloc: Global, evals: &[Eval]) -> Result<(), AllocError>
    ensures { OnOk result (out.new
        ≡ out.old
        ++ S.Name (codes "eval") ∷ S.Operator o.OpenParen ∷ S.Word w.Quote
        ∷ (block_step (map eval_terminals evals.now) ++ S.Operator o.CloseParen ∷ [])) }
{
    put_text(out, alloc, b"eval")?;
    put_mark(out, Operator::OpenParen)?;
    put_word(out, Word::Quote)?;
    put_eval_block(out, alloc, evals)?;
    put_mark(out, Operator::CloseParen)
}

/// A test with its block.
#[cycle(forms)]
fn put_branch(out: &mut Row<Terminal>, alloc: Global, branch: &Branch) -> Result<(), AllocError>
    ensures { OnOk result (out.new ≡ out.old ++ branch_terminals branch.now) }
{
    put_expr(out, alloc, &branch.test)?;
    out.push(Terminal::Newline)?;
    put_stmts(out, alloc, branch.block.as_slice())
}

/// The tests of an `if` with their blocks.
#[cycle(forms)]
fn put_branches(
    out: &mut Row<Terminal>,
    alloc: Global,
    branches: &[Branch],
) -> Result<(), AllocError>
    ensures { OnOk result (out.new ≡ out.old ++ branches_step (map branch_terminals branches.now)) }
{
    for (i, branch) in branches.iter().enumerate() {
        put_word(out, branch_word(i > 0))?;
        put_branch(out, alloc, branch)?;
    }
    Ok(())
}

/// The word before a test.
fn branch_word(is_later: bool) -> Word
    ensures { result ≡ branch_word is_later }
{
    if is_later {
        return Word::Elseif;
    }
    Word::If
}

/// What a `print` writes, with `,` between them.
#[cycle(forms)]
fn put_pieces(out: &mut Row<Terminal>, alloc: Global, pieces: &[Piece]) -> Result<(), AllocError>
    ensures { OnOk result (out.new ≡ out.old ++ join (map piece_terminals pieces.now)) }
{
    for (i, piece) in pieces.iter().enumerate() {
        if i > 0 {
            put_mark(out, Operator::Comma)?;
        }
        put_piece(out, alloc, piece)?;
    }
    Ok(())
}

/// A `print` with its pieces.
#[cycle(forms)]
fn put_print(
    out: &mut Row<Terminal>,
    alloc: Global,
    line: bool,
    pieces: &[Piece],
) -> Result<(), AllocError>
    ensures { OnOk result (out.new
        ≡ out.old ++ S.Name (print_name line) ∷ in_parens (map piece_terminals pieces.now)) }
{
    put_text(out, alloc, print_name(line))?;
    put_mark(out, Operator::OpenParen)?;
    put_pieces(out, alloc, pieces)?;
    put_mark(out, Operator::CloseParen)
}

/// What a `print` writes.
#[cycle(forms)]
fn put_piece(out: &mut Row<Terminal>, alloc: Global, piece: &Piece) -> Result<(), AllocError>
    ensures { OnOk result (out.new ≡ out.old ++ piece_terminals piece.now) }
{
    match piece {
        Piece::Text(_, text) => out.push(Terminal::Text(text.copy()?)),
        Piece::Show(expr) => put_expr(out, alloc, expr),
    }
}

/// An evaluated statement.
#[cycle(forms)]
fn put_eval(out: &mut Row<Terminal>, alloc: Global, eval: &Eval) -> Result<(), AllocError>
    ensures { OnOk result (out.new ≡ out.old ++ eval_terminals eval.now) }
{
    match eval {
        Eval::Method(method) => put_method(out, alloc, method),
        Eval::Do(expr) => put_expr(out, alloc, expr),
    }
}

/// A statement.
#[cycle(forms)]
fn put_stmt(out: &mut Row<Terminal>, alloc: Global, stmt: &Stmt) -> Result<(), AllocError>
    ensures { OnOk result (out.new ≡ out.old ++ stmt_terminals stmt.now) }
{
    match stmt {
        Stmt::Bind(name, expr) => put_binding(out, alloc, name, expr),
        Stmt::Return(_, expr) => {
            put_word(out, Word::Return)?;
            put_expr(out, alloc, expr)
        }
        Stmt::ReturnNothing(_) => put_word(out, Word::Return),
        Stmt::Do(expr) => put_expr(out, alloc, expr),
    }
}

/// `name = e`
#[cycle(forms)]
pub(crate) fn put_binding(
    out: &mut Row<Terminal>,
    alloc: Global,
    name: &Name,
    expr: &Expr,
) -> Result<(), AllocError>
    ensures { OnOk result (out.new
        ≡ out.old ++ S.Name name.now.bytes ∷ S.Operator o.Assign ∷ expr_terminals expr.now) }
{
    put_name(out, &name.bytes)?;
    put_mark(out, Operator::Assign)?;
    put_expr(out, alloc, expr)
}

/// A method.
#[cycle(forms)]
pub(crate) fn put_method(
    out: &mut Row<Terminal>,
    alloc: Global,
    method: &Method,
) -> Result<(), AllocError>
    ensures { OnOk result (out.new ≡ out.old ++ method_terminals method.now) }
{
    match method {
        Method::Long(_, head, stmts) => {
            put_word(out, Word::Function)?;
            put_head(out, alloc, head)?;
            put_block(out, alloc, stmts.as_slice())
        }
        Method::Short(_, head, expr) => {
            put_head(out, alloc, head)?;
            put_mark(out, Operator::Assign)?;
            put_expr(out, alloc, expr.get())
        }
    }
}

/// An expression.
#[cycle(forms)]
pub(crate) fn put_expr(
    out: &mut Row<Terminal>,
    alloc: Global,
    expr: &Expr,
) -> Result<(), AllocError>
    ensures { OnOk result (out.new ≡ out.old ++ expr_terminals expr.now) }
{
    match expr {
        Expr::Number(_, number) => out.push(Terminal::Number(*number)),
        Expr::Bool(_, truth) => out.push(truth_word(*truth)),
        Expr::Nothing(_) => put_word(out, Word::Nothing),
        Expr::Name(_, name) => put_name(out, name),
        Expr::Paren(_, inner) => put_paren(out, alloc, inner.get()),
        Expr::Tuple(_, parts) => put_tuple(out, alloc, parts.as_slice()),
        Expr::Call(_, callee, arguments) => {
            put_callee(out, alloc, callee)?;
            put_in_parens(out, alloc, arguments.as_slice())
        }
        Expr::Make(_, ty, arguments) => {
            put_type(out, ty)?;
            put_in_parens(out, alloc, arguments.as_slice())
        }
        Expr::Field(_, object, name) => {
            put_expr(out, alloc, object.get())?;
            put_field(out, name)
        }
        Expr::Part(_, tuple, number) => {
            put_expr(out, alloc, tuple.get())?;
            put_part(out, *number)
        }
        Expr::Prefix(_, prefix, operand) => {
            out.push(prefix_mark(*prefix))?;
            put_expr(out, alloc, operand.get())
        }
        Expr::Infix(_, operator, left, right) => {
            put_expr(out, alloc, left.get())?;
            out.push(infix_mark(*operator))?;
            put_expr(out, alloc, right.get())
        }
        Expr::Isa(_, value, ty) => {
            put_expr(out, alloc, value.get())?;
            put_word(out, Word::Isa)?;
            put_type(out, ty)
        }
        Expr::Sub(_, low, high) => put_sub(out, low, high),
        Expr::Choose(_, test, yes, other) => {
            put_expr(out, alloc, test.get())?;
            put_mark(out, Operator::Question)?;
            put_expr(out, alloc, yes.get())?;
            put_mark(out, Operator::Colon)?;
            put_expr(out, alloc, other.get())
        }
        Expr::If(_, branches) => {
            put_branches(out, alloc, branches.as_slice())?;
            put_word(out, Word::End)
        }
        Expr::IfElse(_, branches, stmts) => {
            put_branches(out, alloc, branches.as_slice())?;
            put_word(out, Word::Else)?;
            put_block(out, alloc, stmts.as_slice())
        }
        Expr::Begin(_, stmts) => {
            put_word(out, Word::Begin)?;
            put_block(out, alloc, stmts.as_slice())
        }
        Expr::Latest(_, callee, arguments) => {
            put_latest_call(out, alloc, callee, arguments.as_slice())
        }
        Expr::Delete(_, function, ty) => put_delete(out, alloc, function, ty),
        Expr::Spawn(_, task) => {
            put_spawn(out, alloc)?;
            put_expr(out, alloc, task.get())
        }
        Expr::EvalMethod(_, method) => {
            put_macro(out, alloc, b"eval")?;
            put_method(out, alloc, method.get())
        }
        Expr::EvalBlock(_, evals) => {
            put_macro(out, alloc, b"eval")?;
            put_word(out, Word::Begin)?;
            put_eval_block(out, alloc, evals.as_slice())
        }
        Expr::EvalExpr(_, evaluated) => {
            put_macro(out, alloc, b"eval")?;
            put_expr(out, alloc, evaluated.get())
        }
        Expr::EvalQuote(_, evals) => put_quote(out, alloc, evals.as_slice()),
        Expr::Fetch(_, task) => {
            put_text(out, alloc, b"fetch")?;
            put_paren(out, alloc, task.get())
        }
        Expr::Print(_, line, pieces) => put_print(out, alloc, *line, pieces.as_slice()),
    }
}
