//! The walk over the tree of a script: what each part becomes, where some slots, static parameters and types are visible.

ghost use Rattle.std.specs.Prelude.{◌≡◌, map, IfOk, OnOk};
ghost use Rattle.jl_resolve_forms.specs.Resolver.{resolution, Resolves};
ghost use Rattle.jl_resolve_forms.specs.Expressions.{one_said, one_shown, one_evaluated, one_tried, all_coded, all_shown, all_evaluated, all_tried, block_of, expr_reads, stmt_reads, piece_reads, eval_reads, branch_reads, method_reads};

use crate::assembly;
use jl_grammar::tree::{Branch, Eval, Expr, Method, Piece, Stmt};
use jl_model::rows::Row;
use jl_program::tree::{
    Expr as Code, Exprs as Codes, Item, Items, Piece as Shown, Pieces as Showns, Stmt as Statement,
};
use jl_resolve_forms::deletes::delete;
use jl_resolve_forms::judge::Judge;
use jl_resolve_forms::known::{Arm, Known};
use jl_resolve_forms::methods::bare_scope;
use jl_resolve_forms::state::{Scope, State};
use std::alloc::{AllocError, Global};

/// Expressions from left to right.
#[cycle(reads)]
fn exprs<J: Judge>(
    alloc: Global,
    judge: &J,
    known: &Known,
    scope: &mut Scope,
    state: &mut State,
    texts: &[Expr],
) -> Result<Codes, AllocError>
    ensures means { Resolves result state.new
        (all_coded (map (expr_reads (J.tests judge.now) known.now) texts.now) scope.old state.old) }
    ensures kept { OnOk result (scope.new ≡ scope.old) }
{
    let mut out = Row::new(alloc);
    for text in texts {
        assembly::put(&mut out, expr(alloc, judge, known, scope, state, text))?;
    }
    out.into_shared(alloc)
}

/// A block, whose bindings end with it.
#[cycle(reads)]
fn block<J: Judge>(
    alloc: Global,
    judge: &J,
    known: &Known,
    scope: &mut Scope,
    state: &mut State,
    texts: &[Stmt],
) -> Result<Code, AllocError>
    ensures means { Resolves result state.new
        (block_of (map (stmt_reads (J.tests judge.now) known.now) texts.now) scope.old state.old) }
    ensures kept { OnOk result (scope.new ≡ scope.old) }
{
    let visible = scope.slots.len();
    let mut out = Row::new(alloc);
    for text in texts {
        assembly::put(&mut out, stmt(alloc, judge, known, scope, state, text))?;
    }
    assembly::end_block(alloc, scope, visible, out)
}

/// What a print writes.
#[cycle(reads)]
fn pieces<J: Judge>(
    alloc: Global,
    judge: &J,
    known: &Known,
    scope: &mut Scope,
    state: &mut State,
    texts: &[Piece],
) -> Result<Showns, AllocError>
    ensures means { Resolves result state.new
        (all_shown (map (piece_reads (J.tests judge.now) known.now) texts.now) scope.old state.old) }
    ensures kept { OnOk result (scope.new ≡ scope.old) }
{
    let mut out = Row::new(alloc);
    for text in texts {
        assembly::put(&mut out, piece(alloc, judge, known, scope, state, text))?;
    }
    out.into_shared(alloc)
}

/// The statements of an evaluated block, where so many types are declared before it.
#[cycle(reads)]
fn evals<J: Judge>(
    alloc: Global,
    judge: &J,
    known: &Known,
    types: u32,
    state: &mut State,
    texts: &[Eval],
) -> Result<Items, AllocError>
    ensures { Resolves result state.new
        (all_evaluated (map (eval_reads (J.tests judge.now) known.now) texts.now) types state.old) }
{
    let mut out = Row::new(alloc);
    for text in texts {
        assembly::put(&mut out, eval(alloc, judge, known, types, state, text))?;
    }
    out.into_shared(alloc)
}

/// The tests of an `if` with their blocks.
#[cycle(reads)]
fn branches<J: Judge>(
    alloc: Global,
    judge: &J,
    known: &Known,
    scope: &mut Scope,
    state: &mut State,
    texts: &[Branch],
) -> Result<Vec<Arm>, AllocError>
    ensures means { IfOk result (λ xs. resolution xs.items state.new
        ≡ all_tried (map (branch_reads (J.tests judge.now) known.now) texts.now) scope.old state.old) }
    ensures kept { OnOk result (scope.new ≡ scope.old) }
{
    let mut out = Vec::new(alloc);
    for text in texts {
        assembly::put_arm(&mut out, branch(alloc, judge, known, scope, state, text))?;
    }
    Ok(out)
}

/// A statement of a block.
#[cycle(reads)]
fn stmt<J: Judge>(
    alloc: Global,
    judge: &J,
    known: &Known,
    scope: &mut Scope,
    state: &mut State,
    text: &Stmt,
) -> Result<Statement, AllocError>
    ensures { IfOk result (λ x. resolution (x, scope.new) state.new
        ≡ one_said (stmt_reads (J.tests judge.now) known.now text.now) scope.old state.old) }
{
    match text {
        Stmt::Bind(name, value) => {
            let code = expr(alloc, judge, known, scope, state, value);
            assembly::bind(scope, state, name, code)
        }
        Stmt::Return(_, value) => assembly::return_statement(expr(
            alloc, judge, known, scope, state, value,
        )),
        Stmt::ReturnNothing(_) => Ok(Statement::Return(Code::Nothing)),
        Stmt::Do(value) => assembly::do_statement(expr(alloc, judge, known, scope, state, value)),
    }
}

/// A piece of a print.
#[cycle(reads)]
fn piece<J: Judge>(
    alloc: Global,
    judge: &J,
    known: &Known,
    scope: &mut Scope,
    state: &mut State,
    text: &Piece,
) -> Result<Shown, AllocError>
    ensures means { Resolves result state.new
        (one_shown (piece_reads (J.tests judge.now) known.now text.now) scope.old state.old) }
    ensures kept { OnOk result (scope.new ≡ scope.old) }
{
    match text {
        Piece::Text(_, bytes) => assembly::text(bytes),
        Piece::Show(value) => assembly::show(expr(alloc, judge, known, scope, state, value)),
    }
}

/// A statement of an evaluated block, which sees neither slots nor static parameters.
#[cycle(reads)]
fn eval<J: Judge>(
    alloc: Global,
    judge: &J,
    known: &Known,
    types: u32,
    state: &mut State,
    text: &Eval,
) -> Result<Item, AllocError>
    ensures { Resolves result state.new
        (one_evaluated (eval_reads (J.tests judge.now) known.now text.now) types state.old) }
{
    match text {
        Eval::Method(text) => {
            let site = method(alloc, judge, known, types, state, text)?;
            Ok(Item::Define(site))
        }
        Eval::Do(value) => {
            let mut scope = bare_scope(alloc, types);
            assembly::evaluate(expr(alloc, judge, known, &mut scope, state, value))
        }
    }
}

/// A test with its block.
#[cycle(reads)]
fn branch<J: Judge>(
    alloc: Global,
    judge: &J,
    known: &Known,
    scope: &mut Scope,
    state: &mut State,
    text: &Branch,
) -> Result<Arm, AllocError>
    ensures means { Resolves result state.new
        (one_tried (branch_reads (J.tests judge.now) known.now text.now) scope.old state.old) }
    ensures kept { OnOk result (scope.new ≡ scope.old) }
{
    let test = assembly::node_of(alloc, expr(alloc, judge, known, scope, state, &text.test))?;
    let then = assembly::node_of(
        alloc,
        block(alloc, judge, known, scope, state, text.block.as_slice()),
    )?;
    Ok(Arm { test, then })
}

/// A method, where so many types are declared before it. Its site has its number before those in its body.
#[cycle(reads)]
pub fn method<J: Judge>(
    alloc: Global,
    judge: &J,
    known: &Known,
    types: u32,
    state: &mut State,
    text: &Method,
) -> Result<u32, AllocError>
    ensures { Resolves result state.new
        (method_reads (J.tests judge.now) known.now text.now types state.old) }
{
    match text {
        Method::Long(_, head, body) => {
            let (number, mut opening) = assembly::start_method(
                alloc, judge, known, types, state, head,
            )?;
            let code = block(
                alloc,
                judge,
                known,
                &mut opening.scope,
                state,
                body.as_slice(),
            );
            assembly::finish_method(state, number, opening, code)
        }
        Method::Short(_, head, body) => {
            let (number, mut opening) = assembly::start_method(
                alloc, judge, known, types, state, head,
            )?;
            let code = expr(alloc, judge, known, &mut opening.scope, state, body.get());
            assembly::finish_method(state, number, opening, code)
        }
    }
}

/// An expression.
#[cycle(reads)]
pub fn expr<J: Judge>(
    alloc: Global,
    judge: &J,
    known: &Known,
    scope: &mut Scope,
    state: &mut State,
    text: &Expr,
) -> Result<Code, AllocError>
    ensures means { Resolves result state.new
        (expr_reads (J.tests judge.now) known.now text.now scope.old state.old) }
    ensures kept { OnOk result (scope.new ≡ scope.old) }
{
    match text {
        Expr::Number(_, number) => Ok(assembly::number(number)),
        Expr::Bool(_, truth) => Ok(Code::Bool(*truth)),
        Expr::Nothing(_) => Ok(Code::Nothing),
        Expr::Name(at, name) => Ok(assembly::name(scope, state, *at, name)),
        Expr::Paren(_, inner) => expr(alloc, judge, known, scope, state, inner.get()),
        Expr::Tuple(_, texts) => {
            let parts = exprs(alloc, judge, known, scope, state, texts.as_slice())?;
            Ok(assembly::tuple(parts))
        }
        Expr::Call(_, callee, texts) => {
            let arguments = exprs(alloc, judge, known, scope, state, texts.as_slice())?;
            assembly::call(alloc, judge, known, scope, state, callee, arguments)
        }
        Expr::Make(_, ty, texts) => {
            let written = assembly::begin_make(alloc, judge, known, scope, state, ty)?;
            let arguments = exprs(alloc, judge, known, scope, state, texts.as_slice());
            assembly::end_make(state, ty, written, arguments)
        }
        Expr::Field(_, inner, name) => {
            let owner = assembly::node_of(
                alloc,
                expr(alloc, judge, known, scope, state, inner.get()),
            )?;
            assembly::field(owner, name)
        }
        Expr::Part(_, inner, number) => {
            let whole = assembly::node_of(
                alloc,
                expr(alloc, judge, known, scope, state, inner.get()),
            )?;
            Ok(assembly::part(whole, number))
        }
        Expr::Prefix(_, operator, inner) => {
            let code = expr(alloc, judge, known, scope, state, inner.get());
            assembly::prefix(alloc, *operator, code)
        }
        Expr::Infix(_, operator, left, right) => {
            let left = expr(alloc, judge, known, scope, state, left.get())?;
            let right = expr(alloc, judge, known, scope, state, right.get());
            assembly::infix(alloc, *operator, left, right)
        }
        Expr::Isa(_, inner, ty) => {
            let value = assembly::node_of(
                alloc,
                expr(alloc, judge, known, scope, state, inner.get()),
            )?;
            assembly::is_a(alloc, judge, known, scope, state, value, ty)
        }
        Expr::Sub(_, left, right) => assembly::below(
            alloc, judge, known, scope, state, left, right,
        ),
        Expr::Choose(_, test, then, or_else) => {
            let test = assembly::node_of(
                alloc,
                expr(alloc, judge, known, scope, state, test.get()),
            )?;
            let then = assembly::node_of(
                alloc,
                expr(alloc, judge, known, scope, state, then.get()),
            )?;
            let or_else = assembly::node_of(
                alloc,
                expr(alloc, judge, known, scope, state, or_else.get()),
            )?;
            Ok(assembly::choose(test, then, or_else))
        }
        Expr::If(_, texts) => {
            let arms = branches(alloc, judge, known, scope, state, texts.as_slice())?;
            assembly::only_if(alloc, arms)
        }
        Expr::IfElse(_, texts, last) => {
            let arms = branches(alloc, judge, known, scope, state, texts.as_slice())?;
            let last = block(alloc, judge, known, scope, state, last.as_slice());
            assembly::if_else(alloc, arms, last)
        }
        Expr::Begin(_, texts) => block(alloc, judge, known, scope, state, texts.as_slice()),
        Expr::Latest(_, callee, texts) => {
            let arguments = exprs(alloc, judge, known, scope, state, texts.as_slice())?;
            Ok(assembly::latest(known, scope, state, callee, arguments))
        }
        Expr::Delete(_, name, ty) => delete(alloc, judge, known, scope, state, name, ty),
        Expr::Spawn(_, inner) => {
            let place = assembly::reserve_spawn(state)?;
            let code = expr(alloc, judge, known, scope, state, inner.get());
            assembly::end_spawn(state, place, code)
        }
        Expr::EvalMethod(_, text) => {
            let site = method(alloc, judge, known, scope.types, state, text.get())?;
            assembly::eval_method(alloc, site)
        }
        Expr::EvalBlock(_, texts) => {
            let items = evals(alloc, judge, known, scope.types, state, texts.as_slice())?;
            Ok(assembly::eval_block(items))
        }
        Expr::EvalExpr(_, inner) => {
            let mut bare = bare_scope(alloc, scope.types);
            let code = expr(alloc, judge, known, &mut bare, state, inner.get());
            assembly::eval_expr(alloc, code)
        }
        Expr::EvalQuote(_, texts) => {
            let items = evals(alloc, judge, known, scope.types, state, texts.as_slice())?;
            Ok(assembly::eval_block(items))
        }
        Expr::Fetch(_, inner) => {
            let task = assembly::node_of(
                alloc,
                expr(alloc, judge, known, scope, state, inner.get()),
            )?;
            Ok(assembly::fetch(task))
        }
        Expr::Print(_, line, texts) => {
            let pieces = pieces(alloc, judge, known, scope, state, texts.as_slice())?;
            Ok(assembly::print(pieces, *line))
        }
    }
}
