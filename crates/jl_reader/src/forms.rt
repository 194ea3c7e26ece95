//! The forms of a script with their depth, as they are made. The tree of an expression that is too deep is not kept.

ghost use Rattle.std.specs.Prelude.{◌≡◌, IfOk, OnOk};
ghost use Rattle.jl_grammar.specs.Forms.{depth_around, expr_form, no_forms, with_form, type_form, vars_form, no_vars, number, truth, nothing, name, paren, tuple, call_expr, field, part, prefix_expr, infix_expr, isa_expr, sub_expr, choose_expr, begin_expr, spawn_expr, eval_method, eval_block, eval_expr, eval_quote, fetch_expr, delete_expr, print_expr, depth_below, no_branches, with_branch, if_expr, if_else_expr, with_show, with_text, with_expr};

use jl_grammar::owned::Owned;
use jl_grammar::state::{Branched, Called, Form, Forms, PrefixAt, TypeForm, VarsForm};
use jl_grammar::tree::{Branch, Eval, Expr, Infix, Method, Name, Piece, Stmt};
use jl_model::limits::MOST_ITEM_DEPTH;
use jl_model::rows::Row;
use jl_model::shared::{SharedList, SharedNode};
use jl_model::ty::Bytes;
use jl_typeread::deep::Deep;
use jl_typeread::tree::{TypeText, VarText};
use std::alloc::{AllocError, Global};

/// The depth of a form around forms of this depth.
pub(crate) fn depth_around(depth: u32) -> u32
    ensures { result ≡ depth_around depth }
{
    depth.min(MOST_ITEM_DEPTH) + 1
}

/// An expression of this depth.
fn expr_form(alloc: Global, at: u32, depth: u32, tree: Expr) -> Result<Form<Expr>, AllocError>
    ensures { IfOk result (λ r. r ≡ expr_form at depth tree) }
{
    if depth > MOST_ITEM_DEPTH {
        drop(tree);
        let tree = Owned::new(alloc, Expr::Nothing(at))?;
        return Ok(Form { tree, at, depth });
    }
    let tree = Owned::new(alloc, tree)?;
    Ok(Form { tree, at, depth })
}

/// No trees.
pub(crate) fn no_forms<T>(alloc: Global) -> Forms<T>
    ensures { result ≡ no_forms }
{
    Forms {
        trees: Row::new(alloc),
        depth: 0,
    }
}

/// The trees and one more, with its depth.
pub(crate) fn with_form<T: Drop>(
    forms: Forms<T>,
    tree: T,
    depth: u32,
) -> Result<Forms<T>, AllocError>
    ensures { IfOk result (λ r. r ≡ with_form forms tree depth) }
{
    let Forms {
        mut trees,
        depth: greatest,
    } = forms;
    trees.push(tree)?;
    Ok(Forms {
        trees,
        depth: greatest.max(depth),
    })
}

/// One more tree, with its depth.
pub(crate) fn add<T: Drop>(forms: &mut Forms<T>, tree: T, depth: u32) -> Result<(), AllocError>
    ensures { OnOk result (forms.new ≡ with_form forms.old tree depth) }
{
    forms.trees.push(tree)?;
    forms.depth = forms.depth.max(depth);
    Ok(())
}

/// A written type as it was read.
pub(crate) fn type_form(alloc: Global, ty: Deep<TypeText>) -> Result<TypeForm, AllocError>
    ensures { IfOk result (λ r. r ≡ type_form ty) }
{
    match ty {
        Deep::Built(tree, depth) => {
            let tree = Owned::new(alloc, tree)?;
            Ok(TypeForm { tree, depth })
        }
        Deep::TooDeep => {
            let tree = Owned::new(alloc, TypeText::Name(0, SharedList::empty()))?;
            Ok(TypeForm {
                tree,
                depth: MOST_ITEM_DEPTH + 1,
            })
        }
    }
}

/// Variables as they were read.
pub(crate) fn vars_form(
    alloc: Global,
    variables: Deep<Row<VarText>>,
) -> Result<VarsForm, AllocError>
    ensures { IfOk result (λ r. r ≡ vars_form variables) }
{
    match variables {
        Deep::Built(items, depth) => {
            let vars = items.into_shared(alloc)?;
            Ok(VarsForm { vars, depth })
        }
        Deep::TooDeep => Ok(VarsForm {
            vars: SharedList::empty(),
            depth: MOST_ITEM_DEPTH + 1,
        }),
    }
}

/// No variables.
pub(crate) fn no_vars() -> VarsForm
    ensures { result ≡ no_vars }
{
    VarsForm {
        vars: SharedList::empty(),
        depth: 0,
    }
}

/// A number.
pub(crate) fn number(alloc: Global, at: u32, value: i64) -> Result<Form<Expr>, AllocError>
    ensures { IfOk result (λ r. r ≡ number at value) }
{
    expr_form(alloc, at, 1, Expr::Number(at, value))
}

/// `true` or `false`.
pub(crate) fn truth(alloc: Global, at: u32, value: bool) -> Result<Form<Expr>, AllocError>
    ensures { IfOk result (λ r. r ≡ truth at value) }
{
    expr_form(alloc, at, 1, Expr::Bool(at, value))
}

/// `nothing`.
pub(crate) fn nothing(alloc: Global, at: u32) -> Result<Form<Expr>, AllocError>
    ensures { IfOk result (λ r. r ≡ nothing at) }
{
    expr_form(alloc, at, 1, Expr::Nothing(at))
}

/// A name.
pub(crate) fn name(alloc: Global, at: u32, bytes: Bytes) -> Result<Form<Expr>, AllocError>
    ensures { IfOk result (λ r. r ≡ name at bytes) }
{
    expr_form(alloc, at, 1, Expr::Name(at, bytes))
}

/// An expression in parentheses.
pub(crate) fn paren(alloc: Global, at: u32, e: Form<Expr>) -> Result<Form<Expr>, AllocError>
    ensures { IfOk result (λ r. r ≡ paren at e) }
{
    let tree = SharedNode::new(alloc, e.tree.take())?;
    expr_form(alloc, at, depth_around(e.depth), Expr::Paren(at, tree))
}

/// Expressions in parentheses, with their commas.
pub(crate) fn tuple(alloc: Global, at: u32, es: Forms<Expr>) -> Result<Form<Expr>, AllocError>
    ensures { IfOk result (λ r. r ≡ tuple at es) }
{
    let trees = es.trees.into_shared(alloc)?;
    expr_form(alloc, at, depth_around(es.depth), Expr::Tuple(at, trees))
}

/// Arguments, behind what they are given to. The name of a written type is no type of its own there.
pub(crate) fn call_expr(
    alloc: Global,
    at: u32,
    function: Owned<Called>,
    es: Forms<Expr>,
) -> Result<Form<Expr>, AllocError>
    ensures { IfOk result (λ r. r ≡ call_expr at function es) }
{
    let Forms { trees, depth } = es;
    let trees = trees.into_shared(alloc)?;
    match function.take() {
        Called::Function(callee) => expr_form(
            alloc,
            at,
            depth_around(depth),
            Expr::Call(at, callee, trees),
        ),
        Called::Type(ty) => {
            let greatest = ty.depth.saturating_sub(1).max(depth);
            expr_form(
                alloc,
                at,
                depth_around(greatest),
                Expr::Make(at, ty.tree.take(), trees),
            )
        }
        Called::Latest(callee) => expr_form(
            alloc,
            at,
            depth_around(depth),
            Expr::Latest(at, callee, trees),
        ),
    }
}

/// `e.name`
pub(crate) fn field(alloc: Global, e: Form<Expr>, name: Name) -> Result<Form<Expr>, AllocError>
    ensures { IfOk result (λ r. r ≡ field e name) }
{
    let tree = SharedNode::new(alloc, e.tree.take())?;
    expr_form(
        alloc,
        e.at,
        depth_around(e.depth),
        Expr::Field(e.at, tree, name),
    )
}

/// `e[number]`
pub(crate) fn part(alloc: Global, e: Form<Expr>, number: i64) -> Result<Form<Expr>, AllocError>
    ensures { IfOk result (λ r. r ≡ part e number) }
{
    let tree = SharedNode::new(alloc, e.tree.take())?;
    expr_form(
        alloc,
        e.at,
        depth_around(e.depth),
        Expr::Part(e.at, tree, number),
    )
}

/// An operator before its operand.
pub(crate) fn prefix_expr(
    alloc: Global,
    prefix: PrefixAt,
    e: Form<Expr>,
) -> Result<Form<Expr>, AllocError>
    ensures { IfOk result (λ r. r ≡ prefix_expr prefix e) }
{
    let tree = SharedNode::new(alloc, e.tree.take())?;
    let tree = Expr::Prefix(prefix.at, prefix.prefix, tree);
    expr_form(alloc, prefix.at, depth_around(e.depth), tree)
}

/// An operator between its operands.
pub(crate) fn infix_expr(
    alloc: Global,
    left: Form<Expr>,
    operator: Infix,
    right: Form<Expr>,
) -> Result<Form<Expr>, AllocError>
    ensures { IfOk result (λ r. r ≡ infix_expr left operator right) }
{
    let depth = depth_around(left.depth.max(right.depth));
    let at = left.at;
    let left = SharedNode::new(alloc, left.tree.take())?;
    let right = SharedNode::new(alloc, right.tree.take())?;
    expr_form(alloc, at, depth, Expr::Infix(at, operator, left, right))
}

/// `e isa T`
pub(crate) fn isa_expr(alloc: Global, e: Form<Expr>, ty: TypeForm) -> Result<Form<Expr>, AllocError>
    ensures { IfOk result (λ r. r ≡ isa_expr e ty) }
{
    let depth = depth_around(e.depth.max(ty.depth));
    let at = e.at;
    let tree = SharedNode::new(alloc, e.tree.take())?;
    expr_form(alloc, at, depth, Expr::Isa(at, tree, ty.tree.take()))
}

/// `S <: T`
pub(crate) fn sub_expr(
    alloc: Global,
    at: u32,
    left: TypeForm,
    right: TypeForm,
) -> Result<Form<Expr>, AllocError>
    ensures { IfOk result (λ r. r ≡ sub_expr at left right) }
{
    let depth = depth_around(left.depth.max(right.depth));
    expr_form(
        alloc,
        at,
        depth,
        Expr::Sub(at, left.tree.take(), right.tree.take()),
    )
}

/// The tree of an expression, in a node of its own.
fn node(alloc: Global, e: Form<Expr>) -> Result<SharedNode<Expr>, AllocError>
    ensures { IfOk result (λ n. n ≡ e.tree) }
{
    SharedNode::new(alloc, e.tree.take())
}

/// The trees of two expressions, each in a node of its own.
fn nodes(
    alloc: Global,
    left: Form<Expr>,
    right: Form<Expr>,
) -> Result<(SharedNode<Expr>, SharedNode<Expr>), AllocError>
    ensures { IfOk result (λ r. r ≡ (left.tree, right.tree)) }
{
    let left = node(alloc, left)?;
    let right = node(alloc, right)?;
    Ok((left, right))
}

/// `test ? then : otherwise`
pub(crate) fn choose_expr(
    alloc: Global,
    test: Form<Expr>,
    then: Form<Expr>,
    otherwise: Form<Expr>,
) -> Result<Form<Expr>, AllocError>
    ensures { IfOk result (λ r. r ≡ choose_expr test then otherwise) }
{
    let depth = depth_around(test.depth.max(then.depth.max(otherwise.depth)));
    let at = test.at;
    let (then, otherwise) = nodes(alloc, then, otherwise)?;
    let test = node(alloc, test)?;
    expr_form(alloc, at, depth, Expr::Choose(at, test, then, otherwise))
}

/// `begin` and a block.
pub(crate) fn begin_expr(alloc: Global, at: u32, ss: Forms<Stmt>) -> Result<Form<Expr>, AllocError>
    ensures { IfOk result (λ r. r ≡ begin_expr at ss) }
{
    let trees = ss.trees.into_shared(alloc)?;
    expr_form(
        alloc,
        at,
        depth_around(depth_around(ss.depth)),
        Expr::Begin(at, trees),
    )
}

/// `Threads.@spawn e`
pub(crate) fn spawn_expr(alloc: Global, at: u32, e: Form<Expr>) -> Result<Form<Expr>, AllocError>
    ensures { IfOk result (λ r. r ≡ spawn_expr at e) }
{
    let tree = SharedNode::new(alloc, e.tree.take())?;
    expr_form(alloc, at, depth_around(e.depth), Expr::Spawn(at, tree))
}

/// `@eval` and a method.
pub(crate) fn eval_method(
    alloc: Global,
    at: u32,
    method: Form<Method>,
) -> Result<Form<Expr>, AllocError>
    ensures { IfOk result (λ r. r ≡ eval_method at method) }
{
    let tree = SharedNode::new(alloc, method.tree.take())?;
    expr_form(
        alloc,
        at,
        depth_around(method.depth),
        Expr::EvalMethod(at, tree),
    )
}

/// `@eval begin` and a block.
pub(crate) fn eval_block(
    alloc: Global,
    at: u32,
    evals: Forms<Eval>,
) -> Result<Form<Expr>, AllocError>
    ensures { IfOk result (λ r. r ≡ eval_block at evals) }
{
    let trees = evals.trees.into_shared(alloc)?;
    expr_form(
        alloc,
        at,
        depth_around(depth_around(evals.depth)),
        Expr::EvalBlock(at, trees),
    )
}

/// `@eval e`
pub(crate) fn eval_expr(alloc: Global, at: u32, e: Form<Expr>) -> Result<Form<Expr>, AllocError>
    ensures { IfOk result (λ r. r ≡ eval_expr at e) }
{
    let tree = SharedNode::new(alloc, e.tree.take())?;
    expr_form(alloc, at, depth_around(e.depth), Expr::EvalExpr(at, tree))
}

/// `eval(quote` and a block.
pub(crate) fn eval_quote(
    alloc: Global,
    at: u32,
    evals: Forms<Eval>,
) -> Result<Form<Expr>, AllocError>
    ensures { IfOk result (λ r. r ≡ eval_quote at evals) }
{
    let trees = evals.trees.into_shared(alloc)?;
    expr_form(
        alloc,
        at,
        depth_around(depth_around(evals.depth)),
        Expr::EvalQuote(at, trees),
    )
}

/// `fetch(e)`
pub(crate) fn fetch_expr(alloc: Global, at: u32, e: Form<Expr>) -> Result<Form<Expr>, AllocError>
    ensures { IfOk result (λ r. r ≡ fetch_expr at e) }
{
    let tree = SharedNode::new(alloc, e.tree.take())?;
    expr_form(alloc, at, depth_around(e.depth), Expr::Fetch(at, tree))
}

/// `Base.delete_method(which(f, T))`
pub(crate) fn delete_expr(
    alloc: Global,
    at: u32,
    function: Name,
    ty: TypeForm,
) -> Result<Form<Expr>, AllocError>
    ensures { IfOk result (λ r. r ≡ delete_expr at function ty) }
{
    let depth = depth_around(ty.depth);
    expr_form(alloc, at, depth, Expr::Delete(at, function, ty.tree.take()))
}

/// `print` and its pieces, or `println`.
pub(crate) fn print_expr(
    alloc: Global,
    at: u32,
    line: bool,
    pieces: Forms<Piece>,
) -> Result<Form<Expr>, AllocError>
    ensures { IfOk result (λ r. r ≡ print_expr at line pieces) }
{
    let trees = pieces.trees.into_shared(alloc)?;
    expr_form(
        alloc,
        at,
        depth_around(pieces.depth),
        Expr::Print(at, line, trees),
    )
}

/// The depth of something that stands so many levels below.
fn depth_below(levels: u32, depth: u32) -> u32
    ensures { result ≡ depth_below levels depth }
{
    let most = MOST_ITEM_DEPTH + 1;
    (levels.min(most) + depth.min(most)).min(most)
}

/// No branches: the first one would be one level deeper than the `if`.
pub(crate) fn no_branches(alloc: Global) -> Branched
    ensures { result ≡ no_branches }
{
    Branched {
        branches: Row::new(alloc),
        lowered: 1,
        depth: 0,
    }
}

/// The branches and one more. The next one stands in an `if` in this one's place.
pub(crate) fn with_branch(
    alloc: Global,
    branched: Branched,
    at: u32,
    test: Form<Expr>,
    ss: Forms<Stmt>,
) -> Result<Branched, AllocError>
    ensures { IfOk result (λ r. r ≡ with_branch branched at test ss) }
{
    let Branched {
        mut branches,
        lowered,
        depth,
    } = branched;
    let inner = depth_below(lowered, test.depth.max(depth_around(ss.depth)));
    let block = ss.trees.into_shared(alloc)?;
    let test = test.tree.take();
    branches.push(Branch { at, test, block })?;
    Ok(Branched {
        branches,
        lowered: lowered.min(MOST_ITEM_DEPTH - 1) + 2,
        depth: depth.max(inner),
    })
}

/// An `if` without `else`.
pub(crate) fn if_expr(alloc: Global, at: u32, branched: Branched) -> Result<Form<Expr>, AllocError>
    ensures { IfOk result (λ r. r ≡ if_expr at branched) }
{
    let branches = branched.branches.into_shared(alloc)?;
    expr_form(alloc, at, branched.depth, Expr::If(at, branches))
}

/// An `if` with `else`.
pub(crate) fn if_else_expr(
    alloc: Global,
    at: u32,
    branched: Branched,
    ss: Forms<Stmt>,
) -> Result<Form<Expr>, AllocError>
    ensures { IfOk result (λ r. r ≡ if_else_expr at branched ss) }
{
    let Branched {
        branches,
        lowered,
        depth,
    } = branched;
    let inner = depth_below(lowered.saturating_sub(2), depth_around(ss.depth));
    let branches = branches.into_shared(alloc)?;
    let block = ss.trees.into_shared(alloc)?;
    expr_form(
        alloc,
        at,
        depth.max(inner),
        Expr::IfElse(at, branches, block),
    )
}

/// The pieces of a `print`, and the text of a value.
pub(crate) fn with_show(pieces: Forms<Piece>, e: Form<Expr>) -> Result<Forms<Piece>, AllocError>
    ensures { IfOk result (λ r. r ≡ with_show pieces e) }
{
    with_form(pieces, Piece::Show(e.tree.take()), e.depth)
}

/// The pieces of a `print`, and a text as it stands.
pub(crate) fn with_text(
    pieces: Forms<Piece>,
    at: u32,
    text: Bytes,
) -> Result<Forms<Piece>, AllocError>
    ensures { IfOk result (λ r. r ≡ with_text pieces at text) }
{
    with_form(pieces, Piece::Text(at, text), 0)
}

/// The expressions and one more.
pub(crate) fn with_expr(es: Forms<Expr>, e: Form<Expr>) -> Result<Forms<Expr>, AllocError>
    ensures { IfOk result (λ r. r ≡ with_expr es e) }
{
    with_form(es, e.tree.take(), e.depth)
}
