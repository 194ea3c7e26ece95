//! What stands before an operand, and what it makes of the operand where its chain ends. All that stands before it is changed where it is.

ghost use Rattle.std.specs.Prelude.{◌≡◌, OnOk, IfOk, None, []};
ghost use Rattle.jl_grammar.specs.Levels.{no_levels, pending_after, no_pending, push_outer, with_levels, with_prefixes, with_left, with_operand, as_term, as_sum, as_comparison, as_or, end_outer, end_all_outer, expression, levels_after_prefix, levels_after_term, levels_after_sum, levels_after_comparison, levels_after_type, levels_after_and, levels_after_or, no_left, is_comparison_start};

use crate::forms::{choose_expr, eval_expr, eval_method, infix_expr, prefix_expr, spawn_expr};
use crate::items::short_method;
use jl_grammar::held::Held;
use jl_grammar::owned::Owned;
use jl_grammar::state::{Form, Lead, Left, Levels, Outer, Pending, PrefixAt};
use jl_grammar::tree::{Expr, Infix};
use jl_model::rows::Stack;
use std::alloc::{AllocError, Global};
use std::mem;

/// Nothing stands before the operand.
pub(crate) fn no_levels(alloc: Global) -> Levels
    ensures { result ≡ no_levels }
{
    Levels {
        or: Held::new(None),
        and: Held::new(None),
        comparison: Held::new(None),
        sum: Held::new(None),
        term: Held::new(None),
        prefixes: Stack::new(alloc),
    }
}

/// An operand behind what a statement begins with.
pub(crate) fn pending_after(
    alloc: Global,
    lead: Lead,
    returns: bool,
) -> Result<Owned<Pending>, AllocError>
    ensures { IfOk result (λ p. p ≡ pending_after lead returns) }
{
    let pending = Pending {
        lead,
        outer: Stack::new(alloc),
        levels: no_levels(alloc),
        returns,
    };
    Owned::new(alloc, pending)
}

/// An operand behind nothing.
pub(crate) fn no_pending(alloc: Global, returns: bool) -> Result<Owned<Pending>, AllocError>
    ensures { IfOk result (λ p. p ≡ no_pending returns) }
{
    pending_after(alloc, Lead::Plain, returns)
}

/// A form that takes all that follows it begins.
pub(crate) fn begin_form(
    alloc: Global,
    form: Outer,
    returns: bool,
    pending: &mut Pending,
) -> Result<(), AllocError>
    ensures { OnOk result (pending.new ≡ push_outer form returns pending.old) }
{
    pending.outer.push(form)?;
    drop(take_levels(alloc, &mut pending.levels));
    pending.returns = returns;
    Ok(())
}

/// The levels, which are then empty.
pub(crate) fn take_levels(alloc: Global, levels: &mut Levels) -> Levels
    ensures taken { result ≡ levels.old }
    ensures left { levels.new ≡ no_levels }
{
    mem::replace(levels, no_levels(alloc))
}

/// The operand with the operators before it, the innermost first.
fn with_prefixes(
    alloc: Global,
    prefixes: &mut Stack<PrefixAt>,
    e: Form<Expr>,
) -> Result<Form<Expr>, AllocError>
    ensures { IfOk result (λ r. (r ≡ with_prefixes prefixes.old e) × (prefixes.new ≡ [])) }
{
    let mut form = e;
    while let Some(prefix) = prefixes.pop() {
        form = prefix_expr(alloc, prefix, form)?;
    }
    Ok(form)
}

/// The operand with the left operand before it, if there is one.
fn with_left(
    alloc: Global,
    left: &mut Held<Option<Owned<Left>>>,
    e: Form<Expr>,
) -> Result<Form<Expr>, AllocError>
    ensures { IfOk result (λ r. (r ≡ with_left left.old e) × (left.new ≡ None)) }
{
    match left.pull() {
        None => Ok(e),
        Some(before) => {
            let Left { left, operator } = before.take();
            infix_expr(alloc, left, operator, e)
        }
    }
}

/// The same with the left operand of this operator.
fn with_operand(
    alloc: Global,
    left: &mut Held<Option<Owned<Form<Expr>>>>,
    operator: Infix,
    e: Form<Expr>,
) -> Result<Form<Expr>, AllocError>
    ensures { IfOk result (λ r. (r ≡ with_operand left.old operator e) × (left.new ≡ None)) }
{
    match left.pull() {
        None => Ok(e),
        Some(left) => infix_expr(alloc, left.take(), operator, e),
    }
}

/// The operand as a term.
fn as_term(alloc: Global, levels: &mut Levels, e: Form<Expr>) -> Result<Form<Expr>, AllocError>
    ensures { IfOk result (λ r. (r ≡ as_term levels.old e)
        × (levels.new ≡ record levels.old { term = None; prefixes = [] })) }
{
    let unary = with_prefixes(alloc, &mut levels.prefixes, e)?;
    with_left(alloc, &mut levels.term, unary)
}

/// The operand as a sum.
fn as_sum(alloc: Global, levels: &mut Levels, e: Form<Expr>) -> Result<Form<Expr>, AllocError>
    ensures { IfOk result (λ r. (r ≡ as_sum levels.old e)
        × (levels.new ≡ record levels.old { sum = None; term = None; prefixes = [] })) }
{
    let term = as_term(alloc, levels, e)?;
    with_left(alloc, &mut levels.sum, term)
}

/// The operand as a comparison.
fn as_comparison(
    alloc: Global,
    levels: &mut Levels,
    e: Form<Expr>,
) -> Result<Form<Expr>, AllocError>
    ensures { IfOk result (λ r. (r ≡ as_comparison levels.old e)
        × (levels.new ≡ levels_after_type levels.old)) }
{
    let sum = as_sum(alloc, levels, e)?;
    with_left(alloc, &mut levels.comparison, sum)
}

/// The operand of `isa` as a sum. What compares with it is gone.
pub(crate) fn take_sum(
    alloc: Global,
    pending: &mut Pending,
    e: Form<Expr>,
) -> Result<Form<Expr>, AllocError>
    ensures { IfOk result (λ r. (r ≡ as_sum pending.old.levels e)
        × (pending.new ≡ with_levels (levels_after_type pending.old.levels) pending.old)) }
{
    let levels = &mut pending.levels;
    let sum = as_sum(alloc, levels, e)?;
    drop(levels.comparison.pull());
    Ok(sum)
}

/// The operand as a comparison.
pub(crate) fn end_comparison(
    alloc: Global,
    pending: &mut Pending,
    e: Form<Expr>,
) -> Result<Form<Expr>, AllocError>
    ensures { IfOk result (λ r. (r ≡ as_comparison pending.old.levels e)
        × (pending.new ≡ with_levels (levels_after_type pending.old.levels) pending.old)) }
{
    as_comparison(alloc, &mut pending.levels, e)
}

/// A comparison as a disjunction.
fn as_or(alloc: Global, levels: &mut Levels, e: Form<Expr>) -> Result<Form<Expr>, AllocError>
    ensures { IfOk result (λ r. (r ≡ as_or levels.old e)
        × (levels.new ≡ record levels.old { or = None; and = None })) }
{
    let e = with_operand(alloc, &mut levels.and, Infix::And, e)?;
    with_operand(alloc, &mut levels.or, Infix::Or, e)
}

/// The operand as a disjunction.
fn take_disjunction(alloc: Global, levels: Levels, e: Form<Expr>) -> Result<Form<Expr>, AllocError>
    ensures { IfOk result (λ r. r ≡ as_or levels (as_comparison levels e)) }
{
    let mut levels = levels;
    let e = as_comparison(alloc, &mut levels, e)?;
    as_or(alloc, &mut levels, e)
}

/// The test of a conditional: a comparison as a disjunction, of which nothing is left before what follows.
pub(crate) fn test_of(
    alloc: Global,
    pending: &mut Pending,
    e: Form<Expr>,
) -> Result<Form<Expr>, AllocError>
    ensures { IfOk result (λ r. (r ≡ as_or pending.old.levels e)
        × (pending.new ≡ with_levels no_levels pending.old)) }
{
    let test = as_or(alloc, &mut pending.levels, e)?;
    drop(take_levels(alloc, &mut pending.levels));
    Ok(test)
}

/// A form that ends with this expression, as a disjunction.
fn end_outer(alloc: Global, form: Outer, e: Form<Expr>) -> Result<Form<Expr>, AllocError>
    ensures { IfOk result (λ r. r ≡ end_outer form e) }
{
    match form {
        Outer::Spawn(levels, at) => {
            let e = spawn_expr(alloc, at, e)?;
            take_disjunction(alloc, levels, e)
        }
        Outer::Eval(levels, at) => {
            let e = eval_expr(alloc, at, e)?;
            take_disjunction(alloc, levels, e)
        }
        Outer::Short(levels, at, head) => {
            let method = short_method(alloc, head.take(), e)?;
            let e = eval_method(alloc, at, method)?;
            take_disjunction(alloc, levels, e)
        }
        Outer::Otherwise(test, then) => choose_expr(alloc, test.take(), then.take(), e),
    }
}

/// The forms that end with this expression, the innermost first.
fn end_all_outer(
    alloc: Global,
    outer: &mut Stack<Outer>,
    e: Form<Expr>,
) -> Result<Form<Expr>, AllocError>
    ensures { IfOk result (λ r. r ≡ end_all_outer outer.old e) }
{
    let mut ending = e;
    while let Some(form) = outer.pop() {
        ending = end_outer(alloc, form, ending)?;
    }
    Ok(ending)
}

/// A comparison as the whole expression that ends with it.
fn whole_expr(alloc: Global, pending: &mut Pending, e: Form<Expr>) -> Result<Form<Expr>, AllocError>
    ensures { IfOk result (λ r. (r ≡ expression pending.old e)
        × (pending.new.lead ≡ pending.old.lead)) }
{
    let e = as_or(alloc, &mut pending.levels, e)?;
    end_all_outer(alloc, &mut pending.outer, e)
}

/// A comparison as the whole expression that ends with it, behind what the statement begins with.
pub(crate) fn expression(
    alloc: Global,
    pending: Owned<Pending>,
    e: Form<Expr>,
) -> Result<(Lead, Form<Expr>), AllocError>
    ensures { IfOk result (λ r. r ≡ (pending.lead, expression pending e)) }
{
    let mut pending = pending;
    let before = pending.get_mut();
    let e = whole_expr(alloc, before, e)?;
    let lead = mem::replace(&mut before.lead, Lead::Plain);
    Ok((lead, e))
}

/// An operator before an operand.
pub(crate) fn levels_after_prefix(prefix: PrefixAt, pending: &mut Pending) -> Result<(), AllocError>
    ensures { OnOk result (pending.new
        ≡ with_levels (levels_after_prefix prefix pending.old.levels) pending.old) }
{
    pending.levels.prefixes.push(prefix)
}

/// `*`, `÷` or `%` behind an operand.
pub(crate) fn levels_after_term(
    alloc: Global,
    operator: Infix,
    pending: &mut Pending,
    e: Form<Expr>,
) -> Result<(), AllocError>
    ensures { OnOk result (pending.new
        ≡ with_levels (levels_after_term operator pending.old.levels e) pending.old) }
{
    let levels = &mut pending.levels;
    let left = as_term(alloc, levels, e)?;
    let term = Owned::new(alloc, Left { left, operator })?;
    levels.term = Held::new(Some(term));
    Ok(())
}

/// `+` or `-` behind an operand.
pub(crate) fn levels_after_sum(
    alloc: Global,
    operator: Infix,
    pending: &mut Pending,
    e: Form<Expr>,
) -> Result<(), AllocError>
    ensures { OnOk result (pending.new
        ≡ with_levels (levels_after_sum operator pending.old.levels e) pending.old) }
{
    let levels = &mut pending.levels;
    let left = as_sum(alloc, levels, e)?;
    let sum = Owned::new(alloc, Left { left, operator })?;
    levels.sum = Held::new(Some(sum));
    Ok(())
}

/// The operator of a comparison behind its left operand.
pub(crate) fn levels_after_comparison(
    alloc: Global,
    operator: Infix,
    pending: &mut Pending,
    e: Form<Expr>,
) -> Result<(), AllocError>
    ensures { OnOk result (pending.new
        ≡ with_levels (levels_after_comparison operator pending.old.levels e) pending.old) }
{
    let levels = &mut pending.levels;
    let left = as_sum(alloc, levels, e)?;
    let comparison = Owned::new(alloc, Left { left, operator })?;
    levels.comparison = Held::new(Some(comparison));
    Ok(())
}

/// `&&` behind a comparison.
pub(crate) fn levels_after_and(
    alloc: Global,
    pending: &mut Pending,
    e: Form<Expr>,
) -> Result<(), AllocError>
    ensures { OnOk result (pending.new
        ≡ with_levels (levels_after_and pending.old.levels e) pending.old) }
{
    let levels = &mut pending.levels;
    let left = with_operand(alloc, &mut levels.and, Infix::And, e)?;
    let and = Owned::new(alloc, left)?;
    let or = levels.or.pull();
    drop(take_levels(alloc, levels));
    levels.or = Held::new(or);
    levels.and = Held::new(Some(and));
    Ok(())
}

/// `||` behind a comparison.
pub(crate) fn levels_after_or(
    alloc: Global,
    pending: &mut Pending,
    e: Form<Expr>,
) -> Result<(), AllocError>
    ensures { OnOk result (pending.new
        ≡ with_levels (levels_after_or pending.old.levels e) pending.old) }
{
    let levels = &mut pending.levels;
    let left = as_or(alloc, levels, e)?;
    let or = Owned::new(alloc, left)?;
    drop(take_levels(alloc, levels));
    levels.or = Held::new(Some(or));
    Ok(())
}

/// Whether no left operand stands there.
fn no_left(left: &Held<Option<Owned<Left>>>) -> bool
    ensures { result ≡ no_left left.now }
{
    left.get().is_none()
}

/// Whether no comparison has begun.
pub(crate) fn has_no_comparison(levels: &Levels) -> bool
    ensures { result ≡ no_left levels.now.comparison }
{
    no_left(&levels.comparison)
}

/// Whether a comparison begins at the operand.
pub(crate) fn is_comparison_start(levels: &Levels) -> bool
    ensures { result ≡ is_comparison_start levels.now }
{
    no_left(&levels.comparison)
        && no_left(&levels.sum)
        && no_left(&levels.term)
        && levels.prefixes.is_empty()
}
