//! What a form becomes, once its parts are read.

ghost use Rattle.std.specs.Prelude.{◌≡◌, ◌∷◌, [], IfOk, length};
ghost use Rattle.jl_resolve_forms.specs.Scopes.{slot_of, bind};
ghost use Rattle.jl_resolve_forms.specs.Resolver.{resolution, Resolves};
ghost use Rattle.jl_program.specs.declared.tree.Expr.TheViews as C;
ghost use Rattle.jl_resolve_forms.specs.Expressions.{bound, local, prefix_code, infix_code, count_call, latest, call, chain_arms, inferred_refusal, part_number};

use crate::judge::Judge;
use crate::known::{Arm, Called, Known};
use crate::scopes::{bind, note, note_if, slot_of};
use crate::state::{Scope, State};
use crate::types::one_type;
use jl_grammar::tree::{Infix, Name, Prefix};
use jl_model::limits::MOST_ARGUMENTS;
use jl_model::shared::{SharedList, SharedNode};
use jl_model::ty::{Bytes, Ty, Tys};
use jl_program::prelude::{
    DIV, EQUAL, GREATER, GREATER_EQUAL, LESS, LESS_EQUAL, MINUS, NOT, NOT_EQUAL, PLUS, REM, TIMES,
};
use jl_program::tree::{Expr as Code, Exprs as Codes, Item, Stmt};
use jl_written::fault::StaticKind;
use jl_written::names::to_u32;
use std::alloc::{AllocError, Global};

/// A name that is used as a value, by its slot.
#[tactic(auto, unfolding(crate::specs::Expressions::local))]
pub fn local(state: &mut State, at: u32, slot: Option<u32>) -> Code
    ensures { resolution result state.new ≡ local at slot state.old }
{
    match slot {
        None => {
            note(state, at, StaticKind::UnknownName);
            Code::Nothing
        }
        Some(slot) => Code::Local(slot),
    }
}

/// The number of a part, which is at least 1.
#[tactic(auto, unfolding(crate::specs::Expressions::part_number))]
pub fn part_number(number: i64) -> u64
    ensures { result ≡ part_number number }
{
    if number < 0 { 0 } else { number as u64 }
}

fn call_one(alloc: Global, function: u32, code: Code) -> Result<Code, AllocError>
    ensures { IfOk result (λ c. c ≡ C.Call function (code ∷ [])) }
{
    let mut arguments = Vec::new(alloc);
    arguments.push(code)?;
    Ok(Code::Call(function, SharedList::from_vec(alloc, arguments)?))
}

/// An operator with one operand is a call.
#[tactic(auto, unfolding(crate::specs::Expressions::prefix_code))]
pub fn prefix_code(alloc: Global, operator: Prefix, code: Code) -> Result<Code, AllocError>
    ensures { IfOk result (λ c. c ≡ prefix_code operator code) }
{
    match operator {
        Prefix::Minus => call_one(alloc, MINUS, code),
        Prefix::Not => call_one(alloc, NOT, code),
    }
}

/// A call of a function of two arguments.
fn call_two(alloc: Global, function: u32, left: Code, right: Code) -> Result<Code, AllocError>
    ensures { IfOk result (λ c. c ≡ C.Call function (left ∷ right ∷ [])) }
{
    let arguments = vec![in alloc; left, right]?;
    Ok(Code::Call(function, SharedList::from_vec(alloc, arguments)?))
}

/// Two expressions that others hold.
fn hold_two(
    alloc: Global,
    left: Code,
    right: Code,
) -> Result<(SharedNode<Code>, SharedNode<Code>), AllocError>
    ensures { IfOk result (λ both. (both.0 ≡ left) × (both.1 ≡ right)) }
{
    match SharedNode::new(alloc, left) {
        Ok(left) => {
            let right = SharedNode::new(alloc, right)?;
            Ok((left, right))
        }
        Err(error) => {
            drop(right);
            Err(error)
        }
    }
}

/// An operator with two operands.
#[tactic(auto, unfolding(crate::specs::Expressions::infix_code))]
pub fn infix_code(
    alloc: Global,
    operator: Infix,
    left: Code,
    right: Code,
) -> Result<Code, AllocError>
    ensures { IfOk result (λ c. c ≡ infix_code operator left right) }
{
    match operator {
        Infix::Or => {
            let (left, right) = hold_two(alloc, left, right)?;
            Ok(Code::Or(left, right))
        }
        Infix::And => {
            let (left, right) = hold_two(alloc, left, right)?;
            Ok(Code::And(left, right))
        }
        Infix::Equal => call_two(alloc, EQUAL, left, right),
        Infix::NotEqual => call_two(alloc, NOT_EQUAL, left, right),
        Infix::Less => call_two(alloc, LESS, left, right),
        Infix::LessEqual => call_two(alloc, LESS_EQUAL, left, right),
        Infix::Greater => call_two(alloc, GREATER, left, right),
        Infix::GreaterEqual => call_two(alloc, GREATER_EQUAL, left, right),
        Infix::Identical => {
            let (left, right) = hold_two(alloc, left, right)?;
            Ok(Code::Egal(left, right, false))
        }
        Infix::NotIdentical => {
            let (left, right) = hold_two(alloc, left, right)?;
            Ok(Code::Egal(left, right, true))
        }
        Infix::Plus => call_two(alloc, PLUS, left, right),
        Infix::Minus => call_two(alloc, MINUS, left, right),
        Infix::Times => call_two(alloc, TIMES, left, right),
        Infix::Divide => call_two(alloc, DIV, left, right),
        Infix::Remainder => call_two(alloc, REM, left, right),
    }
}

/// A counted call has at most 8 arguments.
fn count_call(state: &mut State, at: u32, arguments: &Codes)
    ensures { state.new ≡ count_call at arguments.now state.old }
{
    if arguments.len() > MOST_ARGUMENTS {
        note(state, at, StaticKind::TooManyArguments);
    }
}

/// The call of `invokelatest`.
#[tactic(auto, unfolding(crate::specs::Expressions::latest))]
pub fn latest(state: &mut State, at: u32, function: Option<u32>, arguments: Codes) -> Code
    ensures { resolution result state.new ≡ latest at function arguments state.old }
{
    match function {
        Some(function) => {
            count_call(state, at, &arguments);
            Code::Latest(function, arguments)
        }
        None => {
            note(state, at, StaticKind::UnknownFunction);
            Code::Nothing
        }
    }
}

/// What refuses an inferred constructor.
fn inferred_refusal<J: Judge>(
    alloc: Global,
    judge: &J,
    known: &Known,
    number: u32,
) -> Result<Option<StaticKind>, AllocError>
    ensures { IfOk result (λ k. k ≡ inferred_refusal (J.tests judge.now) known.now number) }
{
    if !known.decls.finds_parameters(number) {
        return Ok(Some(StaticKind::StaticParameterUse));
    }
    if judge.is_wide(alloc, number)? {
        return Ok(Some(StaticKind::TypeLimit));
    }
    Ok(None)
}

/// A call of a function or a constructor.
#[tactic(auto, unfolding(crate::specs::Expressions::call))]
pub fn call<J: Judge>(
    alloc: Global,
    judge: &J,
    known: &Known,
    state: &mut State,
    at: u32,
    called: Called,
    arguments: Codes,
) -> Result<Code, AllocError>
    ensures { Resolves result state.new
        (call (J.tests judge.now) known.now at called arguments state.old) }
{
    match called {
        Called::Function(function) => {
            count_call(state, at, &arguments);
            Ok(Code::Call(function, arguments))
        }
        Called::Bare(number) => {
            let ty = Ty::Nominal(number, Tys::empty());
            let written = one_type(alloc, ty, SharedList::empty())?;
            Ok(Code::Make(written, arguments))
        }
        Called::Inferred(number) => {
            let refusal = inferred_refusal(alloc, judge, known, number)?;
            note_if(state, at, refusal);
            Ok(Code::Infer(number, arguments))
        }
        Called::Unknown => {
            note(state, at, StaticKind::UnknownFunction);
            Ok(Code::Nothing)
        }
    }
}

/// An `elseif` is an `if` in the branch where it stands.
#[tactic(auto, using(crate::proofs::ArmLemmas::chain_arms_last))]
pub fn chain_arms(alloc: Global, arms: Vec<Arm>, otherwise: Code) -> Result<Code, AllocError>
    ensures { IfOk result (λ c. c ≡ chain_arms arms.items otherwise) }
{
    let mut left = arms;
    let mut code = otherwise;
    while let Some(arm) = left.pop() {
        let Arm { test, then } = arm;
        code = Code::If(test, then, SharedNode::new(alloc, code)?);
    }
    Ok(code)
}

/// A binding takes the next slot, and gives its number.
fn place_binding(scope: &mut Scope, state: &mut State, name: &Name) -> Result<u32, AllocError>
    ensures { IfOk result (λ n. (n ≡ length scope.old.slots) × (resolution scope.new state.new
        ≡ bind name.now scope.old state.old)) }
{
    let slot = to_u32(scope.slots.len())?;
    bind(scope, state, name)?;
    Ok(slot)
}

/// A binding.
pub fn bind_local(
    scope: &mut Scope,
    state: &mut State,
    name: &Name,
    code: Code,
) -> Result<Stmt, AllocError>
    ensures { IfOk result (λ x. resolution (x, scope.new) state.new
        ≡ bound name.now scope.old code state.old) }
{
    match place_binding(scope, state, name) {
        Ok(slot) => Ok(Stmt::Bind(slot, code)),
        Err(error) => {
            drop(code);
            Err(error)
        }
    }
}

/// The slot of a visible name.
pub fn visible_slot(scope: &Scope, name: &Bytes) -> Option<u32>
    ensures { result ≡ slot_of scope.now.slots name.now }
{
    slot_of(&scope.slots, name.as_slice())
}

/// An evaluated block of one statement.
pub fn one_item(alloc: Global, item: Item) -> Result<Code, AllocError>
    ensures { IfOk result (λ c. c ≡ C.Eval (item ∷ [])) }
{
    let mut items = Vec::new(alloc);
    items.push(item)?;
    Ok(Code::Eval(SharedList::from_vec(alloc, items)?))
}
