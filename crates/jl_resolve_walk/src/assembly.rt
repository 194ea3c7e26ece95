//! What a form becomes, once its parts are read: the steps of the walk that go to no other part.
//!
//! A part that is a node or a list is handed in as it is: the walk passes on with `?` that memory ran out, and the drop
//! of such a part is one call. An expression, a statement or an item by value, and what else is held by value while a
//! part is read, is dropped by the forms of the tree, at each `?` anew, which made the check of the walk's cycle many
//! times as long. So a step that takes one of these takes the `Result` of its last part, and the `?` is here, outside
//! of the cycle.

ghost use Rattle.std.specs.Prelude.{◌≡◌, ◌∷◌, ◌++◌, [], IfOk, OnOk, take};
ghost use Rattle.jl_program.specs.declared.tree.Expr.TheViews as C;
ghost use Rattle.jl_program.specs.declared.tree.Expr.TheVariants as W;
ghost use Rattle.jl_program.specs.declared.tree.Item.TheVariants as I;
ghost use Rattle.jl_program.specs.declared.tree.Piece.TheVariants as P;
ghost use Rattle.jl_program.specs.declared.tree.Stmt.TheVariants as S;
ghost use Rattle.jl_resolve_forms.specs.Functions.{callee_of, function_of, place_of_callee};
ghost use Rattle.jl_resolve_forms.specs.Scopes.{slot_of};
ghost use Rattle.jl_resolve_forms.specs.Resolver.{resolution, Resolves};
ghost use Rattle.jl_resolve_forms.specs.TypesIn.{start_of};
ghost use Rattle.jl_resolve_forms.specs.Expressions.{awaited, bound, is_below, local, call, chain_arms, close_site, infix_code, latest, part_number, prefix_code, spawned_at, started};
ghost use Rattle.jl_resolve_walk.specs.Steps.{Gives, begin_make, end_make, test_type};

use jl_grammar::tree::{Callee, Head, Infix, Name, Prefix};
use jl_model::rows::Row;
use jl_model::shared::SharedNode;
use jl_model::ty::{Bytes, Written};
use jl_program::tree::{
    Expr as Code, Exprs as Codes, Item, Items, Piece as Shown, Pieces as Showns, Stmt as Statement,
};
use jl_resolve_forms::forms;
use jl_resolve_forms::functions::{callee_of, function_of, place_of_callee};
use jl_resolve_forms::judge::Judge;
use jl_resolve_forms::known::{Arm, Known};
use jl_resolve_forms::methods::{close_site, open_method, reserve_site};
use jl_resolve_forms::scopes::note;
use jl_resolve_forms::state::{Opening, Scope, State};
use jl_resolve_forms::types::{make_args, make_at, make_struct, start_of, type_in_body};
use jl_typeread::tree::TypeText;
use jl_written::fault::StaticKind;
use jl_written::names::to_u32;
use std::alloc::{AllocError, Global};

/// One more part of a list.
pub(crate) fn put<T: Drop>(out: &mut Row<T>, part: Result<T, AllocError>) -> Result<(), AllocError>
    ensures { Gives part result (λ y r. out.new ≡ out.old ++ y ∷ []) }
{
    let part = part?;
    out.push(part)
}

/// One more test with its block.
pub(crate) fn put_arm(out: &mut Vec<Arm>, part: Result<Arm, AllocError>) -> Result<(), AllocError>
    ensures { Gives part result (λ y r. out.new.items ≡ out.old.items ++ y ∷ []) }
{
    let part = part?;
    out.push(part)?;
    Ok(())
}

/// An expression that others hold. From here on it is dropped by a call.
pub(crate) fn node_of(
    alloc: Global,
    code: Result<Code, AllocError>,
) -> Result<SharedNode<Code>, AllocError>
    ensures { Gives code result (λ y n. n ≡ y) }
{
    let code = code?;
    SharedNode::new(alloc, code)
}

/// A whole number.
pub(crate) fn number(number: &i64) -> Code
    ensures { result ≡ W.Int number.now }
{
    Code::Int(*number)
}

/// A name that is used as a value.
pub(crate) fn name(scope: &Scope, state: &mut State, at: u32, name: &Bytes) -> Code
    ensures { resolution result state.new ≡ local at (slot_of scope.now.slots name.now) state.old }
{
    let slot = forms::visible_slot(scope, name);
    forms::local(state, at, slot)
}

/// A tuple.
pub(crate) fn tuple(parts: Codes) -> Code
    ensures { result ≡ C.Parts parts }
{
    Code::Parts(parts)
}

/// A call of a function or a constructor.
pub(crate) fn call<J: Judge>(
    alloc: Global,
    judge: &J,
    known: &Known,
    scope: &Scope,
    state: &mut State,
    callee: &Callee,
    arguments: Codes,
) -> Result<Code, AllocError>
    ensures { Resolves result state.new (call (J.tests judge.now) known.now
        (place_of_callee callee.now) (callee_of known.now callee.now scope.now) arguments state.old) }
{
    let called = callee_of(known, callee, scope);
    let at = place_of_callee(callee);
    forms::call(alloc, judge, known, state, at, called, arguments)
}

/// The call of `invokelatest`.
pub(crate) fn latest(
    known: &Known,
    scope: &Scope,
    state: &mut State,
    callee: &Callee,
    arguments: Codes,
) -> Code
    ensures { resolution result state.new
        ≡ latest (place_of_callee callee.now)
        (function_of known.now callee.now scope.now) arguments state.old }
{
    let function = function_of(known, callee, scope);
    let at = place_of_callee(callee);
    forms::latest(state, at, function, arguments)
}

/// A field of a value.
pub(crate) fn field(owner: SharedNode<Code>, name: &Name) -> Result<Code, AllocError>
    ensures { IfOk result (λ c. c ≡ C.Field owner name.now.bytes) }
{
    let name = name.bytes.copy()?;
    Ok(Code::Field(owner, name))
}

/// A part of a tuple.
pub(crate) fn part(whole: SharedNode<Code>, number: &i64) -> Code
    ensures { result ≡ C.Part whole (part_number number.now) }
{
    let number = forms::part_number(*number);
    Code::Part(whole, number)
}

/// The value of a task.
pub(crate) fn fetch(task: SharedNode<Code>) -> Code
    ensures { result ≡ C.Fetch task }
{
    Code::Fetch(task)
}

/// An operator with one operand.
pub(crate) fn prefix(
    alloc: Global,
    operator: Prefix,
    code: Result<Code, AllocError>,
) -> Result<Code, AllocError>
    ensures { Gives code result (λ y c. c ≡ prefix_code operator y) }
{
    let code = code?;
    forms::prefix_code(alloc, operator, code)
}

/// An operator with two operands.
pub(crate) fn infix(
    alloc: Global,
    operator: Infix,
    left: Code,
    right: Result<Code, AllocError>,
) -> Result<Code, AllocError>
    ensures { Gives right result (λ y c. c ≡ infix_code operator left y) }
{
    match right {
        Ok(right) => forms::infix_code(alloc, operator, left, right),
        Err(error) => {
            drop(left);
            Err(error)
        }
    }
}

/// A test of a value's type.
pub(crate) fn is_a<J: Judge>(
    alloc: Global,
    judge: &J,
    known: &Known,
    scope: &Scope,
    state: &mut State,
    value: SharedNode<Code>,
    ty: &TypeText,
) -> Result<Code, AllocError>
    ensures { Resolves result state.new
        (test_type (J.tests judge.now) known.now value ty.now scope.now state.old) }
{
    let written = type_in_body(alloc, judge, known, scope, state, ty)?;
    Ok(Code::Isa(value, written))
}

/// A comparison of two types.
pub(crate) fn below<J: Judge>(
    alloc: Global,
    judge: &J,
    known: &Known,
    scope: &Scope,
    state: &mut State,
    left: &TypeText,
    right: &TypeText,
) -> Result<Code, AllocError>
    ensures { Resolves result state.new
        (is_below (J.tests judge.now) known.now left.now right.now scope.now state.old) }
{
    let left = type_in_body(alloc, judge, known, scope, state, left)?;
    let right = type_in_body(alloc, judge, known, scope, state, right)?;
    Ok(Code::Sub(left, right))
}

/// A choice.
pub(crate) fn choose(
    test: SharedNode<Code>,
    then: SharedNode<Code>,
    or_else: SharedNode<Code>,
) -> Code
    ensures { result ≡ C.If test then or_else }
{
    Code::If(test, then, or_else)
}

/// An `if` without `else`.
pub(crate) fn only_if(alloc: Global, arms: Vec<Arm>) -> Result<Code, AllocError>
    ensures { IfOk result (λ c. c ≡ chain_arms arms.items W.Nothing) }
{
    forms::chain_arms(alloc, arms, Code::Nothing)
}

/// An `if` with `else`, whose tests and blocks are read.
pub(crate) fn if_else(
    alloc: Global,
    arms: Vec<Arm>,
    last: Result<Code, AllocError>,
) -> Result<Code, AllocError>
    ensures { Gives last result (λ y c. c ≡ chain_arms arms.items y) }
{
    let last = last?;
    forms::chain_arms(alloc, arms, last)
}

/// The type of an explicit constructor, where its name is that of a struct.
pub(crate) fn begin_make<J: Judge>(
    alloc: Global,
    judge: &J,
    known: &Known,
    scope: &Scope,
    state: &mut State,
    ty: &TypeText,
) -> Result<Option<Written>, AllocError>
    ensures { Resolves result state.new
        (begin_make (J.tests judge.now) known.now ty.now scope.now state.old) }
{
    match make_struct(known, ty, scope) {
        None => Ok(None),
        Some(number) => {
            let at = start_of(ty);
            let written = make_at(alloc, judge, known, scope, state, at, number, make_args(ty))?;
            Ok(Some(written))
        }
    }
}

/// An explicit constructor, whose type is read.
pub(crate) fn end_make(
    state: &mut State,
    ty: &TypeText,
    written: Option<Written>,
    arguments: Result<Codes, AllocError>,
) -> Result<Code, AllocError>
    ensures { Gives arguments result (λ ys c. resolution c state.new
        ≡ end_make (start_of ty.now) written ys state.old) }
{
    let arguments = arguments?;
    match written {
        None => {
            note(state, start_of(ty), StaticKind::UnknownFunction);
            Ok(Code::Nothing)
        }
        Some(written) => Ok(Code::Make(written, arguments)),
    }
}

/// The next spawn place, whose expression is read behind this.
pub(crate) fn reserve_spawn(state: &mut State) -> Result<u32, AllocError>
    ensures { Resolves result state.new (awaited state.old) }
{
    let place = to_u32(state.spawns.len())?;
    state.spawns.push(Code::Nothing)?;
    Ok(place)
}

/// The expression of a spawn place.
pub(crate) fn end_spawn(
    state: &mut State,
    place: u32,
    code: Result<Code, AllocError>,
) -> Result<Code, AllocError>
    ensures { Gives code result (λ y c. resolution c state.new ≡ spawned_at place y state.old) }
{
    let code = code?;
    state.spawns.set(place as usize, code);
    Ok(Code::Spawn(place))
}

/// An evaluated method.
pub(crate) fn eval_method(alloc: Global, site: u32) -> Result<Code, AllocError>
    ensures { IfOk result (λ c. c ≡ C.Eval (I.Define site ∷ [])) }
{
    forms::one_item(alloc, Item::Define(site))
}

/// An evaluated expression.
pub(crate) fn eval_expr(alloc: Global, code: Result<Code, AllocError>) -> Result<Code, AllocError>
    ensures { Gives code result (λ y c. c ≡ C.Eval (I.Do y ∷ [])) }
{
    let code = code?;
    forms::one_item(alloc, Item::Do(code))
}

/// An evaluated block.
pub(crate) fn eval_block(items: Items) -> Code
    ensures { result ≡ C.Eval items }
{
    Code::Eval(items)
}

/// A print, which writes a newline at its end or not.
pub(crate) fn print(pieces: Showns, line: bool) -> Code
    ensures { result ≡ C.Print pieces line }
{
    Code::Print(pieces, line)
}

/// A binding of a block.
pub(crate) fn bind(
    scope: &mut Scope,
    state: &mut State,
    name: &Name,
    code: Result<Code, AllocError>,
) -> Result<Statement, AllocError>
    ensures { Gives code result (λ y x. resolution (x, scope.new) state.new
        ≡ bound name.now scope.old y state.old) }
{
    let code = code?;
    forms::bind_local(scope, state, name, code)
}

/// A statement that returns.
pub(crate) fn return_statement(code: Result<Code, AllocError>) -> Result<Statement, AllocError>
    ensures { Gives code result (λ y x. x ≡ S.Return y) }
{
    let code = code?;
    Ok(Statement::Return(code))
}

/// A statement that is an expression.
pub(crate) fn do_statement(code: Result<Code, AllocError>) -> Result<Statement, AllocError>
    ensures { Gives code result (λ y x. x ≡ S.Do y) }
{
    let code = code?;
    Ok(Statement::Do(code))
}

/// A text that is written as it stands.
pub(crate) fn text(bytes: &Bytes) -> Result<Shown, AllocError>
    ensures { IfOk result (λ p. p ≡ P.Text bytes.now) }
{
    let bytes = bytes.copy()?;
    Ok(Shown::Text(bytes))
}

/// A value that is written.
pub(crate) fn show(code: Result<Code, AllocError>) -> Result<Shown, AllocError>
    ensures { Gives code result (λ y p. p ≡ P.Show y) }
{
    let code = code?;
    Ok(Shown::Show(code))
}

/// An expression of an evaluated block.
pub(crate) fn evaluate(code: Result<Code, AllocError>) -> Result<Item, AllocError>
    ensures { Gives code result (λ y x. x ≡ I.Do y) }
{
    let code = code?;
    Ok(Item::Do(code))
}

/// A method up to its body, and the number of its site.
pub(crate) fn start_method<J: Judge>(
    alloc: Global,
    judge: &J,
    known: &Known,
    types: u32,
    state: &mut State,
    head: &Head,
) -> Result<(u32, Opening), AllocError>
    ensures { Resolves result state.new
        (started (J.tests judge.now) known.now head.now types state.old) }
{
    let opening = open_method(alloc, judge, known, types, state, head)?;
    let number = reserve_site(state, &opening)?;
    Ok((number, opening))
}

/// A method, whose body is read.
pub(crate) fn finish_method(
    state: &mut State,
    number: u32,
    opening: Opening,
    code: Result<Code, AllocError>,
) -> Result<u32, AllocError>
    ensures { Gives code result (λ y n. resolution n state.new
        ≡ resolution number (close_site number opening y state.old)) }
{
    let code = code?;
    close_site(state, number, opening, code);
    Ok(number)
}

/// A block of statements, whose bindings end with it.
pub(crate) fn end_block(
    alloc: Global,
    scope: &mut Scope,
    visible: usize,
    statements: Row<Statement>,
) -> Result<Code, AllocError>
    ensures means { IfOk result (λ c. c ≡ C.Block statements) }
    ensures kept { scope.new ≡ record scope.old { slots = take visible scope.old.slots } }
{
    scope.slots.truncate(visible);
    Ok(Code::Block(statements.into_shared(alloc)?))
}
