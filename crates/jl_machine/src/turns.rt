//! What the machine does by itself. Each of these answers what comes next. They are inlined into the loop of a run: at a call the place
//! of a result is cleared first, and the result is copied.

ghost use Rattle.std.specs.Prelude.{◌≡◌, ◌<◌, [], ◌∷◌, None, IfOk, OnOk, length, map, slice_get};
ghost use Rattle.jl_program.specs.declared.tree.Expr.{out-Expr};
ghost use Rattle.jl_program.specs.declared.tree.Stmt.{out-Stmt};
ghost use Rattle.jl_program.specs.declared.tree.Item.{out-Item};
ghost use Rattle.jl_program.specs.declared.value.Value.TheVariants as V;
ghost use Rattle.jl_program.specs.declared.fault.Fault.TheVariants as E;
ghost use Rattle.jl_calculus.specs.declared.history.Outcome.TheVariants as O;
ghost use Rattle.jl_frames.specs.Held.{first_value};
ghost use Rattle.jl_task.specs.declared.point.Work.TheVariants as W;
ghost use Rattle.jl_task.specs.Turns.{expr_in, go_pieces, go_stmts, tested, refused_test, after_item, left, answered, entered, looked_item};
ghost use Rattle.jl_task.specs.Skip.{leaf, skip_args};
ghost use Rattle.jl_machine.specs.Onward.{onward_layer, onward_begun, onward_stmt, onward_given};
ghost use Rattle.jl_machine.specs.declared.now.LentWork.TheVariants as L;
ghost use Rattle.jl_machine.specs.Lent.{now_of, given_value, IsClosed, IsGiven, Reaches, after_answer};
ghost use Rattle.jl_machine.specs.Leafed.{Leafed, truth_of};
ghost use Rattle.jl_machine.specs.Steps.{variables_at};
ghost use Rattle.jl_machine.specs.Taken.{IsTakenBy, MayPerform};
ghost use Rattle.jl_program.specs.declared.prelude.TheConstants.{PRELUDE_SITES};
ghost use Rattle.jl_program.specs.TypeOf.{type_of};
ghost use Rattle.jl_calculus.specs.Run.{body_of, operates};
ghost use Rattle.jl_host.specs.Replies.{outcome_of};
ghost use Rattle.jl_task.specs.Operated.{performed};

use crate::host::operate;
use crate::now::{LentNow, LentWork};
use jl_calculus::history::Outcome;
use jl_frames::{Flat, Frames};
use jl_host::{HostOps, OpReply};
use jl_model::ty::Ty;
use jl_program::fault::Fault;
use jl_program::prelude::PRELUDE_SITES;
use jl_program::tree::{Expr, Item, Piece, Stmt};
use jl_program::value::Value;
use jl_sig::Ready;
use jl_value::type_of;
use std::alloc::AllocError;
use std::mem;

fn int_value(number: &i64) -> Value
    ensures { result ≡ V.Int number.now }
{
    Value::Int(*number)
}

/// Opens the value of a leaf, and tells whether it was one.
#[inline(always)]
pub(crate) fn push_leaf(frames: &mut Frames<'_>, expr: &Expr) -> Result<bool, AllocError>
    ensures { IfOk result (λ is. Leafed is (leaf frames.old.env (out-Expr expr.now)) frames.old frames.new) }
{
    match expr {
        Expr::Int(number) => {
            frames.push(int_value(number))?;
            Ok(true)
        }
        Expr::Local(slot) => {
            frames.push_local(*slot)?;
            Ok(true)
        }
        Expr::Bool(truth) => {
            frames.push(Value::Bool(*truth))?;
            Ok(true)
        }
        Expr::Nothing => {
            frames.push(Value::Nothing)?;
            Ok(true)
        }
        _ => Ok(false),
    }
}

/// The parts of an expression that are leaves, up to the first that is none, or the expression acts.
#[inline(always)]
fn go_args<'p>(
    now: &mut LentNow<'p>,
    expr: &'p Expr,
    parts: &'p [Expr],
) -> Result<LentWork<'p>, AllocError>
    requires { now.old.frames.open_text ≡ [] }
    ensures { IfOk result (λ work. Reaches work now.new (skip_args expr.now now.old.frames.open_values parts.now (now_of now.old))) }
{
    for (i, first) in parts.iter().enumerate() {
        if !push_leaf(&mut now.frames, first)? {
            now.frames.wait_args(expr, &parts[i + 1..])?;
            return Ok(LentWork::Eval(first));
        }
    }
    Ok(LentWork::Acting(expr))
}

/// The one part of an expression, or its last one.
#[inline(always)]
fn go_last<'p>(
    now: &mut LentNow<'p>,
    expr: &'p Expr,
    part: &'p Expr,
) -> Result<LentWork<'p>, AllocError>
    requires { now.old.frames.open_text ≡ [] }
    ensures { IfOk result (λ work. Reaches work now.new (skip_args expr.now now.old.frames.open_values (part.now ∷ []) (now_of now.old))) }
{
    if push_leaf(&mut now.frames, part)? {
        return Ok(LentWork::Acting(expr));
    }
    now.frames.wait_args(expr, &[])?;
    Ok(LentWork::Eval(part))
}

/// The two sides of a comparison.
#[inline(always)]
fn go_both<'p>(
    now: &mut LentNow<'p>,
    expr: &'p Expr,
    left: &'p Expr,
    right: &'p Expr,
) -> Result<LentWork<'p>, AllocError>
    requires { now.old.frames.open_text ≡ [] }
    ensures { IfOk result (λ work. Reaches work now.new (skip_args expr.now now.old.frames.open_values (left.now ∷ right.now ∷ []) (now_of now.old))) }
{
    if push_leaf(&mut now.frames, left)? {
        return go_last(now, expr, right);
    }
    now.frames.wait_second(expr, right)?;
    Ok(LentWork::Eval(left))
}

/// Keeps how the task ends.
#[inline(never)]
fn keep_outcome(now: &mut LentNow<'_>, outcome: Outcome)
    ensures { Reaches L.Ended now.new (W.Ended outcome, now_of now.old) }
{
    drop(mem::replace(&mut now.outcome, outcome));
}

/// The task ends.
#[inline(never)]
pub(crate) fn end<'p>(now: &mut LentNow<'p>, outcome: Outcome) -> LentWork<'p>
    ensures { Reaches result now.new (W.Ended outcome, now_of now.old) }
{
    keep_outcome(now, outcome);
    LentWork::Ended
}

/// The task ends, since it has made as many calls as it may.
#[inline(never)]
pub(crate) fn end_spent<'p>(now: &mut LentNow<'p>, fuel: u64) -> LentWork<'p>
    ensures { Reaches result now.new (W.Ended (O.Error (E.FuelSpent fuel)), now_of now.old) }
{
    end(now, Outcome::Error(Fault::FuelSpent(fuel)))
}

/// The task ends, since as many calls are open as may be.
#[inline(never)]
pub(crate) fn end_deep<'p>(now: &mut LentNow<'p>) -> LentWork<'p>
    ensures { Reaches result now.new (W.Ended (O.Error E.StackLimit), now_of now.old) }
{
    end(now, Outcome::Error(Fault::StackLimit))
}

/// The task ends with the one open value. It is out of line: at each turn the places of a value and an outcome would be cleared.
#[inline(never)]
fn end_given(now: &mut LentNow<'_>)
    requires { IsGiven now.old.frames }
    ensures { Reaches L.Ended now.new (W.Ended (O.Value (given_value now.old)), now_of now.old) }
{
    let value = now.frames.take_one();
    keep_outcome(now, Outcome::Value(value));
}

/// The task ends, since a condition is no truth value: the one open value.
#[inline(never)]
fn end_untested(ready: &Ready, now: &mut LentNow<'_>) -> Result<(), AllocError>
    requires { IsGiven now.old.frames }
    ensures { OnOk result (Reaches L.Ended now.new (refused_test (given_value now.old) (now_of now.old))) }
{
    let value = now.frames.take_one();
    let ty = type_of(ready.table(), &value).copy()?;
    drop(value);
    keep_outcome(now, Outcome::Error(Fault::NotBool(ty)));
    Ok(())
}

/// The task ends, since a number is divided by 0, or the quotient does not fit.
#[inline(never)]
fn end_divided(now: &mut LentNow<'_>)
    ensures { Reaches L.Ended now.new (W.Ended (O.Error E.DivideError), now_of now.old) }
{
    keep_outcome(now, Outcome::Error(Fault::DivideError));
}

/// The expression of a statement.
#[inline(always)]
fn expr_in<'p>(stmt: &'p Stmt) -> &'p Expr
    ensures { result.now ≡ expr_in (out-Stmt stmt.now) }
{
    match stmt {
        Stmt::Bind(_, expr) => expr,
        Stmt::Do(expr) => expr,
        Stmt::Return(expr) => expr,
    }
}

/// The first statement of a block is begun, or the block is empty.
#[inline(always)]
fn begin_stmts<'p>(now: &mut LentNow<'p>, stmts: &'p [Stmt]) -> Result<LentWork<'p>, AllocError>
    requires { IsClosed now.old.frames }
    ensures { IfOk result (λ work. Reaches work now.new (go_stmts stmts.now V.Nothing (now_of now.old))) }
{
    match stmts {
        [] => {
            now.frames.push(Value::Nothing)?;
            Ok(LentWork::Give)
        }
        [stmt, rest @ ..] => {
            now.frames.wait_stmt(stmt, rest)?;
            Ok(LentWork::Eval(expr_in(stmt)))
        }
    }
}

/// An expression that is no leaf is begun, and of a block its first statement. It is out of line: in the loop of a run those that come most often
/// are begun by themselves.
#[inline(never)]
fn begin_layer<'p>(now: &mut LentNow<'p>, expr: &'p Expr) -> Result<LentWork<'p>, AllocError>
    requires layer { leaf now.old.frames.env (out-Expr expr.now) ≡ None }
    requires settled { IsClosed now.old.frames }
    ensures { IfOk result (λ work. Reaches work now.new (onward_layer expr.now (out-Expr expr.now) (now_of now.old))) }
{
    match expr {
        Expr::Call(_, parts)
        | Expr::Latest(_, parts)
        | Expr::Make(_, parts)
        | Expr::Infer(_, parts)
        | Expr::Parts(parts) => go_args(now, expr, parts.as_slice()),
        Expr::Field(part, _) | Expr::Part(part, _) | Expr::Isa(part, _) | Expr::Fetch(part) =>
            go_last(now, expr, part.get()),
        Expr::Egal(left, right, _) => go_both(now, expr, left.get(), right.get()),
        Expr::If(test, _, _) | Expr::And(test, _) | Expr::Or(test, _) => {
            now.frames.wait_test(expr)?;
            Ok(LentWork::Eval(test.get()))
        }
        Expr::Sub(_, _) | Expr::Spawn(_) | Expr::Delete(_) => Ok(LentWork::Acting(expr)),
        Expr::Block(stmts) => {
            now.frames.wait_block()?;
            begin_stmts(now, stmts.as_slice())
        }
        Expr::Eval(items) => {
            now.frames.wait_eval()?;
            now.frames.push(Value::Nothing)?;
            Ok(LentWork::Items(true, items.as_slice()))
        }
        Expr::Print(pieces, line) => Ok(LentWork::Pieces(*line, pieces.as_slice())),
        Expr::Int(_) | Expr::Bool(_) | Expr::Nothing | Expr::Local(_) => unreachable!(),
    }
}

/// An expression is begun.
#[inline(always)]
pub(crate) fn begin<'p>(now: &mut LentNow<'p>, expr: &'p Expr) -> Result<LentWork<'p>, AllocError>
    requires { IsClosed now.old.frames }
    ensures { IfOk result (λ work. Reaches work now.new (onward_begun expr.now (now_of now.old))) }
{
    if push_leaf(&mut now.frames, expr)? {
        return Ok(LentWork::Give);
    }
    begin_layer(now, expr)
}

/// The truth value that the first of these values is.
fn truth_of(values: &[Value]) -> Option<bool>
    ensures { result ≡ truth_of (first_value values.now) }
{
    match values {
        [Value::Bool(truth), ..] => Some(*truth),
        _ => None,
    }
}

/// The branch that a condition takes: the condition's value is open.
#[inline(always)]
fn branch<'p>(
    ready: &'p Ready,
    now: &mut LentNow<'p>,
    expr: &'p Expr,
) -> Result<LentWork<'p>, AllocError>
    requires { IsGiven now.old.frames }
    ensures { IfOk result (λ work. Reaches work now.new (tested (out-Expr expr.now) (given_value now.old) (now_of now.old))) }
{
    match truth_of(now.frames.open_values()) {
        None => {
            end_untested(ready, now)?;
            Ok(LentWork::Ended)
        }
        Some(truth) => match expr {
            Expr::If(_, yes, no) => {
                now.frames.clear();
                if truth {
                    return Ok(LentWork::Eval(yes.get()));
                }
                Ok(LentWork::Eval(no.get()))
            }
            Expr::And(_, right) => {
                if truth {
                    now.frames.clear();
                    return Ok(LentWork::Eval(right.get()));
                }
                Ok(LentWork::Give)
            }
            Expr::Or(_, right) => {
                if truth {
                    return Ok(LentWork::Give);
                }
                now.frames.clear();
                Ok(LentWork::Eval(right.get()))
            }
            _ => Ok(LentWork::Lost),
        },
    }
}

/// The next statement of a block, or its end: the value of the one before is open.
#[inline(always)]
fn go_stmts<'p>(now: &mut LentNow<'p>, stmts: &'p [Stmt]) -> Result<LentWork<'p>, AllocError>
    requires { IsGiven now.old.frames }
    ensures { IfOk result (λ work. Reaches work now.new (go_stmts stmts.now (given_value now.old) (now_of now.old))) }
{
    match stmts {
        [] => Ok(LentWork::Give),
        [stmt, rest @ ..] => {
            now.frames.clear();
            now.frames.wait_stmt(stmt, rest)?;
            Ok(LentWork::Eval(expr_in(stmt)))
        }
    }
}

/// A statement of a block has its value, which is open, and the next one is begun.
#[inline(always)]
fn after_stmt<'p>(
    now: &mut LentNow<'p>,
    stmt: &'p Stmt,
    rest: &'p [Stmt],
) -> Result<LentWork<'p>, AllocError>
    requires { IsGiven now.old.frames }
    ensures { IfOk result (λ work. Reaches work now.new (onward_stmt (out-Stmt stmt.now) rest.now (given_value now.old) (now_of now.old))) }
{
    match stmt {
        Stmt::Bind(slot, _) => {
            now.frames.bind(*slot)?;
            go_stmts(now, rest)
        }
        Stmt::Do(_) => go_stmts(now, rest),
        Stmt::Return(_) => Ok(LentWork::Leave),
    }
}

/// A statement at the top or of an evaluated block has its value, which is open.
#[inline(always)]
fn after_item<'p>(
    now: &mut LentNow<'p>,
    item: &'p Item,
    fresh: bool,
    rest: &'p [Item],
) -> Result<LentWork<'p>, AllocError>
    requires { IsGiven now.old.frames }
    ensures { IfOk result (λ work. Reaches work now.new (after_item (out-Item item.now) fresh rest.now (given_value now.old) (now_of now.old))) }
{
    match item {
        Item::Define(_) => Ok(LentWork::Items(fresh, rest)),
        Item::Bind(slot, _) => {
            now.frames.bind(*slot)?;
            Ok(LentWork::Items(fresh, rest))
        }
        Item::Do(_) => Ok(LentWork::Items(fresh, rest)),
    }
}

/// The one open value is given to the topmost frame, whichever it is.
#[inline(always)]
fn give_any<'p>(ready: &'p Ready, now: &mut LentNow<'p>) -> Result<LentWork<'p>, AllocError>
    requires { IsGiven now.old.frames }
    ensures { IfOk result (λ work. Reaches work now.new (onward_given ready.now now.old.frames.stack (given_value now.old) (now_of now.old))) }
{
    match now.frames.take() {
        None => {
            end_given(now);
            Ok(LentWork::Ended)
        }
        Some(flat) => match flat {
            Flat::Args(_, expr, rest) => go_args(now, expr, rest),
            Flat::Second(_, expr, second) => go_last(now, expr, second),
            Flat::Testing(expr) => branch(ready, now, expr),
            Flat::AfterStmt(stmt, rest) => after_stmt(now, stmt, rest),
            Flat::Block(_, _) => Ok(LentWork::Give),
            Flat::AfterItem(fresh, world, item, rest) => {
                now.world = world;
                after_item(now, item, fresh, rest)
            }
            Flat::Evaluated(_) => Ok(LentWork::Give),
            Flat::Showing(line, _, rest) => {
                now.frames.show(ready.program())?;
                Ok(LentWork::Pieces(line, rest))
            }
            Flat::Body(world, _, room) => {
                now.world = world;
                now.room = room;
                Ok(LentWork::Give)
            }
        },
    }
}

/// The one open value is given to the topmost frame. A body is asked for by itself: its frame is the one that comes most often.
#[inline(always)]
pub(crate) fn give<'p>(ready: &'p Ready, now: &mut LentNow<'p>) -> Result<LentWork<'p>, AllocError>
    requires { IsGiven now.old.frames }
    ensures { IfOk result (λ work. Reaches work now.new (onward_given ready.now now.old.frames.stack (given_value now.old) (now_of now.old))) }
{
    match now.frames.take_body() {
        Some((world, room)) => {
            now.world = world;
            now.room = room;
            Ok(LentWork::Give)
        }
        None => {
            let work = give_any(ready, now)?;
            Ok(work)
        }
    }
}

/// A `return` passes the topmost frame.
#[inline(always)]
pub(crate) fn leave<'p>(now: &mut LentNow<'p>) -> LentWork<'p>
    requires { IsGiven now.old.frames }
    ensures { Reaches result now.new (left now.old.frames.stack (given_value now.old) (now_of now.old)) }
{
    match now.frames.pass() {
        None => {
            end_given(now);
            LentWork::Ended
        }
        Some(flat) => match flat {
            Flat::AfterItem(_, world, _, _) => {
                now.world = world;
                LentWork::Leave
            }
            Flat::Body(world, _, room) => {
                now.world = world;
                now.room = room;
                LentWork::Give
            }
            Flat::Args(_, _, _) => LentWork::Leave,
            Flat::Second(_, _, _) => LentWork::Leave,
            Flat::Testing(_) => LentWork::Leave,
            Flat::AfterStmt(_, _) => LentWork::Leave,
            Flat::Block(_, _) => LentWork::Leave,
            Flat::Evaluated(_) => LentWork::Leave,
            Flat::Showing(_, _, _) => LentWork::Leave,
        },
    }
}

/// The next piece of a `print`, or its end: the text is written when all of it is there.
#[inline(always)]
pub(crate) fn go_pieces<'p>(
    now: &mut LentNow<'p>,
    pieces: &'p [Piece],
    line: bool,
) -> Result<LentWork<'p>, AllocError>
    requires { now.old.frames.open_values ≡ [] }
    ensures { IfOk result (λ work. Reaches work now.new (go_pieces now.old.frames.open_text pieces.now line (now_of now.old))) }
{
    match pieces {
        [] => {
            now.frames.write(&mut now.out, line)?;
            now.frames.push(Value::Nothing)?;
            Ok(LentWork::Give)
        }
        [piece, rest @ ..] => match piece {
            Piece::Text(bytes) => {
                now.frames.push_text(bytes.as_slice())?;
                Ok(LentWork::Pieces(line, rest))
            }
            Piece::Show(expr) => {
                now.frames.wait_text(rest, line)?;
                Ok(LentWork::Eval(expr))
            }
        },
    }
}

/// What an operation answers: nothing is open. It tells whether a value is given, which needs no place in memory at a call.
#[inline(always)]
pub(crate) fn answer(now: &mut LentNow<'_>, outcome: Outcome) -> Result<bool, AllocError>
    requires { IsClosed now.old.frames }
    ensures { IfOk result (λ goes. Reaches (after_answer goes) now.new (answered outcome, now_of now.old)) }
{
    match outcome {
        Outcome::Value(value) => {
            now.frames.push(value)?;
            Ok(true)
        }
        Outcome::Error(fault) => {
            keep_outcome(now, Outcome::Error(fault));
            Ok(false)
        }
    }
}

/// What comes next after an answer.
#[inline(always)]
pub(crate) fn after_answer<'p>(goes: bool) -> LentWork<'p>
    ensures { result ≡ after_answer goes }
{
    if goes {
        return LentWork::Give;
    }
    LentWork::Ended
}

/// What an operation of the prelude replied: nothing is open.
#[inline(always)]
pub(crate) fn take_reply<'p>(
    now: &mut LentNow<'p>,
    reply: OpReply,
) -> Result<LentWork<'p>, AllocError>
    requires { IsClosed now.old.frames }
    ensures { IfOk result (λ work. Reaches work now.new (answered (outcome_of reply), now_of now.old)) }
{
    match reply {
        OpReply::Int(number) => {
            now.frames.push(Value::Int(number))?;
            Ok(LentWork::Give)
        }
        OpReply::Bool(truth) => {
            now.frames.push(Value::Bool(truth))?;
            Ok(LentWork::Give)
        }
        OpReply::DivideError => {
            end_divided(now);
            Ok(LentWork::Ended)
        }
    }
}

/// An operation of the prelude, whose arguments are the open values.
#[inline(always)]
fn operation<'p>(
    now: &mut LentNow<'p>,
    ops: &HostOps,
    site: u32,
) -> Result<LentWork<'p>, AllocError>
    requires text { now.old.frames.open_text ≡ [] }
    requires there { site < PRELUDE_SITES }
    requires taken { IsTakenBy site now.old.frames.open_values }
    ensures { IfOk result (λ work. Reaches work now.new (answered (operates site now.old.frames.open_values), now_of now.old)) }
{
    let reply = operate(ops, site, now.frames.open_values());
    now.frames.clear();
    take_reply(now, reply)
}

/// A method's body is begun, in a world and with these types for its static parameters. Its arguments are the open values.
#[inline(always)]
fn enter<'p>(
    now: &mut LentNow<'p>,
    world: u32,
    statics: &[Ty],
    body: &'p Expr,
) -> Result<LentWork<'p>, AllocError>
    requires room { 0 < now.old.room }
    requires text { now.old.frames.open_text ≡ [] }
    ensures { IfOk result (λ work. Reaches work now.new (entered body.now world now.old.frames.open_values statics.now (now_of now.old))) }
{
    now.frames.enter(now.world, now.room, statics)?;
    now.world = world;
    now.room -= 1;
    Ok(LentWork::Eval(body))
}

/// A site does what it does, in a world and with these types for its static parameters.
#[inline(always)]
pub(crate) fn perform<'p>(
    now: &mut LentNow<'p>,
    ready: &'p Ready,
    ops: &HostOps,
    site: u32,
    world: u32,
    statics: &[Ty],
) -> Result<LentWork<'p>, AllocError>
    requires room { 0 < now.old.room }
    requires text { now.old.frames.open_text ≡ [] }
    requires there { site < length ready.now.sites }
    requires taken { MayPerform site now.old.frames.open_values }
    requires statics { variables_at ready.now (map type_of now.old.frames.open_values) (slice_get ready.now.sites site) ≡ statics.now }
    ensures { IfOk result (λ work. Reaches work now.new (performed ready.now (body_of ready.now site) world now.old.frames.open_values (now_of now.old))) }
{
    if site < PRELUDE_SITES {
        return operation(now, ops, site);
    }
    let body = &ready.program().sites.as_slice()[site as usize].body;
    enter(now, world, statics, body)
}

/// A statement at the top or of an evaluated block is begun, in the world that it saw. The value of the one before is open.
#[inline(always)]
pub(crate) fn begin_item<'p>(
    now: &mut LentNow<'p>,
    item: &'p Item,
    fresh: bool,
    rest: &'p [Item],
    world: u32,
) -> Result<LentWork<'p>, AllocError>
    requires { IsGiven now.old.frames }
    ensures { IfOk result (λ work. Reaches work now.new (looked_item item.now (out-Item item.now) fresh rest.now world (now_of now.old))) }
{
    now.frames.clear();
    if fresh {
        now.frames.forget();
    }
    match item {
        Item::Define(site) => Ok(LentWork::Defining(fresh, *site, rest)),
        Item::Bind(_, expr) | Item::Do(expr) => {
            let around = now.world;
            now.frames.wait_item(item, fresh, around, rest)?;
            now.world = world;
            Ok(LentWork::Eval(expr))
        }
    }
}
