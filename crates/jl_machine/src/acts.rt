//! What the forms answer that ask nobody, once their parts have values.

ghost use Rattle.std.specs.Prelude.{◌≡◌, ◌<◌, IfOk, length, map};
ghost use Rattle.jl_program.specs.declared.tree.Expr.{out-Expr};
ghost use Rattle.jl_program.specs.Meaning.{datum};
ghost use Rattle.jl_program.specs.Scope.{all_types};
ghost use Rattle.jl_program.specs.ValidValue.{AllValid};
ghost use Rattle.jl_calculus.specs.Operations.{make_written};
ghost use Rattle.jl_calculus.specs.ValidHistory.{IsValidOutcome};
ghost use Rattle.jl_operations.specs.Conditions.{IsMadeIn};
ghost use Rattle.jl_task.specs.Operated.{operation_of};
ghost use Rattle.jl_task.specs.Point.{value_at};
ghost use Rattle.jl_machine.specs.Acting.{MayAct, IsOperation};

use jl_calculus::history::Outcome;
use jl_frames::Frames;
use jl_model::ty::{Ty, Written};
use jl_operations::{Memo, get_field, get_part, make_inferred, make_plain, make_tuple, test_same};
use jl_program::tree::Expr;
use jl_program::value::Value;
use jl_sig::Ready;
use std::alloc::{AllocError, Global};

/// The value at a place.
fn value_at(values: &[Value], place: usize) -> &Value
    requires { place < length values.now }
    ensures { result.now ≡ value_at values.now place }
{
    &values[place]
}

/// `written(values..)`: a struct of a type that is written without arguments is made at once, if it can be.
fn make(
    alloc: Global,
    ready: &Ready,
    memo: &mut Memo,
    statics: &[Ty],
    written: &Written,
    values: &[Value],
) -> Result<Outcome, AllocError>
    requires types { memo.old ≡ all_types ready.now }
    requires written { IsMadeIn ready.now statics.now written.now }
    requires values { AllValid (all_types ready.now) (map datum values.now) }
    ensures answer { IfOk result (λ o. make_written (all_types ready.now) statics.now written.now values.now o) }
    ensures valid { IfOk result (λ o. IsValidOutcome ready.now o) }
    ensures types { memo.new ≡ memo.old }
{
    match make_plain(alloc, ready, statics, written, values)? {
        Some(value) => Ok(Outcome::Value(value)),
        None => memo.make_written(alloc, ready, statics, written, values),
    }
}

/// What a form answers whose parts are the open values.
pub(crate) fn operate(
    alloc: Global,
    ready: &Ready,
    memo: &mut Memo,
    frames: &Frames<'_>,
    expr: &Expr,
) -> Result<Outcome, AllocError>
    requires types { memo.old ≡ all_types ready.now }
    requires good { MayAct ready.now frames.now.bindings expr.now frames.now.open_values }
    requires form { IsOperation (out-Expr expr.now) }
    ensures answer { IfOk result (λ o. operation_of (all_types ready.now) frames.now.bindings (out-Expr expr.now) frames.now.open_values o) }
    ensures valid { IfOk result (λ o. IsValidOutcome ready.now o) }
    ensures types { memo.new ≡ memo.old }
{
    let values = frames.open_values();
    match expr {
        Expr::Make(written, _) => make(alloc, ready, memo, frames.bindings(), written, values),
        Expr::Infer(name, _) => make_inferred(alloc, ready, *name, values),
        Expr::Parts(_) => make_tuple(alloc, ready, values),
        Expr::Field(_, name) => get_field(ready, value_at(values, 0), name),
        Expr::Part(_, number) => get_part(ready, value_at(values, 0), *number),
        Expr::Egal(_, _, negated) => {
            Ok(test_same(*negated, value_at(values, 0), value_at(values, 1)))
        }
        Expr::Isa(_, written) => memo.test_type(
            alloc,
            ready,
            frames.bindings(),
            value_at(values, 0),
            written,
        ),
        Expr::Sub(left, right) => memo.test_order(alloc, ready, frames.bindings(), left, right),
        Expr::Int(_) | Expr::Bool(_) | Expr::Nothing | Expr::Local(_) => unreachable!(),
        Expr::Call(_, _) | Expr::Latest(_, _) => unreachable!(),
        Expr::Spawn(_) | Expr::Delete(_) | Expr::Fetch(_) => unreachable!(),
        Expr::If(_, _, _) | Expr::And(_, _) | Expr::Or(_, _) => unreachable!(),
        Expr::Block(_) | Expr::Eval(_) | Expr::Print(_, _) => unreachable!(),
    }
}
