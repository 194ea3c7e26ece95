//! The stacks, and the values that are open.

ghost use Rattle.std.specs.Prelude.{◌≡◌, ◌∷◌, ◌++◌, [], OnOk, IfOk, get_or};
ghost use Rattle.jl_program.specs.declared.value.Value.TheVariants.{Nothing};
ghost use Rattle.jl_frames.specs.Held.{nothing_held, with_open, opens, IsOne};

use crate::flat::{Flat, Scope};
use crate::place::put_on_top;
use crate::scopes::drop_above;
use jl_model::rows::Row;
use jl_model::ty::Ty;
use jl_program::env::Env;
use jl_program::value::Value;
use std::alloc::{AllocError, Global};
use std::marker::Model;

/// The frames of a task, the slots and the static parameters of the body that runs, and the values and the text that are open. The slots lie on
/// a stack of their own, so that a binding between two arguments of a call moves nothing.
#[derive(Drop)]
pub struct Frames<'p> {
    pub(crate) flat: Vec<Flat<'p>>,
    pub(crate) values: Vec<Value>,
    pub(crate) slots: Vec<Value>,
    pub(crate) types: Vec<Ty>,
    pub(crate) text: Row<u8>,
    pub(crate) from: u32,
    pub(crate) text_from: u32,
    pub(crate) scope: Scope,
    /// What the task last shared of what it sees. The frames mean the same without it.
    pub(crate) seen: Env,
}

impl<'p> Model for Frames<'p> {
    ghost use Rattle.jl_frames.specs.Held.{Held};
    ghost use Rattle.jl_program.specs.contracts.value.Value as v;
    ghost use Rattle.jl_model.specs.contracts.ty.Ty as t;
    ghost use Rattle.jl_task.specs.contracts.point.Frame as f;
    ghost use Rattle.std.specs.Coded.{codes};

    ghost Value = { Held };

    ghost coded = { Prim.hlevel (codes, v.the_row.coded, t.the_row.coded, f.the_row.coded) };

    ghost use Rattle.jl_frames.specs.View.{held, IsWhole};

    ghost view = { held };

    ghost invariant = { IsWhole };
}

/// An equal value, whose parts are shared.
#[inline(never)]
fn copy_value(value: &Value) -> Result<Value, AllocError>
    ensures { IfOk result (λ copy. copy ≡ value.now) }
{
    value.copy()
}

impl<'p> Frames<'p> {
    pub fn new(alloc: Global) -> Frames<'p>
        ensures { result ≡ nothing_held }
    {
        Frames {
            flat: Vec::new(alloc),
            values: Vec::new(alloc),
            slots: Vec::new(alloc),
            types: Vec::new(alloc),
            text: Row::new(alloc),
            from: 0,
            text_from: 0,
            scope: Scope {
                base: 0,
                kept: 0,
                types_base: 0,
                types_kept: 0,
            },
            seen: Env::empty(),
        }
    }

    /// The values so far of an expression whose parts are evaluated, or the one value that is given.
    #[inline(always)]
    pub fn open_values(&self) -> &[Value]
        ensures { result.now ≡ self.now.open_values }
    {
        &self.values[self.from as usize..]
    }

    /// The slots of the body that runs.
    #[inline(always)]
    pub fn env(&self) -> &[Value]
        ensures { result.now ≡ self.now.env }
    {
        &self.slots[self.scope.base as usize..]
    }

    /// The types of the static parameters of the body that runs.
    pub fn bindings(&self) -> &[Ty]
        ensures { result.now ≡ self.now.bindings }
    {
        &self.types[self.scope.types_base as usize..]
    }

    /// A value is open above those that are.
    #[inline(always)]
    pub fn push(&mut self, value: Value) -> Result<(), AllocError>
        ensures { OnOk result (self.new ≡ opens self.old value) }
    {
        put_on_top(&mut self.values, value)?;
        Ok(())
    }

    /// The value of a slot. A number is copied apart from the others, which are copied out of line.
    #[inline(always)]
    fn local(&self, slot: u32) -> Result<Value, AllocError>
        ensures { IfOk result (λ v. v ≡ get_or self.now.env slot Nothing) }
    {
        match self.env().get(slot as usize) {
            Some(Value::Int(number)) => Ok(Value::Int(*number)),
            Some(value) => copy_value(value),
            None => Ok(Value::Nothing),
        }
    }

    /// The value of a slot is open above those that are.
    #[inline(always)]
    pub fn push_local(&mut self, slot: u32) -> Result<(), AllocError>
        ensures { OnOk result (self.new ≡ opens self.old (get_or self.old.env slot Nothing)) }
    {
        let value = self.local(slot)?;
        self.push(value)
    }

    /// The open values are dropped.
    #[inline(always)]
    pub fn clear(&mut self)
        ensures { self.new ≡ with_open self.old [] }
    {
        drop_above(&mut self.values, self.from as usize);
    }

    /// The one open value is taken.
    #[inline(always)]
    pub fn take_one(&mut self) -> Value
        requires one { IsOne self.old }
        ensures value { self.old.open_values ≡ result ∷ [] }
        ensures rest { self.new ≡ with_open self.old [] }
    {
        match self.values.pop() {
            Some(value) => value,
            None => unreachable!(),
        }
    }
}
