//! The slots and the static parameters of what runs.

ghost use Rattle.std.specs.Prelude.{◌≡◌, ◌<◌, ◌≤◌, ◌+◌, ◌++◌, ◌∷◌, [], OnOk, IfOk, take, drop, reverse, length};
ghost use Rattle.jl_program.specs.declared.value.Value.{Value};
ghost use Rattle.jl_frames.specs.Held.{with_scope, starts, enters, binds, first_value};

use crate::flat::{Flat, Scope};
use crate::frames::Frames;
use crate::place::{place, put_on_top};
use jl_model::ty::Ty;
use jl_program::value::Value;
use std::alloc::AllocError;

/// The last value of one stack becomes the last of another.
#[inline(always)]
fn move_last(values: &mut Vec<Value>, slots: &mut Vec<Value>) -> Result<(), AllocError>
    requires some { 0 < length values.old.items }
    ensures moved { OnOk result ((v : Value) × (values.old.items ≡ values.new.items ++ v ∷ []) × (slots.new.items ≡ slots.old.items ++ v ∷ [])) }
    ensures grown { length slots.old.items ≤ length slots.new.items }
    ensures less { length values.new.items + 1 ≡ length values.old.items }
{
    match values.pop() {
        Some(value) => {
            put_on_top(slots, value)?;
            Ok(())
        }
        None => unreachable!(),
    }
}

/// The values above a place are turned round. One value is left as it is: most calls have one argument.
#[inline(always)]
fn reverse_above(slots: &mut Vec<Value>, place: usize)
    requires { place ≤ length slots.old.items }
    ensures { slots.new.items ≡ take place slots.old.items ++ reverse (drop place slots.old.items) }
{
    if slots.len() - place > 1 {
        slots[place..].reverse();
    }
}

/// Values are moved from above a place of one stack to the top of another. Each is popped, which writes nothing where it was.
#[inline(always)]
fn move_values(
    values: &mut Vec<Value>,
    from: usize,
    slots: &mut Vec<Value>,
) -> Result<(), AllocError>
    requires within { from ≤ length values.old.items }
    ensures moved { OnOk result (slots.new.items ≡ slots.old.items ++ drop from values.old.items) }
    ensures left { OnOk result (values.new.items ≡ take from values.old.items) }
    ensures grown { length slots.old.items ≤ length slots.new.items }
    ensures within { from ≤ length values.new.items }
{
    let begin = slots.len();
    for place in from..values.len() {
        move_last(values, slots)?;
    }
    reverse_above(slots, begin);
    Ok(())
}

/// Entries of a stack are put on top of it once more.
fn push_copies(slots: &mut Vec<Value>, base: usize, count: usize) -> Result<(), AllocError>
    requires within { base + count ≤ length slots.old.items }
    ensures copied { OnOk result (slots.new.items ≡ slots.old.items ++ take count (drop base slots.old.items)) }
    ensures grown { length slots.old.items ≤ length slots.new.items }
{
    for i in 0..count {
        let value = slots[base + i].copy()?;
        put_on_top(slots, value)?;
    }
    Ok(())
}

/// Types are put on top of a stack.
#[inline(always)]
fn push_types(types: &mut Vec<Ty>, statics: &[Ty]) -> Result<(), AllocError>
    ensures pushed { OnOk result (types.new.items ≡ types.old.items ++ statics.now) }
    ensures grown { length types.old.items ≤ length types.new.items }
{
    for ty in statics {
        put_on_top(types, ty.copy()?)?;
    }
    Ok(())
}

/// A value is dropped. One that has no parts needs no call.
#[inline(always)]
fn let_go(value: Value) {
    match value {
        Value::Int(_) | Value::Bool(_) | Value::Nothing | Value::Task(_) => {}
        Value::Tuple(made) | Value::Struct(made) => drop(made),
    }
}

/// The last value is dropped.
#[inline(always)]
fn drop_last(values: &mut Vec<Value>)
    requires some { 0 < length values.old.items }
    ensures left { (v : Value) × (values.old.items ≡ values.new.items ++ v ∷ []) }
    ensures less { length values.new.items + 1 ≡ length values.old.items }
{
    match values.pop() {
        Some(value) => let_go(value),
        None => unreachable!(),
    }
}

/// The values above a place are dropped, from the last one on.
#[inline(always)]
pub(crate) fn drop_above(values: &mut Vec<Value>, from: usize)
    requires within { from ≤ length values.old.items }
    ensures left { values.new.items ≡ take from values.old.items }
{
    for place in from..values.len() {
        drop_last(values);
    }
}

/// The types above a place are dropped. Most bodies have none.
#[inline(always)]
fn drop_types_above(types: &mut Vec<Ty>, from: usize)
    ensures { types.new.items ≡ take from types.old.items }
{
    if types.len() > from {
        types.truncate(from);
    }
}

/// The slots and the types that no frame keeps are dropped.
#[inline(always)]
pub(crate) fn drop_own(slots: &mut Vec<Value>, types: &mut Vec<Ty>, scope: Scope)
    requires kept { scope.kept ≤ length slots.old.items }
    ensures slots { slots.new.items ≡ take scope.kept slots.old.items }
    ensures types { types.new.items ≡ take scope.types_kept types.old.items }
{
    drop_above(slots, scope.kept as usize);
    drop_types_above(types, scope.types_kept as usize);
}

impl<'p> Frames<'p> {
    /// A body is entered, with the open values in its slots and these types for its static parameters. The frame keeps the scope around it.
    #[inline(always)]
    pub fn enter(&mut self, world: u32, room: u32, statics: &[Ty]) -> Result<(), AllocError>
        ensures { OnOk result (self.new ≡ enters self.old world room statics.now) }
    {
        let above = Scope::above(self.slots.len(), self.types.len())?;
        move_values(&mut self.values, self.from as usize, &mut self.slots)?;
        push_types(&mut self.types, statics)?;
        put_on_top(&mut self.flat, Flat::Body(world, self.scope, room))?;
        self.scope = above;
        Ok(())
    }

    /// The open values become the slots and these types the static parameters, as at the start of a task.
    pub fn start(&mut self, statics: &[Ty]) -> Result<(), AllocError>
        ensures { OnOk result (self.new ≡ starts self.old statics.now) }
    {
        self.forget();
        move_values(&mut self.values, self.from as usize, &mut self.slots)?;
        push_types(&mut self.types, statics)
    }

    /// The slots from this one on are dropped.
    fn cut(&mut self, slot: u32) -> Result<(), AllocError>
        ensures { OnOk result (self.new ≡ with_scope self.old (take slot self.old.env) self.old.bindings) }
    {
        let most = self.scope.base as usize + slot as usize;
        if most < self.scope.kept as usize {
            // No binding of a valid program stands below the slots around its block.
            let base = place(self.slots.len())?;
            push_copies(&mut self.slots, self.scope.base as usize, slot as usize)?;
            self.scope.base = base;
            return Ok(());
        }
        self.slots.truncate(most);
        Ok(())
    }

    /// A value gets the next slot.
    fn push_slot(&mut self, value: Value) -> Result<(), AllocError>
        ensures { OnOk result (self.new ≡ with_scope self.old (self.old.env ++ value ∷ []) self.old.bindings) }
    {
        put_on_top(&mut self.slots, value)?;
        Ok(())
    }

    /// The first of the open values.
    fn first(&self) -> Result<Value, AllocError>
        ensures { IfOk result (λ v. v ≡ first_value self.now.open_values) }
    {
        match self.open_values().first() {
            Some(value) => value.copy(),
            None => Ok(Value::Nothing),
        }
    }

    /// A slot is bound to the one open value, which stays open.
    pub fn bind(&mut self, slot: u32) -> Result<(), AllocError>
        ensures { OnOk result (self.new ≡ binds self.old slot (first_value self.old.open_values)) }
    {
        let value = self.first()?;
        self.cut(slot)?;
        self.push_slot(value)
    }

    /// The slots and the static parameters are dropped.
    pub fn forget(&mut self)
        ensures { self.new ≡ with_scope self.old [] [] }
    {
        drop_own(&mut self.slots, &mut self.types, self.scope);
        self.scope.base = self.scope.kept;
        self.scope.types_base = self.scope.types_kept;
    }
}
