//! What is visible at a place, and what a part of the text adds to it.

ghost use Rattle.std.specs.Prelude.{◌≡◌, OnOk, Some, None};
ghost use Rattle.jl_resolve_forms.specs.Resolver.{resolution};
ghost use Rattle.jl_resolve_forms.specs.Scopes.{slot_of, note, note_if, merge_fault, clashing, take_slot, with_slot, bind};

use crate::state::{Scope, State};
use jl_grammar::tree::Name;
use jl_model::ty::Bytes;
use jl_names::slots::Slots;
use jl_written::fault::{Fault, StaticKind};
use jl_written::names::is_builtin;
use jl_written::notes::first_of;
use std::alloc::AllocError;

/// The slot of a visible name.
#[tactic(auto, using(crate::proofs::TableLemmas::slot_is))]
pub fn slot_of(slots: &Slots, name: &[u8]) -> Option<u32>
    ensures { result ≡ slot_of slots.now name.now }
{
    slots.find(name)
}

/// A fault is at this place. The walk goes on after it: the fault of a script is the one at the least offset, which
/// may be found later, as what refuses a signature is found after its types and is at the name before them.
pub fn note(state: &mut State, at: u32, kind: StaticKind)
    ensures { state.new ≡ note at kind state.old }
{
    state.fault = first_of(state.fault, Fault { at, kind });
}

/// A fault, where there is one.
pub fn note_if(state: &mut State, at: u32, kind: Option<StaticKind>)
    ensures { state.new ≡ note_if at kind state.old }
{
    if let Some(kind) = kind {
        note(state, at, kind);
    }
}

/// The first fault of a part that was read by itself.
pub fn merge_fault(state: &mut State, fault: Option<Fault>)
    ensures { state.new ≡ merge_fault fault state.old }
{
    if let Some(fault) = fault {
        note(state, fault.at, fault.kind);
    }
}

/// The next slot, without a name.
pub fn push_unnamed(scope: &mut Scope) -> Result<(), AllocError>
    ensures { OnOk result (scope.new ≡ with_slot None scope.old) }
{
    scope.slots.push_unnamed()
}

/// The next slot, with a name that is not visible yet.
#[tactic(auto, using(crate::proofs::TableLemmas::slot_back))]
fn push_named(scope: &mut Scope, name: Bytes) -> Result<(), AllocError>
    requires { slot_of scope.old.slots name ≡ None }
    ensures { OnOk result (scope.new ≡ with_slot (Some name) scope.old) }
{
    scope.slots.push(name)
}

/// A name takes the next slot; where it is visible already the slot has no name. It takes one all the same, so that
/// each parameter has the slot of its place.
#[tactic(auto, unfolding(crate::specs::Scopes::bind))]
pub fn bind(scope: &mut Scope, state: &mut State, name: &Name) -> Result<(), AllocError>
    ensures { OnOk result (resolution scope.new state.new ≡ bind name.now scope.old state.old) }
{
    if is_builtin(name.bytes.as_slice()) {
        note(state, name.at, StaticKind::NameClash);
    }
    match slot_of(&scope.slots, name.bytes.as_slice()) {
        None => {
            let bytes = name.bytes.copy()?;
            push_named(scope, bytes)
        }
        Some(_) => {
            note(state, name.at, StaticKind::Rebound);
            push_unnamed(scope)
        }
    }
}
