//! The statements at the top, and the program of a script whose declarations are known.

ghost use Rattle.std.specs.Prelude.{◌≡◌, ◌++◌, IfOk, OnOk, option_copied};
ghost use Rattle.jl_program.specs.Prelude.{prelude_sites};
ghost use Rattle.jl_resolve_forms.specs.Resolver.{resolution};
ghost use Rattle.jl_resolve_forms.specs.Top.{first_at, clash, note_clash, top_bind};

use crate::known::Known;
use crate::scopes::{bind, note};
use crate::state::{Scope, State};
use jl_grammar::tree::Name;
use jl_names::marked::MarkedNames;
use jl_written::fault::StaticKind;
use std::alloc::AllocError;

/// Where a name stands first in a list.
#[tactic(auto, using(crate::proofs::TableLemmas::first_is))]
fn first_at(names: &MarkedNames, name: &[u8]) -> Option<u32>
    ensures { result ≡ first_at names.now name.now }
{
    names.find(name)
}

/// A variable at the top has the name of a function or a type: the fault stands at the later of the two.
fn clash(state: &mut State, at: u32, other: Option<u32>)
    ensures { state.new ≡ clash at other state.old }
{
    if let Some(other) = other {
        note(state, at.max(other), StaticKind::Rebound);
    }
}

/// A variable at the top has the name of no function and no type of the script.
fn note_clash(known: &Known, state: &mut State, name: &Name)
    ensures { state.new ≡ note_clash known.now name.now state.old }
{
    let text = name.bytes.as_slice();
    clash(state, name.at, first_at(&known.methods, text));
    clash(state, name.at, first_at(&known.types, text));
}

/// A binding at the top takes the next slot.
pub fn top_bind(
    known: &Known,
    scope: &mut Scope,
    state: &mut State,
    name: &Name,
) -> Result<(), AllocError>
    ensures { OnOk result (resolution scope.new state.new
        ≡ top_bind known.now name.now scope.old state.old) }
{
    bind(scope, state, name)?;
    note_clash(known, state, name);
    Ok(())
}
