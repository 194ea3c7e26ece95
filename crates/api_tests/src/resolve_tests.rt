//! The slots that names get, and the parameters that constructors infer.

use crate::holds;
use crate::making::name;
use crate::programs::known_of_text;
use jl_resolve_forms::cells::Cells;
use jl_resolve_forms::methods::bare_scope;
use jl_resolve_forms::scopes::{bind, slot_of};
use jl_resolve_forms::state::{Scope, State};
use jl_written::fault::{Fault, StaticKind};
use std::alloc::{AllocError, Global};

/// Binds two variables of one name. The scope and the state are let go by their owner alone, by a call: a drop that is left to the
/// compiler is unrolled into the proof at each way out.
fn bind_twice(alloc: Global, scope: &mut Scope, state: &mut State) -> Result<(), AllocError> {
    bind(scope, state, &name(alloc, 0, "x")?)?;
    bind(scope, state, &name(alloc, 4, "x")?)?;
    Ok(())
}

/// How many slots there are, the slot of `x`, and the fault.
type Found = (usize, Option<u32>, Option<Fault>);

/// What there is behind two variables of one name.
fn bound_twice(alloc: Global) -> Result<Found, AllocError> {
    let mut scope = bare_scope(alloc, 8);
    let mut state = State {
        sites: Cells::new(alloc),
        spawns: Cells::new(alloc),
        deletes: Cells::new(alloc),
        fault: None,
    };
    let bound = bind_twice(alloc, &mut scope, &mut state);
    let found = (scope.slots.len(), slot_of(&scope.slots, b"x"), state.fault);
    drop(scope);
    drop(state);
    bound?;
    Ok(found)
}

fn second_is_unnamed(alloc: Global) -> Result<bool, AllocError> {
    let due = Fault {
        at: 4,
        kind: StaticKind::Rebound,
    };
    let (count, slot, fault) = bound_twice(alloc)?;
    Ok(count == 2 && slot == Some(0) && fault == Some(due))
}

#[test]
fn a_name_that_is_visible_takes_a_slot_without_a_name(rt: HostRuntime) {
    assert!(rt; holds(second_is_unnamed(rt.alloc())));
}

/// Three structs of two parameters, whose field is a tuple of both, a union of both, and the first one.
const STRUCTS: &str = "struct A{T, S}
    x::Tuple{T, S}
end
struct B{T, S}
    x::Union{T, S}
end
struct C{T, S}
    x::T
end";

/// Whether the first alone infers both. The eight built-in types stand before them.
fn the_parameters_are_found(alloc: Global) -> Result<bool, AllocError> {
    let known = known_of_text(alloc, STRUCTS)?;
    let answer = known.decls.finds_parameters(8)
        && !known.decls.finds_parameters(9)
        && !known.decls.finds_parameters(10)
        && !known.decls.finds_parameters(11)
        && known.decls.list().len() == 11;
    drop(known);
    Ok(answer)
}

#[test]
fn a_constructor_infers_the_parameters_that_stand_outside_unions(rt: HostRuntime) {
    assert!(rt; holds(the_parameters_are_found(rt.alloc())));
}
