//! The types that functions are asked with.

ghost use Rattle.std.specs.Prelude.{◌≡◌, ◌++◌, ◌∷◌, [], ◌≤◌, List, IfOk, OnOk, MatchOption, drop, length};
ghost use Rattle.std.specs.List.{flat_map};
ghost use Rattle.std.specs.List.Sorted.{IsStrictlySortedBy};
ghost use Rattle.jl_model.specs.declared.builtin.TheConstants.{BUILTIN_TYPES};
ghost use Rattle.jl_model.specs.declared.ty.Key.{Key as K};
ghost use Rattle.jl_model.specs.declared.ty.Ty.{Ty as T};
ghost use Rattle.jl_model.specs.Ancestors.{named};
ghost use Rattle.jl_model.specs.Order.{term_cmp};
ghost use Rattle.jl_calculus.specs.Ranges.{keys_of};
ghost use Rattle.jl_ambig.specs.Asked.{IsThere, IsPlaceFor};
ghost use Rattle.jl_ambig.specs.Probes.{is_plain_struct, plain_structs, AreFirst, AreProbeTypes};

use crate::spelling::Spelled;
use jl_calculus::history::Event;
use jl_model::builtin::{BOOL, BUILTIN_TYPES, INT64, NOTHING, TASK};
use jl_model::ty::{Decl, DeclKind, Key, Ty, Tys};
use jl_sig::Ready;
use jl_types::Table;
use std::alloc::{AllocError, Global};
use std::cmp::Ordering;

/// The types that functions are asked with.
pub const MOST_PROBE_TYPES: usize = 32;
/// The components of the definitions that are examined.
pub const MOST_COMPONENTS: usize = 3;

/// Where a type belongs among others that are in order, unless it is there.
fn place_for(types: &[Spelled], ty: &Spelled) -> Option<usize>
    ensures within { MatchOption result (Unit {0}) (λ i. i ≤ length types.now) }
    ensures place { IsStrictlySortedBy term_cmp types.now → MatchOption result (IsThere term_cmp ty.now types.now) (IsPlaceFor term_cmp ty.now types.now) }
{
    for (i, other) in types.iter().enumerate() {
        match other.compare(ty) {
            Ordering::Less => {}
            Ordering::Equal => return None,
            Ordering::Greater => return Some(i),
        }
    }
    Some(types.len())
}

/// One more type among the first ones.
fn add(alloc: Global, types: &mut Vec<Spelled>, ty: Ty) -> Result<(), AllocError>
    ensures { OnOk result ((all : List T) → AreFirst all types.old.items → AreFirst (all ++ ty ∷ []) types.new.items) }
{
    let ty = Spelled::new(alloc, ty)?;
    let Some(place) = place_for(types.as_slice(), &ty) else {
        return Ok(());
    };
    types.insert(place, ty)?;
    types.truncate(MOST_PROBE_TYPES);
    Ok(())
}

/// The type of this number, without parameters.
fn add_named(alloc: Global, types: &mut Vec<Spelled>, number: u32) -> Result<(), AllocError>
    ensures { OnOk result ((all : List T) → AreFirst all types.old.items → AreFirst (all ++ named number ∷ []) types.new.items) }
{
    add(alloc, types, Ty::Nominal(number, Tys::empty()))
}

/// Whether it is a struct without parameters.
fn is_plain_struct(decl: &Decl) -> bool
    ensures { result ≡ is_plain_struct decl.now }
{
    decl.kind == DeclKind::Struct && decl.params.len() == 0
}

/// The structs without parameters.
fn add_structs(alloc: Global, types: &mut Vec<Spelled>, table: &Table) -> Result<(), AllocError>
    ensures { OnOk result ((all : List T) → AreFirst all types.old.items → AreFirst (all ++ plain_structs BUILTIN_TYPES (drop BUILTIN_TYPES table.now)) types.new.items) }
{
    for number in BUILTIN_TYPES..table.count() {
        if !is_plain_struct(table.decl(number)) {
            continue;
        }
        add_named(alloc, types, number)?;
    }
    Ok(())
}

/// These types.
fn add_all(alloc: Global, types: &mut Vec<Spelled>, more: &[Ty]) -> Result<(), AllocError>
    ensures { OnOk result ((all : List T) → AreFirst all types.old.items → AreFirst (all ++ more.now) types.new.items) }
{
    for ty in more {
        let copy = ty.copy()?;
        add(alloc, types, copy)?;
    }
    Ok(())
}

/// The key that an event makes.
fn key_of(event: &Event) -> Option<&Key>
    ensures { MatchOption result (keys_of (event.now ∷ []) ≡ []) (λ key. keys_of (event.now ∷ []) ≡ key.now ∷ []) }
{
    match event {
        Event::Key(key) => Some(key),
        Event::Begin(_)
        | Event::Fill { .. }
        | Event::Def { .. }
        | Event::Del { .. }
        | Event::Spawn { .. }
        | Event::Done { .. } => None,
    }
}

/// The types of the keys.
fn add_keys(alloc: Global, types: &mut Vec<Spelled>, events: &[Event]) -> Result<(), AllocError>
    ensures { OnOk result ((all : List T) → AreFirst all types.old.items → AreFirst (all ++ flat_map (λ (k : K). k.types) (keys_of events.now)) types.new.items) }
{
    for event in events {
        let Some(key) = key_of(event) else {
            continue;
        };
        add_all(alloc, types, key.types.as_slice())?;
    }
    Ok(())
}

/// The first of `Int64`, `Bool`, `Nothing`, `Task`, the structs without parameters and the types of a history's keys, each once, in the
/// order of terms.
pub(crate) fn probe_types(
    alloc: Global,
    ready: &Ready,
    events: &[Event],
) -> Result<Vec<Spelled>, AllocError>
    ensures { IfOk result (λ types. AreProbeTypes ready.now events.now types.items) }
{
    let mut types = Vec::new(alloc);
    add_named(alloc, &mut types, INT64)?;
    add_named(alloc, &mut types, BOOL)?;
    add_named(alloc, &mut types, NOTHING)?;
    add_named(alloc, &mut types, TASK)?;
    add_structs(alloc, &mut types, ready.table())?;
    add_keys(alloc, &mut types, events)?;
    Ok(types)
}
