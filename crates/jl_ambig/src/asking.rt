//! The choice at each probe of a function.

ghost use Rattle.std.specs.Prelude.{◌≡◌, ◌++◌, ◌∷◌, [], ℕ, IsTrue, IfOk, OnOk, MatchOption, List, length};
ghost use Rattle.std.specs.List.{All};
ghost use Rattle.jl_calculus.specs.declared.history.Def.{Def as D};
ghost use Rattle.jl_calculus.specs.declared.history.Event.{Event as E};
ghost use Rattle.jl_subsig.specs.Standing.{HaveLatest, ChoosesLeft};
ghost use Rattle.jl_ambig.specs.Asked.{AreTypes, MayChoose, IsKnown, AreKnown, AreAsked, Probe, probes_of, AreFound};

use crate::noting::{Pair, note_choice};
use jl_calculus::history::{Def, Del};
use jl_choosing::find_applicable;
use jl_model::ty::{Ty, Tys};
use jl_program::choice::Choice;
use jl_sig::Ready;
use jl_subsig::choose_standing;
use std::alloc::{AllocError, Global};

/// Definitions that apply together, and the choice among them.
#[derive(Drop)]
pub(crate) struct Known {
    those: Vec<Def>,
    choice: Choice,
}

/// Whether two definitions are the same.
fn is_same(a: Def, b: Def) -> bool
    ensures { IsTrue result → a ≡ b }
{
    a == b
}

/// Whether two lists of definitions are the same.
fn are_same(a: &[Def], b: &[Def]) -> bool
    ensures { IsTrue result → a.now ≡ b.now }
{
    if a.len() != b.len() {
        return false;
    }
    for (i, def) in a.iter().enumerate() {
        if !is_same(*def, b[i]) {
            return false;
        }
    }
    true
}

/// The choice among these, where they applied together before.
fn find_known(known: &[Known], those: &[Def]) -> Option<Choice>
    ensures { (P : _) (dels : List _) → AreKnown P dels known.now → MatchOption result (Unit {0}) (λ c. IsKnown P dels those.now c) }
{
    for entry in known {
        if are_same(entry.those.as_slice(), those) {
            return Some(entry.choice);
        }
    }
    None
}

/// The choice for a call with arguments of these types. It is made once for each list of definitions that apply.
fn choose(
    alloc: Global,
    ready: &Ready,
    defs: &[Def],
    dels: &[Del],
    known: &mut Vec<Known>,
    types: &[Ty],
) -> Result<Choice, AllocError>
    requires may { MayChoose ready.now defs.now dels.now }
    requires types { AreTypes ready.now types.now }
    requires known { AreKnown ready.now dels.now known.old.items }
    ensures known { OnOk result (AreKnown ready.now dels.now known.new.items) }
    ensures choice { IfOk result (λ c. (all : List D) → HaveLatest ready.now types.now all defs.now → ChoosesLeft ready.now dels.now types.now all c) }
{
    let those = find_applicable(alloc, ready, defs, types)?;
    let picked = those.as_slice();
    if let Some(choice) = find_known(known.as_slice(), picked) {
        return Ok(choice);
    }
    let choice = choose_standing(alloc, ready, picked, dels)?;
    known.push(Known { those, choice })?;
    Ok(choice)
}

/// Asks with one list of types.
fn ask(
    alloc: Global,
    ready: &Ready,
    defs: &[Def],
    dels: &[Del],
    known: &mut Vec<Known>,
    types: &Tys,
    pairs: &mut Vec<Pair>,
) -> Result<(), AllocError>
    requires may { MayChoose ready.now defs.now dels.now }
    requires types { AreTypes ready.now types.now }
    requires known { AreKnown ready.now dels.now known.old.items }
    ensures known { OnOk result (AreKnown ready.now dels.now known.new.items) }
    ensures found { OnOk result ((es : List E) (f : ℕ) (done : List Probe) → AreAsked ready.now es f (length types.now) defs.now dels.now → AreFound ready.now es done pairs.old.items → AreFound ready.now es (done ++ record { function = f; types = types.now } ∷ []) pairs.new.items) }
{
    let choice = choose(alloc, ready, defs, dels, known, types.as_slice())?;
    note_choice(pairs, choice, types)?;
    Ok(())
}

/// Asks with each of these lists of as many types.
pub(crate) fn ask_all(
    alloc: Global,
    ready: &Ready,
    defs: &[Def],
    dels: &[Del],
    lists: &[Tys],
    pairs: &mut Vec<Pair>,
) -> Result<(), AllocError>
    requires may { MayChoose ready.now defs.now dels.now }
    requires types { All (AreTypes ready.now) lists.now }
    ensures { OnOk result ((es : List E) (f n : ℕ) (done : List Probe) → All (λ ts. length ts ≡ n) lists.now → AreAsked ready.now es f n defs.now dels.now → AreFound ready.now es done pairs.old.items → AreFound ready.now es (done ++ probes_of f lists.now) pairs.new.items) }
{
    let mut known = Vec::new(alloc);
    for types in lists {
        ask(alloc, ready, defs, dels, &mut known, types, pairs)?;
    }
    Ok(())
}
