//! The choice among the definitions of a function.

ghost use Rattle.std.specs.Prelude.{◌≡◌, IsTrue, IfOk, List, false};
ghost use Rattle.jl_program.specs.Scope.{all_types};
ghost use Rattle.jl_calculus.specs.declared.history.Def.{Def as D};
ghost use Rattle.jl_calculus.specs.Definitions.{HasSite, AppliesTo};
ghost use Rattle.jl_match.specs.KeptRow.{AreConcrete};
ghost use Rattle.jl_subsig.specs.Side.{Every};
ghost use Rattle.jl_subsig.specs.Standing.{HasPlace, HaveLatest, ChoosesLeft};
ghost use Rattle.jl_choosing.specs.ByFunction.{Rising};
ghost use Rattle.jl_choosing.specs.Picked.{Picked};
ghost use Rattle.jl_choosing.specs.Tested.{AreTested};

use crate::tested::Tested;
use jl_calculus::history::{Def, Del};
use jl_match::applies;
use jl_model::ty::Ty;
use jl_program::choice::Choice;
use jl_sig::Ready;
use jl_subsig::choose_standing;
use std::alloc::{AllocError, Global};

/// Whether a definition's signature applies to these types.
pub(crate) fn is_applicable(
    alloc: Global,
    ready: &Ready,
    def: Def,
    types: &[Ty],
) -> Result<bool, AllocError>
    requires site { HasSite ready.now def }
    requires types { AreConcrete (all_types ready.now) types.now }
    ensures yes { IfOk result (λ yes. IsTrue yes → AppliesTo ready.now types.now def) }
    ensures none { IfOk result (λ yes. yes ≡ false → AppliesTo ready.now types.now def → ⊥) }
{
    match applies(alloc, ready.table(), ready.sig(def.site), types)? {
        Some(bindings) => {
            drop(bindings);
            Ok(true)
        }
        None => Ok(false),
    }
}

/// The definitions that apply to these types.
pub fn find_applicable(
    alloc: Global,
    ready: &Ready,
    defs: &[Def],
    types: &[Ty],
) -> Result<Vec<Def>, AllocError>
    requires sites { Every (HasSite ready.now) defs.now }
    requires types { AreConcrete (all_types ready.now) types.now }
    ensures { IfOk result (λ those. Picked ready.now types.now defs.now those.items) }
{
    let mut those = Vec::new(alloc);
    for def in defs {
        if !is_applicable(alloc, ready, *def, types)? {
            continue;
        }
        those.push(*def)?;
    }
    Ok(those)
}

/// The definitions that apply to the types that were asked for.
fn pick(
    alloc: Global,
    ready: &Ready,
    defs: &[Def],
    tested: &mut Tested,
) -> Result<Vec<Def>, AllocError>
    requires sites { Every (HasSite ready.now) defs.now }
    requires tested { AreTested ready.now tested.old }
    requires types { AreConcrete (all_types ready.now) tested.old.types }
    ensures picked { IfOk result (λ those. Picked ready.now tested.old.types defs.now those.items) }
    ensures tested { AreTested ready.now tested.new }
{
    let mut those = Vec::new(alloc);
    for def in defs {
        if !tested.applies(alloc, ready, *def)? {
            continue;
        }
        those.push(*def)?;
    }
    Ok(those)
}

/// The choice among all definitions of a function for arguments of the types that were asked for, which are concrete and normal forms,
/// when deletions take some away. The list has, in their order, the latest of each site at least. Which apply is asked first, and
/// signatures are compared only among these; those that are written alike are compared once.
pub(crate) fn choose_among(
    alloc: Global,
    ready: &Ready,
    defs: &[Def],
    dels: &[Del],
    tested: &mut Tested,
) -> Result<Choice, AllocError>
    requires sites { Every (HasSite ready.now) defs.now }
    requires places { Every (HasPlace ready.now) dels.now }
    requires ordered { Rising 0 defs.now }
    requires tested { AreTested ready.now tested.old }
    requires types { AreConcrete (all_types ready.now) tested.old.types }
    ensures choice { IfOk result (λ c. (all : List D) → HaveLatest ready.now tested.old.types all defs.now → ChoosesLeft ready.now dels.now tested.old.types all c) }
    ensures tested { AreTested ready.now tested.new }
{
    let those = pick(alloc, ready, defs, tested)?;
    let choice = choose_standing(alloc, ready, those.as_slice(), dels)?;
    Ok(choice)
}
