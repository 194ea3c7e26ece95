//! The choice among definitions of a program that is ready to be run.

ghost use Rattle.std.specs.Prelude.{◌≡◌, IfOk, List};
ghost use Rattle.std.specs.List.Sorted.{IsStrictlyIncreasing};
ghost use Rattle.jl_model.specs.declared.ty.Ty.{Ty};
ghost use Rattle.jl_program.specs.Chooses.{Chooses};
ghost use Rattle.jl_program.specs.Scope.{types_of, all_types};
ghost use Rattle.jl_calculus.specs.Definitions.{method_of, methods_of, worlds, HasSite, AppliesTo};
ghost use Rattle.jl_subsig.specs.Side.{Every};
ghost use Rattle.jl_subsig.specs.Decide.{method_in, methods_in, IsSound};

use crate::choice::{Method, choose_method};
use jl_calculus::history::Def;
use jl_program::choice::Choice;
use jl_sig::Ready;
use std::alloc::{AllocError, Global};

/// The method that a definition makes, with what is kept of its site's signature.
fn method_of<'r>(ready: &'r Ready, def: Def) -> Method<'r>
    requires { HasSite ready.now def }
    ensures made { method_in result ≡ method_of ready.now def }
    ensures sound { IsSound (all_types ready.now) result }
{
    ready.valid();
    Method {
        number: def.world,
        sig: ready.sig(def.site),
    }
}

/// The methods that definitions make.
fn methods_of<'r>(
    alloc: Global,
    ready: &'r Ready,
    defs: &[Def],
) -> Result<Vec<Method<'r>>, AllocError>
    requires { Every (HasSite ready.now) defs.now }
    ensures made { IfOk result (λ methods. methods_in methods.items ≡ methods_of ready.now defs.now) }
    ensures sound { IfOk result (λ methods. Every (IsSound (all_types ready.now)) methods.items) }
{
    let mut methods = Vec::new(alloc);
    for def in defs {
        methods.push(method_of(ready, *def))?;
    }
    Ok(methods)
}

/// The choice among definitions of a program that all apply to the types of a call's arguments, in the order in which they were
/// made: the definition whose signature is strictly below that of every other candidate, none where there is none, and else
/// the two that the ambiguity names (Julia manual, Methods; Method Ambiguities). A candidate is a definition that no later one
/// of the same signature replaces. Where there is one at most, nothing is compared and no memory is taken.
pub fn choose(alloc: Global, ready: &Ready, defs: &[Def]) -> Result<Choice, AllocError>
    requires sites { Every (HasSite ready.now) defs.now }
    requires ordered { IsStrictlyIncreasing (worlds defs.now) }
    ensures { IfOk result (λ c. (ts : List Ty) → Every (AppliesTo ready.now ts) defs.now → Chooses (types_of ready.now) (methods_of ready.now defs.now) ts c) }
{
    match defs {
        [] => Ok(Choice::None),
        [only] => Ok(Choice::Method(only.world)),
        _ => {
            let methods = methods_of(alloc, ready, defs)?;
            let choice = choose_method(alloc, ready.table(), methods.as_slice())?;
            Ok(choice)
        }
    }
}
