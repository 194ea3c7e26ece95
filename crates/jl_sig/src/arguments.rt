//! The arguments of nominal types in a signature.

ghost use Rattle.std.specs.Prelude.{◌≡◌, ◌++◌, OnOk, IfOk, map};
ghost use Rattle.std.specs.List.{flat_map};
ghost use Rattle.jl_model.specs.Refusals.{given_from, given_in};
ghost use Rattle.jl_sig.specs.Parts.{all_given};

use jl_model::ty::Ty;
use std::alloc::{AllocError, Global};

/// An argument of a nominal type: of which type, at which place, and what stands there.
#[derive(Drop)]
pub struct Argument {
    pub of: u32,
    pub place: usize,
    pub ty: Ty,
}

/// Adds the arguments of one nominal type.
fn push_own(arguments: &mut Vec<Argument>, of: u32, types: &[Ty]) -> Result<(), AllocError>
    ensures { OnOk result (all_given arguments.new.items ≡ all_given arguments.old.items ++ given_from of 0 types.now) }
{
    for (place, ty) in types.iter().enumerate() {
        let ty = ty.copy()?;
        arguments.push(Argument { of, place, ty })?;
    }
    Ok(())
}

/// Adds all arguments in these types.
#[cycle(arguments)]
#[tactic(auto, using(crate::proofs::ArgumentLemmas::collecting))]
fn push_arguments_of_all(arguments: &mut Vec<Argument>, types: &[Ty]) -> Result<(), AllocError>
    ensures { OnOk result (all_given arguments.new.items ≡ all_given arguments.old.items ++ flat_map given_in types.now) }
{
    for ty in types {
        push_arguments(arguments, ty)?;
    }
    Ok(())
}

/// Adds all arguments in a type.
#[cycle(arguments)]
#[tactic(auto, using(crate::proofs::ArgumentLemmas::collecting))]
fn push_arguments(arguments: &mut Vec<Argument>, ty: &Ty) -> Result<(), AllocError>
    ensures { OnOk result (all_given arguments.new.items ≡ all_given arguments.old.items ++ given_in ty.now) }
{
    match ty {
        Ty::Any => Ok(()),
        Ty::Union(parts) | Ty::Tuple(parts) => push_arguments_of_all(arguments, parts.as_slice()),
        Ty::Nominal(name, parts) => {
            push_own(arguments, *name, parts.as_slice())?;
            push_arguments_of_all(arguments, parts.as_slice())?;
            Ok(())
        }
        Ty::Var(_) => Ok(()),
    }
}

/// All arguments of nominal types in these types, nested ones too.
pub fn arguments_in(alloc: Global, types: &[Ty]) -> Result<Vec<Argument>, AllocError>
    ensures { IfOk result (λ arguments. all_given arguments.items ≡ flat_map given_in types.now) }
{
    let mut arguments = Vec::new(alloc);
    push_arguments_of_all(&mut arguments, types)?;
    Ok(arguments)
}
