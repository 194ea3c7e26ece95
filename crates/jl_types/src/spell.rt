//! Types spelled by numbers, and sorted by their spellings.

ghost use Rattle.std.specs.Prelude.{◌≡◌, ◌++◌, ◌∷◌, [], OnOk, IfOk, map};
ghost use Rattle.std.specs.List.{flat_map};
ghost use Rattle.jl_model.specs.Order.{spelled, spell_all};

use jl_model::ty::Ty;
use std::alloc::{AllocError, Global};

/// Adds how many there are, and the spelling of each.
#[cycle(spell)]
#[tactic(auto, using(crate::proofs::SpellLemmas::spells))]
fn push_all(out: &mut Vec<u64>, types: &[Ty]) -> Result<(), AllocError>
    ensures { OnOk result (out.new.items ≡ out.old.items ++ spell_all (map spelled types.now)) }
{
    out.push(types.len() as u64)?;
    for ty in types {
        push_spelling(out, ty)?;
    }
    Ok(())
}

/// Adds the spelling of a type.
#[cycle(spell)]
#[tactic(auto, using(crate::proofs::SpellLemmas::spells))]
fn push_spelling(out: &mut Vec<u64>, ty: &Ty) -> Result<(), AllocError>
    ensures { OnOk result (out.new.items ≡ out.old.items ++ spelled ty.now) }
{
    match ty {
        Ty::Any => Ok(out.push(1)?),
        Ty::Union(members) => {
            if members.len() == 0 {
                return Ok(out.push(0)?);
            }
            out.push(4)?;
            push_all(out, members.as_slice())
        }
        Ty::Tuple(parts) => {
            out.push(3)?;
            push_all(out, parts.as_slice())
        }
        Ty::Nominal(name, arguments) => {
            out.push(2)?;
            out.push(*name as u64)?;
            push_all(out, arguments.as_slice())
        }
        Ty::Var(variable) => {
            out.push(5)?;
            Ok(out.push(*variable as u64)?)
        }
    }
}

/// The spelling of a type.
pub fn spelling(alloc: Global, ty: &Ty) -> Result<Vec<u64>, AllocError>
    ensures { IfOk result (λ out. out.items ≡ spelled ty.now) }
{
    let mut out = Vec::new(alloc);
    push_spelling(&mut out, ty)?;
    Ok(out)
}
