//! What stands at the first place of a variable in arguments, and the arguments of an ancestor. Each search goes along an argument of
//! a row and a type at once; it never fails and never turns back.

ghost use Rattle.std.specs.Prelude.{◌≡◌, ◌<◌, IfOk, map, length};
ghost use Rattle.jl_model.specs.declared.ty.Ty.{out-Ty};
ghost use Rattle.jl_model.specs.Ancestors.{table_of};
ghost use Rattle.jl_model.specs.Subtype.{lifted};
ghost use Rattle.jl_model.specs.Found.{find_arg, first, arguments_of};

use jl_model::ty::{Ty, Tys};
use jl_types::Table;
use jl_types::put::put_all;
use std::alloc::{AllocError, Global};

/// The arguments of the ancestor `target` of a nominal type, or of the type itself.
pub fn lifted(
    alloc: Global,
    table: &Table,
    name: u32,
    arguments: &Tys,
    target: u32,
) -> Result<Option<Tys>, AllocError>
    requires { name < length table.now }
    ensures { IfOk result (λ found. found ≡ lifted (table_of table.now) name arguments.now target) }
{
    if name == target {
        return Ok(Some(arguments.copy()?));
    }
    match table.up(name, target) {
        None => Ok(None),
        Some(over) => {
            let found = put_all(alloc, over.as_slice(), arguments.as_slice())?;
            Ok(Some(found))
        }
    }
}

/// The arguments of a nominal type.
pub fn arguments(ty: &Ty) -> &[Ty]
    ensures { result.now ≡ arguments_of (out-Ty ty.now) }
{
    match ty {
        Ty::Any => &[],
        Ty::Union(_) => &[],
        Ty::Tuple(_) => &[],
        Ty::Nominal(_, arguments) => arguments.as_slice(),
        Ty::Var(_) => &[],
    }
}

/// What stands at the first place of the variable in these arguments.
#[cycle(argument)]
#[tactic(auto, using(crate::proofs::SearchLemmas::searching))]
pub fn first_argument(
    variable: usize,
    patterns: &[Ty],
    types: &[Ty],
) -> Result<Option<Ty>, AllocError>
    ensures { IfOk result (λ hit. hit ≡ first (map (find_arg variable) patterns.now) types.now) }
{
    for (i, pattern) in patterns.iter().enumerate() {
        if i >= types.len() {
            return Ok(None);
        }
        let hit = in_argument(variable, pattern, &types[i])?;
        if hit.is_some() {
            return Ok(hit);
        }
    }
    Ok(None)
}

/// What stands at the first place of the variable in an argument.
#[cycle(argument)]
#[tactic(auto, using(crate::proofs::SearchLemmas::searching))]
fn in_argument(variable: usize, pattern: &Ty, ty: &Ty) -> Result<Option<Ty>, AllocError>
    ensures { IfOk result (λ hit. hit ≡ find_arg variable pattern.now ty.now) }
{
    match pattern {
        Ty::Any => Ok(None),
        Ty::Union(_) => Ok(None),
        Ty::Tuple(_) => Ok(None),
        Ty::Nominal(_, patterns) => first_argument(variable, patterns.as_slice(), arguments(ty)),
        Ty::Var(number) => {
            if variable == *number as usize {
                return Ok(Some(ty.copy()?));
            }
            Ok(None)
        }
    }
}
