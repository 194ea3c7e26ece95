//! The arguments without variables in a declaration: whether their normal forms are within the limit, and whether one of them
//! is outside the bounds that are declared for its place.

ghost use Rattle.std.specs.Prelude.{◌≡◌, ◌+◌, ◌<◌, ◌^◌, IsTrue, IfOk, Err, length, get_or, true, false};
ghost use Rattle.std.specs.List.{flat_map};
ghost use Rattle.jl_model.specs.Kept.{IsKept};
ghost use Rattle.jl_model.specs.Refusals.{table_with, given_from, given_in, types_of, AllWithinLimits};
ghost use Rattle.jl_types.specs.declared.normal_form.NormFault.TheVariants.{TypeLimit};
ghost use Rattle.jl_norm.specs.Judged.{SomeLarge, Judged, AreArguments, given_of};
ghost use Rattle.jl_norm.specs.Refused.{IsWellWritten};

use crate::outside::is_place_outside;
use crate::types::types_in;
use jl_model::ty::{Decl, Ty};
use jl_types::{NormFault, Table};
use std::alloc::Global;

/// Whether one of these arguments of a nominal type, the first of them at this place, is outside its bounds.
fn is_one_outside(
    alloc: Global,
    table: &Table,
    decl: &Decl,
    kept: &Decl,
    name: u32,
    place: usize,
    arguments: &[Ty],
) -> Result<bool, NormFault>
    requires written { IsWellWritten table.now decl.now }
    requires is_kept { IsKept (table_with table.now decl.now) decl.now kept.now }
    requires room { place + length arguments.now < 2 ^ 64 }
    requires arguments_known { AreArguments table.now decl.now (given_from name place arguments.now) }
    ensures judged { IfOk result (λ b. Judged table.now decl.now (given_from name place arguments.now) b) }
    ensures limit { result ≡ Err TypeLimit → SomeLarge table.now decl.now (given_from name place arguments.now) }
{
    match arguments {
        [] => Ok(false),
        [first, rest @ ..] => {
            let here = is_place_outside(alloc, table, decl, kept, name, place, first)?;
            let later = is_one_outside(alloc, table, decl, kept, name, place + 1, rest)?;
            Ok(here || later)
        }
    }
}

/// Whether one of the arguments in these types is outside its bounds.
#[cycle(look)]
fn is_any_outside(
    alloc: Global,
    table: &Table,
    decl: &Decl,
    kept: &Decl,
    types: &[Ty],
) -> Result<bool, NormFault>
    requires written { IsWellWritten table.now decl.now }
    requires is_kept { IsKept (table_with table.now decl.now) decl.now kept.now }
    requires arguments_known { AreArguments table.now decl.now (flat_map given_in types.now) }
    ensures judged { IfOk result (λ b. Judged table.now decl.now (flat_map given_in types.now) b) }
    ensures limit { result ≡ Err TypeLimit → SomeLarge table.now decl.now (flat_map given_in types.now) }
{
    let mut is_outside = false;
    for ty in types {
        if is_outside_in(alloc, table, decl, kept, ty)? {
            is_outside = true;
        }
    }
    Ok(is_outside)
}

/// Whether one of the arguments in a type is outside its bounds.
#[cycle(look)]
fn is_outside_in(
    alloc: Global,
    table: &Table,
    decl: &Decl,
    kept: &Decl,
    ty: &Ty,
) -> Result<bool, NormFault>
    requires written { IsWellWritten table.now decl.now }
    requires is_kept { IsKept (table_with table.now decl.now) decl.now kept.now }
    requires arguments_known { AreArguments table.now decl.now (given_in ty.now) }
    ensures judged { IfOk result (λ b. Judged table.now decl.now (given_in ty.now) b) }
    ensures limit { result ≡ Err TypeLimit → SomeLarge table.now decl.now (given_in ty.now) }
{
    match ty {
        Ty::Any => Ok(false),
        Ty::Union(members) => is_any_outside(alloc, table, decl, kept, members.as_slice()),
        Ty::Tuple(parts) => is_any_outside(alloc, table, decl, kept, parts.as_slice()),
        Ty::Nominal(name, arguments) => {
            let arguments = arguments.as_slice();
            let own = is_one_outside(alloc, table, decl, kept, *name, 0, arguments)?;
            let inner = is_any_outside(alloc, table, decl, kept, arguments)?;
            Ok(own || inner)
        }
        Ty::Var(_) => Ok(false),
    }
}

/// Whether an argument without variables in a declaration is outside the bounds that are declared for its place, by what the
/// declaration is kept as. `TypeLimit` comes exactly where one has a normal form of more than 1,024 nodes.
pub fn is_broken(alloc: Global, table: &Table, decl: &Decl, kept: &Decl) -> Result<bool, NormFault>
    requires written { IsWellWritten table.now decl.now }
    requires is_kept { IsKept (table_with table.now decl.now) decl.now kept.now }
    requires sized { AllWithinLimits (types_of decl.now) }
    requires kept_sized { AllWithinLimits (types_of kept.now) }
    ensures judged { IfOk result (λ b. Judged table.now decl.now (given_of decl.now) b) }
    ensures limit { result ≡ Err TypeLimit → SomeLarge table.now decl.now (given_of decl.now) }
{
    table.valid();
    let types = types_in(alloc, decl)?;
    is_any_outside(alloc, table, decl, kept, types.as_slice())
}
