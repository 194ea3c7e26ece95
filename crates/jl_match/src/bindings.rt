//! What a method's body gets for the variables of its signature (Julia manual, Methods: Parametric Methods).

ghost use Rattle.std.specs.Prelude.{◌≡◌, ◌<◌, ◌≤◌, IsTrue, IfOk, length};
ghost use Rattle.std.specs.List.{list_all};
ghost use Rattle.jl_model.specs.declared.limits.TheConstants.{MOST_TYPE_NODES};
ghost use Rattle.jl_model.specs.Ancestors.{table_of};
ghost use Rattle.jl_model.specs.Valid.{is_known};
ghost use Rattle.jl_model.specs.Bindings.{binding, bindings};

use crate::find::{first_inner, first_outer};
use jl_model::ty::{Ty, Tys, Written};
use jl_sig::is_usable;
use jl_types::Table;
use std::alloc::{AllocError, Global};

/// One type for each variable of a signature, in order.
pub type Bindings = Tys;

/// What stands at the first invariant place of a variable, else at its first covariant place, and `Any` where a body may not
/// use it.
fn binding(
    alloc: Global,
    table: &Table,
    written: &Written,
    types: &[Ty],
    variable: usize,
) -> Result<Ty, AllocError>
    requires known { IsTrue (list_all (is_known (length table.now)) types.now) }
    requires variable { variable < MOST_TYPE_NODES }
    ensures { IfOk result (λ ty. ty ≡ binding (table_of table.now) written.now types.now variable) }
{
    if !is_usable(written, variable as u32) {
        return Ok(Ty::Any);
    }
    let parts = written.parts.as_slice();
    if let Some(ty) = first_inner(alloc, table, variable, parts, types)? {
        return Ok(ty);
    }
    match first_outer(variable, parts, types)? {
        Some(ty) => Ok(ty),
        None => Ok(Ty::Any),
    }
}

/// What a body gets for each variable of its signature in a call with arguments of these types. The cost is the number of
/// variables times the nodes of the signature's parts.
pub fn bindings(
    alloc: Global,
    table: &Table,
    written: &Written,
    types: &[Ty],
) -> Result<Bindings, AllocError>
    requires known { IsTrue (list_all (is_known (length table.now)) types.now) }
    requires few { length written.now.vars ≤ MOST_TYPE_NODES }
    ensures { IfOk result (λ found. found ≡ bindings (table_of table.now) written.now types.now) }
{
    let mut found = Vec::new(alloc);
    for variable in 0..written.vars.len() {
        found.push(binding(alloc, table, written, types, variable)?)?;
    }
    Tys::from_vec(alloc, found)
}
