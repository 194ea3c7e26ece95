//! The limits of a type in a body, and its bounds and arguments in normal form.

ghost use Rattle.std.specs.Prelude.{◌≡◌, ◌↔◌, IsTrue, IfOk, Err, length};
ghost use Rattle.std.specs.List.{list_all};
ghost use Rattle.jl_model.specs.Valid.{is_known};
ghost use Rattle.jl_model.specs.SigRefusals.{types_in, ManyRows, VariablePlace};
ghost use Rattle.jl_model.specs.Ancestors.{table_of};
ghost use Rattle.jl_types.specs.declared.normal_form.NormFault.TheVariants.{TypeLimit};
ghost use Rattle.jl_program.specs.BodyTypes.{without_statics, without_any_statics};
ghost use Rattle.jl_sig.specs.Prepared.{IsExpandable};
ghost use Rattle.jl_body.specs.TypeRefused.{BodyTypeLimit};
ghost use Rattle.jl_body.specs.NormalForms.{AreFormsOf};

use crate::statics::without_any_statics;
use jl_model::ty::{Bound, Ty, Written};
use jl_sig::arguments::arguments_in;
use jl_sig::forms::{Forms, normal_arguments, normal_bounds};
use jl_sig::limits::{have_many_nodes, have_wide};
use jl_sig::{has_many_rows, have_variables};
use jl_types::{NormFault, Table};
use std::alloc::{AllocError, Global};

/// Whether a written type has more than 256 rows, with `Any` for its static parameters; `plain` has them in the bounds alone, and
/// `bounds` are the bounds in normal form. Where no bound mentions variables nothing is copied.
fn has_many_rows_without(
    alloc: Global,
    table: &Table,
    written: &Written,
    plain: &Written,
    bounds: &[Bound],
) -> Result<bool, AllocError>
    requires plain { plain.now ≡ without_statics written.now }
    requires expandable { IsExpandable table.now (without_any_statics written.now) bounds.now }
    ensures { IfOk result (λ many. IsTrue many ↔ ManyRows (table_of table.now) (without_any_statics written.now)) }
{
    if have_variables(written.vars.as_slice()) {
        let counted = without_any_statics(alloc, written)?;
        let many = has_many_rows(alloc, table, &counted, bounds)?;
        return Ok(many);
    }
    let many = has_many_rows(alloc, table, plain, bounds)?;
    Ok(many)
}

/// The bounds and arguments of a written type in normal form; `plain` is the type without static parameters but in the bounds, and
/// `types` are the types in it. `TypeLimit` comes exactly where it has more than 1,024 nodes in sum, a type in it or a part of one
/// has more than 256 raw alternatives, the normal form of a bound or an argument without variables has more than 1,024 nodes, or
/// it has more than 256 rows with `Any` for its static parameters.
pub fn small_forms(
    alloc: Global,
    table: &Table,
    written: &Written,
    plain: &Written,
    types: &[Ty],
) -> Result<Forms, NormFault>
    requires plain { plain.now ≡ without_statics written.now }
    requires types { types.now ≡ types_in written.now }
    requires known { IsTrue (list_all (is_known (length table.now)) (types_in written.now)) }
    requires placed { VariablePlace plain.now → ⊥ }
    ensures forms { IfOk result (λ forms. AreFormsOf table.now written.now forms) }
    ensures limit { result ≡ Err TypeLimit → BodyTypeLimit table.now written.now }
{
    table.valid();
    if have_many_nodes(types) || have_wide(types) {
        return Err(NormFault::TypeLimit);
    }
    let arguments = arguments_in(alloc, types)?;
    let arguments = normal_arguments(alloc, table, arguments.as_slice())?;
    let bounds = normal_bounds(alloc, table, written.vars.as_slice())?;
    if has_many_rows_without(alloc, table, written, plain, bounds.as_slice())? {
        return Err(NormFault::TypeLimit);
    }
    Ok(Forms { bounds, arguments })
}
