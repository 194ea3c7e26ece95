//! Whether a signature is too large, where its rows are not needed.

ghost use Rattle.std.specs.Prelude.{◌≡◌, ◌<◌, IfOk, IfErr, OnOk, Err, length};
ghost use Rattle.jl_model.specs.SigRefusals.{TypeLimit as TooLarge};
ghost use Rattle.jl_types.specs.declared.normal_form.NormFault.TheVariants.{TypeLimit};
ghost use Rattle.jl_sig.specs.Fields.{fields_of, FieldsRefused};
ghost use Rattle.jl_sig.specs.Prepared.{IsWellPlaced, AreFormsOf};

use crate::arguments::arguments_in;
use crate::fault::SigFault;
use crate::fields::fields_of;
use crate::forms::{Forms, normal_arguments, normal_bounds};
use crate::limits::{have_many_nodes, have_wide};
use crate::many::has_many_rows;
use crate::types::types_in;
use jl_model::ty::Written;
use jl_types::{NormFault, Table};
use std::alloc::Global;

/// The bounds of a signature, and its arguments without variables, in normal form. `TypeLimit` comes where it is too large
/// whatever its rows are. The arguments come first, since those of a bound with variables must be known to be small.
pub(crate) fn small_forms(
    alloc: Global,
    table: &Table,
    written: &Written,
) -> Result<Forms, NormFault>
    requires { IsWellPlaced table.now written.now }
    ensures forms { IfOk result (λ forms. AreFormsOf table.now written.now forms) }
    ensures limit { result ≡ Err TypeLimit → TooLarge table.now written.now }
{
    table.valid();
    let types = types_in(alloc, written)?;
    if have_many_nodes(types.as_slice()) || have_wide(types.as_slice()) {
        return Err(NormFault::TypeLimit);
    }
    let arguments = arguments_in(alloc, types.as_slice())?;
    let arguments = normal_arguments(alloc, table, arguments.as_slice())?;
    let bounds = normal_bounds(alloc, table, written.vars.as_slice())?;
    Ok(Forms { bounds, arguments })
}

/// The same of a signature that is not too large: `TypeLimit` comes exactly where `prepare` gives it. No signature is made.
pub fn measure(alloc: Global, table: &Table, written: &Written) -> Result<Forms, NormFault>
    requires { IsWellPlaced table.now written.now }
    ensures forms { IfOk result (λ forms. AreFormsOf table.now written.now forms) }
    ensures small { OnOk result (TooLarge table.now written.now → ⊥) }
    ensures limit { result ≡ Err TypeLimit → TooLarge table.now written.now }
{
    table.valid();
    let forms = small_forms(alloc, table, written)?;
    if has_many_rows(alloc, table, written, forms.bounds.as_slice())? {
        return Err(NormFault::TypeLimit);
    }
    Ok(forms)
}

/// Whether the signature of the field types of a declared type is not too large. Beside want of memory it is refused exactly
/// where `Sig::of_fields` is.
pub fn measure_fields(alloc: Global, table: &Table, name: u32) -> Result<(), SigFault>
    requires { name < length table.now }
    ensures small { OnOk result (TooLarge table.now (fields_of table.now name) → ⊥) }
    ensures refused { IfErr result (λ fault. FieldsRefused fault table.now (fields_of table.now name)) }
{
    table.valid();
    let written = fields_of(alloc, table, name)?;
    match measure(alloc, table, &written) {
        Ok(_) => Ok(()),
        Err(NormFault::TypeLimit) => Err(SigFault::TypeLimit),
        Err(NormFault::Memory) => Err(SigFault::Memory),
    }
}
