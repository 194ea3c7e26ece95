//! Whether a signature applies to types, and what a method's body gets for its variables (Julia manual, Methods: Parametric
//! Methods).

ghost use Rattle.std.specs.Prelude.{◌≡◌, not, IsTrue, IfOk, None, Some};
ghost use Rattle.std.specs.List.{list_any};
ghost use Rattle.jl_model.specs.declared.ty.Written.{Written};
ghost use Rattle.jl_model.specs.Ancestors.{table_of};
ghost use Rattle.jl_model.specs.Signature.{Applicable};
ghost use Rattle.jl_model.specs.Bindings.{bindings};
ghost use Rattle.jl_model.specs.Valid.{is_closed};
ghost use Rattle.jl_sig.specs.Prepared.{IsSigOf};
ghost use Rattle.jl_sig.specs.SigParts.{written_of};
ghost use Rattle.jl_match.specs.KeptRow.{AreDiagonals, AreConcrete};
ghost use Rattle.jl_match.specs.SigRows.{AreKeptRows, AreRowsOf};

use crate::bindings::{Bindings, bindings};
use crate::row::row_applies;
use jl_model::ty::{Ty, Written};
use jl_search::bounds::mention_variables;
use jl_sig::Sig;
use jl_sig::row::SigRow;
use jl_types::Table;
use std::alloc::{AllocError, Global};

/// Whether these types are below one of the rows of a signature whose bounds are as they are kept, where `named` tells whether an
/// upper bound mentions a variable, and `diagonals` which variables are diagonal. The cost is that of one row times the number of
/// rows.
fn some_row_applies(
    alloc: Global,
    table: &Table,
    signature: &Written,
    named: bool,
    diagonals: &[bool],
    rows: &[SigRow],
    types: &[Ty],
) -> Result<bool, AllocError>
    requires named { named ≡ list_any (λ b. not (is_closed b.high)) signature.now.vars }
    requires diagonals { AreDiagonals signature.now diagonals.now }
    requires rows { AreKeptRows table.now signature.now rows.now }
    requires types { AreConcrete table.now types.now }
    ensures sound { IfOk result (λ yes. IsTrue yes → (s : Written) → AreRowsOf (table_of table.now) s signature.now rows.now → Applicable (table_of table.now) s types.now) }
    ensures complete { IfOk result (λ yes. (s : Written) → AreRowsOf (table_of table.now) s signature.now rows.now → Applicable (table_of table.now) s types.now → IsTrue yes) }
{
    table.valid();
    for row in rows {
        if row_applies(
            alloc,
            table,
            signature,
            named,
            diagonals,
            row.parts.as_slice(),
            row.chosen.as_slice(),
            types,
        )? {
            return Ok(true);
        }
    }
    Ok(false)
}

/// What a method's body gets for the variables of its signature where the signature applies to these types, which are
/// concrete and normal forms; `None` exactly where it does not apply.
pub fn applies(
    alloc: Global,
    table: &Table,
    sig: &Sig,
    types: &[Ty],
) -> Result<Option<Bindings>, AllocError>
    requires sig { IsSigOf table.now sig.now }
    requires types { AreConcrete table.now types.now }
    ensures applies { IfOk result (λ answer. (found : _) → answer ≡ Some found → Applicable (table_of table.now) (written_of sig.now) types.now) }
    ensures bindings { IfOk result (λ answer. (found : _) → answer ≡ Some found → found ≡ bindings (table_of table.now) (written_of sig.now) types.now) }
    ensures none { IfOk result (λ answer. answer ≡ None → Applicable (table_of table.now) (written_of sig.now) types.now → ⊥) }
{
    table.valid();
    let named = mention_variables(sig.bounds());
    if !some_row_applies(
        alloc,
        table,
        sig.bounded(),
        named,
        sig.diagonals(),
        sig.rows(),
        types,
    )? {
        return Ok(None);
    }
    let found = bindings(alloc, table, sig.written(), types)?;
    Ok(Some(found))
}
