//! Signatures with what the walks over them need.

ghost use Rattle.std.specs.Prelude.{◌≡◌, ◌<◌, IsTrue, IfOk, IfErr, OnOk, Err, map, length};
ghost use Rattle.std.specs.List.{list_all};
ghost use Rattle.jl_model.specs.Valid.{is_known};
ghost use Rattle.jl_model.specs.Ancestors.{table_of};
ghost use Rattle.jl_model.specs.Rows.{kind};
ghost use Rattle.jl_model.specs.SigRefusals.{types_in, IsAllowedSig, TypeLimit as TooLarge};
ghost use Rattle.jl_model.specs.Usable.{is_usable};
ghost use Rattle.jl_types.specs.declared.normal_form.NormFault.TheVariants.{TypeLimit};
ghost use Rattle.jl_sig.specs.KindIn.{kind_in};
ghost use Rattle.jl_sig.specs.Fields.{fields_of, FieldsRefused};
ghost use Rattle.jl_sig.specs.Built.{listed, AreKinds};
ghost use Rattle.jl_sig.specs.SigParts.{written_of, bounded_of, kept_of, diagonals_of, alternatives_of, rows_of};
ghost use Rattle.jl_sig.specs.Prepared.{HasOwnVariables, IsBuildable, IsWellPlaced, AreAllRows, IsKeptOf, IsSigOf, IsPrepared};

use crate::arguments::Argument;
use crate::build::all_rows;
use crate::fault::SigFault;
use crate::fields::fields_of;
use crate::kept::{alternatives, diagonals, keep_rows, keep_signature};
use crate::kind::{Kind, kind_of};
use crate::row::SigRow;
use crate::size::small_forms;
use crate::usable::is_usable;
use crate::variables::kinds;
use jl_model::ty::{Bound, Bounds, Tys, Written};
use jl_types::{NormFault, Table};
use std::alloc::{AllocError, Global};

/// A signature with what the walks over it need: its bounds in normal form, itself and all its rows with the arguments of
/// nominal types in normal form, which variables are diagonal, and the alternatives of its upper bounds. Of a bound with
/// variables the arguments alone stand in normal form.
#[derive(Drop)]
pub struct Sig {
    written: Written,
    bounded: Written,
    kept: Written,
    diagonals: Vec<bool>,
    alternatives: Vec<Tys>,
    rows: Vec<SigRow>,
}

/// A signature, with its arguments without variables in normal form.
#[derive(Drop)]
pub struct Prepared {
    pub sig: Sig,
    pub arguments: Vec<Argument>,
}

impl Sig {
    /// An allowed signature with what is kept of it.
    pub fn of(alloc: Global, table: &Table, written: &Written) -> Result<Sig, AllocError>
        requires own { HasOwnVariables written.now }
        requires known { IsTrue (list_all (is_known (length table.now)) (types_in written.now)) }
        requires allowed { IsAllowedSig table.now written.now }
        ensures written { IfOk result (λ sig. written_of sig ≡ written.now) }
        ensures kept { IfOk result (λ sig. IsSigOf table.now sig) }
    {
        match prepare(alloc, table, written) {
            Ok(prepared) => Ok(prepared.sig),
            Err(NormFault::TypeLimit) => unreachable!(),
            Err(NormFault::Memory) => Err(AllocError),
        }
    }

    /// The signature of the field types of a declared type, whose variables are the type's parameters with their declared
    /// bounds (Julia manual, Constructors: Parametric Constructors). It has a component for each field, so it may have more than
    /// eight. Beside want of memory it is refused exactly where `prepare` gives `TypeLimit`.
    pub fn of_fields(alloc: Global, table: &Table, name: u32) -> Result<Sig, SigFault>
        requires { name < length table.now }
        ensures written { IfOk result (λ sig. written_of sig ≡ fields_of table.now name) }
        ensures kept { IfOk result (λ sig. IsSigOf table.now sig) }
        ensures small { OnOk result (TooLarge table.now (fields_of table.now name) → ⊥) }
        ensures refused { IfErr result (λ fault. FieldsRefused fault table.now (fields_of table.now name)) }
    {
        table.valid();
        let written = fields_of(alloc, table, name)?;
        match prepare(alloc, table, &written) {
            Ok(prepared) => Ok(prepared.sig),
            Err(NormFault::TypeLimit) => Err(SigFault::TypeLimit),
            Err(NormFault::Memory) => Err(SigFault::Memory),
        }
    }

    /// The signature as it is written.
    pub fn written(&self) -> &Written
        ensures { result.now ≡ written_of self.now }
    {
        &self.written
    }

    /// The signature with the bounds of its variables in normal form.
    pub fn bounded(&self) -> &Written
        ensures { result.now ≡ bounded_of self.now }
    {
        &self.bounded
    }

    /// The bounds of its variables in normal form, those with variables as they are kept.
    pub fn bounds(&self) -> &[Bound]
        ensures { result.now ≡ (bounded_of self.now).vars }
    {
        self.bounded.vars.as_slice()
    }

    /// The signature with the arguments of nominal types in normal form, in its bounds and its components.
    pub fn kept(&self) -> &Written
        ensures { result.now ≡ kept_of self.now }
    {
        &self.kept
    }

    /// Of each variable, whether it is diagonal.
    pub fn diagonals(&self) -> &[bool]
        ensures { result.now ≡ diagonals_of self.now }
    {
        self.diagonals.as_slice()
    }

    /// For each variable the alternatives of its upper bound, with their arguments in normal form.
    pub fn alternatives(&self) -> &[Tys]
        ensures { result.now ≡ alternatives_of self.now }
    {
        self.alternatives.as_slice()
    }

    /// All its rows, with the arguments of nominal types in normal form.
    pub fn rows(&self) -> &[SigRow]
        ensures { result.now ≡ rows_of self.now }
    {
        self.rows.as_slice()
    }

    /// The kind of a variable.
    pub fn kind(&self, variable: u32) -> Kind
        ensures { kind_in result ≡ kind (written_of self.now) variable }
    {
        kind_of(&self.written, u64::from(variable))
    }

    /// Whether a method's body may use a variable: a match finds it in a component, and no occurrence stands in a union.
    pub fn usable(&self, variable: u32) -> bool
        ensures { result ≡ is_usable (written_of self.now) variable }
    {
        is_usable(&self.written, variable)
    }
}

/// A signature whose rows are these, with what is kept of it.
fn sig_of(
    alloc: Global,
    table: &Table,
    written: &Written,
    kinds: &[Kind],
    bounds: Bounds,
    rows: &[SigRow],
) -> Result<Sig, AllocError>
    requires buildable { IsBuildable table.now written.now bounds }
    requires placed { IsWellPlaced table.now written.now }
    requires small { TooLarge table.now written.now → ⊥ }
    requires kinds { AreKinds written.now kinds.now }
    requires rows { AreAllRows (table_of table.now) written.now (map listed rows.now) }
    ensures written { IfOk result (λ sig. written_of sig ≡ written.now) }
    ensures kept { IfOk result (λ sig. IsKeptOf table.now sig) }
{
    table.valid();
    let kept = keep_signature(alloc, table, written)?;
    let alternatives = alternatives(alloc, kept.vars.as_slice())?;
    let diagonals = diagonals(alloc, kinds)?;
    let rows = keep_rows(alloc, table, rows)?;
    let parts = written.parts.copy()?;
    let bounded = Written {
        vars: bounds,
        parts,
    };
    let written = written.copy()?;
    Ok(Sig {
        written,
        bounded,
        kept,
        diagonals,
        alternatives,
        rows,
    })
}

/// A signature with what is kept of it. `TypeLimit` comes exactly where it has more than 1,024 nodes in sum, a type in it or
/// a part of one has more than 256 raw alternatives, the normal form of a bound or an argument without variables has more
/// than 1,024 nodes, or it has more than 256 rows.
pub fn prepare(alloc: Global, table: &Table, written: &Written) -> Result<Prepared, NormFault>
    requires { IsWellPlaced table.now written.now }
    ensures kept { IfOk result (λ p. IsPrepared table.now written.now p) }
    ensures limit { result ≡ Err TypeLimit → TooLarge table.now written.now }
{
    table.valid();
    let forms = small_forms(alloc, table, written)?;
    let bounds = forms.bounds;
    let arguments = forms.arguments;
    let kinds = kinds(alloc, written)?;
    let rows = match all_rows(alloc, table, written, kinds.as_slice(), bounds.as_slice())? {
        Some(rows) => rows,
        None => return Err(NormFault::TypeLimit),
    };
    let sig = sig_of(
        alloc,
        table,
        written,
        kinds.as_slice(),
        bounds,
        rows.as_slice(),
    )?;
    Ok(Prepared { sig, arguments })
}
