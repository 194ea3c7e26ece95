//! Declarations, checked and added (Julia manual, Types: Abstract Types, Composite Types, Parametric Types).

ghost use Rattle.std.specs.Prelude.{◌≡◌, ◌++◌, ◌∷◌, [], IfOk, OnErr, MatchResult, Err, length};
ghost use Rattle.jl_model.specs.declared.ty.Decl.{Decl};
ghost use Rattle.jl_model.specs.Kept.{IsKept};
ghost use Rattle.jl_model.specs.Refusals.{table_with, DuplicateType, HasOwnVariables, IsAllowed};
ghost use Rattle.jl_norm.specs.Refused.{IsTooLargeAsWritten, IsWellWritten, Refused};
ghost use Rattle.jl_norm.specs.declared.fault.DeclareFault.TheVariants as fault;

use crate::checked::checked;
use crate::fault::DeclareFault;
use crate::many::is_too_many;
use crate::names::{has_twins, is_taken};
use jl_model::ty::Decl;
use jl_types::Table;
use std::alloc::Global;

/// The same as `declare`, where it is known that no earlier type has the name, so that the names are not compared.
pub fn declare_new(alloc: Global, table: &mut Table, decl: Decl) -> Result<u32, DeclareFault>
    requires own { HasOwnVariables decl }
    requires fresh { DuplicateType table.old decl → ⊥ }
    ensures number { IfOk result (λ number. number ≡ length table.old) }
    ensures allowed { MatchResult result (λ _. IsAllowed table.old decl) (λ fault. Refused fault table.old decl) }
    ensures large { IsWellWritten table.old decl → IsTooLargeAsWritten decl → result ≡ Err fault.TypeLimit }
    ensures added { IfOk result (λ _. (e : Decl) × IsKept (table_with table.old decl) decl e × (table.new ≡ table.old ++ e ∷ [])) }
    ensures unchanged { OnErr result (table.new ≡ table.old) }
{
    table.valid();
    let kept = match checked(alloc, table, &decl) {
        Ok(kept) => kept,
        Err(fault) => return Err(fault),
    };
    if is_too_many(table, &decl) {
        return Err(DeclareFault::TooMany);
    }
    if has_twins(&decl) {
        return Err(DeclareFault::DuplicateField);
    }
    Ok(table.add(alloc, kept)?)
}

/// Adds a declaration, in which variable i is parameter i, to the table, and gives its number: the number of declarations before
/// it. In what is added, the bounds, and the arguments of nominal types without variables, stand in normal form, and all else
/// is as written. After a refusal the table is unchanged; of several refusals the first in the order of `DeclareFault` is given.
/// No memory is taken before the refusals are tested that the declaration shows as it is written.
pub fn declare(alloc: Global, table: &mut Table, decl: Decl) -> Result<u32, DeclareFault>
    requires { HasOwnVariables decl }
    ensures number { IfOk result (λ number. number ≡ length table.old) }
    ensures allowed { MatchResult result (λ _. IsAllowed table.old decl) (λ fault. Refused fault table.old decl) }
    ensures duplicate { DuplicateType table.old decl → result ≡ Err fault.DuplicateType }
    ensures large { IsWellWritten table.old decl → IsTooLargeAsWritten decl → result ≡ Err fault.TypeLimit }
    ensures added { IfOk result (λ _. (e : Decl) × IsKept (table_with table.old decl) decl e × (table.new ≡ table.old ++ e ∷ [])) }
    ensures unchanged { OnErr result (table.new ≡ table.old) }
{
    if is_taken(table, &decl) {
        return Err(DeclareFault::DuplicateType);
    }
    declare_new(alloc, table, decl)
}
