//! The first refusal of a signature, of a type in a body, and of the fields of a struct, by the names of the static faults.

ghost use Rattle.std.specs.Prelude.{◌≡◌, ◌<◌, IfOk, MatchResult, Some, IsTrue, length};
ghost use Rattle.jl_model.specs.SigRefusals.{TypeLimit};
ghost use Rattle.jl_sig.specs.Prepared.{HasOwnVariables};
ghost use Rattle.jl_sig.specs.Fields.{fields_of};
ghost use Rattle.jl_sig.specs.declared.fault.SigFault.TheVariants.{Memory};
ghost use Rattle.jl_judge.specs.Answers.{SigAnswer, BodyAnswer};
ghost use Rattle.jl_judge.specs.Named.{kind_in};
ghost use Rattle.jl_judge.specs.Right.{NamesDeclared};
ghost use Rattle.jl_judge.specs.Tell.{Tells};

use jl_body::check_type;
use jl_match::check_sig;
use jl_model::ty::Written;
use jl_sig::{SigFault, measure_fields};
use jl_types::Table;
use jl_written::fault::StaticKind;
use std::alloc::{AllocError, Global};

/// The name of a refusal among the static faults. Want of memory is no refusal.
fn static_kind(fault: SigFault) -> Result<StaticKind, AllocError>
    ensures { MatchResult result (λ kind. kind_in fault ≡ Some kind) (λ _. fault ≡ Memory) }
{
    match fault {
        SigFault::VariablePlace => Ok(StaticKind::VariablePlace),
        SigFault::UnusedVariable => Ok(StaticKind::UnusedVariable),
        SigFault::TooManyParameters => Ok(StaticKind::TooManyParameters),
        SigFault::WrongParameterCount => Ok(StaticKind::WrongParameterCount),
        SigFault::TypeLimit => Ok(StaticKind::TypeLimit),
        SigFault::BoundsCrossed => Ok(StaticKind::BoundsCrossed),
        SigFault::BoundBroken => Ok(StaticKind::BoundBroken),
        SigFault::Memory => Err(AllocError),
    }
}

/// The first refusal of a signature (Julia manual, Methods: Parametric Methods).
pub fn signature_refusal(
    alloc: Global,
    table: &Table,
    written: &Written,
) -> Result<Option<StaticKind>, AllocError>
    requires own { HasOwnVariables written.now }
    requires known { NamesDeclared table.now written.now }
    ensures { IfOk result (λ kind. SigAnswer kind table.now written.now) }
{
    let Err(fault) = check_sig(alloc, table, written) else {
        return Ok(None);
    };
    let kind = static_kind(fault)?;
    Ok(Some(kind))
}

/// The first refusal of a type that is written in a body.
pub fn body_refusal(
    alloc: Global,
    table: &Table,
    written: &Written,
) -> Result<Option<StaticKind>, AllocError>
    requires known { NamesDeclared table.now written.now }
    ensures { IfOk result (λ kind. BodyAnswer kind table.now written.now) }
{
    match check_type(alloc, table, written) {
        Ok(()) => Ok(None),
        Err(fault) => {
            let kind = static_kind(fault)?;
            Ok(Some(kind))
        }
    }
}

/// Whether the signature of the fields of a declared type is too large (Julia manual, Constructors: Parametric Constructors).
pub fn is_too_wide(alloc: Global, table: &Table, number: u32) -> Result<bool, AllocError>
    requires { number < length table.now }
    ensures { IfOk result (λ b. Tells b (TypeLimit table.now (fields_of table.now number))) }
{
    match measure_fields(alloc, table, number) {
        Ok(()) => Ok(false),
        Err(SigFault::TypeLimit) => Ok(true),
        Err(SigFault::Memory) => Err(AllocError),
        Err(_) => unreachable!(),
    }
}
