//! The lines that tell why a source is no program.

ghost use Rattle.std.specs.Prelude.{◌≡◌, IfOk};
ghost use Rattle.jl_token.specs.declared.token.TokenFault.TheVariants.{Memory};
ghost use Rattle.jl_reader.specs.declared.fault.SyntaxFault.TheVariants.{Memory as NoMemory};
ghost use Rattle.jl_resolve.specs.declared.fault.StaticFault.TheVariants.{Memory as WantOfMemory};
ghost use Rattle.jl_work.specs.Place.{token_line, syntax_line, static_line, kind_name};

use crate::place::fault_line;
use jl_model::shared::SharedList;
use jl_model::ty::Bytes;
use jl_reader::fault::SyntaxFault;
use jl_resolve::fault::StaticFault;
use jl_token::token::TokenFault;
use jl_written::fault::StaticKind;
use std::alloc::{AllocError, Global};

/// The line of a source that is too long, which takes no memory.
pub const TOO_LONG: &str = "ERROR: SourceTooLong\n";

/// A line as a text.
pub fn line(alloc: Global, bytes: &[u8]) -> Result<Bytes, AllocError>
    ensures { IfOk result (λ line. line ≡ bytes.now) }
{
    SharedList::from_vec(alloc, bytes.to_vec(alloc)?)
}

/// The line that tells why a source has no tokens.
pub(crate) fn token_line(
    alloc: Global,
    bytes: &[u8],
    fault: TokenFault,
) -> Result<Bytes, AllocError>
    ensures line { IfOk result (λ line. line ≡ token_line bytes.now fault) }
    ensures told { IfOk result (λ _. fault ≡ Memory → ⊥) }
{
    match fault {
        TokenFault::SourceTooLong => line(alloc, TOO_LONG.as_bytes()),
        TokenFault::BadUtf8(at) => fault_line(alloc, bytes, at, b"BadUtf8"),
        TokenFault::BadCharacter(at) => fault_line(alloc, bytes, at, b"BadCharacter"),
        TokenFault::NumberTooLarge(at) => fault_line(alloc, bytes, at, b"NumberTooLarge"),
        TokenFault::OpenString(at) => fault_line(alloc, bytes, at, b"OpenString"),
        TokenFault::OpenComment(at) => fault_line(alloc, bytes, at, b"OpenComment"),
        TokenFault::Memory => Err(AllocError),
    }
}

/// The line that tells why the tokens of a source are no script.
pub(crate) fn syntax_line(
    alloc: Global,
    bytes: &[u8],
    fault: SyntaxFault,
) -> Result<Bytes, AllocError>
    ensures line { IfOk result (λ line. line ≡ syntax_line bytes.now fault) }
    ensures told { IfOk result (λ _. fault ≡ NoMemory → ⊥) }
{
    match fault {
        SyntaxFault::Syntax(at) => fault_line(alloc, bytes, at, b"Syntax"),
        SyntaxFault::BadType(at) => fault_line(alloc, bytes, at, b"BadType"),
        SyntaxFault::TooDeep(at) => fault_line(alloc, bytes, at, b"TooDeep"),
        SyntaxFault::Memory => Err(AllocError),
    }
}

/// The name of a static fault.
fn kind_name(kind: StaticKind) -> &'static str
    ensures { result.now ≡ kind_name kind }
{
    match kind {
        StaticKind::UnknownName => "UnknownName",
        StaticKind::UnknownFunction => "UnknownFunction",
        StaticKind::UnknownType => "UnknownType",
        StaticKind::Rebound => "Rebound",
        StaticKind::DuplicateType => "DuplicateType",
        StaticKind::WrongParameterCount => "WrongParameterCount",
        StaticKind::SuperNotAbstract => "SuperNotAbstract",
        StaticKind::VariablePlace => "VariablePlace",
        StaticKind::TypeLimit => "TypeLimit",
        StaticKind::BoundsCrossed => "BoundsCrossed",
        StaticKind::BoundBroken => "BoundBroken",
        StaticKind::TooMany => "TooMany",
        StaticKind::DuplicateField => "DuplicateField",
        StaticKind::UnusedVariable => "UnusedVariable",
        StaticKind::TooManyParameters => "TooManyParameters",
        StaticKind::TooManySites => "TooManySites",
        StaticKind::StaticParameterUse => "StaticParameterUse",
        StaticKind::NameClash => "NameClash",
        StaticKind::TooManyArguments => "TooManyArguments",
        StaticKind::BadType => "BadType",
    }
}

/// The line that tells why a script is no program.
pub(crate) fn static_line(
    alloc: Global,
    bytes: &[u8],
    fault: StaticFault,
) -> Result<Bytes, AllocError>
    ensures line { IfOk result (λ line. line ≡ static_line bytes.now fault) }
    ensures told { IfOk result (λ _. fault ≡ WantOfMemory → ⊥) }
{
    match fault {
        StaticFault::At { kind, at } => fault_line(alloc, bytes, at, kind_name(kind).as_bytes()),
        StaticFault::Memory => Err(AllocError),
    }
}
