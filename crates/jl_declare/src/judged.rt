//! What is answered for a declaration.

ghost use Rattle.std.specs.Prelude.{◌≡◌, ◌++◌, [], IfOk, MatchOption};
ghost use Rattle.jl_program.specs.Names.{is_among};
ghost use Rattle.jl_model.specs.Refusals.{DuplicateType, HasOwnVariables};
ghost use Rattle.jl_names.specs.Numbers.{names_of};
ghost use Rattle.jl_declare.specs.Judgement.{kind_of, IsJudged, tell_alone, kept_in, keep_shown, refusal_at};

use crate::read::ReadDecl;
use jl_model::ty::Decl;
use jl_names::decls::{DeclList, copy_decl};
use jl_norm::{DeclareFault, declare_new};
use jl_types::Table;
use jl_written::fault::{Fault, StaticKind};
use std::alloc::{AllocError, Global};

/// What is answered for a declaration.
#[derive(Drop)]
pub enum Judged {
    /// It is allowed, and kept as this.
    Kept(Decl),
    /// This refuses it.
    Refused(StaticKind),
    /// Nothing is asked: a name in it means no type, or a declaration before is not allowed.
    Unjudged,
}

/// The name of a refusal among the static faults.
fn kind_of(fault: DeclareFault) -> Option<StaticKind>
    ensures { result ≡ kind_of fault }
{
    match fault {
        DeclareFault::DuplicateType => Some(StaticKind::DuplicateType),
        DeclareFault::UnknownType => Some(StaticKind::UnknownType),
        DeclareFault::WrongParameterCount => Some(StaticKind::WrongParameterCount),
        DeclareFault::SuperNotAbstract => Some(StaticKind::SuperNotAbstract),
        DeclareFault::VariablePlace => Some(StaticKind::VariablePlace),
        DeclareFault::TypeLimit => Some(StaticKind::TypeLimit),
        DeclareFault::BoundsCrossed => Some(StaticKind::BoundsCrossed),
        DeclareFault::BoundBroken => Some(StaticKind::BoundBroken),
        DeclareFault::TooMany => Some(StaticKind::TooMany),
        DeclareFault::DuplicateField => Some(StaticKind::DuplicateField),
        DeclareFault::Memory => None,
    }
}

/// Whether one of these has this name.
#[tactic(auto, using(jl_resolve_forms::proofs::TableLemmas::among_is))]
fn is_declared(decls: &DeclList, name: &[u8]) -> bool
    ensures { result ≡ is_among name.now (names_of decls.now) }
{
    decls.find(name).is_some()
}

/// What is told without a look into the table.
pub fn tell_alone(decls: &DeclList, all_allowed: bool, read: &ReadDecl) -> Option<Judged>
    ensures means { result ≡ tell_alone decls.now all_allowed read.now }
    ensures nothing { MatchOption result (Unit {0}) (λ j. kept_in j ≡ []) }
{
    if is_declared(decls, read.decl.name.as_slice()) {
        return Some(Judged::Refused(StaticKind::DuplicateType));
    }
    if read.reading.unknown {
        return Some(Judged::Unjudged);
    }
    if !read.whole {
        return Some(Judged::Refused(StaticKind::WrongParameterCount));
    }
    if all_allowed {
        None
    } else {
        Some(Judged::Unjudged)
    }
}

/// What the table tells of a declaration, which is added to it where it is allowed. No type of the table has its name.
pub fn judge(alloc: Global, table: &mut Table, decl: Decl) -> Result<Judged, AllocError>
    requires own { HasOwnVariables decl }
    requires fresh { DuplicateType table.old decl → ⊥ }
    ensures judged { IfOk result (λ j. IsJudged table.old decl j) }
    ensures added { IfOk result (λ j. table.new ≡ table.old ++ kept_in j) }
{
    match declare_new(alloc, table, decl) {
        Ok(number) => Ok(Judged::Kept(copy_decl(table.decl(number))?)),
        Err(fault) => match kind_of(fault) {
            Some(kind) => Ok(Judged::Refused(kind)),
            None => Err(AllocError),
        },
    }
}

/// A declaration as it stands behind the answer.
pub fn keep_shown(judged: Judged, decl: Decl) -> Decl
    ensures { result ≡ keep_shown judged decl }
{
    match judged {
        Judged::Kept(kept) => kept,
        Judged::Refused(_) => decl,
        Judged::Unjudged => decl,
    }
}

/// The fault of a refusal, which stands at the declared name.
pub fn refusal_at(at: u32, judged: &Judged) -> Option<Fault>
    ensures { result ≡ refusal_at at judged.now }
{
    match judged {
        Judged::Kept(_) => None,
        Judged::Refused(kind) => Some(Fault { at, kind: *kind }),
        Judged::Unjudged => None,
    }
}
