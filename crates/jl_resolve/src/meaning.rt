//! The program of a script.
//!
//! A table or a list of names is dropped by a call before the `?` that follows: with two ways out, the check would
//! unroll its drop on both.

ghost use Rattle.std.specs.Prelude.{◌≡◌, MatchResult, IfOk, None};
ghost use Rattle.jl_program.specs.Valid.{IsValid};
ghost use Rattle.jl_formed.specs.Formed.{FormedScript};
ghost use Rattle.jl_judge.specs.Right.{IsRight};
ghost use Rattle.jl_resolve_forms.specs.TypesIn.{Tests};
ghost use Rattle.jl_resolve_forms.specs.Top.{resolve};
ghost use Rattle.jl_resolve_walk.specs.Steps.{resolved_as};
ghost use Rattle.jl_resolve.specs.Program.{ComesTo, IsProgramOf, IsRefused};

use crate::fault::StaticFault;
use jl_declare::declarations::declarations;
use jl_declare::known::known_of;
use jl_declare::state::Declarations;
use jl_grammar::tree::{Item, Script};
use jl_judge::{Kept, judge_over, law_judge_is_right};
use jl_program::tree::Program;
use jl_resolve_forms::known::Known;
use jl_resolve_walk::program::Resolved;
use jl_resolve_walk::top::resolve;
use jl_sig::Ready;
use jl_types::Table;
use jl_written::fault::Fault;
use std::alloc::{AllocError, Global};

/// What the items come to over the table of their declarations.
fn resolve_over(
    alloc: Global,
    table: &Table,
    known: &Known,
    items: &[Item],
    fault: Option<Fault>,
) -> Result<Resolved, AllocError>
    ensures { IfOk result (λ r. (t : Tests) × IsRight table.now t
        × (resolved_as r.program r.fault ≡ resolve t known.now items.now fault)) }
{
    let judge = judge_over(table);
    law_judge_is_right(&judge);
    let kept = Kept::ask(alloc, &judge, table.count())?;
    let resolved = resolve(alloc, &kept, known, items, fault);
    drop(kept);
    let resolved = resolved?;
    Ok(resolved)
}

/// What a script comes to: a valid program where it has no static fault.
fn come_to(alloc: Global, script: &Script) -> Result<Resolved, AllocError>
    requires { FormedScript script.now }
    ensures comes { IfOk result (λ r. ComesTo script.now r.program r.fault) }
    ensures valid { IfOk result (λ r. r.fault ≡ None → IsValid r.program) }
{
    let items = script.items.as_slice();
    let Declarations {
        table,
        decls,
        fault,
    } = declarations(alloc, items)?;
    let known = known_of(alloc, items, decls)?;
    let resolved = resolve_over(alloc, &table, &known, items, fault);
    drop(known);
    table.valid();
    drop(table);
    let resolved = resolved?;
    Ok(resolved)
}

/// The program that a script means, where it is not to be run, so that nothing is made of it; or the first of its static faults:
/// the one at the least offset, of several there the one with the least number in the table of static faults. The script must be
/// one that the reader gives.
pub fn check_script(alloc: Global, script: &Script) -> Result<Program, StaticFault>
    requires { FormedScript script.now }
    ensures means { MatchResult result (λ program. IsProgramOf script.now program)
        (λ fault. IsRefused fault script.now) }
    ensures valid { IfOk result IsValid }
{
    let Resolved { program, fault } = come_to(alloc, script)?;
    match fault {
        None => Ok(program),
        Some(Fault { at, kind }) => Err(StaticFault::At { kind, at }),
    }
}

/// The same program, ready to be run.
pub fn program(alloc: Global, script: &Script) -> Result<Ready, StaticFault>
    requires { FormedScript script.now }
    ensures means { MatchResult result (λ ready. IsProgramOf script.now ready)
        (λ fault. IsRefused fault script.now) }
{
    match check_script(alloc, script) {
        Ok(program) => Ok(Ready::make(alloc, program)?),
        Err(fault) => Err(fault),
    }
}
