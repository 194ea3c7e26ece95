//! The statements at the top, and the program of a script whose declarations are known.

ghost use Rattle.std.specs.Prelude.{◌≡◌, ◌∷◌, ◌++◌, [], ◌+◌, drop, length, IfOk, OnOk};
ghost use Rattle.jl_resolve_forms.specs.Resolver.{resolution};
ghost use Rattle.jl_resolve_forms.specs.Top.{top_bind, top_bound, one_top, all_top, program_as, resolve};
ghost use Rattle.jl_resolve_walk.specs.Steps.{scoped_behind, one_type_more, resolved_as};

use crate::beginning::beginning;
use crate::expressions::{expr, method};
use crate::program::Resolved;
use jl_grammar::tree::{Item, Name};
use jl_model::builtin::BUILTIN_TYPES;
use jl_model::rows::Row;
use jl_model::ty::{Decl, Decls};
use jl_names::decls::copy_decl;
use jl_program::tree::{Expr as Code, Item as Statement, Items, Program};
use jl_resolve_forms::judge::Judge;
use jl_resolve_forms::known::Known;
use jl_resolve_forms::methods::bare_scope;
use jl_resolve_forms::state::{Scope, State};
use jl_resolve_forms::top::top_bind;
use jl_written::fault::Fault;
use jl_written::names::to_u32;
use std::alloc::{AllocError, Global};

/// Behind a declaration one type more is declared.
fn declare_type(scope: &mut Scope) -> Result<(), AllocError>
    ensures { OnOk result (scope.new ≡ one_type_more scope.old) }
{
    scope.types = to_u32(scope.types as usize + 1)?;
    Ok(())
}

/// A binding at the top takes the next slot, and gives its number.
fn place_top(
    known: &Known,
    scope: &mut Scope,
    state: &mut State,
    name: &Name,
) -> Result<u32, AllocError>
    ensures { IfOk result (λ n. (n ≡ length scope.old.slots) × (resolution scope.new state.new
        ≡ top_bind known.now name.now scope.old state.old)) }
{
    let slot = to_u32(scope.slots.len())?;
    top_bind(known, scope, state, name)?;
    Ok(slot)
}

/// A binding at the top, whose value is read.
fn bind_top(
    known: &Known,
    scope: &mut Scope,
    state: &mut State,
    name: &Name,
    code: Code,
) -> Result<Statement, AllocError>
    ensures { IfOk result (λ x. resolution (x ∷ [], scope.new) state.new
        ≡ top_bound known.now name.now scope.old code state.old) }
{
    match place_top(known, scope, state, name) {
        Ok(slot) => Ok(Statement::Bind(slot, code)),
        Err(error) => {
            drop(code);
            Err(error)
        }
    }
}

/// An item: a declaration is no statement.
fn put_top<J: Judge>(
    alloc: Global,
    judge: &J,
    known: &Known,
    scope: &mut Scope,
    state: &mut State,
    out: &mut Row<Statement>,
    text: &Item,
) -> Result<(), AllocError>
    ensures { OnOk result (resolution (out.new, scope.new) state.new
        ≡ scoped_behind out.old (one_top (J.tests judge.now) known.now text.now scope.old state.old)) }
{
    match text {
        Item::Abstract(_) => declare_type(scope),
        Item::Struct(_) => declare_type(scope),
        Item::Method(text) => {
            let site = method(alloc, judge, known, scope.types, state, text)?;
            out.push(Statement::Define(site))
        }
        Item::Bind(name, value) => {
            let code = expr(alloc, judge, known, scope, state, value)?;
            let statement = bind_top(known, scope, state, name, code)?;
            out.push(statement)
        }
        Item::Do(value) => {
            let code = expr(alloc, judge, known, scope, state, value)?;
            out.push(Statement::Do(code))
        }
    }
}

/// The items, where each sees the bindings and the types before it.
fn all_top<J: Judge>(
    alloc: Global,
    judge: &J,
    known: &Known,
    scope: &mut Scope,
    state: &mut State,
    texts: &[Item],
) -> Result<Items, AllocError>
    ensures { IfOk result (λ xs. resolution (xs, scope.new) state.new
        ≡ all_top (J.tests judge.now) known.now texts.now scope.old state.old) }
{
    let mut out = Row::new(alloc);
    for text in texts {
        put_top(alloc, judge, known, scope, state, &mut out, text)?;
    }
    let out = out.into_shared(alloc)?;
    Ok(out)
}

/// The declarations behind the built-in ones.
fn after_builtin(decls: &[Decl]) -> &[Decl]
    ensures { result.now ≡ drop BUILTIN_TYPES decls.now }
{
    if decls.len() < BUILTIN_TYPES as usize {
        &[]
    } else {
        &decls[BUILTIN_TYPES as usize..]
    }
}

/// The declarations of a script.
fn own_decls(alloc: Global, decls: &[Decl]) -> Result<Decls, AllocError>
    ensures { IfOk result (λ ds. ds ≡ drop BUILTIN_TYPES decls.now) }
{
    let own = after_builtin(decls);
    let mut out = Row::new(alloc);
    for decl in own {
        out.push(copy_decl(decl)?)?;
    }
    let out = out.into_shared(alloc)?;
    Ok(out)
}

/// The program, whose statements are read.
fn program_as(
    alloc: Global,
    known: &Known,
    state: State,
    top: Items,
) -> Result<Resolved, AllocError>
    ensures { IfOk result (λ r. resolved_as r.program r.fault ≡ program_as known.now top state) }
{
    let State {
        sites,
        spawns,
        deletes,
        fault,
    } = state;
    let program = Program {
        decls: own_decls(alloc, known.decls.list().as_slice())?,
        functions: known.functions.to_shared(alloc)?,
        sites: sites.into_shared(alloc)?,
        spawns: spawns.into_shared(alloc)?,
        deletes: deletes.into_shared(alloc)?,
        top,
    };
    Ok(Resolved { program, fault })
}

/// The program of a script and its first fault, behind the first fault of its declarations.
///
/// # Errors
///
/// Want of memory alone.
pub fn resolve<J: Judge>(
    alloc: Global,
    judge: &J,
    known: &Known,
    items: &[Item],
    fault: Option<Fault>,
) -> Result<Resolved, AllocError>
    ensures { IfOk result (λ r. resolved_as r.program r.fault
        ≡ resolve (J.tests judge.now) known.now items.now fault) }
{
    let mut scope = bare_scope(alloc, BUILTIN_TYPES);
    let mut state = beginning(alloc, fault)?;
    let top = all_top(alloc, judge, known, &mut scope, &mut state, items)?;
    let program = program_as(alloc, known, state, top)?;
    Ok(program)
}
