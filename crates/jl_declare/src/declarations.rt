//! The declarations of a script, one after another.

ghost use Rattle.std.specs.Prelude.{◌≡◌, ◌++◌, ◌∷◌, [], take, true, nat_eq, length, None, IfOk, OnOk};
ghost use Rattle.jl_model.specs.Refusals.{Declared, HasOwnVariables};
ghost use Rattle.jl_declare.specs.Judgement.{tell_alone, IsAnswer, kept_in, keep_shown};
ghost use Rattle.jl_declare.specs.Declarations.{declaring_of, no_declaration, with_fault, name_fault, text_fault, IsDeclared, DeclaresOne, Declares, HasAllowed};

use crate::judged::{Judged, judge, keep_shown, refusal_at, tell_alone};
use crate::read::{ReadDecl, read};
use crate::state::Declarations;
use jl_grammar::tree::{Field as FieldText, Header, Item, Name};
use jl_model::ty::DeclKind;
use jl_names::decls::{DeclList, copy_decl};
use jl_types::Table;
use jl_written::fault::{Fault, StaticKind};
use jl_written::names::is_builtin;
use jl_written::notes::first_of;
use std::alloc::{AllocError, Global};

/// The built-in types, before any item.
fn builtin(alloc: Global) -> Result<Declarations, AllocError>
    ensures declared { IfOk result (λ d. declaring_of d ≡ no_declaration) }
    ensures table { IfOk result (λ d. HasAllowed d) }
{
    let table = Table::new(alloc)?;
    let mut decls = DeclList::new(alloc);
    for number in 0..table.count() {
        decls.push(copy_decl(table.decl(number))?)?;
    }
    Ok(Declarations {
        table,
        decls,
        fault: None,
    })
}

/// The first of two faults, where there is one.
fn with_fault(known: Option<Fault>, fault: Option<Fault>) -> Option<Fault>
    ensures { result ≡ with_fault known fault }
{
    match fault {
        None => known,
        Some(fault) => first_of(known, fault),
    }
}

/// That a built-in name is declared.
fn name_fault(at: u32, name: &[u8]) -> Option<Fault>
    ensures { result ≡ name_fault at name.now }
{
    if is_builtin(name) {
        Some(Fault {
            at,
            kind: StaticKind::NameClash,
        })
    } else {
        None
    }
}

/// The faults of the name and of the types that are written.
fn text_fault(name: &Name, read: &ReadDecl, known: Option<Fault>) -> Option<Fault>
    ensures { result ≡ text_fault name.now read.now known }
{
    let named = name_fault(name.at, name.bytes.as_slice());
    with_fault(with_fault(known, named), read.reading.fault)
}

/// What is answered for a declaration behind others. Where it is allowed the table gets it.
fn judgement(
    alloc: Global,
    table: &mut Table,
    decls: &DeclList,
    read: &ReadDecl,
) -> Result<Judged, AllocError>
    requires table { table.old ≡ take (length table.old) decls.now }
    requires own { Declared decls.now → read.now.whole ≡ true → HasOwnVariables read.now.decl }
    ensures judged { IfOk result (λ j. IsAnswer decls.now read.now.decl
        (tell_alone decls.now (nat_eq (length table.old) (length decls.now)) read.now) j) }
    ensures added { IfOk result (λ j. table.new ≡ table.old ++ kept_in j) }
    ensures table { IfOk result (λ j. table.new
        ≡ take (length table.new) (decls.now ++ keep_shown j read.now.decl ∷ [])) }
{
    let all_allowed = table.count() as usize == decls.len();
    table.valid();
    match tell_alone(decls, all_allowed, read) {
        Some(judged) => Ok(judged),
        None => {
            let judged = judge(alloc, table, copy_decl(&read.decl)?)?;
            Ok(judged)
        }
    }
}

/// Reads, checks and adds a declaration.
fn add(
    alloc: Global,
    state: &mut Declarations,
    kind: DeclKind,
    header: &Header,
    fields: &[FieldText],
) -> Result<(), AllocError>
    requires { HasAllowed state.old }
    ensures declared { OnOk result
        (IsDeclared kind header.now fields.now (declaring_of state.old) (declaring_of state.new)) }
    ensures table { OnOk result (HasAllowed state.new) }
{
    let read = read(alloc, &mut state.decls, kind, header, fields)?;
    let judged = judgement(alloc, &mut state.table, &state.decls, &read)?;
    let fault = text_fault(&header.name, &read, state.fault);
    state.fault = with_fault(fault, refusal_at(header.name.at, &judged));
    state.decls.push(keep_shown(judged, read.decl))?;
    Ok(())
}

/// Adds what an item declares.
fn add_item(alloc: Global, state: &mut Declarations, item: &Item) -> Result<(), AllocError>
    requires { HasAllowed state.old }
    ensures declared { OnOk result
        (DeclaresOne item.now (declaring_of state.old) (declaring_of state.new)) }
    ensures table { OnOk result (HasAllowed state.new) }
{
    match item {
        Item::Abstract(text) => add(alloc, state, DeclKind::Abstract, &text.header, &[]),
        Item::Struct(text) => add(
            alloc,
            state,
            DeclKind::Struct,
            &text.header,
            text.fields.as_slice(),
        ),
        Item::Method(_) => Ok(()),
        Item::Bind(_, _) => Ok(()),
        Item::Do(_) => Ok(()),
    }
}

/// The declarations of a script, in text order: each is read and checked behind those before it. The table has just those
/// from the first on that are allowed; behind a refusal no further one is checked against it. Where there is no fault, they
/// are all allowed, so the table has them all.
pub fn declarations(alloc: Global, items: &[Item]) -> Result<Declarations, AllocError>
    ensures declared { IfOk result (λ d. Declares items.now no_declaration (declaring_of d)) }
    ensures table { IfOk result (λ d. d.table ≡ take (length d.table) d.decls) }
    ensures valid { IfOk result (λ d. d.fault ≡ None → Declared d.decls) }
{
    let mut state = builtin(alloc)?;
    for item in items {
        add_item(alloc, &mut state, item)?;
    }
    state.table.valid();
    Ok(state)
}
