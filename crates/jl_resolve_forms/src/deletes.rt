//! A deletion of methods: its function, and the signature that its type is read as.

ghost use Rattle.std.specs.Prelude.{◌≡◌, IfOk};
ghost use Rattle.jl_written.specs.Signatures.{tuple_signature};
ghost use Rattle.jl_resolve_forms.specs.Resolver.{Resolves};
ghost use Rattle.jl_resolve_forms.specs.Expressions.{signature_as, is_tuple, is_signature, signature_args, signature_vars, next_delete, delete_signed, deleted_signature, delete_of, delete};
ghost use Rattle.jl_typeread.specs.declared.tree.ArgText.TheViews.{out-TypeText};

use crate::functions::own_function;
use crate::judge::Judge;
use crate::known::Known;
use crate::methods::{defined_function, if_unknown, judge_signature};
use crate::scopes::{merge_fault, note, note_if};
use crate::state::{Scope, SignatureRead, Signed, State};
use crate::types::{declared_at, make_args, start_of};
use jl_grammar::tree::Name;
use jl_model::rows::Row;
use jl_model::ty::Written;
use jl_names::decls::FirstDecls;
use jl_program::tree::{Delete, Expr as Code};
use jl_typeread::tree::{ArgText, TypeText, VarText};
use jl_written::fault::StaticKind;
use jl_written::names::{is_same, to_u32};
use jl_written::reads::{add_places, bind_first, read_parts};
use jl_written::signatures::no_reading;
use jl_written::text_order::order_types;
use jl_written::vars::Around;
use std::alloc::{AllocError, Global};
use std::mem;

/// The name `Tuple` with its arguments in braces.
fn is_tuple(ty: &TypeText) -> bool
    ensures { result ≡ is_tuple (out-TypeText ty.now) }
{
    match ty {
        TypeText::Name(_, _) => false,
        TypeText::Applied(_, name, _) => is_same(name.as_slice(), b"Tuple"),
        TypeText::Paren(_, _, _) => false,
    }
}

/// Whether a type is read as a signature: a tuple, or one with a `where` in parentheses.
fn is_signature(ty: &TypeText) -> bool
    ensures { result ≡ is_signature (out-TypeText ty.now) }
{
    match ty {
        TypeText::Name(_, _) => false,
        TypeText::Applied(_, _, _) => is_tuple(ty),
        TypeText::Paren(_, inner, vars) => !vars.as_slice().is_empty() && is_tuple(inner.get()),
    }
}

/// The arguments of the tuple that is read as a signature.
fn signature_args(ty: &TypeText) -> &[ArgText]
    ensures { result.now ≡ signature_args (out-TypeText ty.now) }
{
    match ty {
        TypeText::Name(_, _) => &[],
        TypeText::Applied(_, _, args) => args.as_slice(),
        TypeText::Paren(_, inner, _) => make_args(inner.get()),
    }
}

/// The variables of its `where`.
fn signature_vars(ty: &TypeText) -> &[VarText]
    ensures { result.now ≡ signature_vars (out-TypeText ty.now) }
{
    match ty {
        TypeText::Name(_, _) => &[],
        TypeText::Applied(_, _, _) => &[],
        TypeText::Paren(_, _, vars) => vars.as_slice(),
    }
}

/// The types of a tuple's arguments, where the variables of its `where` are visible, as those of parameters.
fn tuple_signature(
    alloc: Global,
    decls: &FirstDecls<'_>,
    args: &[ArgText],
    vars: &[VarText],
) -> Result<SignatureRead, AllocError>
    ensures { IfOk result (λ r. signature_as r ≡ tuple_signature decls.now args.now vars.now) }
{
    let mut reading = no_reading(alloc);
    let visible = bind_first(alloc, decls, &mut reading, vars)?;
    let behind = mem::replace(&mut reading.places, Row::new(alloc));
    let types = read_parts(alloc, &Around::within(decls, &visible), &mut reading, args)?;
    add_places(&mut reading, behind.as_slice())?;
    let types = order_types(alloc, &mut reading, types)?;
    Ok(SignatureRead {
        vars: visible,
        types,
        reading,
    })
}

/// The signature of a deletion: no type variable is visible in it but its own.
fn deleted_signature<J: Judge>(
    alloc: Global,
    judge: &J,
    known: &Known,
    types: u32,
    ty: &TypeText,
) -> Result<Signed, AllocError>
    ensures { IfOk result (λ g. g ≡ deleted_signature (J.tests judge.now) known.now types ty.now) }
{
    let decls = declared_at(known, types);
    let read = tuple_signature(alloc, &decls, signature_args(ty), signature_vars(ty))?;
    let signed = judge_signature(alloc, judge, read)?;
    Ok(signed)
}

/// The next deletion place.
fn next_delete(state: &mut State, function: u32, sig: Written) -> Result<Code, AllocError>
    ensures { Resolves result state.new (next_delete function sig state.old) }
{
    let place = to_u32(state.deletes.len())?;
    state.deletes.push(Delete { function, sig })?;
    Ok(Code::Delete(place))
}

/// A deletion of the methods of a function with this signature, which begins here.
fn delete_signed(
    state: &mut State,
    function: u32,
    at: u32,
    signed: Signed,
) -> Result<Code, AllocError>
    ensures { Resolves result state.new (delete_signed function at signed state.old) }
{
    let Signed {
        sig,
        fault,
        refusal,
        ..
    } = signed;
    merge_fault(state, fault);
    note_if(state, at, refusal);
    next_delete(state, function, sig)
}

/// A deletion of methods of this function, by a type that is read as a signature or not.
fn delete_of<J: Judge>(
    alloc: Global,
    judge: &J,
    known: &Known,
    types: u32,
    state: &mut State,
    function: u32,
    ty: &TypeText,
) -> Result<Code, AllocError>
    ensures { Resolves result state.new (delete_of (J.tests judge.now) known.now
        (is_signature (out-TypeText ty.now)) function ty.now types state.old) }
{
    let at = start_of(ty);
    if !is_signature(ty) {
        note(state, at, StaticKind::BadType);
        return Ok(Code::Nothing);
    }
    let signed = deleted_signature(alloc, judge, known, types, ty)?;
    delete_signed(state, function, at, signed)
}

/// A deletion: its function is one of the script.
#[tactic(auto, unfolding(crate::specs::Expressions::delete))]
pub fn delete<J: Judge>(
    alloc: Global,
    judge: &J,
    known: &Known,
    scope: &Scope,
    state: &mut State,
    name: &Name,
    ty: &TypeText,
) -> Result<Code, AllocError>
    ensures { Resolves result state.new
        (delete (J.tests judge.now) known.now name.now ty.now scope.now state.old) }
{
    let function = own_function(known, name, scope);
    note_if(state, name.at, if_unknown(function));
    let number = defined_function(function);
    delete_of(alloc, judge, known, scope.types, state, number, ty)
}
