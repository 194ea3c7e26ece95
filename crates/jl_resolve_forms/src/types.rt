//! Types that are written in bodies, and in explicit constructors.

ghost use Rattle.std.specs.Prelude.{◌≡◌, ◌∷◌, [], ◌==◌, length, take, IfOk, Bool, slice_get};
ghost use Rattle.jl_model.specs.Valid.{params_of};
ghost use Rattle.jl_written.specs.Reads.{typed};
ghost use Rattle.jl_resolve_forms.specs.Resolver.{Resolves};
ghost use Rattle.jl_resolve_forms.specs.Expressions.{make_struct, make_args};
ghost use Rattle.jl_typeread.specs.declared.tree.ArgText.TheViews.{out-TypeText};
ghost use Rattle.jl_resolve_forms.specs.TypesIn.{declared_at, start_of, one_type, refusal, make_refusal, type_at, type_in_body, make_type, make_at};

use crate::functions::struct_named;
use crate::judge::Judge;
use crate::known::Known;
use crate::scopes::{merge_fault, note_if};
use crate::state::{Scope, State};
use jl_model::shared::SharedList;
use jl_model::ty::{Bound, Bounds, Decl, Ty, Written};
use jl_names::decls::FirstDecls;
use jl_typeread::tree::{ArgText, TypeText};
use jl_written::fault::StaticKind;
use jl_written::reading::Reading;
use jl_written::signatures::{adopt_bounds, body_type, constructor_type};
use std::alloc::{AllocError, Global};

/// The types that are declared before a place.
pub fn declared_at(known: &Known, types: u32) -> FirstDecls<'_>
    ensures { result ≡ declared_at known.now types }
{
    known.decls.list().first(types as usize)
}

/// Where a type begins.
pub fn start_of(text: &TypeText) -> u32
    ensures { result ≡ start_of text.now }
{
    match text {
        TypeText::Name(at, _) => *at,
        TypeText::Applied(at, _, _) => *at,
        TypeText::Paren(at, _, _) => *at,
    }
}

/// A signature of one type.
pub fn one_type(alloc: Global, ty: Ty, vars: Bounds) -> Result<Written, AllocError>
    ensures { IfOk result (λ w. w ≡ one_type ty vars) }
{
    let mut parts = Vec::new(alloc);
    parts.push(ty)?;
    Ok(Written {
        vars,
        parts: SharedList::from_vec(alloc, parts)?,
    })
}

/// What refuses a type in a body.
fn body_refusal<J: Judge>(
    alloc: Global,
    judge: &J,
    reading: &Reading,
    written: &Written,
) -> Result<Option<StaticKind>, AllocError>
    ensures { IfOk result (λ k. k ≡ refusal (J.tests judge.now).body reading.now written.now) }
{
    if reading.misplaced {
        return Ok(Some(StaticKind::VariablePlace));
    }
    if reading.unclear {
        return Ok(None);
    }
    judge.refuses_body(alloc, written)
}

/// What refuses the type of an explicit constructor, where its arguments are as many as declared or not. A variable
/// in it, as of an argument that is left out further inside, counts as a missing one: a constructor makes values of
/// one type.
fn make_refusal<J: Judge>(
    alloc: Global,
    judge: &J,
    counted: bool,
    reading: &Reading,
    written: &Written,
) -> Result<Option<StaticKind>, AllocError>
    ensures { IfOk result (λ k.
        k ≡ make_refusal (J.tests judge.now).body counted reading.now written.now) }
{
    if reading.misplaced {
        return Ok(Some(StaticKind::VariablePlace));
    }
    if reading.vars.len() != 0 || !counted {
        return Ok(Some(StaticKind::WrongParameterCount));
    }
    if reading.unclear {
        return Ok(None);
    }
    judge.refuses_body(alloc, written)
}

/// A type in a body, which begins here.
fn type_at<J: Judge>(
    alloc: Global,
    judge: &J,
    state: &mut State,
    at: u32,
    ty: Ty,
    reading: &Reading,
) -> Result<Written, AllocError>
    ensures { Resolves result state.new
        (type_at (J.tests judge.now) at (typed ty reading.now) state.old) }
{
    let vars = adopt_bounds(
        alloc,
        judge,
        reading.places.as_slice(),
        reading.vars.as_slice(),
    )?;
    let written = one_type(alloc, ty, SharedList::from_vec(alloc, vars)?)?;
    let refusal = body_refusal(alloc, judge, reading, &written)?;
    merge_fault(state, reading.fault);
    note_if(state, at, refusal);
    Ok(written)
}

/// A type in a body.
pub fn type_in_body<J: Judge>(
    alloc: Global,
    judge: &J,
    known: &Known,
    scope: &Scope,
    state: &mut State,
    text: &TypeText,
) -> Result<Written, AllocError>
    ensures { Resolves result state.new
        (type_in_body (J.tests judge.now) known.now text.now scope.now state.old) }
{
    let decls = declared_at(known, scope.types);
    let (ty, reading) = body_type(alloc, &decls, &scope.statics, text)?;
    let written = type_at(alloc, judge, state, start_of(text), ty, &reading)?;
    Ok(written)
}

/// The type of an explicit constructor, which begins here.
fn make_type<J: Judge>(
    alloc: Global,
    judge: &J,
    state: &mut State,
    at: u32,
    ty: Ty,
    reading: &Reading,
    counted: bool,
) -> Result<Written, AllocError>
    ensures { Resolves result state.new
        (make_type (J.tests judge.now) at (typed ty reading.now) counted state.old) }
{
    let written = one_type(alloc, ty, SharedList::empty())?;
    let refusal = make_refusal(alloc, judge, counted, reading, &written)?;
    merge_fault(state, reading.fault);
    note_if(state, at, refusal);
    Ok(written)
}

/// The declared bounds of a nominal type's arguments.
fn params_of(decls: &[Decl], number: u32) -> &[Bound]
    ensures { result.now ≡ params_of (slice_get decls.now number) }
{
    match decls.get(number as usize) {
        None => &[],
        Some(decl) => decl.params.as_slice(),
    }
}

/// The type of an explicit constructor of this struct, by the arguments in its braces.
pub fn make_at<J: Judge>(
    alloc: Global,
    judge: &J,
    known: &Known,
    scope: &Scope,
    state: &mut State,
    at: u32,
    number: u32,
    texts: &[ArgText],
) -> Result<Written, AllocError>
    ensures { Resolves result state.new
        (make_at (J.tests judge.now) known.now at number texts.now scope.now state.old) }
{
    let decls = declared_at(known, scope.types);
    let bounds = params_of(known.decls.list().as_slice(), number);
    let (ty, reading) = constructor_type(alloc, &decls, number, bounds, &scope.statics, texts)?;
    let counted = texts.len() == bounds.len();
    let written = make_type(alloc, judge, state, at, ty, &reading, counted)?;
    Ok(written)
}

/// The struct of an explicit constructor.
pub fn make_struct(known: &Known, ty: &TypeText, scope: &Scope) -> Option<u32>
    ensures { result ≡ make_struct known.now (out-TypeText ty.now) scope.now }
{
    match ty {
        TypeText::Name(_, name) => struct_named(known, name.as_slice(), scope),
        TypeText::Applied(_, name, _) => struct_named(known, name.as_slice(), scope),
        TypeText::Paren(_, _, _) => None,
    }
}

/// The arguments in the braces of an explicit constructor.
pub fn make_args(ty: &TypeText) -> &[ArgText]
    ensures { result.now ≡ make_args (out-TypeText ty.now) }
{
    match ty {
        TypeText::Name(_, _) => &[],
        TypeText::Applied(_, _, texts) => texts.as_slice(),
        TypeText::Paren(_, _, _) => &[],
    }
}
