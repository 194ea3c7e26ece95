//! Reading the text of a type.

ghost use Rattle.std.specs.Prelude.{◌≡◌, ◌≤◌, ◌++◌, [], List, Bool, true, false, map, take, drop, length, slice_get, IfOk, OnOk};
ghost use Rattle.jl_model.specs.Valid.{params_of};
ghost use Rattle.jl_model.specs.declared.ty.Decl.{Decl};
ghost use Rattle.jl_model.specs.declared.ty.Ty.TheViews as V;
ghost use Rattle.jl_written.specs.Meaning.{var_of};
ghost use Rattle.jl_written.specs.Reads.{typed, types, scoped, bounded, seen, seen_from, visible, with_own, places_behind, nominal_of, missing_arguments, read_plain, read_applied, read_arguments, read_members, bind, bind_all, bind_name, note_builtin, bind_where, type_reads, arg_reads, var_reads};
ghost use Rattle.jl_written.specs.Signatures.{all_bound, parts_read};

use crate::fault::StaticKind;
use crate::names::{is_builtin, to_u32};
use crate::notes::{
    copy_place, fresh_variable, missing_arguments, note, note_brought, note_place, note_unknown,
    note_use, swap,
};
use crate::reading::{Named, Place, Reading, Sight, TypeVar};
use crate::vars::{Around, TypeVars, bound_sight, meaning_of, push_var, widen};
use jl_model::rows::Row;
use jl_model::ty::{Bound, Bytes, Ty, Tys};
use jl_names::decls::FirstDecls;
use jl_typeread::tree::{ArgText, TypeText, VarText};
use std::alloc::{AllocError, Global};
use std::mem;

/// The declared bounds of a nominal type's arguments.
fn params_of<'a>(decls: &'a FirstDecls<'_>, number: u32) -> &'a [Bound]
    ensures { result.now ≡ params_of (slice_get decls.now number) }
{
    match decls.get(number) {
        None => &[],
        Some(decl) => decl.params.as_slice(),
    }
}

/// A nominal type of which no argument is written.
fn read_bare(
    alloc: Global,
    decls: &FirstDecls<'_>,
    state: &mut Reading,
    number: u32,
    inside: bool,
) -> Result<Ty, AllocError>
    ensures { IfOk result (λ t. typed t state.new
        ≡ nominal_of number
        (missing_arguments (params_of (slice_get decls.now number)) inside state.old)) }
{
    let mut tys = Row::new(alloc);
    missing_arguments(state, &mut tys, params_of(decls, number), inside)?;
    Ok(Ty::Nominal(number, tys.into_shared(alloc)?))
}

/// A name without braces.
fn read_plain(
    alloc: Global,
    decls: &FirstDecls<'_>,
    state: &mut Reading,
    at: u32,
    name: Named,
    inside: bool,
) -> Result<Ty, AllocError>
    ensures { IfOk result (λ t. typed t state.new ≡ read_plain decls.now at name inside state.old) }
{
    match name {
        Named::Variable(number, usable) => {
            note_use(state, at, usable);
            Ok(Ty::Var(number))
        }
        Named::Any => Ok(Ty::Any),
        Named::Nominal(number) => read_bare(alloc, decls, state, number, inside),
        Named::Union => Ok(note_unknown(state, at)),
        Named::Tuple => Ok(note_unknown(state, at)),
        Named::Unknown => Ok(note_unknown(state, at)),
    }
}

/// A name with braces.
#[cycle(types)]
fn read_applied(
    alloc: Global,
    around: &Around<'_>,
    vars: &mut TypeVars,
    sight: Sight,
    state: &mut Reading,
    name: Named,
    at: u32,
    texts: &[ArgText],
    inside: bool,
) -> Result<Ty, AllocError>
    ensures means { IfOk result (λ t. typed t state.new
        ≡ read_applied around.now.decls.now at name (map (arg_reads around.now.decls.now) texts.now)
        (seen_from around.now.first vars.old sight) inside state.old) }
    ensures kept { OnOk result (vars.new ≡ vars.old) }
{
    match name {
        Named::Union => Ok(Ty::Union(read_members(
            alloc, around, vars, sight, state, texts, inside,
        )?)),
        Named::Tuple => Ok(Ty::Tuple(read_members(
            alloc, around, vars, sight, state, texts, inside,
        )?)),
        Named::Nominal(number) => {
            let bounds = params_of(around.decls, number);
            let tys = read_arguments(alloc, around, vars, sight, state, bounds, texts, inside)?;
            Ok(Ty::Nominal(number, tys))
        }
        Named::Variable(_, _) => Ok(note_unknown(state, at)),
        Named::Any => Ok(note_unknown(state, at)),
        Named::Unknown => Ok(note_unknown(state, at)),
    }
}

/// The members of a union, or the parts of a tuple.
#[cycle(types)]
fn read_members(
    alloc: Global,
    around: &Around<'_>,
    vars: &mut TypeVars,
    sight: Sight,
    state: &mut Reading,
    texts: &[ArgText],
    inside: bool,
) -> Result<Tys, AllocError>
    ensures means { IfOk result (λ ts. types ts state.new
        ≡ read_members (map (arg_reads around.now.decls.now) texts.now)
        (seen_from around.now.first vars.old sight) inside state.old) }
    ensures kept { OnOk result (vars.new ≡ vars.old) }
{
    let mut tys = Row::new(alloc);
    for text in texts {
        let ty = read_argument(alloc, around, vars, sight, state, text, inside, inside)?;
        tys.push(ty)?;
    }
    tys.into_shared(alloc)
}

/// The arguments of a nominal type, with their declared bounds.
#[cycle(types)]
pub(crate) fn read_arguments(
    alloc: Global,
    around: &Around<'_>,
    vars: &mut TypeVars,
    sight: Sight,
    state: &mut Reading,
    bounds: &[Bound],
    texts: &[ArgText],
    inside: bool,
) -> Result<Tys, AllocError>
    ensures means { IfOk result (λ ts. types ts state.new
        ≡ read_arguments bounds.now (map (arg_reads around.now.decls.now) texts.now)
        (seen_from around.now.first vars.old sight) inside state.old) }
    ensures kept { OnOk result (vars.new ≡ vars.old) }
{
    let mut tys = Row::new(alloc);
    let mut left = bounds;
    for text in texts {
        let ty = read_argument(alloc, around, vars, sight, state, text, inside, true)?;
        note_place(state, left, &ty)?;
        tys.push(ty)?;
        left = after_first(left);
    }
    missing_arguments(state, &mut tys, left, inside)?;
    tys.into_shared(alloc)
}

/// All but the first.
fn after_first(bounds: &[Bound]) -> &[Bound]
    ensures { result.now ≡ drop 1 bounds.now }
{
    match bounds {
        [] => bounds,
        [_, rest @ ..] => rest,
    }
}

/// An argument. What stands in the braces around it may be inside an argument of a nominal type where those are not.
#[cycle(types)]
fn read_argument(
    alloc: Global,
    around: &Around<'_>,
    vars: &mut TypeVars,
    sight: Sight,
    state: &mut Reading,
    text: &ArgText,
    outer: bool,
    inner: bool,
) -> Result<Ty, AllocError>
    ensures means { IfOk result (λ t. typed t state.new
        ≡ arg_reads around.now.decls.now text.now (seen_from around.now.first vars.old sight)
        outer inner state.old) }
    ensures kept { OnOk result (vars.new ≡ vars.old) }
{
    match text {
        ArgText::Exact(ty) => read_type(alloc, around, vars, sight, state, ty, inner),
        ArgText::Below(_, ty) => {
            let bound = bound_sight(sight, vars.len());
            let high = read_type(alloc, around, vars, bound, state, ty, true)?;
            fresh_variable(
                state,
                Bound {
                    low: empty_type(),
                    high,
                },
                outer,
            )
        }
        ArgText::Above(_, ty) => {
            let bound = bound_sight(sight, vars.len());
            let low = read_type(alloc, around, vars, bound, state, ty, true)?;
            fresh_variable(state, Bound { low, high: Ty::Any }, outer)
        }
    }
}

/// The type without values.
fn empty_type() -> Ty
    ensures { result ≡ V.Union [] }
{
    Ty::Union(Tys::empty())
}

/// What the text of a type means, where these variables are visible, at a place inside an argument of a nominal type or a bound,
/// or not.
#[cycle(types)]
fn read_type(
    alloc: Global,
    around: &Around<'_>,
    vars: &mut TypeVars,
    sight: Sight,
    state: &mut Reading,
    text: &TypeText,
    inside: bool,
) -> Result<Ty, AllocError>
    ensures means { IfOk result (λ t. typed t state.new
        ≡ type_reads around.now.decls.now text.now
        (seen_from around.now.first vars.old sight) inside state.old) }
    ensures kept { OnOk result (vars.new ≡ vars.old) }
{
    match text {
        TypeText::Name(at, name) => {
            let name = meaning_of(around, vars, sight, name.as_slice())?;
            read_plain(alloc, around.decls, state, *at, name, inside)
        }
        TypeText::Applied(at, name, texts) => {
            let name = meaning_of(around, vars, sight, name.as_slice())?;
            read_applied(
                alloc,
                around,
                vars,
                sight,
                state,
                name,
                *at,
                texts.as_slice(),
                inside,
            )
        }
        // The variables of a `where` end with it. In the text they come after those of the type in front of it, and so do the
        // places in their bounds.
        TypeText::Paren(_, ty, variables) => {
            let visible = vars.len();
            let start = state.vars.len();
            bind_where(state, variables.as_slice(), inside);
            let before = mem::replace(&mut state.places, Row::new(alloc));
            bind_all(alloc, around, vars, sight, state, variables.as_slice())?;
            let behind = mem::replace(&mut state.places, before);
            let middle = state.vars.len();
            let sight = widen(sight, visible);
            let ty = read_type(alloc, around, vars, sight, state, ty.get(), inside)?;
            add_places(state, behind.as_slice())?;
            swap(state, start, middle)?;
            vars.truncate(visible);
            Ok(ty)
        }
    }
}

/// Places of declared bounds behind those that are known.
pub fn add_places(state: &mut Reading, places: &[Place]) -> Result<(), AllocError>
    ensures { OnOk result (state.new ≡ places_behind places.now state.old) }
{
    for place in places {
        state.places.push(copy_place(place)?)?;
    }
    Ok(())
}

/// A `where` brings variables.
fn bind_where(state: &mut Reading, variables: &[VarText], inside: bool)
    ensures { (ds : List Decl)
        → state.new ≡ bind_where (map (var_reads ds) variables.now) inside state.old }
{
    if !variables.is_empty() {
        note_brought(state, inside);
    }
}

/// The variables of a list, each visible in what follows it.
#[cycle(types)]
fn bind_all(
    alloc: Global,
    around: &Around<'_>,
    vars: &mut TypeVars,
    sight: Sight,
    state: &mut Reading,
    variables: &[VarText],
) -> Result<(), AllocError>
    ensures bound { OnOk result (scoped (drop (length vars.old) vars.new) state.new
        ≡ bind_all (map (var_reads around.now.decls.now) variables.now)
        (seen_from around.now.first vars.old sight) [] state.old) }
    ensures kept { OnOk result (take (length vars.old) vars.new ≡ vars.old) }
{
    let start = vars.len();
    for variable in variables {
        bind(alloc, around, vars, sight, start, state, variable)?;
    }
    Ok(())
}

/// A variable of a list, with its bounds. The list begins at `start`.
#[cycle(types)]
fn bind(
    alloc: Global,
    around: &Around<'_>,
    vars: &mut TypeVars,
    sight: Sight,
    start: usize,
    state: &mut Reading,
    variable: &VarText,
) -> Result<(), AllocError>
    requires { start ≤ length vars.old }
    ensures bound { OnOk result (scoped (drop start vars.new) state.new
        ≡ bind (var_reads around.now.decls.now variable.now)
        (seen_from around.now.first (take start vars.old) sight) (drop start vars.old) state.old) }
    ensures kept { OnOk result (take start vars.new ≡ take start vars.old) }
{
    let bound = read_bounds(
        alloc,
        around,
        vars,
        bound_sight(sight, start),
        state,
        variable,
    )?;
    let sight = widen(sight, start);
    match variable {
        VarText::Free(at, name) => bind_name(around, vars, sight, start, state, *at, name, bound),
        VarText::Below(at, name, _) => {
            bind_name(around, vars, sight, start, state, *at, name, bound)
        }
        VarText::Above(at, name, _) => {
            bind_name(around, vars, sight, start, state, *at, name, bound)
        }
        VarText::Between(_, at, name, _) => {
            bind_name(around, vars, sight, start, state, *at, name, bound)
        }
    }
}

/// The next variable takes a name, and hides one that has it already.
fn bind_name(
    around: &Around<'_>,
    vars: &mut TypeVars,
    sight: Sight,
    start: usize,
    state: &mut Reading,
    at: u32,
    name: &Bytes,
    bound: Bound,
) -> Result<(), AllocError>
    requires { start ≤ length vars.old }
    ensures bound { OnOk result (scoped (drop start vars.new) state.new
        ≡ bind_name at name.now bound (drop start vars.old) (note_builtin at name.now state.old)
        (var_of (visible (seen_from around.now.first vars.old sight)) name.now)) }
    ensures kept { OnOk result (take start vars.new ≡ take start vars.old) }
{
    if is_builtin(name.as_slice()) {
        note(state, at, StaticKind::NameClash);
    }
    let number = to_u32(state.vars.len())?;
    state.vars.push(bound)?;
    let var = TypeVar {
        name: name.copy()?,
        number,
        usable: true,
    };
    if push_var(around, vars, sight, var)? {
        note(state, at, StaticKind::Rebound);
        state.unclear = true;
    }
    Ok(())
}

/// The bounds of a variable: without a written upper bound `Any`, without a lower one `Union{}`.
#[cycle(types)]
fn read_bounds(
    alloc: Global,
    around: &Around<'_>,
    vars: &mut TypeVars,
    sight: Sight,
    state: &mut Reading,
    variable: &VarText,
) -> Result<Bound, AllocError>
    ensures means { IfOk result (λ b. bounded b state.new
        ≡ (var_reads around.now.decls.now variable.now).bounds
        (seen_from around.now.first vars.old sight) state.old) }
    ensures kept { OnOk result (vars.new ≡ vars.old) }
{
    match variable {
        VarText::Free(_, _) => Ok(Bound {
            low: empty_type(),
            high: Ty::Any,
        }),
        VarText::Below(_, _, ty) => {
            let high = read_type(alloc, around, vars, sight, state, ty.get(), true)?;
            Ok(Bound {
                low: empty_type(),
                high,
            })
        }
        VarText::Above(_, _, ty) => {
            let low = read_type(alloc, around, vars, sight, state, ty.get(), true)?;
            Ok(Bound { low, high: Ty::Any })
        }
        VarText::Between(low, _, _, high) => {
            let low = read_type(alloc, around, vars, sight, state, low.get(), true)?;
            let high = read_type(alloc, around, vars, sight, state, high.get(), true)?;
            Ok(Bound { low, high })
        }
    }
}

/// The variables of the `where` at the end of a signature, or the parameters of a declaration.
pub fn bind_first(
    alloc: Global,
    decls: &FirstDecls<'_>,
    state: &mut Reading,
    variables: &[VarText],
) -> Result<TypeVars, AllocError>
    ensures { IfOk result (λ vars. scoped vars state.new
        ≡ all_bound decls.now variables.now state.old) }
{
    let mut vars = TypeVars::new(alloc);
    let around = Around::top(decls);
    bind_all(alloc, &around, &mut vars, Sight::From(0), state, variables)?;
    Ok(vars)
}

/// A type that is no part of another one, where nothing of its text is read before it.
pub fn read_alone(
    alloc: Global,
    around: &Around<'_>,
    state: &mut Reading,
    text: &TypeText,
) -> Result<Ty, AllocError>
    ensures { IfOk result (λ t. typed t state.new
        ≡ type_reads around.now.decls.now text.now (seen around.now.first [] false) false state.old) }
{
    let mut vars = TypeVars::new(alloc);
    read_type(alloc, around, &mut vars, Sight::All, state, text, false)
}

/// The parts of a tuple that is read as a signature.
pub fn read_parts(
    alloc: Global,
    around: &Around<'_>,
    state: &mut Reading,
    texts: &[ArgText],
) -> Result<Tys, AllocError>
    ensures { IfOk result (λ ts. types ts state.new
        ≡ parts_read around.now.decls.now texts.now around.now.first state.old) }
{
    let mut vars = TypeVars::new(alloc);
    read_members(alloc, around, &mut vars, Sight::All, state, texts, false)
}
