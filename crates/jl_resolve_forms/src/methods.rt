//! A method up to its body: its function, its signature, and what its body sees.

ghost use Rattle.std.specs.Prelude.{◌≡◌, ◌++◌, map, length, IfOk, OnOk};
ghost use Rattle.jl_model.specs.AllRows.{each_var};
ghost use Rattle.jl_model.specs.Usable.{is_usable};
ghost use Rattle.jl_program.specs.Names.{is_among};
ghost use Rattle.jl_written.specs.Reads.{types};
ghost use Rattle.jl_written.specs.Signatures.{all_read, signature, written_of};
ghost use Rattle.jl_resolve_forms.specs.Functions.{function_of, place_of_callee};
ghost use Rattle.jl_resolve_forms.specs.Resolver.{resolution, Resolves};
ghost use Rattle.jl_resolve_forms.specs.TypesIn.{refusal};
ghost use Rattle.jl_resolve_forms.specs.Expressions.{bare_scope, type_of, signature_as, parameters, static_parameter, static_parameters, judge_signature, method_signature, open_body, check_name, names_in, may_define, defined_function, if_unknown, too_many, open_method, next_site, close_site};

use crate::functions::{function_of, place_of_callee};
use crate::judge::Judge;
use crate::known::Known;
use crate::scopes::{bind, merge_fault, note_if, push_unnamed};
use crate::state::{Opening, Scope, SignatureRead, Signed, State};
use crate::types::declared_at;
use jl_grammar::tree::{Callee, Head, Param};
use jl_model::limits::MOST_SITES;
use jl_model::rows::Row;
use jl_model::shared::SharedList;
use jl_model::ty::{Ty, Tys, Written};
use jl_names::decls::FirstDecls;
use jl_names::marked::MarkedNames;
use jl_names::slots::Slots;
use jl_program::prelude::PRELUDE_SITES;
use jl_program::tree::{Expr as Code, Site};
use jl_sig::{is_usable, usable_variables};
use jl_typeread::tree::VarText;
use jl_written::fault::StaticKind;
use jl_written::names::{is_builtin, to_u32};
use jl_written::reading::{Reading, TypeVar};
use jl_written::reads::{add_places, bind_first, read_alone};
use jl_written::signatures::{adopt_bounds, no_reading};
use jl_written::text_order::order_types;
use jl_written::vars::{Around, TypeVars};
use std::alloc::{AllocError, Global};
use std::mem;

/// Neither slots nor static parameters are visible.
pub fn bare_scope(alloc: Global, types: u32) -> Scope
    ensures { result ≡ bare_scope types }
{
    Scope {
        slots: Slots::new(alloc),
        statics: TypeVars::new(alloc),
        types,
    }
}

#[tactic(auto, using(crate::proofs::TableLemmas::named_is))]
fn are_named(names: &MarkedNames, name: &[u8]) -> bool
    ensures { result ≡ is_among name.now (names_in names.now) }
{
    names.find(name).is_some()
}

/// A function has no built-in name, unless `Base.` stands before it, and not that of a type of the script.
fn may_define(known: &Known, callee: &Callee) -> Option<StaticKind>
    ensures { result ≡ may_define known.now callee.now }
{
    match callee {
        Callee::Plain(name) => {
            let name = name.bytes.as_slice();
            if is_builtin(name) || are_named(&known.types, name) {
                Some(StaticKind::NameClash)
            } else {
                None
            }
        }
        Callee::Base(_, _) => None,
        Callee::Operator(_, _) => None,
    }
}

/// A function behind `Base.` is one of the prelude.
pub(crate) fn if_unknown(function: Option<u32>) -> Option<StaticKind>
    ensures { result ≡ if_unknown function }
{
    match function {
        None => Some(StaticKind::UnknownFunction),
        Some(_) => None,
    }
}

/// The function of a method. Where it is none there is a fault, so no program has the number that stands for it.
pub(crate) fn defined_function(function: Option<u32>) -> u32
    ensures { result ≡ defined_function function }
{
    match function {
        None => 0,
        Some(function) => function,
    }
}

/// A script has at most 4,096 sites beside those of the prelude.
fn too_many(state: &State) -> Option<StaticKind>
    ensures { result ≡ too_many state.now }
{
    if state.sites.len() >= MOST_SITES + PRELUDE_SITES as usize {
        Some(StaticKind::TooManySites)
    } else {
        None
    }
}

/// The types of parameters, where the variables of the `where` at the end of the signature are declared before.
fn all_read(
    alloc: Global,
    around: &Around<'_>,
    reading: &mut Reading,
    params: &[Param],
) -> Result<Tys, AllocError>
    ensures { IfOk result (λ ts. types ts reading.new
        ≡ all_read around.now.decls.now (map type_of params.now) around.now.first reading.old) }
{
    let mut tys = Row::new(alloc);
    for param in params {
        let ty = match param {
            Param::Name(_) => Ty::Any,
            Param::Typed(_, text) => read_alone(alloc, around, reading, text)?,
            Param::Unnamed(_, text) => read_alone(alloc, around, reading, text)?,
        };
        tys.push(ty)?;
    }
    tys.into_shared(alloc)
}

/// The types of a method's parameters, where the variables of its `where` are visible. These come first, and all others
/// after them in text order.
fn signature(
    alloc: Global,
    decls: &FirstDecls<'_>,
    params: &[Param],
    vars: &[VarText],
) -> Result<SignatureRead, AllocError>
    ensures { IfOk result (λ r. signature_as r
        ≡ signature decls.now (map type_of params.now) vars.now) }
{
    let mut reading = no_reading(alloc);
    let visible = bind_first(alloc, decls, &mut reading, vars)?;
    let behind = mem::replace(&mut reading.places, Row::new(alloc));
    let types = all_read(
        alloc,
        &Around::within(decls, &visible),
        &mut reading,
        params,
    )?;
    add_places(&mut reading, behind.as_slice())?;
    let types = order_types(alloc, &mut reading, types)?;
    Ok(SignatureRead {
        vars: visible,
        types,
        reading,
    })
}

/// What refuses a signature. Where it is unclear what a name in it means, a fault is noted at the name, and no test
/// is asked about what was put in its place.
fn signature_refusal<J: Judge>(
    alloc: Global,
    judge: &J,
    reading: &Reading,
    written: &Written,
) -> Result<Option<StaticKind>, AllocError>
    ensures { IfOk result (λ k. k ≡ refusal (J.tests judge.now).signature reading.now written.now) }
{
    if reading.misplaced {
        return Ok(Some(StaticKind::VariablePlace));
    }
    if reading.unclear {
        return Ok(None);
    }
    judge.refuses_signature(alloc, written)
}

/// Whether a body may use a variable, where the flags tell this of the signature's own.
fn is_flagged(written: &Written, flags: &[bool], number: u32) -> bool
    requires { flags.now ≡ each_var (is_usable written.now) 0 written.now.vars }
    ensures { result ≡ is_usable written.now number }
{
    match flags.get(number as usize) {
        None => is_usable(written, number),
        Some(flag) => *flag,
    }
}

/// A static parameter, with whether it is usable in the body. The flags come from one walk over the signature;
/// without them each variable would take a walk of its own.
fn static_parameter(written: &Written, flags: &[bool], var: &TypeVar) -> Result<TypeVar, AllocError>
    requires { flags.now ≡ each_var (is_usable written.now) 0 written.now.vars }
    ensures { IfOk result (λ v. v ≡ static_parameter written.now var.now) }
{
    Ok(TypeVar {
        name: var.name.copy()?,
        number: var.number,
        usable: is_flagged(written, flags, var.number),
    })
}

/// The variables of a signature as static parameters.
fn all_static(
    alloc: Global,
    written: &Written,
    vars: &[TypeVar],
) -> Result<Vec<TypeVar>, AllocError>
    ensures { IfOk result (λ vs. vs.items ≡ static_parameters written.now vars.now) }
{
    let flags = usable_variables(alloc, written)?;
    let mut statics = Vec::new(alloc);
    for var in vars {
        statics.push(static_parameter(written, flags.as_slice(), var)?)?;
    }
    Ok(statics)
}

/// The static parameters of a body. They keep the table of the signature's names, which costs more than they do.
fn static_parameters(
    alloc: Global,
    written: &Written,
    vars: TypeVars,
) -> Result<TypeVars, AllocError>
    ensures { IfOk result (λ vs. vs ≡ static_parameters written.now vars) }
{
    let mut statics = vars;
    let renewed = all_static(alloc, written, statics.as_slice())?;
    statics.renew(renewed);
    Ok(statics)
}

/// Parameters have the slots from 0 on; an unnamed one binds nothing.
fn parameters(scope: &mut Scope, state: &mut State, params: &[Param]) -> Result<(), AllocError>
    ensures { OnOk result (resolution scope.new state.new
        ≡ parameters params.now scope.old state.old) }
{
    for param in params {
        match param {
            Param::Name(name) => bind(scope, state, name)?,
            Param::Typed(name, _) => bind(scope, state, name)?,
            Param::Unnamed(_, _) => push_unnamed(scope)?,
        }
    }
    Ok(())
}

/// The signature of a method.
fn method_signature<J: Judge>(
    alloc: Global,
    judge: &J,
    known: &Known,
    types: u32,
    head: &Head,
) -> Result<Signed, AllocError>
    ensures { IfOk result (λ g. g ≡ method_signature (J.tests judge.now) known.now types head.now) }
{
    let decls = declared_at(known, types);
    let read = signature(alloc, &decls, head.params.as_slice(), head.vars.as_slice())?;
    let signed = judge_signature(alloc, judge, read)?;
    Ok(signed)
}

pub(crate) fn judge_signature<J: Judge>(
    alloc: Global,
    judge: &J,
    read: SignatureRead,
) -> Result<Signed, AllocError>
    ensures { IfOk result (λ g. g ≡ judge_signature (J.tests judge.now) (signature_as read)) }
{
    let SignatureRead {
        vars,
        types,
        reading,
    } = read;
    let bounds = adopt_bounds(
        alloc,
        judge,
        reading.places.as_slice(),
        reading.vars.as_slice(),
    )?;
    let sig = Written {
        vars: SharedList::from_vec(alloc, bounds)?,
        parts: types,
    };
    let refusal = signature_refusal(alloc, judge, &reading, &sig)?;
    Ok(Signed {
        vars,
        sig,
        fault: reading.fault,
        refusal,
    })
}

/// The function of a method's name.
fn function_at(alloc: Global, known: &Known, types: u32, callee: &Callee) -> Option<u32>
    ensures { result ≡ function_of known.now callee.now (bare_scope types) }
{
    let scope = bare_scope(alloc, types);
    function_of(known, callee, &scope)
}

/// The faults at the name of a method: its function, its signature, and its number.
fn check_name(
    known: &Known,
    state: &mut State,
    callee: &Callee,
    function: Option<u32>,
    signed: &Signed,
)
    ensures { state.new
        ≡ check_name known.now (place_of_callee callee.now) callee.now function signed.now state.old }
{
    let at = place_of_callee(callee);
    note_if(state, at, if_unknown(function));
    note_if(state, at, may_define(known, callee));
    merge_fault(state, signed.fault);
    note_if(state, at, signed.refusal);
    let refusal = too_many(state);
    note_if(state, at, refusal);
}

/// What a body sees.
fn open_body(
    alloc: Global,
    state: &mut State,
    function: u32,
    types: u32,
    signed: Signed,
    params: &[Param],
) -> Result<Opening, AllocError>
    ensures { Resolves result state.new (open_body function types signed params.now state.old) }
{
    let Signed { vars, sig, .. } = signed;
    let statics = static_parameters(alloc, &sig, vars)?;
    let mut scope = Scope {
        slots: Slots::new(alloc),
        statics,
        types,
    };
    parameters(&mut scope, state, params)?;
    Ok(Opening {
        function,
        sig,
        scope,
    })
}

/// A method up to its body.
#[tactic(auto, unfolding(crate::specs::Expressions::open_method))]
pub fn open_method<J: Judge>(
    alloc: Global,
    judge: &J,
    known: &Known,
    types: u32,
    state: &mut State,
    head: &Head,
) -> Result<Opening, AllocError>
    ensures { Resolves result state.new
        (open_method (J.tests judge.now) known.now head.now types state.old) }
{
    let function = function_at(alloc, known, types, &head.callee);
    let signed = method_signature(alloc, judge, known, types, head)?;
    check_name(known, state, &head.callee, function, &signed);
    let number = defined_function(function);
    let opening = open_body(alloc, state, number, types, signed, head.params.as_slice())?;
    Ok(opening)
}

/// The next site, whose body is read after this: the methods in the body have greater numbers.
#[tactic(auto, unfolding(crate::specs::Expressions::reserve_site))]
pub fn reserve_site(state: &mut State, opening: &Opening) -> Result<u32, AllocError>
    ensures { Resolves result state.new (next_site opening.now state.old) }
{
    let number = to_u32(state.sites.len())?;
    state.sites.push(Site {
        function: opening.function,
        sig: opening.sig.copy()?,
        body: Code::Nothing,
    })?;
    Ok(number)
}

/// The body of a site.
#[tactic(auto, unfolding(crate::specs::Expressions::close_site))]
pub fn close_site(state: &mut State, number: u32, opening: Opening, code: Code)
    ensures { state.new ≡ close_site number opening code state.old }
{
    let Opening {
        function,
        sig,
        scope: _scope,
    } = opening;
    state.sites.set(
        number as usize,
        Site {
            function,
            sig,
            body: code,
        },
    );
}
