//! Steps of reading: what each adds to what is known.

ghost use Rattle.std.specs.Prelude.{◌≡◌, ◌++◌, ◌∷◌, [], length, drop, IfOk, OnOk, Bool};
ghost use Rattle.jl_written.specs.Answered.{number_of, comes_before, first_of};
ghost use Rattle.jl_written.specs.Reads.{typed, types, prepend_types, note, note_unknown, note_use, note_brought, fresh_variable, missing_arguments, note_place, swap};

use crate::fault::{Fault, StaticKind};
use crate::names::to_u32;
use crate::reading::{Place, Reading, Swap};
use jl_model::rows::Row;
use jl_model::ty::{Bound, Ty};
use std::alloc::{AllocError, Global};

/// The number of a fault in the table of static faults.
fn number_of(kind: StaticKind) -> u8
    ensures { result ≡ number_of kind }
{
    match kind {
        StaticKind::UnknownName => 1,
        StaticKind::UnknownFunction => 2,
        StaticKind::UnknownType => 3,
        StaticKind::Rebound => 4,
        StaticKind::DuplicateType
        | StaticKind::WrongParameterCount
        | StaticKind::SuperNotAbstract
        | StaticKind::VariablePlace
        | StaticKind::TypeLimit
        | StaticKind::BoundsCrossed
        | StaticKind::BoundBroken
        | StaticKind::TooMany
        | StaticKind::DuplicateField => 5,
        StaticKind::UnusedVariable | StaticKind::TooManyParameters => 6,
        StaticKind::TooManySites => 7,
        StaticKind::StaticParameterUse => 8,
        StaticKind::NameClash => 9,
        StaticKind::TooManyArguments => 10,
        StaticKind::BadType => 11,
    }
}

fn comes_before(fault: Fault, other: Fault) -> bool
    ensures { result ≡ comes_before fault other }
{
    fault.at < other.at || (fault.at == other.at && number_of(fault.kind) < number_of(other.kind))
}

/// The first of a fault that stands already, if one does, and a further one.
pub fn first_of(known: Option<Fault>, fault: Fault) -> Option<Fault>
    ensures { result ≡ first_of known fault }
{
    match known {
        None => Some(fault),
        Some(other) => {
            if comes_before(fault, other) {
                Some(fault)
            } else {
                Some(other)
            }
        }
    }
}

/// A fault stands at this place.
pub(crate) fn note(state: &mut Reading, at: u32, kind: StaticKind)
    ensures { state.new ≡ note at kind state.old }
{
    state.fault = first_of(state.fault, Fault { at, kind });
}

/// A name that means no type.
pub(crate) fn note_unknown(state: &mut Reading, at: u32) -> Ty
    ensures { typed result state.new ≡ note_unknown at state.old }
{
    note(state, at, StaticKind::UnknownType);
    state.unknown = true;
    state.unclear = true;
    Ty::Any
}

/// A variable that stands at this place, whether it may or not.
pub(crate) fn note_use(state: &mut Reading, at: u32, usable: bool)
    ensures { state.new ≡ note_use at usable state.old }
{
    if !usable {
        note(state, at, StaticKind::StaticParameterUse);
    }
}

/// A variable is brought at a place that is inside an argument of a nominal type, or not.
pub(crate) fn note_brought(state: &mut Reading, inside: bool)
    ensures { state.new ≡ note_brought inside state.old }
{
    state.misplaced = state.misplaced || inside;
}

/// A variable without a name.
pub(crate) fn fresh_variable(
    state: &mut Reading,
    bound: Bound,
    inside: bool,
) -> Result<Ty, AllocError>
    ensures { IfOk result (λ t. typed t state.new ≡ fresh_variable bound inside state.old) }
{
    let number = to_u32(state.vars.len())?;
    note_brought(state, inside);
    state.vars.push(bound)?;
    Ok(Ty::Var(number))
}

/// An equal bound, whose types are shared.
pub(crate) fn copy_bound(bound: &Bound) -> Result<Bound, AllocError>
    ensures { IfOk result (λ b. b ≡ bound.now) }
{
    Ok(Bound {
        low: bound.low.copy()?,
        high: bound.high.copy()?,
    })
}

/// Equal bounds, whose types are shared.
pub(crate) fn copy_bounds(alloc: Global, vars: &[Bound]) -> Result<Vec<Bound>, AllocError>
    ensures { IfOk result (λ bs. bs.items ≡ vars.now) }
{
    let mut bounds = Vec::with_capacity(alloc, vars.len())?;
    for var in vars {
        bounds.push(copy_bound(var)?)?;
    }
    Ok(bounds)
}

/// The arguments that are missing, behind those that are written.
pub(crate) fn missing_arguments(
    state: &mut Reading,
    tys: &mut Row<Ty>,
    bounds: &[Bound],
    inside: bool,
) -> Result<(), AllocError>
    ensures { OnOk result (types tys.new state.new
        ≡ prepend_types tys.old (missing_arguments bounds.now inside state.old)) }
{
    for bound in bounds {
        let bound = copy_bound(bound)?;
        let ty = fresh_variable(state, bound, inside)?;
        tys.push(ty)?;
    }
    Ok(())
}

/// An argument that is a variable takes part in the step for the declared bounds.
pub(crate) fn note_place(state: &mut Reading, bounds: &[Bound], ty: &Ty) -> Result<(), AllocError>
    ensures { OnOk result (state.new ≡ note_place bounds.now ty.now state.old) }
{
    if let [bound, ..] = bounds {
        if let Ty::Var(var) = ty {
            let high = bound.high.copy()?;
            state.places.push(Place { var: *var, high })?;
        }
    }
    Ok(())
}

/// The same place of a declared bound, whose type is shared.
pub(crate) fn copy_place(place: &Place) -> Result<Place, AllocError>
    ensures { IfOk result (λ p. p ≡ place.now) }
{
    Ok(Place {
        var: place.var,
        high: place.high.copy()?,
    })
}

/// In the text, the variables that were read from `start` to `middle` come after those that were read since.
pub(crate) fn swap(state: &mut Reading, start: usize, middle: usize) -> Result<(), AllocError>
    ensures { OnOk result (state.new ≡ swap start middle state.old) }
{
    let stop = state.vars.len();
    if start < middle && middle < stop {
        state.swaps.push(Swap {
            start: to_u32(start)?,
            middle: to_u32(middle)?,
            stop: to_u32(stop)?,
        })?;
    }
    Ok(())
}
