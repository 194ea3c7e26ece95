//! The types of a signature, and types in a body.

ghost use Rattle.std.specs.Prelude.{◌≡◌, ◌+◌, [], OnOk, IfOk, Bool, false};
ghost use Rattle.jl_model.specs.declared.ty.Ty.{Ty};
ghost use Rattle.jl_written.specs.Reads.{typed, seen, no_reading, type_reads};
ghost use Rattle.jl_written.specs.Signatures.{adopt_bound, adopt_bounds, shifted, width_of, body_type, constructor_type};

use crate::notes::copy_bounds;
use crate::reading::{Place, Reading, Sight};
use crate::reads::{read_alone, read_arguments};
use crate::text_order::order_type;
use crate::vars::{Around, Statics, TypeVars};
use jl_model::rows::Row;
use jl_model::ty::{Bound, Ty};
use jl_names::decls::FirstDecls;
use jl_typeread::tree::{ArgText, TypeText};
use std::alloc::{AllocError, Global};

/// Nothing is read yet.
pub fn no_reading(alloc: Global) -> Reading
    ensures { result ≡ no_reading }
{
    Reading {
        vars: Row::new(alloc),
        places: Row::new(alloc),
        swaps: Row::new(alloc),
        fault: None,
        unknown: false,
        unclear: false,
        misplaced: false,
    }
}

/// A test of whether a type is below a bound, for the step for the declared bounds.
pub trait Order {
    ghost below: { Self → Ty → Ty → Bool };

    fn below(&self, alloc: Global, low: &Ty, high: &Ty) -> Result<bool, AllocError>
        ensures { IfOk result (λ b. b ≡ Self.below self.now low.now high.now) };
}

/// The bounds behind the step at one place.
fn adopt_bound<O: Order>(
    alloc: Global,
    order: &O,
    place: &Place,
    bounds: &mut Vec<Bound>,
) -> Result<(), AllocError>
    ensures { OnOk result (bounds.new.items
        ≡ adopt_bound (O.below order.now) place.now bounds.old.items) }
{
    let number = place.var as usize;
    if number >= bounds.len() {
        return Ok(());
    }
    if order.below(alloc, &place.high, &bounds[number].high)? {
        bounds[number] = Bound {
            low: bounds[number].low.copy()?,
            high: place.high.copy()?,
        };
    }
    Ok(())
}

/// The step for the declared bounds: at each place in text order, the declared upper bound becomes that of the variable
/// where it is below that.
pub fn adopt_bounds<O: Order>(
    alloc: Global,
    order: &O,
    places: &[Place],
    vars: &[Bound],
) -> Result<Vec<Bound>, AllocError>
    ensures { IfOk result (λ bs. bs.items ≡ adopt_bounds (O.below order.now) places.now vars.now) }
{
    let mut bounds = copy_bounds(alloc, vars)?;
    for place in places {
        adopt_bound(alloc, order, place, &mut bounds)?;
    }
    Ok(bounds)
}

/// What a type in a body means, in the order in which its variables are read, where the static parameters of the method have the
/// numbers from `width` on.
fn read_behind(
    alloc: Global,
    decls: &FirstDecls<'_>,
    statics: &TypeVars,
    width: usize,
    text: &TypeText,
) -> Result<(Ty, Reading), AllocError>
    ensures { IfOk result (λ r. typed r.0 r.1
        ≡ type_reads decls.now text.now (seen (shifted width statics.now) [] false) false no_reading) }
{
    let around = Around {
        decls,
        first: Statics::behind(statics, width)?,
    };
    let mut state = no_reading(alloc);
    let ty = read_alone(alloc, &around, &mut state, text)?;
    Ok((ty, state))
}

/// The same, where the static parameters have the numbers behind those of the type's own variables. The text is read again only
/// where it has both.
fn read_whole(
    alloc: Global,
    decls: &FirstDecls<'_>,
    statics: &TypeVars,
    text: &TypeText,
) -> Result<(Ty, Reading), AllocError>
    ensures { IfOk result (λ r. typed r.0 r.1
        ≡ type_reads decls.now text.now
        (seen (shifted (width_of decls.now statics.now text.now) statics.now) [] false) false no_reading) }
{
    let first = read_behind(alloc, decls, statics, 0, text)?;
    let width = first.1.vars.len();
    if width == 0 {
        return Ok(first);
    }
    if statics.len() == 0 {
        return Ok(first);
    }
    drop(first);
    let read = read_behind(alloc, decls, statics, width, text)?;
    Ok(read)
}

/// What a type in a body means, with its variables in text order, and what is known behind it. A static parameter of the
/// method has the number of the type's own variables, and its own after that.
pub fn body_type(
    alloc: Global,
    decls: &FirstDecls<'_>,
    statics: &TypeVars,
    text: &TypeText,
) -> Result<(Ty, Reading), AllocError>
    ensures { IfOk result (λ r. typed r.0 r.1 ≡ body_type decls.now statics.now text.now) }
{
    let (ty, mut state) = read_whole(alloc, decls, statics, text)?;
    let ty = order_type(alloc, &mut state, ty)?;
    Ok((ty, state))
}

/// The type of an explicit constructor, by the arguments in its braces, and what is known behind it.
pub fn constructor_type(
    alloc: Global,
    decls: &FirstDecls<'_>,
    number: u32,
    bounds: &[Bound],
    statics: &TypeVars,
    texts: &[ArgText],
) -> Result<(Ty, Reading), AllocError>
    ensures { IfOk result (λ r. typed r.0 r.1
        ≡ constructor_type decls.now number bounds.now statics.now texts.now) }
{
    let around = Around {
        decls,
        first: Statics::behind(statics, 0)?,
    };
    let mut vars = TypeVars::new(alloc);
    let mut state = no_reading(alloc);
    let tys = read_arguments(
        alloc,
        &around,
        &mut vars,
        Sight::All,
        &mut state,
        bounds,
        texts,
        false,
    )?;
    Ok((Ty::Nominal(number, tys), state))
}
