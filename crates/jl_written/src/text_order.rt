//! The variables of a signature, or of a type in a body, in the order of the text.

ghost use Rattle.std.specs.Prelude.{◌≡◌, map, slice_set, IfOk, OnOk};
ghost use Rattle.jl_written.specs.Reads.{typed, types};
ghost use Rattle.jl_written.specs.TextOrder.{move_place, move_places, text_places, number_in, renumber, renumber_bound, renumber_place, arrange, reorder, in_text_order, one_in_text_order};

use crate::names::to_u32;
use crate::notes::{copy_bound, copy_bounds};
use crate::reading::{Place, Reading, Swap};
use jl_model::rows::Row;
use jl_model::ty::{Bound, Ty, Tys};
use std::alloc::{AllocError, Global};

/// Where the variable at this place stands after a swap.
fn place_after(swap: &Swap, place: u32) -> u32
    ensures { result ≡ move_place swap.now place }
{
    if place < swap.start {
        return place;
    }
    if place < swap.middle {
        return swap.stop.saturating_sub(swap.middle - place);
    }
    if place < swap.stop {
        return place.saturating_sub(swap.middle.saturating_sub(swap.start));
    }
    place
}

/// The places of the variables after a swap, which concerns those from its start to its stop.
fn move_all(swap: &Swap, places: &mut Vec<u32>)
    ensures { places.new.items ≡ move_places swap.now 0 places.old.items }
{
    let stop = (swap.stop as usize).min(places.len());
    for at in swap.start as usize..stop {
        places[at] = place_after(swap, places[at]);
    }
}

/// The place in the text of each variable, in the order in which they were read.
fn find_places(alloc: Global, reading: &Reading) -> Result<Vec<u32>, AllocError>
    ensures { IfOk result (λ ps. ps.items ≡ text_places reading.now) }
{
    let mut places = Vec::with_capacity(alloc, reading.vars.len())?;
    for place in 0..reading.vars.len() {
        places.push(to_u32(place)?)?;
    }
    for swap in reading.swaps.as_slice() {
        move_all(swap, &mut places);
    }
    Ok(places)
}

/// The number of a variable. One that has no place here, as a static parameter, keeps its own.
fn number_in(places: &[u32], var: u32) -> u32
    ensures { result ≡ number_in places.now var }
{
    match places.get(var as usize) {
        None => var,
        Some(place) => *place,
    }
}

/// Each with the numbers that its variables have in the text.
#[cycle(renumber)]
#[tactic(auto, using(crate::proofs::OrderLemmas::puts))]
fn renumber_all(alloc: Global, parts: &[Ty], places: &[u32]) -> Result<Tys, AllocError>
    ensures { IfOk result (λ ts. ts ≡ map (renumber places.now) parts.now) }
{
    let mut tys = Row::new(alloc);
    for part in parts {
        tys.push(renumber(alloc, part, places)?)?;
    }
    tys.into_shared(alloc)
}

/// A type with the numbers that its variables have in the text.
#[cycle(renumber)]
#[tactic(auto, using(crate::proofs::OrderLemmas::puts))]
fn renumber(alloc: Global, ty: &Ty, places: &[u32]) -> Result<Ty, AllocError>
    ensures { IfOk result (λ t. t ≡ renumber places.now ty.now) }
{
    match ty {
        Ty::Any => Ok(Ty::Any),
        Ty::Union(members) => Ok(Ty::Union(renumber_all(alloc, members.as_slice(), places)?)),
        Ty::Tuple(parts) => Ok(Ty::Tuple(renumber_all(alloc, parts.as_slice(), places)?)),
        Ty::Nominal(name, arguments) => Ok(Ty::Nominal(
            *name,
            renumber_all(alloc, arguments.as_slice(), places)?,
        )),
        Ty::Var(var) => Ok(Ty::Var(number_in(places, *var))),
    }
}

fn renumber_bound(alloc: Global, bound: &Bound, places: &[u32]) -> Result<Bound, AllocError>
    ensures { IfOk result (λ b. b ≡ renumber_bound places.now bound.now) }
{
    Ok(Bound {
        low: renumber(alloc, &bound.low, places)?,
        high: renumber(alloc, &bound.high, places)?,
    })
}

fn set_bound(bounds: &mut Vec<Bound>, at: usize, bound: Bound)
    ensures { bounds.new.items ≡ slice_set bounds.old.items at bound }
{
    if at < bounds.len() {
        bounds[at] = bound;
    }
}

/// The bounds, each at the place of its variable.
fn arrange(alloc: Global, bounds: &[Bound], places: &[u32]) -> Result<Vec<Bound>, AllocError>
    ensures { IfOk result (λ bs. bs.items ≡ arrange places.now 0 bounds.now bounds.now) }
{
    let mut arranged = copy_bounds(alloc, bounds)?;
    for at in 0..bounds.len() {
        let bound = renumber_bound(alloc, &bounds[at], places)?;
        let place = number_in(places, to_u32(at)?);
        set_bound(&mut arranged, place as usize, bound);
    }
    Ok(arranged)
}

/// The same bounds as a row.
fn make_row(alloc: Global, bounds: &[Bound]) -> Result<Row<Bound>, AllocError>
    ensures { IfOk result (λ bs. bs ≡ bounds.now) }
{
    let mut row = Row::new(alloc);
    for bound in bounds {
        row.push(copy_bound(bound)?)?;
    }
    Ok(row)
}

/// The places of declared bounds, by the numbers that the variables have in the text.
fn renumber_places(alloc: Global, known: &[Place], places: &[u32]) -> Result<Row<Place>, AllocError>
    ensures { IfOk result (λ ps. ps ≡ map (renumber_place places.now) known.now) }
{
    let mut row = Row::new(alloc);
    for place in known {
        let high = place.high.copy()?;
        row.push(Place {
            var: number_in(places, place.var),
            high,
        })?;
    }
    Ok(row)
}

/// What is known of the variables, by the numbers that they have in the text.
fn reorder(alloc: Global, reading: &mut Reading, places: &[u32]) -> Result<(), AllocError>
    ensures { OnOk result (reading.new ≡ reorder places.now reading.old) }
{
    let bounds = arrange(alloc, reading.vars.as_slice(), places)?;
    let vars = make_row(alloc, bounds.as_slice())?;
    let known = renumber_places(alloc, reading.places.as_slice(), places)?;
    reading.vars = vars;
    reading.places = known;
    reading.swaps = Row::new(alloc);
    Ok(())
}

/// The types of a signature, with the numbers that their variables have in the text.
pub fn order_types(alloc: Global, reading: &mut Reading, tys: Tys) -> Result<Tys, AllocError>
    ensures { IfOk result (λ ts. types ts reading.new ≡ in_text_order (types tys reading.old)) }
{
    if reading.swaps.is_empty() {
        return Ok(tys);
    }
    let places = find_places(alloc, reading)?;
    let ordered = renumber_all(alloc, tys.as_slice(), places.as_slice())?;
    reorder(alloc, reading, places.as_slice())?;
    Ok(ordered)
}

/// A type in a body, with the numbers that its variables have in the text.
pub(crate) fn order_type(alloc: Global, reading: &mut Reading, ty: Ty) -> Result<Ty, AllocError>
    ensures { IfOk result (λ t. typed t reading.new ≡ one_in_text_order (typed ty reading.old)) }
{
    if reading.swaps.is_empty() {
        return Ok(ty);
    }
    let places = find_places(alloc, reading)?;
    let ordered = renumber(alloc, &ty, places.as_slice())?;
    reorder(alloc, reading, places.as_slice())?;
    Ok(ordered)
}
