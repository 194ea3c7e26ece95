//! The union-free forms of the components of a signature, where each variable's covariant places are given.

ghost use Rattle.std.specs.Prelude.{◌+◌, ◌≡◌, ◌<◌, ◌≤◌, min, IfOk, length, map};
ghost use Rattle.std.specs.List.{flat_map};
ghost use Rattle.jl_model.specs.Rows.{choices, forms};
ghost use Rattle.jl_sig.specs.Built.{placed};

use jl_model::limits::MOST_SIGNATURE_ROWS;
use jl_model::ty::{Ty, Tys};
use jl_types::expand::{push_copies, rows_of, tuples};
use std::alloc::{AllocError, Global};

/// What stands at the covariant places of a variable.
fn place_of<'a>(places: &'a [Tys], variable: u32) -> &'a [Ty]
    ensures { result.now ≡ placed places.now variable }
{
    let variable = variable as usize;
    if variable < places.len() {
        return places[variable].as_slice();
    }
    &[]
}

/// How many forms these have in sum, at most 257.
#[cycle(count)]
fn sum_of_forms(types: &[Ty], places: &[Tys]) -> u64
    ensures { result ≡ min (length (flat_map (forms (placed places.now)) types.now)) (MOST_SIGNATURE_ROWS + 1) }
{
    let mut sum: u64 = 0;
    for ty in types {
        sum = (sum + count_forms(ty, places)).min(MOST_SIGNATURE_ROWS + 1);
    }
    sum
}

/// How many lists take a form of each of these, at most 257.
#[cycle(count)]
pub fn product_of_forms(types: &[Ty], places: &[Tys]) -> u64
    ensures { result ≡ min (length (choices (map (forms (placed places.now)) types.now))) (MOST_SIGNATURE_ROWS + 1) }
{
    let mut count: u64 = 1;
    for ty in types {
        count = (count * count_forms(ty, places)).min(MOST_SIGNATURE_ROWS + 1);
    }
    count
}

/// How many forms a type has, at most 257.
#[cycle(count)]
fn count_forms(ty: &Ty, places: &[Tys]) -> u64
    ensures { result ≡ min (length (forms (placed places.now) ty.now)) (MOST_SIGNATURE_ROWS + 1) }
{
    match ty {
        Ty::Any => 1,
        Ty::Union(members) => sum_of_forms(members.as_slice(), places),
        Ty::Tuple(parts) => product_of_forms(parts.as_slice(), places),
        Ty::Nominal(_, _) => 1,
        Ty::Var(variable) => (place_of(places, *variable).len() as u64).min(
            MOST_SIGNATURE_ROWS + 1,
        ),
    }
}

/// How many lists take one of each of these lists, at most 257.
pub fn product_of_lengths(lists: &[Tys]) -> u64
    ensures { result ≡ min (length (choices lists.now)) (MOST_SIGNATURE_ROWS + 1) }
{
    let mut count: u64 = 1;
    for list in lists {
        count = (count * (list.len() as u64).min(MOST_SIGNATURE_ROWS + 1)).min(
            MOST_SIGNATURE_ROWS + 1,
        );
    }
    count
}

/// Every list that takes one of each of these lists.
#[tactic(auto, using(crate::proofs::ExpansionLemmas::choosing))]
pub fn choose(alloc: Global, lists: &[Tys]) -> Result<Vec<Tys>, AllocError>
    ensures { IfOk result (λ rows. rows.items ≡ choices lists.now) }
{
    match lists {
        [] => {
            let mut rows = Vec::new(alloc);
            rows.push(Tys::empty())?;
            Ok(rows)
        }
        [first, rest @ ..] => {
            let tails = choose(alloc, rest)?;
            rows_of(alloc, first.as_slice(), tails.as_slice())
        }
    }
}

/// The forms of each.
#[cycle(forms)]
fn forms_of_each(alloc: Global, types: &[Ty], places: &[Tys]) -> Result<Vec<Tys>, AllocError>
    ensures { IfOk result (λ fs. fs.items ≡ map (forms (placed places.now)) types.now) }
{
    let mut all = Vec::new(alloc);
    for ty in types {
        let forms = forms(alloc, ty, places)?;
        all.push(Tys::from_vec(alloc, forms)?)?;
    }
    Ok(all)
}

/// The forms of the members, one after another.
#[cycle(forms)]
fn forms_of_all(alloc: Global, types: &[Ty], places: &[Tys]) -> Result<Vec<Ty>, AllocError>
    ensures { IfOk result (λ fs. fs.items ≡ flat_map (forms (placed places.now)) types.now) }
{
    let mut all = Vec::new(alloc);
    for ty in types {
        let more = forms(alloc, ty, places)?;
        push_copies(&mut all, more.as_slice())?;
    }
    Ok(all)
}

/// Whether two of these types may have another number of forms than one each, so that a long list could be made beside an empty one.
/// In tuples in one another, each in the one around it, no level has two such parts, and so none is counted again at each level.
fn have_two_counts(types: &[Ty]) -> bool {
    let mut has_one = false;
    for ty in types {
        match ty {
            Ty::Any => {}
            Ty::Nominal(_, _) => {}
            _ => {
                if has_one {
                    return true;
                }
                has_one = true;
            }
        }
    }
    false
}

/// The forms of a type. No list of forms is made where one beside it in a tuple is empty.
#[cycle(forms)]
fn forms(alloc: Global, ty: &Ty, places: &[Tys]) -> Result<Vec<Ty>, AllocError>
    ensures { IfOk result (λ fs. fs.items ≡ forms (placed places.now) ty.now) }
{
    match ty {
        Ty::Union(members) => {
            let all = forms_of_all(alloc, members.as_slice(), places)?;
            Ok(all)
        }
        Ty::Tuple(parts) => {
            if have_two_counts(parts.as_slice())
                && product_of_forms(parts.as_slice(), places) == 0
            {
                return Ok(Vec::new(alloc));
            }
            let lists = forms_of_each(alloc, parts.as_slice(), places)?;
            let rows = choose(alloc, lists.as_slice())?;
            let all = tuples(alloc, rows.as_slice())?;
            Ok(all)
        }
        Ty::Var(variable) => {
            let mut place = Vec::new(alloc);
            push_copies(&mut place, place_of(places, *variable))?;
            Ok(place)
        }
        _ => {
            let mut one = Vec::new(alloc);
            one.push(ty.copy()?)?;
            Ok(one)
        }
    }
}

/// Every list that takes a form of each of these. There are at most 256.
pub fn components(alloc: Global, types: &[Ty], places: &[Tys]) -> Result<Vec<Tys>, AllocError>
    requires { length (choices (map (forms (placed places.now)) types.now)) ≤ MOST_SIGNATURE_ROWS }
    ensures { IfOk result (λ rows. rows.items ≡ choices (map (forms (placed places.now)) types.now)) }
{
    if product_of_forms(types, places) == 0 {
        return Ok(Vec::new(alloc));
    }
    let lists = forms_of_each(alloc, types, places)?;
    let rows = choose(alloc, lists.as_slice())?;
    Ok(rows)
}
