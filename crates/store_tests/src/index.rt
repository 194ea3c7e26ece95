//! Which changes the index says touch a key, as they are made.

ghost use Rattle.std.specs.Prelude.{◌≡◌, ◌<◌, ◌++◌, ◌∷◌, [], List, OnOk, length};
ghost use Rattle.jl_calculus.specs.declared.history.Event.{Event};
ghost use Rattle.jl_calculus.specs.declared.history.Event.TheVariants as E;
ghost use Rattle.jl_model.specs.declared.limits.TheConstants.{MOST_WORLDS};
ghost use Rattle.jl_calculus.specs.Legal.{IsKeyOf, IsRunning, MayCome};
ghost use Rattle.jl_calculus.specs.World.{world_of};
ghost use Rattle.jl_methods.specs.Indexed.{IsIndexOf, MayBeNoted};
ghost use Rattle.store_tests.specs.Crossed.{begun};

use crate::keys::make_key;
use crate::programs::{F, ready_crossed};
use jl_calculus::history::{Change, Def, Del, Event};
use jl_methods::Index;
use jl_model::ty::Key;
use jl_program::prelude::PRELUDE_SITES;
use jl_rows::has_method;
use jl_sig::Ready;
use std::alloc::{AllocError, Global};

fn push_all(told: &mut Vec<u32>, numbers: &[u32]) -> Result<(), AllocError> {
    for number in numbers {
        told.push(*number)?;
    }
    Ok(())
}

fn push_defs(told: &mut Vec<u32>, defs: &[Def]) -> Result<(), AllocError> {
    for def in defs {
        told.push(def.world)?;
        told.push(def.site)?;
    }
    Ok(())
}

fn push_dels(told: &mut Vec<u32>, dels: &[Del]) -> Result<(), AllocError> {
    for del in dels {
        told.push(del.world)?;
        told.push(del.place)?;
    }
    Ok(())
}

/// All that the index says of the function and of its first key, in a list.
fn told(alloc: Global, index: &Index) -> Result<Vec<u32>, AllocError> {
    let mut told = Vec::new(alloc);
    push_defs(&mut told, index.defs_of(F))?;
    push_dels(&mut told, index.dels_of(F))?;
    push_dels(&mut told, index.latest_dels_of(F))?;
    push_all(&mut told, index.keys_of(F))?;
    push_all(&mut told, index.rows_of(0))?;
    push_all(&mut told, index.sites_of(0))?;
    push_all(&mut told, index.places_of(0))?;
    push_all(&mut told, index.touched(Change::Def(PRELUDE_SITES)))?;
    push_all(&mut told, index.touched(Change::Del(0)))?;
    Ok(told)
}

/// Whether the index says what it said before.
fn is_told(alloc: Global, index: &Index, before: &[u32]) -> Result<bool, AllocError> {
    let after = told(alloc, index)?;
    Ok(after.as_slice() == before)
}

/// Notes an event. Where memory is refused it is seen whether the index is as before.
fn note(
    alloc: Global,
    ready: &Ready,
    index: &mut Index,
    event: &Event,
    differs: &mut bool,
) -> Result<(), AllocError>
    requires { MayBeNoted ready.now index.old event.now }
    ensures { OnOk result ((es : List Event) → IsIndexOf ready.now es index.old → MayCome ready.now es event.now → IsIndexOf ready.now (es ++ event.now ∷ []) index.new) }
{
    let before = told(alloc, index)?;
    match index.reserve(ready, event) {
        Ok(()) => {
            index.note(ready, event);
            Ok(())
        }
        Err(error) => {
            let is_same = is_told(alloc, index, before.as_slice());
            *differs = *differs || is_same == Ok(false);
            Err(error)
        }
    }
}

/// Notes a definition of a site by the root.
fn define(
    alloc: Global,
    ready: &Ready,
    index: &mut Index,
    site: u32,
    differs: &mut bool,
) -> Result<(), AllocError>
    requires site { site < length ready.now.sites }
    requires event { (es : List Event) × IsIndexOf ready.now es index.old × MayCome ready.now es (E.Def 0 site) }
    ensures { OnOk result ((es : List Event) → IsIndexOf ready.now es index.old → MayCome ready.now es (E.Def 0 site) → IsIndexOf ready.now (es ++ E.Def 0 site ∷ []) index.new) }
{
    let event = Event::Def { task: 0, site };
    let noted = note(alloc, ready, index, &event, differs);
    drop(event);
    noted
}

/// Notes a deletion at a place by the root, where a method stands there.
fn delete(
    alloc: Global,
    ready: &Ready,
    index: &mut Index,
    place: u32,
    differs: &mut bool,
) -> Result<bool, AllocError>
    requires place { place < length ready.now.deletes }
    requires event { (es : List Event) × IsIndexOf ready.now es index.old × IsRunning es 0 × (world_of es < MOST_WORLDS) }
{
    if !has_method(alloc, ready, index, place)? {
        return Ok(false);
    }
    let event = Event::Del { task: 0, place };
    let noted = note(alloc, ready, index, &event, differs);
    drop(event);
    noted?;
    Ok(true)
}

/// Names a key.
fn name(
    alloc: Global,
    ready: &Ready,
    index: &mut Index,
    key: Key,
    differs: &mut bool,
) -> Result<(), AllocError>
    requires key { IsKeyOf ready.now key }
    requires event { (es : List Event) × IsIndexOf ready.now es index.old × MayCome ready.now es (E.Key key) }
    ensures { OnOk result ((es : List Event) → IsIndexOf ready.now es index.old → MayCome ready.now es (E.Key key) → IsIndexOf ready.now (es ++ E.Key key ∷ []) index.new) }
{
    let event = Event::Key(key);
    let noted = note(alloc, ready, index, &event, differs);
    drop(event);
    noted
}

/// Begins the history.
fn begin(
    alloc: Global,
    ready: &Ready,
    index: &mut Index,
    differs: &mut bool,
) -> Result<(), AllocError>
    requires { IsIndexOf ready.now [] index.old }
    ensures { OnOk result (IsIndexOf ready.now begun index.new) }
{
    let event = Event::Begin(0);
    let noted = note(alloc, ready, index, &event, differs);
    drop(event);
    noted
}

/// The worlds whose changes touch the first key, each found from the one before, where there are at most five.
fn worlds_touching(alloc: Global, index: &Index) -> Result<Vec<u32>, AllocError> {
    let mut worlds = Vec::new(alloc);
    let mut last = 0;
    for _ in 0..6 {
        let Some(next) = index.next_touching(0, last) else {
            return Ok(worlds);
        };
        worlds.push(next)?;
        last = next;
    }
    Ok(worlds)
}

/// Whether these worlds are those whose changes touch the first key, and the last of them is found from any later world.
fn are_touching(alloc: Global, index: &Index, due: &[u32]) -> Result<bool, AllocError> {
    let worlds = worlds_touching(alloc, index)?;
    let last = due.last().copied().unwrap_or(0);
    Ok(worlds.as_slice() == due && index.last_touching(0, 65_535) == last)
}

/// Whether the one deletion of the function is that of this world.
fn is_deleted(index: &Index, world: u32) -> bool
    requires { 0 < world }
{
    let due = [Del { world, place: 0 }];
    index.dels_of(F) == due.as_slice()
        && index.latest_dels_of(F) == due.as_slice()
        && index.dels_up_to(F, world) == due.as_slice()
        && index.dels_up_to(F, world - 1).is_empty()
}

/// Whether the worlds that are due touch the key of two integers after the second and after the third definition of its function, when the
/// first site's definition is made once more, and then after a deletion of the third.
fn touching(
    alloc: Global,
    ready: &Ready,
    index: &mut Index,
    differs: &mut bool,
) -> Result<bool, AllocError>
    requires { IsIndexOf ready.now [] index.old }
{
    let first = PRELUDE_SITES;
    let program = ready.program();
    if program.sites.len() <= first as usize + 2 || program.deletes.len() == 0 {
        return Err(AllocError);
    }
    begin(alloc, ready, index, differs)?;
    define(alloc, ready, index, first, differs)?;
    let key = make_key(alloc, ready, F, 0, 2)?;
    name(alloc, ready, index, key, differs)?;
    define(alloc, ready, index, first + 1, differs)?;
    let are_two = are_touching(alloc, index, [15u32, 16].as_slice())?;
    define(alloc, ready, index, first + 2, differs)?;
    let are_three = are_touching(alloc, index, [15u32, 16, 17].as_slice())?;
    define(alloc, ready, index, first, differs)?;
    let are_four = are_touching(alloc, index, [15u32, 16, 17, 18].as_slice())?;
    let is_made = delete(alloc, ready, index, 0, differs)?;
    let are_five = are_touching(alloc, index, [15u32, 16, 17, 18, 19].as_slice())?;
    let is_deleted = is_deleted(index, 19);
    Ok(are_two && are_three && are_four && is_made && are_five && is_deleted)
}

/// The same for a new index.
fn touching_anew(alloc: Global, ready: &Ready, differs: &mut bool) -> Result<bool, AllocError> {
    let mut index = Index::new(alloc, ready)?;
    let told = touching(alloc, ready, &mut index, differs);
    drop(index);
    told
}

/// The same for the script. It is told whether a refusal changed the index.
pub(crate) fn touching_both(alloc: Global, differs: &mut bool) -> Result<bool, AllocError> {
    let ready = ready_crossed(alloc)?;
    let told = touching_anew(alloc, &ready, differs);
    drop(ready);
    told
}
