//! The choice for a call in a world, from the sites and the places that apply to its key.

ghost use Rattle.std.specs.Prelude.{ℕ, ◌≡◌, ◌<◌, IfOk, List, Some, length, slice_get};
ghost use Rattle.std.specs.Bool.{Decides};
ghost use Rattle.jl_model.specs.declared.ty.Key.{Key};
ghost use Rattle.jl_program.specs.declared.tree.Delete.{Delete};
ghost use Rattle.jl_calculus.specs.declared.history.Change.TheVariants as Ch;
ghost use Rattle.jl_calculus.specs.declared.history.Event.{Event};
ghost use Rattle.jl_calculus.specs.Legal.{IsKeyOf};
ghost use Rattle.jl_calculus.specs.Ranges.{keys_of};
ghost use Rattle.jl_calculus.specs.World.{Selects, FindsMethod};
ghost use Rattle.jl_methods.specs.Indexed.{noted_in, IsIndex, IsIndexOf};
ghost use Rattle.jl_methods.specs.Links.{AreApplying};

use jl_methods::{Index, find_places, find_sites};
use jl_model::ty::Key;
use jl_program::choice::Choice;
use jl_sig::Ready;
use jl_subsig::{choose_standing, has_standing};
use std::alloc::{AllocError, Global};

/// The choice in a world for the calls to which these sites and these deletion places apply. It is made among the latest definition of each
/// site up to the world, by the latest deletion of each place, so that what is made again and again costs nothing.
fn choose_among(
    alloc: Global,
    ready: &Ready,
    index: &Index,
    sites: &[u32],
    places: &[u32],
    world: u32,
) -> Result<Choice, AllocError>
    requires index { IsIndex ready.now index.now }
    requires applying { (k : Key) × IsKeyOf ready.now k × AreApplying ready.now Ch.Def k sites.now × AreApplying ready.now Ch.Del k places.now }
    ensures { IfOk result (λ c. (es : List Event) (k : Key) → IsIndexOf ready.now es index.now → IsKeyOf ready.now k → AreApplying ready.now Ch.Def k sites.now → AreApplying ready.now Ch.Del k places.now → Selects ready.now es k.function k.types world c) }
{
    ready.valid();
    let defs = index.defs_among(alloc, sites, world)?;
    let dels = index.dels_among(alloc, places, world)?;
    let choice = choose_standing(alloc, ready, defs.as_slice(), dels.as_slice())?;
    Ok(choice)
}

/// The choice for a key of the history in a world. In every world the cost is in the sites that apply to the key, times the deletion places
/// that apply to it, however often these were reached.
pub fn choose_for_key(
    alloc: Global,
    ready: &Ready,
    index: &Index,
    key: u32,
    world: u32,
) -> Result<Choice, AllocError>
    requires key { key < length (noted_in index.now).keys }
    requires index { IsIndex ready.now index.now }
    ensures { IfOk result (λ c. (es : List Event) (k : Key) → IsIndexOf ready.now es index.now → slice_get (keys_of es) key ≡ Some k → Selects ready.now es k.function k.types world c) }
{
    let sites = index.sites_of(key);
    let places = index.places_of(key);
    let choice = choose_among(alloc, ready, index, sites, places, world)?;
    Ok(choice)
}

/// The choice for a call of a function with arguments of these types in a world, where the history has no key of them. Which sites and
/// places apply is asked anew. The cost is in the sites and the deletion places of the program.
pub fn select(
    alloc: Global,
    ready: &Ready,
    index: &Index,
    key: &Key,
    world: u32,
) -> Result<Choice, AllocError>
    requires key { IsKeyOf ready.now key.now }
    requires index { IsIndex ready.now index.now }
    ensures { IfOk result (λ c. (es : List Event) → IsIndexOf ready.now es index.now → Selects ready.now es key.now.function key.now.types world c) }
{
    let sites = find_sites(alloc, ready, key)?;
    let places = find_places(alloc, ready, key)?;
    let choice = choose_among(
        alloc,
        ready,
        index,
        sites.as_slice(),
        places.as_slice(),
        world,
    )?;
    Ok(choice)
}

/// The function of a deletion place.
fn function_at(ready: &Ready, place: u32) -> u32
    requires { place < length ready.now.deletes }
    ensures { (p : Delete) → slice_get ready.now.deletes place ≡ Some p → result ≡ p.function }
{
    ready.program().deletes.as_slice()[place as usize].function
}

/// Whether a method of the function and the signature of a deletion place stands in the newest world. The cost is in the definitions
/// and the deletion places of the function.
pub fn has_method(
    alloc: Global,
    ready: &Ready,
    index: &Index,
    place: u32,
) -> Result<bool, AllocError>
    requires place { place < length ready.now.deletes }
    requires index { IsIndex ready.now index.now }
    ensures { IfOk result (λ yes. (es : List Event) → IsIndexOf ready.now es index.now → Decides yes (FindsMethod ready.now es place)) }
{
    let function = function_at(ready, place);
    let defs = index.defs_of(function);
    let dels = index.latest_dels_of(function);
    let is_standing = has_standing(alloc, ready, place, defs, dels)?;
    Ok(is_standing)
}
