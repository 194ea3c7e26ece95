//! Both sides at once: one thread defines while another searches.

ghost use Rattle.std.specs.Prelude.{◌≡◌, ◌<◌, ◌≤◌, length};
ghost use Rattle.jl_calculus.specs.Ranges.{keys_of};
ghost use Rattle.jl_world.specs.Names.{table_of, about_of};
ghost use Rattle.store_tests.specs.Programs.{late};
ghost use Rattle.store_tests.specs.Rounds.{IsRound};

use crate::programs::F;
use crate::readers::search_beside;
use crate::rounds::define_often;
use jl_cache::Cache;
use jl_calculus::history::{Change, Event};
use jl_model::shared::SharedList;
use jl_model::ty::Key;
use jl_world::{Blank, BookSeat, Naming, TaskSeat, World};
use std::thread::{Threads, join};

/// A history that defines `f` and names the key of its calls, and a second seat that has seen both.
fn begin<N: Naming>(blank: Blank) -> (World<N>, BookSeat<N>, TaskSeat<N>)
    requires name { (table_of blank ≡ N.table) × (about_of blank ≡ N.about) }
    requires program { (about_of blank).program.value ≡ late }
    ensures round { IsRound N.about.fuel 0 result.1 }
    ensures key { 0 < length (keys_of result.2.seen) }
{
    let (world, mut book, mut root) = World::<N>::open(blank);
    let mut second = world.child(&mut root);
    world.end(&mut book, root);
    world.publish(&mut book, 0, Change::Def(14));
    let key = Key {
        function: F,
        types: SharedList::empty(),
    };
    world.note(&mut book, &Event::Key(key));
    world.meet(&mut book, &mut second);
    (world, book, second)
}

/// Whether there were rows for so many rounds of definitions, and how many of so many searches beside them were wrong.
pub fn search_beside_definitions<N: Naming + Send + Sync, R: Threads + Sync>(
    rt: &R,
    blank: Blank,
    rounds: u32,
    searches: u32,
) -> (bool, u32)
    requires name { (table_of blank ≡ N.table) × (about_of blank ≡ N.about) }
    requires program { (about_of blank).program.value ≡ late }
    requires few { rounds ≤ 60000 }
{
    let (world, book, second) = begin::<N>(blank);
    let cache = Cache::over(world);
    join(
        rt,
        || define_often(&cache, book, rounds),
        || search_beside(&cache, second, searches),
    )
}
