//! What the workers of a run share beside their jobs.

ghost use Rattle.std.specs.Prelude.{◌≡◌};

use jl_book::Book;
use jl_cache::Cache;
use jl_sig::Ready;
use jl_world::Naming;
use std::alloc::Global;
use std::sync::Mutex;

/// The book of a run, which has a lock, and the words and rows, which have none. Nobody holds the lock while a machine runs.
#[derive(Drop)]
pub struct Shared<'p, N: Naming> {
    pub(crate) alloc: Global,
    pub(crate) ready: &'p Ready,
    pub(crate) fuel: u64,
    pub(crate) cache: Cache<N>,
    pub(crate) book: Mutex<Book<N>>,
    pub(crate) ghost program_is: { ready.now ≡ N.about.program.value },
    pub(crate) ghost fuel_is: { fuel ≡ N.about.fuel },
}
