//! The numbers with which a run is set up.

ghost use Rattle.std.specs.Prelude.{◌≡◌, ◌≤◌};
ghost use Rattle.jl_model.specs.declared.limits.TheConstants.{MOST_THREADS, MOST_FUEL, MOST_CACHE_KEYS, MOST_CACHE_ROWS};
ghost use Rattle.jl_queue.specs.Setups.{IsCount, IsSetup};

use jl_model::limits::{MOST_CACHE_KEYS, MOST_CACHE_ROWS};

/// How many workers a run has, how many calls each of its tasks may make, and how many keys and rows its cache of choices has
/// room for.
#[derive(Clone, Copy, PartialEq, Eq, Debug)]
pub struct Setup {
    pub threads: u32,
    pub fuel: u64,
    pub keys: u32,
    pub rows: u32,
}

impl Setup {
    /// The setup of a run whose cache is as large as a cache may be.
    pub fn with_whole_cache(threads: u32, fuel: u64) -> Setup
        requires threads { IsCount MOST_THREADS threads }
        requires fuel { fuel ≤ MOST_FUEL }
        ensures allowed { IsSetup result }
        ensures given { (result.threads ≡ threads) × (result.fuel ≡ fuel) }
        ensures cache { (result.keys ≡ MOST_CACHE_KEYS) × (result.rows ≡ MOST_CACHE_ROWS) }
    {
        Setup {
            threads,
            fuel,
            keys: MOST_CACHE_KEYS as u32,
            rows: MOST_CACHE_ROWS as u32,
        }
    }
}
