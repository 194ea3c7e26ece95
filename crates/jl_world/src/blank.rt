//! Words that have no name yet.

ghost use Rattle.std.specs.Prelude.{◌≡◌, ◌*◌, ◌<◌, ◌≤◌, max, [], IfOk, slice_set, replicate};
ghost use Rattle.jl_model.specs.declared.limits.TheConstants.{MOST_FUEL, MOST_CACHE_KEYS, MOST_CACHE_ROWS};
ghost use Rattle.jl_world.specs.Opening.{first_words};
ghost use Rattle.jl_world.specs.Places.{HasPlaces, word_count};
ghost use Rattle.jl_world.specs.Rule.{first_view};

use crate::about::{About, WordRule};
use crate::view::View;
use atomic_table::{Seat, Table};
use jl_program::tree::Program;
use std::alloc::{AllocError, Global};
use std::snapshot::Snapshot;

pub(crate) type WordTable = Table<(), View, About, WordRule, Global>;

/// What the upper half of a word counts.
pub(crate) const UPPER: u64 = 4_294_967_296;
/// The world word at the start: world 14, and a length of 1.
const FIRST_WORD: u64 = 4_294_967_310;

/// The words of a run before it begins. They have no name yet: `World::open` gives them one.
#[derive(Drop)]
pub struct Blank {
    pub(crate) table: WordTable,
    pub(crate) seat: Seat<(), View>,
    pub(crate) fuel: u64,
    pub(crate) keys: u32,
    pub(crate) rows: u32,
    ghost places: { HasPlaces table.shared.key },
    ghost sized: { table.shared.table_id.words ≡ word_count table.shared.key },
    ghost counts: { (keys ≡ table.shared.key.keys) × (rows ≡ table.shared.key.rows) },
    ghost fueled: { fuel ≡ table.shared.key.fuel },
    ghost fits: { seat.table_id ≡ table.shared.table_id },
    ghost knows: { seat.me ≡ (first_view table.shared.key, []) },
}

// The words of a history that has begun.
fn make_words(alloc: Global, count: u32) -> Result<Vec<u64>, AllocError>
    requires { (0 < count) × (count ≤ MOST_CACHE_ROWS) }
    ensures { IfOk result (λ v. v.items ≡ first_words count) }
{
    let mut words = vec![in alloc; 0u64; 8 * count as usize]?;
    words[0] = FIRST_WORD;
    words[1] = 1;
    Ok(words)
}

impl Blank {
    ghost use Rattle.jl_world.specs.Names.{about_of};

    /// The words of a run of this program, in which each task may make as many calls as the fuel, with places for so many
    /// keys and rows of its cache. The only refusal is out of memory.
    pub fn make(
        alloc: Global,
        program: &Program,
        fuel: u64,
        keys: u32,
        rows: u32,
    ) -> Result<Blank, AllocError>
        requires fuel { fuel ≤ MOST_FUEL }
        requires keys { (0 < keys) × (keys ≤ MOST_CACHE_KEYS) }
        requires rows { (0 < rows) × (rows ≤ MOST_CACHE_ROWS) }
        ensures program { IfOk result (λ b. (about_of b).program.value ≡ program.now) }
        ensures fuel { IfOk result (λ b. (about_of b).fuel ≡ fuel) }
        ensures places { IfOk result (λ b. ((about_of b).keys ≡ keys) × ((about_of b).rows ≡ rows)) }
    {
        let about = About {
            program: Snapshot::of(program),
            fuel,
            keys: u64::from(keys),
            rows: u64::from(rows),
        };
        let words = make_words(alloc, keys.max(rows))?;
        let (table, seat) = WordTable::of_words(alloc, words.as_slice(), &about)?;
        Ok(Blank {
            table,
            seat,
            fuel,
            keys,
            rows,
        })
    }

    /// How many calls each task may make.
    pub fn fuel(&self) -> u64
        ensures { result ≡ (about_of self.now).fuel }
    {
        self.fuel
    }
}
