//! Which row a miss wants.

ghost use Rattle.std.specs.Prelude.{◌≡◌, ◌<◌, ◌≤◌, ℕ, IfOk, length};
ghost use Rattle.jl_model.specs.declared.ty.Key.{Key};
ghost use Rattle.jl_program.specs.declared.choice.Choice.TheVariants.{Method};
ghost use Rattle.jl_program.specs.Prelude.{prelude_count};
ghost use Rattle.jl_program.specs.Valid.{IsValid};
ghost use Rattle.jl_calculus.specs.Learnt.{IsNamed};
ghost use Rattle.jl_calculus.specs.Ranges.{keys_of};
ghost use Rattle.jl_calculus.specs.World.{world_of, Selects};
ghost use Rattle.jl_methods.specs.Indexed.{IsIndexOf};
ghost use Rattle.jl_world.specs.Rule.{IsHistory};
ghost use Rattle.jl_rows.specs.Plans.{IsMethodPlan, IsPlanFor};

use crate::choosing::choose_for_key;
use crate::rows::has_row_from;
use crate::span::span_between;
use jl_cache::Cache;
use jl_methods::Index;
use jl_program::choice::Choice;
use jl_sig::Ready;
use jl_world::{BookSeat, Naming};
use std::alloc::{AllocError, Global};

/// A row that may be linked: its site, its first world and its last world, where it has an end.
#[derive(Clone, Copy)]
pub struct NewRow {
    pub site: u32,
    pub first: u32,
    pub last: Option<u32>,
}

/// What is to be done about a row: nothing where no method is chosen, where a row covers the world, and where all rows are in
/// use; else this one is to be linked.
#[derive(Clone, Copy)]
pub enum RowPlan {
    NoMethod,
    Covered,
    RowsFull,
    Link(NewRow),
}

/// The choice for a key in a world, and what is to be done about a row.
#[derive(Clone, Copy)]
pub struct Plan {
    pub choice: Choice,
    pub row: RowPlan,
}

/// What is to be done about a row where a method is chosen.
fn plan_row<N: Naming>(
    index: &Index,
    cache: &Cache<N>,
    book: &mut BookSeat<N>,
    key: u32,
    world: u32,
    definition: u32,
) -> RowPlan
    requires index { IsIndexOf N.about.program.value book.old.events index.now }
    requires history { IsHistory N.about book.old.events }
    requires valid { IsValid N.about.program.value }
    requires key { key < length (keys_of book.old.events) }
    requires world { (prelude_count ≤ world) × (world ≤ world_of book.old.events) }
    requires choice { (k : Key) → IsNamed book.old.events key k → Selects N.about.program.value book.old.events k.function k.types world (Method definition) }
    ensures same { book.new ≡ book.old }
    ensures plan { (k : Key) → IsNamed book.old.events key k → IsMethodPlan N.about book.old.events key k world result }
{
    let last = index.last_touching(key, world);
    let next = index.next_touching(key, world);
    let span = span_between(last, next);
    if has_row_from(index, cache, book, key, span.first) {
        return RowPlan::Covered;
    }
    let words = cache.world();
    if words.linked(book) == words.rows() {
        return RowPlan::RowsFull;
    }
    let site = index.site(definition);
    RowPlan::Link(NewRow {
        site,
        first: span.first,
        last: span.last,
    })
}

/// The choice for a key of the history in a world, and what is to be done about a row: the first that holds of no method, covered
/// and all rows in use, and else the row that is right. It begins at the last world, at most the asked one, whose change touches the
/// key, and in the last world of the prelude where there is none past it; it ends just before the next change that touches the key
/// (Belyakova et al., OOPSLA 2020). The cost is that of `choose_for_key`, and in the key's rows.
pub fn plan_for_key<N: Naming>(
    alloc: Global,
    ready: &Ready,
    index: &Index,
    cache: &Cache<N>,
    book: &mut BookSeat<N>,
    key: u32,
    world: u32,
) -> Result<Plan, AllocError>
    requires program { ready.now ≡ N.about.program.value }
    requires index { IsIndexOf N.about.program.value book.old.events index.now }
    requires history { IsHistory N.about book.old.events }
    requires key { key < length (keys_of book.old.events) }
    requires world { (prelude_count ≤ world) × (world ≤ world_of book.old.events) }
    ensures same { book.new ≡ book.old }
    ensures plan { IfOk result (λ plan. IsPlanFor N.about book.old.events key world plan) }
{
    ready.valid();
    let choice = choose_for_key(alloc, ready, index, key, world)?;
    let row = match choice {
        Choice::Method(definition) => plan_row(index, cache, book, key, world, definition),
        Choice::None => RowPlan::NoMethod,
        Choice::Ambiguous(_, _) => RowPlan::NoMethod,
    };
    Ok(Plan { choice, row })
}
