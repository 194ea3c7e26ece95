//! The choice for a call where the cache has no row.

ghost use Rattle.std.specs.Prelude.{◌≡◌, ◌<◌, ◌≤◌, ◌++◌, ◌∷◌, [], ℕ, IfOk, OnErr, length};
ghost use Rattle.jl_model.specs.declared.ty.Key.{Key};
ghost use Rattle.jl_program.specs.Prelude.{prelude_count};
ghost use Rattle.jl_cache.specs.Finds.{HasRangeEnd};
ghost use Rattle.jl_calculus.specs.declared.history.Event.TheVariants.{Fill};
ghost use Rattle.jl_calculus.specs.Kept.{IsKeptFor};
ghost use Rattle.jl_calculus.specs.Learnt.{IsNamed};
ghost use Rattle.jl_calculus.specs.Legal.{IsKeyOf};
ghost use Rattle.jl_calculus.specs.Ranges.{keys_of, rows_of};
ghost use Rattle.jl_calculus.specs.World.{world_of, Selects};
ghost use Rattle.jl_rows.specs.Plans.{places_of, with_row};
ghost use Rattle.jl_world.specs.Adds.{IsNextFill};
ghost use Rattle.jl_world.specs.Views.{Begins, met};
ghost use Rattle.jl_book.specs.Answers.{IsResolved, MayBeDone, made_by};
ghost use Rattle.jl_book.specs.Passes.{HasShare};

use crate::book::Book;
use crate::parts;
use crate::pass::Pass;
use crate::resolved::{Resolved, RowMade};
use jl_cache::{Cache, Miss};
use jl_calculus::history::Event;
use jl_model::ty::Key;
use jl_program::choice::Choice;
use jl_rows::{NewRow, RowPlan, plan_for_key, select};
use jl_sig::Ready;
use jl_world::Naming;
use std::alloc::{AllocError, Global};

impl<N: Naming> Book<N> {
    /// Links a row of a key, which is right for the key, and gives the row's number.
    fn link(
        &mut self,
        ready: &Ready,
        cache: &Cache<N>,
        pass: &mut Pass<N>,
        key: u32,
        row: NewRow,
    ) -> Result<u32, AllocError>
        requires ready { ready.now ≡ N.about.program.value }
        requires fill { IsNextFill N.about.program.value self.old key row.site row.first }
        requires last { HasRangeEnd N.about.program.value self.old key row.first row.last }
        requires free { length (rows_of self.old) < N.about.rows }
        ensures number { IfOk result (λ number. number ≡ length (rows_of self.old)) }
        ensures added { IfOk result (λ number. self.new ≡ self.old ++ Fill key row.site row.first ∷ []) }
        ensures pass { IfOk result (λ number. pass.new ≡ met self.new pass.old) }
        ensures refused { OnErr result ((self.new ≡ self.old) × (pass.new ≡ pass.old)) }
    {
        ready.valid();
        let NewRow { site, first, last } = row;
        let event = Event::Fill { key, site, first };
        parts::reserve(ready, &mut self.index, &mut self.events, &event)?;
        let Some(number) = cache.link(&mut self.seat, key, site, first, last) else {
            unreachable!();
        };
        parts::add(ready, &mut self.index, &mut self.events, event);
        cache.world().meet(&mut self.seat, &mut pass.seat);
        Ok(number)
    }

    /// Does what was planned about a row of a key, and tells what became of it.
    fn make_row(
        &mut self,
        ready: &Ready,
        cache: &Cache<N>,
        pass: &mut Pass<N>,
        key: u32,
        plan: RowPlan,
    ) -> Result<RowMade, AllocError>
        requires ready { ready.now ≡ N.about.program.value }
        requires met { pass.old.seen ≡ self.old }
        requires may { MayBeDone N.about self.old key plan }
        ensures row { IfOk result (λ row. row ≡ made_by self.old plan) }
        ensures added { IfOk result (λ row. self.new ≡ with_row self.old key plan) }
        ensures pass { IfOk result (λ row. pass.new ≡ met self.new pass.old) }
        ensures refused { OnErr result ((self.new ≡ self.old) × (pass.new ≡ pass.old)) }
    {
        match plan {
            RowPlan::NoMethod => Ok(RowMade::NoMethod),
            RowPlan::Covered => Ok(RowMade::Covered),
            RowPlan::RowsFull => Ok(RowMade::RowsFull),
            RowPlan::Link(row) => {
                let number = self.link(ready, cache, pass, key, row)?;
                Ok(RowMade::Linked(number))
            }
        }
    }

    /// The choice for a key in a world of which no row was found. A row that is right for it is linked exactly where the choice is a
    /// method, no row of the key covers the world, and one is free.
    pub fn resolve(
        &mut self,
        alloc: Global,
        ready: &Ready,
        cache: &Cache<N>,
        pass: &mut Pass<N>,
        miss: Miss<N>,
    ) -> Result<Resolved, AllocError>
        requires ready { ready.now ≡ N.about.program.value }
        requires key { miss.key < length (keys_of pass.old.seen) }
        requires world { (prelude_count ≤ miss.world) × (miss.world ≤ world_of pass.old.seen) }
        ensures resolved { IfOk result (λ resolved. IsResolved N.about self.old miss.key miss.world resolved self.new) }
        ensures choice { IfOk result (λ resolved. (key : Key) → IsNamed pass.old.seen miss.key key → Selects N.about.program.value self.new key.function key.types miss.world resolved.choice) }
        ensures kept { IfOk result (λ resolved. (key : Key) → IsNamed pass.old.seen miss.key key → IsKeptFor N.about.program.value self.new (places_of N.about) key.function key.types miss.world) }
        ensures refused { OnErr result (self.new ≡ self.old) }
        ensures pass { pass.new ≡ met self.new pass.old }
        ensures seen { Begins pass.old.seen self.old }
        ensures share { HasShare self.old pass.old }
    {
        let key = miss.key();
        cache.world().meet(&mut self.seat, &mut pass.seat);
        let plan = plan_for_key(
            alloc,
            ready,
            &self.index,
            cache,
            &mut self.seat,
            key,
            miss.world(),
        )?;
        let row = self.make_row(ready, cache, pass, key, plan.row)?;
        Ok(Resolved {
            choice: plan.choice,
            row,
        })
    }

    /// The choice for a call whose key the history does not have, where all places for keys are in use.
    pub fn select(
        &mut self,
        alloc: Global,
        ready: &Ready,
        cache: &Cache<N>,
        pass: &mut Pass<N>,
        key: &Key,
        world: u32,
    ) -> Result<Choice, AllocError>
        requires ready { ready.now ≡ N.about.program.value }
        requires key { IsKeyOf N.about.program.value key.now }
        requires full { N.about.keys ≤ length (keys_of pass.old.seen) }
        requires world { (prelude_count ≤ world) × (world ≤ world_of pass.old.seen) }
        ensures choice { IfOk result (λ choice. Selects N.about.program.value self.new key.now.function key.now.types world choice) }
        ensures kept { IfOk result (λ choice. IsKeptFor N.about.program.value self.new (places_of N.about) key.now.function key.now.types world) }
        ensures book { self.new ≡ self.old }
        ensures pass { pass.new ≡ met self.new pass.old }
        ensures seen { Begins pass.old.seen self.old }
        ensures share { HasShare self.old pass.old }
    {
        cache.world().meet(&mut self.seat, &mut pass.seat);
        let choice = select(alloc, ready, &self.index, key, world)?;
        Ok(choice)
    }
}
