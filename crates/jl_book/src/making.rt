//! Definitions, deletions and spawns.

ghost use Rattle.std.specs.Prelude.{◌≡◌, ◌<◌, ◌≤◌, ◌↔◌, ◌++◌, ◌∷◌, [], ℕ, List, Some, IfOk, OnErr, Err, length};
ghost use Rattle.jl_model.specs.declared.limits.TheConstants.{MOST_WORLDS, MOST_TASKS};
ghost use Rattle.jl_program.specs.Prelude.{prelude_count};
ghost use Rattle.jl_calculus.specs.declared.history.DefineFault.TheVariants as D;
ghost use Rattle.jl_calculus.specs.declared.history.DeleteFault.TheVariants as L;
ghost use Rattle.jl_calculus.specs.declared.history.Event.{Event};
ghost use Rattle.jl_calculus.specs.declared.history.Event.TheVariants.{Def, Del, Spawn};
ghost use Rattle.jl_calculus.specs.declared.history.SpawnFault.TheVariants as S;
ghost use Rattle.jl_calculus.specs.Legal.{IsRunning, MayBeMade, MayCome};
ghost use Rattle.jl_calculus.specs.Past.{tasks_of};
ghost use Rattle.jl_calculus.specs.ValidStart.{IsValidStart};
ghost use Rattle.jl_calculus.specs.Words.{AreAllCut};
ghost use Rattle.jl_calculus.specs.World.{change_event, world_of, FindsMethod};
ghost use Rattle.jl_methods.specs.Indexed.{noted_in, IsIndexOf, HasRoomFor};
ghost use Rattle.jl_methods.specs.Room.{IsRoomy};
ghost use Rattle.jl_world.specs.Rule.{IsHistory};
ghost use Rattle.jl_world.specs.Views.{Begins, begun, met, noted};
ghost use Rattle.jl_rows.specs.Open.{with_cut};
ghost use Rattle.jl_book.specs.Passes.{task_in, HasShare};

use crate::book::Book;
use crate::pass::Pass;
use crate::{parts, seats};
use jl_cache::Cache;
use jl_calculus::history::{Change, DefineFault, DeleteFault, Event, SpawnFault};
use jl_methods::Index;
use jl_model::limits::{MOST_TASKS, MOST_WORLDS};
use jl_program::tree::Start;
use jl_rows::{cut_rows, has_method};
use jl_sig::Ready;
use jl_world::{BookSeat, Naming};
use std::alloc::{AllocError, Global};

/// Takes all the memory that a change needs, and gives its event.
fn reserve_change(
    ready: &Ready,
    index: &mut Index,
    events: &mut Vec<Event>,
    task: u32,
    change: Change,
) -> Result<Event, AllocError>
    requires { (es : List Event) × IsIndexOf ready.now es index.old × MayCome ready.now es (change_event task change) }
    ensures event { IfOk result (λ event. event ≡ change_event task change) }
    ensures room { IfOk result (λ event. HasRoomFor ready.now (change_event task change) index.new) }
    ensures place { IfOk result (λ event. IsRoomy events.new) }
    ensures noted { noted_in index.new ≡ noted_in index.old }
    ensures events { events.new.items ≡ events.old.items }
{
    let event = change.event(task);
    parts::reserve(ready, index, events, &event)?;
    Ok(event)
}

/// Cuts, at the present world, exactly the rows without an end of the keys that a change touches, ahead of it.
fn cut_touched<N: Naming>(index: &Index, cache: &Cache<N>, book: &mut BookSeat<N>, change: Change)
    requires index { IsIndexOf N.about.program.value book.old.events index.now }
    requires history { IsHistory N.about book.old.events }
    requires uncut { book.old.cut ≡ [] }
    ensures same { book.new ≡ with_cut book.new.cut book.old }
    ensures cut { AreAllCut N.about.program.value book.old.events change book.new.cut }
{
    cut_rows(index, cache, book, index.touched(change));
}

/// Takes all the memory that a spawn needs, and gives a copy of its start.
fn reserve_spawn(
    events: &mut Vec<Event>,
    ends: &mut Vec<Option<u32>>,
    start: &Start,
) -> Result<Start, AllocError>
    ensures start { IfOk result (λ copy. copy ≡ start.now) }
    ensures room { IfOk result (λ copy. IsRoomy events.new × IsRoomy ends.new) }
    ensures events { events.new.items ≡ events.old.items }
    ensures ends { ends.new.items ≡ ends.old.items }
{
    let copy = start.copy()?;
    events.reserve(1)?;
    ends.reserve(1)?;
    Ok(copy)
}

impl<N: Naming> Book<N> {
    /// Makes the next world by a change that may be made, and answers it. All memory is taken first; then exactly the rows without an
    /// end whose keys the change touches are cut at the present world, and one store makes the new one.
    fn make_world(
        &mut self,
        ready: &Ready,
        cache: &Cache<N>,
        pass: &mut Pass<N>,
        change: Change,
    ) -> Result<u32, AllocError>
        requires ready { ready.now ≡ N.about.program.value }
        requires running { IsRunning self.old (task_in pass.old) }
        requires change { MayBeMade N.about.program.value self.old change }
        requires room { world_of self.old < MOST_WORLDS }
        ensures added { IfOk result (λ world. self.new ≡ self.old ++ change_event (task_in pass.old) change ∷ []) }
        ensures world { IfOk result (λ world. world ≡ world_of self.new) }
        ensures pass { IfOk result (λ world. pass.new ≡ met self.new (noted (length self.old) (change_event (task_in pass.old) change) pass.old)) }
        ensures refused { OnErr result ((self.new ≡ self.old) × (pass.new ≡ pass.old)) }
    {
        let event = reserve_change(ready, &mut self.index, &mut self.events, pass.task, change)?;
        cut_touched(&self.index, cache, &mut self.seat, change);
        let words = cache.world();
        seats::publish(words, &mut self.seat, &mut pass.seat, pass.task, change);
        parts::add(ready, &mut self.index, &mut self.events, event);
        Ok(self.index.worlds() as u32)
    }

    /// Makes the next world by a definition of a site, and answers it. Exactly the rows without an end whose keys the definition
    /// touches are cut at the present world before. It is refused exactly where the present world is the last one, before out of memory.
    pub fn define(
        &mut self,
        alloc: Global,
        ready: &Ready,
        cache: &Cache<N>,
        pass: &mut Pass<N>,
        site: u32,
    ) -> Result<u32, DefineFault>
        requires ready { ready.now ≡ N.about.program.value }
        requires site { (prelude_count ≤ site) × (site < length N.about.program.value.sites) }
        ensures added { IfOk result (λ world. self.new ≡ self.old ++ Def (task_in pass.old) site ∷ []) }
        ensures world { IfOk result (λ world. world ≡ world_of self.new) }
        ensures pass { IfOk result (λ world. pass.new ≡ met self.new (noted (length self.old) (Def (task_in pass.old) site) pass.old)) }
        ensures full { result ≡ Err D.WorldLimit ↔ (world_of self.old ≡ MOST_WORLDS) }
        ensures refused { OnErr result ((self.new ≡ self.old) × (pass.new ≡ met self.new pass.old)) }
        ensures seen { Begins pass.old.seen self.old }
        ensures share { HasShare self.old pass.old }
    {
        cache.world().meet(&mut self.seat, &mut pass.seat);
        if self.index.worlds() >= MOST_WORLDS {
            return Err(DefineFault::WorldLimit);
        }
        let Ok(world) = self.make_world(ready, cache, pass, Change::Def(site)) else {
            return Err(DefineFault::Memory);
        };
        Ok(world)
    }

    /// Makes the next world by a deletion at a place, and answers it. Exactly the rows without an end whose keys the deletion touches
    /// are cut at the present world before. It is refused exactly where the present world is the last one, and then exactly where no
    /// method of the place's function and signature stands in it. Out of memory comes after the first, and may come in place of the
    /// second, whose test takes memory.
    pub fn delete(
        &mut self,
        alloc: Global,
        ready: &Ready,
        cache: &Cache<N>,
        pass: &mut Pass<N>,
        place: u32,
    ) -> Result<u32, DeleteFault>
        requires ready { ready.now ≡ N.about.program.value }
        requires place { place < length N.about.program.value.deletes }
        ensures added { IfOk result (λ world. self.new ≡ self.old ++ Del (task_in pass.old) place ∷ []) }
        ensures world { IfOk result (λ world. world ≡ world_of self.new) }
        ensures pass { IfOk result (λ world. pass.new ≡ met self.new (noted (length self.old) (Del (task_in pass.old) place) pass.old)) }
        ensures full { result ≡ Err L.WorldLimit ↔ (world_of self.old ≡ MOST_WORLDS) }
        ensures absent { result ≡ Err L.NoSuchMethod → (world_of self.old < MOST_WORLDS) × (FindsMethod N.about.program.value self.old place → ⊥) }
        ensures found { IfOk result (λ world. FindsMethod N.about.program.value self.old place) }
        ensures refused { OnErr result ((self.new ≡ self.old) × (pass.new ≡ met self.new pass.old)) }
        ensures seen { Begins pass.old.seen self.old }
        ensures share { HasShare self.old pass.old }
    {
        cache.world().meet(&mut self.seat, &mut pass.seat);
        if self.index.worlds() >= MOST_WORLDS {
            return Err(DeleteFault::WorldLimit);
        }
        let Ok(is_there) = has_method(alloc, ready, &self.index, place) else {
            return Err(DeleteFault::Memory);
        };
        if !is_there {
            return Err(DeleteFault::NoSuchMethod);
        }
        let Ok(world) = self.make_world(ready, cache, pass, Change::Del(place)) else {
            return Err(DeleteFault::Memory);
        };
        Ok(world)
    }

    /// Starts a task, and gives its number and its pass. It is refused exactly where no task more may be started, before out of memory.
    pub fn spawn(
        &mut self,
        alloc: Global,
        cache: &Cache<N>,
        pass: &mut Pass<N>,
        start: &Start,
    ) -> Result<(u32, Pass<N>), SpawnFault>
        requires valid { IsValidStart N.about.program.value start.now }
        requires world { (prelude_count ≤ start.now.world) × (start.now.world ≤ world_of pass.old.seen) }
        ensures number { IfOk result (λ made. made.0 ≡ tasks_of self.old) }
        ensures added { IfOk result (λ made. self.new ≡ self.old ++ Spawn (task_in pass.old) made.0 start.now ∷ []) }
        ensures child { IfOk result (λ made. made.1 ≡ begun made.0 (Some start.now) self.new) }
        ensures pass { IfOk result (λ made. pass.new ≡ met self.new (noted (length self.old) (Spawn (task_in pass.old) made.0 start.now) pass.old)) }
        ensures full { result ≡ Err S.TaskLimit ↔ (tasks_of self.old ≡ MOST_TASKS) }
        ensures refused { OnErr result ((self.new ≡ self.old) × (pass.new ≡ met self.new pass.old)) }
        ensures seen { Begins pass.old.seen self.old }
        ensures share { HasShare self.old pass.old }
    {
        cache.world().meet(&mut self.seat, &mut pass.seat);
        if self.ends.len() >= MOST_TASKS {
            return Err(SpawnFault::TaskLimit);
        }
        let Ok(copy) = reserve_spawn(&mut self.events, &mut self.ends, start) else {
            return Err(SpawnFault::Memory);
        };
        let child = self.ends.len() as u32;
        let (event, seat) = seats::spawn(
            cache.world(),
            &mut self.seat,
            &mut pass.seat,
            pass.task,
            child,
            copy,
        );
        self.events.push_reserved(event);
        self.ends.push_reserved(None);
        self.unfinished += 1;
        Ok((child, Pass { seat, task: child }))
    }
}
