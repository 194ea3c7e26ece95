//! What a task of a run knows, and what it asks of the book.

ghost use Rattle.std.specs.Prelude.{◌≡◌, [], Some, IfOk, OnErr, MatchOption, Err, ◌<◌, ◌≤◌, length};
ghost use Rattle.jl_program.specs.declared.choice.Choice.TheVariants as C;
ghost use Rattle.jl_program.specs.declared.prelude.TheConstants.{PRELUDE_SITES};
ghost use Rattle.jl_calculus.specs.declared.history.DefineFault.TheVariants as D;
ghost use Rattle.jl_calculus.specs.declared.history.DeleteFault.TheVariants as L;
ghost use Rattle.jl_calculus.specs.declared.history.SpawnFault.TheVariants as S;
ghost use Rattle.jl_calculus.specs.declared.history.FetchFault.TheVariants as F;
ghost use Rattle.jl_calculus.specs.Learnt.{IsNamed};
ghost use Rattle.jl_calculus.specs.Legal.{IsKeyOf};
ghost use Rattle.jl_calculus.specs.Ranges.{keys_of};
ghost use Rattle.jl_calculus.specs.ValidHistory.{IsValidOutcome};
ghost use Rattle.jl_calculus.specs.ValidStart.{IsValidStart};
ghost use Rattle.jl_calculus.specs.World.{world_of};
ghost use Rattle.jl_task.specs.Knows.{Looked, Grew, Asked, Refused, IsRight, Defined, Deleted, IsMade, IsAbsentNow, WorldsFull, IsFull, Spawned, TasksFull, AreTasksFull, Fetched, IsNotDone};
ghost use Rattle.jl_task.specs.Worlds.{IsWorld};
ghost use Rattle.jl_runner.specs.Knowing.{knows_of, IsNew, IsBegun, IsOfDefinition, IsSiteOf, IsNumberOf};

use crate::keys::KeyNumbers;
use jl_book::{Book, KeyFault, Pass};
use jl_cache::{Cache, Found, Miss};
use jl_calculus::history::{DefineFault, DeleteFault, FetchFault, Outcome, Seen, SpawnFault};
use jl_model::shared::SharedNode;
use jl_model::ty::Key;
use jl_program::choice::Choice;
use jl_program::tree::Start;
use jl_sig::Ready;
use jl_world::{Naming, TaskView};
use std::alloc::{AllocError, Global};
use std::marker::Model;

/// What a contract sees of a task: what its seat knows, the least place of an item of its trace, and the site that it tells. No value of this
/// type is made.
pub struct Knowing {
    pub view: TaskView,
    pub first: u64,
    pub site: u64,
}

/// What a task knows: its pass, the numbers of the keys that it has met, how long the history was when it started, and the site of the
/// method that was chosen last.
#[derive(Drop)]
pub struct Known<N: Naming> {
    pass: Pass<N>,
    keys: KeyNumbers,
    first: u32,
    site: u32,
}

impl<N: Naming> Model for Known<N> {
    ghost use Rattle.jl_runner.specs.declared.known.Knowing.{Knowing};
    ghost use Rattle.jl_runner.specs.contracts.known.Knowing as k;
    ghost use Rattle.jl_runner.specs.Knowing.{IsKnowing};

    ghost Value = { Knowing };

    ghost coded = { k.the_row.coded };

    ghost view = { λ k. record { view = k.pass; first = k.first; site = k.site } };

    ghost invariant = { λ k. IsKnowing k.pass k.keys k.first };
}

/// The site of the definition that was chosen, if one was.
fn site_of<N: Naming>(book: &Book<N>, choice: Choice) -> u32
    requires { IsOfDefinition book.now choice }
    ensures { IsSiteOf book.now choice result }
{
    match choice {
        Choice::Method(definition) => book.site(definition),
        Choice::None => 0,
        Choice::Ambiguous(_, _) => 0,
    }
}

impl<N: Naming> Known<N> {
    /// What a task knows that starts now.
    pub(crate) fn begin(alloc: Global, pass: Pass<N>) -> Known<N>
        requires { IsBegun pass (length pass.seen) }
        ensures view { result.view ≡ pass }
        ensures first { result.first ≡ length pass.seen }
    {
        Known {
            first: pass.seen(),
            pass,
            keys: KeyNumbers::new(alloc),
            site: 0,
        }
    }

    /// How many events it has seen.
    pub(crate) fn seen(&self) -> u32
        ensures { result ≡ length self.now.view.seen }
    {
        self.pass.seen()
    }

    /// The site of the method that was chosen last.
    pub(crate) fn site(&self) -> u32
        ensures { result ≡ self.now.site }
    {
        self.site
    }

    /// Its pass.
    pub(crate) fn into_pass(self) -> Pass<N>
        ensures pass { result ≡ self.view }
        ensures begun { IsBegun result self.first }
    {
        let Known { pass, .. } = self;
        pass
    }

    /// Looks at the newest world. It takes no lock.
    pub(crate) fn look(&mut self, cache: &Cache<N>) -> Seen
        ensures { Looked (knows_of N.about self.old) (knows_of N.about self.new) result.world result.length }
    {
        self.pass.look(cache)
    }

    /// The number of a key that it has met. It takes no lock.
    pub(crate) fn number_of(&self, key: &Key) -> Option<u32>
        ensures { MatchOption result (Unit {0}) (λ number. IsNamed self.now.view.seen number key.now) }
    {
        self.keys.find(key)
    }

    /// Searches the rows of a key. Where one covers the world, its site is the one that is told, for whatever definition. It takes no
    /// lock.
    pub(crate) fn find(
        &mut self,
        cache: &Cache<N>,
        key: &Key,
        number: u32,
        world: u32,
    ) -> Option<Miss<N>>
        requires named { IsNamed self.old.view.seen number key.now }
        requires world { IsWorld world (world_of self.old.view.seen) }
        ensures asked { Asked (knows_of N.about self.old) (knows_of N.about self.new) }
        ensures found { MatchOption result (IsRight (knows_of N.about self.new) key.now.function key.now.types world (C.Method world)) (λ miss. (miss.key ≡ number) × (miss.world ≡ world)) }
    {
        match self.pass.find(cache, number, world) {
            Found::Hit(site) => {
                self.site = site;
                None
            }
            Found::Miss(miss) => Some(miss),
        }
    }

    /// The choice for a key whose rows cover the world not, or did not when they were searched.
    pub(crate) fn resolve(
        &mut self,
        alloc: Global,
        ready: &Ready,
        cache: &Cache<N>,
        book: &mut Book<N>,
        key: &Key,
        miss: Miss<N>,
    ) -> Result<Choice, AllocError>
        requires program { ready.now ≡ N.about.program.value }
        requires named { IsNamed self.old.view.seen miss.key key.now }
        requires world { IsWorld miss.world (world_of self.old.view.seen) }
        ensures asked { Asked (knows_of N.about self.old) (knows_of N.about self.new) }
        ensures right { IfOk result (λ choice. IsRight (knows_of N.about self.new) key.now.function key.now.types miss.world choice) }
    {
        let resolved = book.resolve(alloc, ready, cache, &mut self.pass, miss)?;
        self.site = site_of(book, resolved.choice);
        Ok(resolved.choice)
    }

    /// The number of a key that it has not met, or none where the book has no place for it.
    fn learn(
        &mut self,
        alloc: Global,
        ready: &Ready,
        cache: &Cache<N>,
        book: &mut Book<N>,
        key: &Key,
    ) -> Result<Option<u32>, AllocError>
        requires program { ready.now ≡ N.about.program.value }
        requires key { IsKeyOf N.about.program.value key.now }
        ensures asked { Asked (knows_of N.about self.old) (knows_of N.about self.new) }
        ensures number { IfOk result (λ number. IsNumberOf N.about self.new.view.seen key.now number) }
    {
        match book.key(alloc, ready, cache, &mut self.pass, key) {
            Ok(number) => {
                self.keys.keep(key.copy()?, number)?;
                Ok(Some(number))
            }
            Err(KeyFault::KeysFull) => Ok(None),
            Err(KeyFault::Memory) => Err(AllocError),
        }
    }

    /// The choice for a key that the book has no place for.
    fn choose(
        &mut self,
        alloc: Global,
        ready: &Ready,
        cache: &Cache<N>,
        book: &mut Book<N>,
        key: &Key,
        world: u32,
    ) -> Result<Choice, AllocError>
        requires program { ready.now ≡ N.about.program.value }
        requires key { IsKeyOf N.about.program.value key.now }
        requires full { N.about.keys ≤ length (keys_of self.old.view.seen) }
        requires world { IsWorld world (world_of self.old.view.seen) }
        ensures asked { Asked (knows_of N.about self.old) (knows_of N.about self.new) }
        ensures right { IfOk result (λ choice. IsRight (knows_of N.about self.new) key.now.function key.now.types world choice) }
    {
        let choice = book.select(alloc, ready, cache, &mut self.pass, key, world)?;
        self.site = site_of(book, choice);
        Ok(choice)
    }

    /// The choice for a key that has this number: by its rows, or by the book where none of them covers the world.
    fn seek(
        &mut self,
        alloc: Global,
        ready: &Ready,
        cache: &Cache<N>,
        book: &mut Book<N>,
        key: &Key,
        number: u32,
        world: u32,
    ) -> Result<Choice, AllocError>
        requires program { ready.now ≡ N.about.program.value }
        requires named { IsNamed self.old.view.seen number key.now }
        requires world { IsWorld world (world_of self.old.view.seen) }
        ensures asked { Asked (knows_of N.about self.old) (knows_of N.about self.new) }
        ensures right { IfOk result (λ choice. IsRight (knows_of N.about self.new) key.now.function key.now.types world choice) }
    {
        match self.find(cache, key, number, world) {
            None => Ok(Choice::Method(world)),
            Some(miss) => self.resolve(alloc, ready, cache, book, key, miss),
        }
    }

    /// The choice for a key that it has not met: by its rows, where the book has a place for it.
    pub(crate) fn ask(
        &mut self,
        alloc: Global,
        ready: &Ready,
        cache: &Cache<N>,
        book: &mut Book<N>,
        key: &Key,
        world: u32,
    ) -> Result<Choice, AllocError>
        requires program { ready.now ≡ N.about.program.value }
        requires key { IsKeyOf N.about.program.value key.now }
        requires world { IsWorld world (world_of self.old.view.seen) }
        ensures asked { Asked (knows_of N.about self.old) (knows_of N.about self.new) }
        ensures right { IfOk result (λ choice. IsRight (knows_of N.about self.new) key.now.function key.now.types world choice) }
    {
        let number = self.learn(alloc, ready, cache, book, key)?;
        match number {
            None => self.choose(alloc, ready, cache, book, key, world),
            Some(number) => self.seek(alloc, ready, cache, book, key, number, world),
        }
    }

    /// Makes a definition of a site.
    pub(crate) fn define(
        &mut self,
        alloc: Global,
        ready: &Ready,
        cache: &Cache<N>,
        book: &mut Book<N>,
        site: u32,
    ) -> Result<u32, DefineFault>
        requires program { ready.now ≡ N.about.program.value }
        requires site { (PRELUDE_SITES ≤ site) × (site < length N.about.program.value.sites) }
        ensures grew { Grew (knows_of N.about self.old) (knows_of N.about self.new) }
        ensures defined { IfOk result (λ _. Defined (knows_of N.about self.old) (knows_of N.about self.new) site) }
        ensures world { IfOk result (λ w. IsMade (knows_of N.about self.new) w) }
        ensures refused { OnErr result (Refused (knows_of N.about self.old) (knows_of N.about self.new)) }
        ensures full { result ≡ Err D.WorldLimit → WorldsFull (knows_of N.about self.old) (knows_of N.about self.new) }
        ensures limit { IsFull (knows_of N.about self.old) → result ≡ Err D.WorldLimit }
    {
        book.facts();
        self.pass.facts();
        book.define(alloc, ready, cache, &mut self.pass, site)
    }

    /// Makes a deletion at a place.
    pub(crate) fn delete(
        &mut self,
        alloc: Global,
        ready: &Ready,
        cache: &Cache<N>,
        book: &mut Book<N>,
        place: u32,
    ) -> Result<u32, DeleteFault>
        requires program { ready.now ≡ N.about.program.value }
        requires place { place < length N.about.program.value.deletes }
        ensures grew { Grew (knows_of N.about self.old) (knows_of N.about self.new) }
        ensures deleted { IfOk result (λ _. Deleted (knows_of N.about self.old) (knows_of N.about self.new) place) }
        ensures world { IfOk result (λ w. IsMade (knows_of N.about self.new) w) }
        ensures refused { OnErr result (Refused (knows_of N.about self.old) (knows_of N.about self.new)) }
        ensures full { result ≡ Err L.WorldLimit → WorldsFull (knows_of N.about self.old) (knows_of N.about self.new) }
        ensures limit { IsFull (knows_of N.about self.old) → result ≡ Err L.WorldLimit }
        ensures absent { result ≡ Err L.NoSuchMethod → IsAbsentNow (knows_of N.about self.old) (knows_of N.about self.new) place }
    {
        book.facts();
        self.pass.facts();
        book.delete(alloc, ready, cache, &mut self.pass, place)
    }

    /// Spawns a task from a start, and answers its number and its pass.
    pub(crate) fn spawn(
        &mut self,
        alloc: Global,
        cache: &Cache<N>,
        book: &mut Book<N>,
        start: &Start,
    ) -> Result<(u32, Pass<N>), SpawnFault>
        requires valid { IsValidStart N.about.program.value start.now }
        requires world { IsWorld start.now.world (world_of self.old.view.seen) }
        ensures grew { Grew (knows_of N.about self.old) (knows_of N.about self.new) }
        ensures spawned { IfOk result (λ made. Spawned (knows_of N.about self.old) (knows_of N.about self.new) made.0 start.now) }
        ensures new { IfOk result (λ made. IsNew N.about made.1 (Some start.now)) }
        ensures refused { OnErr result (Refused (knows_of N.about self.old) (knows_of N.about self.new)) }
        ensures full { result ≡ Err S.TaskLimit → TasksFull (knows_of N.about self.old) (knows_of N.about self.new) }
        ensures limit { AreTasksFull (knows_of N.about self.old) → result ≡ Err S.TaskLimit }
    {
        book.facts();
        self.pass.facts();
        book.spawn(alloc, cache, &mut self.pass, start)
    }

    /// What became of a task.
    pub(crate) fn fetch(
        &mut self,
        cache: &Cache<N>,
        book: &mut Book<N>,
        task: u32,
    ) -> Result<SharedNode<Outcome>, FetchFault>
        ensures grew { Grew (knows_of N.about self.old) (knows_of N.about self.new) }
        ensures fetched { IfOk result (λ outcome. Fetched (knows_of N.about self.old) (knows_of N.about self.new) task outcome) }
        ensures valid { IfOk result (λ outcome. IsValidOutcome N.about.program.value outcome) }
        ensures refused { OnErr result (Asked (knows_of N.about self.old) (knows_of N.about self.new)) }
        ensures not_yet { result ≡ Err F.NotYet → IsNotDone (knows_of N.about self.new) task }
    {
        book.fetch(cache, &mut self.pass, task)
    }
}
