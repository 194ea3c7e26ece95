//! How a task ends, and what others learn of it.

ghost use Rattle.std.specs.Prelude.{◌≡◌, ◌↔◌, ◌++◌, ◌∷◌, [], ℕ, IfOk, IfErr, OnErr, Err, None, length};
ghost use Rattle.jl_calculus.specs.declared.history.Event.TheVariants.{Done};
ghost use Rattle.jl_calculus.specs.declared.history.FetchFault.TheVariants as F;
ghost use Rattle.jl_calculus.specs.declared.history.TraceItem.TheVariants.{Fetch};
ghost use Rattle.jl_calculus.specs.Past.{done_of, IsTrueOf};
ghost use Rattle.jl_calculus.specs.ValidHistory.{IsValidOutcome};
ghost use Rattle.jl_world.specs.Views.{Begins, met};
ghost use Rattle.jl_book.specs.Passes.{task_in, HasShare, IsRunOver};

use crate::book::Book;
use crate::pass::Pass;
use crate::{parts, seats};
use jl_cache::Cache;
use jl_calculus::history::{FetchFault, Outcome, Record};
use jl_model::shared::SharedNode;
use jl_world::Naming;

impl<N: Naming> Book<N> {
    /// Ends a task, which did what the record tells. The only refusal is out of memory; it hands both back.
    pub fn done(
        &mut self,
        cache: &Cache<N>,
        pass: Pass<N>,
        ended: Record,
    ) -> Result<(), (Pass<N>, Record)>
        requires run { IsRunOver N.about pass ended }
        ensures added { IfOk result (λ _. self.new ≡ self.old ++ Done (task_in pass) ended ∷ []) }
        ensures refused { IfErr result (λ back. (self.new ≡ self.old) × (back.0 ≡ met self.new pass) × (back.1 ≡ ended)) }
        ensures seen { Begins pass.seen self.old }
        ensures share { HasShare self.old pass }
    {
        let Pass { mut seat, task } = pass;
        let Ok(()) = self.events.reserve(1) else {
            cache.world().meet(&mut self.seat, &mut seat);
            return Err((Pass { seat, task }, ended));
        };
        let event = seats::end(cache.world(), &mut self.seat, seat, task, ended);
        self.ends[task as usize] = Some(self.events.len() as u32);
        self.events.push_reserved(event);
        self.unfinished -= 1;
        Ok(())
    }

    /// How a task ended. It is refused exactly where the history has no end of it, and else out of memory alone.
    pub fn fetch(
        &mut self,
        cache: &Cache<N>,
        pass: &mut Pass<N>,
        of: u32,
    ) -> Result<SharedNode<Outcome>, FetchFault>
        ensures item { IfOk result (λ outcome. (task : ℕ) → IsTrueOf N.about.program.value self.new task (Fetch of outcome (length self.new))) }
        ensures valid { IfOk result (λ outcome. IsValidOutcome N.about.program.value outcome) }
        ensures not_yet { result ≡ Err F.NotYet ↔ (done_of of self.old ≡ None) }
        ensures book { self.new ≡ self.old }
        ensures pass { pass.new ≡ met self.new pass.old }
        ensures seen { Begins pass.old.seen self.old }
        ensures share { HasShare self.old pass.old }
    {
        cache.world().meet(&mut self.seat, &mut pass.seat);
        let Some(ended) = parts::record_of(self.events.as_slice(), self.ends.as_slice(), of) else {
            return Err(FetchFault::NotYet);
        };
        let Ok(outcome) = ended.outcome.copy() else {
            return Err(FetchFault::Memory);
        };
        Ok(outcome)
    }
}
