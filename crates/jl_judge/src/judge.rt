//! The tests over a table.

ghost use Rattle.std.specs.Prelude.{◌≡◌};
ghost use Rattle.jl_model.specs.Refusals.{Declared};
ghost use Rattle.jl_judge.specs.Right.{IsRight};

use crate::known::names_declared;
use crate::order::is_below;
use crate::refusals::{body_refusal, is_too_wide, signature_refusal};
use jl_match::is_well_named;
use jl_model::ty::{Ty, Written};
use jl_resolve_forms::judge::Judge;
use jl_types::Table;
use jl_written::fault::StaticKind;
use jl_written::signatures::Order;
use std::alloc::{AllocError, Global};

/// The tests of written types and signatures over a table of valid declarations. A type that names what is not declared, that
/// has variables, or that is too large to be judged, is below nothing. Of a signature or a type in a body that names what is not declared
/// nothing is told, nor of a signature with a variable that is not its own. The only error is want of memory.
#[derive(Drop)]
pub struct TableJudge<'a> {
    pub table: &'a Table,
    pub ghost declared: { ∥ Declared table.now ∥₁ },
}

/// The tests over a table; that they are right is said by `law_judge_is_right`.
pub fn judge_over(table: &Table) -> TableJudge<'_>
    ensures { result.table.now ≡ table.now }
{
    table.valid();
    TableJudge { table }
}

impl Order for TableJudge<'_> {
    ghost use Rattle.jl_judge.specs.Tests.{below_test};

    ghost below = { λ s. below_test s.table.now s.declared };

    fn below(&self, alloc: Global, low: &Ty, high: &Ty) -> Result<bool, AllocError> {
        self.table.valid();
        is_below(alloc, self.table, low, high)
    }
}

impl Judge for TableJudge<'_> {
    ghost use Rattle.std.specs.Prelude.{refl};
    ghost use Rattle.jl_judge.specs.Tests.{all_tests};

    ghost tests = { λ s. all_tests s.table.now s.declared };

    ghost same_order = { λ _. refl };

    fn refuses_signature(
        &self,
        alloc: Global,
        written: &Written,
    ) -> Result<Option<StaticKind>, AllocError> {
        self.table.valid();
        if !is_well_named(self.table, written) {
            return Ok(None);
        }
        signature_refusal(alloc, self.table, written)
    }

    fn refuses_body(
        &self,
        alloc: Global,
        written: &Written,
    ) -> Result<Option<StaticKind>, AllocError> {
        self.table.valid();
        if !names_declared(alloc, self.table, written)? {
            return Ok(None);
        }
        body_refusal(alloc, self.table, written)
    }

    fn is_wide(&self, alloc: Global, number: u32) -> Result<bool, AllocError> {
        self.table.valid();
        if number >= self.table.count() {
            return Ok(false);
        }
        is_too_wide(alloc, self.table, number)
    }
}

/// That the tests over a table are right, for proofs that rest on it. It does nothing.
pub fn law_judge_is_right(judge: &TableJudge<'_>)
    ensures { IsRight judge.now.table.now (⟦<TableJudge<'static> as Judge>⟧.tests judge.now) }
{
    judge.table.valid();
}
