//! The same tests, whose answers about structs are kept.

ghost use Rattle.std.specs.Prelude.{◌≡◌, IfOk};
ghost use Rattle.jl_judge.specs.Kept.{AreAnswers};

use jl_model::ty::{Ty, Written};
use jl_resolve_forms::judge::Judge;
use jl_written::fault::StaticKind;
use jl_written::signatures::Order;
use std::alloc::{AllocError, Global};

/// The same tests, where for each type of a table is known whether its fields are too wide. A script may call a constructor
/// again and again, and the answer takes the time of a signature.
#[derive(Drop)]
pub struct Kept<'j, J: Judge> {
    pub judge: &'j J,
    wide: Vec<bool>,
    ghost told: { AreAnswers (J.tests judge.now).wide wide.items },
}

impl<'j, J: Judge> Kept<'j, J> {
    /// These tests, asked once for each of so many types.
    pub fn ask(alloc: Global, judge: &'j J, count: u32) -> Result<Kept<'j, J>, AllocError>
        ensures { IfOk result (λ kept. kept.judge.now ≡ judge.now) }
    {
        let mut wide = Vec::new(alloc);
        for number in 0..count {
            wide.push(judge.is_wide(alloc, number)?)?;
        }
        Ok(Kept { judge, wide })
    }
}

impl<J: Judge> Order for Kept<'_, J> {
    ghost below = { λ s. J.below s.judge.now };

    fn below(&self, alloc: Global, low: &Ty, high: &Ty) -> Result<bool, AllocError> {
        self.judge.below(alloc, low, high)
    }
}

impl<J: Judge> Judge for Kept<'_, J> {
    ghost tests = { λ s. J.tests s.judge.now };

    ghost same_order = { λ s. J.same_order s.judge.now };

    fn refuses_signature(
        &self,
        alloc: Global,
        written: &Written,
    ) -> Result<Option<StaticKind>, AllocError> {
        self.judge.refuses_signature(alloc, written)
    }

    fn refuses_body(
        &self,
        alloc: Global,
        written: &Written,
    ) -> Result<Option<StaticKind>, AllocError> {
        self.judge.refuses_body(alloc, written)
    }

    fn is_wide(&self, alloc: Global, number: u32) -> Result<bool, AllocError> {
        match self.wide.get(number as usize) {
            Some(wide) => Ok(*wide),
            None => self.judge.is_wide(alloc, number),
        }
    }
}
