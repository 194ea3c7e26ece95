//! What the resolver asks of the table of declarations.

ghost use Rattle.std.specs.Prelude.{◌≡◌, IfOk};
ghost use Rattle.jl_resolve_forms.specs.TypesIn.{Tests};

use jl_model::ty::Written;
use jl_written::fault::StaticKind;
use jl_written::signatures::Order;
use std::alloc::{AllocError, Global};

/// The tests of written types and signatures over the declarations of a script: one record says what all its calls answer.
pub trait Judge: Order {
    ghost tests: { Self → Tests };

    /// What refuses a signature.
    fn refuses_signature(
        &self,
        alloc: Global,
        written: &Written,
    ) -> Result<Option<StaticKind>, AllocError>
        ensures { IfOk result (λ k. k ≡ (tests self.now).signature written.now) };

    /// What refuses a type in a body.
    fn refuses_body(
        &self,
        alloc: Global,
        written: &Written,
    ) -> Result<Option<StaticKind>, AllocError>
        ensures { IfOk result (λ k. k ≡ (tests self.now).body written.now) };

    /// Whether the signature of a struct's fields is too large.
    fn is_wide(&self, alloc: Global, number: u32) -> Result<bool, AllocError>
        ensures { IfOk result (λ b. b ≡ (tests self.now).wide number) };

    ghost same_order: { (judge : Self) → Self.below judge ≡ (tests judge).below };
}
