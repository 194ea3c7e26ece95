//! Between which worlds a choice does not change.

ghost use Rattle.std.specs.Prelude.{ℕ, ◌≡◌, ◌≤◌, List, Some};
ghost use Rattle.jl_model.specs.declared.ty.Key.{Key};
ghost use Rattle.jl_program.specs.declared.tree.Program.{Program};
ghost use Rattle.jl_calculus.specs.declared.history.Event.{Event};
ghost use Rattle.jl_calculus.specs.Ranges.{Touches};
ghost use Rattle.jl_methods.specs.Links.{IsLast, IsNext};
ghost use Rattle.jl_program.specs.Prelude.{prelude_count};
ghost use Rattle.jl_rows.specs.Spans.{IsSpanAt};

use jl_program::prelude::FIRST_WORLD;

/// Worlds from a first one to a last one, or without an end.
#[derive(Clone, Copy)]
pub(crate) struct Span {
    pub(crate) first: u32,
    pub(crate) last: Option<u32>,
}

/// The worlds around one between the last change up to it that touches a key and the next one past it. Without a change after the prelude they begin in the
/// last world of the prelude.
pub(crate) fn span_between(last: u32, next: Option<u32>) -> Span
    requires { next ≡ Some 0 → ⊥ }
    ensures { (P : Program) (es : List Event) (k : Key) (w : ℕ) → prelude_count ≤ w → IsLast (λ d. Touches P es d k) w last → IsNext (λ d. Touches P es d k) w next → IsSpanAt (λ d. Touches P es d k) w result }
{
    let first = last.max(FIRST_WORLD);
    match next {
        Some(next) => Span {
            first,
            last: Some(next - 1),
        },
        None => Span { first, last: None },
    }
}
