//! The lines that tell in which worlds what is chosen.

ghost use Rattle.std.specs.Prelude.{◌≡◌, ◌++◌, [], IfOk, OnOk};
ghost use Rattle.jl_work.specs.Told.{last_text, choice_text, span_line, spans_text};

use crate::place::append_world;
use jl_model::rows::Row;
use jl_model::ty::Bytes;
use jl_program::choice::Choice;
use jl_reflect::Span;
use std::alloc::{AllocError, Global};

/// The last world of a range, or `-` where it has no end.
fn append_last(out: &mut Row<u8>, last: Option<u32>) -> Result<(), AllocError>
    ensures { OnOk result (out.new ≡ out.old ++ last_text last) }
{
    match last {
        Some(world) => append_world(out, world),
        None => out.append(b"-"),
    }
}

/// A choice.
fn append_choice(out: &mut Row<u8>, choice: Choice) -> Result<(), AllocError>
    ensures { OnOk result (out.new ≡ out.old ++ choice_text choice) }
{
    match choice {
        Choice::None => out.append(b"none"),
        Choice::Method(d) => {
            out.append(b"definition ")?;
            append_world(out, d)
        }
        Choice::Ambiguous(a, b) => {
            out.append(b"ambiguous ")?;
            append_world(out, a)?;
            out.append(b" ")?;
            append_world(out, b)
        }
    }
}

/// The line of a range.
fn append_span(out: &mut Row<u8>, span: Span) -> Result<(), AllocError>
    ensures { OnOk result (out.new ≡ out.old ++ span_line span) }
{
    append_world(out, span.first)?;
    out.append(b" ")?;
    append_last(out, span.last)?;
    out.append(b" ")?;
    append_choice(out, span.choice)?;
    out.append(b"\n")
}

/// The lines of ranges.
pub(crate) fn spans_text(alloc: Global, spans: &[Span]) -> Result<Bytes, AllocError>
    ensures { IfOk result (λ text. text ≡ spans_text spans.now) }
{
    let mut out = Row::new(alloc);
    for span in spans {
        append_span(&mut out, *span)?;
    }
    out.into_shared(alloc)
}
