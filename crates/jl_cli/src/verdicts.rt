//! What is told of a verdict.

ghost use Rattle.std.specs.Prelude.{◌≡◌, IfOk};
ghost use Rattle.jl_cli.specs.Verdicts.{cause_name, number_line, verdict_line, verdict_status};

use jl_causes::Cause;
use jl_model::rows::Row;
use jl_model::ty::Bytes;
use jl_replay::Verdict;
use jl_work::append_number;
use std::alloc::{AllocError, Global};

/// The name of a cause.
fn cause_name(cause: Cause) -> &'static str
    ensures { result.now ≡ cause_name cause }
{
    match cause {
        Cause::KeyOrder => "KeyOrder",
        Cause::KeyUnknown => "KeyUnknown",
        Cause::FillKey => "FillKey",
        Cause::FillWorld => "FillWorld",
        Cause::FillChoice => "FillChoice",
        Cause::NotRunning => "NotRunning",
        Cause::Site => "Site",
        Cause::NoDefinition => "NoDefinition",
        Cause::ChildOrder => "ChildOrder",
        Cause::Limit => "Limit",
        Cause::Unfinished => "Unfinished",
        Cause::ItemFalse => "ItemFalse",
        Cause::EventMissing => "EventMissing",
        Cause::RunDiffers => "RunDiffers",
    }
}

/// The line that tells a number and a word.
fn number_line(
    alloc: Global,
    before: &[u8],
    number: u32,
    between: &[u8],
    word: &[u8],
) -> Result<Bytes, AllocError>
    ensures { IfOk result (λ line. line ≡ number_line before.now number between.now word.now) }
{
    let mut out = Row::new(alloc);
    out.append(before)?;
    append_number(&mut out, u64::from(number))?;
    out.append(between)?;
    out.append(word)?;
    out.append(b"\n")?;
    out.into_shared(alloc)
}

/// The line that tells a verdict.
pub(crate) fn verdict_line(alloc: Global, verdict: Verdict) -> Result<Bytes, AllocError>
    ensures { IfOk result (λ line. line ≡ verdict_line verdict) }
{
    match verdict {
        Verdict::Legal(events) => number_line(alloc, b"legal: ", events, b" ", b"events"),
        Verdict::BadText(line) => number_line(alloc, b"illegal: line ", line, b": ", b"BadText"),
        Verdict::Illegal(event, cause) => {
            let name = cause_name(cause).as_bytes();
            number_line(alloc, b"illegal: event ", event, b": ", name)
        }
    }
}

/// The status of a verdict.
pub(crate) fn verdict_status(verdict: Verdict) -> u8
    ensures { result ≡ verdict_status verdict }
{
    match verdict {
        Verdict::Legal(_) => 0,
        Verdict::BadText(_) => 7,
        Verdict::Illegal(_, _) => 7,
    }
}
