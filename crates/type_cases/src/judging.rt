//! What the resolver's tests tell of types, signatures and types in bodies over a table.

use crate::halt::Halt;
use crate::heads::read_signature;
use crate::reading::read_type;
use crate::types::plain_scope;
use jl_judge::judge_over;
use jl_model::ty::Ty;
use jl_resolve_forms::judge::Judge;
use jl_types::Table;
use jl_written::fault::StaticKind;
use jl_written::signatures::Order;
use std::alloc::Global;

fn yes_or_no(answer: bool) -> &'static str {
    if answer { "yes" } else { "no" }
}

/// Whether a type is below one that is read.
fn below_read(alloc: Global, table: &Table, low: &Ty, text: &str) -> Result<&'static str, Halt> {
    let high = read_type(alloc, plain_scope(table), text)?;
    let answer = judge_over(table).below(alloc, low, &high);
    drop(high);
    Ok(yes_or_no(answer?))
}

/// Whether a type is below another, where both can be judged.
fn below(alloc: Global, table: &Table, text: &str) -> Result<&'static str, Halt> {
    let (low, high) = text.split_once(" | ").unwrap_or((text, ""));
    let low = read_type(alloc, plain_scope(table), low)?;
    let answer = below_read(alloc, table, &low, high);
    drop(low);
    answer
}

/// What refuses a signature.
fn of_signature(alloc: Global, table: &Table, text: &str) -> Result<Option<StaticKind>, Halt> {
    let written = read_signature(alloc, table, text)?;
    Ok(judge_over(table).refuses_signature(alloc, &written)?)
}

/// What refuses a type in a body.
fn of_body(alloc: Global, table: &Table, text: &str) -> Result<Option<StaticKind>, Halt> {
    let written = read_signature(alloc, table, text)?;
    Ok(judge_over(table).refuses_body(alloc, &written)?)
}

/// Whether the signature of the fields of a type is too large.
fn wide(alloc: Global, table: &Table, text: &str) -> Result<&'static str, Halt> {
    let number = text.parse::<u32>().unwrap_or(u32::MAX);
    Ok(yes_or_no(judge_over(table).is_wide(alloc, number)?))
}

fn refusal_text(alloc: Global, refusal: Option<StaticKind>) -> Result<String, Halt> {
    match refusal {
        Some(kind) => Ok(format!(in alloc; "{kind}")?),
        None => Ok(format!(in alloc; "nothing")?),
    }
}

/// The answer of a test.
pub fn judged(alloc: Global, table: &Table, text: &str) -> Result<String, Halt> {
    let (word, text) = text.split_once(' ').unwrap_or((text, ""));
    match word {
        "below" => Ok(format!(in alloc; "{}", below(alloc, table, text)?)?),
        "signature" => refusal_text(alloc, of_signature(alloc, table, text)?),
        "body" => refusal_text(alloc, of_body(alloc, table, text)?),
        "wide" => Ok(format!(in alloc; "{}", wide(alloc, table, text)?)?),
        _ => Err(Halt::Unread),
    }
}
