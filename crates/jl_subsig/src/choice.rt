//! Which method a call runs, among those that apply to its arguments.

ghost use Rattle.std.specs.Prelude.{◌≡◌, ◌<◌, IsTrue, IfOk, List, map, false, [], length, get_or};
ghost use Rattle.std.specs.List.{list_all, list_any, find};
ghost use Rattle.std.specs.List.Sorted.{IsStrictlyIncreasing};
ghost use Rattle.jl_model.specs.declared.ty.Ty.{Ty};
ghost use Rattle.jl_model.specs.Ancestors.{table_of};
ghost use Rattle.jl_model.specs.Signature.{Applicable};
ghost use Rattle.jl_program.specs.Chooses.{Chooses};
ghost use Rattle.jl_sig.specs.Prepared.{IsSigOf};
ghost use Rattle.jl_sig.specs.SigParts.{written_of};
ghost use Rattle.jl_subsig.specs.Side.{Every};
ghost use Rattle.jl_subsig.specs.Decide.{methods_in, IsSound, IsCompared, AreCompared, ranks, sig_below, same_sig, strictly_below, candidates, below_others, most_specific, unordered, unordered_pair, choice_among};

use crate::best::{find_likely, precedes_all};
use crate::order::sig_sub;
use jl_model::shared::SharedList;
use jl_program::choice::Choice;
use jl_sig::Sig;
use jl_types::Table;
use std::alloc::{AllocError, Global};

/// A method that applies: the number of its definition, and its signature.
#[derive(Drop)]
pub struct Method<'a> {
    pub number: u32,
    pub sig: &'a Sig,
}

/// The number of a method's definition, and its place among the methods.
#[derive(Clone, Copy)]
struct Ranked {
    number: u32,
    place: usize,
}

/// Whether a signature is below that of each method.
fn compared_with(
    alloc: Global,
    table: &Table,
    sig: &Sig,
    methods: &[Method],
) -> Result<SharedList<bool>, AllocError>
    requires kept { IsSigOf table.now sig.now }
    requires methods { Every (IsSound table.now) methods.now }
    ensures { IfOk result (λ bs. IsCompared (table_of table.now) (written_of sig.now) (methods_in methods.now) bs) }
{
    let mut answers = Vec::new(alloc);
    for method in methods {
        answers.push(sig_sub(alloc, table, sig, method.sig)?)?;
    }
    let shared = SharedList::from_vec(alloc, answers)?;
    Ok(shared)
}

/// Whether the signature of each method is below that of each.
fn compared(
    alloc: Global,
    table: &Table,
    methods: &[Method],
) -> Result<Vec<SharedList<bool>>, AllocError>
    requires { Every (IsSound table.now) methods.now }
    ensures { IfOk result (λ bss. AreCompared (table_of table.now) (methods_in methods.now) bss.items) }
{
    let mut rows = Vec::new(alloc);
    for method in methods {
        rows.push(compared_with(alloc, table, method.sig, methods)?)?;
    }
    Ok(rows)
}

/// The methods with their places.
fn with_places(alloc: Global, methods: &[Method]) -> Result<Vec<Ranked>, AllocError>
    ensures { IfOk result (λ r. r.items ≡ ranks 0 methods.now) }
{
    let mut items = Vec::new(alloc);
    for (place, method) in methods.iter().enumerate() {
        let number = method.number;
        items.push(Ranked { number, place })?;
    }
    Ok(items)
}

/// Whether the signature of the first is below that of the second.
fn is_below(answers: &[SharedList<bool>], a: Ranked, b: Ranked) -> bool
    ensures { result ≡ sig_below answers.now a b }
{
    if a.place < answers.len() {
        let row = answers[a.place].as_slice();
        return b.place < row.len() && row[b.place];
    }
    false
}

fn is_strictly_below(answers: &[SharedList<bool>], a: Ranked, b: Ranked) -> bool
    ensures { result ≡ strictly_below answers.now a b }
{
    is_below(answers, a, b) && !is_below(answers, b, a)
}

fn has_same_signature(answers: &[SharedList<bool>], a: Ranked, b: Ranked) -> bool
    ensures { result ≡ same_sig answers.now a b }
{
    is_below(answers, a, b) && is_below(answers, b, a)
}

/// Whether a later method has the same signature.
fn is_replaced(answers: &[SharedList<bool>], method: Ranked, later: &[Ranked]) -> bool
    ensures { result ≡ list_any (same_sig answers.now method) later.now }
{
    later
        .iter()
        .any(|other| has_same_signature(answers, method, *other))
}

/// The methods that no later one of the same signature replaces.
fn find_candidates(
    alloc: Global,
    answers: &[SharedList<bool>],
    methods: &[Ranked],
) -> Result<Vec<Ranked>, AllocError>
    ensures { IfOk result (λ kept. kept.items ≡ candidates answers.now methods.now) }
{
    let mut kept = Vec::new(alloc);
    for (i, method) in methods.iter().enumerate() {
        if !is_replaced(answers, *method, &methods[i + 1..]) {
            kept.push(*method)?;
        }
    }
    Ok(kept)
}

fn is_below_others(answers: &[SharedList<bool>], candidates: &[Ranked], method: Ranked) -> bool
    ensures { result ≡ below_others answers.now candidates.now method }
{
    candidates.iter().all(|other| other.number == method.number
        || is_strictly_below(answers, method, *other))
}

fn find_most_specific(answers: &[SharedList<bool>], candidates: &[Ranked]) -> Option<Ranked>
    ensures { result ≡ most_specific answers.now candidates.now }
{
    candidates
        .iter()
        .copied()
        .find(|method| is_below_others(answers, candidates, *method))
}

fn are_unordered(answers: &[SharedList<bool>], a: Ranked, b: Ranked) -> bool
    ensures { result ≡ unordered answers.now a b }
{
    !is_strictly_below(answers, a, b) && !is_strictly_below(answers, b, a)
}

fn find_unordered(answers: &[SharedList<bool>], method: Ranked, later: &[Ranked]) -> Option<Ranked>
    ensures { result ≡ find (unordered answers.now method) later.now }
{
    later
        .iter()
        .copied()
        .find(|other| are_unordered(answers, method, *other))
}

fn find_unordered_pair(
    answers: &[SharedList<bool>],
    candidates: &[Ranked],
) -> Option<(Ranked, Ranked)>
    ensures { result ≡ unordered_pair answers.now candidates.now }
{
    for (i, method) in candidates.iter().enumerate() {
        if let Some(other) = find_unordered(answers, *method, &candidates[i + 1..]) {
            return Some((*method, other));
        }
    }
    None
}

/// The choice among candidates, in the order of their definitions.
fn choose_among(answers: &[SharedList<bool>], candidates: &[Ranked]) -> Choice
    ensures { result ≡ choice_among answers.now candidates.now }
{
    if let Some(best) = find_most_specific(answers, candidates) {
        return Choice::Method(best.number);
    }
    if let Some((first, second)) = find_unordered_pair(answers, candidates) {
        return Choice::Ambiguous(first.number, second.number);
    }
    match candidates {
        [first, second, ..] => Choice::Ambiguous(first.number, second.number),
        _ => Choice::None,
    }
}

/// The choice by comparing each ordered pair of signatures once.
fn choose_by_pairs(alloc: Global, table: &Table, methods: &[Method]) -> Result<Choice, AllocError>
    requires sound { Every (IsSound table.now) methods.now }
    requires ordered { IsStrictlyIncreasing (map (λ m. m.number) methods.now) }
    ensures { IfOk result (λ c. (ts : List Ty) → Every (λ m. Applicable (table_of table.now) (written_of m.sig.now) ts) methods.now → Chooses (table_of table.now) (methods_in methods.now) ts c) }
{
    let answers = compared(alloc, table, methods)?;
    let ranked = with_places(alloc, methods)?;
    let candidates = find_candidates(alloc, answers.as_slice(), ranked.as_slice())?;
    let choice = choose_among(answers.as_slice(), candidates.as_slice());
    Ok(choice)
}

/// The choice among methods that all apply to the types of a call's arguments, in the order of their numbers: the method whose
/// signature is strictly below that of every other candidate, none where there is none, and else the two definitions that the
/// ambiguity names (Julia manual, Methods; Method Ambiguities). A candidate is a method that no later one of the same signature
/// replaces. Where there is such a method, some three comparisons for each other one find it. Only for an ambiguity each ordered pair
/// of signatures is compared.
pub fn choose_method(alloc: Global, table: &Table, methods: &[Method]) -> Result<Choice, AllocError>
    requires sound { Every (IsSound table.now) methods.now }
    requires ordered { IsStrictlyIncreasing (map (λ m. m.number) methods.now) }
    ensures { IfOk result (λ c. (ts : List Ty) → Every (λ m. Applicable (table_of table.now) (written_of m.sig.now) ts) methods.now → Chooses (table_of table.now) (methods_in methods.now) ts c) }
{
    if methods.is_empty() {
        return Ok(Choice::None);
    }
    let likely = find_likely(alloc, table, methods)?;
    let method = &methods[likely];
    if precedes_all(alloc, table, method, methods)? {
        return Ok(Choice::Method(method.number));
    }
    choose_by_pairs(alloc, table, methods)
}
