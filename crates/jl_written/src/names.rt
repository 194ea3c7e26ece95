//! What a name that is no type variable means where a type must stand.

ghost use Rattle.std.specs.Prelude.{◌≡◌, ◌≤◌, ◌^◌, List, ℕ, map, IfOk, OnErr};
ghost use Rattle.jl_program.specs.Names.{is_among, same_text, builtin_names};
ghost use Rattle.jl_model.specs.declared.ty.Decl.{Decl};
ghost use Rattle.jl_written.specs.Meaning.{has_small_second, place_of, word_of};

use crate::reading::Named;
use jl_model::builtin::INT64;
use jl_names::decls::FirstDecls;
use std::alloc::AllocError;

/// The names that no script binds or defines.
const BUILTIN_NAMES: [&str; 21] = [
    "Any",
    "Union",
    "Tuple",
    "Number",
    "Real",
    "Integer",
    "Signed",
    "Int64",
    "Int",
    "Bool",
    "Nothing",
    "Task",
    "Base",
    "Threads",
    "eval",
    "fetch",
    "println",
    "print",
    "invokelatest",
    "div",
    "rem",
];

/// Whether two texts are the same.
#[tactic(auto, using(crate::proofs::TextLemmas::same_texts))]
pub fn is_same(left: &[u8], right: &[u8]) -> bool
    ensures { result ≡ same_text left.now right.now }
{
    left == right
}

fn is_one_of(words: &[&str], word: &[u8]) -> bool
    ensures { result ≡ is_among word.now (map (λ w. w.now) words.now) }
{
    for known in words {
        if is_same(word, known.as_bytes()) {
            return true;
        }
    }
    false
}

/// Whether the second byte is a small letter or comes after those.
fn has_small_second(word: &[u8]) -> bool
    ensures { result ≡ has_small_second word.now }
{
    match word {
        [] => false,
        [_] => false,
        [_, second, ..] => *second >= 97,
    }
}

/// Whether the name is in the list.
fn is_listed(word: &[u8]) -> bool
    ensures { result ≡ is_among word.now builtin_names }
{
    let words: [&str; 21] = BUILTIN_NAMES;
    is_one_of(words.as_slice(), word)
}

/// Whether no script may bind or define this name. A name as `x1`, `T` or `T_1` is not looked for.
pub fn is_builtin(word: &[u8]) -> bool
    ensures { result ≡ is_among word.now builtin_names }
{
    has_small_second(word) && is_listed(word)
}

/// A number of a variable or a type. The one error, which stands for want of memory, comes exactly from 2^32 on.
pub fn to_u32(number: usize) -> Result<u32, AllocError>
    ensures number { IfOk result (λ n. n ≡ number) }
    ensures limit { OnErr result (2 ^ 32 ≤ number) }
{
    if number > 0xffff_ffff {
        return Err(AllocError);
    }
    Ok(number as u32)
}

/// The first declaration of a name.
#[tactic(auto, using(crate::proofs::PlaceLemmas::place_is))]
fn place_of(decls: &FirstDecls<'_>, name: &[u8]) -> Option<u32>
    ensures { result ≡ place_of (map (λ (d : Decl). d.name) decls.now) name.now }
{
    decls.find(name)
}

/// The meaning of a name that is no type variable.
pub(crate) fn word_of(decls: &FirstDecls<'_>, name: &[u8]) -> Named
    ensures { result ≡ word_of decls.now name.now }
{
    if is_same(name, b"Any") {
        return Named::Any;
    }
    if is_same(name, b"Union") {
        return Named::Union;
    }
    if is_same(name, b"Tuple") {
        return Named::Tuple;
    }
    if is_same(name, b"Int") {
        return Named::Nominal(INT64);
    }
    match place_of(decls, name) {
        None => Named::Unknown,
        Some(at) => Named::Nominal(at),
    }
}
