//! What tasks see where they start. Tasks that one task starts in turn see mostly the same values, and share them.

ghost use Rattle.std.specs.Prelude.{◌≡◌, ◌+◌, ◌≤◌, IsTrue, IfOk, map, drop, take, length};
ghost use Rattle.jl_program.specs.Meaning.{datum};
ghost use Rattle.jl_value.specs.declared.share.TheConstants.{CHUNK_VALUES};

use crate::identity::egal;
use jl_model::shared::SharedList;
use jl_program::env::{Chunk, Env};
use jl_program::value::Value;
use std::alloc::{AllocError, Global};

/// The values of a chunk.
const CHUNK_VALUES: usize = 64;
/// The most nodes of a value that is looked through: a chunk with a larger one is not shared.
const MOST_COMPARED_NODES: u64 = 64;

/// Whether two values are the same, where that costs little to tell.
fn is_surely_same(a: &Value, b: &Value) -> bool
    ensures { IsTrue result → datum a.now ≡ datum b.now }
{
    a.nodes() <= MOST_COMPARED_NODES && egal(a, b)
}

/// Whether a chunk surely has these values.
#[tactic(auto, using(crate::proofs::ValueLemmas::alike))]
fn has_values(chunk: &[Value], values: &[Value]) -> bool
    ensures { IsTrue result → map datum chunk.now ≡ map datum values.now }
{
    if chunk.len() != values.len() {
        return false;
    }
    for (i, value) in chunk.iter().enumerate() {
        if !is_surely_same(value, &values[i]) {
            return false;
        }
    }
    true
}

/// A chunk of equal values, whose parts are shared.
fn copy_chunk(alloc: Global, values: &[Value]) -> Result<Chunk, AllocError>
    ensures { IfOk result (λ chunk. chunk ≡ values.now) }
{
    let mut copies = Vec::with_capacity(alloc, values.len())?;
    for value in values {
        copies.push(value.copy()?)?;
    }
    SharedList::from_vec(alloc, copies)
}

/// A chunk of these values: the one from before, where that surely has them.
fn chunk_of(alloc: Global, before: Option<&Chunk>, values: &[Value]) -> Result<Chunk, AllocError>
    ensures { IfOk result (λ chunk. map datum chunk ≡ map datum values.now) }
{
    match before {
        Some(chunk) => {
            if has_values(chunk.as_slice(), values) {
                return chunk.copy();
            }
            copy_chunk(alloc, values)
        }
        None => copy_chunk(alloc, values),
    }
}

/// The values of a chunk from a place on.
fn chunk_at(values: &[Value], from: usize) -> &[Value]
    requires within { from + CHUNK_VALUES ≤ length values.now }
    ensures { result.now ≡ take CHUNK_VALUES (drop from values.now) }
{
    &values[from..from + CHUNK_VALUES]
}

/// What a task sees that starts with these values. Its full chunks are those of a task before it, as far as they surely have the same values:
/// so tasks that see n values in turn hold n of them, and not n each. It costs a comparison of each value with the one from before.
pub fn share_env(alloc: Global, before: &Env, values: &[Value]) -> Result<Env, AllocError>
    ensures { IfOk result (λ env. env ≡ map datum values.now) }
{
    let known = before.parts().0;
    let count = values.len() / CHUNK_VALUES;
    let mut chunks = Vec::new(alloc);
    for number in 0..count {
        let part = chunk_at(values, number * CHUNK_VALUES);
        let chunk = chunk_of(alloc, known.get(number), part)?;
        chunks.push(chunk)?;
    }
    let rest = copy_chunk(alloc, &values[count * CHUNK_VALUES..])?;
    Env::new(SharedList::from_vec(alloc, chunks)?, rest)
}
