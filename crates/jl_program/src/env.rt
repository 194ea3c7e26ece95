//! What a task sees where it starts.

ghost use Rattle.std.specs.Prelude.{◌≡◌, ◌<◌, ◌+◌, ◌++◌, [], map, length, get_or, IfOk};
ghost use Rattle.jl_program.specs.Meaning.{datum};
ghost use Rattle.jl_program.specs.Seen.{join};

use crate::value::Value;
use jl_model::shared::SharedList;
use std::alloc::{AllocError, Global};
use std::marker::Model;

/// A part of what a task sees, which others may see too.
pub type Chunk = SharedList<Value>;

/// The values that a task sees where it starts. They lie in shared chunks and a shared rest, so that a copy takes no memory, and tasks that
/// see the same values may hold them once.
#[derive(Drop)]
pub struct Env {
    chunks: SharedList<Chunk>,
    rest: Chunk,
    count: usize,
}

impl Model for Env {
    ghost use Rattle.std.specs.Prelude.{List, map, ◌++◌};
    ghost use Rattle.jl_program.specs.contracts.datum.Datum as e;
    ghost use Rattle.std.specs.Coded.{coded_list};
    ghost use Rattle.jl_program.specs.declared.datum.Datum.{Datum};

    ghost Value = { List Datum };

    ghost coded = { coded_list e.the_row.coded };

    ghost use Rattle.jl_program.specs.Meaning.{datum};
    ghost use Rattle.jl_program.specs.Seen.{join, IsCounted};

    ghost view = { λ a. map datum (join a.chunks ++ a.rest) };

    ghost invariant = { IsCounted };
}

/// How many values lie in these chunks and after them.
fn count_values(chunks: &[Chunk], rest: usize) -> Result<usize, AllocError>
    ensures { IfOk result (λ count. count ≡ length (join chunks.now) + rest) }
{
    let mut count = rest;
    for chunk in chunks {
        match count.checked_add(chunk.len()) {
            Some(sum) => count = sum,
            None => return Err(AllocError),
        }
    }
    Ok(count)
}

impl Env {
    /// The values in these chunks and after them. As many as a number of a machine's word can't count are out of memory.
    pub fn new(chunks: SharedList<Chunk>, rest: Chunk) -> Result<Env, AllocError>
        ensures { IfOk result (λ env. env ≡ map datum (join chunks ++ rest)) }
    {
        let count = count_values(chunks.as_slice(), rest.len())?;
        Ok(Env {
            chunks,
            rest,
            count,
        })
    }

    /// These values, in no chunks.
    pub fn from_vec(alloc: Global, values: Vec<Value>) -> Result<Env, AllocError>
        ensures { IfOk result (λ env. env ≡ map datum values.items) }
    {
        let rest = SharedList::from_vec(alloc, values)?;
        let count = rest.len();
        Ok(Env {
            chunks: SharedList::empty(),
            rest,
            count,
        })
    }

    /// No values, which take no memory.
    pub fn empty() -> Env
        ensures { result ≡ [] }
    {
        Env {
            chunks: SharedList::empty(),
            rest: SharedList::empty(),
            count: 0,
        }
    }

    /// The chunks, and the values after them.
    pub fn parts(&self) -> (&[Chunk], &[Value])
        ensures { map datum (join result.0.now ++ result.1.now) ≡ self.now }
    {
        (self.chunks.as_slice(), self.rest.as_slice())
    }

    /// How many values there are.
    pub fn len(&self) -> usize
        ensures { result ≡ length self.now }
    {
        self.count
    }

    /// The value of a slot. It costs the number of the chunks.
    pub fn at(&self, slot: usize) -> &Value
        requires there { slot < length self.now }
        ensures { datum result.now ≡ get_or self.now slot (datum result.now) }
    {
        let mut left = slot;
        for chunk in self.chunks.as_slice() {
            if left < chunk.len() {
                return &chunk.as_slice()[left];
            }
            left -= chunk.len();
        }
        &self.rest.as_slice()[left]
    }

    /// The same values, which are shared. It takes no memory.
    pub fn copy(&self) -> Result<Env, AllocError>
        ensures { IfOk result (λ c. c ≡ self.now) }
    {
        Ok(Env {
            chunks: self.chunks.copy()?,
            rest: self.rest.copy()?,
            count: self.count,
        })
    }
}
