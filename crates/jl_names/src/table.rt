//! Names with numbers, each name once.

ghost use Rattle.std.specs.Prelude.{◌≡◌, ◌≤◌, ◌^◌, [], ◌+◌, ◌-◌, take, length, IfOk, OnOk, OnErr};
ghost use Rattle.jl_names.specs.Numbers.{number_in, with_number, renumber, with_newer};

use crate::key::Key;
use indexmap::IndexMap;
use jl_model::ty::Bytes;
use std::alloc::{AllocError, Global};
use std::marker::Model;

/// The number of a place. The one error, which stands for want of memory, comes exactly from 2^32 on.
pub(crate) fn to_u32(place: usize) -> Result<u32, AllocError>
    ensures number { IfOk result (λ n. n ≡ place) }
    ensures limit { OnErr result (2 ^ 32 ≤ place) }
{
    if place > 0xffff_ffff {
        return Err(AllocError);
    }
    Ok(place as u32)
}

/// Names with a number each, in the order in which they came. Contracts see the list of these pairs.
#[derive(Drop)]
pub struct NameMap {
    numbers: IndexMap<Key, u32>,
}

impl Model for NameMap {
    ghost use Rattle.jl_names.specs.Numbers.{Numbered};
    ghost use Rattle.std.specs.Prelude.{List, map};
    ghost use Rattle.std.specs.Coded.{coded_list, coded×, coded_ℕ};

    ghost Value = { List Numbered };

    ghost coded = { coded_list (coded× (coded_list coded_ℕ) coded_ℕ) };

    ghost view = { λ t. map (λ e. (e.0.name, e.1)) t.numbers.entries };
}

impl NameMap {
    pub fn new(alloc: Global) -> NameMap
        ensures { result ≡ [] }
    {
        NameMap {
            numbers: IndexMap::new(alloc),
        }
    }

    /// The number of a name.
    pub fn find(&self, name: &[u8]) -> Option<u32>
        ensures { result ≡ number_in self.now name.now }
    {
        self.numbers.get(name).copied()
    }

    /// One more name with its number; a name that has one keeps it.
    pub fn add(&mut self, name: &Bytes, number: u32) -> Result<(), AllocError>
        ensures added { OnOk result (self.new ≡ with_number self.old (name.now, number)) }
        ensures refused { OnErr result (self.new ≡ self.old) }
    {
        // Most names are new, and for those one look-up is enough.
        if let Some(before) = self.put(name, number)? {
            self.renumber(name.as_slice(), before);
        }
        Ok(())
    }

    /// Another number for a name. A name that has none stays without.
    pub fn renumber(&mut self, name: &[u8], number: u32)
        ensures { self.new ≡ renumber self.old (name.now, number) }
    {
        if let Some(old) = self.numbers.get_mut(name) {
            *old = number;
        }
    }

    /// One more name with its number; a name that has one gets this in its place. The answer is the number that it had.
    pub fn put(&mut self, name: &Bytes, number: u32) -> Result<Option<u32>, AllocError>
        ensures put { OnOk result (self.new ≡ with_newer self.old (name.now, number)) }
        ensures before { IfOk result (λ before. before ≡ number_in self.old name.now) }
        ensures refused { OnErr result (self.new ≡ self.old) }
    {
        let key = Key { name: name.copy()? };
        let before = self.numbers.insert(key, number)?;
        Ok(before)
    }

    /// Only so many of the names, from the first on.
    pub fn truncate(&mut self, most: usize)
        ensures { self.new ≡ take most self.old }
    {
        self.numbers.truncate(most);
    }

    /// All names but the last.
    pub fn pop(&mut self)
        ensures { self.new ≡ take (length self.old - 1) self.old }
    {
        let kept = self.numbers.len().saturating_sub(1);
        self.numbers.truncate(kept);
    }

    pub fn len(&self) -> usize
        ensures { result ≡ length self.now }
    {
        self.numbers.len()
    }
}
