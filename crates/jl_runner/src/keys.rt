//! The numbers of the keys that a task has met.

ghost use Rattle.std.specs.Prelude.{◌≡◌, ◌⊎◌, ◌++◌, ◌∷◌, [], MatchOption, OnOk, OnErr};
ghost use Rattle.jl_runner.specs.Keys.{IsNumbered};

use indexmap::IndexMap;
use jl_model::ty::Key;
use std::alloc::{AllocError, Global};
use std::marker::Model;

/// Keys with their numbers, in the order in which the task met them. Contracts see the list of these pairs.
#[derive(Drop)]
pub(crate) struct KeyNumbers {
    numbers: IndexMap<Key, u32>,
}

impl Model for KeyNumbers {
    ghost use Rattle.std.specs.Prelude.{ℕ, List};
    ghost use Rattle.std.specs.Coded.{coded_list, coded×, coded_ℕ};
    ghost use Rattle.jl_model.specs.declared.ty.Key.{Key};
    ghost use Rattle.jl_model.specs.contracts.ty.Key as k;

    ghost Value = { List (Key × ℕ) };

    ghost coded = { coded_list (coded× k.the_row.coded coded_ℕ) };

    ghost view = { λ t. t.numbers.entries };
}

impl KeyNumbers {
    /// No key yet.
    pub(crate) fn new(alloc: Global) -> KeyNumbers
        ensures { result ≡ [] }
    {
        KeyNumbers {
            numbers: IndexMap::new(alloc),
        }
    }

    /// The number of a key.
    pub(crate) fn find(&self, key: &Key) -> Option<u32>
        ensures { MatchOption result (Unit {0}) (λ number. IsNumbered self.now key.now number) }
    {
        match self.numbers.get_full(key) {
            Some((_, _, number)) => Some(*number),
            None => None,
        }
    }

    /// One more key with its number. A key that is there stays as it is.
    pub(crate) fn keep(&mut self, key: Key, number: u32) -> Result<(), AllocError>
        ensures kept { OnOk result ((self.new ≡ self.old) ⊎ (self.new ≡ self.old ++ (key, number) ∷ [])) }
        ensures refused { OnErr result (self.new ≡ self.old) }
    {
        if self.numbers.contains_key(&key) {
            return Ok(());
        }
        self.numbers.insert(key, number)?;
        Ok(())
    }
}
