//! The slots that are visible at a place, by the names of their variables.

ghost use Rattle.std.specs.Prelude.{◌≡◌, ◌++◌, ◌∷◌, [], length, take, OnOk, Some, None};
ghost use Rattle.jl_names.specs.Numbers.{number_in, named_slots, count_named};

use crate::table::{NameMap, to_u32};
use jl_model::ty::Bytes;
use std::alloc::{AllocError, Global};
use std::marker::Model;

/// Slots from number 0 on, each with the name of its variable, where it has one; no two have the same name. Contracts see the
/// list of names.
#[derive(Drop)]
pub struct Slots {
    names: Vec<Option<Bytes>>,
    numbers: NameMap,
}

impl Model for Slots {
    ghost use Rattle.std.specs.Prelude.{List, Option, ℕ, ◌≡◌};
    ghost use Rattle.std.specs.Coded.{coded_list, coded_option, coded_ℕ};
    ghost use Rattle.jl_names.specs.Numbers.{named_slots};

    ghost Value = { List (Option (List ℕ)) };

    ghost coded = { coded_list (coded_option (coded_list coded_ℕ)) };

    ghost view = { λ t. t.names.items };

    ghost invariant = { λ t. t.numbers ≡ named_slots 0 t.names.items };
}

impl Slots {
    pub fn new(alloc: Global) -> Slots
        ensures { result ≡ [] }
    {
        Slots {
            names: Vec::new(alloc),
            numbers: NameMap::new(alloc),
        }
    }

    pub fn len(&self) -> usize
        ensures { result ≡ length self.now }
    {
        self.names.len()
    }

    /// The slot of a name.
    pub fn find(&self, name: &[u8]) -> Option<u32>
        ensures { result ≡ number_in (named_slots 0 self.now) name.now }
    {
        self.numbers.find(name)
    }

    /// The next slot, of a variable that has no name.
    pub fn push_unnamed(&mut self) -> Result<(), AllocError>
        ensures { OnOk result (self.new ≡ self.old ++ None ∷ []) }
    {
        self.names.push(None)?;
        Ok(())
    }

    /// The next slot, of a variable of this name, which has no slot yet. Want of memory stands for more than 2^32 slots, too.
    pub fn push(&mut self, name: Bytes) -> Result<(), AllocError>
        requires { number_in (named_slots 0 self.old) name ≡ None }
        ensures { OnOk result (self.new ≡ self.old ++ Some name ∷ []) }
    {
        let number = to_u32(self.names.len())?;
        // Room first: once the table has the name, nothing may fail.
        self.names.reserve(1)?;
        self.numbers.add(&name, number)?;
        self.names.push_reserved(Some(name));
        Ok(())
    }

    /// Only so many of the slots, from the first on.
    pub fn truncate(&mut self, most: usize)
        ensures { self.new ≡ take most self.old }
    {
        if most >= self.names.len() {
            return;
        }
        let dropped = count_named(&self.names.as_slice()[most..]);
        let kept = self.numbers.len() - dropped;
        self.numbers.truncate(kept);
        self.names.truncate(most);
    }
}

/// How many of these slots have names.
fn count_named(names: &[Option<Bytes>]) -> usize
    ensures { result ≡ count_named names.now }
{
    let mut count = 0;
    for name in names {
        if name.is_some() {
            count += 1;
        }
    }
    count
}
