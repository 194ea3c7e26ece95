//! A list of names that finds the place of each.

ghost use Rattle.std.specs.Prelude.{◌≡◌, ◌++◌, ◌∷◌, [], length, IfOk, OnOk};
ghost use Rattle.jl_names.specs.Numbers.{number_in, with_places};

use crate::table::{NameMap, to_u32};
use jl_model::shared::SharedList;
use jl_model::ty::Bytes;
use std::alloc::{AllocError, Global};
use std::marker::Model;

/// Names in order, some of them maybe twice. Contracts see the list of names.
#[derive(Drop)]
pub struct NameList {
    names: Vec<Bytes>,
    places: NameMap,
}

impl Model for NameList {
    ghost use Rattle.std.specs.Prelude.{List, ℕ, ◌≡◌};
    ghost use Rattle.std.specs.Coded.{coded_list, coded_ℕ};
    ghost use Rattle.jl_names.specs.Numbers.{first_numbers, with_places};

    ghost Value = { List (List ℕ) };

    ghost coded = { coded_list (coded_list coded_ℕ) };

    ghost view = { λ t. t.names.items };

    ghost invariant = { λ t. t.places ≡ first_numbers (with_places 0 t.names.items) };
}

impl NameList {
    pub fn new(alloc: Global) -> NameList
        ensures { result ≡ [] }
    {
        NameList {
            names: Vec::new(alloc),
            places: NameMap::new(alloc),
        }
    }

    pub fn as_slice(&self) -> &[Bytes]
        ensures { result.now ≡ self.now }
    {
        self.names.as_slice()
    }

    pub fn len(&self) -> usize
        ensures { result ≡ length self.now }
    {
        self.names.len()
    }

    /// The place of a name, the first of several.
    pub fn find(&self, name: &[u8]) -> Option<u32>
        ensures { result ≡ number_in (with_places 0 self.now) name.now }
    {
        self.places.find(name)
    }

    /// One more name. Want of memory stands for more than 2^32 of them, too.
    pub fn push(&mut self, name: Bytes) -> Result<(), AllocError>
        ensures { OnOk result (self.new ≡ self.old ++ name ∷ []) }
    {
        let number = to_u32(self.names.len())?;
        // Room first: once the table has the name, nothing may fail.
        self.names.reserve(1)?;
        self.places.add(&name, number)?;
        self.names.push_reserved(name);
        Ok(())
    }

    /// The same names, to be shared.
    pub fn to_shared(&self, alloc: Global) -> Result<SharedList<Bytes>, AllocError>
        ensures { IfOk result (λ names. names ≡ self.now) }
    {
        let names = copy_all(alloc, self.names.as_slice())?;
        SharedList::from_vec(alloc, names)
    }
}

fn copy_all(alloc: Global, names: &[Bytes]) -> Result<Vec<Bytes>, AllocError>
    ensures { IfOk result (λ copies. copies.items ≡ names.now) }
{
    let mut copies = Vec::with_capacity(alloc, names.len())?;
    for name in names {
        copies.push(name.copy()?)?;
    }
    Ok(copies)
}
