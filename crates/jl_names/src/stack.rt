//! Names of which a later one hides an equal one before it.

ghost use Rattle.std.specs.Prelude.{◌≡◌, ◌++◌, ◌∷◌, ◌-◌, [], List, length, take, IfOk, OnOk, OnErr};
ghost use Rattle.jl_names.specs.Numbers.{Numbered, number_in};
ghost use Rattle.jl_names.specs.Stacks.{last_place, texts_of, IsStack};

use crate::table::{NameMap, to_u32};
use jl_model::ty::Bytes;
use std::alloc::{AllocError, Global};
use std::marker::Model;

/// A name, and the place of the one before it that it hides.
#[derive(Drop)]
pub struct Stacked {
    name: Bytes,
    hides: Option<u32>,
}

/// Names in order, of which the last goes first; the last of several is found. Contracts see the list of names. A place of
/// the table counts where a name stands that is that name.
#[derive(Drop)]
pub struct NameStack {
    names: Vec<Stacked>,
    places: NameMap,
}

impl Model for NameStack {
    ghost use Rattle.std.specs.Prelude.{List, ℕ};
    ghost use Rattle.std.specs.Coded.{coded_list, coded_ℕ};
    ghost use Rattle.jl_names.specs.Stacks.{texts_of, IsStack};

    ghost Value = { List (List ℕ) };

    ghost coded = { coded_list (coded_list coded_ℕ) };

    ghost view = { λ t. texts_of t.names.items };

    ghost invariant = { λ t. IsStack t.names.items t.places };
}

impl NameStack {
    pub fn new(alloc: Global) -> NameStack
        ensures { result ≡ [] }
    {
        NameStack {
            names: Vec::new(alloc),
            places: NameMap::new(alloc),
        }
    }

    pub fn len(&self) -> usize
        ensures { result ≡ length self.now }
    {
        self.names.len()
    }

    /// The place of a name, the last of several.
    pub fn find(&self, name: &[u8]) -> Option<u32>
        ensures { result ≡ last_place self.now name.now }
    {
        place_if_named(self.names.as_slice(), self.places.find(name), name)
    }

    /// One more name. The answer is the place of the equal name that it hides. Want of memory stands for more than 2^32 of them,
    /// too.
    pub fn push(&mut self, name: Bytes) -> Result<Option<u32>, AllocError>
        ensures pushed { OnOk result (self.new ≡ self.old ++ name ∷ []) }
        ensures hidden { IfOk result (λ hidden. hidden ≡ last_place self.old name) }
        ensures refused { OnErr result (self.new ≡ self.old) }
    {
        let number = to_u32(self.names.len())?;
        // Room first: once the table has the name, nothing may fail.
        self.names.reserve(1)?;
        let before = self.places.put(&name, number)?;
        let hides = place_if_named(self.names.as_slice(), before, name.as_slice());
        self.names.push_reserved(Stacked { name, hides });
        Ok(hides)
    }

    /// All names but the last.
    fn pop(&mut self)
        ensures { self.new ≡ take (length self.old - 1) self.old }
    {
        if let Some(last) = self.names.pop() {
            if let Some(place) = last.hides {
                self.places.renumber(last.name.as_slice(), place);
            }
        }
    }

    /// Only so many of the names, from the first on.
    pub fn truncate(&mut self, most: usize)
        ensures { self.new ≡ take most self.old }
    {
        while self.names.len() > most {
            self.pop();
        }
    }
}

/// The last place of a name, from its number in the table. The table keeps the numbers of names that are gone, so a number
/// counts only where that name stands.
fn place_if_named(names: &[Stacked], known: Option<u32>, name: &[u8]) -> Option<u32>
    ensures { (table : List Numbered) → IsStack names.now table → known ≡ number_in table name.now
        → result ≡ last_place (texts_of names.now) name.now }
{
    let place = known?;
    let found = names.get(place as usize)?;
    if found.name.as_slice() == name {
        Some(place)
    } else {
        None
    }
}
