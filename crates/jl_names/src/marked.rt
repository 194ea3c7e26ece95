//! Names where they stand in a script.

ghost use Rattle.std.specs.Prelude.{◌≡◌, ◌++◌, ◌∷◌, [], OnOk};
ghost use Rattle.jl_names.specs.Numbers.{number_in, with_marks_of};

use crate::table::NameMap;
use jl_grammar::tree::Name;
use std::alloc::{AllocError, Global};
use std::marker::Model;

/// Names where they stand, in text order, some of them maybe several times. Contracts see the list of names.
#[derive(Drop)]
pub struct MarkedNames {
    names: Vec<Name>,
    places: NameMap,
}

impl Model for MarkedNames {
    ghost use Rattle.std.specs.Prelude.{List, ◌≡◌};
    ghost use Rattle.std.specs.Coded.{coded_list};
    ghost use Rattle.jl_grammar.specs.declared.tree.Name.{Name};
    ghost use Rattle.jl_grammar.specs.contracts.tree.Name as e;
    ghost use Rattle.jl_names.specs.Numbers.{first_numbers, with_marks_of};

    ghost Value = { List Name };

    ghost coded = { coded_list e.the_row.coded };

    ghost view = { λ t. t.names.items };

    ghost invariant = { λ t. t.places ≡ first_numbers (with_marks_of t.names.items) };
}

impl MarkedNames {
    pub fn new(alloc: Global) -> MarkedNames
        ensures { result ≡ [] }
    {
        MarkedNames {
            names: Vec::new(alloc),
            places: NameMap::new(alloc),
        }
    }

    pub fn as_slice(&self) -> &[Name]
        ensures { result.now ≡ self.now }
    {
        self.names.as_slice()
    }

    /// Where a name stands first.
    pub fn find(&self, name: &[u8]) -> Option<u32>
        ensures { result ≡ number_in (with_marks_of self.now) name.now }
    {
        self.places.find(name)
    }

    /// One more name.
    pub fn push(&mut self, name: Name) -> Result<(), AllocError>
        ensures { OnOk result (self.new ≡ self.old ++ name ∷ []) }
    {
        let at = name.at;
        // Room first: once the table has the name, nothing may fail.
        self.names.reserve(1)?;
        self.places.add(&name.bytes, at)?;
        self.names.push_reserved(name);
        Ok(())
    }
}
