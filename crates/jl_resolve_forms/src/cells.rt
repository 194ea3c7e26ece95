//! A list that grows, and whose members can be replaced: a site and a spawn place have their numbers before what is
//! in them is read, so an empty one is put in first, and what was read takes its place.

ghost use Rattle.std.specs.Prelude.{◌≡◌, ◌++◌, ◌∷◌, [], length, slice_set, OnOk, IfOk};

use jl_model::shared::SharedList;
use std::alloc::{AllocError, Global};
use std::marker::Model;

/// A `Vec` that contracts see as the list of its elements.
#[derive(Drop)]
pub struct Cells<T> {
    items: Vec<T>,
}

impl<T> Model for Cells<T> {
    ghost use Rattle.std.specs.Prelude.{List};
    ghost use Rattle.std.specs.Coded.{coded_list};

    ghost Value = { List T };

    ghost coded = { coded_list T.code };

    ghost view = { λ it. it.items.items };
}

impl<T> Cells<T> {
    pub fn new(alloc: Global) -> Cells<T>
        ensures { result ≡ [] }
    {
        Cells {
            items: Vec::new(alloc),
        }
    }

    pub fn len(&self) -> usize
        ensures { result ≡ length self.now }
    {
        self.items.len()
    }
}

impl<T: Drop> Cells<T> {
    pub fn push(&mut self, item: T) -> Result<(), AllocError>
        ensures { OnOk result (self.new ≡ self.old ++ item ∷ []) }
    {
        self.items.push(item)?;
        Ok(())
    }

    /// Another member at this number; nothing where there is none.
    pub fn set(&mut self, number: usize, item: T)
        ensures { self.new ≡ slice_set self.old number item }
    {
        if number < self.items.len() {
            self.items[number] = item;
        }
    }

    /// The same list, to be shared.
    pub fn into_shared(self, alloc: Global) -> Result<SharedList<T>, AllocError>
        ensures { IfOk result (λ it. it ≡ self) }
    {
        let Cells { items } = self;
        SharedList::from_vec(alloc, items)
    }
}
