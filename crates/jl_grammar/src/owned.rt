//! A value in a block of its own, so that what holds it stays small.

ghost use Rattle.std.specs.Prelude.{◌≡◌, IfOk};

use std::alloc::{AllocError, Global};
use std::marker::Model;

/// A value that contracts see as itself, in a block of its own.
#[derive(Drop)]
pub struct Owned<T> {
    inner: Box<T, Global>,
}

impl<T> Model for Owned<T> {
    ghost Value = { T };

    ghost coded = { T.code };

    ghost view = { λ it. it.inner.value };
}

impl<T> Owned<T> {
    ghost use Rattle.std.specs.Borrow.{Lends, sem};
    ghost use Rattle.jl_grammar.specs.contracts.owned.Owned.{the_row};

    pub fn get(&self) -> &T
        ensures { result.now ≡ self.now }
    {
        &self.inner
    }

    /// The value, to change it in its block.
    pub fn get_mut(&mut self) -> &mut T
        ensures* writes_back { sem 𝓛 (Lends (the_row T.row) T.row self.entry result (λ w. w)) }
        ensures value { result.now ≡ self.old }
    {
        self.inner.as_mut()
    }

    /// The value itself; its block is given back.
    pub fn take(self) -> T
        ensures { result ≡ self }
    {
        let Owned { inner } = self;
        Box::into_inner(inner)
    }
}

impl<T: Drop> Owned<T> {
    pub fn new(alloc: Global, value: T) -> Result<Owned<T>, AllocError>
        ensures { IfOk result (λ it. it ≡ value) }
    {
        let inner = Box::new(alloc, value)?;
        Ok(Owned { inner })
    }
}
