//! A value whose drop is a call, so that what holds it stays small.

ghost use Rattle.std.specs.Prelude.{◌≡◌, None};

use std::marker::Model;

/// A value that contracts see as itself, and whose drop is a call.
pub struct Held<T> {
    inner: T,
}

impl<T> Model for Held<T> {
    ghost Value = { T };

    ghost coded = { T.code };

    ghost view = { λ it. it.inner };
}

impl<T: Drop> Drop for Held<T> {
    fn drop(self) {
        let Held { inner } = self;
        drop(inner);
    }
}

impl<T> Held<T> {
    pub fn new(value: T) -> Held<T>
        ensures { result ≡ value }
    {
        Held { inner: value }
    }

    pub fn get(&self) -> &T
        ensures { result.now ≡ self.now }
    {
        &self.inner
    }

    /// The value itself.
    pub fn take(self) -> T
        ensures { result ≡ self }
    {
        let Held { inner } = self;
        inner
    }
}

impl<T> Held<Option<T>> {
    /// What is held, which then no longer is.
    pub fn pull(&mut self) -> Option<T>
        ensures taken { result ≡ self.old }
        ensures left { self.new ≡ None }
    {
        self.inner.take()
    }
}
