ghost use Rattle.std.specs.Prelude.{◌≡◌, IfOk};

use std::alloc::{AllocError, Global};
use std::hash::{Hash, Hasher};
use std::marker::Model;
use std::sync::Arc;

/// A value that contracts see as itself. A copy shares it.
#[derive(Drop)]
pub struct SharedNode<T> {
    inner: Arc<T, Global>,
}

impl<T> Model for SharedNode<T> {
    ghost Value = { T };

    ghost coded = { T.code };

    ghost view = { λ n. n.inner.value };
}

impl<T> SharedNode<T> {
    pub fn get(&self) -> &T
        ensures { result.now ≡ self.now }
    {
        &self.inner
    }

    /// The same value, which is shared.
    pub fn copy(&self) -> Result<SharedNode<T>, AllocError>
    where
        T: Drop,
        ensures { IfOk result (λ c. c ≡ self.now) }
    {
        let inner = self.inner.clone()?;
        Ok(SharedNode { inner })
    }
}

impl<T: Drop> SharedNode<T> {
    pub fn new(alloc: Global, value: T) -> Result<SharedNode<T>, AllocError>
        ensures { IfOk result (λ n. n ≡ value) }
    {
        let inner = Arc::new(alloc, value)?;
        Ok(SharedNode { inner })
    }
}

impl<T: PartialEq> PartialEq for SharedNode<T> {
    ghost eq = { T.eq };

    ghost laws = { T.laws };

    fn eq(&self, other: &Self) -> bool {
        PartialEq::eq(self.get(), other.get())
    }
}

impl<T: Eq> Eq for SharedNode<T> {
    ghost laws = { T.Eq.laws };
}
