ghost use Rattle.std.specs.Prelude.{◌≡◌, length, IfOk, [], List};
ghost use Rattle.std.specs.Hash as fed;
ghost use Rattle.std.specs.Hash.{items_Alike};
ghost use Rattle.std.specs.Cmp.Lexicographic.{pointwise, lists_per, lists_equiv};

use std::alloc::{AllocError, Global};
use std::hash::{Hash, Hasher};
use std::marker::Model;
use std::sync::Arc;

/// A list that contracts see as the list of its elements. A copy shares them, and an empty list has no block.
#[derive(Drop)]
pub struct SharedList<T> {
    items: Option<Arc<Vec<T>, Global>>,
}

impl<T> Model for SharedList<T> {
    ghost use Rattle.std.specs.Prelude.{List};
    ghost use Rattle.std.specs.Coded.{coded_list};

    ghost Value = { List T };

    ghost coded = { coded_list T.code };

    ghost use Rattle.jl_model.specs.SharedItems.{items_in};

    ghost view = { λ it. items_in it.items };
}

impl<T> SharedList<T> {
    /// The empty list, which takes no memory.
    pub fn empty() -> SharedList<T>
        ensures { result ≡ [] }
    {
        SharedList { items: None }
    }

    pub fn as_slice(&self) -> &[T]
        ensures { result.now ≡ self.now }
    {
        match &self.items {
            None => &[],
            Some(items) => items.as_slice(),
        }
    }

    pub fn len(&self) -> usize
        ensures { result ≡ length self.now }
    {
        self.as_slice().len()
    }

    /// The same list, whose elements are shared.
    pub fn copy(&self) -> Result<SharedList<T>, AllocError>
    where
        T: Drop,
        ensures { IfOk result (λ c. c ≡ self.now) }
    {
        match &self.items {
            None => Ok(SharedList { items: None }),
            Some(items) => {
                let items = items.clone()?;
                Ok(SharedList { items: Some(items) })
            }
        }
    }
}

impl<T: Drop> SharedList<T> {
    pub fn from_vec(alloc: Global, items: Vec<T>) -> Result<SharedList<T>, AllocError>
        ensures { IfOk result (λ it. it ≡ items.items) }
    {
        if items.is_empty() {
            return Ok(SharedList { items: None });
        }
        let items = Arc::new(alloc, items)?;
        Ok(SharedList { items: Some(items) })
    }
}

impl<T: PartialEq> PartialEq for SharedList<T> {
    ghost eq = { λ x y. pointwise T.eq x y };

    ghost laws = { lists_per T.laws };

    fn eq(&self, other: &Self) -> bool {
        PartialEq::eq(&self.as_slice(), &other.as_slice())
    }
}

impl<T: Eq> Eq for SharedList<T> {
    ghost laws = { lists_equiv T.Eq.laws };
}

impl<T: Hash> Hash for SharedList<T> {
    ghost hash_input = { λ c. fed.slice T.hash_input c };

    ghost respects_eq = { (items_Alike (record { fed = T.respects_eq })).fed };

    fn hash<H: Hasher>(&self, state: &mut H) {
        self.as_slice().hash(state);
    }
}
