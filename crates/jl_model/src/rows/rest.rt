ghost use Rattle.std.specs.Prelude.{◌≡◌, ◌∷◌, [], IfOk, MatchOption, drop};

use crate::shared::SharedList;
use std::alloc::AllocError;
use std::marker::Model;

/// What is copied by its counts.
pub trait Share {
    fn share(&self) -> Result<Self, AllocError>
        ensures { IfOk result (λ c. c ≡ self.now) };
}

/// What is left of a shared list, as a place in it.
#[derive(Drop)]
pub struct Rest<T> {
    items: SharedList<T>,
    at: usize,
}

impl<T> Model for Rest<T> {
    ghost use Rattle.std.specs.Prelude.{List, drop};
    ghost use Rattle.std.specs.Coded.{coded_list};

    ghost Value = { List T };

    ghost coded = { coded_list T.code };

    ghost view = { λ it. drop it.at it.items };
}

impl<T> Rest<T> {
    pub fn all(items: SharedList<T>) -> Rest<T>
        ensures { result ≡ items }
    {
        Rest { items, at: 0 }
    }

    /// The first of what is left, which stays.
    pub fn first(&self) -> Option<&T>
        ensures { MatchOption result (self.now ≡ []) (λ x. self.now ≡ x.now ∷ drop 1 self.now) }
    {
        self.items.as_slice().get(self.at)
    }

    /// Goes past the first.
    pub fn pass(&mut self)
        ensures { self.new ≡ drop 1 self.old }
    {
        match self.items.as_slice().get(self.at) {
            None => {}
            Some(_) => self.at += 1,
        }
    }
}

impl<T: Share> Rest<T> {
    /// Takes the first of what is left.
    pub fn next(&mut self) -> Result<Option<T>, AllocError>
        ensures { IfOk result (λ first. MatchOption first ((self.old ≡ []) × (self.new ≡ [])) (λ x. self.old ≡ x ∷ self.new)) }
    {
        match self.items.as_slice().get(self.at) {
            None => Ok(None),
            Some(item) => {
                let item = item.share()?;
                self.at += 1;
                Ok(Some(item))
            }
        }
    }
}
