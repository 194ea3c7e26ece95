//! Lists by number, each of which grows at its end.

ghost use Rattle.std.specs.Prelude.{◌≡◌, ◌<◌, ◌++◌, ◌∷◌, [], ℕ, length, IfOk, OnOk};
ghost use Rattle.std.specs.List.{All};
ghost use Rattle.jl_methods.specs.Latest.{renewed, place_number};
ghost use Rattle.jl_methods.specs.Numbered.{nth, put_at, put_each, change_at};
ghost use Rattle.jl_methods.specs.Room.{items_of, HasRoomAt, HasRoomAtEach, HasPlace};

use crate::latest::renew_del;
use jl_calculus::history::Del;
use std::alloc::{AllocError, Global};

/// Lists by number, each of which grows at its end. Memory is taken ahead, by `reserve` and `reserve_list`, so that `put` and
/// `add` need none.
#[derive(Drop)]
pub(crate) struct Lists<T> {
    lists: Vec<Vec<T>>,
}

impl<T> Lists<T> {
    /// No list at all, which takes no memory.
    pub(crate) fn new(alloc: Global) -> Lists<T>
        ensures { items_of result ≡ [] }
    {
        Lists {
            lists: Vec::new(alloc),
        }
    }

    /// The list of a number, which is empty where there is none.
    pub(crate) fn get(&self, number: u32) -> &[T]
        ensures { result.now ≡ nth (items_of self.now) number }
    {
        if number as usize >= self.lists.len() {
            return &[];
        }
        self.lists[number as usize].as_slice()
    }

    /// Takes the memory for one more element of a list.
    pub(crate) fn reserve(&mut self, number: u32) -> Result<(), AllocError>
        requires { number < length (items_of self.old) }
        ensures kept { items_of self.new ≡ items_of self.old }
        ensures room { OnOk result (HasRoomAt self.new number) }
        ensures other { (n : ℕ) → HasRoomAt self.old n → HasRoomAt self.new n }
    {
        self.lists[number as usize].reserve(1)?;
        Ok(())
    }

    /// Puts an element at the end of a list.
    pub(crate) fn put(&mut self, number: u32, element: T)
        requires { HasRoomAt self.old number }
        ensures put { items_of self.new ≡ put_at (items_of self.old) number element }
        ensures other { (n : ℕ) → (n ≡ number → ⊥) → HasRoomAt self.old n → HasRoomAt self.new n }
    {
        self.lists[number as usize].push_reserved(element);
    }

    /// Takes the memory for one more list.
    pub(crate) fn reserve_list(&mut self) -> Result<(), AllocError>
        ensures kept { items_of self.new ≡ items_of self.old }
        ensures place { OnOk result (HasPlace self.new) }
    {
        self.lists.reserve(1)?;
        Ok(())
    }

    /// Adds a list, whose number is how many there were.
    pub(crate) fn add(&mut self, list: Vec<T>)
        requires { HasPlace self.old }
        ensures { items_of self.new ≡ items_of self.old ++ list.items ∷ [] }
    {
        self.lists.push_reserved(list);
    }

    /// Takes the memory for one more element of each of these lists.
    pub(crate) fn reserve_each(&mut self, numbers: &[u32]) -> Result<(), AllocError>
        requires { All (λ n. n < length (items_of self.old)) numbers.now }
        ensures kept { items_of self.new ≡ items_of self.old }
        ensures room { OnOk result (All (HasRoomAt self.new) numbers.now) }
    {
        for number in numbers {
            self.reserve(*number)?;
        }
        Ok(())
    }

    /// Puts an element at the end of each of these lists, whose numbers are in order.
    pub(crate) fn put_each(&mut self, numbers: &[u32], element: T)
    where
        T: Copy,
        requires { HasRoomAtEach self.old numbers.now }
        ensures { items_of self.new ≡ put_each (items_of self.old) numbers.now element }
    {
        for number in numbers {
            self.put(*number, element);
        }
    }
}

/// So many lists without elements.
pub(crate) fn empty_lists<T: Drop>(alloc: Global, count: usize) -> Result<Lists<T>, AllocError>
    ensures count { IfOk result (λ lists. length (items_of lists) ≡ count) }
    ensures empty { IfOk result (λ lists. (n : ℕ) → nth (items_of lists) n ≡ []) }
{
    let mut lists = Lists::new(alloc);
    for _ in 0..count {
        lists.reserve_list()?;
        lists.add(Vec::new(alloc));
    }
    Ok(lists)
}

impl Lists<Del> {
    /// Puts a deletion at the end of a list, in place of that of its own place, where there is one.
    pub(crate) fn renew(&mut self, number: u32, del: Del)
        requires { HasRoomAt self.old number }
        ensures { items_of self.new ≡ change_at (λ ds. renewed place_number ds del) (items_of self.old) number }
    {
        renew_del(&mut self.lists[number as usize], del);
    }
}
