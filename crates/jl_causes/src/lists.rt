//! Lists of numbers in order, by number.

ghost use Rattle.std.specs.Prelude.{◌≡◌, ◌<◌, [], ℕ, IfOk, OnOk, length};
ghost use Rattle.std.specs.List.{Contains};
ghost use Rattle.std.specs.List.Sorted.{IsStrictlyIncreasing};
ghost use Rattle.jl_methods.specs.Links.{IsLast};
ghost use Rattle.jl_methods.specs.Numbered.{nth, put_at, RisesFrom};
ghost use Rattle.jl_causes.specs.Stands.{lists_in};

use jl_methods::count_up_to;
use std::alloc::{AllocError, Global};

/// Lists of numbers, by number, each of which grows at its end.
#[derive(Drop)]
pub(crate) struct Lists {
    pub(crate) lists: Vec<Vec<u32>>,
}

/// The last of some numbers in order that is at most another, and 0 where there is none. It is found by halves.
fn last_up_to(numbers: &[u32], most: u32) -> u32
    ensures { IsStrictlyIncreasing numbers.now → IsLast (λ n. Contains numbers.now n) most result }
{
    let count = count_up_to(numbers, most);
    if count == 0 {
        return 0;
    }
    numbers[count - 1]
}

impl Lists {
    /// So many lists with nothing in them.
    pub(crate) fn new(alloc: Global, count: usize) -> Result<Lists, AllocError>
        ensures count { IfOk result (λ lists. length (lists_in lists) ≡ count) }
        ensures empty { IfOk result (λ lists. (n : ℕ) → nth (lists_in lists) n ≡ []) }
    {
        let mut lists = Vec::new(alloc);
        for _ in 0..count {
            lists.push(Vec::new(alloc))?;
        }
        Ok(Lists { lists })
    }

    /// The list of a number, which is empty where there is none.
    pub(crate) fn get(&self, number: u32) -> &[u32]
        ensures { result.now ≡ nth (lists_in self.now) number }
    {
        if number as usize >= self.lists.len() {
            return &[];
        }
        self.lists[number as usize].as_slice()
    }

    /// The last of a list in order that is at most this, and 0 where there is none.
    pub(crate) fn last(&self, number: u32, most: u32) -> u32
        ensures { RisesFrom 0 (nth (lists_in self.now) number) → IsLast (λ n. Contains (nth (lists_in self.now) number) n) most result }
    {
        last_up_to(self.get(number), most)
    }

    /// One more at the end of a list.
    pub(crate) fn put(&mut self, number: u32, item: u32) -> Result<(), AllocError>
        requires { number < length (lists_in self.old) }
        ensures { OnOk result (lists_in self.new ≡ put_at (lists_in self.old) number item) }
    {
        self.lists[number as usize].push(item)?;
        Ok(())
    }
}
