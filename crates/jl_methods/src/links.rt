//! What is kept of the sites of a program, and in the same way of its deletion places.

ghost use Rattle.std.specs.Prelude.{◌≡◌, ◌<◌, All, IfOk, OnOk, length};
ghost use Rattle.std.specs.List.{Contains};
ghost use Rattle.std.specs.List.Sorted.{IsStrictlyIncreasing};
ghost use Rattle.jl_methods.specs.Links.{linked_in, AreEmptyLinks, AreInOrder, AreNumbers, AreLastDels, IsLast, IsLastMade, IsMadeBy, IsNext, HasRoomForApplying, earlier, with_applying, with_world};
ghost use Rattle.jl_methods.specs.Numbered.{nth, RisesFrom};
ghost use Rattle.jl_methods.specs.Room.{HasRoomAt};

use crate::count::count_up_to;
use crate::lists::{Lists, empty_lists};
use jl_calculus::history::Del;
use std::alloc::{AllocError, Global};

/// What is kept of the sites of a program, or of its deletion places, by their numbers: the worlds that each made, in order, and the keys
/// that it touches; and by key those that apply to it. Which apply is a fact of the program, asked once, when the key comes. So a site
/// that is defined again gets one more world, whatever it touches.
#[derive(Drop)]
pub(crate) struct Links {
    worlds: Lists<u32>,
    touched: Lists<u32>,
    applying: Lists<u32>,
}

/// The last of some worlds in order that is at most another, and 0 where there is none. It is found by halves.
fn last_up_to(worlds: &[u32], world: u32) -> u32
    ensures { IsStrictlyIncreasing worlds.now → IsLast (λ w. Contains worlds.now w) world result }
{
    let count = count_up_to(worlds, world);
    if count == 0 {
        return 0;
    }
    worlds[count - 1]
}

/// The first of some worlds in order that is past another. It is found by halves.
fn next_after(worlds: &[u32], world: u32) -> Option<u32>
    ensures { IsStrictlyIncreasing worlds.now → IsNext (λ w. Contains worlds.now w) world result }
{
    let count = count_up_to(worlds, world);
    if count >= worlds.len() {
        return None;
    }
    Some(worlds[count])
}

/// The smaller one of two worlds that may be there.
pub(crate) fn earlier(a: Option<u32>, b: Option<u32>) -> Option<u32>
    ensures { result ≡ earlier a b }
{
    match a {
        None => b,
        Some(x) => match b {
            None => a,
            Some(y) => Some(x.min(y)),
        },
    }
}

impl Links {
    /// Of so many, none of which has made a world, where there is no key.
    pub(crate) fn new(alloc: Global, count: usize) -> Result<Links, AllocError>
        ensures { IfOk result (λ links. AreEmptyLinks count (linked_in links)) }
    {
        let worlds = empty_lists(alloc, count)?;
        let touched = empty_lists(alloc, count)?;
        Ok(Links {
            worlds,
            touched,
            applying: Lists::new(alloc),
        })
    }

    /// Those that apply to a key, in order.
    pub(crate) fn applying(&self, key: u32) -> &[u32]
        ensures { result.now ≡ nth (linked_in self.now).applying key }
    {
        self.applying.get(key)
    }

    /// The keys that one of them touches, in order.
    pub(crate) fn touched(&self, number: u32) -> &[u32]
        ensures { result.now ≡ nth (linked_in self.now).touched number }
    {
        self.touched.get(number)
    }

    /// Takes the memory for one more world of one of them.
    pub(crate) fn reserve_world(&mut self, number: u32) -> Result<(), AllocError>
        requires { number < length (linked_in self.old).worlds }
        ensures room { OnOk result (HasRoomAt self.new.worlds number) }
        ensures kept { linked_in self.new ≡ linked_in self.old }
    {
        self.worlds.reserve(number)
    }

    /// One more world of one of them.
    pub(crate) fn put_world(&mut self, number: u32, world: u32)
        requires { HasRoomAt self.old.worlds number }
        ensures { linked_in self.new ≡ with_world number world (linked_in self.old) }
    {
        self.worlds.put(number, world);
    }

    /// Takes the memory for one more key, to which these apply.
    pub(crate) fn reserve_key(&mut self, applying: &[u32]) -> Result<(), AllocError>
        requires known { All (λ n. n < length (linked_in self.old).touched) applying.now }
        requires rises { RisesFrom 0 applying.now }
        ensures room { OnOk result (HasRoomForApplying applying.now self.new) }
        ensures kept { linked_in self.new ≡ linked_in self.old }
    {
        self.applying.reserve_list()?;
        self.touched.reserve_each(applying)
    }

    /// One more key, of this number, to which these apply.
    pub(crate) fn put_key(&mut self, applying: Vec<u32>, key: u32)
        requires { HasRoomForApplying applying.items self.old }
        ensures { linked_in self.new ≡ with_applying applying.items key (linked_in self.old) }
    {
        self.touched.put_each(applying.as_slice(), key);
        self.applying.add(applying);
    }

    /// The last world that one of these made up to another, and 0 where there is none.
    pub(crate) fn last_of(&self, numbers: &[u32], world: u32) -> u32
        ensures { AreInOrder (linked_in self.now) → IsLast (IsMadeBy (linked_in self.now).worlds numbers.now) world result }
    {
        let mut last = 0;
        for number in numbers {
            let one = last_up_to(self.worlds.get(*number), world);
            last = one.max(last);
        }
        last
    }

    /// The first world past another that one of these made.
    pub(crate) fn next_of(&self, numbers: &[u32], world: u32) -> Option<u32>
        ensures { AreInOrder (linked_in self.now) → IsNext (IsMadeBy (linked_in self.now).worlds numbers.now) world result }
    {
        let mut next = None;
        for number in numbers {
            let one = next_after(self.worlds.get(*number), world);
            next = earlier(one, next);
        }
        next
    }

    /// The last world that each of these made up to another, in order. Those without one are left out.
    pub(crate) fn latest_of(
        &self,
        alloc: Global,
        numbers: &[u32],
        world: u32,
    ) -> Result<Vec<u32>, AllocError>
        ensures { IfOk result (λ those. AreInOrder (linked_in self.now) → AreNumbers (IsLastMade (linked_in self.now).worlds numbers.now world) those.items) }
    {
        let mut those = Vec::new(alloc);
        for number in numbers {
            let last = last_up_to(self.worlds.get(*number), world);
            if last > 0 {
                those.push(last)?;
            }
        }
        those.sort_unstable();
        those.dedup();
        Ok(those)
    }

    /// The same as deletions, of which these are the places, in the order of the places.
    pub(crate) fn latest_dels(
        &self,
        alloc: Global,
        places: &[u32],
        world: u32,
    ) -> Result<Vec<Del>, AllocError>
        ensures { IfOk result (λ those. AreInOrder (linked_in self.now) → AreLastDels (linked_in self.now).worlds places.now world those.items) }
    {
        let mut those = Vec::new(alloc);
        for place in places {
            let last = last_up_to(self.worlds.get(*place), world);
            if last > 0 {
                those.push(Del {
                    world: last,
                    place: *place,
                })?;
            }
        }
        Ok(those)
    }
}
