//! The table of the keys that have numbers, which finds a key in one step, however many there are.

ghost use Rattle.std.specs.Prelude.{◌≡◌, ◌<◌, ◌++◌, ◌∷◌, [], MatchOption, Some, slice_get};
ghost use Rattle.std.specs.List.{Contains};
ghost use Rattle.indexmap.specs.IndexSet.{spare};

use indexmap::IndexSet;
use jl_model::ty::Key;

/// The number of a key, if the table has it. It takes no memory.
pub(crate) fn find_key(keys: &IndexSet<Key>, key: &Key) -> Option<usize>
    ensures { MatchOption result (Contains keys.now.keys key.now → ⊥) (λ number. slice_get keys.now.keys number ≡ Some key.now) }
{
    match keys.get_full(key) {
        Some((number, _)) => Some(number),
        None => None,
    }
}

/// Adds a key that the table does not have, for which there is room. It takes no memory.
pub(crate) fn add_key(keys: &mut IndexSet<Key>, key: Key)
    requires room { 0 < spare keys.old }
    requires new { Contains keys.old.keys key → ⊥ }
    ensures { keys.new.keys ≡ keys.old.keys ++ key ∷ [] }
{
    match keys.insert(key) {
        Ok(_) => {}
        Err(_) => unreachable!(),
    }
}
