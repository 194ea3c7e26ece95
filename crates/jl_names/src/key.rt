//! A name as the key of a table.

ghost use Rattle.std.specs.Prelude.{nat_eq};
ghost use Rattle.std.specs.Cmp.{partial_equiv_from_equiv};
ghost use Rattle.std.specs.Cmp.Lexicographic.{pointwise, bytes_decides, nat_list_eq_equiv, on_texts_equal};
ghost use Rattle.std.specs.Hash as fed;
ghost use Rattle.std.proofs.Common.{ap};

use indexmap::Equivalent;
use jl_model::ty::Bytes;
use std::hash::{Hash, Hasher};

/// A name that a table keeps. It shares the bytes, so no name is copied for its table.
#[derive(Drop)]
pub struct Key {
    pub name: Bytes,
}

impl PartialEq for Key {
    ghost eq = { λ x y. pointwise nat_eq x.name y.name };

    ghost laws = { partial_equiv_from_equiv (on_texts_equal (λ x. x.name)) };

    fn eq(&self, other: &Self) -> bool {
        self.name.as_slice() == other.name.as_slice()
    }
}

impl Eq for Key {
    ghost laws = { on_texts_equal (λ x. x.name) };
}

impl Hash for Key {
    ghost hash_input = { λ x. fed.slice fed.u8 x.name };

    ghost respects_eq = { λ x y h. ap (fed.slice fed.u8) ((bytes_decides x.name y.name).0 h) };

    fn hash<H: Hasher>(&self, state: &mut H) {
        self.name.as_slice().hash(state);
    }
}

/// A name is looked up by its bytes alone.
impl Equivalent<Key> for &[u8] {
    ghost equivalent = { λ q k. pointwise nat_eq q.now k.name };

    ghost respects_hash = { λ q k h. ap (fed.slice fed.u8) ((bytes_decides q.now k.name).0 h) };

    ghost respects_eq = { λ q x y. nat_list_eq_equiv.congr q.now x.name y.name };

    fn equivalent(&self, key: &Key) -> bool {
        *self == key.name.as_slice()
    }
}
