//! Names that are taken: those of earlier types, and those of fields.

ghost use Rattle.std.specs.Prelude.{◌≡◌, ◌<◌, IsTrue, ◌↔◌, map};
ghost use Rattle.std.specs.List.{Contains};
ghost use Rattle.jl_model.specs.Refusals.{DuplicateType, DuplicateField};
ghost use Rattle.jl_norm.specs.Slots.{slot_of};

use jl_model::ty::{Decl, Field};
use jl_types::Table;

/// Whether an earlier type has this name.
pub fn is_taken(table: &Table, decl: &Decl) -> bool
    ensures { IsTrue result ↔ DuplicateType table.now decl.now }
{
    for number in 0..table.count() {
        if table.decl(number).name.as_slice() == decl.name.as_slice() {
            return true;
        }
    }
    false
}

/// Whether one of these fields has this name.
fn is_named(fields: &[Field], name: &[u8]) -> bool
    ensures { IsTrue result ↔ Contains (map (λ f. f.name) fields.now) name.now }
{
    for field in fields {
        if field.name.as_slice() == name {
            return true;
        }
    }
    false
}

/// How many slots there are for names: four for each field that a struct may have, so that few share one.
const SLOTS: usize = 256;

/// The slot of a name, which other names may share. It goes by the last two bytes, in which names of fields
/// differ most. With this factor each of `x0` to `x63` has its own.
fn slot_of(name: &[u8]) -> usize
    ensures value { result ≡ slot_of name.now }
    ensures within { result < SLOTS }
{
    match name {
        [.., before, last] => (70 * *before as usize + *last as usize) % SLOTS,
        [only] => 71 * *only as usize % SLOTS,
        [] => 0,
    }
}

/// Whether two fields have one name. A name is compared with those before it only where its slot is taken.
pub fn has_twins(decl: &Decl) -> bool
    ensures { IsTrue result ↔ DuplicateField decl.now }
{
    let fields = decl.fields.as_slice();
    let mut taken = [false; SLOTS];
    for (i, field) in fields.iter().enumerate() {
        let name = field.name.as_slice();
        let slot = slot_of(name);
        if taken[slot] && is_named(&fields[..i], name) {
            return true;
        }
        taken[slot] = true;
    }
    false
}
