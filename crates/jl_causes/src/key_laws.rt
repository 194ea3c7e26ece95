//! Laws of the texts of keys. They are about definitions alone: each function does nothing, and its contract is the law.

ghost use Rattle.jl_causes.specs.KeyLaws.{KeysApart, TypesAreRead};

/// No two keys of a valid program have the same texts.
pub fn law_keys_apart()
    ensures { KeysApart }
{}

/// The types of a key of a valid program are read from their text.
pub fn law_types_are_read()
    ensures { TypesAreRead }
{}
