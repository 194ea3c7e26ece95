//! The key that two texts name: that of a function, and that of a tuple of types.

ghost use Rattle.std.specs.Prelude.{IfOk};
ghost use Rattle.jl_causes.specs.Judged.{IsReadAs, IsKeyIn};

use crate::key_types::read_types;
use crate::type_text::find_function;
use jl_model::ty::Key;
use jl_report::Entry;
use jl_sig::Ready;
use std::alloc::{AllocError, Global};

/// The one key of the program whose function has this name and whose types, as those of a tuple, have this text; none where no key
/// has them.
pub fn read_key(
    alloc: Global,
    ready: &Ready,
    function: &[u8],
    tuple: &[u8],
) -> Result<Option<Key>, AllocError>
    ensures { IfOk result (λ key. IsReadAs ready.now function.now tuple.now key) }
{
    ready.valid();
    let Some(function) = find_function(ready.program(), function)? else {
        return Ok(None);
    };
    let Some(types) = read_types(alloc, ready, tuple)? else {
        return Ok(None);
    };
    Ok(Some(Key { function, types }))
}

/// The key that the texts of an entry name, where it is one of a key.
pub(crate) fn read_named(
    alloc: Global,
    ready: &Ready,
    entry: &Entry,
) -> Result<Option<Key>, AllocError>
    ensures { IfOk result (λ key. IsKeyIn ready.now entry.now key) }
{
    match entry {
        Entry::Key {
            function,
            tuple,
            ..
        } => {
            let key = read_key(alloc, ready, function.as_slice(), tuple.as_slice())?;
            Ok(key)
        }
        Entry::Begin(_)
        | Entry::Fill { .. }
        | Entry::Def { .. }
        | Entry::Del { .. }
        | Entry::Spawn { .. }
        | Entry::Done { .. } => Ok(None),
    }
}
