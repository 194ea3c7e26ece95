//! Stacks: places on them, and what is put on top.

ghost use Rattle.std.specs.Prelude.{◌≡◌, ◌≤◌, ◌++◌, ◌∷◌, [], IfOk, OnOk, OnErr, length};

use std::alloc::AllocError;

/// The number of entries of a stack, as the place where the next ones begin. A stack of 2^32 entries is out of memory.
pub(crate) fn place(length: usize) -> Result<u32, AllocError>
    ensures { IfOk result (λ place. place ≡ length) }
{
    match u32::try_from(length) {
        Ok(place) => Ok(place),
        Err(_) => Err(AllocError),
    }
}

/// An entry is put on top of a stack. Room is made first: where a push fails it hands the entry back, and the place of that is cleared at
/// each push.
#[inline(always)]
pub(crate) fn put_on_top<T: Drop>(stack: &mut Vec<T>, entry: T) -> Result<(), AllocError>
    ensures pushed { OnOk result (stack.new.items ≡ stack.old.items ++ entry ∷ []) }
    ensures grown { length stack.old.items ≤ length stack.new.items }
    ensures kept { OnErr result (stack.new.items ≡ stack.old.items) }
{
    match stack.reserve(1) {
        Ok(()) => {
            stack.push_reserved(entry);
            Ok(())
        }
        Err(error) => {
            drop(entry);
            Err(error)
        }
    }
}
