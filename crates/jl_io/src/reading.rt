//! Sources, and reading up to a limit.

ghost use Rattle.std.specs.Prelude.{◌≡◌, ℕ, ◌+◌, ◌<◌, ◌≤◌, List, ◌++◌, length, take, vec_len, vec_capacity};
ghost use Rattle.std.specs.Prelude.{Option, IfOk, OnOk, OnErr, IfErr};
ghost use Rattle.jl_io.specs.Faults.{Rose, IsReadCause};
ghost use Rattle.jl_io.specs.Moved.{Gives, EndsExactly, NothingLeft};
ghost use Rattle.jl_io.specs.declared.reading.ReadFault.TheVariants.{Failed as ReadFailed, Memory};

use std::alloc::{AllocError, Global};

/// How many bytes one read of [`read_up_to`] asks for at most.
const PIECE: usize = 8192;

/// A read failed.
#[derive(Debug, Clone, Copy, PartialEq, Eq)]
pub struct Failed;

/// Why [`read_up_to`] stopped early.
#[derive(Debug, Clone, Copy, PartialEq, Eq)]
pub enum ReadFault {
    /// A read of the source failed.
    Failed,
    /// Memory was refused.
    Memory,
}

impl From<Failed> for ReadFault {
    ghost from_gives = { λ _ fault. fault ≡ ReadFailed };

    fn from(_: Failed) -> ReadFault {
        ReadFault::Failed
    }
}

impl From<AllocError> for ReadFault {
    ghost from_gives = { λ _ fault. fault ≡ Memory };

    fn from(_: AllocError) -> ReadFault {
        ReadFault::Memory
    }
}

/// What bytes are read from.
pub trait Source {
    /// How often a call has failed. It never falls, and may stay at the last value of a `u64`.
    ghost faults: { Self → ℕ };

    /// The bytes that are left to be read, where the source tells them.
    ghost left: { Self → Option (List ℕ) };

    /// Puts the next bytes at the front of `into`, which is not empty, and answers their number.
    /// Zero is the end of the input. A read that fails loses nothing.
    fn read(&mut self, into: &mut [u8]) -> Result<usize, Failed>
        requires { 0 < length into.old }
        ensures counted { faults self.old ≤ faults self.new }
        ensures within { IfOk result (λ count. count ≤ length into.new) }
        ensures gives { IfOk result (λ count.
            Gives (left self.old) (take count into.new) (left self.new)) }
        ensures ended { IfOk result (λ count. EndsExactly (left self.old) count) }
        ensures quiet { OnOk result (faults self.new ≡ faults self.old) }
        ensures rose { OnErr result (Rose (faults self.old) (faults self.new)) }
        ensures kept { OnErr result (left self.new ≡ left self.old) };
}

/// Reads to the end of the input, or until `most` bytes are there. A caller that accepts no more
/// than some number of bytes asks for one more than that. What was read before a fault is gone.
///
/// Memory is asked for before each read, so that no byte is read for which there is no room.
pub fn read_up_to<S: Source>(
    alloc: Global,
    source: &mut S,
    most: usize,
) -> Result<Vec<u8>, ReadFault>
    ensures counted { S.faults source.old ≤ S.faults source.new }
    ensures taken { (bytes : List ℕ) × (length bytes ≤ most)
        × Gives (S.left source.old) bytes (S.left source.new)
        × OnErr result (length bytes < most) }
    ensures within { IfOk result (λ bytes. length bytes.items ≤ most) }
    ensures gives { IfOk result (λ bytes.
        Gives (S.left source.old) bytes.items (S.left source.new)) }
    ensures ended { IfOk result (λ bytes.
        length bytes.items < most → NothingLeft (S.left source.new)) }
    ensures quiet { OnOk result (S.faults source.new ≡ S.faults source.old) }
    ensures rose { IfErr result (λ fault.
        IsReadCause fault (S.faults source.old) (S.faults source.new)) }
{
    let mut bytes = Vec::new(alloc);
    let mut piece = [0u8; PIECE];
    while bytes.len() < most {
        let spare = make_room(&mut bytes)?;
        let room = PIECE.min(spare).min(most - bytes.len());
        let count = read_piece(source, &mut piece[..room], &mut bytes)?;
        if count == 0 {
            return Ok(bytes);
        }
    }
    Ok(bytes)
}

/// Answers how many more bytes fit without memory, which are one or more: where none do, it makes room.
fn make_room(bytes: &mut Vec<u8>) -> Result<usize, AllocError>
    ensures items { bytes.new.items ≡ bytes.old.items }
    ensures room { IfOk result (λ room.
        (0 < room) × (vec_len bytes.new + room ≤ vec_capacity bytes.new)) }
{
    if bytes.len() == bytes.capacity() {
        bytes.reserve(PIECE)?;
    }
    Ok(bytes.capacity() - bytes.len())
}

/// Reads once, appends what came to `bytes`, and answers its length.
fn read_piece<S: Source>(
    source: &mut S,
    into: &mut [u8],
    bytes: &mut Vec<u8>,
) -> Result<usize, Failed>
    requires some { 0 < length into.old }
    requires fits { vec_len bytes.old + length into.old ≤ vec_capacity bytes.old }
    ensures counted { S.faults source.old ≤ S.faults source.new }
    ensures taken { IfOk result (λ count. (piece : List ℕ) × (length piece ≤ length into.new)
        × Gives (S.left source.old) piece (S.left source.new)
        × (count ≡ length piece) × (bytes.new.items ≡ bytes.old.items ++ piece)) }
    ensures ended { IfOk result (λ count. count ≡ 0 → NothingLeft (S.left source.new)) }
    ensures quiet { OnOk result (S.faults source.new ≡ S.faults source.old) }
    ensures rose { OnErr result (Rose (S.faults source.old) (S.faults source.new)) }
    ensures kept { OnErr result (S.left source.new ≡ S.left source.old) }
{
    let count = source.read(into)?;
    match bytes.extend_from_slice(&into[..count]) {
        Ok(()) => Ok(count),
        Err(_) => unreachable!(),
    }
}
