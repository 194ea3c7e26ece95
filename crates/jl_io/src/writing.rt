//! Sinks, and writing all of a text.

ghost use Rattle.std.specs.Prelude.{◌≡◌, ℕ, ◌<◌, ◌≤◌, List, [], length, take};
ghost use Rattle.std.specs.Prelude.{Option, IfOk, IsOk, OnOk, OnErr, IfErr};
ghost use Rattle.jl_io.specs.Faults.{IsWriteCause};
ghost use Rattle.jl_io.specs.Moved.{Takes};

/// Why a write was refused.
#[derive(Debug, Clone, Copy, PartialEq, Eq)]
pub enum SinkFault {
    /// The device failed.
    Failed,
    /// Memory was refused.
    Memory,
}

/// What bytes are written to.
pub trait Sink {
    /// How often a call has failed. It never falls, and may stay at the last value of a `u64`.
    ghost faults: { Self → ℕ };

    /// The bytes that were written, where the sink tells them.
    ghost written: { Self → Option (List ℕ) };

    /// Takes the first bytes of `bytes`, which is not empty, and answers their number, at least 1.
    /// A write that is refused takes nothing.
    fn write(&mut self, bytes: &[u8]) -> Result<usize, SinkFault>
        requires { 0 < length bytes.now }
        ensures counted { faults self.old ≤ faults self.new }
        ensures within { IfOk result (λ count. (1 ≤ count) × (count ≤ length bytes.now)) }
        ensures takes { IfOk result (λ count.
            Takes (written self.old) (take count bytes.now) (written self.new)) }
        ensures quiet { OnOk result (faults self.new ≡ faults self.old) }
        ensures rose { IfErr result (λ fault. IsWriteCause fault (faults self.old) (faults self.new)) }
        ensures kept { OnErr result (written self.new ≡ written self.old) };
}

/// Writes all the bytes. After a fault the sink holds some first part of them. No write is offered
/// an empty piece, so empty `bytes` leave the sink untouched.
pub fn write_all<K: Sink>(sink: &mut K, bytes: &[u8]) -> Result<(), SinkFault>
    ensures counted { K.faults sink.old ≤ K.faults sink.new }
    ensures taken { (count : ℕ) × (count ≤ length bytes.now)
        × Takes (K.written sink.old) (take count bytes.now) (K.written sink.new) }
    ensures all { OnOk result (Takes (K.written sink.old) bytes.now (K.written sink.new)) }
    ensures quiet { OnOk result (K.faults sink.new ≡ K.faults sink.old) }
    ensures rose { IfErr result (λ fault.
        IsWriteCause fault (K.faults sink.old) (K.faults sink.new)) }
    ensures empty { bytes.now ≡ [] → IsOk result }
    ensures unchanged { bytes.now ≡ [] → sink.new ≡ sink.old }
{
    let mut done = 0;
    while done < bytes.len() {
        done += sink.write(&bytes[done..])?;
    }
    Ok(())
}
