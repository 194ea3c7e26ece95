//! Why a key has no number.

/// Why a key has no number.
#[derive(Drop, Debug)]
pub enum KeyFault {
    KeysFull,
    Memory,
}
