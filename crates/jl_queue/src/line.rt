//! The line of what is ready.

ghost use Rattle.std.specs.Prelude.{◌≡◌, ◌↔◌, ◌∷◌, ◌++◌, [], true, false, Err, OnOk, OnErr, IfErr, List, nat_eq, length};
ghost use Rattle.jl_queue.specs.declared.line.PutFault.TheVariants as Put;
ghost use Rattle.jl_queue.specs.declared.line.Popped.TheVariants as Pop;

use std::alloc::{AllocError, AllocFailed, Global};
use std::collections::VecDeque;
use std::marker::Model;

/// Values that wait for a worker, first in, first out; no value is put into a closed line. Contracts see the values in their
/// order, and whether the line is closed. It stands behind a lock, so each call is short and takes at most the memory of one place.
#[derive(Drop)]
pub struct Line<T> {
    values: VecDeque<T>,
    closed: bool,
}

impl<T> Model for Line<T> {
    ghost use Rattle.std.specs.Prelude.{List, Bool};

    ghost Value = { List T × Bool };

    ghost view = { λ line. (line.values.items, line.closed) };
}

/// Why a value was not put into the line. It comes back.
#[derive(Drop)]
pub enum PutFault<T> {
    Closed(T),
    Memory(T),
}

/// What a line gives: its first value, or that there is none, and then whether one may still come.
#[derive(Drop)]
pub enum Popped<T> {
    Item(T),
    Empty,
    Closed,
}

impl<T> Line<T> {
    /// An open line without values, which takes no memory.
    pub fn new(alloc: Global) -> Line<T>
        ensures { result ≡ ([], false) }
    {
        Line {
            values: VecDeque::new(alloc),
            closed: false,
        }
    }

    /// Whether the line has been closed.
    pub fn is_closed(&self) -> bool
        ensures { result ≡ self.now.1 }
    {
        self.closed
    }

    /// Whether no value is in the line.
    pub fn is_empty(&self) -> bool
        ensures { result ≡ nat_eq (length self.now.0) 0 }
    {
        self.values.is_empty()
    }

    /// How many values are in the line.
    pub fn len(&self) -> usize
        ensures { result ≡ length self.now.0 }
    {
        self.values.len()
    }

    /// Closes the line for good. The values that are in it are still handed out.
    pub fn close(&mut self)
        ensures { self.new ≡ (self.old.0, true) }
    {
        self.closed = true;
    }

    /// Puts a value last. A closed line hands it back, and so does an open one that has no memory for it.
    pub fn push(&mut self, value: T) -> Result<(), PutFault<T>>
        ensures put { OnOk result (self.new ≡ (self.old.0 ++ value ∷ [], self.old.1)) }
        ensures closed { result ≡ Err (Put.Closed value) ↔ self.old.1 ≡ true }
        ensures open { self.old.1 ≡ false → IfErr result (λ fault. fault ≡ Put.Memory value) }
        ensures kept { OnErr result (self.new ≡ self.old) }
    {
        if self.closed {
            return Err(PutFault::Closed(value));
        }
        match self.values.push_back(value) {
            Ok(()) => Ok(()),
            Err(AllocFailed { value }) => Err(PutFault::Memory(value)),
        }
    }

    /// Puts values behind those that are there, in their order, and leaves the list that they came from empty. It asks for memory
    /// first, so that where it is refused all stay where they are.
    pub(crate) fn append(&mut self, values: &mut VecDeque<T>) -> Result<(), AllocError>
        ensures put { OnOk result (self.new ≡ (self.old.0 ++ values.old.items, self.old.1)) }
        ensures taken { OnOk result (values.new.items ≡ []) }
        ensures kept { OnErr result ((self.new ≡ self.old) × (values.new.items ≡ values.old.items)) }
    {
        self.values.append(values)
    }

    /// Takes the first value out.
    pub fn pop(&mut self) -> Popped<T>
        ensures item { (first : T) (rest : List T) → self.old.0 ≡ first ∷ rest → (result ≡ Pop.Item first) × (self.new ≡ (rest, self.old.1)) }
        ensures empty { self.old ≡ ([], false) → (result ≡ Pop.Empty) × (self.new ≡ self.old) }
        ensures closed { self.old ≡ ([], true) → (result ≡ Pop.Closed) × (self.new ≡ self.old) }
    {
        match self.values.pop_front() {
            Some(value) => Popped::Item(value),
            None => {
                if self.closed {
                    Popped::Closed
                } else {
                    Popped::Empty
                }
            }
        }
    }
}
