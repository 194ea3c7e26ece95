//! Sources and sinks of bytes.
//!
//! A [`Source`] is read and a [`Sink`] is written piece by piece. Both count their faults, and an
//! answer that blames the device comes only where that count rose. [`read_up_to`] and
//! [`write_all`] make as many calls as it takes. There are three kinds of each: in memory without a
//! fault, in memory with faults at chosen calls, and over the standard streams.
#![tactic(auto)]

mod clean;
mod faults;
mod memory;
mod reading;
mod standard;
mod writing;

pub use clean::{CleanSink, CleanSource};
pub use memory::{MemSink, MemSource};
pub use reading::{Failed, ReadFault, Source, read_up_to};
pub use standard::{StdSink, StdSource};
pub use writing::{Sink, SinkFault, write_all};
