//! The book of a run: its one history, to which every key, row, definition, spawn and end is added, and the passes by which tasks
//! ask it (Julia manual, Redefining Methods; Belyakova et al., OOPSLA 2020).
#![tactic(auto)]

mod book;
mod choosing;
mod ending;
mod faults;
mod keys;
pub mod laws;
mod making;
mod parts;
mod pass;
mod resolved;
mod seats;
mod table;

pub use book::Book;
pub use faults::KeyFault;
pub use pass::Pass;
pub use resolved::{Resolved, RowMade};
