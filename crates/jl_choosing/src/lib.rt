//! The definitions and the deletions of each function, and the choice among them for a call (Julia manual, Redefining Methods; Belyakova
//! et al., OOPSLA 2020).
#![tactic(auto)]

mod changes;
mod choosing;
mod tested;

pub use changes::{Changes, prelude_changes};
pub use choosing::find_applicable;
