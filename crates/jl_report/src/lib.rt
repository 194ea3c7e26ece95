//! What a run is told by: the text of its result, the text of its history, and the summary of a generated script's run.
#![tactic(auto)]

mod entries;
mod entry;
mod family;
mod lines;
mod result;
mod steps;
mod summed;

pub use entries::{append_history, first_line, has_places, history_text};
pub use entry::{Ending, Entries, Entry, Step, Steps};
pub use result::{append_result, render, status};
pub use summed::{append_summary, summary};
