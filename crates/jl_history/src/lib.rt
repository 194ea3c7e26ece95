//! The text of a history, read: what it tells of each event, or the first line that is not of the form. Each history has
//! exactly one text, and each legal history of a valid program has one that can be read.
#![tactic(auto)]

mod fault;
mod fields;
mod history;
mod laws;
mod legible;
mod lines;
mod reader;
mod texts;

pub use fault::HistoryFault;
pub use fields::{MOST_ITEMS, MOST_NUMBER};
pub use history::{MOST_HISTORY_BYTES, read_history};
pub use laws::{law_one_line, law_one_text, law_other_version};
pub use legible::law_legal_is_read;
