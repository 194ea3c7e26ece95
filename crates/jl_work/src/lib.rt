//! From the bytes of a text to a script, a program, and what work on it comes to.
//!
//! [`script`] reads a text, [`resolve`] and [`check`] say what program it is, and [`run_source`], [`count`] and [`work_on`] what a
//! run or a check of that program comes to. Script and program are handed to the caller, who drops them.
#![tactic(auto)]

mod faults;
mod pair_lines;
mod place;
mod reading;
mod running;
mod span_lines;
mod split;
mod telling;
mod work;

pub use faults::{TOO_LONG, line};
pub use place::append_number;
pub use reading::{check, resolve, script};
pub use running::{Due, count, refusal, run_source, work_on};
pub use split::separator_among;
pub use work::{Question, Telling, Work};
