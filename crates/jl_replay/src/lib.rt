//! The judge of a history's text: legal, not of the form, or illegal with the first event that has a cause and the first of its
//! causes.
#![tactic(auto)]

mod difference;
mod ends;
mod running;
mod runs;
mod steps;
mod told;
mod top;
mod verdict;

pub use top::replay;
pub use verdict::Verdict;
