//! The tests that the resolver asks of a table of valid declarations: the order of types, and what refuses a signature, a type
//! in a body and the fields of a struct (Julia manual, Types and Methods).
#![tactic(auto)]

mod judge;
mod kept;
mod known;
pub mod laws;
mod order;
mod refusals;

pub use judge::{TableJudge, judge_over, law_judge_is_right};
pub use kept::Kept;
