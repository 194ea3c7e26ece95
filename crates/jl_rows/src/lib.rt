//! What the book of a run does with the rows of its cache: which row a miss wants, and which rows a change ends.
#![tactic(auto)]

mod choosing;
mod cutting;
pub mod laws;
mod plan;
mod rows;
mod span;

pub use choosing::{choose_for_key, has_method, select};
pub use cutting::cut_rows;
pub use plan::{NewRow, Plan, RowPlan, plan_for_key};
