//! The cache of choices: rows that threads search without a lock.
#![tactic(auto)]

mod cache;
mod found;

pub use cache::Cache;
pub use found::{Found, Miss, Missed};
