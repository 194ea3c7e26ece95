//! The table of nominal types, and the order of types without variables (Julia manual, Types).
#![tactic(auto)]

pub mod ancestor;
pub mod closed;
pub mod count;
pub mod expand;
mod form;
mod ground;
mod kept;
pub mod laws;
mod lineage;
mod normal_form;
pub mod put;
pub mod raw;
mod reduce;
pub mod same;
mod sort;
mod spell;
mod table;

pub use ground::ground_sub;
pub use kept::settled;
pub use normal_form::{NormFault, is_within_limits, normal};
pub use table::Table;
