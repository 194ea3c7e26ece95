//! Written types: what a type's text means where it stands (Julia manual, Types and Methods).
#![tactic(auto)]

pub mod fault;
pub mod names;
pub mod notes;
pub mod reading;
pub mod reads;
pub mod signatures;
pub mod text_order;
pub mod vars;
