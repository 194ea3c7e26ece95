//! Searches along types for the variables of a row: what stands at the first place of one, and whether it stands there at all
//! (Zappa Nardelli et al., OOPSLA 2018).
#![tactic(auto)]

pub mod bounds;
pub mod find;
pub mod occurs;
