//! Laws of reading written types: what the types of a script are known to be where no fault stands (Julia manual, Types).
//! They are about definitions alone: each function does nothing, and its contract is the law.
#![tactic(auto)]

pub mod bodies;
pub mod declarations;
pub mod reads;
