//! Tables of names: what stands first under a name is found without a walk over all names.
#![tactic(auto)]

pub mod decls;
mod key;
pub mod list;
pub mod marked;
pub mod slots;
pub mod stack;
pub mod table;
