//! Between which definitions calls are ambiguous in the newest world of a history (Julia manual, Methods: Method Ambiguities). Functions are
//! asked with lists of a few types; other calls are not asked about.
#![tactic(auto)]

mod ambiguity;
mod asking;
mod beyond;
mod lists;
mod made;
mod noting;
mod probing;
mod spelling;

pub use ambiguity::pairs;
pub use beyond::unexamined;
pub use made::changes_of;
pub use noting::Pair;
