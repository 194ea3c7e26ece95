//! The index of a history: for each function its definitions and the keys that ask it, and for each key its rows and the
//! definitions that touch it (Julia manual, Redefining Methods; Belyakova et al., OOPSLA 2020).
#![tactic(auto)]

mod count;
mod index;
mod latest;
mod links;
mod lists;
mod newest;
mod touch;

pub use count::count_up_to;
pub use index::Index;
pub use newest::NewestRow;
pub use touch::{find_places, find_sites, touches};
