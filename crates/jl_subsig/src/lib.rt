//! The order of signatures: which signature is below which (Julia manual, Methods: Method Ambiguities; Zappa Nardelli et
//! al., OOPSLA 2018).
#![tactic(auto)]

mod below;
mod best;
mod choice;
mod concrete;
mod definitions;
mod find;
mod latest;
pub mod laws;
mod meet;
mod order;
mod rise;
mod row;
mod serve;
mod standing;
mod top;
mod values;

pub use choice::{Method, choose_method};
pub use definitions::choose;
pub use latest::is_same_sig;
pub use order::sig_sub;
pub use row::row_below;
pub use standing::{choose_standing, has_standing, is_same_at};
