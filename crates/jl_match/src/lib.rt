//! Signatures that are allowed, and whether they apply to the types of arguments (Julia manual, Methods: Parametric Methods;
//! Zappa Nardelli et al., OOPSLA 2018).
#![tactic(auto)]

mod bindings;
mod check;
mod concrete;
mod find;
mod hits;
pub mod laws;
mod make;
mod meet;
pub mod names;
pub mod places;
mod row;
mod serve;
mod signature;
mod values;

pub use bindings::Bindings;
pub use check::check_sig;
pub use concrete::is_concrete;
pub use jl_sig::{Sig, SigFault};
pub use make::make_sig;
pub use names::is_well_named;
pub use signature::applies;
