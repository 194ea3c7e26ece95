//! Whether a type that is written in a body is allowed (Julia manual, Types: UnionAll Types; Methods: Parametric Methods). It may
//! have variables of its own and static parameters of the method around it.
#![tactic(auto)]

mod check;
mod forms;
mod statics;

pub use check::check_type;
pub use jl_sig::SigFault;
