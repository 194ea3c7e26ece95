//! Normal forms, and declarations that are added (Julia manual, Types: Abstract Types, Composite Types, Parametric Types).
#![tactic(auto)]

mod arguments;
mod checked;
mod counted;
mod declaring;
mod fault;
mod forms;
mod keep;
mod kept;
pub mod known;
mod many;
mod names;
mod outside;
mod parent;
pub mod places;
mod sizes;
mod types;
mod variables;
mod written;

pub use declaring::{declare, declare_new};
pub use fault::DeclareFault;
pub use forms::norm;
pub use jl_types::NormFault;
pub use variables::has_own_variables;
