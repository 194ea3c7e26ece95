//! Signatures: the kinds of their variables, their limits and their rows (Julia manual, Methods: Parametric Methods; Types:
//! UnionAll Types; Zappa Nardelli et al., OOPSLA 2018).
#![tactic(auto)]

pub mod arguments;
mod build;
mod expansion;
mod fault;
mod field_sigs;
mod fields;
pub mod forms;
mod inferred;
mod keep;
mod kept;
mod kind;
pub mod limits;
mod many;
mod ready;
pub mod row;
mod rows;
mod sig;
mod size;
mod standing;
pub mod types;
mod usable;
mod usable_flags;
mod variables;

pub use build::all_rows;
pub use fault::SigFault;
pub use fields::fields_written;
pub use kind::{Kind, kind_of};
pub use many::has_many_rows;
pub use ready::Ready;
pub use sig::{Prepared, Sig, prepare};
pub use size::{measure, measure_fields};
pub use standing::have_variables;
pub use usable::is_usable;
pub use usable_flags::{has_unused, usable_variables};
pub use variables::kinds;
