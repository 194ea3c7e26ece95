//! From a script to a program.
#![tactic(auto)]

pub mod cells;
pub mod defined;
pub mod deletes;
pub mod forms;
pub mod functions;
pub mod judge;
pub mod known;
pub mod known_decls;
pub mod methods;
pub mod scopes;
pub mod state;
pub mod top;
pub mod types;
