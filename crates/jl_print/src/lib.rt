//! Scripts printed as texts.
#![tactic(auto)]

mod print_forms;
mod print_heads;
mod print_items;
mod print_text;
mod print_types;
mod printing;

pub use printing::print;
