//! The texts of types, values and faults.
//!
//! A text is appended to a [`Row`](jl_model::rows::Row) of bytes, by [`append_type`], [`append_value`], [`append_fault`]
//! and [`append_error_line`], or made as a list of its own, by [`type_text`], [`value_text`] and [`fault_text`]. Each
//! takes time in proportion to its text, and recurs as deep as the type or the value is.
#![tactic(auto)]

mod faults;
mod numbers;
mod types;
mod values;

pub use faults::{append_error_line, append_fault, fault_text};
pub use types::{append_type, type_text};
pub use values::{append_value, value_text};
