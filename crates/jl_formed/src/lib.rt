//! Well-formed scripts: what the grammar says of a script beyond its tree, form by form.
#![tactic(auto)]

pub mod laws;
