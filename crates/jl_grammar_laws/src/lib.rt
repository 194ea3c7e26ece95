//! Laws of the grammar of scripts that say of the machine's points what they mean by the grammar.
#![tactic(auto)]

pub mod laws;
