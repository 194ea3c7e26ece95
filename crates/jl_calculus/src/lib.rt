//! What running a program means, and what a history of a run is.
#![tactic(auto)]

pub mod answer_laws;
pub mod choice_laws;
pub mod history;
pub mod history_laws;
pub mod laws;
pub mod led_laws;
pub mod same;
pub mod step;
