//! What the workers of a run share beside its history: the line of what is ready, the gates that are told of tasks, and the
//! numbers with which a run is set up.
#![tactic(auto)]

mod board;
mod gate;
mod line;
mod setup;

pub use board::Board;
pub use gate::{Gate, OpenGate, PairGate};
pub use line::{Line, Popped, PutFault};
pub use setup::Setup;
