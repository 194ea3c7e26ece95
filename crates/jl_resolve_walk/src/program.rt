//! What is answered for a script.

use jl_program::tree::Program;
use jl_written::fault::Fault;

/// A program, and the first fault of its text: where there is none, the script is a program.
#[derive(Drop)]
pub struct Resolved {
    pub program: Program,
    pub fault: Option<Fault>,
}
