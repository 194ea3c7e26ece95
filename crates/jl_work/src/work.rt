//! Work on a script.

use jl_model::ty::Bytes;
use jl_queue::Setup;

/// What is told of a run.
#[derive(Clone, Copy, PartialEq, Eq, Debug)]
pub enum Telling {
    /// The text of its result.
    Text,
    /// The text of its result, and then the text of its history.
    Trace,
    /// The summary of the run of the generated script of this number.
    Summary(u32),
    /// The pairs of definitions between which calls are ambiguous.
    Pairs,
}

/// Which definition a call of the function of this name with arguments of this type chooses.
#[derive(Drop)]
pub struct Question {
    pub name: Bytes,
    pub ty: Bytes,
}

/// What is done with a script alone.
#[derive(Drop)]
pub enum Work {
    /// Its types and definitions are counted.
    Check,
    /// It is run.
    Run(Setup, Telling),
    /// It is run, and a question about the run is answered.
    Which(Setup, Question),
}
