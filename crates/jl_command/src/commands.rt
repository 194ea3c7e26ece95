//! The commands.

use jl_model::ty::Bytes;

/// A command. Threads are from 1 to 64, fuel is at most 1,000,000,000.
#[derive(Drop)]
pub enum Command {
    /// Runs the script, on so many threads and with so much fuel, and writes the text of its result.
    Run(u32, u64),
    /// The same, and writes the history too.
    Trace(u32, u64),
    /// Writes how many types and definitions the script has.
    Check,
    /// Judges a history.
    Replay,
    /// Runs the generated script of this number, and writes a summary.
    Gen(u32, u32, u64),
    /// Runs the script, and writes which definition a call of the function of this name with arguments of this type chooses in each world.
    Which(Bytes, Bytes, u32, u64),
    /// Runs the script, and writes at which types a call could not choose between two definitions.
    Ambiguous(u32, u64),
}

/// What the first word asks for.
#[derive(Clone, Copy, PartialEq, Eq, Debug)]
pub(crate) enum Verb {
    Check,
    Replay,
    Run,
    Trace,
    Ambiguous,
    Gen,
    Which,
}
