//! How much each command reads.

ghost use Rattle.std.specs.Prelude.{◌≡◌, Some};
ghost use Rattle.jl_cli.specs.Work.{most_taken, most_read};

use jl_command::Command;
use jl_history::MOST_HISTORY_BYTES;
use jl_model::limits::MOST_SOURCE_BYTES;

/// How many bytes a command takes at most.
pub(crate) fn most_taken(command: &Command) -> usize
    ensures { result ≡ most_taken (Some command.now) }
{
    match command {
        Command::Run(_, _)
        | Command::Trace(_, _)
        | Command::Check
        | Command::Which(_, _, _, _)
        | Command::Ambiguous(_, _) => MOST_SOURCE_BYTES,
        Command::Replay => MOST_HISTORY_BYTES,
        Command::Gen(_, _, _) => 0,
    }
}

/// How many bytes are read at most.
pub(crate) fn most_read(command: &Command) -> usize
    ensures { result ≡ most_read (Some command.now) }
{
    match command {
        Command::Run(_, _)
        | Command::Trace(_, _)
        | Command::Check
        | Command::Which(_, _, _, _)
        | Command::Ambiguous(_, _) => MOST_SOURCE_BYTES + 1,
        Command::Replay => MOST_HISTORY_BYTES + 1,
        Command::Gen(_, _, _) => 0,
    }
}
