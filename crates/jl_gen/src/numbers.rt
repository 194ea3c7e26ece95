//! What the number of a script tells.

ghost use Rattle.std.specs.Prelude.{◌≡◌};
ghost use Rattle.jl_gen.specs.Script.{types_in, tasks_in, rounds_in};

/// The greatest number of a script.
pub const MOST_NUMBER: u32 = 99_999_999;
/// A script declares from 1 to so many struct types.
pub const TYPE_COUNTS: u32 = 64;
/// It starts from 1 to so many tasks.
pub const TASK_COUNTS: u32 = 32;
/// Each task makes fewer rounds than these.
pub const ROUND_COUNTS: u32 = 1000;

/// How many struct types a script declares.
pub(crate) fn types_in(n: u32) -> u32
    ensures { result ≡ types_in n }
{
    1 + n % TYPE_COUNTS
}

/// How many tasks it starts.
pub(crate) fn tasks_in(n: u32) -> u32
    ensures { result ≡ tasks_in n }
{
    1 + n / TYPE_COUNTS % TASK_COUNTS
}

/// How many rounds each task makes.
pub(crate) fn rounds_in(n: u32) -> u32
    ensures { result ≡ rounds_in n }
{
    n / (TYPE_COUNTS * TASK_COUNTS) % ROUND_COUNTS
}
