//! Where the script ends and the history begins in the input of `replay`.

ghost use Rattle.std.specs.Prelude.{◌≡◌};
ghost use Rattle.jl_cli.specs.Split.{separator_at};

use jl_report::first_line;
use jl_work::separator_among;

/// The place of the first line that is exactly a first line of a history, whatever the script.
pub(crate) fn separator_at(bytes: &[u8]) -> Option<usize>
    ensures { result ≡ separator_at bytes.now }
{
    let lines = [first_line(false).as_bytes(), first_line(true).as_bytes()];
    separator_among(&lines, bytes)
}
