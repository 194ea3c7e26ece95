//! The text of a script.

ghost use Rattle.std.specs.Prelude.{ℕ, ◌≡◌, ◌≤◌, List, length, IfOk};
ghost use Rattle.jl_model.specs.declared.limits.TheConstants.{MOST_SOURCE_BYTES};
ghost use Rattle.jl_print.specs.Printed.{script_terminals};
ghost use Rattle.jl_print.specs.PrintsBack.{IsSource, ReadsBack};
ghost use Rattle.jl_print.specs.Spelling.{text_of};

use crate::print_items::put_script;
use crate::print_text::put_terminals;
use jl_grammar::tree::Script;
use jl_model::rows::Row;
use jl_model::ty::Bytes;
use std::alloc::{AllocError, Global};

/// The tokens of a script, and their text.
fn script_text(alloc: Global, script: &Script) -> Result<Bytes, AllocError>
    ensures { IfOk result (λ text. text ≡ text_of (script_terminals script.now)) }
{
    let mut terminals = Row::new(alloc);
    put_script(&mut terminals, alloc, script)?;
    let mut text = Row::new(alloc);
    put_terminals(&mut text, terminals.as_slice())?;
    text.into_shared(alloc)
}

/// The text of a script, item by item: each token with a space behind it, each item, statement and field in a line of its
/// own. Where the script is that of a source and the text is no longer than 1,048,576 bytes, so that it may be a source
/// itself, it reads as the same script, places aside. The one error is want of memory.
pub fn print(alloc: Global, script: &Script) -> Result<Bytes, AllocError>
    ensures text { IfOk result (λ text. text ≡ text_of (script_terminals script.now)) }
    ensures reads_back { (source : List ℕ) → IsSource source script.now
        → IfOk result (λ text. length text ≤ MOST_SOURCE_BYTES → ReadsBack text script.now) }
{
    script_text(alloc, script)
}
