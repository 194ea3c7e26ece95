//! Which histories have a text that can be read. It is about definitions alone: the function does nothing, and its contract is the
//! law.

ghost use Rattle.std.specs.Prelude.{◌≤◌, List, length};
ghost use Rattle.jl_program.specs.declared.tree.Program.{Program};
ghost use Rattle.jl_program.specs.Valid.{IsValid};
ghost use Rattle.jl_calculus.specs.declared.history.Event.{Event};
ghost use Rattle.jl_calculus.specs.Legal.{IsLegal};
ghost use Rattle.jl_report.specs.HistoryText.{entries_of, has_places, history_text};
ghost use Rattle.jl_history.specs.declared.history.TheConstants.{MOST_HISTORY_BYTES};
ghost use Rattle.jl_history.specs.Form.{AreEntries};
ghost use Rattle.jl_history.specs.Numbered.{IsNumbered};

/// The entries of each legal history of a valid program, of which the text has at most 67,108,864 bytes, are of the form that
/// `read_history` reads: its names, types, values and faults stand in one line in UTF-8, its outputs are UTF-8, and its numbers
/// are in their ranges. The program has no more definition sites, spawn places and deletion places than there are numbers for them.
pub fn law_legal_is_read()
    ensures { (P : Program) → IsValid P → IsNumbered P → (es : List Event) → IsLegal P es → length (history_text P es) ≤ MOST_HISTORY_BYTES → AreEntries (has_places P) (entries_of P es) }
{}
