//! Laws of the form. They are about definitions alone: each function does nothing, and its contract is the law.

ghost use Rattle.std.specs.Prelude.{◌≡◌, ◌++◌, ℕ, Bool, not, List};
ghost use Rattle.jl_report.specs.declared.entry.Entry.{Entry};
ghost use Rattle.jl_report.specs.HistoryText.{header, entries_text};
ghost use Rattle.jl_history.specs.Form.{AreEntries, IsFirstBad};

/// Each history has a text of its own.
pub fn law_one_text()
    ensures { (places : Bool) → (xs ys : List Entry) → AreEntries places xs → AreEntries places ys → entries_text places xs ≡ entries_text places ys → xs ≡ ys }
{}

/// At most one line of a text is the first that is not of the form.
pub fn law_one_line()
    ensures { (places : Bool) → (text : List ℕ) → (m n : ℕ) → IsFirstBad places m text → IsFirstBad places n text → m ≡ n }
{}

/// The first line of the one version is bad in a text of the other.
pub fn law_other_version()
    ensures { (places : Bool) → (rest : List ℕ) → IsFirstBad places 1 (header (not places) ++ rest) }
{}
