//! What the statuses tell of what is due, and of what is answered.

ghost use Rattle.std.specs.Prelude.{◌≡◌, ◌↔◌, ℕ, List, Option, None, Some};
ghost use Rattle.jl_calculus.specs.declared.history.History.{History as AnyHistory};
ghost use Rattle.jl_io.specs.Faults.{Rose};
ghost use Rattle.jl_command.specs.declared.commands.Command.{Command as AnyCommand};
ghost use Rattle.jl_command.specs.declared.commands.Command.TheVariants.{Check};
ghost use Rattle.jl_work.specs.Owed.{unknown_line};
ghost use Rattle.jl_cli.specs.Due.{IsDue, IsAnswer, usage_line};
ghost use Rattle.jl_cli.specs.Laws.{ChecksTo, IsHistoryOf, IsRefusalLine, AsksOf, IsBeside};
ghost use Rattle.jl_cli.specs.Work.{script_of};
ghost use Rattle.jl_work.specs.declared.work.Question.{Question};

/// Status 2 is due exactly where the words are no command.
pub fn law_usage()
    ensures { (asked : Option AnyCommand) (bytes : List ℕ)
        (status : ℕ) (h : Option AnyHistory) (text : List ℕ)
        → IsDue asked bytes status h text → (status ≡ 2) ↔ (asked ≡ None) }
{}

/// What `check` owes is the counts of a program with status 0, or the line of a fault with status 3, and never a history.
pub fn law_check()
    ensures { (bytes : List ℕ) (status : ℕ) (h : Option AnyHistory) (text : List ℕ)
        → IsDue (Some Check) bytes status h text ↔ ChecksTo bytes status h text }
{}

/// A history that is handed out, with whatever status, is one that the run of the program of the command's script may have.
pub fn law_history()
    ensures { (asked : Option AnyCommand) (bytes written : List ℕ) (s s' k k' : ℕ)
        (status : ℕ) (h : AnyHistory)
        → IsAnswer asked bytes written (Rose s s') (Rose k k') status (Some h)
        → (c : AnyCommand) × (asked ≡ Some c) × IsHistoryOf c bytes h }
{}

/// With status 2 exactly the usage line is written, with status 3 exactly the line that tells why nothing was done, and with status 8
/// the line of a question that is not about the program. There is no history then.
pub fn law_refused()
    ensures usage { (asked : Option AnyCommand) (bytes written : List ℕ) (s s' k k' : ℕ)
        (h : Option AnyHistory)
        → IsAnswer asked bytes written (Rose s s') (Rose k k') 2 h
        → (asked ≡ None) × (written ≡ usage_line) × (h ≡ None) }
    ensures fault { (asked : Option AnyCommand) (bytes written : List ℕ) (s s' k k' : ℕ)
        (h : Option AnyHistory)
        → IsAnswer asked bytes written (Rose s s') (Rose k k') 3 h
        → (c : AnyCommand) × (asked ≡ Some c) × IsRefusalLine c bytes written × (h ≡ None) }
    ensures unknown { (asked : Option AnyCommand) (bytes written : List ℕ) (s s' k k' : ℕ)
        (h : Option AnyHistory)
        → IsAnswer asked bytes written (Rose s s') (Rose k k') 8 h
        → (c : AnyCommand) × (question : Question) × (asked ≡ Some c) × AsksOf c question
        × IsBeside (script_of c bytes) question × (written ≡ unknown_line) × (h ≡ None) }
{}

/// Where no count of faults rose and memory was not refused, exactly what is due was answered and written.
pub fn law_complete()
    ensures { (asked : Option AnyCommand) (bytes written : List ℕ) (s s' k k' : ℕ)
        (status : ℕ) (h : Option AnyHistory)
        → IsAnswer asked bytes written (Rose s s') (Rose k k') status h
        → (Rose s s' → ⊥) → (Rose k k' → ⊥) → (status ≡ 6 → ⊥) → IsDue asked bytes status h written }
{}
