//! When a status is due, from what the bytes are alone, and from how the run ended.

ghost use Rattle.std.specs.Prelude.{◌≡◌, ◌↔◌, ℕ, List, Option, None, Some, IsSome};
ghost use Rattle.jl_calculus.specs.declared.history.History.{History as AnyHistory};
ghost use Rattle.jl_calculus.specs.Legal.{status_of};
ghost use Rattle.jl_queue.specs.declared.setup.Setup.{Setup as AnySetup};
ghost use Rattle.jl_command.specs.declared.commands.Command.{Command as AnyCommand};
ghost use Rattle.jl_command.specs.declared.commands.Command.TheVariants.{Check, Replay};
ghost use Rattle.jl_program.specs.declared.tree.Program.{Program};
ghost use Rattle.jl_replay.specs.Verdict.{IsLegalText};
ghost use Rattle.jl_work.specs.declared.work.Work.TheVariants as W;
ghost use Rattle.jl_work.specs.declared.work.Telling.{Telling as AnyTelling};
ghost use Rattle.jl_work.specs.declared.work.Question.{Question};
ghost use Rattle.jl_cli.specs.Split.{history_in};
ghost use Rattle.jl_cli.specs.Work.{script_of, work_of};
ghost use Rattle.jl_cli.specs.Due.{IsDue};
ghost use Rattle.jl_work.specs.Owed.{IsProgram};
ghost use Rattle.jl_cli.specs.Laws.{HasProgram, AsksOf, IsAnswerable, IsBeside, IsJudgedOver, IsToldIllegal, IsToldLegal};

/// Status 3 is due exactly where there is no program: the script is none, or the input of `replay` is too long or has no history.
/// For `check`, status 0 is due exactly where it is one.
pub fn law_program_status()
    ensures none { (c : AnyCommand) (bytes : List ℕ)
        (status : ℕ) (h : Option AnyHistory) (text : List ℕ)
        → IsDue (Some c) bytes status h text → (status ≡ 3) ↔ (HasProgram c bytes → ⊥) }
    ensures checked { (bytes : List ℕ) (status : ℕ) (h : Option AnyHistory) (text : List ℕ)
        → IsDue (Some Check) bytes status h text → (status ≡ 0) ↔ IsProgram bytes }
{}

/// A command that runs its script and asks no question owes a history exactly where the script is a program. The status with a history is 0 where the root
/// ended with a value, and 1 where it ended with a fault.
pub fn law_run_status()
    ensures history { (c : AnyCommand) (setup : AnySetup) (telling : AnyTelling) (bytes : List ℕ)
        (status : ℕ) (h : Option AnyHistory) (text : List ℕ)
        → work_of c ≡ Some (W.Run setup telling)
        → IsDue (Some c) bytes status h text → IsSome h ↔ IsProgram (script_of c bytes) }
    ensures outcome { (c : AnyCommand) (bytes : List ℕ) (status : ℕ)
        (h : AnyHistory) (text : List ℕ)
        → IsDue (Some c) bytes status (Some h) text → status ≡ status_of h.events }
{}

/// `which` owes a history exactly where its script is a program and its question is about it, and status 8 exactly where the script is a
/// program and the question is not about it.
pub fn law_which_status()
    ensures history { (c : AnyCommand) (question : Question) (bytes : List ℕ)
        (status : ℕ) (h : Option AnyHistory) (text : List ℕ)
        → AsksOf c question
        → IsDue (Some c) bytes status h text → IsSome h ↔ IsAnswerable (script_of c bytes) question }
    ensures unknown { (c : AnyCommand) (question : Question) (bytes : List ℕ)
        (status : ℕ) (h : Option AnyHistory) (text : List ℕ)
        → AsksOf c question
        → IsDue (Some c) bytes status h text → (status ≡ 8) ↔ IsBeside (script_of c bytes) question }
{}

/// Status 7 is due only for `replay`, and exactly where its input is a program with a history that is not legal; with it the line of
/// the verdict is. Status 0 is due of `replay` exactly where its input is a program with a history that is legal.
pub fn law_replay_status()
    ensures alone { (asked : Option AnyCommand) (bytes : List ℕ) (h : Option AnyHistory) (text : List ℕ)
        → IsDue asked bytes 7 h text → (asked ≡ Some Replay) × (h ≡ None) }
    ensures illegal { (bytes : List ℕ) (h : Option AnyHistory) (text : List ℕ)
        → IsDue (Some Replay) bytes 7 h text
        → (P : Program) × IsJudgedOver bytes P × IsToldIllegal P (history_in bytes) text }
    ensures legal { (bytes : List ℕ) (h : Option AnyHistory) (text : List ℕ)
        → IsDue (Some Replay) bytes 0 h text
        → (P : Program) × IsJudgedOver bytes P × IsToldLegal P (history_in bytes) text }
    ensures found { (bytes : List ℕ) (P : Program) (n : ℕ) → IsJudgedOver bytes P
        → IsLegalText P (history_in bytes) n
        → (status : ℕ) (h : Option AnyHistory) (text : List ℕ)
        → IsDue (Some Replay) bytes status h text → status ≡ 0 }
    ensures refuted { (bytes : List ℕ) (P : Program) → IsJudgedOver bytes P
        → ((n : ℕ) → IsLegalText P (history_in bytes) n → ⊥)
        → (status : ℕ) (h : Option AnyHistory) (text : List ℕ)
        → IsDue (Some Replay) bytes status h text → status ≡ 7 }
{}
