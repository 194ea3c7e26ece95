//! Laws of the grammar of scripts, and of the machine that reads it.

ghost use Rattle.std.specs.Prelude.{◌≡◌, ◌++◌, ◌∷◌, [], length, Option, Some, None};
ghost use Rattle.jl_typeread.specs.declared.terminal.Terminal.TheVariants.{End};
ghost use Rattle.jl_grammar.specs.declared.mark.Marked.{Marked};
ghost use Rattle.jl_grammar.specs.declared.state.ItemsRead.{ItemsRead};
ghost use Rattle.jl_grammar.specs.declared.state.State.{State};
ghost use Rattle.jl_grammar.specs.declared.state.Point.TheVariants.{Entry};
ghost use Rattle.jl_grammar.specs.Texts.{Text, Spot, tok, NoEnd};
ghost use Rattle.jl_grammar.specs.Grammar.{ScriptText};
ghost use Rattle.jl_grammar.specs.Turns.{at};
ghost use Rattle.jl_grammar.specs.Machine.{start, step, step_all};
ghost use Rattle.jl_grammar.specs.Reads.{IsWrong};

/// Tokens are one script at most.
pub fn law_one_script()
    ensures { (xs ys : ItemsRead) (ts : Text)
        → ScriptText xs ts → ScriptText ys ts → xs ≡ ys }
{}

/// The machine reads the tokens of a script, with the source's end behind them, to its end.
pub fn law_scripts_are_read()
    ensures { (xs : ItemsRead) (ts : Text) (p : Spot) → ScriptText xs ts
        → step_all (ts ++ tok End p ∷ []) start ≡ at Entry [] xs }
{}

/// What the machine reads to the source's end is a script.
pub fn law_what_is_read_is_a_script()
    ensures { (ts : Text) (p : Spot) (s : State)
        → NoEnd ts → step_all (ts ++ tok End p ∷ []) start ≡ Some s
        → (xs : ItemsRead) × (at Entry [] xs ≡ Some s) × ScriptText xs ts }
{}

/// The first token that the machine does not take is wrong: some script begins with the tokens before it, and none with
/// it.
pub fn law_first_wrong_token()
    ensures { (ts us : Text) (t : Marked) (s : State)
        → NoEnd ts → step_all ts start ≡ Some s → step t (Some s) ≡ None
        → IsWrong (ts ++ t ∷ us) (length ts) }
{}

/// Where the machine does not take the source's end, some script begins with the tokens, which are none themselves.
pub fn law_wrong_end()
    ensures { (ts : Text) (p : Spot) (s : State)
        → NoEnd ts → step_all ts start ≡ Some s → step (tok End p) (Some s) ≡ None
        → IsWrong ts (length ts) }
{}
