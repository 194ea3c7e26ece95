//! What it means that a type must stand: a law about definitions alone. The function does nothing, and its contract is the law.

ghost use Rattle.std.specs.Prelude.{◌≡◌, true, Some};
ghost use Rattle.jl_grammar.specs.declared.state.State.{State};
ghost use Rattle.jl_grammar.specs.Machine.{start, step_all, is_type_wanted};
ghost use Rattle.jl_grammar.specs.Texts.{Text, NoEnd};
ghost use Rattle.jl_grammar_laws.specs.Must.{TypeMust};

/// Where the machine is at a point where a type must stand, one must by the grammar: some script goes on with each type, and none
/// with a token that begins no type and no argument of one, and none with a variable. And only there: at each other point the
/// grammar allows another token, or does not allow each type.
pub fn law_type_must()
    ensures told { (ts : Text) (s : State) → NoEnd ts → step_all ts start ≡ Some s
        → is_type_wanted s.point ≡ true → TypeMust ts }
    ensures only { (ts : Text) (s : State) → NoEnd ts → step_all ts start ≡ Some s → TypeMust ts
        → is_type_wanted s.point ≡ true }
{}
