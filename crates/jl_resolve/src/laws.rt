//! Laws of what a script means. They are about definitions alone: each function does nothing, and its contract is the law.

ghost use Rattle.std.specs.Prelude.{◌≡◌, ℕ, Option};
ghost use Rattle.jl_program.specs.declared.tree.Program.{Program};
ghost use Rattle.jl_grammar.specs.declared.tree.Script.{Script};
ghost use Rattle.jl_written.specs.declared.fault.Fault.{Fault};
ghost use Rattle.jl_resolve.specs.Program.{ComesTo};

/// A script comes to one program and to one first fault; so a script that is a program has no fault.
pub fn law_one_meaning()
    ensures program { (s : Script) (P Q : Program) (o r : Option Fault)
        → ComesTo s P o → ComesTo s Q r → P ≡ Q }
    ensures fault { (s : Script) (P Q : Program) (o r : Option Fault)
        → ComesTo s P o → ComesTo s Q r → o ≡ r }
{}
