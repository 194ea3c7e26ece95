//! Rows of the table of static faults, of whole scripts. They are laws over definitions alone: each function does nothing,
//! and its contract is the law.

ghost use Rattle.std.specs.Prelude.{◌≡◌, ◌⊎◌, ℕ, List, Option, true, false};
ghost use Rattle.jl_model.specs.declared.ty.Decl.{Decl};
ghost use Rattle.jl_program.specs.declared.tree.Program.{Program};
ghost use Rattle.jl_grammar.specs.declared.tree.Script.{Script};
ghost use Rattle.jl_formed.specs.Formed.{FormedScript};
ghost use Rattle.jl_written.specs.declared.fault.Fault.{Fault};
ghost use Rattle.jl_written.specs.declared.fault.StaticKind.{StaticKind};
ghost use Rattle.jl_written.specs.Answered.{comes_before};
ghost use Rattle.jl_resolve_forms.specs.TypesIn.{Tests};
ghost use Rattle.jl_judge.specs.Right.{IsRight};
ghost use Rattle.jl_resolve.specs.Program.{ComesTo, IsProgramOf, IsFaultOf};
ghost use Rattle.jl_fault_laws.specs.Rows.{has_row, TellTypes};
ghost use Rattle.jl_written.specs.declared.fault.StaticKind.TheVariants.{UnknownType, Rebound, DuplicateType, NameClash, TooManyParameters};
ghost use Rattle.jl_fault_laws.specs.Examples.{fault};
ghost use Rattle.jl_row_laws.specs.Script.{HoldsOf, Setting, RefusedOf, RefusedDeclaration};
ghost use Rattle.jl_row_laws.specs.Examples.{good, with_two_types, with_built_in, with_built_in_type, with_unknown_type, with_two_parameters, with_nine_parameters};

/// Tests that are right for a table answer a signature, and a type in a body, only by faults that no row of uses of names has.
#[tactic(none)]
pub fn law_right_tests_tell_types()
    ensures { (ds : List Decl) (t : Tests) → IsRight ds t → TellTypes t }
{}

/// What `program` of jl_resolve answers, by rows of uses of names. `only`: a script has UnknownName, UnknownFunction, UnknownType,
/// Rebound, DuplicateType, NameClash, TooManySites or TooManyArguments as its first fault only where the row of that fault holds of a
/// use of a name at its place. `first`: where a row holds of a use, its fault does not come before the one that the script has. `none`:
/// of a program no row holds.
#[tactic(none)]
pub fn law_program_rows()
    ensures only { (s : Script) → FormedScript s → (at : ℕ) (kind : StaticKind)
        → has_row kind ≡ true → IsFaultOf s at kind
        → HoldsOf s (record { at = at; kind = kind }) }
    ensures first { (s : Script) → FormedScript s → (at : ℕ) (kind : StaticKind)
        → IsFaultOf s at kind → (f : Fault) → HoldsOf s f
        → comes_before f (record { at = at; kind = kind }) ≡ false }
    ensures none { (s : Script) → FormedScript s → (P : Program) → IsProgramOf s P
        → (f : Fault) → HoldsOf s f → ⊥ }
{}

/// Each static fault of a script. `only`: it is the first one only where its row of names holds of a use at its place, where a use at its
/// place is refused for its types with that fault, or where the declaration of that name is. `first`: where one of these is refused, its
/// fault does not come before the one that the script has. `none`: in a program none is refused. `setting`: whatever
/// a script comes to, it has a setting.
#[tactic(none)]
pub fn law_each_program_fault()
    ensures only { (s : Script) → FormedScript s
        → (g : Setting s) (at : ℕ) (kind : StaticKind) → IsFaultOf s at kind
        → HoldsOf s (record { at = at; kind = kind })
        ⊎ RefusedOf s g (record { at = at; kind = kind })
        ⊎ RefusedDeclaration s (record { at = at; kind = kind }) }
    ensures first { (s : Script) → FormedScript s → (g : Setting s) (at : ℕ) (kind : StaticKind)
        → IsFaultOf s at kind → (f : Fault)
        → RefusedOf s g f ⊎ RefusedDeclaration s f
        → comes_before f (record { at = at; kind = kind }) ≡ false }
    ensures none { (s : Script) → FormedScript s → (g : Setting s) (P : Program)
        → IsProgramOf s P → (f : Fault)
        → RefusedOf s g f ⊎ RefusedDeclaration s f → ⊥ }
    ensures setting { (s : Script) (P : Program) (o : Option Fault) → ComesTo s P o → Setting s }
{}

/// The rows are computed on small scripts: of names in declarations none holds of a program, and each holds where its fault stands; a
/// declaration and a signature are refused.
#[tactic(none)]
pub fn law_declared_examples()
    ensures none { (f : Fault) → HoldsOf good f → ⊥ }
    ensures two_types { HoldsOf with_two_types (fault 34 DuplicateType) }
    ensures built_in { HoldsOf with_built_in (fault 14 NameClash) }
    ensures unknown { HoldsOf with_unknown_type (fault 12 UnknownType) }
    ensures parameters { HoldsOf with_two_parameters (fault 12 Rebound) }
    ensures refused { RefusedDeclaration with_built_in_type (fault 14 DuplicateType) }
    ensures many { (g : Setting with_nine_parameters)
        → RefusedOf with_nine_parameters g (fault 0 TooManyParameters) }
{}
