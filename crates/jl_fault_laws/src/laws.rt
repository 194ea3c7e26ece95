//! Rows of the table of static faults, and the order of numbers. They are about definitions alone: each function does nothing, and its
//! contract is the law.

ghost use Rattle.std.specs.Prelude.{◌≡◌, ◌⊎◌, ◌≤◌, ℕ, List, [], ◌∷◌, ◌++◌, Option, Some, true};
ghost use Rattle.jl_model.specs.declared.limits.TheConstants.{MOST_SITES};
ghost use Rattle.jl_grammar.specs.declared.tree.Item.{Item};
ghost use Rattle.jl_formed.specs.Formed.{FormedItems};
ghost use Rattle.jl_written.specs.declared.fault.Fault.{Fault};
ghost use Rattle.jl_resolve_forms.specs.declared.known.Known.{Known};
ghost use Rattle.jl_resolve_forms.specs.Top.{resolve};
ghost use Rattle.jl_resolve_forms.specs.TypesIn.{Tests};
ghost use Rattle.jl_written.specs.declared.fault.StaticKind.TheVariants.{UnknownName, UnknownFunction, UnknownType, TooManyArguments, TooManySites, Rebound, NameClash, StaticParameterUse, BadType};
ghost use Rattle.jl_fault_laws.specs.Examples.{known, good, with_unknown_name, with_unknown_function, with_many_arguments, with_unknown_type, with_two_variables, with_prelude_deletion, with_deletion, with_function_name, with_two_bindings, with_built_in, known_struct, with_inferred, method_at, lines, fault};
ghost use Rattle.jl_fault_laws.specs.Numbers.{HasNumbersOf};
ghost use Rattle.jl_fault_laws.specs.Rows.{has_row, HoldsAt, IsReportedBy, TellTypes};
ghost use Rattle.jl_fault_laws.specs.TypeRows.{RefusedAt};

/// Rows of uses of names in well-formed items. `only`: a fault UnknownName, UnknownFunction, UnknownType, Rebound, NameClash,
/// TooManySites or TooManyArguments is reported only where its row holds of a use of a name at its place, or where the declarations
/// had it. `least`: where a row holds of a use, its fault is reported, or one that it does not come before.
#[tactic(none)]
pub fn law_rows()
    ensures only { (t : Tests) → TellTypes t → (k : Known) (items : List Item) (o : Option Fault)
        → FormedItems items → (f : Fault) → has_row f.kind ≡ true
        → (resolve t k items o).fault ≡ Some f → (o ≡ Some f) ⊎ HoldsAt k items f }
    ensures least { (t : Tests) → TellTypes t → (k : Known) (items : List Item) (o : Option Fault)
        → FormedItems items → (f : Fault) → HoldsAt k items f
        → IsReportedBy (resolve t k items o).fault f }
{}

/// Each fault of well-formed items. `only`: a fault is reported only where its row of names holds of a use at its place, where a use at
/// its place is refused for its types with that fault, or where the declarations had it. `least`: where a use is refused for its types,
/// that fault is reported, or one that it does not come before.
#[tactic(none)]
pub fn law_each_fault()
    ensures only { (t : Tests) (k : Known) (items : List Item) (o : Option Fault)
        → FormedItems items → (f : Fault)
        → (resolve t k items o).fault ≡ Some f → (o ≡ Some f) ⊎ HoldsAt k items f ⊎ RefusedAt t k items f }
    ensures least { (t : Tests) (k : Known) (items : List Item) (o : Option Fault)
        → FormedItems items → (f : Fault) → RefusedAt t k items f
        → IsReportedBy (resolve t k items o).fault f }
{}

/// The rows are computed on small scripts: none holds of a program, and each holds where its fault stands.
#[tactic(none)]
pub fn law_examples()
    ensures none { (f : Fault) → HoldsAt known good f → ⊥ }
    ensures name { HoldsAt known with_unknown_name (fault 15 UnknownName) }
    ensures function { HoldsAt known with_unknown_function (fault 13 UnknownFunction) }
    ensures arguments { HoldsAt known with_many_arguments (fault 13 TooManyArguments) }
    ensures type_ { HoldsAt known with_unknown_type (fault 19 UnknownType) }
    ensures variable { HoldsAt known with_two_variables (fault 34 Rebound) }
    ensures binding { HoldsAt known with_two_bindings (fault 18 Rebound) }
    ensures function_name { HoldsAt known with_function_name (fault 18 Rebound) }
    ensures built_in { HoldsAt known with_built_in (fault 18 NameClash) }
    ensures sites { (n at : ℕ) → MOST_SITES ≤ n
        → HoldsAt known (lines n 0 ++ method_at at ∷ []) (fault at TooManySites) }
    ensures deletion { HoldsAt known with_prelude_deletion (fault 38 UnknownFunction) }
    ensures no_tuple { (t : Tests) → RefusedAt t known with_deletion (fault 41 BadType) }
    ensures inferred { (t : Tests)
        → RefusedAt t known_struct with_inferred (fault 16 StaticParameterUse) }
{}

/// What gets a number in well-formed items gets it in the order of the text: after the prelude's sites come those of the methods, each
/// before those inside it, with the function and the signature of its head; and there are as many spawn places and deletion places as
/// spawns and deletions.
#[tactic(none)]
pub fn law_numbers()
    ensures { (t : Tests) (k : Known) (items : List Item) (o : Option Fault) → FormedItems items
        → HasNumbersOf t k items (resolve t k items o).program }
{}
