//! Laws of the declarations and of the program of a script. They are about definitions alone: each function does nothing, and
//! its contract is the law.

ghost use Rattle.std.specs.Prelude.{List, ◌≡◌, take, None};
ghost use Rattle.jl_model.specs.declared.ty.Decl.{Decl};
ghost use Rattle.jl_model.specs.Refusals.{Declared};
ghost use Rattle.jl_program.specs.Valid.{IsValid};
ghost use Rattle.jl_grammar.specs.declared.tree.Item.{Item};
ghost use Rattle.jl_formed.specs.Formed.{FormedItems};
ghost use Rattle.jl_resolve_forms.specs.Top.{resolve};
ghost use Rattle.jl_resolve_forms.specs.TypesIn.{Tests};
ghost use Rattle.jl_judge.specs.Right.{IsRight};
ghost use Rattle.jl_valid.specs.Asked.{AreTold};
ghost use Rattle.jl_declare.specs.Declarations.{Declaring, Declares, no_declaration};
ghost use Rattle.jl_declare.specs.Script.{known_of};
ghost use Rattle.jl_script_laws.specs.Faultless.{AreFaultless};

/// Where the declarations of well-formed items have no fault, all are allowed, and their names are names that a script may give.
#[tactic(none)]
pub fn law_faultless()
    ensures { (items : List Item) (d : Declaring) → FormedItems items
        → Declares items no_declaration d → d.fault ≡ None → AreFaultless d }
{}

/// Tests that tell what holds over the declarations refuse what is not allowed.
#[tactic(none)]
pub fn law_right_tests()
    ensures { (ds : List Decl) (t : Tests) → IsRight ds t → AreTold ds t }
{}

/// The program of well-formed items without a fault is valid, where the allowed ones of their declarations are valid, and the
/// tests over these refuse what is not allowed.
#[tactic(none)]
pub fn law_program()
    ensures { (t : Tests) (items : List Item) (d : Declaring) → FormedItems items
        → Declares items no_declaration d → Declared (take d.allowed d.decls)
        → AreTold (take d.allowed d.decls) t
        → (resolve t (known_of items d.decls) items d.fault).fault ≡ None
        → IsValid (resolve t (known_of items d.decls) items d.fault).program }
{}
