//! Laws of the program of a script. They are about definitions alone: each function does nothing, and its contract is the
//! law.

ghost use Rattle.std.specs.Prelude.{Bool, List, Option, ◌≡◌, None};
ghost use Rattle.jl_program.specs.Valid.{IsValid};
ghost use Rattle.jl_grammar.specs.declared.tree.Expr.{Expr};
ghost use Rattle.jl_grammar.specs.declared.tree.Item.{Item};
ghost use Rattle.jl_grammar.specs.declared.tree.Method.{Method};
ghost use Rattle.jl_formed.specs.Formed.{FormedExpr, FormedItems, FormedMethod};
ghost use Rattle.jl_written.specs.declared.fault.Fault.{Fault};
ghost use Rattle.jl_resolve_forms.specs.declared.known.Known.{Known};
ghost use Rattle.jl_resolve_forms.specs.Defined.{in_expr, in_method};
ghost use Rattle.jl_resolve_forms.specs.Expressions.{expr_reads, method_reads};
ghost use Rattle.jl_resolve_forms.specs.Top.{resolve};
ghost use Rattle.jl_resolve_forms.specs.TypesIn.{Tests};
ghost use Rattle.jl_valid.specs.Asked.{IsKnownOf, AreTold};
ghost use Rattle.jl_valid.specs.Parts.{IsGood, IsGoodMethod, IsKnown};
ghost use Rattle.jl_valid.specs.TypeLaws.{TypeLaws};

/// The program of well-formed items without a static fault is valid, where their declarations are valid and the tests refuse
/// what is not allowed.
#[tactic(none)]
pub fn law_valid()
    ensures { (t : Tests) (k : Known) (items : List Item) (f : Option Fault) → FormedItems items
        → IsKnownOf items k → AreTold k.decls t
        → (resolve t k items f).fault ≡ None → IsValid (resolve t k items f).program }
{}

/// What a well-formed expression becomes is valid where it stands, and so are the sites and the spawn places in it, and the names
/// that are given in it.
#[tactic(none)]
pub fn law_expression()
    ensures { (t : Tests) (k : Known) → IsKnown k → TypeLaws t k → (r : Bool) (e : Expr)
        → FormedExpr r e → IsGood k r (in_expr e) (expr_reads t k e) }
{}

/// The same of a method, of which the site is there.
#[tactic(none)]
pub fn law_method()
    ensures { (t : Tests) (k : Known) → IsKnown k → TypeLaws t k → (m : Method) → FormedMethod m
        → IsGoodMethod k (in_method m) (method_reads t k m) }
{}

/// The written types of a script are good, where its declarations are valid and the tests refuse what is not allowed.
#[tactic(none)]
pub fn law_types()
    ensures { (t : Tests) (k : Known) (items : List Item) → IsKnownOf items k
        → AreTold k.decls t → TypeLaws t k }
{}

/// A fault stays: a program without one begins without one.
#[tactic(none)]
pub fn law_faults_stay()
    ensures { (t : Tests) (k : Known) (items : List Item) (f : Option Fault) → FormedItems items
        → (resolve t k items f).fault ≡ None → f ≡ None }
{}
