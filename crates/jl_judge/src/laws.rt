//! A law of the tests of declarations. It is about definitions alone: the function does nothing, and its contract is the law.

ghost use Rattle.std.specs.Prelude.{List, ◌≡◌};
ghost use Rattle.jl_model.specs.declared.ty.Decl.{Decl};
ghost use Rattle.jl_resolve_forms.specs.TypesIn.{Tests};
ghost use Rattle.jl_judge.specs.Right.{IsRight};

/// Tests that tell what holds over the declarations are one, so that what a script means over them is one.
pub fn law_one_tests()
    ensures { (ds : List Decl) (t u : Tests) → IsRight ds t → IsRight ds u → t ≡ u }
{}
