//! Laws of the types in bodies and of the signatures of methods and deletions, where no fault stands (Julia manual, Methods).

ghost use Rattle.std.specs.Prelude.{ℕ, ◌≡◌, Bool, List, IsTrue, None};
ghost use Rattle.jl_program.specs.BodyTypes.{is_struct};
ghost use Rattle.jl_grammar.specs.declared.tree.Head.{Head};
ghost use Rattle.jl_typeread.specs.declared.tree.ArgText.{ArgText};
ghost use Rattle.jl_typeread.specs.declared.tree.TypeText.{TypeText};
ghost use Rattle.jl_resolve_forms.specs.declared.known.Known.{Known};
ghost use Rattle.jl_resolve_forms.specs.declared.state.Scope.{Scope};
ghost use Rattle.jl_resolve_forms.specs.declared.state.State.{State};
ghost use Rattle.jl_resolve_forms.specs.Expressions.{method_signature, deleted_signature};
ghost use Rattle.jl_resolve_forms.specs.TypesIn.{Tests, type_in_body, make_at};
ghost use Rattle.jl_type_laws.specs.Scripts.{DeclsKnown};
ghost use Rattle.jl_type_laws.specs.Told.{StaticsFit, IsSeenType, IsMadeType, IsGoodDeletion, IsGoodSignature};

/// A type in a body, behind which no fault stands, may stand where its static parameters are visible.
pub fn law_body_type()
    ensures { (t : Tests) (k : Known) → DeclsKnown k.decls → (flags : List Bool) (c : Scope)
        → StaticsFit flags c.statics → (text : TypeText) (s : State)
        → (type_in_body t k text c s).after.fault ≡ None
        → IsSeenType t k.decls flags s (type_in_body t k text c s) }
{}

/// The type of an explicit constructor of a declared struct, behind which no fault stands, is a type of that struct.
pub fn law_constructor_type()
    ensures { (t : Tests) (k : Known) → DeclsKnown k.decls → (flags : List Bool) (c : Scope)
        → StaticsFit flags c.statics → (at p : ℕ) → IsTrue (is_struct k.decls p)
        → (xs : List ArgText) (s : State)
        → (make_at t k at p xs c s).after.fault ≡ None
        → IsMadeType t k.decls flags s (make_at t k at p xs c s) }
{}

/// The signature of a deletion without a fault that nothing refuses is a good one.
pub fn law_deleted_signature()
    ensures { (t : Tests) (k : Known) → DeclsKnown k.decls → (types : ℕ) (text : TypeText)
        → (deleted_signature t k types text).fault ≡ None
        → (deleted_signature t k types text).refusal ≡ None
        → IsGoodDeletion t k.decls (deleted_signature t k types text) }
{}

/// The signature of a method without a fault that nothing refuses is a good one.
pub fn law_signature()
    ensures { (t : Tests) (k : Known) → DeclsKnown k.decls → (types : ℕ) (h : Head)
        → (method_signature t k types h).fault ≡ None
        → (method_signature t k types h).refusal ≡ None
        → IsGoodSignature t k.decls h (method_signature t k types h) }
{}
