//! Laws of the types in declarations (Julia manual, Types: Composite Types, Parametric Types).

ghost use Rattle.std.specs.Prelude.{ℕ, ◌≡◌, ◌+◌, Bool, true, false, nat_lt, List, [], ◌∷◌, ◌++◌, length, Option, None, IsTrue};
ghost use Rattle.std.specs.List.{flat_map, list_all};
ghost use Rattle.jl_model.specs.declared.ty.Bound.{Bound};
ghost use Rattle.jl_model.specs.declared.ty.Decl.{Decl};
ghost use Rattle.jl_model.specs.declared.ty.Ty.{Ty};
ghost use Rattle.jl_model.specs.Refusals.{Declared};
ghost use Rattle.jl_typeread.specs.declared.tree.TypeText.{TypeText};
ghost use Rattle.jl_typeread.specs.declared.tree.VarText.{VarText};
ghost use Rattle.jl_type_laws.specs.Parts.{read_parts, AreOwnParts, AreKnownParts};
ghost use Rattle.jl_type_laws.specs.Scripts.{DeclsKnown};

/// The declared bounds of a valid list of declarations name types of the list alone and have no variables.
pub fn law_declared_bounds()
    ensures { (ds : List Decl) → Declared ds → DeclsKnown ds }
{}

/// The types of a declaration name those before it, and in the fields itself. Where all its arguments are written they have no
/// variables but its parameters. Where no fault stands in them each name means something, and none is bound twice.
pub fn law_declared_types()
    ensures known { (ds : List Decl) → DeclsKnown ds
        → (params : List VarText) (parent : Option TypeText) (make : List Bound → Ty → Decl)
        → ((bs : List Bound) (p : Ty) → (make bs p).params ≡ bs)
        → (fields : List (Option TypeText)) → AreKnownParts ds (read_parts ds params parent make fields) }
    ensures own { (ds : List Decl) → DeclsKnown ds
        → (params : List VarText) (parent : Option TypeText) (make : List Bound → Ty → Decl)
        → ((bs : List Bound) (p : Ty) → (make bs p).params ≡ bs)
        → (fields : List (Option TypeText))
        → length (read_parts ds params parent make fields).after.vars ≡ length params
        → AreOwnParts (read_parts ds params parent make fields) }
    ensures named { (ds : List Decl) → DeclsKnown ds
        → (params : List VarText) (parent : Option TypeText) (make : List Bound → Ty → Decl)
        → ((bs : List Bound) (p : Ty) → (make bs p).params ≡ bs)
        → (fields : List (Option TypeText))
        → (read_parts ds params parent make fields).after.fault ≡ None
        → (read_parts ds params parent make fields).after.unknown ≡ false }
    ensures clear { (ds : List Decl) → DeclsKnown ds
        → (params : List VarText) (parent : Option TypeText) (make : List Bound → Ty → Decl)
        → ((bs : List Bound) (p : Ty) → (make bs p).params ≡ bs)
        → (fields : List (Option TypeText))
        → (read_parts ds params parent make fields).after.fault ≡ None
        → (read_parts ds params parent make fields).after.unclear ≡ false }
{}
