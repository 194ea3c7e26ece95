//! Laws over the definitions alone. Each function does nothing: its contract is the law.

ghost use Rattle.std.specs.Prelude.{ℕ, ◌≡◌, ◌↔◌, List, Some};
ghost use Rattle.std.specs.Cmp.{IsTotalOrder};
ghost use Rattle.std.specs.declared.cmp.Ordering.TheVariants.{Equal as Tied};
ghost use Rattle.jl_model.specs.declared.ty.Ty.{Ty};
ghost use Rattle.jl_model.specs.declared.ty.Decl.{Decl};
ghost use Rattle.jl_model.specs.Ancestors.{table_of};
ghost use Rattle.jl_model.specs.Subtype.{Table as Order, opaque, lifted, Below, Equal};
ghost use Rattle.jl_model.specs.Order.{term_cmp};
ghost use Rattle.jl_model.specs.Normal.{IsNormal, IsNormalForm};
ghost use Rattle.jl_model.specs.Kept.{Settled};
ghost use Rattle.jl_model.specs.Refusals.{Declared};

/// Every type is below itself.
pub fn law_reflexive()
    ensures { (n : Order) (t : Ty) → Below n opaque t t }
{}

/// What is below a type is below all that this is below, in the table of valid declarations.
pub fn law_transitive()
    ensures { (ds : List Decl) → Declared ds → (a b c : Ty) → Below (table_of ds) opaque a b → Below (table_of ds) opaque b c → Below (table_of ds) opaque a c }
{}

/// Equal types are those of one class.
pub fn law_equal()
    ensures reflexive { (n : Order) (t : Ty) → Equal n t t }
    ensures symmetric { (n : Order) (t u : Ty) → Equal n t u → Equal n u t }
    ensures transitive { (ds : List Decl) → Declared ds → (a b c : Ty) → Equal (table_of ds) a b → Equal (table_of ds) b c → Equal (table_of ds) a c }
{}

/// An ancestor of an ancestor is an ancestor, with the arguments put in one after another.
pub fn law_ancestors_compose()
    ensures { (ds : List Decl) → Declared ds → (k m p : ℕ) (xs ys zs : List Ty) → lifted (table_of ds) k xs m ≡ Some ys → lifted (table_of ds) m ys p ≡ Some zs → lifted (table_of ds) k xs p ≡ Some zs }
{}

/// The order of terms is total, and ties only a term with itself.
pub fn law_order()
    ensures total { IsTotalOrder term_cmp }
    ensures tied { (a b : Ty) → term_cmp a b ≡ Tied → a ≡ b }
{}

/// Normal forms of equal types are the same.
pub fn law_normal()
    ensures { (ds : List Decl) → Declared ds → (a b : Ty) → IsNormal (table_of ds) a → IsNormal (table_of ds) b → Equal (table_of ds) a b → a ≡ b }
{}

/// Two types have the same normal form exactly where they are equal.
pub fn law_same_normal_form()
    ensures { (ds : List Decl) → Declared ds → (t u a b : Ty) → IsNormalForm (table_of ds) t a → IsNormalForm (table_of ds) u b → (Equal (table_of ds) t u ↔ (a ≡ b)) }
{}

/// A type is below another exactly where its normal form is below the other's.
pub fn law_below_normal_forms()
    ensures { (ds : List Decl) → Declared ds → (t u a b : Ty) → IsNormalForm (table_of ds) t a → IsNormalForm (table_of ds) u b → (Below (table_of ds) opaque t u ↔ Below (table_of ds) opaque a b) }
{}

/// Every type has a normal form.
pub fn law_normal_form_exists()
    ensures { (ds : List Decl) → Declared ds → (t : Ty) → (u : Ty) × IsNormalForm (table_of ds) t u }
{}

/// A declaration keeps a type as one type.
pub fn law_kept_once()
    ensures { (ds : List Decl) → Declared ds → (t u v : Ty) → Settled (table_of ds) t u → Settled (table_of ds) t v → u ≡ v }
{}
