//! Laws of the order of signatures. They are about definitions alone: each function does nothing, and its contract is
//! the law.

ghost use Rattle.std.specs.Prelude.{IsTrue, List};
ghost use Rattle.std.specs.List.{list_all, Contains};
ghost use Rattle.jl_model.specs.declared.ty.Ty.{Ty};
ghost use Rattle.jl_model.specs.declared.ty.Bound.{Bound};
ghost use Rattle.jl_model.specs.declared.ty.Decl.{Decl};
ghost use Rattle.jl_model.specs.declared.ty.Written.{Written};
ghost use Rattle.jl_model.specs.Subtype.{Table, opaque, Below, is_concrete};
ghost use Rattle.jl_model.specs.Signature.{Row, IsRow, Applicable, RowBelow, SigBelow, StrictlyBelow, SameSignature};
ghost use Rattle.jl_model.specs.Ancestors.{table_of};
ghost use Rattle.jl_model.specs.Refusals.{Declared};
ghost use Rattle.jl_subsig.specs.Alike.{AreAlike, IsKeptForm, IsKeptRow};
ghost use Rattle.jl_subsig.specs.Chain.{builtins, first_of_chain, middle_of_chain, last_of_chain};
ghost use Rattle.jl_subsume.specs.Scoped.{IsScoped, IsPlaced, IsOrdered, HasNormalArguments, IsOpen};
ghost use Rattle.jl_subsig.specs.Values.{RowBelowBy, values, BelowByValues};

/// Values are found. Where any types put for the variables of a right row serve for a left row, those serve that are found by
/// one walk over the two rows: for a diagonal variable the left part at its first place, for another one the type at an
/// invariant place of the row, or of an upper bound of a later variable, and its own upper bound with the types found put in
/// where there is none.
pub fn law_values_are_found()
    ensures { (ds : List Decl) → Declared ds → (a b : Written) → IsScoped a → IsOrdered (table_of ds) a → HasNormalArguments (table_of ds) a → IsScoped b → IsPlaced b
        → (l r : Row) → IsRow (table_of ds) a l → IsRow (table_of ds) b r → RowBelow (table_of ds) a l b r → RowBelowBy (table_of ds) a l b r (values (table_of ds) a l b r) }
{}

/// Every signature is below itself, in every table.
pub fn law_below_is_reflexive()
    ensures { (n : Table) (a : Written) → IsScoped a → SigBelow n a a }
{}

/// Concrete types that are below a signature are below every signature above it.
pub fn law_subsumption()
    ensures { (ds : List Decl) → Declared ds → (a b : Written) → IsScoped a → IsScoped b → (ts : List Ty) → IsTrue (list_all (is_concrete (table_of ds) opaque) ts)
        → SigBelow (table_of ds) a b → Applicable (table_of ds) a ts → Applicable (table_of ds) b ts }
{}

/// Which of several equal arguments of a nominal type is written does not matter, neither for the types that are below a signature
/// nor for the order.
pub fn law_equal_arguments()
    ensures applicable { (ds : List Decl) → Declared ds → (a b : Written) → AreAlike (table_of ds) a b → (ts : List Ty) → Applicable (table_of ds) a ts → Applicable (table_of ds) b ts }
    ensures below { (ds : List Decl) → Declared ds → (a b c d : Written) → AreAlike (table_of ds) a b → AreAlike (table_of ds) c d → SigBelow (table_of ds) a c → SigBelow (table_of ds) b d }
{}

/// Every signature has a kept form, with the arguments of nominal types in normal form. It differs from the signature in equal
/// arguments alone, and has all that the law of values asks.
pub fn law_kept_form()
    ensures exists { (ds : List Decl) → Declared ds → (s : Written) → (k : Written) × IsKeptForm (table_of ds) s k }
    ensures alike { (ds : List Decl) → Declared ds → (s k : Written) → IsScoped s → IsPlaced s → IsKeptForm (table_of ds) s k → AreAlike (table_of ds) s k }
    ensures scoped { (ds : List Decl) → Declared ds → (s k : Written) → IsScoped s → IsPlaced s → IsKeptForm (table_of ds) s k → IsScoped k }
    ensures placed { (ds : List Decl) → Declared ds → (s k : Written) → IsScoped s → IsPlaced s → IsKeptForm (table_of ds) s k → IsPlaced k }
    ensures ordered { (ds : List Decl) → Declared ds → (s k : Written) → IsScoped s → IsPlaced s → IsKeptForm (table_of ds) s k → IsOrdered (table_of ds) s → IsOrdered (table_of ds) k }
    ensures normal { (ds : List Decl) → Declared ds → (s k : Written) → IsScoped s → IsPlaced s → IsKeptForm (table_of ds) s k → HasNormalArguments (table_of ds) k }
{}

/// The rows of a signature's kept form are the rows of the signature, kept one by one.
pub fn law_kept_rows()
    ensures kept { (ds : List Decl) → Declared ds → (s k : Written) → IsScoped s → IsPlaced s → IsKeptForm (table_of ds) s k → (r q : Row) → IsRow (table_of ds) s r → IsKeptRow (table_of ds) s r q → IsRow (table_of ds) k q }
    ensures all { (ds : List Decl) → Declared ds → (s k : Written) → IsScoped s → IsPlaced s → IsKeptForm (table_of ds) s k → (q : Row) → IsRow (table_of ds) k q → (r : Row) × IsRow (table_of ds) s r × IsKeptRow (table_of ds) s r q }
{}

/// A signature is below another exactly where each row of its kept form is below some row of the other's kept form by the values
/// found in the two.
pub fn law_below_by_values()
    ensures complete { (ds : List Decl) → Declared ds → (a k b j : Written) → IsScoped a → IsPlaced a → IsKeptForm (table_of ds) a k → IsScoped b → IsPlaced b → IsKeptForm (table_of ds) b j
        → IsOrdered (table_of ds) a → SigBelow (table_of ds) a b → BelowByValues (table_of ds) k j }
    ensures sound { (ds : List Decl) → Declared ds → (a k b j : Written) → IsScoped a → IsPlaced a → IsKeptForm (table_of ds) a k → IsScoped b → IsPlaced b → IsKeptForm (table_of ds) b j
        → BelowByValues (table_of ds) k j → SigBelow (table_of ds) a b }
{}

/// Where no low bound fails to be below its high bound, the bounds are in order.
pub fn law_bounds_in_order()
    ensures { (ds : List Decl) → Declared ds → (s : Written) → ((b : Bound) → Contains s.vars b → (Below (table_of ds) opaque b.low b.high → ⊥) → ⊥) → IsOrdered (table_of ds) s }
{}

/// No signature is strictly below itself, and of two at most one is strictly below the other.
pub fn law_strictly_below()
    ensures irreflexive { (n : Table) (a : Written) → StrictlyBelow n a a → ⊥ }
    ensures asymmetric { (n : Table) (a b : Written) → StrictlyBelow n a b → StrictlyBelow n b a → ⊥ }
{}

/// Every signature is the same as itself, and the same both ways.
pub fn law_same_signature()
    ensures reflexive { (n : Table) (a : Written) → IsScoped a → SameSignature n a a }
    ensures symmetric { (n : Table) (a b : Written) → SameSignature n a b → SameSignature n b a }
{}

/// Below is transitive from a signature whose variables have no concrete type as an alternative of their upper bounds, where a
/// struct over variables counts as concrete. Among such signatures strictly below is transitive, and so is the same signature.
pub fn law_below_is_transitive()
    ensures below { (ds : List Decl) → Declared ds → (a b c : Written) → IsOpen (table_of ds) a → IsScoped b → IsScoped c → SigBelow (table_of ds) a b → SigBelow (table_of ds) b c → SigBelow (table_of ds) a c }
    ensures strictly { (ds : List Decl) → Declared ds → (a b c : Written) → IsOpen (table_of ds) a → IsScoped b → IsOpen (table_of ds) c
        → StrictlyBelow (table_of ds) a b → StrictlyBelow (table_of ds) b c → StrictlyBelow (table_of ds) a c }
    ensures same { (ds : List Decl) → Declared ds → (a b c : Written) → IsOpen (table_of ds) a → IsScoped b → IsOpen (table_of ds) c
        → SameSignature (table_of ds) a b → SameSignature (table_of ds) b c → SameSignature (table_of ds) a c }
{}

/// The same signature is no equivalence, and below is not transitive: `(::T, ::T, ::Int64) where T <: Int64` is the same as
/// `(::Int64, ::Int64, ::Int64)`, and this as `(::S, ::S, ::S) where S <: Int64`, yet the first is not below the last, since
/// a variable that is held fixed equals itself alone.
pub fn law_same_signature_is_no_equivalence()
    ensures scoped { IsScoped first_of_chain × IsScoped middle_of_chain × IsScoped last_of_chain }
    ensures one_two { SameSignature builtins first_of_chain middle_of_chain }
    ensures two_three { SameSignature builtins middle_of_chain last_of_chain }
    ensures one_three { SigBelow builtins first_of_chain last_of_chain → ⊥ }
{}
