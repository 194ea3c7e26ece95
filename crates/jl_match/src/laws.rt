//! Laws over the definitions alone. Each function does nothing: its contract is the law.

ghost use Rattle.std.specs.Prelude.{ℕ, ◌≡◌, ◌⊎◌, IsTrue, List};
ghost use Rattle.jl_model.specs.declared.ty.Ty.{Ty};
ghost use Rattle.jl_model.specs.declared.ty.Decl.{Decl};
ghost use Rattle.jl_model.specs.declared.ty.Bound.{Bound};
ghost use Rattle.jl_model.specs.declared.ty.Written.{Written};
ghost use Rattle.jl_model.specs.Ancestors.{table_of};
ghost use Rattle.jl_model.specs.Refusals.{Declared};
ghost use Rattle.jl_model.specs.Kinds.{once, diagonal, bound};
ghost use Rattle.jl_model.specs.Rows.{high, kind};
ghost use Rattle.jl_model.specs.Subtype.{Table, opaque, put, Below, Equal, is_concrete};
ghost use Rattle.jl_model.specs.Usable.{is_usable};
ghost use Rattle.jl_model.specs.Bindings.{binding};
ghost use Rattle.jl_model.specs.SigRefusals.{VariablePlace};
ghost use Rattle.jl_model.specs.Signature.{Row, IsRow, Applicable};
ghost use Rattle.jl_model.specs.AllRows.{ArePicks, all_rows};
ghost use Rattle.jl_match.specs.Listed.{IsKeptSig};
ghost use Rattle.jl_sig.specs.Fit.{AreKeptRows as AreKeptListed};
ghost use Rattle.jl_match.specs.SigRows.{AreKeptRows, AreRowsOf};
ghost use Rattle.jl_match.specs.Stands.{StandsIn};
ghost use Rattle.jl_sig.specs.Prepared.{HasOwnVariables};
ghost use Rattle.jl_sig.specs.declared.row.SigRow.{SigRow};
ghost use Rattle.jl_match.specs.KeptRow.{StandsFor, Fits, IsKeptRow, AreKept, AreConcrete, row_of, with_bounds};

/// What is below stays below, whatever types are put for the variables of both.
pub fn law_put()
    ensures { (ds : List Decl) → Declared ds → (f : ℕ → Ty) (t u : Ty) → Below (table_of ds) opaque t u → Below (table_of ds) opaque (put f t) (put f u) }
{}

/// Types fit a row with certain types for the variables exactly where they fit a row that stands for it with these types.
pub fn law_stands_for()
    ensures there { (ds : List Decl) → Declared ds → (s t : Written) (r k : Row) → StandsFor (table_of ds) s t r k → (ts : List Ty) (f : ℕ → Ty) → Fits (table_of ds) s r ts f → Fits (table_of ds) t k ts f }
    ensures back { (ds : List Decl) → Declared ds → (s t : Written) (r k : Row) → StandsFor (table_of ds) s t r k → (ts : List Ty) (f : ℕ → Ty) → Fits (table_of ds) t k ts f → Fits (table_of ds) s r ts f }
{}

/// What is kept of a row of a signature that nothing refuses is a kept row, and stands for it.
pub fn law_kept_row()
    ensures kept { (ds : List Decl) → Declared ds → (s : Written) (r : Row) (bs : List Bound) (us vs : List Ty) → IsRow (table_of ds) s r → AreKept ds s r bs us vs → IsKeptRow ds (with_bounds s bs) (row_of us vs) }
    ensures stands { (ds : List Decl) → Declared ds → (s : Written) (r : Row) (bs : List Bound) (us vs : List Ty) → IsRow (table_of ds) s r → AreKept ds s r bs us vs → StandsFor (table_of ds) s (with_bounds s bs) r (row_of us vs) }
{}

/// The rows of a signature that nothing refuses, all listed and then kept, are kept rows, and the rows of it.
pub fn law_rows()
    ensures kept { (ds : List Decl) → Declared ds → (s : Written) (bs : List Bound) (picks : ℕ → List Ty) → IsKeptSig ds s bs → ArePicks (table_of ds) s picks → (ks : List SigRow) → AreKeptListed ds (all_rows s picks) ks → AreKeptRows ds (with_bounds s bs) ks }
    ensures rows { (ds : List Decl) → Declared ds → (s : Written) (bs : List Bound) (picks : ℕ → List Ty) → IsKeptSig ds s bs → ArePicks (table_of ds) s picks → (ks : List SigRow) → AreKeptListed ds (all_rows s picks) ks → AreRowsOf (table_of ds) s (with_bounds s bs) ks }
{}

/// Whatever types for the variables serve, a variable of several places that a body may use stands for its binding, and the
/// binding of one with a single place, outside nominal types, is below its upper bound with these types put in. (Its lower bound is
/// not asked.)
pub fn law_bindings()
    ensures serve { (ds : List Decl) → Declared ds → (s : Written) → HasOwnVariables s → (VariablePlace s → ⊥) → (ts : List Ty) → AreConcrete ds ts → (r : Row) (f : ℕ → Ty) → IsRow (table_of ds) s r → Fits (table_of ds) s r ts f → (v : ℕ) → IsTrue (is_usable s v) → (kind s v ≡ diagonal) ⊎ (kind s v ≡ bound) → Equal (table_of ds) (binding (table_of ds) s ts v) (f v) }
    ensures once { (ds : List Decl) → Declared ds → (s : Written) → HasOwnVariables s → (VariablePlace s → ⊥) → (ts : List Ty) → AreConcrete ds ts → (r : Row) (f : ℕ → Ty) → IsRow (table_of ds) s r → Fits (table_of ds) s r ts f → (v : ℕ) → IsTrue (is_usable s v) → kind s v ≡ once → Below (table_of ds) opaque (binding (table_of ds) s ts v) (put f (high s v)) }
{}

/// Where a signature applies, the binding of a variable with a single place, outside nominal types, is concrete. It stands at that
/// place in one of the arguments, and nothing else does.
pub fn law_single_bindings()
    ensures concrete { (ds : List Decl) → Declared ds → (s : Written) → HasOwnVariables s → (VariablePlace s → ⊥) → (ts : List Ty) → AreConcrete ds ts → Applicable (table_of ds) s ts → (v : ℕ) → IsTrue (is_usable s v) → kind s v ≡ once → IsTrue (is_concrete (table_of ds) opaque (binding (table_of ds) s ts v)) }
    ensures stands { (ds : List Decl) → Declared ds → (s : Written) → HasOwnVariables s → (VariablePlace s → ⊥) → (ts : List Ty) → AreConcrete ds ts → Applicable (table_of ds) s ts → (v : ℕ) → IsTrue (is_usable s v) → kind s v ≡ once → StandsIn v (binding (table_of ds) s ts v) s.parts ts }
    ensures only { (n : Table) (s : Written) → HasOwnVariables s → (VariablePlace s → ⊥) → (ts : List Ty) (v : ℕ) → IsTrue (is_usable s v) → kind s v ≡ once → (y : Ty) → StandsIn v y s.parts ts → y ≡ binding n s ts v }
{}
