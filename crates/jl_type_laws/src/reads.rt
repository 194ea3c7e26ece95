//! Laws of reading one written type.

ghost use Rattle.std.specs.Prelude.{ℕ, ◌≡◌, ◌<◌, Bool, true, false, List, [], length, take, Option, None};
ghost use Rattle.jl_model.specs.declared.ty.Decl.{Decl};
ghost use Rattle.jl_model.specs.Valid.{is_known};
ghost use Rattle.jl_typeread.specs.declared.tree.TypeText.{TypeText};
ghost use Rattle.jl_typeread.specs.declared.tree.VarText.{VarText};
ghost use Rattle.jl_written.specs.declared.reading.Reading.{Reading};
ghost use Rattle.jl_written.specs.declared.reading.TypeVar.{TypeVar};
ghost use Rattle.jl_written.specs.Reads.{Seen, seen, no_reading, type_reads};
ghost use Rattle.jl_written.specs.Signatures.{option_reads, all_read, all_bound, shifted, width_of};
ghost use Rattle.jl_type_laws.specs.Carried.{Passes, vars_pass, AllHave, ReadPasses, ReadingHas, Visible, SeenHave, WhereUsable, NumbersHave};
ghost use Rattle.jl_type_laws.specs.Grown.{Grows};
ghost use Rattle.jl_type_laws.specs.Scripts.{DeclsKnown};

/// Reading only adds to what is known, whatever the text: variables come behind those that are known, a fault stays, and
/// where no fault stands behind a text each name in it means something, and none is bound twice.
pub fn law_reading_only_adds()
    ensures one { (ds : List Decl) (t : TypeText) (s : Seen) (inside : Bool)
        (r : Reading) → Grows r (type_reads ds t s inside r).after }
    ensures optional { (ds : List Decl) (t : Option TypeText) (vars : List TypeVar) (r : Reading)
        → Grows r (option_reads ds t vars r).after }
    ensures many { (ds : List Decl)
        (ts : List (Option TypeText)) (vars : List TypeVar) (r : Reading)
        → Grows r (all_read ds ts vars r).after }
    ensures variables { (ds : List Decl) (vs : List VarText) (r : Reading)
        → Grows r (all_bound ds vs r).after }
    ensures named { (ds : List Decl) (t : TypeText) (s : Seen) (inside : Bool)
        → (type_reads ds t s inside no_reading).after.fault ≡ None
        → (type_reads ds t s inside no_reading).after.unknown ≡ false }
    ensures clear { (ds : List Decl) (t : TypeText) (s : Seen) (inside : Bool)
        → (type_reads ds t s inside no_reading).after.fault ≡ None
        → (type_reads ds t s inside no_reading).after.unclear ≡ false }
{}

/// What is read names only types of the script, also where only some of its declarations are seen: the type, the bounds of all
/// variables, and the declared bounds of the places where a variable is an argument.
pub fn law_types_are_known()
    ensures one { (ds : List Decl) → DeclsKnown ds
        → (types : ℕ) (t : TypeText) (s : Seen) (inside : Bool) (r : Reading)
        → ReadingHas (Passes (is_known (length ds))) r
        → ReadPasses (is_known (length ds)) (type_reads (take types ds) t s inside r) }
    ensures many { (ds : List Decl) → DeclsKnown ds
        → (types : ℕ) (ts : List (Option TypeText)) (vars : List TypeVar) (r : Reading)
        → ReadingHas (Passes (is_known (length ds))) r
        → AllHave (Passes (is_known (length ds))) (all_read (take types ds) ts vars r).tys
        × ReadingHas (Passes (is_known (length ds))) (all_read (take types ds) ts vars r).after }
    ensures variables { (ds : List Decl) → DeclsKnown ds
        → (types : ℕ) (vs : List VarText) (r : Reading)
        → ReadingHas (Passes (is_known (length ds))) r
        → ReadingHas (Passes (is_known (length ds))) (all_bound (take types ds) vs r).after }
{}

/// What is read without a fault has no variables but the visible ones that may stand there and those that it brings: each test
/// that all of them pass is passed by every variable of the type, of the bounds and of the declared bounds of places.
pub fn law_variables_are_usable()
    ensures one { (ds : List Decl) → DeclsKnown ds
        → (types : ℕ) (q : ℕ → Bool)
        (t : TypeText) (s : Seen) (inside : Bool) (r : Reading)
        → SeenHave (WhereUsable (λ v. q v ≡ true)) s → ReadingHas (Passes (vars_pass q)) r
        → (type_reads (take types ds) t s inside r).after.fault ≡ None
        → NumbersHave (λ v. q v ≡ true) (type_reads (take types ds) t s inside r).after
        → ReadPasses (vars_pass q) (type_reads (take types ds) t s inside r) }
    ensures many { (ds : List Decl) → DeclsKnown ds
        → (types : ℕ) (q : ℕ → Bool)
        (ts : List (Option TypeText)) (vars : List TypeVar) (r : Reading)
        → Visible (WhereUsable (λ v. q v ≡ true)) vars → ReadingHas (Passes (vars_pass q)) r
        → (all_read (take types ds) ts vars r).after.fault ≡ None
        → NumbersHave (λ v. q v ≡ true) (all_read (take types ds) ts vars r).after
        → AllHave (Passes (vars_pass q)) (all_read (take types ds) ts vars r).tys
        × ReadingHas (Passes (vars_pass q)) (all_read (take types ds) ts vars r).after }
    ensures variables { (ds : List Decl) → DeclsKnown ds
        → (types : ℕ) (q : ℕ → Bool) (vs : List VarText) (r : Reading)
        → ReadingHas (Passes (vars_pass q)) r
        → (all_bound (take types ds) vs r).after.fault ≡ None
        → NumbersHave (λ v. q v ≡ true) (all_bound (take types ds) vs r).after
        → Visible (WhereUsable (λ v. q v ≡ true)) (all_bound (take types ds) vs r).vars
        × ReadingHas (Passes (vars_pass q)) (all_bound (take types ds) vs r).after }
{}

/// What is read, with a fault or without one, has no variables but the visible ones and those that it brings.
pub fn law_variables_are_visible()
    ensures one { (ds : List Decl) → DeclsKnown ds
        → (types : ℕ) (q : ℕ → Bool)
        (t : TypeText) (s : Seen) (inside : Bool) (r : Reading)
        → SeenHave (λ v usable. q v ≡ true) s → ReadingHas (Passes (vars_pass q)) r
        → NumbersHave (λ v. q v ≡ true) (type_reads (take types ds) t s inside r).after
        → ReadPasses (vars_pass q) (type_reads (take types ds) t s inside r) }
    ensures many { (ds : List Decl) → DeclsKnown ds
        → (types : ℕ) (q : ℕ → Bool)
        (ts : List (Option TypeText)) (vars : List TypeVar) (r : Reading)
        → Visible (λ v usable. q v ≡ true) vars → ReadingHas (Passes (vars_pass q)) r
        → NumbersHave (λ v. q v ≡ true) (all_read (take types ds) ts vars r).after
        → AllHave (Passes (vars_pass q)) (all_read (take types ds) ts vars r).tys
        × ReadingHas (Passes (vars_pass q)) (all_read (take types ds) ts vars r).after }
    ensures variables { (ds : List Decl) → DeclsKnown ds
        → (types : ℕ) (q : ℕ → Bool) (vs : List VarText) (r : Reading)
        → ReadingHas (Passes (vars_pass q)) r
        → NumbersHave (λ v. q v ≡ true) (all_bound (take types ds) vs r).after
        → Visible (λ v usable. q v ≡ true) (all_bound (take types ds) vs r).vars
        × ReadingHas (Passes (vars_pass q)) (all_bound (take types ds) vs r).after }
{}

/// How many variables a type in a body brings does not depend on the numbers that the static parameters have.
pub fn law_width_of_a_type()
    ensures { (ds : List Decl) (statics : List TypeVar) (t : TypeText) (n : ℕ)
        → length (type_reads ds t (seen (shifted n statics) [] false) false no_reading).after.vars
        ≡ width_of ds statics t }
{}
