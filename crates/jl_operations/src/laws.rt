//! Laws over the definitions alone. Each function does nothing: its contract is the law.

ghost use Rattle.std.specs.Prelude.{◌≡◌, Bool, List, map, get_or};
ghost use Rattle.jl_model.specs.declared.ty.Ty.{Ty};
ghost use Rattle.jl_model.specs.declared.ty.Ty.TheVariants as W;
ghost use Rattle.jl_model.specs.declared.ty.Decl.{Decl};
ghost use Rattle.jl_model.specs.declared.ty.Written.{Written};
ghost use Rattle.jl_model.specs.AllRows.{each_var};
ghost use Rattle.jl_model.specs.Ancestors.{table_of};
ghost use Rattle.jl_model.specs.Bindings.{bindings};
ghost use Rattle.jl_model.specs.Refusals.{Declared};
ghost use Rattle.jl_model.specs.SigRefusals.{IsAllowedSig};
ghost use Rattle.jl_model.specs.Usable.{is_usable};
ghost use Rattle.jl_program.specs.declared.tree.Program.{Program};
ghost use Rattle.jl_program.specs.declared.value.Value.{Value};
ghost use Rattle.jl_program.specs.Meaning.{datum};
ghost use Rattle.jl_program.specs.Scope.{all_types};
ghost use Rattle.jl_program.specs.TypeOf.{type_of};
ghost use Rattle.jl_program.specs.ValidValue.{AllValid, IsStructType};
ghost use Rattle.jl_sig.specs.Prepared.{HasOwnVariables};
ghost use Rattle.jl_calculus.specs.declared.history.Outcome.{Outcome};
ghost use Rattle.jl_calculus.specs.Operations.{make_struct};
ghost use Rattle.jl_calculus.specs.Statics.{with_statics};
ghost use Rattle.jl_calculus.specs.ValidStart.{AreStatics};
ghost use Rattle.jl_operations.specs.Conditions.{HaveTypes, IsMadeIn, IsWrittenIn};
ghost use Rattle.jl_operations.specs.Constructed.{IsConstructed, IsOneConstructed, made_of};
ghost use Rattle.jl_operations.specs.Prepared.{IsFormOf};

/// What a call binds to the variables of its method's signature are static parameters as the start of a task may have them, and
/// these may be put into written types.
pub fn law_statics()
    ensures bound { (ds : List Decl) → Declared ds → (s : Written) (vs : List Value) → AllValid ds (map datum vs) → AreStatics ds (each_var (is_usable s) 0 s.vars) (bindings (table_of ds) s (map type_of vs)) }
    ensures put { (ds : List Decl) (usable : List Bool) (ts : List Ty) → AreStatics ds usable ts → HaveTypes ds usable ts }
{}

/// A written type of a body in which only its own variables stand (`is_well_named` of jl_match tells it) is the same with the static
/// parameters put in, so that its signature can be kept.
pub fn law_alone()
    ensures { (P : Program) (statics : List Ty) (t : Written) → IsWrittenIn P statics t → HasOwnVariables t → with_statics statics t ≡ t }
{}

/// The normal form of the type of an explicit constructor can be kept: the struct that is made of it is the one that the constructor
/// answers.
pub fn law_kept_form()
    ensures constructed { (P : Program) (statics : List Ty) (t : Written) → IsMadeIn P statics t → IsOneConstructed (all_types P) (with_statics statics t).parts }
    ensures struct_type { (ds : List Decl) → Declared ds → (t u : Ty) → IsConstructed ds t → IsFormOf ds t u → IsStructType ds u }
    ensures answer { (ds : List Decl) → Declared ds → (s : Written) (u : Ty) (vs : List Value) (o : Outcome) → IsAllowedSig ds s → IsFormOf ds (get_or s.parts 0 W.Any) u → make_struct ds u vs o → made_of ds s vs o }
{}
