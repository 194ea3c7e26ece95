//! The law of subsumption. It is about definitions alone: the function does nothing, and its contract is the law.

ghost use Rattle.std.specs.Prelude.{IsTrue, List};
ghost use Rattle.std.specs.List.{list_all};
ghost use Rattle.jl_model.specs.declared.ty.Decl.{Decl};
ghost use Rattle.jl_model.specs.declared.ty.Ty.{Ty};
ghost use Rattle.jl_model.specs.declared.ty.Written.{Written};
ghost use Rattle.jl_model.specs.Ancestors.{table_of};
ghost use Rattle.jl_model.specs.Refusals.{Declared};
ghost use Rattle.jl_model.specs.Signature.{Applicable, SigBelow};
ghost use Rattle.jl_model.specs.Subtype.{opaque, is_concrete};
ghost use Rattle.jl_subsume.specs.Scoped.{IsScoped};

/// Concrete types that are below a signature are below every signature above it.
pub fn law_concrete_types_stay_below()
    ensures { (ds : List Decl) → Declared ds → (a b : Written) → IsScoped a → IsScoped b → (ts : List Ty) → IsTrue (list_all (is_concrete (table_of ds) opaque) ts)
        → SigBelow (table_of ds) a b → Applicable (table_of ds) a ts → Applicable (table_of ds) b ts }
{}
