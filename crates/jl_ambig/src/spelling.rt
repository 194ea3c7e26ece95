//! Types beside their spellings, which give their order.

ghost use Rattle.std.specs.Prelude.{◌≡◌, ◌++◌, ◌∷◌, [], OnOk, IfOk, map};
ghost use Rattle.std.specs.List.{flat_map};
ghost use Rattle.jl_model.specs.Order.{spelled, spell_all, term_cmp};

use jl_model::ty::Ty;
use std::alloc::{AllocError, Global};
use std::cmp::Ordering;
use std::marker::Model;

/// Adds how many there are, and the spelling of each.
#[cycle(spell)]
#[tactic(auto, using(crate::proofs::SpellLemmas::spells))]
fn push_all(out: &mut Vec<u64>, types: &[Ty]) -> Result<(), AllocError>
    ensures { OnOk result (out.new.items ≡ out.old.items ++ spell_all (map spelled types.now)) }
{
    out.push(types.len() as u64)?;
    for ty in types {
        push_spelling(out, ty)?;
    }
    Ok(())
}

/// Adds the spelling of a type.
#[cycle(spell)]
#[tactic(auto, using(crate::proofs::SpellLemmas::spells))]
fn push_spelling(out: &mut Vec<u64>, ty: &Ty) -> Result<(), AllocError>
    ensures { OnOk result (out.new.items ≡ out.old.items ++ spelled ty.now) }
{
    match ty {
        Ty::Any => Ok(out.push(1)?),
        Ty::Union(members) => {
            if members.len() == 0 {
                return Ok(out.push(0)?);
            }
            out.push(4)?;
            push_all(out, members.as_slice())
        }
        Ty::Tuple(parts) => {
            out.push(3)?;
            push_all(out, parts.as_slice())
        }
        Ty::Nominal(name, arguments) => {
            out.push(2)?;
            out.push(*name as u64)?;
            push_all(out, arguments.as_slice())
        }
        Ty::Var(variable) => {
            out.push(5)?;
            Ok(out.push(*variable as u64)?)
        }
    }
}

/// A type with its spelling. Contracts see the type.
#[derive(Drop)]
pub(crate) struct Spelled {
    spelling: Vec<u64>,
    ty: Ty,
}

impl Model for Spelled {
    ghost use Rattle.std.specs.Prelude.{◌≡◌};
    ghost use Rattle.jl_model.specs.declared.ty.Ty.{Ty};
    ghost use Rattle.jl_model.specs.contracts.ty.Ty as t;
    ghost use Rattle.jl_model.specs.Order.{spelled};

    ghost Value = { Ty };

    ghost coded = { t.the_row.coded };

    ghost view = { λ s. s.ty };

    ghost invariant = { λ s. s.spelling.items ≡ spelled s.ty };
}

impl Spelled {
    /// A type with its spelling.
    pub(crate) fn new(alloc: Global, ty: Ty) -> Result<Spelled, AllocError>
        ensures { IfOk result (λ s. s ≡ ty) }
    {
        let mut spelling = Vec::new(alloc);
        push_spelling(&mut spelling, &ty)?;
        Ok(Spelled { spelling, ty })
    }

    /// The type.
    pub(crate) fn ty(&self) -> &Ty
        ensures { result.now ≡ self.now }
    {
        &self.ty
    }

    /// Which of two comes first in the order of terms.
    pub(crate) fn compare(&self, other: &Spelled) -> Ordering
        ensures { result ≡ term_cmp self.now other.now }
    {
        self.spelling.as_slice().cmp(other.spelling.as_slice())
    }
}
