//! The declarations of a script, and which structs have constructors whose type arguments are inferred.
//!
//! The second is asked at each call of such a constructor, and an answer walks over all fields, so it is kept.

ghost use Rattle.std.specs.Prelude.{◌≡◌, slice_get, IfOk};
ghost use Rattle.std.specs.List.{list_all};
ghost use Rattle.jl_resolve_forms.specs.Parameters.{has_usable_parameters, has_usable_parameters_at, all_find};

use jl_model::ty::Decl;
use jl_names::decls::DeclList;
use jl_sig::{fields_written, usable_variables};
use std::alloc::{AllocError, Global};
use std::marker::Model;

/// Declarations, and of each whether the field types of a struct make all its parameters usable. Contracts see the list of
/// declarations.
#[derive(Drop)]
pub struct KnownDecls {
    decls: DeclList,
    finds: Vec<bool>,
}

impl Model for KnownDecls {
    ghost use Rattle.std.specs.Prelude.{List, ◌≡◌};
    ghost use Rattle.std.specs.Coded.{coded_list};
    ghost use Rattle.jl_model.specs.contracts.ty.Decl as e;
    ghost use Rattle.jl_model.specs.declared.ty.Decl.{Decl};
    ghost use Rattle.jl_resolve_forms.specs.Parameters.{all_find};

    ghost Value = { List Decl };

    ghost coded = { coded_list e.the_row.coded };

    ghost view = { λ t. t.decls };

    ghost invariant = { λ t. t.finds.items ≡ all_find t.decls };
}

impl KnownDecls {
    pub fn of(alloc: Global, decls: DeclList) -> Result<KnownDecls, AllocError>
        ensures { IfOk result (λ known. known ≡ decls) }
    {
        let finds = all_find(alloc, decls.as_slice())?;
        Ok(KnownDecls { decls, finds })
    }

    pub fn list(&self) -> &DeclList
        ensures { result.now ≡ self.now }
    {
        &self.decls
    }

    /// Whether the field types of a struct make all its parameters usable.
    pub fn finds_parameters(&self, number: u32) -> bool
        ensures { result ≡ has_usable_parameters_at (slice_get self.now number) }
    {
        match self.finds.get(number as usize) {
            None => false,
            Some(finds) => *finds,
        }
    }
}

/// Of each declaration, whether the field types of a struct make all its parameters usable.
fn all_find(alloc: Global, decls: &[Decl]) -> Result<Vec<bool>, AllocError>
    ensures { IfOk result (λ finds. finds.items ≡ all_find decls.now) }
{
    let mut finds = Vec::new(alloc);
    for decl in decls {
        finds.push(has_usable_parameters(alloc, decl)?)?;
    }
    Ok(finds)
}

/// Whether the field types of a struct make all its parameters usable.
fn has_usable_parameters(alloc: Global, decl: &Decl) -> Result<bool, AllocError>
    ensures { IfOk result (λ b. b ≡ has_usable_parameters decl.now) }
{
    let written = fields_written(alloc, decl)?;
    let flags = usable_variables(alloc, &written)?;
    Ok(are_all(flags.as_slice()))
}

fn are_all(flags: &[bool]) -> bool
    ensures { result ≡ list_all (λ b. b) flags.now }
{
    for flag in flags {
        if !*flag {
            return false;
        }
    }
    true
}
