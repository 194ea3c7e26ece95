//! A valid program, ready to be run.

ghost use Rattle.std.specs.Prelude.{◌≡◌, ◌<◌, ◌++◌, IfOk, MatchOption, Some, false, length, slice_get};
ghost use Rattle.jl_model.specs.Ancestors.{builtin_types};
ghost use Rattle.jl_model.specs.Refusals.{Declared};
ghost use Rattle.jl_program.specs.Scope.{all_types};
ghost use Rattle.jl_program.specs.Gathered.{inferred_structs};
ghost use Rattle.jl_program.specs.Valid.{IsValid};
ghost use Rattle.jl_sig.specs.Inferred.{is_one_of};
ghost use Rattle.jl_sig.specs.Prepared.{IsSigOf};
ghost use Rattle.jl_sig.specs.Readied.{sigs_of, place_sigs, AreSigsOf, HasValidSigs, HasFieldSig};
ghost use Rattle.jl_sig.specs.SigParts.{written_of};

use crate::field_sigs::field_sigs;
use crate::inferred::inferred_structs;
use crate::sig::Sig;
use jl_model::ty::Decl;
use jl_program::tree::{Delete, Program, Site};
use jl_types::Table;
use std::alloc::{AllocError, Global};
use std::marker::Model;

/// A valid program with what its runs need: the table of its types, the signatures of its sites and of its deletion places, and
/// those of the fields of each struct whose inferred constructor it calls. Contracts see it as the program.
#[derive(Drop)]
pub struct Ready {
    program: Program,
    table: Table,
    sites: Vec<Sig>,
    places: Vec<Sig>,
    fields: Vec<Option<Sig>>,
}

impl Model for Ready {
    ghost use Rattle.jl_program.specs.declared.tree.Program.{Program};
    ghost use Rattle.jl_sig.specs.Readied.{IsReadied};
    ghost use Rattle.jl_program.specs.contracts.tree.Program as e;

    ghost Value = { Program };

    ghost coded = { e.the_row.coded };

    ghost view = { λ r. r.program };

    ghost invariant = { λ r. IsReadied r.program r.table r.sites.items r.places.items r.fields.items };
}

/// An equal declaration, whose parts are shared.
fn copy_decl(decl: &Decl) -> Result<Decl, AllocError>
    ensures { IfOk result (λ copy. copy ≡ decl.now) }
{
    Ok(Decl {
        name: decl.name.copy()?,
        kind: decl.kind,
        params: decl.params.copy()?,
        parent: decl.parent.copy()?,
        fields: decl.fields.copy()?,
    })
}

/// The table of the built-in types and these.
fn table_with(alloc: Global, decls: &[Decl]) -> Result<Table, AllocError>
    requires { Declared (builtin_types ++ decls.now) }
    ensures { IfOk result (λ table. table ≡ builtin_types ++ decls.now) }
{
    let mut table = Table::new(alloc)?;
    for decl in decls {
        let copy = copy_decl(decl)?;
        table.add(alloc, copy)?;
    }
    Ok(table)
}

/// The signature of each site.
fn site_sigs(alloc: Global, table: &Table, sites: &[Site]) -> Result<Vec<Sig>, AllocError>
    requires { HasValidSigs (λ site. site.sig) table.now sites.now }
    ensures { IfOk result (λ sigs. AreSigsOf table.now (sigs_of sites.now) sigs.items) }
{
    let mut sigs = Vec::new(alloc);
    for site in sites {
        let sig = Sig::of(alloc, table, &site.sig)?;
        sigs.push(sig)?;
    }
    Ok(sigs)
}

/// The signature of each deletion place.
fn delete_sigs(alloc: Global, table: &Table, places: &[Delete]) -> Result<Vec<Sig>, AllocError>
    requires { HasValidSigs (λ place. place.sig) table.now places.now }
    ensures { IfOk result (λ sigs. AreSigsOf table.now (place_sigs places.now) sigs.items) }
{
    let mut sigs = Vec::new(alloc);
    for place in places {
        let sig = Sig::of(alloc, table, &place.sig)?;
        sigs.push(sig)?;
    }
    Ok(sigs)
}

impl Ready {
    /// The program with its table and its signatures.
    pub fn make(alloc: Global, program: Program) -> Result<Ready, AllocError>
        requires { IsValid program }
        ensures { IfOk result (λ ready. ready ≡ program) }
    {
        let table = table_with(alloc, program.decls.as_slice())?;
        let sites = site_sigs(alloc, &table, program.sites.as_slice())?;
        let places = delete_sigs(alloc, &table, program.deletes.as_slice())?;
        let called = inferred_structs(alloc, &program)?;
        let fields = field_sigs(alloc, &table, called.as_slice())?;
        Ok(Ready {
            program,
            table,
            sites,
            places,
            fields,
        })
    }

    /// The program as it was given.
    pub fn program(&self) -> &Program
        ensures { result.now ≡ self.now }
    {
        &self.program
    }

    /// The table of the built-in types and those that the program declares.
    pub fn table(&self) -> &Table
        ensures { result.now ≡ all_types self.now }
    {
        &self.table
    }

    /// The signature of the site of this number.
    pub fn sig(&self, site: u32) -> &Sig
        requires { site < length self.now.sites }
        ensures written { slice_get (sigs_of self.now.sites) site ≡ Some (written_of result.now) }
        ensures kept { IsSigOf (all_types self.now) result.now }
    {
        &self.sites[site as usize]
    }

    /// The signature of the deletion place of this number.
    pub fn delete_sig(&self, place: u32) -> &Sig
        requires { place < length self.now.deletes }
        ensures written { slice_get (place_sigs self.now.deletes) place ≡ Some (written_of result.now) }
        ensures kept { IsSigOf (all_types self.now) result.now }
    {
        &self.places[place as usize]
    }

    /// The signature of the fields of a struct whose inferred constructor the program calls, and nothing for another type.
    pub fn fields(&self, name: u32) -> Option<&Sig>
        requires { name < length (all_types self.now) }
        ensures { MatchOption result (is_one_of (inferred_structs self.now) name ≡ false) (λ sig. HasFieldSig self.now name sig.now) }
    {
        match &self.fields[name as usize] {
            Some(sig) => Some(sig),
            None => None,
        }
    }

    /// That the program is valid, for proofs that rest on it. It does nothing.
    pub fn valid(&self)
        ensures { IsValid self.now }
    {
        let _ = &self.program;
    }
}
