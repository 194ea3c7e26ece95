//! Declarations, each with its line of ancestors.

ghost use Rattle.std.specs.Prelude.{◌≡◌, ◌<◌, ◌^◌, ◌++◌, ◌∷◌, [], List, IfOk, OnOk, OnErr, MatchOption, Option, None, Some, map, length, slice_get, get_or};
ghost use Rattle.jl_model.specs.Ancestors.{vars_from, put_under, args_of, line_of, lines_after, up_in};
ghost use Rattle.jl_types.specs.Lines.{line_in, lines_in};

use crate::ancestor::{Ancestor, Entry};
use crate::put::put_all;
use jl_model::rows::Row;
use jl_model::ty::{Bound, Decl, Ty, Tys};
use std::alloc::{AllocError, Global};
use std::marker::Model;

/// The parameters of a type as its arguments.
#[tactic(auto, using(crate::proofs::TableLemmas::lines))]
fn own_args(alloc: Global, params: &[Bound]) -> Result<Tys, AllocError>
    requires { length params.now < 2 ^ 32 }
    ensures { IfOk result (λ args. args ≡ vars_from 0 params.now) }
{
    let mut items = Vec::new(alloc);
    for i in 0..params.len() {
        items.push(Ty::Var(i as u32))?;
    }
    Tys::from_vec(alloc, items)
}

/// Adds the ancestors through a parent, with the parent's arguments put in.
#[tactic(auto, using(crate::proofs::TableLemmas::lines))]
fn push_above(
    alloc: Global,
    line: &mut Row<Ancestor>,
    above: &[Ancestor],
    args: &[Ty],
) -> Result<(), AllocError>
    ensures { OnOk result (line_in line.new ≡ line_in line.old ++ map (put_under args.now) (line_in above.now)) }
{
    for ancestor in above {
        let args = put_all(alloc, ancestor.args.as_slice(), args)?;
        line.push(Ancestor {
            name: ancestor.name,
            args,
        })?;
    }
    Ok(())
}

/// The line of a declaration that comes after these.
fn line_of(alloc: Global, entries: &[Entry], decl: &Decl) -> Result<Row<Ancestor>, AllocError>
    requires few { length entries.now < 2 ^ 32 }
    requires narrow { length decl.now.params < 2 ^ 32 }
    ensures { IfOk result (λ line. line_in line ≡ line_of (lines_in entries.now) decl.now) }
{
    let mut line = Row::new(alloc);
    let args = own_args(alloc, decl.params.as_slice())?;
    line.push(Ancestor {
        name: entries.len() as u32,
        args,
    })?;
    if let Ty::Nominal(parent, args) = &decl.parent {
        if let Some(entry) = entries.get(*parent as usize) {
            push_above(alloc, &mut line, entry.line.as_slice(), args.as_slice())?;
        }
    }
    Ok(line)
}

/// The arguments of the first ancestor of this number.
#[tactic(auto, using(crate::proofs::TableLemmas::lines))]
fn find(line: &[Ancestor], target: u32) -> Option<&Tys>
    ensures { MatchOption result (args_of target (line_in line.now) ≡ None) (λ args. args_of target (line_in line.now) ≡ Some args.now) }
{
    for ancestor in line {
        if ancestor.name == target {
            return Some(&ancestor.args);
        }
    }
    None
}

/// Declarations in order, which contracts see as their list.
#[derive(Drop)]
pub struct Lineage {
    entries: Vec<Entry>,
}

impl Model for Lineage {
    ghost use Rattle.std.specs.Prelude.{List};
    ghost use Rattle.std.specs.Coded.{coded_list};
    ghost use Rattle.jl_model.specs.contracts.ty.Decl as e;
    ghost use Rattle.jl_model.specs.declared.ty.Decl.{Decl};

    ghost Value = { List Decl };

    ghost coded = { coded_list e.the_row.coded };

    ghost use Rattle.jl_types.specs.Lines.{decls_in, HasLines};

    ghost view = { λ a. decls_in a.entries.items };

    ghost invariant = { λ a. HasLines a.entries.items };
}

impl Lineage {
    /// No declarations.
    pub fn new(alloc: Global) -> Lineage
        ensures { result ≡ [] }
    {
        Lineage {
            entries: Vec::new(alloc),
        }
    }

    /// How many there are.
    pub fn len(&self) -> usize
        ensures { result ≡ length self.now }
    {
        self.entries.len()
    }

    /// The declaration of this number.
    pub fn decl(&self, name: usize) -> &Decl
        requires { name < length self.now }
        ensures { slice_get self.now name ≡ Some result.now }
    {
        &self.entries[name].decl
    }

    /// The arguments of an ancestor, or of the type itself, over the parameters of the type of this number.
    pub fn up(&self, name: usize, target: u32) -> Option<&Tys>
        requires { name < length self.now }
        ensures { MatchOption result (up_in self.now name target ≡ None) (λ args. up_in self.now name target ≡ Some args.now) }
    {
        find(self.entries[name].line.as_slice(), target)
    }

    /// The type of this number and its ancestors, the nearest first.
    pub fn line(&self, name: usize) -> &[Ancestor]
        requires { name < length self.now }
        ensures { line_in result.now ≡ get_or (lines_after [] self.now) name [] }
    {
        self.entries[name].line.as_slice()
    }

    /// Adds a declaration.
    pub fn push(&mut self, alloc: Global, decl: Decl) -> Result<(), AllocError>
        requires few { length self.old < 2 ^ 32 }
        requires narrow { length decl.params < 2 ^ 32 }
        ensures added { OnOk result (self.new ≡ self.old ++ decl ∷ []) }
        ensures unchanged { OnErr result (self.new ≡ self.old) }
    {
        let line = line_of(alloc, self.entries.as_slice(), &decl)?;
        self.entries.push(Entry { decl, line })?;
        Ok(())
    }
}
