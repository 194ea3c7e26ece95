//! The table of nominal types.

ghost use Rattle.std.specs.Prelude.{◌≡◌, ◌<◌, ◌++◌, ◌∷◌, [], IfOk, OnErr, MatchOption, Option, None, Some, length, slice_get, get_or};
ghost use Rattle.jl_model.specs.declared.builtin.TheConstants.{BUILTIN_TYPES};
ghost use Rattle.jl_model.specs.Ancestors.{builtin_types, plain_decl, named, lines_after, up_in};
ghost use Rattle.jl_types.specs.Lines.{line_in};
ghost use Rattle.jl_types.specs.Terms.{builtin_terms};
ghost use Rattle.jl_model.specs.Refusals.{IsReady, Declared};
ghost use Rattle.jl_model.specs.declared.ty.DeclKind.TheVariants.{Abstract, Struct};
ghost use Rattle.jl_model.specs.declared.ty.Ty.TheVariants as W;

use crate::ancestor::Ancestor;
use crate::lineage::Lineage;
use jl_model::builtin::{BOOL, INT64, INTEGER, NOTHING, NUMBER, REAL, SIGNED, TASK};
use jl_model::ty::{Bounds, Bytes, Decl, DeclKind, Fields, Ty, Tys};
use std::alloc::{AllocError, Global};
use std::marker::Model;

/// The nominal types, by number: the eight built-in ones and then the declared ones in order. Contracts see the list of
/// their declarations, which is always valid. It also keeps the terms of the built-in types, so that the type of a value that has
/// no parts can be lent.
#[derive(Drop)]
pub struct Table {
    lineage: Lineage,
    terms: Tys,
}

impl Model for Table {
    ghost use Rattle.std.specs.Prelude.{List};
    ghost use Rattle.std.specs.Coded.{coded_list};
    ghost use Rattle.jl_model.specs.contracts.ty.Decl as e;
    ghost use Rattle.jl_model.specs.declared.ty.Decl.{Decl};
    ghost use Rattle.jl_types.specs.Terms.{IsTable};

    ghost Value = { List Decl };

    ghost coded = { coded_list e.the_row.coded };

    ghost view = { λ a. a.lineage };

    ghost invariant = { λ a. IsTable a.lineage a.terms };
}

/// A declaration without parameters and fields.
fn plain(alloc: Global, name: &[u8], kind: DeclKind, parent: Ty) -> Result<Decl, AllocError>
    ensures { IfOk result (λ d. d ≡ plain_decl name.now kind parent) }
{
    Ok(Decl {
        name: Bytes::from_vec(alloc, Vec::from_slice(alloc, name)?)?,
        kind,
        params: Bounds::empty(),
        parent,
        fields: Fields::empty(),
    })
}

/// A nominal type without arguments.
fn named(number: u32) -> Ty
    ensures { result ≡ named number }
{
    Ty::Nominal(number, Tys::empty())
}

/// The eight built-in types.
fn builtin(alloc: Global) -> Result<Lineage, AllocError>
    ensures { IfOk result (λ l. l ≡ builtin_types) }
{
    let mut lineage = Lineage::new(alloc);
    lineage.push(alloc, plain(alloc, b"Number", DeclKind::Abstract, Ty::Any)?)?;
    lineage.push(
        alloc,
        plain(alloc, b"Real", DeclKind::Abstract, named(NUMBER))?,
    )?;
    lineage.push(
        alloc,
        plain(alloc, b"Integer", DeclKind::Abstract, named(REAL))?,
    )?;
    lineage.push(
        alloc,
        plain(alloc, b"Signed", DeclKind::Abstract, named(INTEGER))?,
    )?;
    lineage.push(
        alloc,
        plain(alloc, b"Int64", DeclKind::Struct, named(SIGNED))?,
    )?;
    lineage.push(
        alloc,
        plain(alloc, b"Bool", DeclKind::Struct, named(INTEGER))?,
    )?;
    lineage.push(alloc, plain(alloc, b"Nothing", DeclKind::Struct, Ty::Any)?)?;
    lineage.push(alloc, plain(alloc, b"Task", DeclKind::Struct, Ty::Any)?)?;
    Ok(lineage)
}

/// The terms of the eight built-in types.
fn builtin_terms(alloc: Global) -> Result<Tys, AllocError>
    ensures { IfOk result (λ terms. terms ≡ builtin_terms) }
{
    let terms = vec![in alloc;
        named(NUMBER),
        named(REAL),
        named(INTEGER),
        named(SIGNED),
        named(INT64),
        named(BOOL),
        named(NOTHING),
        named(TASK),
    ]?;
    Tys::from_vec(alloc, terms)
}

impl Table {
    /// The table of the eight built-in types: Number 0, Real 1, Integer 2, Signed 3, Int64 4, Bool 5, Nothing 6, Task 7.
    pub fn new(alloc: Global) -> Result<Table, AllocError>
        ensures { IfOk result (λ t. t ≡ builtin_types) }
    {
        Ok(Table {
            lineage: builtin(alloc)?,
            terms: builtin_terms(alloc)?,
        })
    }

    /// Adds exactly this declaration, and gives its number. Where memory is refused the table is unchanged.
    pub fn add(&mut self, alloc: Global, decl: Decl) -> Result<u32, AllocError>
        requires { IsReady self.old decl }
        ensures number { IfOk result (λ number. number ≡ length self.old) }
        ensures added { IfOk result (λ number. self.new ≡ self.old ++ decl ∷ []) }
        ensures unchanged { OnErr result (self.new ≡ self.old) }
    {
        let number = self.count();
        self.lineage.push(alloc, decl)?;
        Ok(number)
    }

    /// The arguments of the ancestor `target`, or of the type itself, over the parameters of `name`. It takes no memory,
    /// and its cost is the number of ancestors.
    pub fn up(&self, name: u32, target: u32) -> Option<&Tys>
        requires { name < length self.now }
        ensures { MatchOption result (up_in self.now name target ≡ None) (λ args. up_in self.now name target ≡ Some args.now) }
    {
        self.lineage.up(name as usize, target)
    }

    /// A type and its ancestors, the nearest first, with their arguments over the parameters of the type.
    pub fn line(&self, name: u32) -> &[Ancestor]
        requires { name < length self.now }
        ensures { line_in result.now ≡ get_or (lines_after [] self.now) name [] }
    {
        self.lineage.line(name as usize)
    }

    /// The declaration of a type.
    pub fn decl(&self, name: u32) -> &Decl
        requires { name < length self.now }
        ensures { slice_get self.now name ≡ Some result.now }
    {
        self.lineage.decl(name as usize)
    }

    /// The term of a built-in type, by its number. It takes no memory.
    pub fn builtin(&self, number: u32) -> &Ty
        requires { number < BUILTIN_TYPES }
        ensures { result.now ≡ named number }
    {
        &self.terms.as_slice()[number as usize]
    }

    /// How many types there are, the built-in ones among them.
    pub fn count(&self) -> u32
        ensures { result ≡ length self.now }
    {
        self.lineage.len() as u32
    }

    /// That the table is valid, for proofs that rest on it. It does nothing.
    pub fn valid(&self)
        ensures { Declared self.now }
    {
        let _ = &self.lineage;
    }
}
