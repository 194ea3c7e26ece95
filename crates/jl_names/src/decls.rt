//! Declarations that are found by their names.

ghost use Rattle.std.specs.Prelude.{◌≡◌, ◌++◌, ◌∷◌, [], List, length, take, slice_get, option_copied, IfOk, OnOk};
ghost use Rattle.jl_model.specs.declared.ty.Decl.{Decl};
ghost use Rattle.jl_names.specs.Numbers.{number_in, with_places, names_of};

use crate::table::{NameMap, to_u32};
use jl_model::ty::Decl;
use std::alloc::{AllocError, Global};
use std::marker::Model;

/// An equal declaration, whose parts are shared.
pub fn copy_decl(decl: &Decl) -> Result<Decl, AllocError>
    ensures { IfOk result (λ copy. copy ≡ decl.now) }
{
    Ok(Decl {
        name: decl.name.copy()?,
        kind: decl.kind,
        params: decl.params.copy()?,
        parent: decl.parent.copy()?,
        fields: decl.fields.copy()?,
    })
}

/// Declarations in order, some of them maybe of one name. Contracts see the list of declarations.
#[derive(Drop)]
pub struct DeclList {
    decls: Vec<Decl>,
    numbers: NameMap,
}

impl Model for DeclList {
    ghost use Rattle.std.specs.Prelude.{List, ◌≡◌};
    ghost use Rattle.std.specs.Coded.{coded_list};
    ghost use Rattle.jl_model.specs.contracts.ty.Decl as e;
    ghost use Rattle.jl_model.specs.declared.ty.Decl.{Decl};
    ghost use Rattle.jl_names.specs.Numbers.{first_numbers, with_places, names_of};

    ghost Value = { List Decl };

    ghost coded = { coded_list e.the_row.coded };

    ghost view = { λ t. t.decls.items };

    ghost invariant = { λ t. t.numbers ≡ first_numbers (with_places 0 (names_of t.decls.items)) };
}

impl DeclList {
    pub fn new(alloc: Global) -> DeclList
        ensures { result ≡ [] }
    {
        DeclList {
            decls: Vec::new(alloc),
            numbers: NameMap::new(alloc),
        }
    }

    pub fn as_slice(&self) -> &[Decl]
        ensures { result.now ≡ self.now }
    {
        self.decls.as_slice()
    }

    pub fn len(&self) -> usize
        ensures { result ≡ length self.now }
    {
        self.decls.len()
    }

    /// The number of the first declaration of a name.
    pub fn find(&self, name: &[u8]) -> Option<u32>
        ensures { result ≡ number_in (with_places 0 (names_of self.now)) name.now }
    {
        self.numbers.find(name)
    }

    /// One more declaration. Want of memory stands for more than 2^32 of them, too.
    pub fn push(&mut self, decl: Decl) -> Result<(), AllocError>
        ensures { OnOk result (self.new ≡ self.old ++ decl ∷ []) }
    {
        let number = to_u32(self.decls.len())?;
        // Room first: once the table has the name, nothing may fail.
        self.decls.reserve(1)?;
        self.numbers.add(&decl.name, number)?;
        self.decls.push_reserved(decl);
        Ok(())
    }

    /// All declarations but the last, where there is one.
    pub fn pop(&mut self)
        ensures last { (ds : List Decl) (d : Decl) → self.old ≡ ds ++ d ∷ [] → self.new ≡ ds }
        ensures none { self.old ≡ [] → self.new ≡ [] }
    {
        let count = self.decls.len();
        if count == 0 {
            return;
        }
        let last = count - 1;
        let number = self.find(self.decls[last].name.as_slice());
        self.decls.truncate(last);
        match number {
            None => {}
            Some(number) => {
                if number as usize == last {
                    self.numbers.pop();
                }
            }
        }
    }

    /// The first so many declarations, or all where there are fewer.
    pub fn first(&self, count: usize) -> FirstDecls<'_>
        ensures { result ≡ take count self.now }
    {
        FirstDecls { all: self, count }
    }

    /// All declarations.
    pub fn all(&self) -> FirstDecls<'_>
        ensures { result ≡ self.now }
    {
        FirstDecls {
            all: self,
            count: self.decls.len(),
        }
    }
}

/// The first declarations of a list. Contracts see the list of these.
#[derive(Drop)]
pub struct FirstDecls<'a> {
    all: &'a DeclList,
    count: usize,
}

impl<'a> Model for FirstDecls<'a> {
    ghost use Rattle.std.specs.Prelude.{List, take};
    ghost use Rattle.std.specs.Coded.{coded_list};
    ghost use Rattle.jl_model.specs.contracts.ty.Decl as e;
    ghost use Rattle.jl_model.specs.declared.ty.Decl.{Decl};

    ghost Value = { List Decl };

    ghost coded = { coded_list e.the_row.coded };

    ghost view = { λ t. take t.count t.all.now };
}

impl FirstDecls<'_> {
    /// The declaration of a number.
    pub fn get(&self, number: u32) -> Option<&Decl>
        ensures { option_copied result ≡ slice_get self.now number }
    {
        if number as usize >= self.count {
            return None;
        }
        self.all.as_slice().get(number as usize)
    }

    /// The number of the first declaration of a name.
    pub fn find(&self, name: &[u8]) -> Option<u32>
        ensures { result ≡ number_in (with_places 0 (names_of self.now)) name.now }
    {
        match self.all.find(name) {
            Some(number) if (number as usize) < self.count => Some(number),
            _ => None,
        }
    }
}
