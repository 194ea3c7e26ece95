//! The type variables that are visible where a type stands, and what a name means there.

ghost use Rattle.std.specs.Prelude.{◌≡◌, ◌++◌, ◌∷◌, [], List, length, take, drop, is_some, slice_get, option_copied, ◌≤◌, ◌^◌, IfOk, OnOk, OnErr};
ghost use Rattle.jl_written.specs.Meaning.{names_of, var_of, var_or, meaning_of};
ghost use Rattle.jl_written.specs.Reads.{seen_from, start_of, is_from, visible, with_own, in_bound};
ghost use Rattle.jl_written.specs.Signatures.{shifted, HasLargeNumber};
ghost use Rattle.jl_written.specs.declared.reading.TypeVar.{TypeVar as Var};

use crate::names::{to_u32, word_of};
use crate::reading::{Named, Sight, TypeVar};
use jl_names::decls::FirstDecls;
use jl_names::stack::NameStack;
use std::alloc::{AllocError, Global};
use std::marker::Model;

/// Type variables in order, of which a later one hides an earlier one of its name. Contracts see the list of variables.
#[derive(Drop)]
pub struct TypeVars {
    vars: Vec<TypeVar>,
    names: NameStack,
}

impl Model for TypeVars {
    ghost use Rattle.std.specs.Prelude.{List, ◌≡◌};
    ghost use Rattle.std.specs.Coded.{coded_list};
    ghost use Rattle.jl_written.specs.contracts.reading.TypeVar as e;
    ghost use Rattle.jl_written.specs.declared.reading.TypeVar.{TypeVar};
    ghost use Rattle.jl_written.specs.Meaning.{names_of};

    ghost Value = { List TypeVar };

    ghost coded = { coded_list e.the_row.coded };

    ghost view = { λ t. t.vars.items };

    ghost invariant = { λ t. t.names ≡ names_of t.vars.items };
}

impl TypeVars {
    pub fn new(alloc: Global) -> TypeVars
        ensures { result ≡ [] }
    {
        TypeVars {
            vars: Vec::new(alloc),
            names: NameStack::new(alloc),
        }
    }

    pub fn as_slice(&self) -> &[TypeVar]
        ensures { result.now ≡ self.now }
    {
        self.vars.as_slice()
    }

    pub fn len(&self) -> usize
        ensures { result ≡ length self.now }
    {
        self.vars.len()
    }

    /// The variable of a name, the last of several.
    pub fn find(&self, name: &[u8]) -> Option<&TypeVar>
        ensures { option_copied result ≡ var_of self.now name.now }
    {
        self.find_from(0, name)
    }

    /// The same among the variables from a place on.
    fn find_from(&self, start: usize, name: &[u8]) -> Option<&TypeVar>
        ensures { option_copied result ≡ var_of (drop start self.now) name.now }
    {
        let place = self.names.find(name)?;
        if (place as usize) < start {
            return None;
        }
        at(self.vars.as_slice(), place)
    }

    /// One more variable. The answer is whether it hides one of those from `start` on. Want of memory stands for more than 2^32 of
    /// them, too.
    fn push_from(&mut self, start: usize, var: TypeVar) -> Result<bool, AllocError>
        ensures pushed { OnOk result (self.new ≡ self.old ++ var ∷ []) }
        ensures hides { IfOk result (λ hides. hides ≡ is_some (var_of (drop start self.old) var.name)) }
    {
        // Room first: once the table has the name, nothing may fail.
        self.vars.reserve(1)?;
        let hidden = self.names.push(var.name.copy()?)?;
        self.vars.push_reserved(var);
        Ok(is_from(start, hidden))
    }

    /// One more variable. The answer is whether it hides one. Want of memory stands for more than 2^32 of them, too.
    pub fn push(&mut self, var: TypeVar) -> Result<bool, AllocError>
        ensures pushed { OnOk result (self.new ≡ self.old ++ var ∷ []) }
        ensures hides { IfOk result (λ hides. hides ≡ is_some (var_of self.old var.name)) }
    {
        self.push_from(0, var)
    }

    /// Other variables of the same names in the place of these. The table of names stays.
    pub fn renew(&mut self, vars: Vec<TypeVar>)
        requires { names_of vars.items ≡ names_of self.old }
        ensures { self.new ≡ vars.items }
    {
        self.vars = vars;
    }

    /// Only so many of the variables, from the first on.
    pub fn truncate(&mut self, most: usize)
        ensures { self.new ≡ take most self.old }
    {
        self.vars.truncate(most);
        self.names.truncate(most);
    }
}

/// Whether there is a place, from `start` on.
fn is_from(start: usize, place: Option<u32>) -> bool
    ensures { result ≡ is_from start place }
{
    match place {
        None => false,
        Some(place) => place as usize >= start,
    }
}

fn at(vars: &[TypeVar], place: u32) -> Option<&TypeVar>
    ensures { option_copied result ≡ slice_get vars.now place }
{
    vars.get(place as usize)
}

/// The variables that are declared before all those of a type's text: the static parameters of the method around it, whose numbers
/// stand behind those of so many variables of the type, or the variables of the `where` at the end of its signature. Contracts see
/// the list of them, with these numbers.
#[derive(Drop)]
pub struct Statics<'a> {
    vars: Option<&'a TypeVars>,
    by: u32,
}

impl<'a> Model for Statics<'a> {
    ghost use Rattle.std.specs.Prelude.{List, option_copied};
    ghost use Rattle.std.specs.Coded.{coded_list};
    ghost use Rattle.jl_written.specs.contracts.reading.TypeVar as e;
    ghost use Rattle.jl_written.specs.declared.reading.TypeVar.{TypeVar};
    ghost use Rattle.jl_written.specs.Signatures.{or_no_vars, shifted};

    ghost Value = { List TypeVar };

    ghost coded = { coded_list e.the_row.coded };

    ghost view = { λ t. shifted t.by (or_no_vars (option_copied t.vars)) };
}

impl<'a> Statics<'a> {
    /// No method is around.
    pub fn none() -> Statics<'a>
        ensures { result ≡ [] }
    {
        Statics { vars: None, by: 0 }
    }

    /// Variables with the numbers that they have.
    pub fn all(vars: &'a TypeVars) -> Statics<'a>
        ensures { result ≡ vars.now }
    {
        Statics {
            vars: Some(vars),
            by: 0,
        }
    }

    /// It takes no memory, and is out of memory only where the type has 2^32 variables.
    pub fn behind(vars: &'a TypeVars, by: usize) -> Result<Statics<'a>, AllocError>
        ensures shifted { IfOk result (λ s. s ≡ shifted by vars.now) }
        ensures limit { OnErr result (2 ^ 32 ≤ by) }
    {
        Ok(Statics {
            vars: Some(vars),
            by: to_u32(by)?,
        })
    }

    /// Whether one has this name.
    pub fn has(&self, name: &[u8]) -> bool
        ensures { result ≡ is_some (var_of self.now name.now) }
    {
        match self.vars {
            None => false,
            Some(vars) => vars.find(name).is_some(),
        }
    }

    /// What a name means where one that is no static parameter means the other. It takes no memory, and is out of memory only where
    /// the number of the variable is 2^32 or more.
    pub fn named_or(&self, name: &[u8], other: Named) -> Result<Named, AllocError>
        ensures means { IfOk result (λ n. n ≡ var_or (var_of self.now name.now) other) }
        ensures limit { OnErr result (HasLargeNumber (var_of self.now name.now)) }
    {
        match self.vars {
            None => Ok(other),
            Some(vars) => match vars.find(name) {
                None => Ok(other),
                Some(var) => {
                    let number = to_u32(self.by as usize + var.number as usize)?;
                    Ok(Named::Variable(number, var.usable))
                }
            },
        }
    }
}

/// What is visible around a type: the declared types, and the variables that are declared before all those of its text.
#[derive(Drop)]
pub struct Around<'a> {
    pub decls: &'a FirstDecls<'a>,
    pub first: Statics<'a>,
}

impl<'a> Around<'a> {
    /// No variable is declared before those of the text.
    pub fn top(decls: &'a FirstDecls<'a>) -> Around<'a>
        ensures decls { result.decls.now ≡ decls.now }
        ensures first { result.first ≡ [] }
    {
        Around {
            decls,
            first: Statics::none(),
        }
    }

    /// The variables of the `where` at the end of a signature, or the parameters of a declaration, are declared before.
    pub fn within(decls: &'a FirstDecls<'a>, vars: &'a TypeVars) -> Around<'a>
        ensures decls { result.decls.now ≡ decls.now }
        ensures first { result.first ≡ vars.now }
    {
        Around {
            decls,
            first: Statics::all(vars),
        }
    }
}

/// Where the variables that are seen begin.
fn start_of(sight: Sight) -> usize
    ensures { result ≡ start_of sight }
{
    match sight {
        Sight::All => 0,
        Sight::From(start) => start,
    }
}

/// What is seen behind variables of a list that begins at `start`, where `sight` tells what is seen before the list.
pub(crate) fn widen(sight: Sight, start: usize) -> Sight
    ensures { (first vars : List Var) → start ≤ length vars → seen_from first vars result
        ≡ with_own (drop start vars) (seen_from first (take start vars) sight) }
{
    match sight {
        Sight::All => Sight::All,
        Sight::From(from) => Sight::From(from.min(start)),
    }
}

/// What the bounds in such a list see: its variables, and of those before it only what a bound there sees.
pub(crate) fn bound_sight(sight: Sight, start: usize) -> Sight
    ensures { (first vars : List Var) → start ≤ length vars → seen_from first vars result
        ≡ with_own (drop start vars) (in_bound (seen_from first (take start vars) sight)) }
{
    match sight {
        Sight::All => Sight::From(start),
        Sight::From(from) => Sight::From(from.min(start)),
    }
}

/// One more variable. The answer is whether a type variable of its name was visible. One look-up tells this of the others, and
/// adds the name.
pub(crate) fn push_var(
    around: &Around<'_>,
    vars: &mut TypeVars,
    sight: Sight,
    var: TypeVar,
) -> Result<bool, AllocError>
    ensures pushed { OnOk result (vars.new ≡ vars.old ++ var ∷ []) }
    ensures bound { IfOk result (λ bound. bound
        ≡ is_some (var_of (visible (seen_from around.now.first vars.old sight)) var.name)) }
{
    let is_first = around.first.has(var.name.as_slice());
    let hides = vars.push_from(start_of(sight), var)?;
    Ok(hides || is_first)
}

/// What a name means where a type must stand: a visible type variable hides a declared type of its name.
pub(crate) fn meaning_of(
    around: &Around<'_>,
    vars: &TypeVars,
    sight: Sight,
    name: &[u8],
) -> Result<Named, AllocError>
    ensures { IfOk result (λ n. n
        ≡ meaning_of around.now.decls.now (visible (seen_from around.now.first vars.now sight)) name.now) }
{
    match vars.find_from(start_of(sight), name) {
        Some(var) => Ok(Named::Variable(var.number, var.usable)),
        None => {
            let named = around.first.named_or(name, word_of(around.decls, name))?;
            Ok(named)
        }
    }
}
