//! The key that the name of a function and the text of a type mean.

ghost use Rattle.std.specs.Prelude.{◌≡◌, ◌↔◌, IfOk, IsTrue, Some, Err, drop, slice_get};
ghost use Rattle.jl_model.specs.declared.ty.Key.{Key as K};
ghost use Rattle.jl_program.specs.Prelude.{prelude_count};
ghost use Rattle.jl_program.specs.Scope.{all_types};
ghost use Rattle.jl_calculus.specs.Legal.{IsKeyOf};
ghost use Rattle.jl_reflect.specs.declared.key.QueryFault.TheVariants.{Unknown, Memory};
ghost use Rattle.jl_reflect.specs.Asked.{IsFunction, TypeMeans, TextMeans, MeansKey, IsUnknown, Finds};

use crate::key_types::key_types;
use crate::type_text::{read_meaning, read_text};
use jl_model::ty::{Bytes, Key, Tys};
use jl_program::prelude::PRELUDE_SITES;
use jl_program::tree::{Program, Site};
use jl_sig::Ready;
use jl_typeread::tree::TypeText;
use jl_types::Table;
use std::alloc::{AllocError, Global};
use thiserror::Error;

/// Why no key is answered.
#[derive(Clone, Copy, Debug, Drop, PartialEq, Eq, Error)]
pub enum QueryFault {
    /// The words mean no key of the program.
    #[error("QueryUnknown")]
    Unknown,
    /// Memory ran out.
    #[error("out of memory")]
    Memory,
}

impl From<AllocError> for QueryFault {
    ghost from_gives = { λ _ fault. fault ≡ Memory };

    fn from(_error: AllocError) -> QueryFault {
        QueryFault::Memory
    }
}

/// The definition sites of the script.
fn script_sites(program: &Program) -> &[Site]
    ensures { result.now ≡ drop prelude_count program.now.sites }
{
    let sites = program.sites.as_slice();
    let begin = PRELUDE_SITES as usize;
    if sites.len() < begin {
        return &[];
    }
    &sites[begin..]
}

/// Whether the function of this number has the name.
fn is_named(functions: &[Bytes], number: u32, name: &[u8]) -> bool
    ensures { IsTrue result ↔ (slice_get functions.now number ≡ Some name.now) }
{
    match functions.get(number as usize) {
        None => false,
        Some(known) => known.as_slice() == name,
    }
}

/// The function of a name, where a site of the script defines a method of it.
fn find_function(program: &Program, name: &[u8]) -> Option<u32>
    ensures { Finds (IsFunction program.now name.now) result }
{
    let functions = program.functions.as_slice();
    for site in script_sites(program) {
        if is_named(functions, site.function, name) {
            return Some(site.function);
        }
    }
    None
}

/// The types of a key that a written type means.
fn written_types(alloc: Global, table: &Table, text: &TypeText) -> Result<Option<Tys>, AllocError>
    ensures { IfOk result (λ found. Finds (TypeMeans table.now text.now) found) }
{
    let Some(ty) = read_meaning(alloc, table, text)? else {
        return Ok(None);
    };
    let types = key_types(alloc, table, &ty)?;
    Ok(types)
}

/// The types of a key that the text of a type means.
fn read_types(alloc: Global, table: &Table, text: &[u8]) -> Result<Option<Tys>, AllocError>
    ensures { IfOk result (λ found. Finds (TextMeans table.now text.now) found) }
{
    let Some(text) = read_text(alloc, text)? else {
        return Ok(None);
    };
    let types = written_types(alloc, table, &text);
    drop(text);
    types
}

/// The key that the name of a function and the text of a type mean.
fn find_key(alloc: Global, ready: &Ready, name: &[u8], ty: &[u8]) -> Result<Option<Key>, AllocError>
    ensures { IfOk result (λ found. Finds (MeansKey ready.now name.now ty.now) found) }
{
    let Some(function) = find_function(ready.program(), name) else {
        return Ok(None);
    };
    let Some(types) = read_types(alloc, ready.table(), ty)? else {
        return Ok(None);
    };
    Ok(Some(Key { function, types }))
}

/// The key that the name of a function and the text of a type mean. The function has a definition site in the script. The type is
/// written as in a script, and means a tuple of at most 8 concrete types without a variable, each within the limits; the key has their
/// normal forms.
///
/// # Errors
///
/// `Unknown` exactly where the words mean no key: no site of the script defines a method of a function of this name, or the text is
/// not a type from its first token to its last, has more than 67,108,864 bytes, is too deep, or means no such tuple. Besides,
/// `Memory`.
pub fn key_of(alloc: Global, ready: &Ready, name: &[u8], ty: &[u8]) -> Result<Key, QueryFault>
    ensures means { IfOk result (λ key. MeansKey ready.now name.now ty.now key) }
    ensures only { IfOk result (λ key. (other : K) → MeansKey ready.now name.now ty.now other → other ≡ key) }
    ensures proper { IfOk result (λ key. IsKeyOf ready.now key) }
    ensures unknown { result ≡ Err Unknown → IsUnknown ready.now name.now ty.now }
{
    ready.valid();
    match find_key(alloc, ready, name, ty)? {
        Some(key) => Ok(key),
        None => Err(QueryFault::Unknown),
    }
}
